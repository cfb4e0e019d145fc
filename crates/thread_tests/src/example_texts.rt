//! The programs of `examples/`, each with the rows of its sources. `tests/as_tests` writes this file.

const ASKED_CSV: &str = "north,2,ann
south,2,ann
south,3,ben
west,4,ann
west,9,ann
north,,ann
east,1,ann
";

const BASKET_CSV: &str = "tea,3,425
milk,2,119
bread,1,349
";

const COLORS_CSV: &str = "red
green
";

const CUSTOMERS_CSV: &str = "1,Ann,DE
2,Bob,FR
";

const D_CSV: &str = "1,5
1,5
";

const DRILL_CSV: &str = "1,-752,t66
952,610,t36
19,-455,t38
729,-108,t84
844,407,t93
359,-330,
167,819,t91
163,123,t81
721,365,t92
522,730,t83
230,319,t1
988,-412,t71
91,-685,t61
288,730,t8
223,-286,
132,-448,t99
720,-479,t94
611,-554,t72
24,-963,t56
380,-183,
170,282,t6
361,-239,t1
442,-544,t99
813,-558,t45
202,45,t92
269,94,t97
633,-785,t47
809,287,t5
688,575,t25
31,-117,t64
819,854,t85
490,92,t74
608,-512,t25
526,-943,t85
728,-732,t93
862,228,t63
775,-352,t81
306,-970,t32
412,469,t15
955,937,
";

const E_CSV: &str = "1,5
1,-3
";

const G_CSV: &str = "1,1
2,2
3,3
4,4
1,2
2,1
2,3
3,2
";

const GUESTS_CSV: &str = "3,Cleo
4,Dan
";

const H_CSV: &str = "0,0
1,1
2,2
3,3
4,4
5,5
6,6
7,7
8,8
9,9
0,10
1,11
2,12
3,13
4,14
5,15
6,16
7,17
8,18
9,19
0,20
1,21
2,22
3,23
4,24
5,25
6,26
7,27
8,28
9,29
0,30
1,31
2,32
3,33
4,34
5,35
6,36
7,37
8,38
9,39
0,40
1,41
2,42
3,43
4,44
5,45
6,46
7,47
8,48
9,49
0,50
1,51
2,52
3,53
4,54
5,55
6,56
7,57
8,58
9,59
0,60
1,61
2,62
3,63
4,64
5,65
6,66
7,67
8,68
9,69
0,70
1,71
2,72
3,73
4,74
5,75
6,76
7,77
8,78
9,79
0,80
1,81
2,82
3,83
4,84
5,85
6,86
7,87
8,88
9,89
0,90
1,91
2,92
3,93
4,94
5,95
6,96
7,97
8,98
9,99
";

const KNOWN_CSV: &str = "Bern,0
";

const M_CSV: &str = ",9
";

const MEMBERS_CSV: &str = "1,Ann
2,Bob
3,Cleo
,Eve
";

const N_CSV: &str = ",5
";

const NAMES_CSV: &str = "Ann,DE,2
Bob,,1
\"Cruz, Eva\",ES,3
";

const ONE_CSV: &str = "1
";

const ORDERS_CSV: &str = "10,1,250
11,1,50
12,2,75
13,1,
";

const PRICES_CSV: &str = "1,tea,320
1,bread,410
1,milk,150
2,tea,350
2,bread,390
2,milk,160
3,tea,300
3,bread,450
3,milk,170
";

const QUARTERS_CSV: &str = "north,10,12,8,15
south,7,,9,4
west,20,18,22,19
";

const ROADS_CSV: &str = "Bern,Thun,31
Thun,Bern,31
Thun,Spiez,13
Spiez,Thun,13
Spiez,Brig,57
Brig,Spiez,57
Bern,Basel,99
Basel,Bern,99
Bern,Olten,66
Olten,Bern,66
Olten,Basel,45
Basel,Olten,45
Olten,Zürich,65
Zürich,Olten,65
Bern,Zürich,140
Zürich,Bern,140
Chur,Davos,60
Davos,Chur,60
";

const S_CSV: &str = "1,5
2,-3
1,7
";

const S1_CSV: &str = "1,5
";

const SALES_CSV: &str = "north,1,250
north,2,-80
south,1,
north,2,75
west,3,-2
south,3,40
north,2,75
east,4,
west,2,-5
";

const SCORES_CSV: &str = "Ann,7
Bob,9
Cleo,4
Dan,9
Eve,7
";

const SHOPS_CSV: &str = "1,Oslo
2,Bergen
3,Oslo
";

const SIZES_CSV: &str = "30
10
";

const SOLD_CSV: &str = "1,tea,4
1,tea,0
1,tea,2
1,bread,2
1,bread,1
1,milk,
2,tea,3
2,tea,1
2,bread,0
2,bread,5
2,milk,1
2,milk,6
3,tea,6
3,tea,0
3,bread,1
3,bread,3
3,bread,
3,milk,2
3,milk,7
3,coffee,9
";

const STAFF_CSV: &str = "1,Ann,
2,Bob,1
3,Cleo,1
4,Dan,2
";

const T_CSV: &str = "1,9
1,8
";

const T3_CSV: &str = "1,9
1,8
3,7
";

const U_CSV: &str = "9,3
";

const V_CSV: &str = "1,1
2,2
3,3
4,4
";

const VISITS_CSV: &str = "1,10
1,12
3,7
9,8
,5
";

const ANTI_JOIN_PACT: &str = "pact 1
fields 4
source member members.csv int:0 text:1
source visit visits.csv int:2 int:3
function unknown cogroup 1
  v0 = int 0
  v1 = key 0
  v1 = isnull v1
  v1 = not v1             # Null has a group, but no partner
  each x1 of right
    v0 = max v0 v1        # 1 where there is a visit
  end
  v0 = not v0
  if v0
    each x1 of left
      r0 = copy x1
      emit r0
    end
  end
end
cogroup unseen unknown member visit by 0 = 2
sink unseen 0 1
";

const AVERAGE_PACT: &str = "pact 1
fields 6
source sale sales.csv text:0 int:1 int:2
function mean reduce 1
  v0 = int 0
  v1 = int 0
  each x1 of group
    v2 = get x1 2
    v0 = addw v0 v2       # a row without an amount adds 0 to the sum
    v3 = isnull v2
    v3 = not v3
    v1 = addw v1 v3       # and to the count
  end
  v4 = div v0 v1          # Null where the count is 0
  r0 = new
  v5 = key 0
  set r0 0 v5
  set r0 3 v0
  set r0 4 v1
  set r0 5 v4
  emit r0
end
reduce means mean sale by 0
sink means 0 3 4 5
";

const BEST_OF_GROUP_PACT: &str = "pact 1
fields 3
source sale sales.csv text:0 int:1 int:2
function best reduce 1
  each x1 of group
    v1 = get x1 2
    v0 = max v0 v1
  end
  v3 = isnull v0
  v4 = key 0
  v4 = isnull v4
  v3 = or v3 v4
  v3 = not v3             # none is the best if no row has an amount, or the region is Null
  each x1 of group
    v1 = get x1 2
    v2 = eq v1 v0
    v2 = and v2 v3
    if v2
      r0 = copy x1
      emit r0
    end
  end
end
reduce greatest best sale by 0
sink greatest 0 1 2
";

const CITY_COUNT_PACT: &str = "pact 1
fields 7
source shop shops.csv int:0 text:1
source sale sold.csv int:2 text:3 int:4
function count cogroup 1
  v0 = int 0
  v1 = key 0
  v1 = isnull v1
  v1 = not v1
  each x1 of right
    v0 = addw v0 v1
  end
  each x1 of left
    r0 = copy x1
    set r0 5 v0
    emit r0
  end
end
function add_up reduce 1
  v0 = int 0
  each x1 of group
    v1 = get x1 5
    v0 = addw v0 v1
  end
  r0 = new
  v2 = key 0
  set r0 1 v2
  set r0 6 v0
  emit r0
end
cogroup counted count shop sale by 0 = 2
reduce cities add_up counted by 1
sink cities 1 6
";

const COGROUP_PACT: &str = "pact 1
fields 6
source s s.csv int:0 int:1
source t t3.csv int:2 int:3
function both cogroup 1
  v0 = key 0
  r0 = new
  set r0 0 v0
  v1 = int 0
  v3 = int 0
  v2 = int 1
  each x1 of left
    v1 = addw v1 v2
  end
  each x1 of right
    v3 = addw v3 v2
  end
  set r0 4 v1
  set r0 5 v3
  emit r0
end
cogroup g both s t by 0 = 2
sink g 0 4 5
";

const COND_PACT: &str = "pact 1
fields 4
source s s.csv int:0 int:1
function cond map
  r0 = copy in
  v2 = get in 0
  v3 = int 9
  if v2
    set r0 2 v3
  end
  emit r0
end
function own map
  r0 = new
  v0 = get in 0
  set r0 0 v0
  v0 = get in 1
  set r0 1 v0
  v0 = get in 2
  set r0 2 v0
  v0 = get in 3
  set r0 3 v0
  emit r0
end
map a cond s
map b own a
sink b 0 1 2
";

const COUNT_PACT: &str = "pact 1
fields 4
source s e.csv int:0 int:1
function pos map
  r0 = copy in
  v0 = get in 1
  v1 = int 0
  v2 = lt v1 v0
  if v2
    emit r0
  end
end
function cnt reduce 1
  v0 = int 0
  v1 = int 1
  each x1 of group
    v0 = addw v0 v1
  end
  each x1 of group
    r0 = copy x1
    set r0 3 v0
    emit r0
  end
end
reduce r cnt s by 0
map m pos r
sink m 0 1 3
";

const COUNT_ALL_PACT: &str = "pact 1
fields 4
source s s.csv int:0 int:1
function same map
  v0 = int 0
  r0 = copy in
  set r0 2 v0
  emit r0
end
function count reduce 1
  v0 = int 0
  v1 = int 1
  each x1 of group
    v0 = addw v0 v1
  end
  r0 = new
  set r0 3 v0
  emit r0
end
map all same s
reduce total count all by 2
sink total 3
";

const COUNT_COLUMN_PACT: &str = "pact 1
fields 5
source sale sales.csv text:0 int:1 int:2
function count reduce 1
  v0 = int 0
  v1 = int 0
  v2 = int 1
  each x1 of group
    v0 = addw v0 v2
    v3 = get x1 2
    v3 = isnull v3
    v3 = not v3
    v1 = addw v1 v3
  end
  r0 = new
  v4 = key 0
  set r0 0 v4
  set r0 3 v0
  set r0 4 v1
  emit r0
end
reduce counts count sale by 0
sink counts 0 3 4
";

const COUNT_DISTINCT_PACT: &str = "pact 1
fields 4
source sale sales.csv text:0 int:1 int:2
function once reduce 2
  r0 = new
  v0 = key 0
  set r0 0 v0
  v0 = key 1
  set r0 2 v0
  emit r0
end
function count reduce 1
  v0 = int 0
  each x1 of group
    v1 = get x1 2
    v1 = isnull v1
    v1 = not v1
    v0 = addw v0 v1
  end
  r0 = new
  v2 = key 0
  set r0 0 v2
  set r0 3 v0
  emit r0
end
reduce amounts once sale by 0 2
reduce counts count amounts by 0
sink counts 0 3
";

const COUNT_OR_ZERO_PACT: &str = "pact 1
fields 5
source s s.csv int:0 int:1
source one one.csv int:2
function above map
  v0 = get in 1
  v1 = int 100
  v2 = lt v1 v0
  if v2
    r0 = copy in
    v3 = int 1
    set r0 3 v3
    emit r0
  end
end
function count cogroup 1
  v0 = int 0
  v1 = int 1
  each x1 of left
    v0 = addw v0 v1
  end
  r0 = new
  set r0 4 v0
  emit r0
end
map large above s
cogroup total count large one by 3 = 2
sink total 4
";

const COUNTED_PACT: &str = "pact 1
fields 6
source s s.csv int:0 int:1
source t t3.csv int:2 int:3
function counted cogroup 1
  v0 = int 0
  v1 = int 1
  each x1 of right
    v0 = addw v0 v1
  end
  each x1 of left
    r0 = copy x1
    set r0 4 v0
    emit r0
  end
end
cogroup g counted s t by 0 = 2
sink g 0 1 4
";

const CROSS_PACT: &str = "pact 1
fields 3
source c colors.csv text:0
source z sizes.csv int:1
function label cross
  r0 = copy join
  v0 = get left 0
  v1 = text \" cup\"
  v2 = cat v0 v1
  set r0 2 v2
  emit r0
end
cross p label c z
sink p 2 1
";

const DECIMALS_PACT: &str = "pact 1
fields 6
source item basket.csv text:0 int:1 int:2
function tax map
  v0 = get in 1
  v1 = get in 2
  v2 = mul v0 v1
  v3 = int 75
  v4 = mul v2 v3
  v5 = int 500
  v4 = add v4 v5
  v6 = int 1000
  v4 = div v4 v6
  v7 = add v2 v4
  r0 = copy in
  set r0 3 v2
  set r0 4 v4
  set r0 5 v7
  emit r0
end
map taxed tax item
sink taxed 0 3 4 5
";

const DISCOUNT_PACT: &str = "pact 2
fields 128
source sold sold.csv int:65 text:3 int:127
source prices prices.csv int:64 text:66 int:2
source percent sizes.csv int:100
source shops shops.csv int:63 text:126
function pair match
  r0 = copy join
  emit r0
end
function some map
  v0 = get in 127
  v1 = int 0
  v2 = lt v1 v0
  if v2
    r0 = copy in
    emit r0
  end
end
function cut cross
  v0 = get left 127
  v1 = get left 2
  v2 = mul v0 v1
  v3 = int 100
  v4 = get right 100
  v5 = sub v3 v4
  v6 = mul v2 v5
  r0 = copy join
  set r0 120 v6
  emit r0
end
function total reduce 2
  v0 = int 0
  each x1 of group
    v1 = get x1 120
    v0 = addw v0 v1
  end
  v1 = int 100
  v0 = div v0 v1
  r0 = new
  v2 = key 0
  set r0 65 v2
  v2 = key 1
  set r0 100 v2
  set r0 1 v0
  emit r0
end
function placed cogroup 1
  each x1 of left
    each x2 of right
      r0 = copy x1
      v0 = get x2 126
      set r0 126 v0
      emit r0
    end
  end
end
function other map
  v0 = get in 65
  v1 = int 2
  v2 = eq v0 v1
  v3 = not v2
  if v3
    r0 = copy in
    emit r0
  end
end
match priced pair sold prices by 65 3 = 64 66
map positive some priced
cross reduced cut positive percent
reduce taken total reduced by 65 100
cogroup named placed taken shops by 65 = 63
map open other named
sink open 126 100 1
";

const DISTANCES_PACT: &str = "pact 1
fields 5
source known known.csv text:0 int:1
source road roads.csv text:2 text:3 int:4
function further cogroup 1
  each x1 of left
    r0 = new
    v0 = get x1 0
    v1 = get x1 1
    set r0 0 v0
    set r0 1 v1
    emit r0               # what is known stays known
    each x2 of right
      r0 = new
      v0 = get x2 3
      v1 = get x1 1
      v2 = get x2 4
      v1 = add v1 v2
      set r0 0 v0
      set r0 1 v1
      emit r0
    end
  end
end
function least reduce 1
  v0 = int 9223372036854775807
  each x1 of group
    v1 = get x1 1
    v0 = min v0 v1
  end
  r0 = new
  v2 = key 0
  set r0 0 v2
  set r0 1 v0
  emit r0
end
cogroup ways further known road by 0 = 2
reduce nearest least ways by 0
sink nearest 0 1
";

const DISTINCT_PACT: &str = "pact 1
fields 3
source sale sales.csv text:0 int:1 int:2
function once reduce 2
  r0 = new
  v0 = key 0
  set r0 0 v0
  v0 = key 1
  set r0 1 v0
  emit r0
end
reduce pairs once sale by 0 1
sink pairs 0 1
";

const DRILL_PACT: &str = "pact 1
fields 4
source g drill.csv int:0 int:1 text:2
function total reduce 1
  v0 = int 0
  each x1 of group
    v1 = get x1 1
    v0 = addw v0 v1
  end
  r0 = new
  v2 = key 0
  set r0 0 v2
  set r0 3 v0
  emit r0
end
function low map
  v0 = get in 0
  v1 = int 500
  v2 = lt v0 v1
  if v2
    r0 = copy in
    emit r0
  end
end
reduce r total g by 0
map m low r
sink m 0 3
";

const EXTREMES_PACT: &str = "pact 1
fields 5
source sale sales.csv text:0 int:1 int:2
function span reduce 1
  v0 = text \"\"            # greater than every number
  each x1 of group
    v2 = get x1 2
    v1 = max v1 v2        # Null only where no row has an amount
    v3 = isnull v2
    if v3
    else
      v0 = min v0 v2
    end
  end
  v3 = isnull v1
  if v3
    v0 = null
  end
  r0 = new
  v4 = key 0
  set r0 0 v4
  set r0 3 v0
  set r0 4 v1
  emit r0
end
reduce spans span sale by 0
sink spans 0 3 4
";

const FILTER_PACT: &str = "pact 1
fields 4
source s s.csv int:0 int:1
function pos map
  r0 = copy in
  v0 = get in 1
  v1 = int 0
  v2 = lt v1 v0
  if v2
    emit r0
  end
end
map m pos s
sink m 0 1
";

const FIVE_PACT: &str = "pact 1
fields 6
source s s.csv int:0 int:1
source t t.csv int:2 int:3
function lft match
  r0 = copy left
  emit r0
end
function five map
  r0 = copy in
  v0 = int 7
  set r0 5 v0
  emit r0
end
match g lft s t by 0 = 2
map m five g
sink m 0 1 5
";

const FLAG_PACT: &str = "pact 1
fields 4
source s s.csv int:0 int:1
function flag map
  r0 = copy in
  v0 = get in 1
  if v0
    v1 = int 1
    set r0 3 v1
  end
  emit r0
end
map m flag s
sink m 0 1 3
";

const FULL_JOIN_PACT: &str = "pact 1
fields 4
source member members.csv int:0 text:1
source visit visits.csv int:2 int:3
function full cogroup 1
  v0 = int 0
  v1 = int 0
  v2 = key 0
  v2 = isnull v2
  v2 = not v2             # Null has a group, but no partner
  each x1 of left
    v0 = max v0 v2        # 1 where there is a member
  end
  each x1 of right
    v1 = max v1 v2        # 1 where there is a visit
  end
  v3 = and v0 v1
  if v3
    each x1 of left
      each x2 of right
        r0 = copy x1
        v4 = get x2 2
        set r0 2 v4
        v4 = get x2 3
        set r0 3 v4
        emit r0
      end
    end
  else
    # one of the two has no record, or nobody is known
    each x1 of left
      r0 = copy x1
      emit r0
    end
    each x1 of right
      r0 = copy x1
      emit r0
    end
  end
end
cogroup all full member visit by 0 = 2
sink all 0 1 2 3
";

const GREET_PACT: &str = "pact 1
fields 4
source people names.csv text:0 text:1 int:2
function greet map
  v0 = get in 0
  v1 = text \"\\\"hi\\\" \"
  v2 = get in 2
  v3 = int 1
  v4 = cat v1 v0
  r0 = copy in
  v5 = get in 1
  v6 = isnull v5
  if v6
    v7 = text \"nowhere\"
    set r0 1 v7
  else
    repeat 2
      v2 = addw v2 v3
    end
  end
  set r0 0 v4
  set r0 3 v2
  emit r0
end
map g greet people
sink g 3 0 1
";

const HAVING_PACT: &str = "pact 1
fields 4
source sale sales.csv text:0 int:1 int:2
function add_up reduce 1
  v0 = int 0
  each x1 of group
    v1 = get x1 2
    v0 = addw v0 v1
  end
  v1 = int 0
  v2 = lt v1 v0
  if v2
    r0 = new
    v3 = key 0
    set r0 0 v3
    set r0 3 v0
    emit r0
  end
end
reduce sums add_up sale by 0
sink sums 0 3
";

const INNER_JOIN_PACT: &str = "pact 2
fields 4
source member members.csv int:0 text:1
source visit visits.csv int:2 int:3
function pair match
  r0 = copy join
  emit r0
end
match seen pair member visit by 0 = 2
sink seen 0 1 3
";

const JOIN_PACT: &str = "pact 1
fields 6
source s s1.csv int:0 int:1
source t t.csv int:2 int:3
function jn match
  r0 = copy join
  emit r0
end
match g jn s t by 0 = 2
sink g 0 1 2 3
";

const JOIN3_PACT: &str = "pact 1
fields 6
source s s1.csv int:0 int:1
source t t.csv int:2 int:3
function jn match
  r0 = copy join
  emit r0
end
match g jn s t by 0 = 2
source u u.csv int:4 int:5
match h jn g u by 3 = 4
sink h 0 1 2 3 4 5
";

const LABEL_PACT: &str = "pact 1
fields 4
source v v.csv int:0 int:1
source e g.csv int:2 int:3
function nb match
  r0 = new
  v0 = get right 3
  set r0 0 v0
  v0 = get left 1
  set r0 1 v0
  emit r0
end
function low reduce 1
  v0 = int 9223372036854775807
  each x1 of group
    v1 = get x1 1
    v0 = min v0 v1
  end
  r0 = new
  v2 = key 0
  set r0 0 v2
  set r0 1 v0
  emit r0
end
match n nb v e by 0 = 2
reduce r low n by 0
sink r 0 1
";

const MINIMUM_PACT: &str = "pact 1
fields 4
source sale sales.csv text:0 int:1 int:2
function least reduce 1
  each x1 of group
    v1 = get x1 2
    v0 = max v0 v1        # Null only where no row has an amount
  end
  each x1 of group
    v1 = get x1 2
    v2 = isnull v1
    if v2
    else
      v0 = min v0 v1
    end
  end
  r0 = new
  v3 = key 0
  set r0 0 v3
  set r0 3 v0
  emit r0
end
reduce lowest least sale by 0
sink lowest 0 3
";

const NOTES_PACT: &str = "pact 1
fields 4      # numbered from 0

sink m 0 1
map m pos s

function pos map
\tv1 = int 0            # registers are Null at first
\tv0 = get in 1
\tv2 = lt   v1 v0
\tif v2
\t\tr0 = copy in
\t\temit r0
\telse
\tend
end

source s s.csv int:0 int:1
";

const NULL_PACT: &str = "pact 1
fields 6
source s n.csv int:0 int:1
source t m.csv int:2 int:3
function jn match
  r0 = copy join
  emit r0
end
match g jn s t by 0 = 2
sink g 1 3
";

const NULL2_PACT: &str = "pact 2
fields 6
source s n.csv int:0 int:1
source t n.csv int:2 int:3
function jn match
  r0 = copy join
  emit r0
end
match g jn s t by 0 1 = 2 3
sink g 0 1 2 3
";

const ODD_PACT: &str = "pact 1
fields 4
source s s1.csv int:0 int:1
function odd map
  r0 = new
  v0 = int 7
  v1 = int 0
  v2 = div v0 v1
  set r0 0 v2
  v0 = int -9223372036854775808
  v1 = int -1
  v2 = div v0 v1
  set r0 1 v2
  v0 = int 9223372036854775807
  v1 = int 1
  v2 = add v0 v1
  set r0 2 v2
  v2 = addw v0 v1
  set r0 3 v2
  emit r0
end
map m odd s
sink m 0 1 2 3
";

const OUTER_JOIN_PACT: &str = "pact 1
fields 4
source member members.csv int:0 text:1
source visit visits.csv int:2 int:3
function outer cogroup 1
  v0 = int 0
  v1 = key 0
  v1 = isnull v1
  v1 = not v1             # Null has a group, but no partner
  each x1 of right
    v0 = max v0 v1        # 1 where there is a visit
  end
  each x1 of left
    if v0
      each x2 of right
        r0 = copy x1
        v2 = get x2 3
        set r0 3 v2
        emit r0
      end
    else
      r0 = copy x1
      emit r0
    end
  end
end
cogroup all outer member visit by 0 = 2
sink all 0 1 3
";

const PIVOT_PACT: &str = "pact 1
fields 7
source sale sales.csv text:0 int:1 int:2
function turn reduce 1
  v1 = int 1
  v2 = int 2
  v3 = int 3
  v4 = int 4
  # v11 to v14 are Null, and stay so where the quarter has no row
  each x1 of group
    v5 = get x1 1
    v6 = get x1 2
    v7 = eq v5 v1
    if v7
      v11 = addw v11 v6
    end
    v7 = eq v5 v2
    if v7
      v12 = addw v12 v6
    end
    v7 = eq v5 v3
    if v7
      v13 = addw v13 v6
    end
    v7 = eq v5 v4
    if v7
      v14 = addw v14 v6
    end
  end
  r0 = new
  v0 = key 0
  set r0 0 v0
  set r0 3 v11
  set r0 4 v12
  set r0 5 v13
  set r0 6 v14
  emit r0
end
reduce table turn sale by 0
sink table 0 3 4 5 6
";

const PUSH_PACT: &str = "pact 1
fields 4
source s h.csv int:0 int:1
function sum reduce 1
  v0 = int 0
  each x1 of group
    v1 = get x1 1
    v0 = addw v0 v1
  end
  r0 = new
  v2 = key 0
  set r0 0 v2
  set r0 2 v0
  emit r0
end
function one map
  v0 = get in 0
  v1 = int 1
  v2 = eq v0 v1
  if v2
    r0 = copy in
    emit r0
  end
end
reduce r sum s by 0
map m one r
sink m 0 2
";

const QUARTER_PACT: &str = "pact 2
fields 9
source sold quarters.csv text:0 int:1 int:2 int:3 int:4
source asked asked.csv text:5 int:6 text:7
function pick match
  r0 = copy join
  v0 = get right 6
  v1 = get left @v0     # Null where no field has this number
  set r0 8 v1
  emit r0
end
function of_ann map
  v0 = get in 7
  v1 = text \"ann\"
  v2 = eq v0 v1
  if v2
    r0 = copy in
    emit r0
  end
end
match picked pick sold asked by 0 = 5
map mine of_ann picked
sink mine 5 6 8
";

const REVENUE_PACT: &str = "pact 2
fields 10
source sold sold.csv int:0 text:1 int:2
source prices prices.csv int:3 text:4 int:5
source shops shops.csv int:6 text:7
function pair match
  r0 = copy join
  emit r0
end
function some map
  v0 = get in 2
  v1 = int 0
  v2 = lt v1 v0
  if v2
    r0 = copy in
    emit r0
  end
end
function oslo map
  v0 = get in 7
  v1 = text \"Oslo\"
  v2 = eq v0 v1
  if v2
    r0 = copy in
    emit r0
  end
end
function worth map
  v0 = get in 2
  v1 = get in 5
  v2 = mul v0 v1
  r0 = copy in
  set r0 8 v2
  emit r0
end
function total reduce 1
  v0 = int 0
  each x1 of group
    v1 = get x1 8
    v0 = addw v0 v1
  end
  r0 = new
  v2 = key 0
  set r0 6 v2
  set r0 9 v0
  emit r0
end
match priced pair sold prices by 0 1 = 3 4
match placed pair priced shops by 0 = 6
map open oslo placed
map positive some open
map valued worth positive
reduce takings total valued by 6
sink takings 6 9
";

const RUNNING_TOTAL_PACT: &str = "pact 1
fields 4
source sale sales.csv text:0 int:1 int:2
function running reduce 1
  each x1 of group
    v0 = get x1 1
    v1 = int 0
    each x2 of group
      v2 = get x2 1
      v3 = le v2 v0       # it is of no later quarter
      if v3
        v4 = get x2 2
        v1 = addw v1 v4
      end
    end
    r0 = copy x1
    set r0 3 v1
    emit r0
  end
end
reduce totals running sale by 0
sink totals 0 1 2 3
";

const SELF_JOIN_PACT: &str = "pact 2
fields 6
source person staff.csv int:0 text:1 int:2
source leader staff.csv int:3 text:4 int:5
function pair match
  r0 = copy join
  emit r0
end
match led pair person leader by 2 = 3
sink led 1 4
";

const SEMI_JOIN_PACT: &str = "pact 1
fields 4
source member members.csv int:0 text:1
source visit visits.csv int:2 int:3
function known cogroup 1
  v0 = int 0
  v1 = key 0
  v1 = isnull v1
  v1 = not v1             # Null has a group, but no partner
  each x1 of right
    v0 = max v0 v1        # 1 where there is a visit
  end
  if v0
    each x1 of left
      r0 = copy x1
      emit r0
    end
  end
end
cogroup seen known member visit by 0 = 2
sink seen 0 1
";

const SHOP_PACT: &str = "pact 1
fields 7
source c customers.csv int:0 text:1 text:2
source o orders.csv int:3 int:4 int:5
function jn match
  r0 = copy join
  emit r0
end
function de map
  v0 = get in 2
  v1 = text \"DE\"
  v2 = eq v0 v1
  if v2
    r0 = copy in
    emit r0
  end
end
function tot reduce 2
  v0 = int 0
  each x1 of group
    v1 = get x1 5
    v0 = addw v0 v1
  end
  r0 = new
  v2 = key 0
  set r0 0 v2
  v2 = key 1
  set r0 1 v2
  set r0 6 v0
  emit r0
end
match j jn c o by 0 = 4
map d de j
reduce r tot d by 0 1
sink r 1 6
";

const SQL_SUM_PACT: &str = "pact 1
fields 4
source sale sales.csv text:0 int:1 int:2
function add_up reduce 1
  each x1 of group
    v1 = get x1 2
    v2 = isnull v1
    if v2
    else
      v0 = addw v0 v1     # the first amount takes the place of Null
    end
  end
  r0 = new
  v3 = key 0
  set r0 0 v3
  set r0 3 v0
  emit r0
end
reduce sums add_up sale by 0
sink sums 0 3
";

const SUM_PACT: &str = "pact 1
fields 4
source s s.csv int:0 int:1
function sum reduce 1
  v0 = int 0
  each x1 of group
    v1 = get x1 1
    v0 = addw v0 v1
  end
  r0 = new
  v2 = key 0
  set r0 0 v2
  set r0 2 v0
  emit r0
end
reduce r sum s by 0
sink r 0 2
";

const SWAP_PACT: &str = "pact 1
fields 3
source s s.csv int:0 int:1
function swap map
  v0 = get in 0
  v1 = get in 1
  set r0 0 v1
  set r0 1 v0
  emit r0
end
map m swap s
sink m 0 1 2
";

const TOP_PACT: &str = "pact 1
fields 3
source score scores.csv text:0 int:1
function same map
  v0 = int 0
  r0 = copy in
  set r0 2 v0
  emit r0
end
function best reduce 1
  v0 = int 3
  each x1 of group
    v1 = get x1 1
    v2 = int 0
    each x2 of group
      v3 = get x2 1
      v4 = lt v1 v3
      v2 = addw v2 v4
    end
    v5 = lt v2 v0
    v6 = isnull v1
    v6 = not v6
    v5 = and v5 v6
    if v5
      r0 = copy x1
      emit r0
    end
  end
end
map all same score
reduce three best all by 2
sink three 1 0
";

const TOTAL_PACT: &str = "pact 1
fields 4
source s s.csv int:0 int:1
function total map
  r0 = copy in
  v0 = get in 0
  v1 = get in 1
  v2 = mul v0 v1
  set r0 3 v2
  emit r0
end
map m total s
sink m 0 1 3
";

const TWICE_PACT: &str = "pact 1
fields 4
source d d.csv int:0 int:1
function two map
  r0 = copy in
  emit r0
  emit r0
end
map m two d
sink m 0 1
";

const UNION_PACT: &str = "pact 1
fields 4
source member members.csv int:0 text:1
source guest guests.csv int:2 text:3
function both cogroup 1
  each x1 of left
    r0 = copy x1
    emit r0
  end
  each x1 of right
    r0 = new
    v0 = get x1 2
    set r0 0 v0
    v0 = get x1 3
    set r0 1 v0
    emit r0
  end
end
cogroup all both member guest by 0 = 2
sink all 0 1
";

const UNIQ_PACT: &str = "pact 1
fields 5
source s s.csv int:0 int:1
source t t3.csv int:2 int:3
function best reduce 1
  v0 = null
  each x1 of group
    v1 = get x1 3
    v0 = max v0 v1
  end
  r0 = new
  v2 = key 0
  set r0 2 v2
  set r0 3 v0
  emit r0
end
function jn match
  r0 = copy join
  emit r0
end
function cnt reduce 1
  v0 = int 0
  v1 = int 1
  each x1 of group
    v0 = addw v0 v1
  end
  each x1 of group
    r0 = copy x1
    set r0 4 v0
    emit r0
  end
end
reduce b best t by 2
match g jn s b by 0 = 2
reduce r cnt g by 0
sink r 0 1 2 3 4
";

const VISIT_COUNT_PACT: &str = "pact 1
fields 5
source member members.csv int:0 text:1
source visit visits.csv int:2 int:3
function count cogroup 1
  v0 = int 0
  v1 = key 0
  v1 = isnull v1
  v1 = not v1             # Null has a group, but no partner
  each x1 of right
    v0 = addw v0 v1
  end
  each x1 of left
    r0 = copy x1
    set r0 4 v0
    emit r0
  end
end
cogroup counted count member visit by 0 = 2
sink counted 0 1 4
";

const WIDE_PACT: &str = "pact 2
fields 128
source s s.csv int:0 int:127
function wide map
  r0 = copy in
  v0 = get in 127
  set r0 100 v0
  emit r0
end
map m wide s
sink m 0 100 127
";

/// Each program with the rows of its sources, in the order of its text.
pub const EXAMPLES: [(&str, &[&str]); 53] = [
    (ANTI_JOIN_PACT, &[MEMBERS_CSV, VISITS_CSV]),
    (AVERAGE_PACT, &[SALES_CSV]),
    (BEST_OF_GROUP_PACT, &[SALES_CSV]),
    (CITY_COUNT_PACT, &[SHOPS_CSV, SOLD_CSV]),
    (COGROUP_PACT, &[S_CSV, T3_CSV]),
    (COND_PACT, &[S_CSV]),
    (COUNT_PACT, &[E_CSV]),
    (COUNT_ALL_PACT, &[S_CSV]),
    (COUNT_COLUMN_PACT, &[SALES_CSV]),
    (COUNT_DISTINCT_PACT, &[SALES_CSV]),
    (COUNT_OR_ZERO_PACT, &[S_CSV, ONE_CSV]),
    (COUNTED_PACT, &[S_CSV, T3_CSV]),
    (CROSS_PACT, &[COLORS_CSV, SIZES_CSV]),
    (DECIMALS_PACT, &[BASKET_CSV]),
    (DISCOUNT_PACT, &[SOLD_CSV, PRICES_CSV, SIZES_CSV, SHOPS_CSV]),
    (DISTANCES_PACT, &[KNOWN_CSV, ROADS_CSV]),
    (DISTINCT_PACT, &[SALES_CSV]),
    (DRILL_PACT, &[DRILL_CSV]),
    (EXTREMES_PACT, &[SALES_CSV]),
    (FILTER_PACT, &[S_CSV]),
    (FIVE_PACT, &[S_CSV, T_CSV]),
    (FLAG_PACT, &[S_CSV]),
    (FULL_JOIN_PACT, &[MEMBERS_CSV, VISITS_CSV]),
    (GREET_PACT, &[NAMES_CSV]),
    (HAVING_PACT, &[SALES_CSV]),
    (INNER_JOIN_PACT, &[MEMBERS_CSV, VISITS_CSV]),
    (JOIN_PACT, &[S1_CSV, T_CSV]),
    (JOIN3_PACT, &[S1_CSV, T_CSV, U_CSV]),
    (LABEL_PACT, &[V_CSV, G_CSV]),
    (MINIMUM_PACT, &[SALES_CSV]),
    (NOTES_PACT, &[S_CSV]),
    (NULL_PACT, &[N_CSV, M_CSV]),
    (NULL2_PACT, &[N_CSV, N_CSV]),
    (ODD_PACT, &[S1_CSV]),
    (OUTER_JOIN_PACT, &[MEMBERS_CSV, VISITS_CSV]),
    (PIVOT_PACT, &[SALES_CSV]),
    (PUSH_PACT, &[H_CSV]),
    (QUARTER_PACT, &[QUARTERS_CSV, ASKED_CSV]),
    (REVENUE_PACT, &[SOLD_CSV, PRICES_CSV, SHOPS_CSV]),
    (RUNNING_TOTAL_PACT, &[SALES_CSV]),
    (SELF_JOIN_PACT, &[STAFF_CSV, STAFF_CSV]),
    (SEMI_JOIN_PACT, &[MEMBERS_CSV, VISITS_CSV]),
    (SHOP_PACT, &[CUSTOMERS_CSV, ORDERS_CSV]),
    (SQL_SUM_PACT, &[SALES_CSV]),
    (SUM_PACT, &[S_CSV]),
    (SWAP_PACT, &[S_CSV]),
    (TOP_PACT, &[SCORES_CSV]),
    (TOTAL_PACT, &[S_CSV]),
    (TWICE_PACT, &[D_CSV]),
    (UNION_PACT, &[MEMBERS_CSV, GUESTS_CSV]),
    (UNIQ_PACT, &[S_CSV, T3_CSV]),
    (VISIT_COUNT_PACT, &[MEMBERS_CSV, VISITS_CSV]),
    (WIDE_PACT, &[S_CSV]),
];
