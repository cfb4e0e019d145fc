//! Exchanges of a Reduce and a Match: what refuses each of the four rules, what is unique, and rows before and after an
//! exchange.

ghost use Rattle.pact_operators.specs.Inputs.{AreInputsOf};
ghost use Rattle.pact_operators.specs.Programs.{IsPlanOf};
ghost use Rattle.reorder_pair.specs.Rules.{IsUniqueRule};

use crate::exchange_tests::exchanged;
use crate::programs::{inputs, program};
use crate::world_tests::are_same;
use pact_bag::{Inputs, Rows};
use pact_operators::{Plan, Program};
use pact_record::Keys;
use plan_enumerate::enumerate;
use reorder_group::{apply_unique, legal_unique, unique};
use reorder_pair::{Clash, NotLegal, Rule};
use slow_eval::evaluate;
use std::alloc::Global;
use std::test::Fail;

// Numbers: `s` is 0, `t` is 1, and operators follow from 2 on.
const FUNCTIONS: &str = "
fields 8
source s s.csv int:0 int:1
source t t.csv int:2 int:3
function best reduce 1
  v0 = null
  each x1 of group
    v1 = get x1 3
    v0 = max v0 v1
  end
  r0 = new
  v2 = key 0
  set r0 2 v2
  set r0 3 v0
  emit r0
end
function own reduce 1
  r0 = new
  v2 = int 7
  set r0 2 v2
  emit r0
end
function cnt reduce 1
  v0 = int 0
  v1 = int 1
  each x1 of group
    v0 = addw v0 v1
  end
  each x1 of group
    r0 = copy x1
    set r0 6 v0
    emit r0
  end
end
function cnts reduce 2
  v0 = int 0
  v1 = int 1
  each x1 of group
    v0 = addw v0 v1
  end
  each x1 of group
    r0 = copy x1
    set r0 6 v0
    emit r0
  end
end
function pairs reduce 2
  r0 = new
  v2 = key 0
  set r0 2 v2
  v3 = key 1
  set r0 3 v3
  emit r0
end
function sum reduce 1
  v0 = int 0
  each x1 of group
    v1 = get x1 1
    v0 = addw v0 v1
  end
  r0 = new
  v2 = key 0
  set r0 0 v2
  set r0 6 v0
  emit r0
end
function third reduce 1
  v0 = int 0
  v1 = int 1
  each x1 of group
    v0 = addw v0 v1
  end
  each x1 of group
    r0 = copy x1
    set r0 3 v0
    emit r0
  end
end
function anew reduce 1
  r0 = new
  emit r0
end
function seen reduce 1
  each x1 of group
    v0 = get x1 3
    r0 = copy x1
    set r0 6 v0
    emit r0
  end
end
function same map
  r0 = copy in
  emit r0
end
function high map
  v0 = get in 3
  v1 = int 8
  v2 = lt v1 v0
  if v2
    r0 = copy in
    emit r0
  end
end
function key map
  r0 = copy in
  v0 = int 7
  set r0 2 v0
  emit r0
end
function jn match
  r0 = copy join
  emit r0
end
function some match
  v0 = get join 1
  v1 = int 6
  v2 = lt v0 v1
  if v2
    r0 = copy join
    emit r0
  end
end
";

// A program of this version with these operators.
fn declared(alloc: Global, version: &str, operators: &str) -> Result<Program, Fail> {
    let mut text = String::new(alloc);
    text.push_str(version)?;
    text.push_str(FUNCTIONS)?;
    text.push_str(operators)?;
    program(alloc, text.as_str().as_bytes())
}

// Why an exchange of the plan as written isn't legal, or None if it is.
fn refusal(alloc: Global, operators: &str, at: u32, rule: Rule) -> Result<Option<NotLegal>, Fail>
    requires { IsUniqueRule rule }
{
    let program = declared(alloc, "pact 1", operators)?;
    Ok(legal_unique(&program, program.plan(), at, rule).err())
}

fn conflict(kind: Clash, field: u32) -> Option<NotLegal> {
    Some(NotLegal::Conflict { kind, field })
}

fn side(field: u32) -> Option<NotLegal> {
    Some(NotLegal::Side { field })
}

fn match_key(field: u32) -> Option<NotLegal> {
    Some(NotLegal::MatchKey { field })
}

// For each rule, a program in which it is legal, and one for each cause that refuses it. Each of the latter also has as
// many of the later causes as possible.
#[test]
fn a_reduce_over_a_match_for_the_left(rt: HostRuntime) -> Result<(), Fail> {
    let alloc = rt.alloc();
    let rule = Rule::ReduceMatchLeft;
    let legal = "reduce b best t by 2\nmatch g jn s b by 0 = 2\nreduce r cnt g by 0\nsink r 0\n";
    assert!(rt; refusal(alloc, legal, 4, rule)?.is_none());
    assert!(rt; refusal(alloc, legal, 3, rule)? == Some(NotLegal::NoPlace));
    let clash = "match g some s t by 1 = 2\nreduce r anew g by 0\nsink r 0\n";
    assert!(rt; refusal(alloc, clash, 3, rule)? == conflict(Clash::WriteRead, 1));
    let touched = "match g some s t by 1 = 2\nreduce r seen g by 0\nsink r 0\n";
    assert!(rt; refusal(alloc, touched, 3, rule)? == side(3));
    let apart = "match g some s t by 1 = 2\nreduce r cnt g by 0\nsink r 0\n";
    assert!(rt; refusal(alloc, apart, 3, rule)? == match_key(1));
    let many = "match g some s t by 0 = 2\nreduce r cnt g by 0\nsink r 0\n";
    assert!(rt; refusal(alloc, many, 3, rule)? == Some(NotLegal::NotUnique));
    let few = "reduce b best t by 2\nmatch g some s b by 0 = 2\nreduce r cnt g by 0\nsink r 0\n";
    assert!(rt; refusal(alloc, few, 4, rule)? == Some(NotLegal::KeyGroup));
    Ok(())
}

#[test]
fn a_reduce_on_the_left_of_a_match(rt: HostRuntime) -> Result<(), Fail> {
    let alloc = rt.alloc();
    let rule = Rule::ReduceMatchLeftUp;
    let legal = "reduce b best t by 2\nreduce r cnt s by 0\nmatch g jn r b by 0 = 2\nsink g 0\n";
    assert!(rt; refusal(alloc, legal, 4, rule)?.is_none());
    assert!(rt; refusal(alloc, legal, 3, rule)? == Some(NotLegal::NoPlace));
    let clash = "reduce r anew s by 0\nmatch g some r t by 0 = 2\nsink g 2\n";
    assert!(rt; refusal(alloc, clash, 3, rule)? == conflict(Clash::ReadWrite, 0));
    let touched = "reduce r seen s by 0\nmatch g some r t by 1 = 2\nsink g 0\n";
    assert!(rt; refusal(alloc, touched, 3, rule)? == side(3));
    let apart = "reduce r cnt s by 0\nmatch g some r t by 1 = 2\nsink g 0\n";
    assert!(rt; refusal(alloc, apart, 3, rule)? == match_key(1));
    let many = "reduce r cnt s by 0\nmatch g some r t by 0 = 2\nsink g 0\n";
    assert!(rt; refusal(alloc, many, 3, rule)? == Some(NotLegal::NotUnique));
    let few = "reduce b best t by 2\nreduce r cnt s by 0\nmatch g some r b by 0 = 2\nsink g 0\n";
    assert!(rt; refusal(alloc, few, 4, rule)? == Some(NotLegal::KeyGroup));
    Ok(())
}

#[test]
fn a_reduce_over_a_match_for_the_right(rt: HostRuntime) -> Result<(), Fail> {
    let alloc = rt.alloc();
    let rule = Rule::ReduceMatchRight;
    let legal = "reduce b best t by 2\nmatch g jn b s by 2 = 0\nreduce r cnt g by 0\nsink r 0\n";
    assert!(rt; refusal(alloc, legal, 4, rule)?.is_none());
    assert!(rt; refusal(alloc, legal, 3, rule)? == Some(NotLegal::NoPlace));
    let clash = "match g some t s by 2 = 1\nreduce r anew g by 0\nsink r 0\n";
    assert!(rt; refusal(alloc, clash, 3, rule)? == conflict(Clash::WriteRead, 1));
    let touched = "match g some t s by 2 = 1\nreduce r seen g by 0\nsink r 0\n";
    assert!(rt; refusal(alloc, touched, 3, rule)? == side(3));
    let apart = "match g some t s by 2 = 1\nreduce r cnt g by 0\nsink r 0\n";
    assert!(rt; refusal(alloc, apart, 3, rule)? == match_key(1));
    let many = "match g some t s by 2 = 0\nreduce r cnt g by 0\nsink r 0\n";
    assert!(rt; refusal(alloc, many, 3, rule)? == Some(NotLegal::NotUnique));
    let few = "reduce b best t by 2\nmatch g some b s by 2 = 0\nreduce r cnt g by 0\nsink r 0\n";
    assert!(rt; refusal(alloc, few, 4, rule)? == Some(NotLegal::KeyGroup));
    Ok(())
}

#[test]
fn a_reduce_on_the_right_of_a_match(rt: HostRuntime) -> Result<(), Fail> {
    let alloc = rt.alloc();
    let rule = Rule::ReduceMatchRightUp;
    let legal = "reduce b best t by 2\nreduce r cnt s by 0\nmatch g jn b r by 2 = 0\nsink g 0\n";
    assert!(rt; refusal(alloc, legal, 4, rule)?.is_none());
    assert!(rt; refusal(alloc, legal, 3, rule)? == Some(NotLegal::NoPlace));
    let clash = "reduce r anew s by 0\nmatch g some t r by 2 = 0\nsink g 2\n";
    assert!(rt; refusal(alloc, clash, 3, rule)? == conflict(Clash::ReadWrite, 0));
    let touched = "reduce r seen s by 0\nmatch g some t r by 2 = 1\nsink g 0\n";
    assert!(rt; refusal(alloc, touched, 3, rule)? == side(3));
    let apart = "reduce r cnt s by 0\nmatch g some t r by 2 = 1\nsink g 0\n";
    assert!(rt; refusal(alloc, apart, 3, rule)? == match_key(1));
    let many = "reduce r cnt s by 0\nmatch g some t r by 2 = 0\nsink g 0\n";
    assert!(rt; refusal(alloc, many, 3, rule)? == Some(NotLegal::NotUnique));
    let few = "reduce b best t by 2\nreduce r cnt s by 0\nmatch g some b r by 2 = 0\nsink g 0\n";
    assert!(rt; refusal(alloc, few, 4, rule)? == Some(NotLegal::KeyGroup));
    Ok(())
}

// A Reduce that makes a new record writes the Match's key on the other side. One that sets a field of that side touches
// it.
#[test]
fn a_reduce_keeps_a_record_and_the_other_side(rt: HostRuntime) -> Result<(), Fail> {
    let alloc = rt.alloc();
    let left = Rule::ReduceMatchLeft;
    let right = Rule::ReduceMatchRight;
    let over = "reduce b best t by 2\nmatch g jn s b by 0 = 2\nreduce r sum g by 0\nsink r 0\n";
    assert!(rt; refusal(alloc, over, 4, left)? == conflict(Clash::WriteRead, 2));
    let under = "reduce b best t by 2\nreduce r sum s by 0\nmatch g jn r b by 0 = 2\nsink g 0\n";
    assert!(rt;
        refusal(alloc, under, 4, Rule::ReduceMatchLeftUp)? == conflict(Clash::ReadWrite, 2)
    );
    let turned = "reduce b best t by 2\nmatch g jn b s by 2 = 0\nreduce r sum g by 0\nsink r 0\n";
    assert!(rt; refusal(alloc, turned, 4, right)? == conflict(Clash::WriteRead, 2));
    let sets = "reduce b best t by 2\nmatch g jn s b by 0 = 2\nreduce r third g by 0\nsink r 0\n";
    assert!(rt; refusal(alloc, sets, 4, left)? == side(3));
    let turned = "reduce b best t by 2\nmatch g jn b s by 2 = 0\nreduce r third g by 0\nsink r 0\n";
    assert!(rt; refusal(alloc, turned, 4, right)? == side(3));
    Ok(())
}

#[test]
fn operators_by_two_keys(rt: HostRuntime) -> Result<(), Fail> {
    let alloc = rt.alloc();
    let left = Rule::ReduceMatchLeft;
    let right = Rule::ReduceMatchRight;
    // The source is number 2. Neither key of the Match is one of the Reduce's: the refusal names the least of them, in
    // any order.
    let apart =
        "source w w.csv int:4 int:5 int:7\nmatch x jn s t by 0 = 2\nmatch g jn w x by 7 5 = 2 3\nreduce r cnt g by 4\nsink r 4\n";
    assert!(rt; refusal(alloc, apart, 5, left)? == match_key(5));
    let one = "match g jn s t by 1 0 = 2 3\nreduce r cnt g by 0\nsink r 0\n";
    assert!(rt; refusal(alloc, one, 3, left)? == match_key(1));
    let same =
        "reduce b pairs t by 2 3\nmatch g jn s b by 0 1 = 2 3\nreduce r cnts g by 0 1\nsink r 0\n";
    assert!(rt; refusal(alloc, same, 4, left)?.is_none());
    let more = "reduce b best t by 2\nmatch g jn s b by 0 = 2\nreduce r cnts g by 0 1\nsink r 0\n";
    assert!(rt; refusal(alloc, more, 4, left)?.is_none());
    let turned =
        "reduce b best t by 2\nmatch g jn b s by 2 = 0\nreduce r cnts g by 1 0\nsink r 0\n";
    assert!(rt; refusal(alloc, turned, 4, right)?.is_none());
    Ok(())
}

// A filter by a field of the other side doesn't pass the Reduce. It goes on to that side if the Reduce is below the
// Match.
#[test]
fn an_exchange_opens_further_ones(rt: HostRuntime) -> Result<(), Fail> {
    let alloc = rt.alloc();
    let filtered =
        "reduce b best t by 2\nmatch g jn s b by 0 = 2\nreduce r cnt g by 0\nmap h high r\nsink h 0\n";
    let program = declared(alloc, "pact 1", filtered)?;
    let listed = enumerate(alloc, &program, 1000)?;
    assert_eq!(rt; listed.entries().len(), 5);
    Ok(())
}

// Whether the records that the source or operator of this number gives are unique by these fields.
fn is_unique(alloc: Global, operators: &str, at: u32, keys: &Keys) -> Result<bool, Fail> {
    let program = declared(alloc, "pact 1", operators)?;
    Ok(unique(&program, program.plan(), at, keys))
}

#[test]
fn reduces_and_maps_over_them_are_unique(rt: HostRuntime) -> Result<(), Fail> {
    let alloc = rt.alloc();
    let mut one = Keys::new();
    one.push(2);
    let mut two = one;
    two.push(3);
    let mut other = Keys::new();
    other.push(3);
    let plan =
        "reduce b best t by 2\nmap m same b\nmap k key m\nmatch g jn s k by 0 = 2\nsink g 0\n";
    assert!(rt; is_unique(alloc, plan, 2, &one)? && is_unique(alloc, plan, 2, &two)?);
    assert!(rt; is_unique(alloc, plan, 3, &one)? && is_unique(alloc, plan, 3, &two)?);
    // not unique by a field that isn't the Reduce's key, and not for a Map that writes the key
    assert!(rt; !is_unique(alloc, plan, 2, &other)? && !is_unique(alloc, plan, 4, &one)?);
    // not unique for a source, for a Match, and for a number that the plan doesn't have
    assert!(rt; !is_unique(alloc, plan, 1, &one)? && !is_unique(alloc, plan, 5, &one)?);
    assert!(rt; !is_unique(alloc, plan, 6, &one)?);
    // not unique for a Reduce that writes its own key, and for one that gives many records
    let writes = "reduce b own t by 2\nmatch g jn s b by 0 = 2\nsink g 0\n";
    let many = "reduce b seen t by 2\nmatch g jn s b by 0 = 2\nsink g 0\n";
    assert!(rt; !is_unique(alloc, writes, 2, &one)? && !is_unique(alloc, many, 2, &one)?);
    Ok(())
}

// The rows that a plan gives.
fn given(alloc: Global, program: &Program, plan: &Plan, rows: &Inputs) -> Result<Rows, Fail>
    requires plan { IsPlanOf program.now.functions program.now.ops plan.now }
    requires rows { AreInputsOf program.now rows.now }
{
    let outcome = evaluate(alloc, program, plan, rows)?;
    Ok(outcome.rows)
}

// How many rows the plan as written gives. It is an error if the plan after the exchange gives other rows, or if the
// exchange back doesn't lead to the first plan.
fn kept(
    alloc: Global,
    version: &str,
    operators: &str,
    rule: Rule,
    back: Rule,
    rows: &[&str],
) -> Result<usize, Fail>
    requires rule { IsUniqueRule rule }
{
    let program = declared(alloc, version, operators)?;
    let inputs = inputs(alloc, &program, rows)?;
    let plan = program.plan();
    let Ok(_condition) = legal_unique(&program, plan, 4, rule) else {
        return Err(Fail::new("not legal"));
    };
    let after = apply_unique(&program, plan, 4, rule);
    if exchanged(&program, &after, after.root(), back) != Some(*plan) {
        return Err(Fail::new("no way back"));
    }
    let wanted = given(alloc, &program, plan, &inputs)?;
    let found = given(alloc, &program, &after, &inputs)?;
    let count = wanted.len();
    if !are_same(found, wanted)? {
        return Err(Fail::new("other rows"));
    }
    Ok(count)
}

const LEFT: &str =
    "reduce b best t by 2\nmatch g jn s b by 0 = 2\nreduce r cnt g by 0\nsink r 0 1 2 3 6\n";

const RIGHT: &str =
    "reduce b best t by 2\nmatch g jn b s by 2 = 0\nreduce r cnt g by 0\nsink r 0 1 2 3 6\n";

#[test]
fn rows_are_kept_there_and_back(rt: HostRuntime) -> Result<(), Fail> {
    let alloc = rt.alloc();
    let rows = ["1,5\n2,-3\n1,7\n,4\n,6\n", "1,9\n1,8\n3,7\n,2\n,1\n"];
    let left = Rule::ReduceMatchLeft;
    let left_up = Rule::ReduceMatchLeftUp;
    let right = Rule::ReduceMatchRight;
    let right_up = Rule::ReduceMatchRightUp;
    // Null keys match only in version 1
    assert_eq!(rt; kept(alloc, "pact 1", LEFT, left, left_up, &rows)?, 4);
    assert_eq!(rt; kept(alloc, "pact 2", LEFT, left, left_up, &rows)?, 2);
    assert_eq!(rt; kept(alloc, "pact 1", RIGHT, right, right_up, &rows)?, 4);
    assert_eq!(rt; kept(alloc, "pact 2", RIGHT, right, right_up, &rows)?, 2);
    // no record has a partner
    let apart = ["1,5\n1,7\n", "2,9\n3,8\n"];
    assert_eq!(rt; kept(alloc, "pact 1", LEFT, left, left_up, &apart)?, 0);
    assert_eq!(rt; kept(alloc, "pact 1", RIGHT, right, right_up, &apart)?, 0);
    Ok(())
}

// The rows that a program as written gives.
fn rows_of(alloc: Global, operators: &str, rows: &[&str]) -> Result<Rows, Fail> {
    let program = declared(alloc, "pact 1", operators)?;
    let inputs = inputs(alloc, &program, rows)?;
    given(alloc, &program, program.plan(), &inputs)
}

// Whether two programs give different rows.
fn differ(alloc: Global, one: &str, other: &str, rows: &[&str]) -> Result<bool, Fail> {
    let first = rows_of(alloc, one, rows)?;
    let second = rows_of(alloc, other, rows)?;
    Ok(!are_same(first, second)?)
}

// What refused exchanges would result in, each written as a program of its own.
#[test]
fn refused_exchanges_would_change_rows(rt: HostRuntime) -> Result<(), Fail> {
    let alloc = rt.alloc();
    let rows = ["1,5\n1,7\n", "1,9\n1,8\n"];
    let left = Rule::ReduceMatchLeft;
    let left_up = Rule::ReduceMatchLeftUp;
    // several partners
    let over = "match g jn s t by 0 = 2\nreduce r cnt g by 0\nsink r 0\n";
    let under = "reduce r cnt s by 0\nmatch g jn r t by 0 = 2\nsink g 0\n";
    assert!(rt; refusal(alloc, over, 3, left)? == Some(NotLegal::NotUnique));
    assert!(rt; refusal(alloc, under, 3, left_up)? == Some(NotLegal::NotUnique));
    assert!(rt; differ(alloc, over, under, &rows)?);
    // a Match by another field, and one that gives only some pairs
    let apart = ["1,5\n1,7\n", "5,9\n"];
    let over = "reduce b best t by 2\nmatch g jn s b by 1 = 2\nreduce r cnt g by 0\nsink r 0\n";
    let under = "reduce b best t by 2\nreduce r cnt s by 0\nmatch g jn r b by 1 = 2\nsink g 0\n";
    assert!(rt; refusal(alloc, over, 4, left)? == match_key(1));
    assert!(rt; refusal(alloc, under, 4, left_up)? == match_key(1));
    assert!(rt; differ(alloc, over, under, &apart)?);
    let over = "reduce b best t by 2\nmatch g some s b by 0 = 2\nreduce r cnt g by 0\nsink r 0\n";
    let under = "reduce b best t by 2\nreduce r cnt s by 0\nmatch g some r b by 0 = 2\nsink g 0\n";
    assert!(rt; refusal(alloc, over, 4, left)? == Some(NotLegal::KeyGroup));
    assert!(rt; refusal(alloc, under, 4, left_up)? == Some(NotLegal::KeyGroup));
    assert!(rt; differ(alloc, over, under, &rows)?);
    Ok(())
}
