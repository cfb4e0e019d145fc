use crate::listing_tests::PUSH;
use crate::programs::{inputs, program};
use slow_eval::evaluate;
use std::alloc::Global;
use std::test::Fail;

// The Cross gives each pair of equal numbers twice; the CoGroup gives the records of both groups.
pub const PAIRS: &str = "pact 1
fields 6
source l l.csv int:0 int:1
source r r.csv int:2 int:3
source t t.csv int:4 int:5
function equal cross
  v0 = get left 0
  v1 = get right 2
  v2 = eq v0 v1
  if v2
    r0 = copy join
    emit r0
    emit r0
  end
end
function all cogroup 1
  each x1 of left
    r0 = copy x1
    emit r0
  end
  each x1 of right
    r0 = copy x1
    emit r0
  end
end
cross x equal l r
cogroup g all x t by 0 = 4
sink g 0 1
";

// How many rows each source and operator gave, in the order of the text, and how many rows the root gave.
fn counts_of(alloc: Global, text: &str, rows: &[&str]) -> Result<(Vec<u64>, usize), Fail> {
    let program = program(alloc, text.as_bytes())?;
    let inputs = inputs(alloc, &program, rows)?;
    let outcome = evaluate(alloc, &program, program.plan(), &inputs)?;
    let mut counts = Vec::new(alloc);
    for at in 0..outcome.counts.len() {
        counts.push(outcome.counts.at(at))?;
    }
    Ok((counts, outcome.rows.len()))
}

// Each record matches the other source's record with the same keys.
const ONE_KEY: &str = "
fields 4
source l l.csv int:0 int:1
source r r.csv int:2 int:3
function pair match
  r0 = copy join
  emit r0
end
match m pair l r by 0 = 2
sink m 1 3
";

const TWO_KEYS: &str = "
fields 6
source l l.csv int:0 int:1 int:2
source r r.csv int:3 int:4 int:5
function pair match
  r0 = copy join
  emit r0
end
match m pair l r by 0 1 = 3 4
sink m 2 5
";

// How many pairs match if the sources have these rows.
fn matches(alloc: Global, first: &str, rest: &str, rows: &str) -> Result<usize, Fail> {
    let mut text = String::new(alloc);
    text.push_str(first)?;
    text.push_str(rest)?;
    let (_, root) = counts_of(alloc, text.as_str(), &[rows, rows])?;
    Ok(root)
}

#[test]
fn null_keys_match_in_version_1_alone(rt: HostRuntime) -> Result<(), Fail> {
    let alloc = rt.alloc();
    assert_eq!(rt; matches(alloc, "pact 1", ONE_KEY, "1,1\n,2\n")?, 2);
    assert_eq!(rt; matches(alloc, "pact 2", ONE_KEY, "1,1\n,2\n")?, 1);
    // Null in each of the key's fields, and in both
    assert_eq!(rt;
        matches(alloc, "pact 1", TWO_KEYS, "1,1,1\n,1,2\n1,,3\n,,4\n")?,
        4
    );
    assert_eq!(rt;
        matches(alloc, "pact 2", TWO_KEYS, "1,1,1\n,1,2\n1,,3\n,,4\n")?,
        1
    );
    Ok(())
}

#[test]
fn counts_groups(rt: HostRuntime) -> Result<(), Fail> {
    let alloc = rt.alloc();
    let mut rows = String::new(alloc);
    for _ in 0..10 {
        rows.push_str("1,1\n2,1\n3,1\n4,1\n5,1\n6,1\n7,1\n8,1\n9,1\n10,1\n")?;
    }
    let (counts, root) = counts_of(alloc, PUSH, &[rows.as_str()])?;
    assert_eq!(rt; counts.as_slice(), [100, 10, 1].as_slice());
    assert_eq!(rt; root, 1);
    Ok(())
}

#[test]
fn counts_pairs(rt: HostRuntime) -> Result<(), Fail> {
    let rows = ["1,10\n2,20\n1,10\n", "1,5\n4,5\n1,6\n9,9\n", "1,0\n7,0\n"];
    let (counts, root) = counts_of(rt.alloc(), PAIRS, &rows)?;
    assert_eq!(rt; counts.as_slice(), [3, 4, 2, 8, 10].as_slice());
    assert_eq!(rt; root, 10);
    Ok(())
}
