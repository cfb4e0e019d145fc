//! How listed plans came about: the exchanges that lead to an entry, and the entry that it comes from. No command shows
//! this for a plan that isn't chosen.

use crate::programs::program;
use plan_enumerate::{enumerate, steps_of};
use std::alloc::Global;
use std::test::Fail;

pub const PUSH: &str = "pact 1
fields 4
source s h.csv int:0 int:1
function sum reduce 1
  v0 = int 0
  each x1 of group
    v1 = get x1 1
    v0 = addw v0 v1
  end
  r0 = new
  v2 = key 0
  set r0 0 v2
  set r0 2 v0
  emit r0
end
function one map
  v0 = get in 0
  v1 = int 1
  v2 = eq v0 v1
  if v2
    r0 = copy in
    emit r0
  end
end
reduce r sum s by 0
map m one r
sink m 0 2
";

// A Map that reads nothing of the right side, over a Match.
pub const FIVE: &str = "pact 1
fields 6
source s s.csv int:0 int:1
source t t.csv int:2 int:3
function lft match
  r0 = copy left
  emit r0
end
function five map
  r0 = copy in
  v0 = int 7
  set r0 5 v0
  emit r0
end
match g lft s t by 0 = 2
map m five g
sink m 0 1 5
";

// Three Maps that can be in any order, each over what the one before gives.
const MAPS: &str = "pact 1
fields 4
source s s.csv int:0
function one map
  r0 = copy in
  set r0 1 v0
  emit r0
end
function two map
  r0 = copy in
  set r0 2 v0
  emit r0
end
function three map
  r0 = copy in
  set r0 3 v0
  emit r0
end
map a one s
map b two a
map c three b
sink c 0
";

// The root of an entry's plan, the entry that it comes from, and how many exchanges lead to it.
fn entry(alloc: Global, text: &str, number: u32) -> Result<(u32, u32, usize), Fail> {
    let program = program(alloc, text.as_bytes())?;
    let listed = enumerate(alloc, &program, 1000)?;
    if number as usize >= listed.entries().len() {
        return Err(Fail::new("no entry"));
    }
    let steps = steps_of(alloc, &listed, number)?;
    let found = listed.entries().at(number as usize);
    Ok((found.plan.root(), found.from, steps.conditions().len()))
}

// In MAPS the source is number 0.
#[test]
fn entries_come_from_others(rt: HostRuntime) -> Result<(), Fail> {
    let alloc = rt.alloc();
    assert!(rt; entry(alloc, PUSH, 0)? == (2, 0, 0));
    assert!(rt; entry(alloc, PUSH, 1)? == (1, 0, 1));
    assert!(rt; entry(alloc, FIVE, 1)? == (2, 0, 1));
    assert!(rt; entry(alloc, MAPS, 0)? == (3, 0, 0));
    assert!(rt; entry(alloc, MAPS, 1)? == (3, 0, 1));
    assert!(rt; entry(alloc, MAPS, 2)? == (2, 0, 1));
    assert!(rt; entry(alloc, MAPS, 3)? == (1, 1, 2));
    assert!(rt; entry(alloc, MAPS, 4)? == (2, 2, 2));
    assert!(rt; entry(alloc, MAPS, 5)? == (1, 3, 3));
    Ok(())
}
