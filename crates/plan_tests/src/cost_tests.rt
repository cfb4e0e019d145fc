//! What plans cost, how many layouts they have, and which shipping is legal. The expected numbers were computed by
//! hand.

ghost use Rattle.std.specs.Prelude.{◌≡◌, ◌≤◌, ◌<◌};
ghost use Rattle.plan_trees.specs.Physicals.{worker_limit};
ghost use Rattle.ship_strategy.specs.Layouts.{layout_count};

use crate::programs::program;
use cost_model::{cost, estimate};
use pact_bag::Counts;
use pact_operators::{Program, Ship};
use pact_record::{Keys, OutOfMemory};
use plan_enumerate::{choose, choose_known, enumerate, enumerate_and_analyse};
use ship_strategy::{layout, layouts, legal_ship};
use std::alloc::Global;
use std::test::Fail;

const MOST: u64 = 18446744073709551615;

const CROSS: &str = "pact 1
fields 4
source a a.csv int:0
source b b.csv int:1
function f cross
  r0 = copy join
  emit r0
end
cross p f a b
sink p 0
";

// Eight Matches in a row, all by field 0 of the first source.
const MATCHES: &str = "pact 1
fields 9
source x0 a.csv int:0
source x1 a.csv int:1
source x2 a.csv int:2
source x3 a.csv int:3
source x4 a.csv int:4
source x5 a.csv int:5
source x6 a.csv int:6
source x7 a.csv int:7
source x8 a.csv int:8
function jn match
  r0 = copy join
  emit r0
end
match m1 jn x0 x1 by 0 = 1
match m2 jn m1 x2 by 0 = 2
match m3 jn m2 x3 by 0 = 3
match m4 jn m3 x4 by 0 = 4
match m5 jn m4 x5 by 0 = 5
match m6 jn m5 x6 by 0 = 6
match m7 jn m6 x7 by 0 = 7
match m8 jn m7 x8 by 0 = 8
sink m8 0
";

fn counts(alloc: Global, numbers: &[u64]) -> Result<Counts, OutOfMemory> {
    let mut counts = Counts::new(alloc);
    for number in numbers {
        counts.push(*number)?;
    }
    Ok(counts)
}

// What the plan as written costs with the layout of this number; None if there is no such layout.
fn layout_cost(program: &Program, counts: &Counts, number: u32, workers: u32) -> Option<u64>
    requires { (1 ≤ workers) × (workers ≤ worker_limit) }
{
    let plan = program.plan();
    if number >= layouts(program, plan) {
        return None;
    }
    Some(cost(program, &layout(program, plan, number, workers), counts))
}

#[test]
fn costs_stop_at_the_greatest_number(rt: HostRuntime) -> Result<(), Fail> {
    let alloc = rt.alloc();
    let program = program(alloc, CROSS.as_bytes())?;
    let plan = program.plan();
    for (a, b, records, broadcast) in [
        (0, 0, 0, 0),
        (0, MOST, 0, MOST),
        (2, 2, 4, 36),
        (1085102592571150094, 0, 0, 18446744073709551598),
        (4294967295, 4294967297, MOST, 77309411312),
        (4294967296, 4294967296, MOST, 77309411328),
        (MOST, MOST, MOST, MOST),
    ] {
        let counts = counts(alloc, &[a, b])?;
        assert!(rt;
            plan.has(2) && estimate(&program, plan, &counts, 2) == records,
            "{a} {b}"
        );
        assert!(rt;
            layout_cost(&program, &counts, 0, 16) == Some(broadcast),
            "{a} {b}"
        );
    }
    Ok(())
}

#[test]
fn eight_matches_have_so_many_layouts(rt: HostRuntime) -> Result<(), Fail> {
    let alloc = rt.alloc();
    let program = program(alloc, MATCHES.as_bytes())?;
    let counts = counts(alloc, &[1; 9])?;
    assert!(rt; layouts(&program, program.plan()) == 6561);
    for (number, workers, wanted) in [
        (0, 4, 25),
        (1, 4, 28),
        (3, 4, 29),
        (6, 4, 28),
        (2187, 4, 28),
        (3280, 4, 48),
        (6560, 16, 144),
    ] {
        assert!(rt;
            layout_cost(&program, &counts, number, workers) == Some(wanted),
            "{number}"
        );
    }
    let listed = enumerate(alloc, &program, 2)?;
    let chosen = choose(&program, &listed, &counts, 4);
    assert!(rt; (chosen.entry, chosen.layout, chosen.cost) == (0, 0, 25));
    let (listed, known) = enumerate_and_analyse(alloc, &program, 2)?;
    assert!(rt; choose_known(&program, &listed, &known, &counts, 4) == chosen);
    Ok(())
}

// If both sides of a Cross are forwarded, some pairs are never made. If both are broadcast, each pair is made at every
// worker.
#[test]
fn shipping_is_judged(rt: HostRuntime) -> Result<(), Fail> {
    let program = program(rt.alloc(), CROSS.as_bytes())?;
    let mut keys = Keys::new();
    keys.push(0);
    for (a, b, wanted) in [
        (Ship::Forward, Ship::Forward, false),
        (Ship::Broadcast, Ship::Forward, true),
        (Ship::Partition(keys), Ship::Broadcast, true),
        (Ship::Broadcast, Ship::Broadcast, false),
        (Ship::Partition(keys), Ship::Forward, false),
    ] {
        assert!(rt; is_legal(&program, a, b) == wanted);
    }
    Ok(())
}

// Whether the plan as written is legal if its first two sources are shipped by `a` and `b`.
fn is_legal(program: &Program, a: Ship, b: Ship) -> bool {
    let plan = program.plan();
    let mut physical = pact_operators::Physical::forward(*plan, 4);
    if plan.root() != 2 || !plan.has(0) || !plan.has(1) {
        return false;
    }
    physical.set_ship(0, a);
    physical.set_ship(1, b);
    legal_ship(program, &physical)
}
