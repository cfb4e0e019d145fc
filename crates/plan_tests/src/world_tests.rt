//! Worlds of instances and pipes, stepped by hand and run on their own.

ghost use Rattle.std.specs.Prelude.{◌≤◌, ◌<◌, IfOk, OnOk};
ghost use Rattle.pact_operators.specs.Inputs.{AreInputsOf};
ghost use Rattle.plan_trees.specs.Physicals.{worker_limit};
ghost use Rattle.ship_strategy.specs.Layouts.{layout_count};
ghost use Rattle.flow_core.specs.Worlds.{StandsForSome};

use crate::evaluation_tests::PAIRS;
use crate::listing_tests::PUSH;
use crate::programs::{inputs, program};
use flow_core::{Event, PipeId, Replay, World, replay, run_alone};
use local_strategy::ListLocal;
use pact_bag::{Counts, Inputs, Outcome, Rows};
use pact_operators::Program;
use ship_strategy::{layout, layouts};
use slow_eval::evaluate;
use std::alloc::Global;
use std::process::Abort;
use std::test::Fail;

const TWICE: &str = "pact 1
fields 4
source d d.csv int:0 int:1
function two map
  r0 = copy in
  emit r0
  emit r0
end
map m two d
sink m 0 1
";

const MATCH: &str = "pact 1
fields 4
source a a.csv int:0 int:1
source b b.csv int:2 int:3
function both match
  r0 = copy join
  emit r0
end
match j both a b by 0 = 2
sink j 0 1 3
";

// The first layout of the program's plan as written, at its start.
fn world(
    alloc: Global,
    text: &str,
    rows: &[&str],
    workers: u32,
    batch: u32,
    depth: u32,
) -> Result<World<ListLocal>, Fail>
    requires workers { (1 ≤ workers) × (workers ≤ worker_limit) }
    requires batch { (1 ≤ batch) × (batch ≤ 1024) }
    requires depth { (1 ≤ depth) × (depth ≤ 64) }
    ensures { IfOk result StandsForSome }
{
    let program = program(alloc, text.as_bytes())?;
    let inputs = inputs(alloc, &program, rows)?;
    let _some = layouts(&program, program.plan());
    let physical = layout(&program, program.plan(), 0, workers);
    let world = World::start(alloc, &program, &physical, &inputs, batch, depth)?;
    Ok(world)
}

fn pipe(edge: u32, from: u32, to: u32) -> PipeId {
    PipeId { edge, from, to }
}

fn put(edge: u32, from: u32, to: u32) -> Event {
    Event::Put(pipe(edge, from, to))
}

fn take(edge: u32, from: u32, to: u32) -> Event {
    Event::Take(pipe(edge, from, to))
}

// How many of the events are enabled, each after those before it. Then how many rows the root gives if all of them are
// followed, or those up to the first that isn't enabled.
fn followed(world: World<ListLocal>, events: &[Event]) -> Result<(usize, usize), Fail>
    requires { StandsForSome world }
{
    let (count, left) = match replay(world, events) {
        Ok(left) => (events.len(), left),
        Err(Replay::NotEnabled { index, world }) => (index, world),
        Err(Replay::Memory) => return Err(Fail::new("no memory")),
    };
    let outcome = run_alone(left)?;
    Ok((count, outcome.rows.len()))
}

fn end(at: u32, worker: u32) -> Event {
    Event::End { at, worker }
}

#[test]
fn nothing_can_be_taken_at_the_start(rt: HostRuntime) -> Result<(), Fail> {
    let world = world(rt.alloc(), TWICE, &["1,5\n1,5\n"], 2, 64, 4)?;
    assert_eq!(rt; followed(world, &[take(0, 0, 0)])?, (0, 4));
    Ok(())
}

// Performs an event if it is enabled, and returns whether it was.
fn steps(world: &mut World<ListLocal>, event: Event) -> Result<bool, Fail>
    requires { StandsForSome world.old }
    ensures { OnOk result (StandsForSome world.new) }
{
    if !world.enabled(event) {
        return Ok(false);
    }
    world.step(event)?;
    Ok(true)
}

#[test]
fn a_full_pipe_takes_no_note(rt: HostRuntime) -> Result<(), Fail> {
    let mut world = world(rt.alloc(), TWICE, &["1,5\n1,6\n"], 1, 1, 1)?;
    assert!(rt; steps(&mut world, put(0, 0, 0))?);
    assert!(rt; !steps(&mut world, put(0, 0, 0))?);
    assert!(rt; steps(&mut world, take(0, 0, 0))?);
    assert!(rt; steps(&mut world, put(0, 0, 0))?);
    Ok(())
}

// Asserts that `count` of the events are enabled, on one worker, and that the two records of `b` match that of `a`.
fn follows(
    rt: &(impl Abort + AllocGlobal),
    depth: u32,
    events: &[Event],
    count: usize,
) -> Result<(), Fail>
    requires { (1 ≤ depth) × (depth ≤ 64) }
{
    let world = world(rt.alloc(), MATCH, &["1,5\n", "1,8\n1,9\n"], 1, 64, depth)?;
    assert_eq!(rt; followed(world, events)?, (count, 2));
    Ok(())
}

#[test]
fn a_match_is_stepped_by_hand(rt: HostRuntime) -> Result<(), Fail> {
    let (from_a, from_b) = (put(0, 0, 0), put(1, 0, 0));
    let (to_left, to_right) = (take(0, 0, 0), take(1, 0, 0));
    let all = [
        from_a,
        from_b,
        from_a,
        end(0, 0),
        to_left,
        to_left,
        to_right,
        from_b,
        to_right,
        end(1, 0),
        end(2, 0),
    ];
    follows(&rt, 2, &all, 11)?;
    // the right side's note isn't taken before the left side has ended
    follows(&rt, 2, &[from_b, to_right], 1)?;
    follows(&rt, 2, &[from_b, from_a, to_left, to_right], 3)?;
    // the pipe is full; nothing is left to take; the left side hasn't ended; the root puts nothing; it has ended
    follows(&rt, 1, &[from_a, from_a], 1)?;
    follows(&rt, 2, &[from_a, to_left, to_left], 2)?;
    follows(&rt, 2, &[end(2, 0)], 0)?;
    follows(&rt, 2, &[put(2, 0, 0)], 0)?;
    follows(&rt, 2, &[from_a, from_a, end(0, 0), end(0, 0)], 3)?;
    // there is no such source, worker or edge
    follows(&rt, 2, &[end(3, 0)], 0)?;
    follows(&rt, 2, &[put(0, 1, 0)], 0)?;
    follows(&rt, 2, &[from_a, take(2, 0, 0)], 1)?;
    Ok(())
}

const GROUP: &str = "pact 1
fields 2
source s s.csv int:0 int:1
function one reduce 1
  r0 = copy first
  emit r0
end
reduce r one s by 0
sink r 0
";

const CROSS: &str = "pact 1
fields 4
source a a.csv int:0 int:1
source b b.csv int:2 int:3
function both cross
  r0 = copy join
  emit r0
end
cross x both a b
sink x 0 2
";

// How many notes the source with this number puts from the last worker to itself, if at most five: batches, and an end
// mark after them.
fn notes_put(
    alloc: Global,
    text: &str,
    rows: &[&str],
    source: u32,
    workers: u32,
    batch: u32,
) -> Result<usize, Fail>
    requires workers { (1 ≤ workers) × (workers ≤ worker_limit) }
    requires batch { (1 ≤ batch) × (batch ≤ 1024) }
{
    let world = world(alloc, text, rows, workers, batch, 64)?;
    let last = workers - 1;
    let note = put(source, last, last);
    Ok(followed(world, &[note, note, note, note, note])?.0)
}

// The first layout forwards what a Map reads, partitions what a Reduce reads by its key, and broadcasts the left side
// of a Cross.
#[test]
fn batches_have_at_most_so_many_records(rt: HostRuntime) -> Result<(), Fail> {
    let three = "1,5\n2,5\n3,5\n";
    assert_eq!(rt; notes_put(rt.alloc(), TWICE, &[three], 0, 1, 1)?, 4);
    assert_eq!(rt; notes_put(rt.alloc(), TWICE, &[three], 0, 1, 2)?, 3);
    assert_eq!(rt; notes_put(rt.alloc(), TWICE, &[three], 0, 1, 3)?, 2);
    assert_eq!(rt; notes_put(rt.alloc(), TWICE, &[three], 0, 1, 1024)?, 2);
    assert_eq!(rt; notes_put(rt.alloc(), GROUP, &[three], 0, 1, 1)?, 4);
    assert_eq!(rt; notes_put(rt.alloc(), GROUP, &[three], 0, 1, 2)?, 3);
    assert_eq!(rt; notes_put(rt.alloc(), CROSS, &[three, three], 0, 1, 1)?, 4);
    assert_eq!(rt; notes_put(rt.alloc(), CROSS, &[three, three], 0, 1, 2)?, 3);
    Ok(())
}

#[test]
fn workers_share_the_rows_of_a_source_in_turn(rt: HostRuntime) -> Result<(), Fail> {
    let (two, four) = ("1,5\n2,5\n", "1,5\n2,5\n3,5\n4,5\n");
    assert_eq!(rt; notes_put(rt.alloc(), TWICE, &[two], 0, 1, 1)?, 3);
    assert_eq!(rt; notes_put(rt.alloc(), TWICE, &[two], 0, 2, 1)?, 2);
    assert_eq!(rt; notes_put(rt.alloc(), TWICE, &[two], 0, 3, 1)?, 1);
    assert_eq!(rt; notes_put(rt.alloc(), TWICE, &[four], 0, 3, 1)?, 2);
    Ok(())
}

// Worker 1 has the second row of either key. Key 0 belongs to worker 0, and key 1 to worker 1.
#[test]
fn batches_go_as_they_fill_up_and_then_to_its_own_worker_first(
    rt: HostRuntime,
) -> Result<(), Fail> {
    let rows = "0,5\n0,6\n1,7\n1,8\n";
    let filled = world(rt.alloc(), GROUP, &[rows], 2, 1, 64)?;
    let notes = [put(0, 1, 0), put(0, 1, 1), put(0, 1, 0), put(0, 1, 1)];
    assert_eq!(rt; followed(filled, &notes)?, (4, 2));
    let left = world(rt.alloc(), GROUP, &[rows], 2, 2, 64)?;
    let notes = [put(0, 1, 1), put(0, 1, 0), put(0, 1, 0), put(0, 1, 1)];
    assert_eq!(rt; followed(left, &notes)?, (4, 2));
    Ok(())
}

// What a run on the layout with this number gives.
fn ran(
    alloc: Global,
    program: &Program,
    inputs: &Inputs,
    number: u32,
    workers: u32,
    depth: u32,
) -> Result<Outcome, Fail>
    requires inputs { AreInputsOf program.now inputs.now }
    requires layout { number < layout_count program.now.ops }
    requires workers { (1 ≤ workers) × (workers ≤ worker_limit) }
    requires depth { (1 ≤ depth) × (depth ≤ 64) }
{
    let physical = layout(program, program.plan(), number, workers);
    let world = World::<ListLocal>::start(alloc, program, &physical, inputs, 2, depth)?;
    Ok(run_alone(world)?)
}

fn are_equal(found: &Counts, wanted: &Counts) -> bool {
    for at in 0..wanted.len().min(found.len()) {
        if found.at(at) != wanted.at(at) {
            return false;
        }
    }
    found.len() == wanted.len()
}

/// Whether these are the same rows, in some order.
pub fn are_same(found: Rows, wanted: Rows) -> Result<bool, Fail> {
    let mut found = found.into_records();
    let mut wanted = wanted.into_records();
    found.sort()?;
    wanted.sort()?;
    Ok(found == wanted)
}

fn same_outcomes(found: Outcome, wanted: Outcome) -> Result<bool, Fail> {
    if !are_equal(&found.counts, &wanted.counts) {
        return Ok(false);
    }
    are_same(found.rows, wanted.rows)
}

// Whether a run on the layout with this number gives the rows and the counts of the plain evaluation, if there is such
// a layout.
fn agrees(
    alloc: Global,
    text: &str,
    rows: &[&str],
    number: u32,
    workers: u32,
    depth: u32,
) -> Result<bool, Fail>
    requires workers { (1 ≤ workers) × (workers ≤ worker_limit) }
    requires depth { (1 ≤ depth) × (depth ≤ 64) }
{
    let program = program(alloc, text.as_bytes())?;
    let inputs = inputs(alloc, &program, rows)?;
    if number >= layouts(&program, program.plan()) {
        return Ok(true);
    }
    let found = ran(alloc, &program, &inputs, number, workers, depth)?;
    let wanted = evaluate(alloc, &program, program.plan(), &inputs)?;
    same_outcomes(found, wanted)
}

#[test]
fn runs_give_what_the_evaluation_gives(rt: HostRuntime) -> Result<(), Fail> {
    let matched = [
        "1,10\n2,20\n1,10\n3,7\n5,5\n",
        "1,5\n4,5\n1,6\n9,9\n5,1\n5,2\n",
    ];
    let paired = ["1,10\n2,20\n1,10\n", "1,5\n4,5\n1,6\n9,9\n", "1,0\n7,0\n"];
    let grouped = ["1,1\n2,1\n3,1\n4,1\n5,1\n1,1\n2,1\n3,1\n4,1\n5,1\n1,2\n"];
    for workers in 1..4u32 {
        for number in 0..8u32 {
            for depth in 1..3u32 {
                assert_eq!(rt;
                    agrees(rt.alloc(), MATCH, &matched, number, workers, depth)?,
                    true
                );
                assert_eq!(rt;
                    agrees(rt.alloc(), PAIRS, &paired, number, workers, depth)?,
                    true
                );
                assert_eq!(rt;
                    agrees(rt.alloc(), PUSH, &grouped, number, workers, depth)?,
                    true
                );
            }
        }
    }
    Ok(())
}
