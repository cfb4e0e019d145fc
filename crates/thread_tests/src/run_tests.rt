//! Runs on threads, compared with the run on one thread and the plain evaluation.

ghost use Rattle.std.specs.Prelude.{◌≤◌};
ghost use Rattle.plan_trees.specs.Physicals.{worker_limit};

use crate::outcomes::same_outcomes;
use crate::programs::{inputs, program};
use flow_core::{World, run_alone, run_picked};
use flow_run::{Options, run, run_in_turn, run_owned};
use group_table::GroupTable;
use local_strategy::Local;
use pact_bag::Outcome;
use pact_record::Value;
use ship_strategy::{layout, layouts};
use slow_eval::evaluate;
use sort_local::SortLocal;
use std::alloc::Global;
use std::sync::Wait;
use std::sync::atomic::{AtomicU64, Ordering};
use std::test::Fail;
use std::thread;
use std::thread::Threads;
use worker_gate::{Act, Gate, HoldGate, MeetGate, OpenGate};

const SUM: &str = "pact 1
fields 4
source s s.csv int:0 int:1
function sum reduce 1
  v0 = int 0
  each x1 of group
    v1 = get x1 1
    v0 = addw v0 v1
  end
  r0 = new
  v2 = key 0
  set r0 0 v2
  set r0 2 v0
  emit r0
end
reduce r sum s by 0
sink r 0 2
";

const MATCH: &str = "pact 1
fields 4
source a a.csv int:0 int:1
source b b.csv int:2 int:3
function both match
  r0 = copy join
  emit r0
end
match j both a b by 0 = 2
sink j 0 1 3
";

const CROSS: &str = "pact 1
fields 4
source a a.csv int:0 int:1
source b b.csv int:2 int:3
function both cross
  r0 = copy join
  emit r0
end
cross x both a b
sink x 0 2
";

const PAIRS: &str = "pact 1
fields 6
source l l.csv int:0 int:1
source r r.csv int:2 int:3
source t t.csv int:4 int:5
function equal cross
  v0 = get left 0
  v1 = get right 2
  v2 = eq v0 v1
  if v2
    r0 = copy join
    emit r0
    emit r0
  end
end
function all cogroup 1
  each x1 of left
    r0 = copy x1
    emit r0
  end
  each x1 of right
    r0 = copy x1
    emit r0
  end
end
cross x equal l r
cogroup g all x t by 0 = 4
sink g 0 1
";

const SUMMED: &str = "1,1\n2,1\n3,1\n4,1\n5,1\n1,1\n2,1\n3,1\n4,1\n5,1\n1,2\n";

const MATCHED: [&str; 2] = [
    "1,10\n2,20\n1,10\n3,7\n5,5\n",
    "1,5\n4,5\n1,6\n9,9\n5,1\n5,2\n",
];

const PAIRED: [&str; 3] = ["1,10\n2,20\n1,10\n", "1,5\n4,5\n1,6\n9,9\n", "1,0\n7,0\n"];

// How events are picked: by threads, by one worker after the other, or by numbers.
#[derive(Clone, Copy)]
enum Way<'a> {
    Threads,
    InTurn,
    Picks(&'a [u32]),
}

// What a run and the plain evaluation give. The numbers are within their limits.
fn outcomes<L: Local, R: Threads + Wait + Sync, G: Gate>(
    rt: &R,
    alloc: Global,
    text: &str,
    rows: &[&str],
    options: Options,
    gate: &G,
    way: Way<'_>,
) -> Result<(Outcome, Outcome), Fail>
    requires workers { (1 ≤ options.workers) × (options.workers ≤ worker_limit) }
    requires batch { (1 ≤ options.batch) × (options.batch ≤ 1024) }
    requires depth { (1 ≤ options.depth) × (options.depth ≤ 64) }
{
    let program = program(alloc, text.as_bytes())?;
    let inputs = inputs(alloc, &program, rows)?;
    let _some = layouts(&program, program.plan());
    let physical = layout(&program, program.plan(), 0, options.workers);
    // `workers` makes it known that `physical` is a layout, and for how many workers.
    let workers = physical.workers();
    let options = Options { workers, ..options };
    let (batch, depth) = (options.batch, options.depth);
    let wanted = evaluate(alloc, &program, program.plan(), &inputs)?;
    let found = match way {
        Way::Threads => { run::<L, R, G>(rt, alloc, &program, &physical, &inputs, options, gate)? }
        Way::InTurn => {
            run_in_turn::<L, R, G>(rt, alloc, &program, &physical, &inputs, options, gate)?
        }
        Way::Picks(picks) => {
            let world = World::<L>::start(alloc, &program, &physical, &inputs, batch, depth)?;
            run_picked(world, picks)?
        }
    };
    Ok((found, wanted))
}

// Whether a run gives what the evaluation gives.
fn agrees<L: Local, R: Threads + Wait + Sync, G: Gate>(
    rt: &R,
    alloc: Global,
    text: &str,
    rows: &[&str],
    options: Options,
    gate: &G,
    way: Way<'_>,
) -> Result<bool, Fail>
    requires workers { (1 ≤ options.workers) × (options.workers ≤ worker_limit) }
    requires batch { (1 ≤ options.batch) × (options.batch ≤ 1024) }
    requires depth { (1 ≤ options.depth) × (options.depth ≤ 64) }
{
    let (found, wanted) = outcomes::<L, R, G>(rt, alloc, text, rows, options, gate, way)?;
    same_outcomes(found, wanted)
}

// Whether runs of each kind of operator agree with the evaluation, and a run of several operators.
fn all_agree<R: Threads + Wait + Sync>(
    rt: &R,
    alloc: Global,
    workers: u32,
    batch: u32,
    depth: u32,
    way: Way<'_>,
) -> Result<bool, Fail>
    requires workers { (1 ≤ workers) × (workers ≤ worker_limit) }
    requires batch { (1 ≤ batch) × (batch ≤ 1024) }
    requires depth { (1 ≤ depth) × (depth ≤ 64) }
{
    let options = Options {
        workers,
        batch,
        depth,
    };
    Ok(
        agrees::<GroupTable, R, OpenGate>(rt, alloc, SUM, &[SUMMED], options, &OpenGate, way)?
            && agrees::<GroupTable, R, OpenGate>(
                rt, alloc, MATCH, &MATCHED, options, &OpenGate, way,
            )?
            && agrees::<GroupTable, R, OpenGate>(
                rt, alloc, CROSS, &MATCHED, options, &OpenGate, way,
            )?
            && agrees::<GroupTable, R, OpenGate>(
                rt, alloc, PAIRS, &PAIRED, options, &OpenGate, way,
            )?,
    )
}

// Whether all of these runs agree, for few workers and many, and for small and large batches and pipes.
fn agree_in_all_sizes<R: Threads + Wait + Sync>(
    rt: &R,
    alloc: Global,
    way: Way<'_>,
) -> Result<bool, Fail> {
    Ok(
        all_agree(rt, alloc, 1, 1, 1, way)?
            && all_agree(rt, alloc, 1, 64, 64, way)?
            && all_agree(rt, alloc, 2, 1, 1, way)?
            && all_agree(rt, alloc, 2, 1, 64, way)?
            && all_agree(rt, alloc, 2, 64, 1, way)?
            && all_agree(rt, alloc, 2, 64, 64, way)?
            && all_agree(rt, alloc, 3, 1, 1, way)?
            && all_agree(rt, alloc, 3, 64, 64, way)?
            && all_agree(rt, alloc, 16, 1, 1, way)?
            && all_agree(rt, alloc, 16, 64, 64, way)?,
    )
}

#[test]
fn runs_on_threads_give_what_the_evaluation_gives(rt: HostRuntime) -> Result<(), Fail> {
    assert!(rt; agree_in_all_sizes(&rt, rt.alloc(), Way::Threads)?);
    Ok(())
}

#[test]
fn runs_in_turn_give_what_the_evaluation_gives(rt: HostRuntime) -> Result<(), Fail> {
    assert!(rt; agree_in_all_sizes(&rt, rt.alloc(), Way::InTurn)?);
    Ok(())
}

// The number after a number, in a fixed sequence.
fn stepped(x: u32) -> u32 {
    ((u64::from(x) * 48_271 + 1) % 2_147_483_647) as u32
}

// The next `count` numbers of the sequence after `seed`.
fn numbers(alloc: Global, seed: u32, count: usize) -> Result<Vec<u32>, Fail> {
    let mut numbers = Vec::new(alloc);
    let mut x = seed;
    for _ in 0..count {
        x = stepped(x);
        numbers.push(x)?;
    }
    Ok(numbers)
}

/// Whether 200 lists of picked events give what the evaluation gives, on one to three workers.
pub fn picked_alike(alloc: Global, text: &str, rows: &[&str]) -> Result<bool, Fail> {
    let program = program(alloc, text.as_bytes())?;
    let inputs = inputs(alloc, &program, rows)?;
    for seed in 0..200u32 {
        let picks = numbers(alloc, seed, 80)?;
        let _some = layouts(&program, program.plan());
        let physical = layout(&program, program.plan(), 0, seed % 3 + 1);
        let wanted = evaluate(alloc, &program, program.plan(), &inputs)?;
        let world = World::<GroupTable>::start(
            alloc,
            &program,
            &physical,
            &inputs,
            2,
            seed % 2 + 1,
        )?;
        if !same_outcomes(run_picked(world, &picks)?, wanted)? {
            return Ok(false);
        }
    }
    Ok(true)
}

// `count` times the same number.
fn repeated(alloc: Global, number: u32, count: usize) -> Result<Vec<u32>, Fail> {
    Ok(vec![in alloc; number; count]?)
}

// Numbers that pick events: none, the first event each time, the last one each time, and any.
fn schedules(alloc: Global) -> Result<[Vec<u32>; 4], Fail> {
    Ok([
        Vec::new(alloc),
        repeated(alloc, 0, 10_000)?,
        repeated(alloc, u32::MAX, 10_000)?,
        numbers(alloc, 1, 10_000)?,
    ])
}

// A thousand rows of one key, with the numbers from 0 on.
fn thousand(alloc: Global) -> Result<String, Fail> {
    let mut text = String::new(alloc);
    for number in 0..1000u32 {
        text.push_str(&format!(in alloc; "7,{}\n", number)?)?;
    }
    Ok(text)
}

// Whether the only row has their sum.
fn tells_sum(found: &Outcome) -> bool {
    let rows = found.rows.rows();
    rows.len() == 1
        && matches!(
            rows[0].values(),
            [Value::Int(7), Value::Null, Value::Int(499_500), Value::Null]
        )
}

// Whether sixteen workers, of which one gets all records, find the sum of a thousand rows.
fn sums_thousand<R: Threads + Wait + Sync, G: Gate>(
    rt: &R,
    alloc: Global,
    gate: &G,
    way: Way<'_>,
) -> Result<bool, Fail> {
    let options = Options {
        workers: 16,
        batch: 1,
        depth: 1,
    };
    let text = thousand(alloc)?;
    let (found, wanted) = outcomes::<GroupTable, R, G>(
        rt,
        alloc,
        SUM,
        &[text.as_str()],
        options,
        gate,
        way,
    )?;
    Ok(tells_sum(&found) && same_outcomes(found, wanted)?)
}

#[test]
fn every_schedule_gives_one_sum(rt: HostRuntime) -> Result<(), Fail> {
    let alloc = rt.alloc();
    assert!(rt; sums_thousand(&rt, alloc, &OpenGate, Way::Threads)?);
    assert!(rt; sums_thousand(&rt, alloc, &HoldGate::new(1, 1000), Way::Threads)?);
    assert!(rt; sums_thousand(&rt, alloc, &OpenGate, Way::InTurn)?);
    for picks in &schedules(alloc)? {
        assert!(rt; sums_thousand(&rt, alloc, &OpenGate, Way::Picks(picks))?);
    }
    Ok(())
}

// Whether sixteen workers sum three rows, with either strategy for keeping the records.
fn sums_three<R: Threads + Wait + Sync, G: Gate>(
    rt: &R,
    alloc: Global,
    gate: &G,
    way: Way<'_>,
) -> Result<bool, Fail> {
    let options = Options {
        workers: 16,
        batch: 1,
        depth: 1,
    };
    let rows = ["1,5\n2,-3\n1,7\n"];
    Ok(
        agrees::<GroupTable, R, G>(rt, alloc, SUM, &rows, options, gate, way)?
            && agrees::<SortLocal, R, G>(rt, alloc, SUM, &rows, options, gate, way)?,
    )
}

#[test]
fn both_strategies_sum_by_every_schedule(rt: HostRuntime) -> Result<(), Fail> {
    let alloc = rt.alloc();
    assert!(rt; sums_three(&rt, alloc, &OpenGate, Way::Threads)?);
    assert!(rt; sums_three(&rt, alloc, &HoldGate::new(1, 1000), Way::Threads)?);
    assert!(rt; sums_three(&rt, alloc, &OpenGate, Way::InTurn)?);
    for picks in &schedules(alloc)? {
        assert!(rt; sums_three(&rt, alloc, &OpenGate, Way::Picks(picks))?);
    }
    Ok(())
}

// Whether the sums by workers that hand over one record at a time are those of one thread.
fn sums_agree<R: Threads + Wait + Sync, G: Gate>(
    rt: &R,
    alloc: Global,
    workers: u32,
    gate: &G,
) -> Result<bool, Fail>
    requires { (1 ≤ workers) × (workers ≤ worker_limit) }
{
    let program = program(alloc, SUM.as_bytes())?;
    let inputs = inputs(alloc, &program, &[SUMMED])?;
    let _some = layouts(&program, program.plan());
    let physical = layout(&program, program.plan(), 0, workers);
    let options = Options {
        workers: physical.workers(),
        batch: 1,
        depth: 1,
    };
    let alone = World::<GroupTable>::start(alloc, &program, &physical, &inputs, 1, 1)?;
    let wanted = run_alone(alone)?;
    let found = run_owned::<GroupTable, R, G>(
        rt, alloc, &program, &physical, inputs, options, gate,
    )?;
    same_outcomes(found, wanted)
}

#[test]
fn two_workers_sum_side_by_side(rt: HostRuntime) -> Result<(), Fail> {
    let gate = MeetGate::new(2, 10000000);
    assert!(rt; sums_agree(&rt, rt.alloc(), 2, &gate)?);
    assert!(rt; gate.met());
    assert_eq!(rt; (gate.ends(0), gate.ends(1)), (2, 2));
    Ok(())
}

#[test]
fn each_of_four_workers_ends_its_own_instances(rt: HostRuntime) -> Result<(), Fail> {
    let gate = MeetGate::new(4, 10000000);
    assert!(rt; sums_agree(&rt, rt.alloc(), 4, &gate)?);
    assert!(rt; gate.met());
    assert_eq!(rt;
        (gate.ends(0), gate.ends(1), gate.ends(2), gate.ends(3)),
        (2, 2, 2, 2)
    );
    Ok(())
}

// Holds the worker that comes with the event of this number for `turns` turns.
#[derive(Drop)]
struct StopGate {
    event: u64,
    turns: u32,
    events: AtomicU64,
}

impl Gate for StopGate {
    fn before(&self, _worker: u32, _act: Act) {
        if self.events.fetch_add(1, Ordering::SeqCst) == self.event {
            wait(self.turns);
        }
    }
}

fn wait(turns: u32) {
    for _ in 0..turns {
        thread::yield_now();
    }
}

#[test]
fn a_worker_that_is_held_back_changes_no_answer(rt: HostRuntime) -> Result<(), Fail> {
    let options = Options {
        workers: 3,
        batch: 1,
        depth: 1,
    };
    for worker in 0..3u32 {
        let gate = HoldGate::new(worker, 1000);
        assert!(rt;
            agrees::<GroupTable, HostRuntime, HoldGate>(
                &rt,
                rt.alloc(),
                PAIRS,
                &PAIRED,
                options,
                &gate,
                Way::Threads
            )?
        );
    }
    for event in 0..40u64 {
        let gate = StopGate {
            event,
            turns: 2000,
            events: AtomicU64::new(0),
        };
        assert!(rt;
            agrees::<GroupTable, HostRuntime, StopGate>(
                &rt,
                rt.alloc(),
                PAIRS,
                &PAIRED,
                options,
                &gate,
                Way::Threads
            )?
        );
    }
    Ok(())
}

// Keeps track of which workers had an event, and whether one had an event after a later worker's.
#[derive(Drop)]
struct OrderGate {
    last: AtomicU64,
    seen: AtomicU64,
    mixed: AtomicU64,
}

impl Gate for OrderGate {
    fn before(&self, worker: u32, _act: Act) {
        let worker = u64::from(worker);
        if self.last.swap(worker, Ordering::SeqCst) > worker {
            self.mixed.store(1, Ordering::SeqCst);
        }
        self.seen.fetch_or(1 << (worker & 15), Ordering::SeqCst);
    }
}

#[test]
fn workers_in_turn_work_one_after_the_other(rt: HostRuntime) -> Result<(), Fail> {
    let options = Options {
        workers: 3,
        batch: 1,
        depth: 64,
    };
    let gate = OrderGate {
        last: AtomicU64::new(0),
        seen: AtomicU64::new(0),
        mixed: AtomicU64::new(0),
    };
    assert!(rt;
        agrees::<GroupTable, HostRuntime, OrderGate>(
            &rt,
            rt.alloc(),
            PAIRS,
            &PAIRED,
            options,
            &gate,
            Way::InTurn
        )?
    );
    assert_eq!(rt; gate.seen.load(Ordering::SeqCst), 7);
    assert_eq!(rt; gate.mixed.load(Ordering::SeqCst), 0);
    Ok(())
}
