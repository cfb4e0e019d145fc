//! A run on one thread.

ghost use Rattle.std.specs.Prelude.{◌≡◌, IfNone, IfOk, IfSome, true};
ghost use Rattle.plan_trees.specs.Physicals.{IsPhysical};
ghost use Rattle.flow_instance.specs.Worlds.{IsStuck, enabled};
ghost use Rattle.flow_core.specs.Outcomes.{GoesOn, IsRun, IsWorldOutcome};
ghost use Rattle.flow_core.specs.Worlds.{StandsForSome, seen};

use crate::ready::Ready;
use crate::worlds::World;
use flow_instance::Event;
use local_strategy::Local;
use pact_bag::Outcome;
use pact_record::OutOfMemory;

// An event that can happen: first of the listed instances, otherwise of any instance.
fn next_event<L: Local>(world: &World<L>, ready: &mut Ready) -> Option<Event>
    requires { IsPhysical world.now.physical }
    ensures some { IfSome result (λ e. enabled world.now.physical world.now.depth (seen world.now) e ≡ true) }
    ensures none { IfNone result (IsStuck world.now.physical world.now.depth (seen world.now)) }
{
    while let Some((at, worker)) = ready.pop() {
        if let Some(event) = world.event_of(at, worker) {
            return Some(event);
        }
    }
    world.any_event()
}

// Lists the instances at both ends of the pipe along which a note went. Each of them may be able to go on now.
fn list_around<L: Local>(
    ready: &mut Ready,
    world: &World<L>,
    event: Event,
) -> Result<(), OutOfMemory> {
    let (Event::Put(pipe) | Event::Take(pipe)) = event else {
        return Ok(());
    };
    ready.push(pipe.edge, pipe.from)?;
    match world.tables.reader(pipe.edge) {
        Some((at, _)) => ready.push(at, pipe.to),
        None => Ok(()),
    }
}

// Lets one event happen, and returns whether one could.
fn go_on<L: Local>(world: &mut World<L>, ready: &mut Ready) -> Result<bool, OutOfMemory>
    requires { StandsForSome world.old }
    ensures { IfOk result (λ went. GoesOn world.old went world.new) }
{
    let Some(event) = next_event(world, ready) else {
        return Ok(false);
    };
    world.step(event)?;
    list_around(ready, world, event)?;
    Ok(true)
}

// Lets events happen until none can. It returns false after 2^64 - 1 events, and then the bound allows that many.
fn run_to_end<L: Local>(world: &mut World<L>) -> Result<bool, OutOfMemory>
    requires { StandsForSome world.old }
    ensures { IfOk result (λ ended. IsRun world.old ended world.new) }
{
    let mut ready = Ready::new(world.alloc);
    for _turn in 0..u64::MAX {
        if !go_on(world, &mut ready)? {
            return Ok(true);
        }
    }
    Ok(false)
}

/// Lets events happen until none can; every instance is done then. It waits for no other thread.
///
/// Out of memory is the only error. A run also reports it after 2^64 - 1 events, more than any machine gets through.
pub fn run_alone<L: Local>(world: World<L>) -> Result<Outcome, OutOfMemory>
    requires { StandsForSome world }
    ensures { IfOk result (IsWorldOutcome world) }
{
    let mut world = world;
    if !run_to_end(&mut world)? {
        return Err(OutOfMemory);
    }
    world.finish()
}
