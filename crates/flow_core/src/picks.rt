//! A run on one thread whose events are picked by numbers.

ghost use Rattle.std.specs.Prelude.{◌≡◌, ◌++◌, true, IfNone, IfOk, IfSome, OnOk};
ghost use Rattle.plan_trees.specs.Physicals.{IsPhysical};
ghost use Rattle.flow_instance.specs.Worlds.{IsStuck, enabled};
ghost use Rattle.flow_core.specs.Outcomes.{IsWorldOutcome};
ghost use Rattle.flow_core.specs.Picks.{GoesByPick, IsLed, enabled_events, events_of, if_enabled, joined_below, picked_from, takes_from};
ghost use Rattle.flow_core.specs.PlanTables.{input_in};
ghost use Rattle.flow_core.specs.Worlds.{StandsForSome, seen};

use crate::alone::run_alone;
use crate::worlds::World;
use flow_instance::{Event, PipeId, Want};
use local_strategy::Local;
use pact_bag::Outcome;
use pact_operators::MAX_NODES;
use pact_record::OutOfMemory;

impl<L: Local> World<L> {
    // Lists the event if it can happen.
    fn list_event(&self, events: &mut Vec<Event>, event: Event) -> Result<(), OutOfMemory>
        ensures { OnOk result (events.new.items ≡ events.old.items ++ if_enabled self.now.physical self.now.depth (seen self.now) event) }
    {
        if self.enabled(event) {
            events.push(event)?;
        }
        Ok(())
    }

    // Lists the takes that an instance can do at a port, by sender.
    fn list_takes(
        &self,
        events: &mut Vec<Event>,
        at: u32,
        worker: u32,
        port: u32,
    ) -> Result<(), OutOfMemory>
        ensures { OnOk result (events.new.items ≡ events.old.items ++ takes_from self.now.physical self.now.depth (seen self.now) worker (input_in self.now.physical.tree at port)) }
    {
        let Some(edge) = self.tables.input(at, port) else {
            return Ok(());
        };
        for from in 0..self.tables.workers() {
            let pipe = PipeId {
                edge,
                from,
                to: worker,
            };
            self.list_event(events, Event::Take(pipe))?;
        }
        Ok(())
    }

    // Lists the events that an instance can do.
    fn list_of(&self, events: &mut Vec<Event>, at: u32, worker: u32) -> Result<(), OutOfMemory>
        ensures { OnOk result (events.new.items ≡ events.old.items ++ events_of self.now.physical self.now.depth (seen self.now) at worker) }
    {
        match self.want(at, worker) {
            Want::Put(to) => {
                let pipe = PipeId {
                    edge: at,
                    from: worker,
                    to,
                };
                self.list_event(events, Event::Put(pipe))
            }
            Want::Take(port) => self.list_takes(events, at, worker, port),
            Want::End => self.list_event(events, Event::End { at, worker }),
            Want::Done => Ok(()),
        }
    }

    // Lists the events that the instances of a source or operator can do.
    fn list_at(&self, events: &mut Vec<Event>, at: u32) -> Result<(), OutOfMemory>
        ensures { OnOk result (events.new.items ≡ events.old.items ++ joined_below self.now.physical.workers (λ worker. events_of self.now.physical self.now.depth (seen self.now) at worker)) }
    {
        for worker in 0..self.tables.workers() {
            self.list_of(events, at, worker)?;
        }
        Ok(())
    }

    // The events that can happen, in their order.
    fn enabled_events(&self) -> Result<Vec<Event>, OutOfMemory>
        ensures { IfOk result (λ events. events.items ≡ enabled_events self.now.physical self.now.depth (seen self.now)) }
    {
        let mut events = Vec::new(self.alloc);
        for at in 0..MAX_NODES as u32 {
            self.list_at(&mut events, at)?;
        }
        Ok(events)
    }

    // The event that the number picks, if one can happen.
    fn picked_event(&self, pick: u32) -> Result<Option<Event>, OutOfMemory>
        requires { IsPhysical self.now.physical }
        ensures picked { IfOk result (λ event. event ≡ picked_from (enabled_events self.now.physical self.now.depth (seen self.now)) pick) }
        ensures some { IfOk result (λ event. IfSome event (λ e. enabled self.now.physical self.now.depth (seen self.now) e ≡ true)) }
        ensures none { IfOk result (λ event. IfNone event (IsStuck self.now.physical self.now.depth (seen self.now))) }
    {
        let events = self.enabled_events()?;
        if events.len() == 0 {
            return Ok(None);
        }
        Ok(Some(events[pick as usize % events.len()]))
    }
}

// Lets the picked event happen, and returns whether one could.
fn go_by_pick<L: Local>(world: &mut World<L>, pick: u32) -> Result<bool, OutOfMemory>
    requires { StandsForSome world.old }
    ensures { IfOk result (λ went. GoesByPick world.old pick went world.new) }
{
    let Some(event) = world.picked_event(pick)? else {
        return Ok(false);
    };
    world.step(event)?;
    Ok(true)
}

// Lets the picked events happen, and stops when none can.
fn go_by_picks<L: Local>(world: &mut World<L>, picks: &[u32]) -> Result<(), OutOfMemory>
    requires { StandsForSome world.old }
    ensures { OnOk result (IsLed world.old world.new) }
{
    for &pick in picks {
        if !go_by_pick(world, pick)? {
            return Ok(());
        }
    }
    Ok(())
}

/// Lets events happen until none can; the numbers pick the first of them. At each step the enabled events are ordered
/// by the number of their source or operator, then by worker, then by the sender of what is taken. The next number,
/// modulo the number of enabled events, is the place of the event that happens. If no event is enabled, every instance
/// is done, and the numbers that are left are ignored. After the last number it goes on like `run_alone`. Its condition
/// and its clause are those of `run_alone`. It waits for no other thread.
///
/// No clause says that the events that happened are the picked ones; `replay` promises that for a list of events.
pub fn run_picked<L: Local>(world: World<L>, picks: &[u32]) -> Result<Outcome, OutOfMemory>
    requires { StandsForSome world }
    ensures { IfOk result (IsWorldOutcome world) }
{
    let mut world = world;
    go_by_picks(&mut world, picks)?;
    run_alone(world)
}
