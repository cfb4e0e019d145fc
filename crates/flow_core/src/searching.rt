//! Events that can happen.

ghost use Rattle.std.specs.Prelude.{◌≡◌, ◌<◌, ℕ, true, false, length, if◌then◌else◌, Some, None, IfNone, IfSome};
ghost use Rattle.plan_trees.specs.Physicals.{IsPhysical};
ghost use Rattle.flow_instance.specs.declared.notes.Event.TheVariants as events;
ghost use Rattle.flow_instance.specs.declared.notes.Want.TheVariants as wants;
ghost use Rattle.flow_instance.specs.Instances.{want};
ghost use Rattle.flow_instance.specs.Worlds.{IsStuck, enabled, reader_of};
ghost use Rattle.flow_core.specs.Idle.{IsIdle};
ghost use Rattle.flow_core.specs.Worlds.{instance_in, queue_in, seen};

use crate::worlds::World;
use flow_instance::{Event, PipeId, Want};
use local_strategy::Local;
use pact_operators::MAX_NODES;

impl<L: Local> World<L> {
    // A worker whose pipe along the edge to the receiver has a note.
    fn sender(&self, edge: u32, to: u32) -> Option<u32>
        ensures some { IfSome result (λ from. 0 < length (queue_in self.now.queued_instances edge from to)) }
        ensures below { IfSome result (λ from. from < self.now.physical.workers) }
        ensures none { IfNone result ((from : ℕ) → from < self.now.physical.workers → length (queue_in self.now.queued_instances edge from to) ≡ 0) }
    {
        for from in 0..self.tables.workers() {
            if self.queued(PipeId { edge, from, to }) > 0 {
                return Some(from);
            }
        }
        None
    }

    fn if_enabled(&self, event: Event) -> Option<Event>
        ensures { result ≡ (if enabled self.now.physical self.now.depth (seen self.now) event then Some event else None) }
    {
        self.enabled(event).then_some(event)
    }

    // The event that takes a note at the port, if the instance can take one there.
    fn take_at(&self, at: u32, worker: u32, port: u32) -> Option<Event>
        requires physical { IsPhysical self.now.physical }
        requires wanted { want (instance_in self.now.queued_instances at worker) ≡ wants.Take port }
        ensures some { IfSome result (λ e. enabled self.now.physical self.now.depth (seen self.now) e ≡ true) }
        ensures none { IfNone result (IsIdle self.now.physical self.now.depth (seen self.now) at worker) }
    {
        let edge = self.tables.input(at, port)?;
        let from = self.sender(edge, worker)?;
        self.if_enabled(Event::Take(PipeId {
            edge,
            from,
            to: worker,
        }))
    }

    /// An event that the instance can do, if there is one.
    pub(crate) fn event_of(&self, at: u32, worker: u32) -> Option<Event>
        requires physical { IsPhysical self.now.physical }
        ensures some { IfSome result (λ e. enabled self.now.physical self.now.depth (seen self.now) e ≡ true) }
        ensures none { IfNone result (IsIdle self.now.physical self.now.depth (seen self.now) at worker) }
    {
        match self.want(at, worker) {
            Want::Put(to) => self.if_enabled(Event::Put(PipeId {
                edge: at,
                from: worker,
                to,
            })),
            Want::Take(port) => self.take_at(at, worker, port),
            Want::End => self.if_enabled(Event::End { at, worker }),
            Want::Done => None,
        }
    }

    // An event that some instance of a source or operator can do.
    fn event_at(&self, at: u32) -> Option<Event>
        requires physical { IsPhysical self.now.physical }
        ensures some { IfSome result (λ e. enabled self.now.physical self.now.depth (seen self.now) e ≡ true) }
        ensures none { IfNone result ((worker : ℕ) → worker < self.now.physical.workers → IsIdle self.now.physical self.now.depth (seen self.now) at worker) }
    {
        for worker in 0..self.tables.workers() {
            if let Some(event) = self.event_of(at, worker) {
                return Some(event);
            }
        }
        None
    }

    /// An event that some instance can do, found by a search of all of them.
    pub(crate) fn any_event(&self) -> Option<Event>
        requires physical { IsPhysical self.now.physical }
        ensures some { IfSome result (λ e. enabled self.now.physical self.now.depth (seen self.now) e ≡ true) }
        ensures none { IfNone result (IsStuck self.now.physical self.now.depth (seen self.now)) }
    {
        for at in 0..MAX_NODES as u32 {
            if let Some(event) = self.event_at(at) {
                return Some(event);
            }
        }
        None
    }
}
