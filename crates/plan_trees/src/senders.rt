//! Which workers send no more along an edge.

ghost use Rattle.std.specs.Prelude.{◌≡◌, ◌<◌, [], true, get_or, length, set, IfOk};
ghost use Rattle.plan_trees.specs.Senders.{AreEndedAtStart, all_below};
ghost use Rattle.plan_trees.specs.Sending.{has_out};

use crate::physicals::Ship;
use pact_record::OutOfMemory;
use std::alloc::Global;
use std::marker::Model;

/// For each worker, by its number, whether it sends no more along an edge to one worker. Each sender reports its end.
/// All have ended once every worker has; that one has ended says nothing about the others. A number past the last
/// worker counts as ended.
#[derive(Drop)]
pub struct EndedSenders {
    flags: Vec<bool>,
}

impl Model for EndedSenders {
    ghost use Rattle.std.specs.Prelude.{Bool, List};

    ghost Value = { List Bool };

    ghost view = { λ senders. senders.flags.items };
}

fn has_out(edge: &Option<Ship>, from: u32, to: u32) -> bool
    ensures { result ≡ has_out edge.now from to }
{
    match edge {
        Some(ship) => ship.has_pipe(from, to),
        None => false,
    }
}

impl EndedSenders {
    /// The state before anything is sent along the edge to worker `to`: exactly the workers that don't send to it have
    /// ended. If there is no edge nobody sends. Out of memory is the only error.
    pub fn along(
        alloc: Global,
        edge: Option<Ship>,
        workers: u32,
        to: u32,
    ) -> Result<EndedSenders, OutOfMemory>
        ensures { IfOk result (AreEndedAtStart edge workers to) }
    {
        let mut flags = Vec::with_capacity(alloc, workers as usize)?;
        for from in 0..workers {
            flags.push_reserved(!has_out(&edge, from, to));
        }
        Ok(EndedSenders { flags })
    }

    /// The worker with this number sends no more.
    pub fn end(&mut self, from: u32)
        requires { from < length self.old }
        ensures { self.new ≡ set self.old from true }
    {
        self.flags[from as usize] = true;
    }

    pub fn has_ended(&self, from: u32) -> bool
        ensures { result ≡ get_or self.now from true }
    {
        match self.flags.get(from as usize) {
            Some(flag) => *flag,
            None => true,
        }
    }

    pub fn have_all_ended(&self) -> bool
        ensures { result ≡ all_below (length self.now) (λ from. get_or self.now from true) }
    {
        for from in 0..self.flags.len() {
            if !self.flags[from] {
                return false;
            }
        }
        true
    }

    /// No worker is waited for any more.
    pub fn clear(&mut self)
        ensures { self.new ≡ [] }
    {
        self.flags.clear();
    }
}
