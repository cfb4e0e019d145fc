//! How the records that an operator of two inputs needs together come to one worker.

ghost use Rattle.std.specs.Prelude.{◌≡◌, ◌<◌, ◌==◌, ℕ, if◌then◌else◌};
ghost use Rattle.plan_trees.specs.Plans.{node_limit};
ghost use Rattle.ship_strategy.specs.Views.{ways_in};

use pact_operators::MAX_NODES;

/// How an operator's records come together.
#[derive(Clone, Copy, Debug, PartialEq, Eq)]
pub enum Way {
    /// Each side goes by its keys.
    ByKey,
    /// The left side goes to every worker, and the right one stays.
    LeftEverywhere,
    /// The right side goes to every worker, and the left one stays.
    RightEverywhere,
}

/// A way for each operator, by its number.
#[derive(Clone, Copy, Debug)]
pub struct Ways {
    held: [Way; MAX_NODES],
}

impl Ways {
    pub(crate) fn by_key() -> Ways
        ensures { (k : ℕ) → ways_in result k ≡ Way.ByKey }
    {
        Ways {
            held: [Way::ByKey; MAX_NODES],
        }
    }

    pub(crate) fn set(&mut self, at: u32, way: Way)
        requires { at < node_limit }
        ensures { (k : ℕ) → ways_in self.new k ≡ (if k == at then way else ways_in self.old k) }
    {
        self.held[at as usize] = way;
    }

    /// The way of the operator with this number.
    pub fn at(&self, at: u32) -> Way
        ensures { result ≡ ways_in self.now at }
    {
        match self.held.get(at as usize) {
            Some(way) => *way,
            None => Way::ByKey,
        }
    }
}
