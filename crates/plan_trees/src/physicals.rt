//! Physical plans: a plan, how many workers run it, and how records go along each of its edges.

ghost use Rattle.std.specs.Prelude.{◌≡◌, ◌≢◌, ◌<◌, ◌≤◌, ◌↔◌, ℕ, true, Some, IsNone};
ghost use Rattle.plan_trees.specs.Distinct.{IsAbsent};
ghost use Rattle.plan_trees.specs.Inserted.{inserted_above};
ghost use Rattle.plan_trees.specs.Plans.{node_limit, nodes, root_of, has};
ghost use Rattle.plan_trees.specs.Physicals.{worker_limit, has_edge, ship_at, with_ship, forwarded, IsPhysical};
ghost use Rattle.plan_trees.specs.Sending.{has_pipe};

use crate::plans::Plan;
use crate::preorders::MAX_NODES;
use pact_record::Keys;
use std::marker::Model;

/// How the records that a worker has at an operator or a source go to its consumer.
#[derive(Clone, Copy, Debug, PartialEq, Eq)]
pub enum Ship {
    /// They stay with the worker.
    Forward,
    /// Each goes to the worker that its key values determine.
    Partition(Keys),
    /// Each goes to every worker.
    Broadcast,
}

impl Ship {
    /// Whether an edge with this ship has a pipe from the first worker to the second.
    pub fn has_pipe(&self, from: u32, to: u32) -> bool
        ensures { result ≡ has_pipe self.now from to }
    {
        match self {
            Ship::Forward => from == to,
            Ship::Partition(_) | Ship::Broadcast => true,
        }
    }
}

/// A plan with a number of workers, and a ship on each edge. The number of the operator or source that an edge leaves
/// names the edge. It is copied without memory.
#[derive(Clone, Copy, Debug, PartialEq, Eq)]
pub struct Physical {
    plan: Plan,
    workers: u32,
    ships: [Ship; MAX_NODES],
}

impl Model for Physical {
    ghost use Rattle.plan_trees.specs.Physicals.{PhysicalData};
    ghost use Rattle.plan_trees.specs.PhysicalCode.{coded_physical};

    ghost Value = { PhysicalData };

    ghost coded = { coded_physical };

    ghost use Rattle.plan_trees.specs.Physicals.{IsPhysical};

    ghost view = { λ p. record { tree = p.plan; workers = p.workers; ships = p.ships } };

    ghost invariant = { λ p. IsPhysical (record { tree = p.plan; workers = p.workers; ships = p.ships }) };

    ghost inverse = { λ d. record { plan = d.tree; workers = d.workers; ships = d.ships } };
}

impl Physical {
    /// Forward on every edge.
    pub fn forward(plan: Plan, workers: u32) -> Physical
        requires { (1 ≤ workers) × (workers ≤ worker_limit) }
        ensures value { result ≡ forwarded plan workers }
        ensures ships { (at : ℕ) → has_edge at plan ≡ true → ship_at result at ≡ Some Ship.Forward }
    {
        // `root` makes it known that the tree is a plan
        let _root = plan.root();
        Physical {
            plan,
            workers,
            ships: [Ship::Forward; MAX_NODES],
        }
    }

    pub fn plan(&self) -> &Plan
        ensures { result.now ≡ self.now.tree }
    {
        &self.plan
    }

    pub fn workers(&self) -> u32
        ensures workers { result ≡ self.now.workers }
        ensures physical { IsPhysical self.now }
    {
        self.workers
    }

    /// How records go from the operator or source to its consumer.
    pub fn ship(&self, at: u32) -> Option<Ship>
        requires { has at self.now.tree ≡ true }
        ensures ship { result ≡ ship_at self.now at }
        ensures none_at_root { IsNone result ↔ (at ≡ root_of self.now.tree) }
    {
        if at == self.plan.root() {
            return None;
        }
        Some(self.ships[at as usize])
    }

    pub fn set_ship(&mut self, at: u32, ship: Ship)
        requires has { has at self.old.tree ≡ true }
        requires edge { at ≢ root_of self.old.tree }
        ensures value { self.new ≡ with_ship self.old at ship }
        ensures edge { ship_at self.new at ≡ Some ship }
        ensures others { (k : ℕ) → k ≢ at → ship_at self.new k ≡ ship_at self.old k }
    {
        self.ships[at as usize] = ship;
    }

    /// Inserts an operator of one input on the edge from a number to its consumer. The edge to it has Forward, and the
    /// edge from it has the ship that the edge had.
    pub fn insert(&mut self, below: u32, new: u32)
        requires has { has below self.old.tree ≡ true }
        requires edge { below ≢ root_of self.old.tree }
        requires new_below { new < node_limit }
        requires absent { IsAbsent new (nodes self.old.tree) }
        ensures value { self.new ≡ inserted_above below new self.old }
        ensures physical { IsPhysical self.new }
    {
        let ship = self.ships[below as usize];
        let above = Plan::over(new, &self.plan.subtree(below));
        self.plan = self.plan.with_subtree(below, &above);
        self.ships[new as usize] = ship;
        self.ships[below as usize] = Ship::Forward;
    }
}
