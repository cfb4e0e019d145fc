//! Which operator reads which edge.

ghost use Rattle.std.specs.Prelude.{◌≡◌, ◌&&◌, ℕ, false, nat_lt, None, get_or};
ghost use Rattle.plan_trees.specs.Plans.{has, root_of};
ghost use Rattle.flow_core.specs.PlanTables.{input_in};
ghost use Rattle.flow_instance.specs.Worlds.{reader_of};

use pact_operators::{MAX_NODES, Parts, Physical, Plan};
use std::marker::Model;

/// A physical plan with tables of its numbers, of the reader of each edge, and of what each operator reads. With them
/// no event has to walk the plan.
#[derive(Drop)]
pub(crate) struct PlanTables {
    physical: Physical,
    nodes: [bool; MAX_NODES],
    readers: [Option<(u32, u32)>; MAX_NODES],
    lefts: [Option<u32>; MAX_NODES],
    rights: [Option<u32>; MAX_NODES],
}

impl Model for PlanTables {
    ghost use Rattle.plan_trees.specs.Physicals.{PhysicalData};
    ghost use Rattle.plan_trees.specs.PhysicalCode.{coded_physical};
    ghost use Rattle.flow_core.specs.PlanTables.{ArePlanTables};

    ghost Value = { PhysicalData };

    ghost coded = { coded_physical };

    ghost view = { λ w. w.physical };

    ghost invariant = { λ w. ArePlanTables w.physical.tree w.nodes w.readers w.lefts w.rights };
}

// The operator that reads an edge, and its port.
fn reader_of(plan: &Plan, edge: u32) -> Option<(u32, u32)>
    ensures { result ≡ reader_of edge plan.now }
{
    match plan.parts() {
        Parts::Alone { .. } => None,
        Parts::OverOne { at, input } => {
            if edge == input.root() {
                return Some((at, 0));
            }
            reader_of(&input, edge)
        }
        Parts::OverTwo { at, left, right } => {
            if edge == left.root() {
                return Some((at, 0));
            }
            if edge == right.root() {
                return Some((at, 1));
            }
            if let Some(reader) = reader_of(&left, edge) {
                return Some(reader);
            }
            reader_of(&right, edge)
        }
    }
}

// For each number, whether the plan has it.
fn nodes_of(plan: &Plan) -> [bool; MAX_NODES]
    ensures { (at : ℕ) → get_or result at false ≡ has at plan.now }
{
    // `root` makes it known that this is a plan.
    let _root = plan.root();
    let mut nodes = [false; MAX_NODES];
    for at in 0..MAX_NODES {
        nodes[at] = plan.has(at as u32);
    }
    nodes
}

// The reader of each edge.
fn readers_of(plan: &Plan) -> [Option<(u32, u32)>; MAX_NODES]
    ensures { (edge : ℕ) → get_or result edge None ≡ reader_of edge plan.now }
{
    // `root` makes it known that this is a plan.
    let _root = plan.root();
    let mut readers = [None; MAX_NODES];
    for edge in 0..MAX_NODES {
        readers[edge] = reader_of(plan, edge as u32);
    }
    readers
}

// What the operator reads at a port.
fn input_of(plan: &Plan, at: u32, port: u32) -> Option<u32>
    ensures { result ≡ input_in plan.now at port }
{
    if !plan.has(at) {
        return None;
    }
    plan.input(at, port)
}

// What each operator reads at a port.
fn inputs_of(plan: &Plan, port: u32) -> [Option<u32>; MAX_NODES]
    ensures { (at : ℕ) → get_or result at None ≡ input_in plan.now at port }
{
    // `root` makes it known that this is a plan.
    let _root = plan.root();
    let mut inputs = [None; MAX_NODES];
    for at in 0..MAX_NODES {
        inputs[at] = input_of(plan, at as u32, port);
    }
    inputs
}

impl PlanTables {
    pub(crate) fn new(physical: &Physical) -> PlanTables
        ensures { result ≡ physical.now }
    {
        let plan = physical.plan();
        PlanTables {
            physical: *physical,
            nodes: nodes_of(plan),
            readers: readers_of(plan),
            lefts: inputs_of(plan, 0),
            rights: inputs_of(plan, 1),
        }
    }

    pub(crate) fn workers(&self) -> u32
        ensures { result ≡ self.now.workers }
    {
        self.physical.workers()
    }

    /// The source or operator whose output is the plan's.
    pub(crate) fn root(&self) -> u32
        ensures { result ≡ root_of self.now.tree }
    {
        self.physical.plan().root()
    }

    /// Whether the plan has the source or operator, and this is one of its workers.
    pub(crate) fn has(&self, at: u32, worker: u32) -> bool
        ensures { result ≡ (has at self.now.tree && nat_lt worker self.now.workers) }
    {
        let is_node = self.nodes.get(at as usize).copied().unwrap_or(false);
        is_node && worker < self.physical.workers()
    }

    /// The operator that reads an edge, and its port.
    pub(crate) fn reader(&self, edge: u32) -> Option<(u32, u32)>
        ensures { result ≡ reader_of edge self.now.tree }
    {
        self.readers.get(edge as usize).copied().flatten()
    }

    /// What the operator reads at a port, and None if the plan doesn't have it.
    pub(crate) fn input(&self, at: u32, port: u32) -> Option<u32>
        ensures { result ≡ input_in self.now.tree at port }
    {
        match port {
            0 => self.lefts.get(at as usize).copied().flatten(),
            1 => self.rights.get(at as usize).copied().flatten(),
            _ => None,
        }
    }
}
