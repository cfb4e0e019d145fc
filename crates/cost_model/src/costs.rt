//! What a physical plan is expected to cost.

ghost use Rattle.std.specs.Prelude.{◌≡◌, ◌≢◌, true};
ghost use Rattle.plan_trees.specs.Plans.{has, root_of};
ghost use Rattle.pact_operators.specs.Allowed.{count_of};
ghost use Rattle.cost_model.specs.Costs as costs;
ghost use Rattle.cost_model.specs.Costs.{whole_cost};
ghost use Rattle.plan_trees.specs.Edges.{EdgesLieIn};
ghost use Rattle.plan_trees.specs.Physicals.{ship_of};
ghost use Rattle.cost_model.specs.Estimates.{estimate};

use crate::estimates::{estimate_above_one, estimate_above_two, plus, rows_at, times};
use pact_bag::Counts;
use pact_operators::{Parts, Physical, Plan, Program, Ship};
use plan_trees::{parts_within, ship_below};

// How many records a tree's root is expected to emit, and what the operators of the tree are expected to cost.
#[derive(Clone, Copy)]
struct Spent {
    estimate: u64,
    cost: u64,
}

/// The cost of an edge with `n` records: its operator takes them, and they are shipped. A record that stays has no
/// further cost.
pub fn edge_cost(workers: u32, ship: &Ship, n: u64) -> u64
    ensures { result ≡ costs.edge_cost workers ship.now n }
{
    match ship {
        Ship::Forward => plus(n, 0),
        Ship::Partition(_) => plus(n, n),
        Ship::Broadcast => plus(n, times(workers as u64, n)),
    }
}

// The cost of the edge that an input's root leaves, if it is expected to emit `n` records.
fn input_cost(physical: &Physical, input: &Plan, n: u64) -> u64
    requires has { has (root_of input.now) physical.now.tree ≡ true }
    requires edge { root_of input.now ≢ root_of physical.now.tree }
    ensures { result ≡ costs.edge_cost physical.now.workers (ship_of physical.now input.now) n }
{
    edge_cost(physical.workers(), &ship_below(physical, input), n)
}

fn spent_in(program: &Program, counts: &Counts, physical: &Physical, tree: &Plan) -> Spent
    requires { EdgesLieIn tree.now physical.now.tree }
    ensures estimate { result.estimate ≡ estimate program.now counts.now tree.now }
    ensures cost { result.cost ≡ costs.spent program.now counts.now physical.now tree.now }
{
    match parts_within(physical, tree) {
        Parts::Alone { at } => Spent {
            estimate: rows_at(counts, at),
            cost: 0,
        },
        Parts::OverOne { at, input } => {
            let below = spent_in(program, counts, physical, &input);
            let edge = input_cost(physical, &input, below.estimate);
            Spent {
                estimate: estimate_above_one(program, at, below.estimate),
                cost: plus(edge, below.cost),
            }
        }
        Parts::OverTwo { at, left, right } => {
            let on_left = spent_in(program, counts, physical, &left);
            let on_right = spent_in(program, counts, physical, &right);
            let left_edge = input_cost(physical, &left, on_left.estimate);
            let right_edge = input_cost(physical, &right, on_right.estimate);
            let edges = plus(left_edge, right_edge);
            let below = plus(on_left.cost, on_right.cost);
            Spent {
                estimate: estimate_above_two(program, at, on_left.estimate, on_right.estimate),
                cost: plus(edges, below),
            }
        }
    }
}

/// What the physical plan is expected to cost, in records that operators take and edges ship.
pub fn cost(program: &Program, physical: &Physical, counts: &Counts) -> u64
    ensures value { result ≡ costs.cost program.now counts.now physical.now }
    ensures whole { result ≡ count_of (whole_cost program.now counts.now physical.now physical.now.tree) }
{
    spent_in(program, counts, physical, physical.plan()).cost
}
