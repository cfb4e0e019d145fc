//! A plan taken apart once, so that many of its layouts can be weighed.

ghost use Rattle.std.specs.Prelude.{◌≡◌, ◌≤◌, ◌<◌, ◌+◌, ℕ, Some, length, slice_get};
ghost use Rattle.cost_model.specs.Estimates.{estimate};
ghost use Rattle.pact_operators.specs.PlanOps.{kind_at};
ghost use Rattle.plan_trees.specs.Plans.{node_limit};
ghost use Rattle.plan_trees.specs.Preorders.{count_of};
ghost use Rattle.ship_strategy.specs.Views.{facts_in};
ghost use Rattle.plan_enumerate.specs.RowsOfPlans.{Holds, input_at};

use cost_model::{estimate_above_one, estimate_above_two, rows_at};
use pact_bag::Counts;
use pact_operators::{MAX_NODES, Parts, Plan, Program};
use ship_strategy::{OpFacts, Table};

/// An input of an operator: the row of its root, and how many records it is expected to have.
#[derive(Clone, Copy)]
pub(crate) struct Input {
    pub row: u32,
    pub records: u64,
}

/// What an operator reads. A source reads nothing.
#[derive(Clone, Copy)]
pub(crate) enum Reads {
    Nothing,
    One(Input),
    Two(Input, Input),
}

/// A source or operator of a plan.
#[derive(Clone, Copy)]
pub(crate) struct Row {
    pub at: u32,
    pub facts: OpFacts,
    pub reads: Reads,
}

/// The sources and operators of a plan, each operator after its inputs.
#[derive(Clone, Copy)]
pub(crate) struct Rows {
    pub held: [Row; MAX_NODES],
    pub count: u32,
}

impl Rows {
    fn none(table: &Table) -> Rows
        ensures { result.count ≡ 0 }
    {
        Rows {
            held: [Row {
                at: 0,
                facts: table.at(0),
                reads: Reads::Nothing,
            }; MAX_NODES],
            count: 0,
        }
    }

    // Appends a row, and returns its place.
    fn push(&mut self, row: &Row) -> u32
        requires { self.old.count < node_limit }
        ensures place { result ≡ self.old.count }
        ensures count { self.new.count ≡ self.old.count + 1 }
        ensures row { slice_get self.new.held self.old.count ≡ Some row.now }
        ensures others { (k : ℕ) → k < self.old.count → slice_get self.new.held k ≡ slice_get self.old.held k }
    {
        let place = self.count;
        self.held[place as usize] = *row;
        self.count = place + 1;
        place
    }
}

// Appends the rows of a tree, and returns its root as an input.
fn add_tree(
    program: &Program,
    counts: &Counts,
    table: &Table,
    tree: &Plan,
    rows: &mut Rows,
) -> Input
    requires { rows.old.count + count_of tree.now ≤ node_limit }
    ensures input { result ≡ input_at program.now counts.now result.row tree.now }
    ensures holds { Holds program.now counts.now (facts_in table.now) rows.new.held result.row tree.now }
    ensures last { rows.new.count ≡ result.row + 1 }
    ensures behind { rows.old.count ≤ result.row }
    ensures count { rows.new.count ≡ rows.old.count + count_of tree.now }
    ensures others { (k : ℕ) → k < rows.old.count → slice_get rows.new.held k ≡ slice_get rows.old.held k }
{
    match tree.parts() {
        Parts::Alone { at } => {
            let row = rows.push(&Row {
                at,
                facts: table.at(at),
                reads: Reads::Nothing,
            });
            Input {
                row,
                records: rows_at(counts, at),
            }
        }
        Parts::OverOne { at, input } => {
            let below = add_tree(program, counts, table, &input, rows);
            let row = rows.push(&Row {
                at,
                facts: table.at(at),
                reads: Reads::One(below),
            });
            Input {
                row,
                records: estimate_above_one(program, at, below.records),
            }
        }
        Parts::OverTwo { at, left, right } => {
            let on_left = add_tree(program, counts, table, &left, rows);
            let on_right = add_tree(program, counts, table, &right, rows);
            let row = rows.push(&Row {
                at,
                facts: table.at(at),
                reads: Reads::Two(on_left, on_right),
            });
            Input {
                row,
                records: estimate_above_two(program, at, on_left.records, on_right.records),
            }
        }
    }
}

/// The rows of a plan whose operators have these facts. The last row is its root's.
pub(crate) fn rows_of(program: &Program, counts: &Counts, table: &Table, plan: &Plan) -> Rows
    ensures holds { (root : ℕ) → result.count ≡ root + 1 → Holds program.now counts.now (facts_in table.now) result.held root plan.now }
    ensures some { 1 ≤ result.count }
    ensures few { result.count ≤ node_limit }
{
    // `root` makes it known that the numbers of a plan differ, so that there are at most `MAX_NODES`.
    let _root = plan.root();
    let mut rows = Rows::none(table);
    add_tree(program, counts, table, plan, &mut rows);
    rows
}
