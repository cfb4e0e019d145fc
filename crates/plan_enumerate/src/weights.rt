//! What a layout of a plan costs, and how its records are placed.

ghost use Rattle.std.specs.Prelude.{◌≡◌, slice_get};
ghost use Rattle.ship_strategy.specs.Views.{known_of, ways_in};
ghost use Rattle.plan_enumerate.specs.RowsOfPlans.{row_weight, weight_in};
ghost use Rattle.plan_enumerate.specs.Weights as weights;

use crate::plan_rows::{Reads, Row};
use cost_model::{edge_cost, plus};
use pact_operators::Ship;
use pact_record::Keys;
use ship_strategy::{
    OpFacts, Way, Ways, left_ship, only_ship, placed_both, placed_over, right_ship,
};

/// How the records of a tree's root are placed, and what its operators and edges cost.
#[derive(Clone, Copy)]
pub(crate) struct Weight {
    pub placement: Option<Keys>,
    pub cost: u64,
}

pub(crate) fn source_weight() -> Weight
    ensures { result ≡ weights.source_weight }
{
    Weight {
        placement: None,
        cost: 0,
    }
}

fn shipped_over(facts: &OpFacts, workers: u32, ship: &Ship, records: u64, below: &Weight) -> Weight
    ensures { result ≡ weights.shipped_over (known_of facts.now) workers ship.now records below.now }
{
    Weight {
        placement: placed_over(facts, ship, &below.placement),
        cost: plus(edge_cost(workers, ship, records), below.cost),
    }
}

fn weight_over(facts: &OpFacts, workers: u32, records: u64, below: &Weight) -> Weight
    ensures { result ≡ weights.weight_over (known_of facts.now) workers records below.now }
{
    let ship = only_ship(facts.kind, &facts.left_keys, &below.placement);
    shipped_over(facts, workers, &ship, records, below)
}

fn shipped_both(
    facts: &OpFacts,
    workers: u32,
    on_left: &Ship,
    on_right: &Ship,
    left_records: u64,
    right_records: u64,
    left: &Weight,
    right: &Weight,
) -> Weight
    ensures { result ≡ weights.shipped_both (known_of facts.now) workers on_left.now on_right.now left_records right_records left.now right.now }
{
    let left_edge = edge_cost(workers, on_left, left_records);
    let right_edge = edge_cost(workers, on_right, right_records);
    Weight {
        placement: placed_both(facts, on_left, on_right, &left.placement, &right.placement),
        cost: plus(plus(left_edge, right_edge), plus(left.cost, right.cost)),
    }
}

fn weight_both(
    facts: &OpFacts,
    way: Way,
    workers: u32,
    left_records: u64,
    right_records: u64,
    left: &Weight,
    right: &Weight,
) -> Weight
    ensures { result ≡ weights.weight_both (known_of facts.now) way workers left_records right_records left.now right.now }
{
    let on_left = left_ship(way, &facts.left_keys, &left.placement);
    let on_right = right_ship(way, &facts.right_keys, &right.placement);
    shipped_both(
        facts,
        workers,
        &on_left,
        &on_right,
        left_records,
        right_records,
        left,
        right,
    )
}

fn weight_at(weights: &[Weight], row: u32) -> Weight
    ensures { result ≡ weight_in (slice_get weights.now row) }
{
    match weights.get(row as usize) {
        Some(weight) => *weight,
        None => source_weight(),
    }
}

/// The weight of the tree at a row, by those of the trees at the rows before it.
pub(crate) fn row_weight(row: &Row, ways: &Ways, workers: u32, weights: &[Weight]) -> Weight
    ensures { result ≡ row_weight (ways_in ways.now) workers (λ j. weight_in (slice_get weights.now j)) row.now }
{
    match &row.reads {
        Reads::Nothing => source_weight(),
        Reads::One(input) => weight_over(
            &row.facts,
            workers,
            input.records,
            &weight_at(weights, input.row),
        ),
        Reads::Two(left, right) => weight_both(
            &row.facts,
            ways.at(row.at),
            workers,
            left.records,
            right.records,
            &weight_at(weights, left.row),
            &weight_at(weights, right.row),
        ),
    }
}
