//! The numbers of layouts.

ghost use Rattle.std.specs.Prelude.{◌≡◌, ◌≤◌, ◌+◌, ◌/◌, ◌%◌, ℕ, length};
ghost use Rattle.plan_trees.specs.Plans.{node_limit};
ghost use Rattle.pact_operators.specs.Programs.{is_pair_kind, pair_limit, times_of_kind};
ghost use Rattle.ship_strategy.specs.Layouts as layouts;
ghost use Rattle.ship_strategy.specs.Layouts.{layout_count, left_over, ways_of};
ghost use Rattle.ship_strategy.specs.Views.{chosen_from, ways_in};

use crate::ways::{Way, Ways};
use pact_operators::{Op, OpKind};

/// How many choices an operator of the kind has.
pub fn choices_of(kind: OpKind) -> u32
    ensures value { result ≡ layouts.choices_of kind }
    ensures some { 1 ≤ result }
{
    match kind {
        OpKind::Match => 3,
        OpKind::Cross => 2,
        _ => 1,
    }
}

fn way_of(kind: OpKind, choice: u32) -> Way
    ensures { result ≡ layouts.way_of kind choice }
{
    match kind {
        OpKind::Match => {
            if choice == 0 {
                Way::ByKey
            } else if choice == 1 {
                Way::LeftEverywhere
            } else {
                Way::RightEverywhere
            }
        }
        OpKind::Cross => {
            if choice == 0 {
                Way::LeftEverywhere
            } else {
                Way::RightEverywhere
            }
        }
        _ => Way::ByKey,
    }
}

/// How many lists of choices there are.
pub(crate) fn count(ops: &[Op]) -> u32
    requires { times_of_kind is_pair_kind ops.now ≤ pair_limit }
    ensures value { result ≡ layout_count ops.now }
    ensures few { result ≤ 6561 }
{
    match ops.split_first() {
        None => 1,
        Some((op, rest)) => choices_of(op.kind) * count(rest),
    }
}

// The way that a number gives to an operator of a kind, and what is left of the number for the choices before. Division
// by a constant is faster.
fn way_by(kind: OpKind, number: u32) -> (Way, u32)
    ensures way { result.0 ≡ layouts.way_of kind (number % layouts.choices_of kind) }
    ensures left { result.1 ≡ number / layouts.choices_of kind }
{
    match kind {
        OpKind::Match => (way_of(kind, number % 3), number / 3),
        OpKind::Cross => (way_of(kind, number % 2), number / 2),
        _ => (Way::ByKey, number),
    }
}

// Chooses for the operators from this place on, and returns what is left of the number.
fn choose_from(at: u32, ops: &[Op], number: u32, ways: &mut Ways) -> u32
    requires { at + length ops.now ≤ node_limit }
    ensures left { result ≡ left_over ops.now number }
    ensures ways { (k : ℕ) → ways_in ways.new k ≡ chosen_from at ops.now number (ways_in ways.old) k }
{
    match ops.split_first() {
        None => number,
        Some((op, rest)) => {
            let left = choose_from(at + 1, rest, number, ways);
            let (way, left) = way_by(op.kind, left);
            ways.set(at, way);
            left
        }
    }
}

/// The ways of the layout with this number.
pub fn chosen(ops: &[Op], number: u32) -> Ways
    requires { length ops.now ≤ node_limit }
    ensures { ways_in result ≡ ways_of ops.now number }
{
    let mut ways = Ways::by_key();
    choose_from(0, ops, number, &mut ways);
    ways
}
