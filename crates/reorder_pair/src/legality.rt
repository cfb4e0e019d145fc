//! The conditions of an exchange, and which of them fails first.

ghost use Rattle.std.specs.Prelude.{◌++◌, ℕ, IfErr, IfNone, IfOk, IfSome};
ghost use Rattle.pact_record.specs.FieldSets.{has_field};
ghost use Rattle.tac_syntax.specs.Contexts.{Has};
ghost use Rattle.pact_operators.specs.Programs.{HasLeftAttribute, HasRightAttribute};
ghost use Rattle.reorder_pair.specs.Conditions.{AllPass, Fails, FirstFails, IsLeastCommon, Passes, avoids, conflict_lines, side_lines, uses_of};

use crate::finding::Found;
use crate::rules::Rule;
use crate::trees::Trees;
use pact_operators::{Plan, Program, Shape, context};
use pact_record::Fields;

/// What the upper operator does with a field, and then what the lower one does. Of several conflicts the first kind in
/// this order is reported.
#[derive(Clone, Copy, Debug, PartialEq, Eq)]
pub enum Clash {
    ReadWrite,
    WriteRead,
    WriteWrite,
}

/// Why an exchange isn't legal: the first of these that applies, in this order.
#[derive(Clone, Copy, Debug, PartialEq, Eq)]
pub enum NotLegal {
    /// There is no operator with that number, or it and the one below aren't what the rule exchanges.
    NoPlace,
    /// One writes what the other reads or writes: the first kind of conflict, with its least field.
    Conflict { kind: Clash, field: u32 },
    /// The least field that an operator touches and that is an attribute of the input that it moves past. For a
    /// rotation the first operator to be checked is the upper one of the tree in which the left two inputs are joined
    /// first.
    Side { field: u32 },
    /// The CoGroup's output records don't begin as records from the side of the move.
    NotAnchored,
    /// The Match's least key field on the side of the move that isn't a key of the Reduce.
    MatchKey { field: u32 },
    /// The Match's other side may have two records with the same key values.
    NotUnique,
    /// The Map may split groups. For a Reduce past a Match: the Match doesn't emit exactly one record for each pair.
    KeyGroup,
}

/// A legal exchange: the rule, the number of the upper operator, and the findings about the two.
#[derive(Clone, Copy, Debug, PartialEq, Eq)]
pub struct Condition {
    pub rule: Rule,
    pub at: u32,
    pub upper: Found,
    pub lower: Found,
}

/// The least field that is in both sets.
pub fn least_common(a: Fields, b: Fields) -> Option<u32>
    ensures some { IfSome result (IsLeastCommon (has_field a) (Has (has_field b))) }
    ensures none { IfNone result ((k : ℕ) → Has (has_field a) k → Has (has_field b) k → ⊥) }
{
    a.meet(b).least()
}

// Whether neither operator writes what the other reads or writes.
fn without_conflict(upper: &Found, lower: &Found) -> Result<(), NotLegal>
    ensures passes { IfOk result (λ x. AllPass (conflict_lines (uses_of upper.now) (uses_of lower.now))) }
    ensures fails { IfErr result (FirstFails (conflict_lines (uses_of upper.now) (uses_of lower.now))) }
{
    if let Some(field) = least_common(upper.sets.reads, lower.sets.writes) {
        return Err(NotLegal::Conflict {
            kind: Clash::ReadWrite,
            field,
        });
    }
    if let Some(field) = least_common(upper.sets.writes, lower.sets.reads) {
        return Err(NotLegal::Conflict {
            kind: Clash::WriteRead,
            field,
        });
    }
    if let Some(field) = least_common(upper.sets.writes, lower.sets.writes) {
        return Err(NotLegal::Conflict {
            kind: Clash::WriteWrite,
            field,
        });
    }
    Ok(())
}

// Whether an operator touches none of the fields of the left input of a tree's root.
fn past_left(program: &Program, mover: &Found, tree: &Plan) -> Result<(), NotLegal>
    ensures passes { IfOk result (λ x. Passes (avoids (uses_of mover.now) (HasLeftAttribute program.now.functions program.now.ops tree.now))) }
    ensures fails { IfErr result (Fails (avoids (uses_of mover.now) (HasLeftAttribute program.now.functions program.now.ops tree.now))) }
{
    let attributes = context(program, tree, tree.root()).left;
    match least_common(mover.sets.touched, attributes) {
        Some(field) => Err(NotLegal::Side { field }),
        None => Ok(()),
    }
}

// Whether an operator touches none of the fields of the right input of a tree's root.
fn past_right(program: &Program, mover: &Found, tree: &Plan) -> Result<(), NotLegal>
    ensures passes { IfOk result (λ x. Passes (avoids (uses_of mover.now) (HasRightAttribute program.now.functions program.now.ops tree.now))) }
    ensures fails { IfErr result (Fails (avoids (uses_of mover.now) (HasRightAttribute program.now.functions program.now.ops tree.now))) }
{
    let attributes = context(program, tree, tree.root()).right;
    match least_common(mover.sets.touched, attributes) {
        Some(field) => Err(NotLegal::Side { field }),
        None => Ok(()),
    }
}

// Whether each operator touches none of the fields of an input that it moves past.
fn past_sides(
    program: &Program,
    shape: Shape,
    trees: &Trees,
    upper: &Found,
    lower: &Found,
) -> Result<(), NotLegal>
    ensures passes { IfOk result (λ x. AllPass (side_lines program.now shape trees.now.before trees.now.after (uses_of upper.now) (uses_of lower.now))) }
    ensures fails { IfErr result (FirstFails (side_lines program.now shape trees.now.before trees.now.after (uses_of upper.now) (uses_of lower.now))) }
{
    match shape {
        Shape::OneOverOne => Ok(()),
        Shape::IntoLeft => past_right(program, upper, &trees.after),
        Shape::OutOfLeft => past_right(program, lower, &trees.before),
        Shape::IntoRight => past_left(program, upper, &trees.after),
        Shape::OutOfRight => past_left(program, lower, &trees.before),
        Shape::ToRight => {
            past_left(program, upper, &trees.after)?;
            past_right(program, lower, &trees.before)
        }
        Shape::ToLeft => {
            past_left(program, lower, &trees.before)?;
            past_right(program, upper, &trees.after)
        }
    }
}

// The conditions that all rules have.
pub(crate) fn judged(
    program: &Program,
    shape: Shape,
    trees: &Trees,
    upper: &Found,
    lower: &Found,
) -> Result<(), NotLegal>
    ensures passes { IfOk result (λ x. AllPass (conflict_lines (uses_of upper.now) (uses_of lower.now) ++ side_lines program.now shape trees.now.before trees.now.after (uses_of upper.now) (uses_of lower.now))) }
    ensures fails { IfErr result (FirstFails (conflict_lines (uses_of upper.now) (uses_of lower.now) ++ side_lines program.now shape trees.now.before trees.now.after (uses_of upper.now) (uses_of lower.now))) }
{
    without_conflict(upper, lower)?;
    past_sides(program, shape, trees, upper, lower)
}
