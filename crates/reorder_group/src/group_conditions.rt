//! The conditions on a Map that moves past an operator that groups.

ghost use Rattle.std.specs.Prelude.{◌≡◌, ◌↔◌, ℕ, IfErr, IfOk, IsTrue, slice_get};
ghost use Rattle.pact_record.specs.FieldSets.{has_field};
ghost use Rattle.pact_record.specs.Keys.{is_listed};
ghost use Rattle.tac_flow.specs.Results.{IsBoundToKeys};
ghost use Rattle.tac_flow.specs.Views.{found_of};
ghost use Rattle.pact_operators.specs.PlanOps.{left_keys_in, right_keys_in};
ghost use Rattle.reorder_pair.specs.Conditions.{AllPass, Fails, FirstFails, Passes, anchored, group_lines, keeps_groups as keeps_groups_of, uses_of};

use pact_operators::Program;
use pact_record::Fields;
use reorder_pair::{Found, NotLegal, Rule};

// An operator's key fields on the left.
fn left_key_fields(program: &Program, at: u32) -> Fields
    ensures { (k : ℕ) → has_field result k ≡ is_listed (left_keys_in (slice_get program.now.ops at)) k }
{
    match program.ops().get(at as usize) {
        Some(op) => op.left_keys.fields(),
        None => Fields::empty(),
    }
}

// An operator's key fields on the right.
fn right_key_fields(program: &Program, at: u32) -> Fields
    ensures { (k : ℕ) → has_field result k ≡ is_listed (right_keys_in (slice_get program.now.ops at)) k }
{
    match program.ops().get(at as usize) {
        Some(op) => op.right_keys.fields(),
        None => Fields::empty(),
    }
}

// Whether a Map emits one record for each, or at most one whose emission only the keys decide.
fn keeps_groups(mover: &Found, keys: Fields) -> bool
    ensures { IsTrue result ↔ IsBoundToKeys mover.now.lo mover.now.hi (found_of mover.now.sets).control (has_field keys) }
{
    (mover.lo == 1 && mover.hi == 1) || (mover.hi <= 1 && mover.sets.control.is_subset(keys))
}

// Whether the Map keeps the groups of an operator's left keys.
fn keeps_left_groups(program: &Program, mover: &Found, at: u32) -> Result<(), NotLegal>
    ensures passes { IfOk result (λ x. Passes (keeps_groups_of (uses_of mover.now) (left_keys_in (slice_get program.now.ops at)))) }
    ensures fails { IfErr result (Fails (keeps_groups_of (uses_of mover.now) (left_keys_in (slice_get program.now.ops at)))) }
{
    if keeps_groups(mover, left_key_fields(program, at)) {
        Ok(())
    } else {
        Err(NotLegal::KeyGroup)
    }
}

// Whether the Map keeps the groups of an operator's right keys.
fn keeps_right_groups(program: &Program, mover: &Found, at: u32) -> Result<(), NotLegal>
    ensures passes { IfOk result (λ x. Passes (keeps_groups_of (uses_of mover.now) (right_keys_in (slice_get program.now.ops at)))) }
    ensures fails { IfErr result (Fails (keeps_groups_of (uses_of mover.now) (right_keys_in (slice_get program.now.ops at)))) }
{
    if keeps_groups(mover, right_key_fields(program, at)) {
        Ok(())
    } else {
        Err(NotLegal::KeyGroup)
    }
}

// Whether a CoGroup is anchored on the side of the move.
fn is_anchored(holds: bool) -> Result<(), NotLegal>
    ensures passes { IfOk result (λ x. Passes (anchored holds)) }
    ensures fails { IfErr result (Fails (anchored holds)) }
{
    if holds {
        Ok(())
    } else {
        Err(NotLegal::NotAnchored)
    }
}

// The conditions on groups. `at` and `below` are the numbers of the upper and the lower operator.
pub(crate) fn past_groups(
    program: &Program,
    rule: Rule,
    at: u32,
    below: u32,
    upper: &Found,
    lower: &Found,
) -> Result<(), NotLegal>
    ensures passes { IfOk result (λ x. AllPass (group_lines program.now rule at below (uses_of upper.now) (uses_of lower.now))) }
    ensures fails { IfErr result (FirstFails (group_lines program.now rule at below (uses_of upper.now) (uses_of lower.now))) }
{
    match rule {
        Rule::MapMap
        | Rule::MapLeft
        | Rule::MapLeftUp
        | Rule::MapRight
        | Rule::MapRightUp
        | Rule::Rotate
        | Rule::RotateUp
        | Rule::ReduceMatchLeft
        | Rule::ReduceMatchLeftUp
        | Rule::ReduceMatchRight
        | Rule::ReduceMatchRightUp => Ok(()),
        Rule::MapReduce => keeps_left_groups(program, upper, below),
        Rule::MapReduceUp => keeps_left_groups(program, lower, at),
        Rule::MapCoGroupLeft => {
            is_anchored(lower.sets.anchor_left)?;
            keeps_left_groups(program, upper, below)
        }
        Rule::MapCoGroupLeftUp => {
            is_anchored(upper.sets.anchor_left)?;
            keeps_left_groups(program, lower, at)
        }
        Rule::MapCoGroupRight => {
            is_anchored(lower.sets.anchor_right)?;
            keeps_right_groups(program, upper, below)
        }
        Rule::MapCoGroupRightUp => {
            is_anchored(upper.sets.anchor_right)?;
            keeps_right_groups(program, lower, at)
        }
    }
}
