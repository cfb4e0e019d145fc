//! The conditions on a Reduce that moves past a side of a Match.

ghost use Rattle.std.specs.Prelude.{◌≡◌, ◌≤◌, ◌↔◌, ℕ, false, IfErr, IfNone, IfOk, IfSome, IsTrue, slice_get};
ghost use Rattle.pact_record.specs.Keys.{is_listed};
ghost use Rattle.tac_syntax.specs.Contexts.{Has};
ghost use Rattle.plan_trees.specs.Plans.{root_of};
ghost use Rattle.pact_operators.specs.PlanOps.{left_keys_in, right_keys_in};
ghost use Rattle.reorder_pair.specs.Conditions.{AllPass, FirstFails, IsLeastCommon, left_input, match_left_lines, match_lines, match_right_lines, own_lines, right_input, uses_of};
ghost use Rattle.reorder_pair.specs.Rules.{IsUniqueRule};
ghost use Rattle.reorder_pair.specs.Unique.{IsUniqueTree};
ghost use Rattle.reorder_group.specs.OtherSides.{other_input, other_keys};

use pact_operators::{Parts, Plan, Program};
use pact_record::Keys;
use reorder_pair::{Found, NotLegal, Rule};

// An operator's keys on the left.
pub(crate) fn left_keys_of(program: &Program, at: u32) -> Keys
    ensures { result ≡ left_keys_in (slice_get program.now.ops at) }
{
    match program.ops().get(at as usize) {
        Some(op) => op.left_keys,
        None => Keys::new(),
    }
}

// An operator's keys on the right.
fn right_keys_of(program: &Program, at: u32) -> Keys
    ensures { result ≡ right_keys_in (slice_get program.now.ops at) }
{
    match program.ops().get(at as usize) {
        Some(op) => op.right_keys,
        None => Keys::new(),
    }
}

// A side of a Match: the plan there, and the Match's keys.
#[derive(Clone, Copy)]
pub(crate) struct Side {
    pub tree: Plan,
    pub keys: Keys,
}

// The left side of the Match at a tree's root.
fn left_side(program: &Program, tree: &Plan) -> Side
    ensures tree { result.tree ≡ left_input tree.now }
    ensures keys { result.keys ≡ left_keys_in (slice_get program.now.ops (root_of tree.now)) }
{
    let keys = left_keys_of(program, tree.root());
    match tree.parts() {
        Parts::OverTwo { left, .. } => Side { tree: left, keys },
        _ => Side { tree: *tree, keys },
    }
}

// The right side of the Match at a tree's root.
fn right_side(program: &Program, tree: &Plan) -> Side
    ensures tree { result.tree ≡ right_input tree.now }
    ensures keys { result.keys ≡ right_keys_in (slice_get program.now.ops (root_of tree.now)) }
{
    let keys = right_keys_of(program, tree.root());
    match tree.parts() {
        Parts::OverTwo { right, .. } => Side { tree: right, keys },
        _ => Side { tree: *tree, keys },
    }
}

// The side of the Match past which the rule's Reduce moves, of the trees before and after.
pub(crate) fn other_side(program: &Program, rule: Rule, before: &Plan, after: &Plan) -> Side
    ensures tree { result.tree ≡ other_input rule before.now after.now }
    ensures keys { result.keys ≡ other_keys program.now rule before.now after.now }
{
    match rule {
        Rule::ReduceMatchLeft => right_side(program, after),
        Rule::ReduceMatchLeftUp => right_side(program, before),
        Rule::ReduceMatchRight => left_side(program, after),
        Rule::ReduceMatchRightUp => left_side(program, before),
        Rule::MapMap
        | Rule::MapLeft
        | Rule::MapLeftUp
        | Rule::MapRight
        | Rule::MapRightUp
        | Rule::Rotate
        | Rule::RotateUp
        | Rule::MapReduce
        | Rule::MapReduceUp
        | Rule::MapCoGroupLeft
        | Rule::MapCoGroupLeftUp
        | Rule::MapCoGroupRight
        | Rule::MapCoGroupRightUp => Side {
            tree: *before,
            keys: Keys::new(),
        },
    }
}

// The least field of the first list that isn't in the second.
fn first_missing(keys: &Keys, others: &Keys) -> Option<u32>
    ensures some { IfSome result (IsLeastCommon (is_listed keys.now) (λ k. is_listed others.now k ≡ false)) }
    ensures none { IfNone result ((k : ℕ) → Has (is_listed keys.now) k → is_listed others.now k ≡ false → ⊥) }
{
    keys.fields().minus(others.fields()).least()
}

// The conditions of a move past a Match. `near` is its side of the move, `other` its other side, and `unique` says
// whether that is unique.
fn judged_match(
    program: &Program,
    near: &Side,
    reduce: u32,
    other: &Side,
    unique: bool,
    pairing: &Found,
) -> Result<(), NotLegal>
    requires unique { IsTrue unique ↔ IsUniqueTree program.now other.now.keys other.now.tree }
    ensures passes { IfOk result (λ x. AllPass (match_lines program.now near.now.keys (left_keys_in (slice_get program.now.ops reduce)) other.now.keys other.now.tree (uses_of pairing.now))) }
    ensures fails { IfErr result (FirstFails (match_lines program.now near.now.keys (left_keys_in (slice_get program.now.ops reduce)) other.now.keys other.now.tree (uses_of pairing.now))) }
{
    if let Some(field) = first_missing(&near.keys, &left_keys_of(program, reduce)) {
        return Err(NotLegal::MatchKey { field });
    }
    if !unique {
        return Err(NotLegal::NotUnique);
    }
    if pairing.lo == 1 && pairing.hi == 1 {
        Ok(())
    } else {
        Err(NotLegal::KeyGroup)
    }
}

// The conditions of a move past the left side of the Match at a tree's root. `reduce` is the Reduce's number.
fn past_left(
    program: &Program,
    tree: &Plan,
    reduce: u32,
    unique: bool,
    pairing: &Found,
) -> Result<(), NotLegal>
    requires unique { IsTrue unique ↔ IsUniqueTree program.now (right_keys_in (slice_get program.now.ops (root_of tree.now))) (right_input tree.now) }
    ensures passes { IfOk result (λ x. AllPass (match_left_lines program.now tree.now reduce (uses_of pairing.now))) }
    ensures fails { IfErr result (FirstFails (match_left_lines program.now tree.now reduce (uses_of pairing.now))) }
{
    let near = left_side(program, tree);
    let other = right_side(program, tree);
    judged_match(program, &near, reduce, &other, unique, pairing)
}

// The conditions of a move past the right side.
fn past_right(
    program: &Program,
    tree: &Plan,
    reduce: u32,
    unique: bool,
    pairing: &Found,
) -> Result<(), NotLegal>
    requires unique { IsTrue unique ↔ IsUniqueTree program.now (left_keys_in (slice_get program.now.ops (root_of tree.now))) (left_input tree.now) }
    ensures passes { IfOk result (λ x. AllPass (match_right_lines program.now tree.now reduce (uses_of pairing.now))) }
    ensures fails { IfErr result (FirstFails (match_right_lines program.now tree.now reduce (uses_of pairing.now))) }
{
    let near = right_side(program, tree);
    let other = left_side(program, tree);
    judged_match(program, &near, reduce, &other, unique, pairing)
}

// The conditions that only this rule has, over the trees before and after. `unique` says whether the other side is
// unique.
pub(crate) fn past_match(
    program: &Program,
    rule: Rule,
    before: &Plan,
    after: &Plan,
    unique: bool,
    upper: &Found,
    lower: &Found,
) -> Result<(), NotLegal>
    requires rule { IsUniqueRule rule }
    requires unique { IsTrue unique ↔ IsUniqueTree program.now (other_keys program.now rule before.now after.now) (other_input rule before.now after.now) }
    ensures passes { IfOk result (λ x. AllPass (own_lines program.now rule before.now after.now (uses_of upper.now) (uses_of lower.now))) }
    ensures fails { IfErr result (FirstFails (own_lines program.now rule before.now after.now (uses_of upper.now) (uses_of lower.now))) }
{
    match rule {
        Rule::ReduceMatchLeft => past_left(program, after, before.root(), unique, lower),
        Rule::ReduceMatchLeftUp => past_left(program, before, after.root(), unique, upper),
        Rule::ReduceMatchRight => past_right(program, after, before.root(), unique, lower),
        Rule::ReduceMatchRightUp => past_right(program, before, after.root(), unique, upper),
        Rule::MapMap
        | Rule::MapLeft
        | Rule::MapLeftUp
        | Rule::MapRight
        | Rule::MapRightUp
        | Rule::Rotate
        | Rule::RotateUp
        | Rule::MapReduce
        | Rule::MapReduceUp
        | Rule::MapCoGroupLeft
        | Rule::MapCoGroupLeftUp
        | Rule::MapCoGroupRight
        | Rule::MapCoGroupRightUp => Ok(()),
    }
}
