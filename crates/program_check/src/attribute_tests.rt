//! Whether a declaration breaks a rule about the attributes of what operators read.

ghost use Rattle.std.specs.Prelude.{◌≡◌, ◌↔◌, not, true, IsTrue};
ghost use Rattle.std.specs.List.{list_any};
ghost use Rattle.pact_record.specs.FieldSets.{has_field};
ghost use Rattle.program_check.specs.AttributeTests.{AreAttributesKnown, BreaksIn, HasPlace};
ghost use Rattle.plan_trees.specs.Plans.{has, subtree_of};
ghost use Rattle.program_check.specs.ProgramRules.{LacksAttribute, SharesAttribute, SidesLackKey, SidesShare};
ghost use Rattle.pact_operators.specs.Resolved.{function_names, node_names, ops_of, place_among};

use crate::candidates::Candidate;
use crate::name_lists::place_among;
use crate::program_rules::ProgramRule;
use pact_operators::{Op, attributes_of};
use pact_record::{Fields, MAX_FIELDS, Word};
use plan_trees::{Parts, Plan};
use tac_syntax::Decl;

fn has_field(fields: Fields, field: u32) -> bool
    ensures { result ≡ has_field fields field }
{
    // `has` makes it known that no set has a field from `MAX_FIELDS` on.
    let _others = fields.has(0);
    field < MAX_FIELDS && fields.has(field)
}

// Whether one of the keys isn't in the set.
fn is_some_absent(fields: Fields, keys: &[u32]) -> bool
    ensures { result ≡ list_any (λ k. not (has_field fields k)) keys.now }
{
    for key in keys {
        if !has_field(fields, *key) {
            return true;
        }
    }
    false
}

// The subtree of the plan whose root is the operator with this name.
fn subtree_named(candidate: &Candidate, plan: &Plan, name: &Word) -> Plan
    requires { has (place_among name.now (node_names candidate.now.draft.decls)) plan.now ≡ true }
    ensures { result ≡ subtree_of (place_among name.now (node_names candidate.now.draft.decls)) plan.now }
{
    // `root` makes it known that the plan's numbers are below the limit.
    let _root = plan.root();
    plan.subtree(place_among(name.bytes(), candidate.nodes()) as u32)
}

fn do_sides_lack_key(
    candidate: &Candidate,
    ops: &[Op],
    plan: &Plan,
    left_keys: &[u32],
    right_keys: &[u32],
) -> bool
    requires { AreAttributesKnown candidate.now ops.now }
    ensures { IsTrue result ↔ SidesLackKey candidate.now.draft candidate.now.valids plan.now left_keys.now right_keys.now }
{
    let valids = candidate.valids();
    match plan.parts() {
        Parts::Alone { .. } => false,
        Parts::OverOne { input, .. } => is_some_absent(
            attributes_of(valids, ops, &input),
            left_keys,
        ),
        Parts::OverTwo { left, right, .. } => {
            is_some_absent(attributes_of(valids, ops, &left), left_keys)
                || is_some_absent(attributes_of(valids, ops, &right), right_keys)
        }
    }
}

fn do_sides_share(candidate: &Candidate, ops: &[Op], plan: &Plan) -> bool
    requires { AreAttributesKnown candidate.now ops.now }
    ensures { IsTrue result ↔ SidesShare candidate.now.valids (ops_of (function_names candidate.now.draft.functions) candidate.now.draft.decls) plan.now }
{
    let valids = candidate.valids();
    match plan.parts() {
        Parts::Alone { .. } | Parts::OverOne { .. } => false,
        Parts::OverTwo { left, right, .. } => {
            let left = attributes_of(valids, ops, &left);
            let right = attributes_of(valids, ops, &right);
            left.meet(right).least().is_some()
        }
    }
}

// Whether a key of the declaration isn't among its side's attributes.
fn lacks_attribute(candidate: &Candidate, ops: &[Op], plan: &Plan, decl: &Decl) -> bool
    requires known { AreAttributesKnown candidate.now ops.now }
    requires place { HasPlace candidate.now.draft plan.now decl.now }
    ensures { IsTrue result ↔ LacksAttribute candidate.now.draft candidate.now.valids plan.now decl.now }
{
    match decl {
        Decl::Op {
            name,
            left_keys,
            right_keys,
            ..
        } => {
            let below = subtree_named(candidate, plan, name);
            do_sides_lack_key(
                candidate,
                ops,
                &below,
                left_keys.numbers(),
                right_keys.numbers(),
            )
        }
        _ => false,
    }
}

// Whether the two sides of the declaration share an attribute.
fn shares_attribute(candidate: &Candidate, ops: &[Op], plan: &Plan, decl: &Decl) -> bool
    requires known { AreAttributesKnown candidate.now ops.now }
    requires place { HasPlace candidate.now.draft plan.now decl.now }
    ensures { IsTrue result ↔ SharesAttribute candidate.now.draft candidate.now.valids plan.now decl.now }
{
    match decl {
        Decl::Op { name, .. } => {
            do_sides_share(candidate, ops, &subtree_named(candidate, plan, name))
        }
        _ => false,
    }
}

/// Whether a declaration breaks the rule in the plan. False for a rule that isn't about attributes.
pub fn breaks_attributes(
    rule: ProgramRule,
    candidate: &Candidate,
    ops: &[Op],
    plan: &Plan,
    decl: &Decl,
) -> bool
    requires known { AreAttributesKnown candidate.now ops.now }
    requires place { HasPlace candidate.now.draft plan.now decl.now }
    ensures { IsTrue result ↔ BreaksIn rule candidate.now plan.now decl.now }
{
    match rule {
        ProgramRule::NoAttribute => lacks_attribute(candidate, ops, plan, decl),
        ProgramRule::SharedAttribute => shares_attribute(candidate, ops, plan, decl),
        _ => false,
    }
}
