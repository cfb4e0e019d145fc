//! Whether no bag of a plan has two records with the same key values, as far as sets and bounds show.

ghost use Rattle.std.specs.Prelude.{◌↔◌, ◌≤◌, IfOk, IsTrue};
ghost use Rattle.pact_record.specs.FieldSets.{has_field};
ghost use Rattle.plan_trees.specs.Plans.{subtree_of};
ghost use Rattle.reorder_pair.specs.FindingTable.{AreFindings};
ghost use Rattle.reorder_pair.specs.Unique.{AreAmong, AreNoneOf, IsUnique, IsUniqueTree};
ghost use Rattle.reorder_group.specs.UniqueRows.{AllowsEachOnce};

use crate::match_conditions::left_keys_of;
use pact_operators::{Parts, Plan, Program};
use pact_record::{Keys, OutOfMemory};
use reorder_pair::{Findings, Found, found_in_plan, kind_of, least_common};
use tac_syntax::OpKind;

// Whether none of the fields is written.
fn writes_none(found: &Found, keys: &Keys) -> bool
    ensures { IsTrue result ↔ AreNoneOf keys.now (has_field found.now.sets.writes) }
{
    least_common(keys.fields(), found.sets.writes).is_none()
}

// Whether each field of the first list is in the second.
fn are_among(keys: &Keys, others: &Keys) -> bool
    ensures { IsTrue result ↔ AreAmong keys.now others.now }
{
    keys.fields().is_subset(others.fields())
}

// Whether a Reduce with these keys of its own emits at most one record for each group, with the group's own key, and
// its keys are among the key fields.
fn groups_once(found: &Found, own: &Keys, keys: &Keys) -> bool
    ensures { IsTrue result ↔ ((found.now.hi ≤ 1) × AreAmong own.now keys.now × AreNoneOf own.now (has_field found.now.sets.writes)) }
{
    found.hi <= 1 && are_among(own, keys) && writes_none(found, own)
}

// Whether a Map emits at most one record for each, with the same key values.
fn keeps_keys(found: &Found, keys: &Keys) -> bool
    ensures { IsTrue result ↔ ((found.now.hi ≤ 1) × AreNoneOf keys.now (has_field found.now.sets.writes)) }
{
    found.hi <= 1 && writes_none(found, keys)
}

// Whether a whole plan is unique for the keys.
pub(crate) fn tree_is_unique(program: &Program, tree: &Plan, keys: &Keys) -> bool
    ensures { IsTrue result ↔ IsUniqueTree program.now keys.now tree.now }
{
    match tree.parts() {
        Parts::OverOne { at, input } => match kind_of(program, at) {
            OpKind::Reduce => {
                let found = found_in_plan(program, tree, at);
                groups_once(&found, &left_keys_of(program, at), keys)
            }
            OpKind::Map => {
                let found = found_in_plan(program, tree, at);
                keeps_keys(&found, keys) && tree_is_unique(program, &input, keys)
            }
            _ => false,
        },
        _ => false,
    }
}

// `tree_is_unique` by a table of findings: each operator is analysed only if the table has no row for its context.
pub(crate) fn tree_is_unique_by(
    program: &Program,
    findings: &mut Findings,
    tree: &Plan,
    keys: &Keys,
) -> Result<bool, OutOfMemory>
    requires findings { AreFindings program.now findings.old }
    ensures unique { IfOk result (λ told. IsTrue told ↔ IsUniqueTree program.now keys.now tree.now) }
    ensures findings { AreFindings program.now findings.new }
{
    match tree.parts() {
        Parts::OverOne { at, input } => match kind_of(program, at) {
            OpKind::Reduce => {
                let found = findings.found_in_plan(program, tree, at)?;
                Ok(groups_once(&found, &left_keys_of(program, at), keys))
            }
            OpKind::Map => {
                let found = findings.found_in_plan(program, tree, at)?;
                if keeps_keys(&found, keys) {
                    tree_is_unique_by(program, findings, &input, keys)
                } else {
                    Ok(false)
                }
            }
            _ => Ok(false),
        },
        _ => Ok(false),
    }
}

/// Whether the output of the operator at the place has each value of these key fields at most once, as far as the sets
/// and bounds of the operators there show. It is so for a Reduce whose keys are among these fields, which emits at most
/// one record for each group and writes none of its own keys. It is so for a Map that emits at most one record for each
/// and writes none of these fields, over an input for which the same holds.
pub fn unique(program: &Program, plan: &Plan, at: u32, keys: &Keys) -> bool
    ensures unique { IsTrue result ↔ IsUnique program.now plan.now at keys.now }
    ensures once { IsTrue result → AllowsEachOnce program.now (subtree_of at plan.now) keys.now }
{
    // `fields` makes it known that the program follows every rule.
    let _fields = program.fields();
    plan.has(at) && tree_is_unique(program, &plan.subtree(at), keys)
}
