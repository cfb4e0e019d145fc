//! The fields that statements set, and the fields that can carry partial values.

ghost use Rattle.std.specs.Prelude.{◌≡◌, ◌↔◌, ◌<◌, ◌&&◌, not, ℕ, true, IsTrue, length};
ghost use Rattle.std.specs.List.{AllByRecursion};
ghost use Rattle.pact_record.specs.FieldSets.{has_field};
ghost use Rattle.tac_syntax.specs.Trees.{only, code_of};
ghost use Rattle.combine_rule.specs.Slots.{is_among, spare_fields};
ghost use Rattle.combine_rule.specs.Tests.{has_all, sets_inside};

use pact_record::{Fields, Keys, MAX_FIELDS};
use tac_syntax::Stmt;

/// Whether a set has a field. The field may be any number.
fn is_inside(field: u32, set: Fields) -> bool
    ensures { result ≡ has_field set field }
{
    // this call shows the prover that no set has a field of `MAX_FIELDS` or more
    let _others = set.has(0);
    field < MAX_FIELDS && set.has(field)
}

// Whether a set has each field below a number.
fn has_all(fields: u32, set: Fields) -> bool
    ensures { result ≡ has_all fields (has_field set) }
{
    for k in 0..fields {
        if !is_inside(k, set) {
            return false;
        }
    }
    true
}

// Whether a statement and those in its blocks set only fields of the set. A statement that takes its field from a
// register may set any of the program's `fields` fields.
#[cycle(inside)]
fn sets_inside(stmt: &Stmt, fields: u32, set: Fields) -> bool
    ensures { result ≡ sets_inside fields (has_field set) (only stmt.now) }
{
    match stmt {
        Stmt::Set { field, .. } => is_inside(*field, set),
        Stmt::SetAt { .. } => has_all(fields, set),
        Stmt::If { body, other, .. } => {
            all_inside(body.stmts(), fields, set) && all_inside(other.stmts(), fields, set)
        }
        Stmt::Repeat { body, .. } | Stmt::Each { body, .. } => {
            all_inside(body.stmts(), fields, set)
        }
        _ => true,
    }
}

/// Whether statements set only fields of the set, at any depth.
#[cycle(inside)]
pub(crate) fn all_inside(stmts: &[Stmt], fields: u32, set: Fields) -> bool
    ensures { result ≡ sets_inside fields (has_field set) (code_of stmts.now) }
{
    for stmt in stmts {
        if !sets_inside(stmt, fields, set) {
            return false;
        }
    }
    true
}

/// Whether the keys are fields of the set.
pub(crate) fn are_inside(keys: &Keys, set: Fields) -> bool
    ensures { IsTrue result ↔ AllByRecursion (λ k. has_field set k ≡ true) keys.now }
{
    for n in 0..keys.len() {
        if !set.has(keys.at(n)) {
            return false;
        }
    }
    true
}

/// Whether the keys are below a number of fields.
pub(crate) fn are_below(keys: &Keys, fields: u32) -> bool
    ensures { IsTrue result ↔ AllByRecursion (λ k. k < fields) keys.now }
{
    for n in 0..keys.len() {
        if keys.at(n) >= fields {
            return false;
        }
    }
    true
}

/// Whether a field is one of the keys.
fn is_among(field: u32, keys: &Keys) -> bool
    ensures { result ≡ is_among keys.now field }
{
    for n in 0..keys.len() {
        if keys.at(n) == field {
            return true;
        }
    }
    false
}

/// Whether a field can carry a partial value.
pub(crate) fn is_spare(field: u32, keys: &Keys, set: Fields) -> bool
    ensures { result ≡ (has_field set field && not (is_among keys.now field)) }
{
    is_inside(field, set) && !is_among(field, keys)
}

/// The number of fields that can carry a partial value.
pub(crate) fn count_spare(fields: u32, keys: &Keys, set: Fields) -> u32
    ensures { result ≡ length (spare_fields fields keys.now (has_field set)) }
{
    let mut n = 0;
    for k in 0..fields {
        if is_spare(k, keys, set) {
            n += 1;
        }
    }
    n
}
