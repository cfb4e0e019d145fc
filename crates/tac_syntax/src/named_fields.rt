//! The fields that statements set.

ghost use Rattle.std.specs.Prelude.{◌↔◌, ◌≤◌, ℕ, IsTrue};
ghost use Rattle.pact_record.specs.FieldSets.{has_field};
ghost use Rattle.pact_record.specs.declared.records.TheConstants.{MAX_FIELDS};
ghost use Rattle.tac_syntax.specs.Bounded.{Names, NamesBelow};
ghost use Rattle.tac_syntax.specs.Trees.{only};

use crate::statements::{Body, Stmt};
use pact_record::Fields;

// The fields that the statement sets, or those inside it. If one of them takes its field from a register, these are all
// `fields` fields of the program.
#[cycle(named)]
fn named_by(stmt: &Stmt, fields: u32) -> Fields
    requires fields { fields ≤ MAX_FIELDS }
    requires below { NamesBelow fields (only stmt.now) }
    ensures { (k : ℕ) → IsTrue (has_field result k) ↔ Names fields k (only stmt.now) }
{
    match stmt {
        Stmt::Set { field, .. } => Fields::empty().with(*field),
        Stmt::SetAt { .. } => Fields::all(fields),
        Stmt::If { body, other, .. } => named_in(body, fields).union(named_in(other, fields)),
        Stmt::Repeat { body, .. } | Stmt::Each { body, .. } => named_in(body, fields),
        _ => Fields::empty(),
    }
}

/// The fields that some statement of the body sets.
#[cycle(named)]
pub(crate) fn named_in(body: &Body, fields: u32) -> Fields
    requires fields { fields ≤ MAX_FIELDS }
    requires below { NamesBelow fields body.now }
    ensures { (k : ℕ) → IsTrue (has_field result k) ↔ Names fields k body.now }
{
    let mut found = Fields::empty();
    for stmt in body.stmts() {
        found = found.union(named_by(stmt, fields));
    }
    found
}
