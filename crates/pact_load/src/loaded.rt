//! A program and the rows of its sources.

ghost use Rattle.std.specs.Prelude.{◌≡◌, ◌++◌, ◌∷◌, [], OnOk};
ghost use Rattle.pact_operators.specs.PlanOps.{is_source_kind};

use pact_bag::{Inputs, Rows};
use pact_operators::{OpKind, Program};
use pact_record::OutOfMemory;

/// A program and the rows of its sources, as the files have them.
#[derive(Drop)]
pub struct Loaded {
    pub program: Program,
    pub inputs: Inputs,
}

/// Appends the rows of one more source. The clause speaks only of success: only lack of memory makes a push fail.
pub fn push_rows(inputs: &mut Inputs, rows: Rows) -> Result<(), OutOfMemory>
    ensures { OnOk result (inputs.new ≡ inputs.old ++ rows ∷ []) }
{
    inputs.push(rows)?;
    Ok(())
}

/// Whether an operator of this kind is a source, which has rows of its own.
pub fn is_source(kind: OpKind) -> bool
    ensures { result ≡ is_source_kind kind }
{
    matches!(kind, OpKind::Source)
}
