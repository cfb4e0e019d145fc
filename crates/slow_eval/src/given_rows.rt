//! Rows that an evaluation goes on with.

ghost use Rattle.std.specs.Prelude.{◌≡◌, IfOk};
ghost use Rattle.slow_eval.specs.GivenRows.{rows_of};

use pact_bag::Rows;
use pact_record::OutOfMemory;
use std::alloc::Global;

/// The rows of a source, which aren't copied, or those that an operator emitted.
#[derive(Drop)]
pub(crate) enum GivenRows<'a> {
    Lent(&'a Rows),
    Own(Rows),
}

impl<'a> GivenRows<'a> {
    pub(crate) fn rows(&self) -> &Rows
        ensures { result.now ≡ rows_of self.now }
    {
        match self {
            GivenRows::Lent(rows) => rows,
            GivenRows::Own(rows) => rows,
        }
    }

    pub(crate) fn into_rows(self, alloc: Global) -> Result<Rows, OutOfMemory>
        ensures { IfOk result (λ rows. rows ≡ rows_of self.entry) }
    {
        match self {
            GivenRows::Lent(rows) => rows.copy(alloc),
            GivenRows::Own(rows) => Ok(rows),
        }
    }
}
