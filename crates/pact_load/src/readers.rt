//! What makes the rows of a source.

ghost use Rattle.pact_load.specs.Readers.{CanRead, IsRead, IsReader};

use csv_source::{BadRow, read_source};
use pact_bag::Rows;
use pact_record::Columns;
use std::alloc::Global;

/// What makes the rows of a source, on the calling thread or on several.
pub trait SourceReader {
    /// What must hold of it before it reads. If it calls a function: that this can be called, and makes the rows.
    ghost ready: { Self → Type 0 };

    /// The rows of a source's bytes, or the first bad row. They have `fields` fields.
    fn read(&self, bytes: &[u8], columns: &Columns, fields: u32) -> Result<Rows, BadRow>
        requires ready { ready self.now }
        requires can { CanRead fields columns.now }
        ensures { IsRead fields columns.now bytes.now result };
}

/// Reads on the calling thread.
#[derive(Drop)]
pub struct ReadAlone {
    pub alloc: Global,
}

impl SourceReader for ReadAlone {
    ghost ready = { λ r. Unit {0} };

    fn read(&self, bytes: &[u8], columns: &Columns, fields: u32) -> Result<Rows, BadRow> {
        read_source(self.alloc, bytes, columns, fields)
    }
}

/// Reads by a call. What reads on threads is called: the bounds of an `impl` count for the calling thread alone.
#[derive(Drop)]
pub struct CalledReads<C: Fn(&[u8], &Columns, u32) -> Result<Rows, BadRow>> {
    pub call: C,
}

impl<C: Fn(&[u8], &Columns, u32) -> Result<Rows, BadRow>> SourceReader for CalledReads<C> {
    ghost ready = { λ r. IsReader (C.pre r.call) (C.post r.call) };

    fn read(&self, bytes: &[u8], columns: &Columns, fields: u32) -> Result<Rows, BadRow> {
        (self.call)(bytes, columns, fields)
    }
}
