//! What makes the lines of an answer.

ghost use Rattle.std.specs.Prelude.{◌≤◌, ◌<◌, length, IfOk};
ghost use Rattle.std.specs.List.{AllByRecursion};
ghost use Rattle.bag_lines.specs.Lines.{AreLines};
ghost use Rattle.pact_record.specs.declared.records.TheConstants.{MAX_FIELDS};
ghost use Rattle.pact_top.specs.Formatters.{IsFormatter};

use bag_lines::sorted_lines;
use pact_bag::Rows;
use pact_record::{Bytes, OutOfMemory};
use std::alloc::Global;

/// What makes the lines of a bag, on the calling thread or on several.
pub trait Formatter {
    /// What must hold of it before. If it calls a function: that this can be called, and makes the lines.
    ghost ready: { Self → Type 0 };

    /// The lines of a bag: its records cut to the given fields, sorted, as CSV text.
    fn lines(&self, bag: Rows, fields: &[u32]) -> Result<Bytes, OutOfMemory>
        requires ready { ready self.now }
        requires few { length fields.now ≤ MAX_FIELDS }
        requires within { AllByRecursion (λ row. AllByRecursion (λ field. field < length row) fields.now) bag }
        ensures { IfOk result (λ text. AreLines fields.now bag text) };
}

/// Makes them on the calling thread.
#[derive(Drop)]
pub struct FormatAlone {
    pub alloc: Global,
}

impl Formatter for FormatAlone {
    ghost ready = { λ f. Unit {0} };

    fn lines(&self, bag: Rows, fields: &[u32]) -> Result<Bytes, OutOfMemory> {
        sorted_lines(self.alloc, bag, fields)
    }
}

/// Makes them by a call. What makes them on threads is called: the bounds of an `impl` count for the calling thread
/// alone.
#[derive(Drop)]
pub struct CalledFormats<C: Fn(Rows, &[u32]) -> Result<Bytes, OutOfMemory>> {
    pub call: C,
}

impl<C: Fn(Rows, &[u32]) -> Result<Bytes, OutOfMemory>> Formatter for CalledFormats<C> {
    ghost ready = { λ f. IsFormatter (C.pre f.call) (C.post f.call) };

    fn lines(&self, bag: Rows, fields: &[u32]) -> Result<Bytes, OutOfMemory> {
        (self.call)(bag, fields)
    }
}
