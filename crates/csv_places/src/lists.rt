//! What in a file is legal but seldom meant, and lists of it.

ghost use Rattle.std.specs.Prelude.{◌≡◌, ◌<◌, ◌++◌, ◌∷◌, [], length, slice_get, OnOk, OnErr, IfErr};

use crate::numbers::NumberFault;
use pact_record::OutOfMemory;
use std::alloc::{AllocFailed, Global};
use std::marker::Model;

/// Something in a file that is legal but seldom meant. Rows, columns and lines are numbered from 1, and the numbers are
/// those of the first such place.
#[derive(Clone, Copy, Debug, PartialEq, Eq)]
pub enum FileHint {
    /// Quoted fields go over more than one line. The first begins on `line` and goes over `lines` lines; there are
    /// `count` of them.
    LongField {
        row: u64,
        column: u32,
        line: u64,
        lines: u64,
        count: u64,
    },
    /// The last field's quote isn't closed, so it goes on to the end of the file.
    NeverClosed {
        row: u64,
        column: u32,
        line: u64,
    },
    /// The first row looks like the names of the columns.
    HeaderLike {
        line: u64,
    },
    /// Values of a column of numbers that aren't numbers: `count` of them have this fault.
    NotNumbers {
        column: u32,
        fault: NumberFault,
        row: u64,
        line: u64,
        count: u64,
    },
}

/// Hints of a file, in their order.
#[derive(Debug, Drop)]
pub struct FileHintList {
    held: Vec<FileHint>,
}

impl Model for FileHintList {
    ghost use Rattle.std.specs.Prelude.{List};
    ghost use Rattle.csv_places.specs.declared.lists.FileHint.{FileHint};

    ghost Value = { List FileHint };

    ghost view = { λ l. l.held.items };
}

impl FileHintList {
    pub fn new(alloc: Global) -> FileHintList
        ensures { result ≡ [] }
    {
        FileHintList {
            held: Vec::new(alloc),
        }
    }

    pub fn push(&mut self, hint: FileHint) -> Result<(), AllocFailed<FileHint>>
        ensures ok { OnOk result (self.new ≡ self.old ++ hint ∷ []) }
        ensures err { OnErr result (self.new ≡ self.old) }
        ensures handed_back { IfErr result (λ e. e.value ≡ hint) }
    {
        self.held.push(hint)
    }

    /// Adds a hint, or counts one more place if the list has the hint already.
    pub(crate) fn note(&mut self, hint: FileHint) -> Result<(), OutOfMemory> {
        for n in 0..self.held.len() {
            if let Some(counted) = counted_with(&self.held[n], &hint) {
                self.held[n] = counted;
                return Ok(());
            }
        }
        self.held.push(hint)?;
        Ok(())
    }

    pub fn len(&self) -> usize
        ensures { result ≡ length self.now }
    {
        self.held.len()
    }

    pub fn at(&self, n: usize) -> FileHint
        requires { n < length self.now }
        ensures { slice_get self.now n ≡ Some result }
    {
        self.held[n]
    }

    pub fn items(&self) -> &[FileHint]
        ensures { result.now ≡ self.now }
    {
        &self.held
    }
}

// The first hint with one more place, if both are of one kind.
fn counted_with(first: &FileHint, second: &FileHint) -> Option<FileHint> {
    match (first, second) {
        (
            FileHint::LongField {
                row,
                column,
                line,
                lines,
                count,
            },
            FileHint::LongField { .. },
        ) => Some(FileHint::LongField {
            row: *row,
            column: *column,
            line: *line,
            lines: *lines,
            count: count.saturating_add(1),
        }),
        (
            FileHint::NotNumbers {
                column,
                fault,
                row,
                line,
                count,
            },
            FileHint::NotNumbers {
                column: other_column,
                fault: other_fault,
                ..
            },
        ) if *column == *other_column && *fault == *other_fault => Some(FileHint::NotNumbers {
            column: *column,
            fault: *fault,
            row: *row,
            line: *line,
            count: count.saturating_add(1),
        }),
        _ => None,
    }
}
