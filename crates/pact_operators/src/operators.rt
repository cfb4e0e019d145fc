//! The sources and operators of a program.

ghost use Rattle.std.specs.Prelude.{◌≡◌, decimal, IfOk};
ghost use Rattle.pact_operators.specs.Insertions.{inserted_op};

use itoa::Buffer;
use pact_record::{Columns, Keys, OutOfMemory, Word};
use std::alloc::Global;
use tac_syntax::OpKind;

/// A source or an operator. A source has no function and no keys; an operator has no file and no columns. A part that
/// the kind doesn't have is empty or 0.
#[derive(Debug, Drop)]
pub struct Op {
    pub name: Word,
    pub kind: OpKind,
    /// The function's number among the program's functions.
    pub function: u32,
    pub left_keys: Keys,
    pub right_keys: Keys,
    pub file: Word,
    pub columns: Columns,
}

impl Op {
    /// A Map or a Reduce to insert into a program. Its name is its number, which no program text can declare, and it calls
    /// function 0. The only error is out of memory.
    pub fn inserted(alloc: Global, number: u32, kind: OpKind, keys: Keys) -> Result<Op, OutOfMemory>
        ensures { IfOk result (λ op. op ≡ inserted_op number 0 kind keys) }
    {
        let name = number_name(alloc, number)?;
        let file = Word::from_bytes(alloc, b"")?;
        Ok(Op {
            name,
            kind,
            function: 0,
            left_keys: keys,
            right_keys: Keys::new(),
            file,
            columns: Columns::new(alloc),
        })
    }

    /// A copy of the operator. Out of memory is the only error.
    pub fn copy(&self, alloc: Global) -> Result<Op, OutOfMemory>
        ensures { IfOk result (λ op. op ≡ self.now) }
    {
        Ok(Op {
            name: Word::from_bytes(alloc, self.name.bytes())?,
            kind: self.kind,
            function: self.function,
            left_keys: self.left_keys,
            right_keys: self.right_keys,
            file: Word::from_bytes(alloc, self.file.bytes())?,
            columns: copied_columns(alloc, &self.columns)?,
        })
    }
}

/// A number as a name that no program text can declare. The only error is out of memory.
pub fn number_name(alloc: Global, number: u32) -> Result<Word, OutOfMemory>
    ensures { IfOk result (λ w. w ≡ decimal number) }
{
    let mut buffer = Buffer::new();
    Word::from_bytes(alloc, buffer.format(number).as_bytes())
}

/// A copy of the columns. Out of memory is the only error.
pub fn copied_columns(alloc: Global, columns: &Columns) -> Result<Columns, OutOfMemory>
    ensures { IfOk result (λ copy. copy ≡ columns.now) }
{
    let mut copy = Columns::new(alloc);
    for column in columns.columns() {
        copy.push(*column)?;
    }
    Ok(copy)
}
