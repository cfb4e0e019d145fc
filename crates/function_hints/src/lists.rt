//! What in a program is legal but seldom meant, and lists of it.

ghost use Rattle.std.specs.Prelude.{◌≡◌, ◌<◌, ◌++◌, ◌∷◌, [], length, slice_get, OnOk, OnErr, IfErr};

use std::alloc::{AllocFailed, Global};
use std::marker::Model;

/// A register of a function, by its number.
#[derive(Clone, Copy, Debug, PartialEq, Eq)]
pub enum Register {
    Value(u32),
    Record(u32),
}

/// Something in a program that is legal but seldom meant. Operators, sources and functions are given by their numbers
/// in the program. Statements are numbered in text order from 0: the first line of a block counts, `else` and `end`
/// don't.
#[derive(Clone, Copy, Debug, PartialEq, Eq)]
pub enum Hint {
    /// The operator's function reads a field that is Null in all records of its inputs, first in that statement. With no
    /// statement, the field is one of the operator's keys.
    NeverSet {
        op: u32,
        statement: Option<u32>,
        field: u32,
    },
    /// The operator's function reads a field that is Null in all records of the input that it reads from, though the
    /// other input has it. With no statement, the field is one of the operator's keys.
    OtherSide {
        op: u32,
        statement: Option<u32>,
        field: u32,
    },
    /// The sink keeps a field that is Null in all records.
    SinkNeverSet {
        field: u32,
    },
    /// The sink keeps a field that a source or operator below sets, but that no record at the sink has, since a function
    /// in between leaves it out.
    SinkDropped {
        field: u32,
    },
    /// The source has a column that nobody reads and that the sink doesn't keep.
    ColumnUnread {
        op: u32,
        field: u32,
    },
    /// The statement reads a register, and no assignment can come before it. Or it is a `min`, and reads a value register
    /// that is always Null.
    ReadBeforeSet {
        function: u32,
        statement: u32,
        register: Register,
    },
    /// The function assigns a register, first in that statement, and reads it nowhere.
    NeverRead {
        function: u32,
        statement: u32,
        register: Register,
    },
    /// No operator calls the function.
    UnusedFunction {
        function: u32,
    },
    /// The first statement after which the function can't emit anything.
    NothingEmitted {
        function: u32,
        statement: u32,
    },
    /// Arithmetic on a text, of that field of the input if it is one.
    TextArithmetic {
        op: u32,
        statement: u32,
        field: Option<u32>,
    },
    /// `eq`, `lt` or `le` of a text and a number, one of them of that field of the input.
    TextWithNumber {
        op: u32,
        statement: u32,
        field: Option<u32>,
    },
    /// `cat` or `len` of a number, of that field of the input if it is one.
    CatOfNumber {
        op: u32,
        statement: u32,
        field: Option<u32>,
    },
    /// The operator's function fails the order test. If one statement makes it fail, this is that statement.
    OrderDependent {
        op: u32,
        statement: Option<u32>,
    },
    /// The left input of a Match has many rows, and more than the right one.
    LargerLeft {
        op: u32,
    },
    /// A Cross makes very many pairs.
    LargeCross {
        op: u32,
    },
    /// A loop over a group inside another one, over an input with many rows. The statement is the inner loop.
    SquareLoop {
        function: u32,
        statement: u32,
    },
}

/// Hints, in the order in which they were found.
#[derive(Debug, Drop)]
pub struct HintList {
    held: Vec<Hint>,
}

impl Model for HintList {
    ghost use Rattle.std.specs.Prelude.{List};
    ghost use Rattle.function_hints.specs.declared.lists.Hint.{Hint};

    ghost Value = { List Hint };

    ghost view = { λ l. l.held.items };
}

impl HintList {
    pub fn new(alloc: Global) -> HintList
        ensures { result ≡ [] }
    {
        HintList {
            held: Vec::new(alloc),
        }
    }

    pub fn push(&mut self, hint: Hint) -> Result<(), AllocFailed<Hint>>
        ensures ok { OnOk result (self.new ≡ self.old ++ hint ∷ []) }
        ensures err { OnErr result (self.new ≡ self.old) }
        ensures handed_back { IfErr result (λ e. e.value ≡ hint) }
    {
        self.held.push(hint)
    }

    pub fn len(&self) -> usize
        ensures { result ≡ length self.now }
    {
        self.held.len()
    }

    pub fn at(&self, n: usize) -> Hint
        requires { n < length self.now }
        ensures { slice_get self.now n ≡ Some result }
    {
        self.held[n]
    }

    pub fn items(&self) -> &[Hint]
        ensures { result.now ≡ self.now }
    {
        &self.held
    }
}
