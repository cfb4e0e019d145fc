//! What programs declare.

ghost use Rattle.std.specs.Prelude.{◌≡◌};
ghost use Rattle.tac_syntax.specs.Declarations.{kind_word};

use crate::numbers::Numbers;
use pact_record::{Columns, Word};

/// What a source or an operator does.
#[derive(Clone, Copy, Debug, PartialEq, Eq)]
pub enum OpKind {
    Source,
    Map,
    Reduce,
    Match,
    Cross,
    CoGroup,
}

impl OpKind {
    /// The word that names the kind in texts.
    pub fn word(self) -> &'static [u8]
        ensures { result.now ≡ kind_word self }
    {
        match self {
            OpKind::Source => b"source",
            OpKind::Map => b"map",
            OpKind::Reduce => b"reduce",
            OpKind::Match => b"match",
            OpKind::Cross => b"cross",
            OpKind::CoGroup => b"cogroup",
        }
    }
}

/// One declaration of a program. It refers to others by name, and they needn't exist.
#[derive(Debug, Drop)]
pub enum Decl {
    Source {
        name: Word,
        file: Word,
        columns: Columns,
    },
    /// The function with this number among the program's functions.
    Function {
        number: usize,
    },
    /// An operator. What its kind doesn't have is empty: its second input, its lists of keys.
    Op {
        name: Word,
        kind: OpKind,
        function: Word,
        left: Word,
        right: Word,
        left_keys: Numbers,
        right_keys: Numbers,
    },
    Sink {
        input: Word,
        fields: Numbers,
    },
}
