//! User functions.

ghost use Rattle.std.specs.Prelude.{◌≡◌, IfOk};

use crate::statements::Body;
use pact_record::{OutOfMemory, Word};
use std::alloc::Global;

/// Which operator a function is for.
#[derive(Clone, Copy, Debug, PartialEq, Eq)]
pub enum Kind {
    Map,
    Match,
    Cross,
    Reduce,
    CoGroup,
}

/// A user function. `keys` is the number of key fields of a Reduce or CoGroup, and 0 for the
/// other kinds.
#[derive(Debug, Drop)]
pub struct Function {
    pub name: Word,
    pub kind: Kind,
    pub keys: u32,
    pub body: Body,
}

impl Function {
    pub fn copy(&self, alloc: Global) -> Result<Function, OutOfMemory>
        ensures { IfOk result (λ f. f ≡ self.now) }
    {
        Ok(Function {
            name: Word::from_bytes(alloc, self.name.bytes())?,
            kind: self.kind,
            keys: self.keys,
            body: self.body.copy(alloc)?,
        })
    }
}
