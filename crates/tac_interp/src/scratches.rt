//! Memory that calls use one after the other.

ghost use Rattle.std.specs.Prelude.{◌≡◌, []};

use crate::registers::Held;
use pact_bag::Rows;
use pact_record::Value;
use std::alloc::Global;
use std::marker::Model;
use std::mem;

/// The lists that one call needs.
#[derive(Drop)]
pub(crate) struct Parts {
    pub(crate) values: Vec<Value>,
    pub(crate) records: Vec<Held>,
    pub(crate) emitted: Rows,
}

impl Parts {
    pub(crate) fn new(alloc: Global) -> Parts
        ensures { result.emitted ≡ [] }
    {
        Parts {
            values: Vec::new(alloc),
            records: Vec::new(alloc),
            emitted: Rows::new(alloc),
        }
    }
}

/// Memory that one call hands to the next, so that each call needn't allocate its registers anew. It can be used
/// again after an error.
#[derive(Drop)]
pub struct Scratch {
    parts: Parts,
}

impl Model for Scratch {
    ghost use Rattle.std.specs.Prelude.{◌≡◌, []};

    ghost Value = { Unit {0} };

    ghost view = { λ s. tt };

    ghost invariant = { λ s. s.parts.emitted ≡ [] };
}

impl Scratch {
    pub fn new(alloc: Global) -> Scratch {
        Scratch {
            parts: Parts::new(alloc),
        }
    }

    pub(crate) fn take(&mut self, alloc: Global) -> Parts
        ensures { result.emitted ≡ [] }
    {
        mem::replace(&mut self.parts, Parts::new(alloc))
    }

    pub(crate) fn put(&mut self, parts: Parts)
        requires { parts.emitted ≡ [] }
    {
        self.parts = parts;
    }
}
