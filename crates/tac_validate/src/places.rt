//! Where a statement is in its function.

ghost use Rattle.std.specs.Prelude.{◌≡◌, ◌+◌, ◌<◌, ◌^◌};
ghost use Rattle.tac_syntax.specs.Places.{top_place, in_if, in_each};
ghost use Rattle.tac_validate.specs.Stands.{place_of, in_repeat_capped};

use tac_syntax::{Function, Kind};

/// Where a statement is. `kind`, `keys` and `fields` are those of its function. `ifs`, `loops` and `lists` count the
/// `if`, the loops of either kind and the `each` around it. `repeats` is the product of the counts of the `repeat`
/// around it, or the largest number of its type if that is less.
#[derive(Clone, Copy)]
pub struct Place {
    pub kind: Kind,
    pub keys: u32,
    pub fields: u32,
    pub ifs: u32,
    pub loops: u32,
    pub lists: u32,
    pub repeats: u64,
}

impl Place {
    /// The place of a function's own statements.
    pub fn top(function: &Function, fields: u32) -> Place
        ensures { place_of result ≡ top_place function.now fields }
    {
        Place {
            kind: function.kind,
            keys: function.keys,
            fields,
            ifs: 0,
            loops: 0,
            lists: 0,
            repeats: 1,
        }
    }

    pub fn in_if(self) -> Place
        requires { self.ifs + 1 < 2 ^ 32 }
        ensures { place_of result ≡ in_if (place_of self) }
    {
        Place {
            ifs: self.ifs + 1,
            ..self
        }
    }

    pub fn in_repeat(self, count: u32) -> Place
        requires { self.loops + 1 < 2 ^ 32 }
        ensures { place_of result ≡ in_repeat_capped count (place_of self) }
    {
        Place {
            loops: self.loops + 1,
            repeats: self.repeats.saturating_mul(u64::from(count)),
            ..self
        }
    }

    pub fn in_each(self) -> Place
        requires loops { self.loops + 1 < 2 ^ 32 }
        requires lists { self.lists + 1 < 2 ^ 32 }
        ensures { place_of result ≡ in_each (place_of self) }
    {
        Place {
            loops: self.loops + 1,
            lists: self.lists + 1,
            ..self
        }
    }
}
