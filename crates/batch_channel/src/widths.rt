//! How many values the records of a pipe have.

ghost use Rattle.std.specs.Prelude.{ℕ};

use std::marker::Brand;

/// How many values each record of a pipe has. Only contracts see the number: the types of a pipe, its ends and what is
/// left in it refer to it by this trait.
pub trait Width {
    ghost fields: { ℕ };
}

/// The call that opens a pipe of this type picks the number; a type for which none was picked has 0.
impl Width for Brand {
    ghost fields = { 0 };
}
