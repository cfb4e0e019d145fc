//! What the inputs of an operator may hold.

ghost use Rattle.std.specs.Prelude.{◌≡◌, ◌||◌, ℕ};
ghost use Rattle.pact_record.specs.FieldSets.{has_field};
ghost use Rattle.tac_syntax.specs.Contexts.{IsContextOf};

use pact_record::{Fields, Keys};

/// An input of an operator. A Map and a Reduce have only the left one.
#[derive(Clone, Copy, Debug, PartialEq, Eq)]
pub enum Side {
    Left,
    Right,
}

/// Which fields of either input's records may be non-Null, and the key fields of either input. A Map and a Reduce have
/// only those of the left input.
#[derive(Clone, Copy, Debug, PartialEq, Eq, Hash)]
pub struct Context {
    pub left: Fields,
    pub right: Fields,
    pub left_keys: Keys,
    pub right_keys: Keys,
}

impl Context {
    /// The union of both contexts' fields. `other` is assumed to have the same keys.
    pub fn union(&self, other: &Context) -> Context
        ensures left { (k : ℕ) → has_field result.left k ≡ (has_field self.now.left k || has_field other.now.left k) }
        ensures right { (k : ℕ) → has_field result.right k ≡ (has_field self.now.right k || has_field other.now.right k) }
        ensures left_keys { result.left_keys ≡ self.now.left_keys }
        ensures right_keys { result.right_keys ≡ self.now.right_keys }
        ensures below { (fields : ℕ) → IsContextOf fields self.now → IsContextOf fields other.now → IsContextOf fields result }
    {
        Context {
            left: self.left.union(other.left),
            right: self.right.union(other.right),
            left_keys: self.left_keys,
            right_keys: self.right_keys,
        }
    }
}
