//! The trait of objects that keep records by key.

ghost use Rattle.std.specs.Prelude.{◌≡◌, ◌<◌, ◌++◌, ◌∷◌, [], ℕ, Bool, true, false, List, length, map, slice_get, IfOk, IfSome, OnOk};
ghost use Rattle.std.specs.List.Sorted.{IsPermutation};
ghost use Rattle.pact_bag.specs.Groups.{distinct_keys, group_of_key};
ghost use Rattle.pact_record.specs.declared.values.Value.{Value as FieldValue};
ghost use Rattle.pact_record.specs.Record.{key_of};
ghost use Rattle.pact_record.specs.Widths.{AreBelow, AreWide};

use pact_bag::Rows;
use pact_record::{Keys, OutOfMemory, Record};
use std::alloc::Global;

/// Records by the values of their key fields. Records are added until it is sealed. After that it lends the records of
/// a key, side by side. It may keep the records in any order, and number their key values in any order.
pub trait Local: Sized + Send + Drop {
    ghost rows: { Self → List (List FieldValue) };

    ghost key_fields: { Self → List ℕ };

    ghost is_sealed: { Self → Bool };

    /// The key values, by their numbers.
    ghost order: { Self → List (List FieldValue) };

    /// Starts without records, with these key fields.
    fn start(alloc: Global, keys: &Keys) -> Result<Self, OutOfMemory>
        ensures rows { IfOk result (λ local. rows local ≡ []) }
        ensures keys { IfOk result (λ local. key_fields local ≡ keys.now) }
        ensures not_sealed { IfOk result (λ local. is_sealed local ≡ false) };

    /// Keeps one more record. After an out-of-memory error it may only be dropped.
    fn add(&mut self, row: Record) -> Result<(), OutOfMemory>
        requires not_sealed { is_sealed self.old ≡ false }
        requires width { AreWide (length row) (rows self.old) }
        requires below { AreBelow (length row) (key_fields self.old) }
        ensures rows { OnOk result (IsPermutation (rows self.old ++ row ∷ []) (rows self.new)) }
        ensures keys { OnOk result (key_fields self.new ≡ key_fields self.old) }
        ensures not_sealed { OnOk result (is_sealed self.new ≡ false) };

    /// Seals it: no more records will come. After an out-of-memory error it may only be dropped.
    fn seal(&mut self) -> Result<(), OutOfMemory>
        requires { is_sealed self.old ≡ false }
        ensures rows { OnOk result (IsPermutation (rows self.old) (rows self.new)) }
        ensures keys { OnOk result (key_fields self.new ≡ key_fields self.old) }
        ensures sealed { OnOk result (is_sealed self.new ≡ true) };

    /// The number of different key values of the records. The key values are numbered from 0 to this number less one.
    fn key_count(&self) -> usize
        requires { is_sealed self.now ≡ true }
        ensures count { result ≡ length (order self.now) }
        ensures order { IsPermutation (distinct_keys (map (key_of (key_fields self.now)) (rows self.now))) (order self.now) };

    /// Lends the records of the key values with this number, in any order. It allocates no memory.
    fn borrow_group_at(&self, n: usize) -> &Rows
        requires sealed { is_sealed self.now ≡ true }
        requires below { n < length (order self.now) }
        ensures { IfSome (slice_get (order self.now) n) (λ key. IsPermutation (group_of_key (key_fields self.now) (rows self.now) key) result.now) };

    /// Lends the records with the key values that the row has at these fields, in any order. If there are none, it
    /// lends an empty list. It allocates no memory.
    fn borrow_group_of(&self, row: &Record, keys: &Keys) -> &Rows
        requires sealed { is_sealed self.now ≡ true }
        requires length { length keys.now ≡ length (key_fields self.now) }
        requires below { AreBelow (length row.now) keys.now }
        ensures { IsPermutation (group_of_key (key_fields self.now) (rows self.now) (key_of keys.now row.now)) result.now };

    /// A copy of what `borrow_group_at` lends. Out of memory is the only error.
    fn group_at(&self, alloc: Global, n: usize) -> Result<Rows, OutOfMemory>
        requires sealed { is_sealed self.now ≡ true }
        requires below { n < length (order self.now) }
        ensures { IfOk result (λ group. IfSome (slice_get (order self.now) n) (λ key. IsPermutation (group_of_key (key_fields self.now) (rows self.now) key) group)) }
    {
        self.borrow_group_at(n).copy(alloc)
    }

    /// A copy of what `borrow_group_of` lends. Out of memory is the only error.
    fn group_of(&self, alloc: Global, row: &Record, keys: &Keys) -> Result<Rows, OutOfMemory>
        requires sealed { is_sealed self.now ≡ true }
        requires length { length keys.now ≡ length (key_fields self.now) }
        requires below { AreBelow (length row.now) keys.now }
        ensures { IfOk result (IsPermutation (group_of_key (key_fields self.now) (rows self.now) (key_of keys.now row.now))) }
    {
        self.borrow_group_of(row, keys).copy(alloc)
    }
}
