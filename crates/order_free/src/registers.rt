//! Sets of registers.

ghost use Rattle.std.specs.Prelude.{◌≡◌, ◌<◌, ◌↔◌, ◌&&◌, ◌||◌, not, IsTrue, false};
ghost use Rattle.tac_syntax.specs.Limits.{value_registers, record_registers};
ghost use Rattle.order_free.specs.Registers.{Register, is_record, is_value};
ghost use Rattle.order_free.specs.Views.{registers_of};

use pact_record::Fields;

/// A set of registers. It is made of `Fields`, which can hold any set of small numbers.
#[derive(Clone, Copy)]
pub(crate) struct Registers {
    values: Fields,
    records: Fields,
}

impl Registers {
    pub(crate) fn none() -> Registers
        ensures { (r : Register) → registers_of result r ≡ false }
    {
        Registers {
            values: Fields::empty(),
            records: Fields::empty(),
        }
    }

    /// The set of the one value register with this number.
    pub(crate) fn value(k: u32) -> Registers
        requires { k < value_registers }
        ensures { (r : Register) → registers_of result r ≡ is_value k r }
    {
        Registers {
            values: Fields::empty().with(k),
            records: Fields::empty(),
        }
    }

    /// The set of the one record register with this number.
    pub(crate) fn record(k: u32) -> Registers
        requires { k < record_registers }
        ensures { (r : Register) → registers_of result r ≡ is_record k r }
    {
        Registers {
            values: Fields::empty(),
            records: Fields::empty().with(k),
        }
    }

    pub(crate) fn union(&self, other: &Registers) -> Registers
        ensures { (r : Register) → registers_of result r ≡ (registers_of self.now r || registers_of other.now r) }
    {
        Registers {
            values: self.values.union(other.values),
            records: self.records.union(other.records),
        }
    }

    pub(crate) fn meet(&self, other: &Registers) -> Registers
        ensures { (r : Register) → registers_of result r ≡ (registers_of self.now r && registers_of other.now r) }
    {
        Registers {
            values: self.values.meet(other.values),
            records: self.records.meet(other.records),
        }
    }

    pub(crate) fn minus(&self, other: &Registers) -> Registers
        ensures { (r : Register) → registers_of result r ≡ (registers_of self.now r && not (registers_of other.now r)) }
    {
        Registers {
            values: self.values.minus(other.values),
            records: self.records.minus(other.records),
        }
    }

    pub(crate) fn is_empty(&self) -> bool
        ensures { IsTrue result ↔ ((r : Register) → registers_of self.now r ≡ false) }
    {
        self.values.least().is_none() && self.records.least().is_none()
    }
}
