//! Sets of registers.

use crate::lists::Register;

/// A set of registers, with a bit for each.
#[derive(Clone, Copy)]
pub struct Registers {
    values: u32,
    records: u32,
}

impl Registers {
    pub fn none() -> Registers {
        Registers {
            values: 0,
            records: 0,
        }
    }

    /// The set of one register. A number that no register has makes it empty.
    pub fn only(register: Register) -> Registers {
        match register {
            Register::Value(k) => Registers {
                values: bit(k),
                records: 0,
            },
            Register::Record(k) => Registers {
                values: 0,
                records: bit(k),
            },
        }
    }

    pub fn union(&self, other: &Registers) -> Registers {
        Registers {
            values: self.values | other.values,
            records: self.records | other.records,
        }
    }

    pub fn with(&self, register: Register) -> Registers {
        self.union(&Registers::only(register))
    }

    pub fn has(&self, register: Register) -> bool {
        match register {
            Register::Value(k) => self.values & bit(k) != 0,
            Register::Record(k) => self.records & bit(k) != 0,
        }
    }
}

/// The number with that bit set, or 0 if there is no such bit.
pub fn bit(k: u32) -> u32 {
    if k < 32 { 1 << k } else { 0 }
}
