//! The read, write and control sets of a function.

use pact_record::Fields;

/// The fields that a function reads, writes, decides by and touches, and whether all that a CoGroup emits
/// began as records of its left side, and of its right. For other kinds both are false.
#[derive(Clone, Copy, Debug, PartialEq, Eq)]
pub struct Sets {
    pub reads: Fields,
    pub writes: Fields,
    pub control: Fields,
    pub touched: Fields,
    pub anchor_left: bool,
    pub anchor_right: bool,
}
