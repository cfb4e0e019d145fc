//! Notes with their receivers.

use crate::notes::Note;

/// A note, and the worker that it is for.
#[derive(Debug, Drop)]
pub struct AddressedNote {
    pub to: u32,
    pub note: Note,
}
