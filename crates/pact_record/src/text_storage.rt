//! Where a text keeps its bytes.

ghost use Rattle.std.specs.Prelude.{◌≡◌, ◌+◌, ◌≤◌, ◌++◌, [], length, IfOk};

use crate::OutOfMemory;
use std::alloc::Global;
use std::marker::Model;

// A `Storage` takes 16 bytes, as many as a tag and a pointer. Besides the tag and the count, that leaves room for 14
// bytes of text.
const IN_PLACE: usize = 14;

// On the heap the count takes one more byte, and the allocator eight. So these lengths fill blocks of 48, 128 and 256
// bytes.
const SMALL: usize = 39;

const MEDIUM: usize = 119;

const LARGE: usize = 247;

/// At most `N` bytes.
#[derive(Debug, Drop)]
pub(crate) struct Cells<const N: usize> {
    count: u8,
    cells: [u8; N],
}

impl<const N: usize> Model for Cells<N> {
    ghost use Rattle.std.specs.Prelude.{List, ℕ, length, take, ◌≡◌, ◌≤◌};

    ghost Value = { List ℕ };

    ghost view = { λ c. take c.count c.cells };

    ghost invariant = { λ c. (c.count ≤ N) × (length c.cells ≡ N) };
}

impl<const N: usize> Cells<N> {
    fn empty() -> Cells<N>
        ensures { result ≡ [] }
    {
        Cells {
            count: 0,
            cells: [0; N],
        }
    }

    // Replaces the bytes by those of two slices, one after the other.
    fn fill(&mut self, left: &[u8], right: &[u8])
        requires room { length left.now + length right.now ≤ N }
        requires counted { N ≤ 255 }
        ensures { self.new ≡ left.now ++ right.now }
    {
        let count = left.len() + right.len();
        let cells = &mut self.cells[..];
        cells[..left.len()].copy_from_slice(left);
        cells[left.len()..count].copy_from_slice(right);
        self.count = count as u8;
    }

    fn joined(left: &[u8], right: &[u8]) -> Cells<N>
        requires room { length left.now + length right.now ≤ N }
        requires counted { N ≤ 255 }
        ensures { result ≡ left.now ++ right.now }
    {
        let mut joined = Cells::empty();
        joined.fill(left, right);
        joined
    }

    // `joined` on the heap. It fills the block itself, since cells that are filled first and then moved there are
    // copied twice.
    fn boxed(alloc: Global, left: &[u8], right: &[u8]) -> Result<Box<Cells<N>>, OutOfMemory>
        requires room { length left.now + length right.now ≤ N }
        requires counted { N ≤ 255 }
        ensures { IfOk result (λ b. b.value ≡ left.now ++ right.now) }
    {
        let mut joined = Box::new(alloc, Cells::empty())?;
        joined.fill(left, right);
        Ok(joined)
    }

    fn bytes(&self) -> &[u8]
        ensures { result.now ≡ self.now }
    {
        let cells = &self.cells[..];
        &cells[..self.count as usize]
    }

    fn copy(&self) -> Cells<N>
        ensures { result ≡ self.now }
    {
        Cells {
            count: self.count,
            cells: self.cells,
        }
    }
}

/// The bytes of a text: in the value itself if they are few, and otherwise on the heap. Up to `LARGE` bytes take one
/// block of memory, more take two.
#[derive(Debug, Drop)]
pub(crate) enum Storage {
    InPlace(Cells<IN_PLACE>),
    Small(Box<Cells<SMALL>>),
    Medium(Box<Cells<MEDIUM>>),
    Large(Box<Cells<LARGE>>),
    Longer(Box<Vec<u8>>),
}

impl Storage {
    ghost use Rattle.pact_record.specs.Limits.{text_limit};
    ghost use Rattle.pact_record.specs.TextStorage.{stored_bytes};

    pub(crate) fn from_slice(alloc: Global, bytes: &[u8]) -> Result<Storage, OutOfMemory>
        requires { length bytes.now ≤ text_limit }
        ensures { IfOk result (λ s. stored_bytes s ≡ bytes.now) }
    {
        Storage::joined(alloc, bytes, &[])
    }

    // Inlined, the copy of the empty slice that `from_slice` passes costs nothing.
    #[inline(always)]
    pub(crate) fn joined(alloc: Global, left: &[u8], right: &[u8]) -> Result<Storage, OutOfMemory>
        requires { length left.now + length right.now ≤ text_limit }
        ensures { IfOk result (λ s. stored_bytes s ≡ left.now ++ right.now) }
    {
        let count = left.len() + right.len();
        if count <= IN_PLACE {
            return Ok(Storage::InPlace(Cells::joined(left, right)));
        }
        if count <= SMALL {
            return Ok(Storage::Small(Cells::boxed(alloc, left, right)?));
        }
        if count <= MEDIUM {
            return Ok(Storage::Medium(Cells::boxed(alloc, left, right)?));
        }
        if count <= LARGE {
            return Ok(Storage::Large(Cells::boxed(alloc, left, right)?));
        }
        let mut bytes = Vec::with_capacity(alloc, count)?;
        bytes.extend_from_slice(left)?;
        bytes.extend_from_slice(right)?;
        Ok(Storage::Longer(Box::new(alloc, bytes)?))
    }

    pub(crate) fn bytes(&self) -> &[u8]
        ensures { result.now ≡ stored_bytes self.now }
    {
        match self {
            Storage::InPlace(cells) => cells.bytes(),
            Storage::Small(cells) => cells.bytes(),
            Storage::Medium(cells) => cells.bytes(),
            Storage::Large(cells) => cells.bytes(),
            Storage::Longer(bytes) => bytes.as_slice(),
        }
    }

    pub(crate) fn copy(&self, alloc: Global) -> Result<Storage, OutOfMemory>
        ensures { IfOk result (λ s. stored_bytes s ≡ stored_bytes self.now) }
    {
        match self {
            Storage::InPlace(cells) => Ok(Storage::InPlace(cells.copy())),
            Storage::Small(cells) => Ok(Storage::Small(Box::new(alloc, cells.copy())?)),
            Storage::Medium(cells) => Ok(Storage::Medium(Box::new(alloc, cells.copy())?)),
            Storage::Large(cells) => Ok(Storage::Large(Box::new(alloc, cells.copy())?)),
            Storage::Longer(bytes) => {
                let copied = Vec::from_slice(alloc, bytes.as_slice())?;
                Ok(Storage::Longer(Box::new(alloc, copied)?))
            }
        }
    }
}
