//! Names, looked up in lists of names.

ghost use Rattle.std.specs.Prelude.{◌≡◌, ◌≤◌, ◌++◌, ◌∷◌, [], length, IfOk};
ghost use Rattle.program_check.specs.ProgramRules.{times_in};
ghost use Rattle.pact_operators.specs.Resolved.{is_among, place_among, times_among};

use pact_record::{OutOfMemory, Word};
use std::alloc::Global;

pub fn is_among(name: &[u8], names: &[Word]) -> bool
    ensures { result ≡ is_among name.now names.now }
{
    for other in names {
        if name == other.bytes() {
            return true;
        }
    }
    false
}

/// The place of the name's first occurrence, or the number of names if it doesn't occur.
pub fn place_among(name: &[u8], names: &[Word]) -> usize
    ensures place { result ≡ place_among name.now names.now }
    ensures within { result ≤ length names.now }
{
    for (place, other) in names.iter().enumerate() {
        if name == other.bytes() {
            return place;
        }
    }
    names.len()
}

pub fn times_among(name: &[u8], names: &[Word]) -> usize
    ensures { result ≡ times_among name.now names.now }
{
    let mut times = 0;
    for other in names {
        if name == other.bytes() {
            times += 1;
        }
    }
    times
}

pub fn times_in(field: u32, fields: &[u32]) -> usize
    ensures { result ≡ times_in field fields.now }
{
    let mut times = 0;
    for other in fields {
        if field == *other {
            times += 1;
        }
    }
    times
}

/// The names with one more at the end.
pub fn with_name(alloc: Global, names: Vec<Word>, name: &Word) -> Result<Vec<Word>, OutOfMemory>
    ensures { IfOk result (λ more. more.items ≡ names.items ++ name.now ∷ []) }
{
    let mut more = names;
    more.push(Word::from_bytes(alloc, name.bytes())?)?;
    Ok(more)
}
