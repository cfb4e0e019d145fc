//! What may be at a place of a text.

ghost use Rattle.std.specs.Prelude.{◌≡◌, ◌<◌, decimal, ◌++◌, ◌∷◌, [], IfErr, IfOk, OnErr, OnOk, Some, length, slice_get};
ghost use Rattle.text_marks.specs.Samples.{sample_of};

use pact_record::{Bytes, OutOfMemory};
use std::alloc::{AllocFailed, Global};
use std::marker::Model;

/// What may be at a place.
#[derive(Clone, Copy, Debug, PartialEq, Eq)]
pub enum Expected {
    /// A fixed word of the language.
    Word(&'static [u8]),
    /// `v` and a number.
    ValueRegister,
    /// `r` and a number.
    RecordRegister,
    /// The name of an `each`: `x` and this number.
    Loop(u32),
    /// A number in this range.
    Number { low: u64, high: u64 },
    /// A number that may have a minus sign.
    Signed,
    /// A text between quotation marks.
    Literal,
    /// A name that the program declares or uses.
    Name,
    /// The name of a file; a name is one, too.
    FileName,
    /// `int:` or `text:` and the number of a field.
    Column,
    /// `@v` and a number.
    FieldRegister,
    /// No more words.
    LineEnd,
}

/// A list of what may be at a place.
#[derive(Debug, Drop)]
pub struct ExpectedList {
    held: Vec<Expected>,
}

impl Model for ExpectedList {
    ghost use Rattle.std.specs.Prelude.{List};
    ghost use Rattle.text_marks.specs.declared.expected.Expected.{Expected};

    ghost Value = { List Expected };

    ghost view = { λ e. e.held.items };
}

impl ExpectedList {
    pub fn new(alloc: Global) -> ExpectedList
        ensures { result ≡ [] }
    {
        ExpectedList {
            held: Vec::new(alloc),
        }
    }

    pub fn push(&mut self, item: Expected) -> Result<(), AllocFailed<Expected>>
        ensures ok { OnOk result (self.new ≡ self.old ++ item ∷ []) }
        ensures err { OnErr result (self.new ≡ self.old) }
        ensures handed_back { IfErr result (λ e. e.value ≡ item) }
    {
        self.held.push(item)
    }

    pub fn len(&self) -> usize
        ensures { result ≡ length self.now }
    {
        self.held.len()
    }

    pub fn at(&self, n: usize) -> Expected
        requires { n < length self.now }
        ensures { slice_get self.now n ≡ Some result }
    {
        self.held[n]
    }

    pub fn items(&self) -> &[Expected]
        ensures { result.now ≡ self.now }
    {
        &self.held
    }
}

// A word that ends with a number.
fn numbered(alloc: Global, front: &[u8], number: u64) -> Result<Bytes, OutOfMemory>
    ensures { IfOk result (λ word. word ≡ front.now ++ decimal number) }
{
    let mut word = Bytes::from_slice(alloc, front)?;
    let digits = number.to_string(alloc)?;
    word.extend_from_slice(digits.as_bytes())?;
    Ok(word)
}

/// A word of that kind; of numbers the least one, and no word for the line's end.
pub fn sample(alloc: Global, item: Expected) -> Result<Bytes, OutOfMemory>
    ensures { IfOk result (λ word. word ≡ sample_of item) }
{
    match item {
        Expected::Word(word) => Bytes::from_slice(alloc, word),
        Expected::ValueRegister => Bytes::from_slice(alloc, b"v0"),
        Expected::RecordRegister => Bytes::from_slice(alloc, b"r0"),
        Expected::Loop(number) => numbered(alloc, b"x", u64::from(number)),
        Expected::Number { low, .. } => numbered(alloc, b"", low),
        Expected::Signed => Bytes::from_slice(alloc, b"-1"),
        Expected::Literal => Bytes::from_slice(alloc, b"\"a\""),
        Expected::Name => Bytes::from_slice(alloc, b"zz"),
        Expected::FileName => Bytes::from_slice(alloc, b"a/b"),
        Expected::Column => Bytes::from_slice(alloc, b"int:0"),
        Expected::FieldRegister => Bytes::from_slice(alloc, b"@v0"),
        Expected::LineEnd => Ok(Bytes::new(alloc)),
    }
}
