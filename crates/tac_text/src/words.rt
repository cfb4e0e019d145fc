//! The words of a line, made one after another.

ghost use Rattle.std.specs.Prelude.{◌≡◌, ◌++◌, ◌∷◌, [], IfOk, map};
ghost use Rattle.std.specs.Fmt.{decimal, signed_decimal};
ghost use Rattle.text_lines.specs.OperandWords.{record_word};

use pact_record::{Bytes, OutOfMemory};
use std::alloc::Global;
use std::marker::Model;
use tac_syntax::Rec;

/// The words of a line.
#[derive(Debug, Drop)]
pub struct Words {
    held: Vec<Bytes>,
}

impl Model for Words {
    ghost use Rattle.std.specs.Prelude.{List, ℕ};

    ghost Value = { List (List ℕ) };

    ghost view = { λ w. w.held.items };
}

impl Words {
    pub fn new(alloc: Global) -> Words
        ensures { result ≡ [] }
    {
        Words {
            held: Vec::new(alloc),
        }
    }

    pub fn words(&self) -> &[Bytes]
        ensures { result.now ≡ self.now }
    {
        &self.held
    }

    /// These words, with one more at the end.
    pub fn and(mut self, word: Bytes) -> Result<Words, OutOfMemory>
        ensures { IfOk result (λ words. words ≡ self ++ word ∷ []) }
    {
        self.held.push(word)?;
        Ok(self)
    }

    pub fn and_word(self, alloc: Global, word: &[u8]) -> Result<Words, OutOfMemory>
        ensures { IfOk result (λ words. words ≡ self ++ word.now ∷ []) }
    {
        self.and(Bytes::from_slice(alloc, word)?)
    }

    /// Adds a word that ends with a number, such as a register.
    pub fn and_number(self, alloc: Global, front: &[u8], number: u32) -> Result<Words, OutOfMemory>
        ensures { IfOk result (λ words. words ≡ self ++ (front.now ++ decimal number) ∷ []) }
    {
        let mut word = Bytes::from_slice(alloc, front)?;
        let digits = number.to_string(alloc)?;
        word.extend_from_slice(digits.as_bytes())?;
        self.and(word)
    }

    /// Adds a number with its sign.
    pub fn and_signed(self, alloc: Global, number: i64) -> Result<Words, OutOfMemory>
        ensures { IfOk result (λ words. words ≡ self ++ signed_decimal number ∷ []) }
    {
        self.and_word(alloc, number.to_string(alloc)?.as_bytes())
    }

    /// Adds a record that is read.
    pub fn and_record(self, alloc: Global, from: Rec) -> Result<Words, OutOfMemory>
        ensures { IfOk result (λ words. words ≡ self ++ record_word from ∷ []) }
    {
        match from {
            Rec::Reg(number) => self.and_number(alloc, b"r", number),
            Rec::Loop(name) => self.and_number(alloc, b"x", name),
            Rec::Input => self.and_word(alloc, b"in"),
            Rec::Left => self.and_word(alloc, b"left"),
            Rec::Right => self.and_word(alloc, b"right"),
            Rec::Join => self.and_word(alloc, b"join"),
            Rec::First => self.and_word(alloc, b"first"),
        }
    }
}
