//! The words of a line, read from the left.

ghost use Rattle.std.specs.Prelude.{◌≡◌, ◌≤◌, ◌∷◌, [], FitsSigned, IfErr, IfOk, IsTrue, decimal, length};
ghost use Rattle.std.specs.Bool.{OnFalse, OnTrue};
ghost use Rattle.std.specs.Fmt.{signed_decimal};
ghost use Rattle.tac_syntax.specs.Grammar.{IsLoopName, IsNumber, IsSpelledRecord};
ghost use Rattle.tac_syntax.specs.Names as names;
ghost use Rattle.text_lines.specs.LineReading.{IsNoPlain, IsOther, ReadsEnd, ReadsNext, IsTold};
ghost use Rattle.text_lines.specs.declared.faults.NotRead.TheVariants.{Fault};
ghost use Rattle.text_lines.specs.LineGrammar.{literal_word, plain_word};
ghost use Rattle.text_lines.specs.OperandWords.{IsSpelledField, column_text, field_text, list_word, loop_name, record_register, record_word, value_register};
ghost use Rattle.text_lines.specs.Slots.{column, file_name, which_field, fixed, identifier, list, loop, number, operand, register, signed, text};
ghost use mir.Syntax.{w64};

use crate::faults::NotRead;
use crate::line_words::LineWord;
use crate::operands::{
    FieldWord, column_in, field_in, list_in, name_in, number_in, operand_in, record_in, signed_in,
    value_in,
};
use pact_record::Column;
use std::marker::Model;
use tac_syntax::{LoopList, Rec, is_file_name, is_name};

/// The words of a line that aren't read yet. Each call that reads a word moves past it, or returns the first fault of
/// these words: fault 4 if no word is left, fault 6 if a name is expected and the word isn't one, fault 7 if a number
/// is expected and the word isn't one in its range, fault 8 if the word is of another kind than expected. After a fault
/// the cursor's position is unspecified.
#[derive(Debug, Drop)]
pub struct Cursor<'a> {
    words: &'a [LineWord],
}

impl<'a> Model for Cursor<'a> {
    ghost use Rattle.std.specs.Prelude.{List};
    ghost use Rattle.text_lines.specs.LineGrammar.{LineWord};

    ghost Value = { List LineWord };

    ghost view = { λ c. c.words.now };
}

impl<'a> Cursor<'a> {
    pub fn new(words: &'a [LineWord]) -> Cursor<'a>
        ensures { result ≡ words.now }
    {
        Cursor { words }
    }

    /// The next word, of any kind.
    pub fn next(&mut self) -> Result<&'a LineWord, NotRead>
        ensures word { IfOk result (λ word. self.old ≡ word.now ∷ self.new) }
        ensures fault { IfErr result (λ e. (e ≡ Fault 4) × (self.old ≡ [])) }
    {
        match self.words.split_first() {
            Some((word, words)) => {
                self.words = words;
                Ok(word)
            }
            None => Err(NotRead::Fault { what: 4 }),
        }
    }

    // The next word, which must be plain: a literal has the fault `what`.
    fn plain(&mut self, what: u32) -> Result<&'a [u8], NotRead>
        ensures word { IfOk result (λ word. self.old ≡ plain_word word.now ∷ self.new) }
        ensures fault { IfErr result (λ e. IsNoPlain what e self.old) }
        ensures told { IfErr result IsTold }
    {
        match self.next()? {
            LineWord::Plain(bytes) => Ok(bytes.bytes()),
            LineWord::Literal(_) => Err(NotRead::Fault { what }),
        }
    }

    /// How many words are left.
    pub fn left(&self) -> usize
        ensures { result ≡ length self.now }
    {
        self.words.len()
    }

    /// Whether the next word is `name`. If it is, it is read; otherwise the cursor doesn't move.
    pub fn skips(&mut self, name: &[u8]) -> bool
        ensures yes { OnTrue result (self.old ≡ plain_word name.now ∷ self.new) }
        ensures other { OnFalse result ((self.new ≡ self.old) × IsOther name.now self.old) }
    {
        match self.words.split_first() {
            Some((word, words)) => {
                if word.is_plain(name) {
                    self.words = words;
                    return true;
                }
                false
            }
            None => false,
        }
    }

    /// Reads the word `name`; any other word has fault 8.
    pub fn fixed(&mut self, name: &[u8]) -> Result<(), NotRead>
        ensures { ReadsNext (fixed name.now) (λ _. Unit {0}) (λ _. plain_word name.now) result self.old self.new }
    {
        if self.next()?.is_plain(name) {
            Ok(())
        } else {
            Err(NotRead::Fault { what: 8 })
        }
    }

    /// The number of a value register, such as 3 for `v3`.
    pub fn value(&mut self) -> Result<u32, NotRead>
        ensures { ReadsNext (register 118) IsNumber (λ n. plain_word (value_register n)) result self.old self.new }
    {
        value_in(self.plain(8)?)
    }

    /// The number of a record register, such as 3 for `r3`.
    pub fn record(&mut self) -> Result<u32, NotRead>
        ensures { ReadsNext (register 114) IsNumber (λ n. plain_word (record_register n)) result self.old self.new }
    {
        record_in(self.plain(8)?)
    }

    /// A record that is read: a register, a loop's name, or a record that the function's kind provides, such as `in`.
    pub fn operand(&mut self) -> Result<Rec, NotRead>
        ensures { ReadsNext operand IsSpelledRecord (λ from. plain_word (record_word from)) result self.old self.new }
    {
        operand_in(self.plain(8)?)
    }

    /// A number from `low` to `high`.
    pub fn number(&mut self, low: u32, high: u32) -> Result<u32, NotRead>
        ensures read { ReadsNext (number low high) (λ n. (low ≤ n) × (n ≤ high)) (λ n. plain_word (decimal n)) result self.old self.new }
        ensures told { IfErr result IsTold }
    {
        number_in(low, high, self.plain(7)?)
    }

    /// The field of a record: its number, or `@` and a value register if `registers` is true.
    pub fn field(&mut self, registers: bool) -> Result<FieldWord, NotRead>
        ensures { ReadsNext (which_field registers) (IsSpelledField registers) (λ x. plain_word (field_text x)) result self.old self.new }
    {
        field_in(registers, self.plain(7)?)
    }

    /// A number with or without a sign.
    pub fn signed(&mut self) -> Result<i64, NotRead>
        ensures { ReadsNext signed (FitsSigned w64) (λ z. plain_word (signed_decimal z)) result self.old self.new }
    {
        signed_in(self.plain(7)?)
    }

    /// The bytes of a literal, with its escapes decoded.
    pub fn literal(&mut self) -> Result<&'a [u8], NotRead>
        ensures { ReadsNext text (λ _. Unit {0}) (λ bytes. literal_word bytes.now) result self.old self.new }
    {
        match self.next()? {
            LineWord::Literal(bytes) => Ok(bytes.bytes()),
            LineWord::Plain(_) => Err(NotRead::Fault { what: 8 }),
        }
    }

    /// The number in a loop's name. Fault 11 if it isn't `name`, the only one that is allowed at this place.
    pub fn loop_name(&mut self, name: u64) -> Result<u32, NotRead>
        ensures { ReadsNext (loop name) (λ n. (n ≡ name) × IsLoopName n) (λ n. plain_word (loop_name n)) result self.old self.new }
    {
        name_in(name, self.plain(8)?)
    }

    /// The list of a loop.
    pub fn list(&mut self) -> Result<LoopList, NotRead>
        ensures { ReadsNext list (λ _. Unit {0}) (λ items. plain_word (list_word items)) result self.old self.new }
    {
        list_in(self.plain(8)?)
    }

    /// The name of a declaration.
    pub fn name(&mut self) -> Result<&'a [u8], NotRead>
        ensures { ReadsNext identifier (λ name. IsTrue (names.is_name name.now)) (λ name. plain_word name.now) result self.old self.new }
    {
        let word = self.plain(6)?;
        if is_name(word) {
            Ok(word)
        } else {
            Err(NotRead::Fault { what: 6 })
        }
    }

    /// The name of a file.
    pub fn file_name(&mut self) -> Result<&'a [u8], NotRead>
        ensures { ReadsNext file_name (λ name. IsTrue (names.is_file_name name.now)) (λ name. plain_word name.now) result self.old self.new }
    {
        let word = self.plain(6)?;
        if is_file_name(word) {
            Ok(word)
        } else {
            Err(NotRead::Fault { what: 6 })
        }
    }

    /// A column of a source.
    pub fn column(&mut self) -> Result<Column, NotRead>
        ensures { ReadsNext column (λ c. IsNumber c.field) (λ c. plain_word (column_text c)) result self.old self.new }
    {
        column_in(self.plain(8)?)
    }

    /// Checks that no word is left. Fault 5 if one is.
    pub fn end(&mut self) -> Result<(), NotRead>
        ensures read { ReadsEnd result self.old }
        ensures told { IfErr result IsTold }
    {
        if self.words.is_empty() {
            Ok(())
        } else {
            Err(NotRead::Fault { what: 5 })
        }
    }
}
