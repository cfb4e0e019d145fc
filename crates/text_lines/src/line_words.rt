//! The words of one line, with literals decoded to their bytes.

ghost use Rattle.std.specs.Prelude.{◌≡◌, ◌++◌, ◌∷◌, [], bytes_eq, IfErr, OnErr, OnOk};
ghost use Rattle.text_lines.specs.LineGrammar.{is_plain};

use pact_record::Bytes;
use std::alloc::{AllocFailed, Global};
use std::marker::Model;

/// A word of a line.
#[derive(Debug, Drop)]
pub enum LineWord {
    /// A word as the line spells it.
    Plain(Bytes),
    /// The bytes of a literal, without quotation marks and with escapes decoded.
    Literal(Bytes),
}

impl LineWord {
    /// Whether the word is plain and equal to `name`. A literal never is, even with the same bytes.
    pub fn is_plain(&self, name: &[u8]) -> bool
        ensures { result ≡ is_plain name.now self.now }
    {
        match self {
            LineWord::Plain(bytes) => is_word(bytes.bytes(), name),
            LineWord::Literal(_) => false,
        }
    }
}

/// The words of a line.
#[derive(Debug, Drop)]
pub struct LineWords {
    held: Vec<LineWord>,
}

impl Model for LineWords {
    ghost use Rattle.std.specs.Prelude.{List};
    ghost use Rattle.text_lines.specs.declared.line_words.LineWord.{LineWord};

    ghost Value = { List LineWord };

    ghost view = { λ w. w.held.items };
}

impl LineWords {
    pub fn new(alloc: Global) -> LineWords
        ensures { result ≡ [] }
    {
        LineWords {
            held: Vec::new(alloc),
        }
    }

    pub fn push(&mut self, word: LineWord) -> Result<(), AllocFailed<LineWord>>
        ensures ok { OnOk result (self.new ≡ self.old ++ word ∷ []) }
        ensures err { OnErr result (self.new ≡ self.old) }
        ensures handed_back { IfErr result (λ e. e.value ≡ word) }
    {
        self.held.push(word)
    }

    pub fn words(&self) -> &[LineWord]
        ensures { result.now ≡ self.now }
    {
        &self.held
    }
}

/// Whether a word has exactly the bytes of `name`.
pub fn is_word(word: &[u8], name: &[u8]) -> bool
    ensures { result ≡ bytes_eq word.now name.now }
{
    word == name
}
