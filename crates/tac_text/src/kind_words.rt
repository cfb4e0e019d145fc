//! The words of kinds, for reading and for writing.

ghost use Rattle.std.specs.Prelude.{◌≡◌};
ghost use Rattle.tac_text.specs.FunctionFaults.{kind_named};
ghost use Rattle.tac_text.specs.FunctionLines.{kind_word};

use tac_syntax::Kind;
use text_lines::is_word;

const KINDS: [Kind; 5] = [
    Kind::Map,
    Kind::Match,
    Kind::Cross,
    Kind::Reduce,
    Kind::CoGroup,
];

pub fn kind_name(kind: Kind) -> &'static [u8]
    ensures { result.now ≡ kind_word kind }
{
    match kind {
        Kind::Map => b"map",
        Kind::Match => b"match",
        Kind::Cross => b"cross",
        Kind::Reduce => b"reduce",
        Kind::CoGroup => b"cogroup",
    }
}

/// The kind that has this word.
pub fn kind_named(word: &[u8]) -> Option<Kind>
    ensures { result ≡ kind_named word.now }
{
    for kind in &KINDS {
        if is_word(word, kind_name(*kind)) {
            return Some(*kind);
        }
    }
    None
}
