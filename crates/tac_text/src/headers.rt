//! The first line of a function: `function`, its name, its kind and for some kinds its number of keys.

ghost use Rattle.std.specs.Prelude.{◌≡◌, ◌<◌, length};
ghost use Rattle.tac_text.specs.FunctionFaults.{is_part_or_end, kind_of_word};
ghost use Rattle.tac_text.specs.FunctionStates.{ReadsFirst, ReadsHeader, ReadsKeys, ReadsKind};

use crate::kind_words::kind_named;
use tac_syntax::Kind;
use text_lines::{Cursor, LineWord, NotRead, is_word};

/// What a header says.
#[derive(Clone, Copy)]
pub struct Header<'a> {
    pub name: &'a [u8],
    pub kind: Kind,
    pub keys: u32,
}

fn kind_of_word(word: &LineWord) -> Option<Kind>
    ensures { result ≡ kind_of_word word.now }
{
    match word {
        LineWord::Plain(bytes) => kind_named(bytes.bytes()),
        LineWord::Literal(_) => None,
    }
}

fn read_kind(words: &mut Cursor<'_>) -> Result<Kind, NotRead>
    ensures { ReadsKind result words.old words.new }
{
    match kind_of_word(words.next()?) {
        Some(kind) => Ok(kind),
        None => Err(NotRead::Fault { what: 9 }),
    }
}

// The number of keys after a kind, and the line's end.
fn read_keys(kind: Kind, words: &mut Cursor<'_>) -> Result<u32, NotRead>
    ensures { ReadsKeys kind result words.old }
{
    let keys = match kind {
        Kind::Map | Kind::Match | Kind::Cross => 0,
        Kind::Reduce | Kind::CoGroup => words.number(1, 8)?,
    };
    words.end()?;
    Ok(keys)
}

fn is_part_or_end(word: &[u8]) -> bool
    ensures { result ≡ is_part_or_end word.now }
{
    is_word(word, b"else") || is_word(word, b"end")
}

// The word `function`.
fn read_first(words: &mut Cursor<'_>) -> Result<(), NotRead>
    requires { 0 < length words.old }
    ensures { ReadsFirst result words.old words.new }
{
    match words.next()? {
        LineWord::Plain(bytes) => {
            if is_word(bytes.bytes(), b"function") {
                Ok(())
            } else if is_part_or_end(bytes.bytes()) {
                Err(NotRead::Fault { what: 10 })
            } else {
                Err(NotRead::Fault { what: 3 })
            }
        }
        LineWord::Literal(_) => Err(NotRead::Fault { what: 3 }),
    }
}

/// What the words of a header say.
pub fn read_parts<'a>(words: &'a [LineWord]) -> Result<Header<'a>, NotRead>
    requires { 0 < length words.now }
    ensures { ReadsHeader result words.now }
{
    let mut words = Cursor::new(words);
    read_first(&mut words)?;
    let name = words.name()?;
    let kind = read_kind(&mut words)?;
    let keys = read_keys(kind, &mut words)?;
    Ok(Header { name, kind, keys })
}
