//! Reads a command from the words.

ghost use Rattle.std.specs.Prelude.{◌≡◌, Err, IfOk};
ghost use Rattle.pact_words.specs.Words.{Answers, AreUnnamed, IsInRange, asked, kind_named, texts_of};

use crate::commands::{Command, Kind, Refused};
use crate::parsing::parse;
use crate::values::command_in;
use std::alloc::Global;

/// The command that the words ask for. They don't include the program's own name, so the first word is the command's.
///
/// Options may be anywhere after that, also between operands. Each word after `--` is an operand. An option that comes
/// twice is refused. `--help` is refused, as is any other word that the command doesn't take.
pub fn read_words<'a>(alloc: Global, words: &'a [&'a str]) -> Result<Command<'a>, Refused>
    ensures answers { Answers (texts_of words.entry.now) result }
    ensures in_range { IfOk result (λ c. IsInRange (asked c)) }
    ensures unnamed { AreUnnamed (texts_of words.entry.now) → result ≡ Err Refused.Usage }
{
    let Some(first) = words.first() else {
        return Err(Refused::Usage);
    };
    let Some(kind) = kind_named(first) else {
        return Err(Refused::Usage);
    };
    let matches = parse(alloc, kind, words)?;
    // If clap takes the words, each argument has a value. Only the value of `--local` may still be wrong.
    match command_in(kind, &matches) {
        Some(command) => Ok(command),
        None => Err(Refused::Usage),
    }
}

fn kind_named(word: &str) -> Option<Kind>
    ensures { result ≡ kind_named word.now }
{
    match word {
        "run" => Some(Kind::Run),
        "plan" => Some(Kind::Plan),
        "cert" => Some(Kind::Cert),
        "check" => Some(Kind::Check),
        "sets" => Some(Kind::Sets),
        "gen" => Some(Kind::Gen),
        "drill" => Some(Kind::Drill),
        "iterate" => Some(Kind::Iterate),
        _ => None,
    }
}
