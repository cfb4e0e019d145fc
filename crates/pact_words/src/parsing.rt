//! Calls clap.

ghost use Rattle.std.specs.Prelude.{◌≡◌, ◌≢◌, [], IfOk, Err};
ghost use Rattle.clap.specs.Words.{fault_of, found_of, matches_of, rows_of};
ghost use Rattle.pact_words.specs.Definitions.{app_for};
ghost use Rattle.pact_words.specs.Words.{texts_of};

use crate::commands::{Kind, Refused};
use crate::definitions::definition;
use clap::ArgMatches;
use clap::error::ErrorKind;
use std::alloc::Global;

/// The values that clap finds in the words of a command. The first word is the command's name.
pub(crate) fn parse<'a>(
    alloc: Global,
    kind: Kind,
    words: &'a [&'a str],
) -> Result<ArgMatches<'a>, Refused>
    ensures taken { IfOk result (λ _. fault_of (app_for kind) (texts_of words.entry.now) ≡ []) }
    ensures found { IfOk result (λ m. rows_of (found_of m) ≡ matches_of (app_for kind) (texts_of words.entry.now)) }
    ensures refused { result ≡ Err Refused.Usage → fault_of (app_for kind) (texts_of words.entry.now) ≢ [] }
{
    let Ok(command) = definition(alloc, kind) else {
        return Err(Refused::OutOfMemory);
    };
    match command.try_get_matches_from(words) {
        Ok(matches) => Ok(matches),
        Err(error) => {
            if error.kind() == ErrorKind::OutOfMemory {
                Err(Refused::OutOfMemory)
            } else {
                Err(Refused::Usage)
            }
        }
    }
}
