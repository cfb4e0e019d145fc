//! Versions of the language.

ghost use Rattle.std.specs.Prelude.{◌≡◌};
ghost use Rattle.tac_syntax.specs.Versions.{field_limit};

use pact_record::MAX_FIELDS;

/// The most fields that a program of this version can have. It also limits the columns of a source and the fields of a
/// sink.
pub fn field_limit(version: u32) -> u32
    ensures { result ≡ field_limit version }
{
    if version == 2 { MAX_FIELDS } else { 64 }
}
