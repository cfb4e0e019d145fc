//! The texts that a command writes.

ghost use Rattle.std.specs.Prelude.{◌≡◌, None};

use pact_record::Bytes;

/// The text for the output, and the text for standard error if one is asked for: counts, or the number of rounds.
#[derive(Drop)]
pub struct Texts {
    pub out: Bytes,
    pub told: Option<Bytes>,
}

impl Texts {
    /// A text for the output only.
    pub fn out_alone(out: Bytes) -> Texts
        ensures { result ≡ record { out = out; told = None } }
    {
        Texts { out, told: None }
    }
}
