//! Why a call gives no answer.

ghost use Rattle.std.specs.Prelude.{◌≡◌};
ghost use Rattle.pact_load.specs.Answers.{status_of};
ghost use Rattle.pact_load.specs.declared.refusals.Refusal.TheVariants as refusals;

use pact_record::{Bytes, OutOfMemory};

/// Why a call gives no answer. Loading never returns `Usage` or `CannotWrite`: these are for what comes before it and
/// after it.
#[derive(Drop)]
pub enum Refusal {
    OutOfMemory,
    Usage,
    /// The file of this name can't be read.
    CannotRead(Bytes),
    CannotWrite,
    /// The content of the files decides it. `status` is the exit status, and `line` is all that is printed, one line or
    /// more.
    Decided { status: u8, line: Bytes },
}

impl From<OutOfMemory> for Refusal {
    ghost from_gives = { λ _ r. r ≡ refusals.OutOfMemory };

    fn from(_: OutOfMemory) -> Refusal {
        Refusal::OutOfMemory
    }
}

impl Refusal {
    pub fn status(&self) -> u8
        ensures { result ≡ status_of self.now }
    {
        match self {
            Refusal::OutOfMemory => 1,
            Refusal::Usage => 2,
            Refusal::CannotRead(_) => 3,
            Refusal::CannotWrite => 4,
            Refusal::Decided { status, .. } => *status,
        }
    }
}
