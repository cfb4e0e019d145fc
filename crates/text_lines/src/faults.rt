//! Why a line couldn't be read.

ghost use Rattle.std.specs.Prelude.{◌≡◌};
ghost use Rattle.text_lines.specs.declared.faults.NotRead.TheVariants.{Fault};
ghost use Rattle.text_lines.specs.FirstFaults.{told_at};
ghost use Rattle.text_lines.specs.LineReading.{IsTold};

use crate::lines::TextFault;
use pact_record::OutOfMemory;

/// Why a line, or a part of one, couldn't be read.
#[derive(Clone, Copy, Debug, PartialEq, Eq)]
pub enum NotRead {
    /// The number of its first fault.
    Fault { what: u32 },
    Memory,
}

impl NotRead {
    /// The number of a fault.
    pub fn told(self) -> u32
        requires { IsTold self }
        ensures { self ≡ Fault result }
    {
        match self {
            NotRead::Fault { what } => what,
            NotRead::Memory => unreachable!(),
        }
    }

    /// Why a text couldn't be read, if this is why line `line` of it couldn't.
    pub fn at_line(self, line: u64) -> TextFault
        ensures { result ≡ told_at line self }
    {
        match self {
            NotRead::Fault { what } => TextFault::At { line, what },
            NotRead::Memory => TextFault::Memory,
        }
    }
}

impl From<OutOfMemory> for NotRead {
    ghost use Rattle.text_lines.specs.declared.faults.NotRead.TheVariants.{Memory};

    ghost from_gives = { λ _ e. e ≡ Memory };

    fn from(_: OutOfMemory) -> NotRead {
        NotRead::Memory
    }
}
