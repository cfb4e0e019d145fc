//! The contents of a certificate, and why it may be refused.

ghost use Rattle.std.specs.Prelude.{◌≡◌, ◌<◌, ◌++◌, ◌∷◌, [], IfErr, OnErr, OnOk, Some, length, slice_get};

use pact_record::{Bytes, OutOfMemory, Word};
use reorder_pair::{Found, NotLegal};
use std::alloc::{AllocFailed, Global};
use std::marker::Model;

/// The most bytes of a plan's line.
pub(crate) const MAX_LINE: usize = 4096;

/// A stated exchange: the word of its rule, the name of its upper operator, and the sets and bounds that it states for
/// the two operators.
#[derive(Debug, Drop)]
pub struct Step {
    pub rule: Word,
    pub at: Word,
    pub upper: Found,
    pub lower: Found,
}

/// Stated exchanges in the order in which they are made.
#[derive(Debug, Drop)]
pub struct Steps {
    held: Vec<Step>,
}

impl Model for Steps {
    ghost use Rattle.std.specs.Prelude.{List};
    ghost use Rattle.std.specs.Coded.{coded_list};
    ghost use Rattle.swap_certificate.specs.contracts.certificates.Step as step;
    ghost use Rattle.swap_certificate.specs.declared.certificates.Step.{Step};

    ghost Value = { List Step };

    ghost coded = { coded_list step.the_row.coded };

    ghost view = { λ s. s.held.items };
}

impl Steps {
    pub fn new(alloc: Global) -> Steps
        ensures { result ≡ [] }
    {
        Steps {
            held: Vec::new(alloc),
        }
    }

    /// Appends a step.
    pub fn push(&mut self, step: Step) -> Result<(), AllocFailed<Step>>
        ensures ok { OnOk result (self.new ≡ self.old ++ step ∷ []) }
        ensures err { OnErr result (self.new ≡ self.old) }
        ensures handed_back { IfErr result (λ e. e.value ≡ step) }
    {
        self.held.push(step)
    }

    pub fn len(&self) -> usize
        ensures { result ≡ length self.now }
    {
        self.held.len()
    }

    pub fn at(&self, n: usize) -> &Step
        requires { n < length self.now }
        ensures { slice_get self.now n ≡ Some result.now }
    {
        &self.held[n]
    }

    pub fn steps(&self) -> &[Step]
        ensures { result.now ≡ self.now }
    {
        &self.held
    }
}

/// The version of the language, the exchanges from the plan as written, and the line of the plan that they are said to
/// lead to. The line is `NAME`, `NAME(LINE)` or `NAME(LINE,LINE)` from the plan's root.
#[derive(Debug, Drop)]
pub struct Certificate {
    pub version: u32,
    pub steps: Steps,
    pub plan: Bytes,
}

/// Why a certificate is refused. C6 is checked before all steps, and C5 after them. The faults of a step are checked in
/// the order C2, C1, C3, C4, and the first step with a fault is reported. Steps are counted from 1.
#[derive(Debug, Drop)]
pub enum CertFault {
    /// No operator has the name, or the rule has no place there.
    C1 {
        step: u64,
    },
    /// No rule has the word.
    C2 {
        step: u64,
    },
    /// The sets and bounds found for the two operators aren't the stated ones.
    C3 {
        step: u64,
        upper: Found,
        lower: Found,
    },
    /// The exchange isn't legal.
    C4 {
        step: u64,
        why: NotLegal,
    },
    /// The steps lead to the plan with this line, but another line is stated.
    C5 {
        found: Bytes,
    },
    /// The stated version isn't the program's.
    C6 {
        stated: u32,
        found: u32,
    },
    /// Out of memory; the certificate wasn't fully checked.
    Memory,
}

/// Why a text isn't a certificate.
#[derive(Clone, Copy, Debug, PartialEq, Eq)]
pub enum NotCertificate {
    /// It isn't JSON, or its JSON value has another shape.
    Shape,
    /// Out of memory; the text wasn't fully checked.
    Memory,
}

impl From<OutOfMemory> for NotCertificate {
    ghost use Rattle.swap_certificate.specs.declared.certificates.NotCertificate.TheVariants as nots;

    ghost from_gives = { λ _ n. n ≡ nots.Memory };

    fn from(_: OutOfMemory) -> NotCertificate {
        NotCertificate::Memory
    }
}
