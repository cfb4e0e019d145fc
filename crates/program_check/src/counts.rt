//! How many declarations there are of each sort.

ghost use Rattle.std.specs.Prelude.{◌≡◌, ◌+◌, ◌<◌, ◌^◌, ◌∷◌, []};
ghost use Rattle.program_check.specs.ProgramRules.{is_function, is_operator, is_pair, times_so};
ghost use Rattle.program_check.specs.RuleTests.{is_past_limit};

use tac_syntax::{Decl, OpKind};

// The most functions that a program can have, the most operators, and the most operators that are a Match or a Cross.
const MAX_FUNCTIONS: usize = 64;

const MAX_OPERATORS: usize = 16;

const MAX_PAIRS: usize = 8;

#[derive(Clone, Copy)]
pub struct Counts {
    pub functions: usize,
    pub operators: usize,
    pub pairs: usize,
}

fn is_pair(decl: &Decl) -> bool
    ensures { result ≡ is_pair decl.now }
{
    match decl {
        Decl::Op { kind, .. } => matches!(*kind, OpKind::Match | OpKind::Cross),
        _ => false,
    }
}

impl Counts {
    pub fn none() -> Counts
        ensures { result ≡ record { functions = 0; operators = 0; pairs = 0 } }
    {
        Counts {
            functions: 0,
            operators: 0,
            pairs: 0,
        }
    }

    /// The counts with one more declaration.
    pub fn with(self, decl: &Decl) -> Counts
        requires functions { self.functions + 1 < 2 ^ 64 }
        requires operators { self.operators + 1 < 2 ^ 64 }
        requires pairs { self.pairs + 1 < 2 ^ 64 }
        ensures functions { result.functions ≡ self.functions + times_so is_function (decl.now ∷ []) }
        ensures operators { result.operators ≡ self.operators + times_so is_operator (decl.now ∷ []) }
        ensures pairs { result.pairs ≡ self.pairs + times_so is_pair (decl.now ∷ []) }
    {
        Counts {
            functions: self.functions + usize::from(matches!(decl, Decl::Function { .. })),
            operators: self.operators + usize::from(matches!(decl, Decl::Op { .. })),
            pairs: self.pairs + usize::from(is_pair(decl)),
        }
    }

    /// Whether the declaration would exceed a limit.
    pub fn leave_no_room(self, decl: &Decl) -> bool
        ensures { result ≡ is_past_limit self decl.now }
    {
        match decl {
            Decl::Function { .. } => self.functions >= MAX_FUNCTIONS,
            Decl::Op { .. } => {
                self.operators >= MAX_OPERATORS || is_pair(decl) && self.pairs >= MAX_PAIRS
            }
            _ => false,
        }
    }
}
