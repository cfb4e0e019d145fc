//! The rules that a valid function keeps.

ghost use Rattle.std.specs.Prelude.{◌≡◌};
ghost use Rattle.tac_syntax.specs.Rules.{code_of_rule};

/// A loop of a valid function is inside fewer than this many others.
pub const MAX_LOOPS: u32 = 3;

/// A rule of valid functions, named for what breaks it.
#[derive(Clone, Copy, Debug, PartialEq, Eq)]
pub enum Rule {
    /// V1: a register that doesn't exist. Values have `v0` to `v31`, records `r0` to `r7`.
    Registers,
    /// V2: a statement, record, list or loop's name that this kind of function, or this place in it, doesn't have.
    Operands,
    /// V3: a field that records don't have.
    Fields,
    /// V4: a key that the function doesn't have.
    KeyPositions,
    /// V5: an `if` inside eight others.
    NestedIfs,
    /// V6: a `repeat` or `each` inside three others of either kind.
    NestedLoops,
    /// V7: a statement after the first 1,000.
    Statements,
    /// V8: a `repeat` of zero turns, or one whose turns, multiplied by those of the `repeat` around it, exceed 100,000.
    Repeats,
}

impl Rule {
    /// The number after the letter V in messages to users.
    pub fn code(self) -> u32
        ensures { result ≡ code_of_rule self }
    {
        match self {
            Rule::Registers => 1,
            Rule::Operands => 2,
            Rule::Fields => 3,
            Rule::KeyPositions => 4,
            Rule::NestedIfs => 5,
            Rule::NestedLoops => 6,
            Rule::Statements => 7,
            Rule::Repeats => 8,
        }
    }
}
