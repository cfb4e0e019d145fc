//! The command that the words ask for, or why they are refused.

/// `--local`: how an instance finds the records of a key.
#[derive(Clone, Copy, Debug, PartialEq, Eq)]
pub enum LocalStrategy {
    /// By a hash table.
    Hash,
    /// By sorting and binary search.
    Sort,
}

/// How a plan is chosen and run.
#[derive(Clone, Copy, Debug, PartialEq, Eq)]
pub struct Options {
    /// `--workers`: the number of workers for which a plan is chosen, and on which it runs.
    pub workers: u32,
    /// `--plans`: the most plans that are listed. One of them is chosen.
    pub plans: u32,
    /// `--batch`: the most records that go along a pipe at once.
    pub batch: u32,
    /// `--depth`: the most notes (batches and end marks) that a pipe holds.
    pub depth: u32,
    /// `--local`: how an instance finds the records of a key.
    pub local: LocalStrategy,
}

/// How the chosen plan is rewritten before it runs.
#[derive(Clone, Copy, Debug, PartialEq, Eq)]
pub struct Rewrites {
    /// `--combine`: whether each worker reduces its own share of a group before it is shipped, if the function of a
    /// Reduce allows it.
    pub combine: bool,
    /// `--prune`: whether fields that nothing above reads are dropped before records are shipped.
    pub prune: bool,
}

/// A command with its operands and options.
///
/// The defaults are 4 workers (1 to 16), at most 256 plans (1 to 1,000), batches of 64 records (1 to 1,024) and pipes
/// of 4 notes (1 to 64). By default the records of a key are found by a hash table (`hash`, not `sort`), and nothing is
/// combined or dropped. A seed is at most 2,147,483,646. There are at most 1,000,000 rows, and 1 to 1,000 rounds.
#[derive(Clone, Copy, Debug, PartialEq, Eq)]
pub enum Command<'a> {
    /// `run PROGRAM` runs the program in the file with that name, and writes its rows.
    Run {
        program: &'a str,
        options: Options,
        rewrites: Rewrites,
        /// `--counts`: whether to report also how many records each operator takes and emits.
        counts: bool,
    },
    /// `plan PROGRAM` writes the plan that is chosen for the program.
    Plan {
        program: &'a str,
        workers: u32,
        plans: u32,
    },
    /// `cert PROGRAM` writes the certificate that shows how that plan is reached.
    Cert {
        program: &'a str,
        workers: u32,
        plans: u32,
    },
    /// `check PROGRAM CERT` reports whether the file CERT has a certificate for the program.
    Check {
        program: &'a str,
        certificate: &'a str,
    },
    /// `sets PROGRAM` writes the findings of the analysis for each operator of the program.
    Sets {
        program: &'a str,
    },
    /// `gen SEED ROWS` writes ROWS rows, which the seed determines.
    Gen {
        seed: u32,
        rows: u32,
    },
    /// `drill SEED ROWS` runs a built-in program on these rows, and writes a summary of its output.
    Drill {
        seed: u32,
        rows: u32,
        options: Options,
        rewrites: Rewrites,
    },
    /// `iterate PROGRAM SOURCE ROUNDS` runs the program round by round, and writes the rows of the last round. From the
    /// second round on, the source with the name SOURCE has the rows of the round before, cut to its columns, instead
    /// of its own. SOURCE is any text.
    Iterate {
        program: &'a str,
        source: &'a str,
        rounds: u32,
        options: Options,
        /// `--stable`: whether to stop after the first round that returns the rows that the source had, in any order,
        /// and to report the number of rounds.
        stable: bool,
    },
}

/// The command that the first word names.
#[derive(Clone, Copy)]
pub(crate) enum Kind {
    Run,
    Plan,
    Cert,
    Check,
    Sets,
    Gen,
    Drill,
    Iterate,
}

/// Why words are refused.
#[derive(Clone, Copy, Debug, PartialEq, Eq)]
pub enum Refused {
    /// There is no word, the first isn't a command, or that command doesn't take the others.
    Usage,
    /// Out of memory; the words may be right or wrong.
    OutOfMemory,
}
