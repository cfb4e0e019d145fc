//! The commands of `pact` with their operands and options, and what each of these takes.

/// A command: its name, its operands and its options, and how its words are written.
#[derive(Clone, Copy)]
pub struct CommandRow {
    pub name: &'static str,
    pub operands: &'static [Operand],
    pub options: &'static [Opt],
    pub line: &'static str,
}

/// An operand of a command.
#[derive(Clone, Copy, Debug, PartialEq, Eq)]
pub enum Operand {
    Program,
    Certificate,
    Source,
    Seed,
    Rows,
    Rounds,
}

/// An option of a command.
#[derive(Clone, Copy, Debug, PartialEq, Eq)]
pub enum Opt {
    Workers,
    Plans,
    Batch,
    Depth,
    Local,
    Prune,
    Combine,
    Counts,
    Stable,
}

/// What an operand or option takes.
#[derive(Clone, Copy, Debug, PartialEq, Eq)]
pub enum Takes {
    /// Any word.
    Anything,
    /// A number from the first to the second one.
    Range(u64, u64),
    /// `hash` or `sort`.
    Way,
    /// No value.
    Nothing,
}

const LIMITS: &[Opt] = &[Opt::Workers, Opt::Plans];

const RUNNING: &[Opt] = &[
    Opt::Workers,
    Opt::Plans,
    Opt::Batch,
    Opt::Depth,
    Opt::Local,
    Opt::Prune,
    Opt::Combine,
];

const COUNTED: &[Opt] = &[
    Opt::Workers,
    Opt::Plans,
    Opt::Batch,
    Opt::Depth,
    Opt::Local,
    Opt::Prune,
    Opt::Combine,
    Opt::Counts,
];

const REPEATED: &[Opt] = &[
    Opt::Workers,
    Opt::Plans,
    Opt::Batch,
    Opt::Depth,
    Opt::Local,
    Opt::Stable,
];

/// The eight commands.
pub const COMMANDS: [CommandRow; 8] = [
    CommandRow {
        name: "run",
        operands: &[Operand::Program],
        options: COUNTED,
        line: "run PROGRAM [--workers N] [--plans N] [--batch N] [--depth N] [--local WAY] [--prune] [--combine] [--counts]",
    },
    CommandRow {
        name: "plan",
        operands: &[Operand::Program],
        options: LIMITS,
        line: "plan PROGRAM [--workers N] [--plans N]",
    },
    CommandRow {
        name: "cert",
        operands: &[Operand::Program],
        options: LIMITS,
        line: "cert PROGRAM [--workers N] [--plans N]",
    },
    CommandRow {
        name: "check",
        operands: &[Operand::Program, Operand::Certificate],
        options: &[],
        line: "check PROGRAM CERT",
    },
    CommandRow {
        name: "sets",
        operands: &[Operand::Program],
        options: &[],
        line: "sets PROGRAM",
    },
    CommandRow {
        name: "gen",
        operands: &[Operand::Seed, Operand::Rows],
        options: &[],
        line: "gen SEED ROWS",
    },
    CommandRow {
        name: "drill",
        operands: &[Operand::Seed, Operand::Rows],
        options: RUNNING,
        line: "drill SEED ROWS [--workers N] [--plans N] [--batch N] [--depth N] [--local WAY] [--prune] [--combine]",
    },
    CommandRow {
        name: "iterate",
        operands: &[Operand::Program, Operand::Source, Operand::Rounds],
        options: REPEATED,
        line: "iterate PROGRAM SOURCE ROUNDS [--workers N] [--plans N] [--batch N] [--depth N] [--local WAY] [--stable]",
    },
];

/// The options of all commands.
pub const OPTIONS: [Opt; 9] = [
    Opt::Workers,
    Opt::Plans,
    Opt::Batch,
    Opt::Depth,
    Opt::Local,
    Opt::Prune,
    Opt::Combine,
    Opt::Counts,
    Opt::Stable,
];

/// The command of that name.
pub fn command_named(name: &str) -> Option<CommandRow> {
    for row in &COMMANDS {
        if row.name == name {
            return Some(*row);
        }
    }
    None
}

impl Operand {
    /// The operand's name in a command's line.
    pub fn name(self) -> &'static str {
        match self {
            Operand::Program => "PROGRAM",
            Operand::Certificate => "CERT",
            Operand::Source => "SOURCE",
            Operand::Seed => "SEED",
            Operand::Rows => "ROWS",
            Operand::Rounds => "ROUNDS",
        }
    }

    /// What the operand is.
    pub fn meaning(self) -> &'static str {
        match self {
            Operand::Program => "the name of the program's file",
            Operand::Certificate => "the name of the certificate's file",
            Operand::Source => "the name of a source of the program",
            Operand::Seed => "a whole number without commas, 0 to 2147483646",
            Operand::Rows => "a whole number without commas, 0 to 1000000",
            Operand::Rounds => "a whole number without commas, 1 to 1000",
        }
    }

    pub fn takes(self) -> Takes {
        match self {
            Operand::Program | Operand::Certificate | Operand::Source => Takes::Anything,
            Operand::Seed => Takes::Range(0, 2_147_483_646),
            Operand::Rows => Takes::Range(0, 1_000_000),
            Operand::Rounds => Takes::Range(1, 1000),
        }
    }

    /// A word that the operand takes.
    pub fn sample(self) -> &'static str {
        match self.takes() {
            Takes::Anything => "m.pact",
            Takes::Range(..) | Takes::Way | Takes::Nothing => "1",
        }
    }
}

impl Opt {
    /// The option's word.
    pub fn word(self) -> &'static str {
        match self {
            Opt::Workers => "--workers",
            Opt::Plans => "--plans",
            Opt::Batch => "--batch",
            Opt::Depth => "--depth",
            Opt::Local => "--local",
            Opt::Prune => "--prune",
            Opt::Combine => "--combine",
            Opt::Counts => "--counts",
            Opt::Stable => "--stable",
        }
    }

    pub fn takes(self) -> Takes {
        match self {
            Opt::Workers => Takes::Range(1, 16),
            Opt::Plans => Takes::Range(1, 1000),
            Opt::Batch => Takes::Range(1, 1024),
            Opt::Depth => Takes::Range(1, 64),
            Opt::Local => Takes::Way,
            Opt::Prune | Opt::Combine | Opt::Counts | Opt::Stable => Takes::Nothing,
        }
    }

    /// The option and its values, as the help shows them.
    pub fn line(self) -> &'static str {
        match self {
            Opt::Workers => "--workers N: 1 to 16, by default 4",
            Opt::Plans => "--plans N: 1 to 1,000, by default 256",
            Opt::Batch => "--batch N: 1 to 1,024, by default 64",
            Opt::Depth => "--depth N: 1 to 64, by default 4",
            Opt::Local => "--local WAY: hash or sort, by default hash",
            Opt::Prune => "--prune: no value",
            Opt::Combine => "--combine: no value",
            Opt::Counts => "--counts: no value",
            Opt::Stable => "--stable: no value",
        }
    }

    /// A value that the option takes.
    pub fn sample(self) -> &'static str {
        match self.takes() {
            Takes::Way => "hash",
            Takes::Anything | Takes::Range(..) | Takes::Nothing => "1",
        }
    }
}

/// The option of that word.
pub fn option_named(word: &str) -> Option<Opt> {
    for option in &OPTIONS {
        if option.word() == word {
            return Some(*option);
        }
    }
    None
}

impl CommandRow {
    /// Whether the command has the option.
    pub fn has(self, option: Opt) -> bool {
        for own in self.options {
            if *own == option {
                return true;
            }
        }
        false
    }
}
