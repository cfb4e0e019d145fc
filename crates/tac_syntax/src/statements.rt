//! Statements, and the bodies that they make.

ghost use Rattle.std.specs.Prelude.{◌≡◌, ◌≤◌, ◌<◌, ◌+◌, max, [], ◌∷◌, IfSome, IfOk, IfErr, OnOk, OnErr};
ghost use Rattle.tac_syntax.specs.Code.{stop, joined, nesting, count_of, length_of};
ghost use Rattle.tac_syntax.specs.Trees.{before, only, code_of, skip};
ghost use Rattle.tac_syntax.specs.Limits.{nesting_limit};
ghost use Rattle.tac_syntax.specs.Pushing.{IsNotPushed};

use pact_record::{Op1, Op2, OutOfMemory, Text};
use std::alloc::Global;
use std::marker::Model;

/// The value registers are numbered below this.
pub const VALUE_REGISTERS: u32 = 32;

/// The record registers are numbered below this.
pub const RECORD_REGISTERS: u32 = 8;

/// The greatest depth to which a body's blocks are nested.
pub const MAX_NESTING: u32 = 64;

/// A record that a statement reads.
#[derive(Clone, Copy, Debug, PartialEq, Eq)]
pub enum Rec {
    /// A record register.
    Reg(u32),
    /// The current record of an enclosing `each`. The outermost `each` has the name 1.
    Loop(u32),
    /// The record that a Map's function is called for.
    Input,
    /// The left record of a Match or Cross.
    Left,
    /// The right record of a Match or Cross.
    Right,
    /// A record with, in each field, the left record's value if it isn't Null, and otherwise the right record's.
    Join,
    /// The first record of a Reduce's group.
    First,
}

/// The records that an `each` goes through.
#[derive(Clone, Copy, Debug, PartialEq, Eq)]
pub enum LoopList {
    /// The group of a Reduce.
    Group,
    /// The left group of a CoGroup.
    Left,
    /// The right group of a CoGroup.
    Right,
}

/// A statement. Registers are given by their numbers.
#[derive(Debug, Drop)]
#[cycle(tree)]
pub enum Stmt {
    /// The value register becomes that number.
    Int {
        to: u32,
        value: i64,
    },
    /// The value register becomes that text.
    Text {
        to: u32,
        value: Text,
    },
    /// The value register becomes Null.
    Null {
        to: u32,
    },
    /// The value register becomes the other one's value.
    Mov {
        to: u32,
        from: u32,
    },
    /// The value register becomes that field of the record.
    Get {
        to: u32,
        from: Rec,
        field: u32,
    },
    /// The value register becomes the field of the record whose number is in register `at`, or Null if `at` holds no
    /// field's number.
    GetAt {
        to: u32,
        from: Rec,
        at: u32,
    },
    /// The value register becomes the value at that position of the key.
    Key {
        to: u32,
        at: u32,
    },
    /// The value register becomes the operation's result.
    One {
        to: u32,
        op: Op1,
        a: u32,
    },
    /// The value register becomes the operation's result.
    Two {
        to: u32,
        op: Op2,
        a: u32,
        b: u32,
    },
    /// The record register becomes empty: Null in each field.
    New {
        to: u32,
    },
    /// The record register becomes a copy of the record.
    Copy {
        to: u32,
        from: Rec,
    },
    /// That field of the register's record becomes the value register's value.
    Set {
        to: u32,
        field: u32,
        value: u32,
    },
    /// The field of the register's record whose number is in value register `at` becomes the value of register `value`.
    /// Nothing changes if `at` holds no field's number.
    SetAt {
        to: u32,
        at: u32,
        value: u32,
    },
    /// A copy of the register's record goes to the output.
    Emit {
        from: u32,
    },
    /// Runs `body` if the value register holds a true value, and `other` if not.
    If {
        on: u32,
        body: Body,
        other: Body,
    },
    /// Runs the body `count` times.
    Repeat {
        count: u32,
        body: Body,
    },
    /// Runs the body once for each record of the list, in its order.
    Each {
        name: u32,
        list: LoopList,
        body: Body,
    },
}

/// Why a statement wasn't appended to a body. The statement is handed back.
#[derive(Debug, Drop)]
pub enum NotPushed {
    /// The body would be nested more than `MAX_NESTING` blocks deep.
    Deep { stmt: Stmt },
    /// Out of memory, or no number can hold the new number of statements.
    Memory { stmt: Stmt },
}

/// Statements in the order of their text.
#[derive(Debug, Drop)]
#[cycle(tree)]
pub struct Body {
    stmts: Vec<Stmt>,
    // the depth to which they are nested, and their number including those in blocks
    depth: u32,
    size: u32,
}

impl Model for Body {
    ghost use Rattle.std.specs.Prelude.{◌≡◌, ◌≤◌};
    ghost use Rattle.tac_syntax.specs.Code.{Code, nesting, count_of};
    ghost use Rattle.tac_syntax.specs.Coding.{coded_code, tall};

    ghost Value = { Code };

    ghost coded = { coded_code };

    ghost use Rattle.tac_syntax.specs.Trees.{code_of};
    ghost use Rattle.tac_syntax.specs.Limits.{nesting_limit};

    ghost view = { λ b. code_of b.stmts.items };

    ghost invariant = { λ b. (b.depth ≡ nesting (code_of b.stmts.items)) × (b.depth ≤ nesting_limit) × (b.size ≡ count_of (code_of b.stmts.items)) };

    ghost size = { tall };

    ghost use Rattle.std.proofs.Common.{arith};
    ghost use Rattle.tac_syntax.specs.Falls.{most_le-tall};

    ghost size_decreases = { λ b h. omega (arith, most_le-tall b.stmts.items) };
}

impl Body {
    pub fn new(alloc: Global) -> Body
        ensures { result ≡ stop }
    {
        Body {
            stmts: Vec::new(alloc),
            depth: 0,
            size: 0,
        }
    }

    /// Appends a statement.
    pub fn push(&mut self, stmt: Stmt) -> Result<(), NotPushed>
        ensures ok { OnOk result (self.new ≡ joined self.old (only stmt)) }
        ensures fits { OnOk result (nesting (only stmt) ≤ nesting_limit) }
        ensures err { OnErr result (self.new ≡ self.old) }
        ensures cause { IfErr result (λ e. IsNotPushed stmt e) }
    {
        let depth = stmt.depth();
        if depth > MAX_NESTING {
            return Err(NotPushed::Deep { stmt });
        }
        let Some(size) = self.size_with(&stmt) else {
            return Err(NotPushed::Memory { stmt });
        };
        match self.stmts.push(stmt) {
            Ok(()) => {
                self.depth = self.depth.max(depth);
                self.size = size;
                Ok(())
            }
            Err(refused) => Err(NotPushed::Memory {
                stmt: refused.value,
            }),
        }
    }

    /// Appends a statement that isn't nested too deeply. The only error is out of memory, and the statement is lost then.
    pub fn append(&mut self, stmt: Stmt) -> Result<(), OutOfMemory>
        requires { nesting (only stmt) ≤ nesting_limit }
        ensures { OnOk result (self.new ≡ joined self.old (only stmt)) }
    {
        match self.push(stmt) {
            Ok(()) => Ok(()),
            Err(NotPushed::Memory { .. }) => Err(OutOfMemory),
            Err(NotPushed::Deep { .. }) => unreachable!(),
        }
    }

    // How many statements there are with this one more, if a number can hold it.
    fn size_with(&self, stmt: &Stmt) -> Option<u32>
        ensures { IfSome result (λ n. n ≡ count_of self.now + count_of (only stmt.now)) }
    {
        self.size.checked_add(stmt.size()?)
    }

    /// How many statements are outside all blocks.
    pub fn len(&self) -> usize
        ensures { result ≡ length_of self.now }
    {
        self.stmts.len()
    }

    /// A statement by its place among those outside all blocks.
    pub fn at(&self, n: usize) -> &Stmt
        requires { n < length_of self.now }
        ensures { skip n self.now ≡ before result.now (skip (n + 1) self.now) }
    {
        &self.stmts[n]
    }

    /// The statements outside all blocks.
    pub fn stmts(&self) -> &[Stmt]
        ensures { code_of result.now ≡ self.now }
    {
        &self.stmts
    }

    /// How many blocks are open at the deepest place.
    pub fn depth(&self) -> u32
        ensures depth { result ≡ nesting self.now }
        ensures limit { nesting self.now ≤ nesting_limit }
    {
        self.depth
    }

    /// How many statements there are, including those in blocks.
    pub fn size(&self) -> u32
        ensures { result ≡ count_of self.now }
    {
        self.size
    }

    #[cycle(tree)]
    pub fn copy(&self, alloc: Global) -> Result<Body, OutOfMemory>
        ensures { IfOk result (λ b. b ≡ self.now) }
    {
        let mut stmts = Vec::new(alloc);
        for stmt in &self.stmts {
            stmts.push(stmt.copy(alloc)?)?;
        }
        Ok(Body {
            stmts,
            depth: self.depth,
            size: self.size,
        })
    }
}

impl Stmt {
    // The depth of a body with only this statement.
    fn depth(&self) -> u32
        ensures { result ≡ nesting (only self.now) }
    {
        match self {
            Stmt::If { body, other, .. } => 1 + body.depth().max(other.depth()),
            Stmt::Repeat { body, .. } => 1 + body.depth(),
            Stmt::Each { body, .. } => 1 + body.depth(),
            _ => 0,
        }
    }

    // How many statements a body with only this statement has, if a number can hold it.
    fn size(&self) -> Option<u32>
        ensures { IfSome result (λ n. n ≡ count_of (only self.now)) }
    {
        match self {
            Stmt::If { body, other, .. } => body.size().checked_add(other.size())?.checked_add(1),
            Stmt::Repeat { body, .. } => body.size().checked_add(1),
            Stmt::Each { body, .. } => body.size().checked_add(1),
            _ => Some(1),
        }
    }

    #[cycle(tree)]
    pub fn copy(&self, alloc: Global) -> Result<Stmt, OutOfMemory>
        ensures { IfOk result (λ s. s ≡ self.now) }
    {
        Ok(match self {
            Stmt::Int { to, value } => Stmt::Int {
                to: *to,
                value: *value,
            },
            Stmt::Text { to, value } => Stmt::Text {
                to: *to,
                value: value.copy(alloc)?,
            },
            Stmt::Null { to } => Stmt::Null { to: *to },
            Stmt::Mov { to, from } => Stmt::Mov {
                to: *to,
                from: *from,
            },
            Stmt::Get { to, from, field } => Stmt::Get {
                to: *to,
                from: *from,
                field: *field,
            },
            Stmt::GetAt { to, from, at } => Stmt::GetAt {
                to: *to,
                from: *from,
                at: *at,
            },
            Stmt::Key { to, at } => Stmt::Key { to: *to, at: *at },
            Stmt::One { to, op, a } => Stmt::One {
                to: *to,
                op: *op,
                a: *a,
            },
            Stmt::Two { to, op, a, b } => Stmt::Two {
                to: *to,
                op: *op,
                a: *a,
                b: *b,
            },
            Stmt::New { to } => Stmt::New { to: *to },
            Stmt::Copy { to, from } => Stmt::Copy {
                to: *to,
                from: *from,
            },
            Stmt::Set { to, field, value } => Stmt::Set {
                to: *to,
                field: *field,
                value: *value,
            },
            Stmt::SetAt { to, at, value } => Stmt::SetAt {
                to: *to,
                at: *at,
                value: *value,
            },
            Stmt::Emit { from } => Stmt::Emit { from: *from },
            Stmt::If { on, body, other } => Stmt::If {
                on: *on,
                body: body.copy(alloc)?,
                other: other.copy(alloc)?,
            },
            Stmt::Repeat { count, body } => Stmt::Repeat {
                count: *count,
                body: body.copy(alloc)?,
            },
            Stmt::Each { name, list, body } => Stmt::Each {
                name: *name,
                list: *list,
                body: body.copy(alloc)?,
            },
        })
    }
}
