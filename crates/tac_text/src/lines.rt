//! What the lines of a body say, and the places that they are at.

use std::marker::Model;
use tac_syntax::{LoopList, Stmt};

/// What a line of a body says.
#[derive(Debug, Drop)]
pub enum BodyLine {
    /// A statement of one line.
    Plain(Stmt),
    /// The first line of an `if`.
    If { on: u32 },
    /// The first line of a `repeat`.
    Repeat { count: u32 },
    /// The first line of an `each`.
    Each { name: u32, list: LoopList },
    /// The line that separates the bodies of an `if`.
    Else,
    /// The line that ends a block.
    End,
}

/// The place of a line: how many blocks are open, how many of them are `each`, whether the innermost is the first body
/// of an `if`, and whether registers may name fields.
#[derive(Clone, Copy, Debug, PartialEq, Eq)]
pub struct Place {
    pub blocks: u32,
    pub lists: u32,
    pub may_part: bool,
    pub registers: bool,
}

impl Model for Place {
    ghost use Rattle.tac_text.specs.StatementLines.{LinePlace};

    ghost Value = { LinePlace };

    ghost view = { λ p. record { blocks = p.blocks; lists = p.lists; may_part = p.may_part; registers = p.registers } };

    ghost inverse = { λ p. record { blocks = p.blocks; lists = p.lists; may_part = p.may_part; registers = p.registers } };
}
