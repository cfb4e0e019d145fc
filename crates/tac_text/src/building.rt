//! A body built from its lines, one after another.

ghost use Rattle.std.specs.Bool.{OnFalse, OnTrue};
ghost use Rattle.std.specs.Prelude.{◌≡◌, ◌≤◌, ◌<◌, ◌∷◌, [], length, reverse, IfOk, true};
ghost use Rattle.tac_syntax.specs.Code.{Line, stop, otherwise, close};
ghost use Rattle.tac_syntax.specs.Trees.{only};
ghost use Rattle.tac_text.specs.Places.{IsBuilt, build_start, built, closed, finished, with_statement, lists_in, may_part, place_of};
ghost use Rattle.tac_syntax.specs.Limits.{nesting_limit};
ghost use Rattle.tac_text.specs.StatementAnswers.{said};

use crate::lines::{BodyLine, Place};
use pact_record::OutOfMemory;
use std::alloc::Global;
use std::marker::Model;
use std::mem;
use tac_syntax::{Body, LoopList, NotPushed, Stmt};

/// An open block, with the statements before it in the body around it.
#[derive(Debug, Drop)]
pub enum Block {
    If {
        on: u32,
        before: Body,
    },
    Else {
        on: u32,
        first: Body,
        before: Body,
    },
    Repeat {
        count: u32,
        before: Body,
    },
    Each {
        name: u32,
        list: LoopList,
        before: Body,
    },
}

// How many of the blocks are `each`.
fn lists_in(blocks: &[Block]) -> u32
    requires { length blocks.now ≤ nesting_limit }
    ensures { result ≡ lists_in (reverse blocks.now) }
{
    let mut lists = 0;
    for block in blocks {
        if let Block::Each { .. } = block {
            lists += 1;
        }
    }
    lists
}

// Whether the innermost block is the first body of an `if`.
fn may_part(blocks: &[Block]) -> bool
    ensures { result ≡ may_part (reverse blocks.now) }
{
    match blocks.split_last() {
        Some((Block::If { .. }, _)) => true,
        Some((Block::Else { .. } | Block::Repeat { .. } | Block::Each { .. }, _)) => false,
        None => false,
    }
}

/// A body as read so far.
#[derive(Debug, Drop)]
pub struct Builder {
    // the innermost last
    blocks: Vec<Block>,
    body: Body,
}

impl Model for Builder {
    ghost use Rattle.std.specs.Prelude.{reverse};
    ghost use Rattle.tac_text.specs.Places.{Build};
    ghost use Rattle.tac_text.specs.BuildCode.{coded_build};

    ghost Value = { Build };

    ghost coded = { coded_build };

    ghost view = { λ b. record { blocks = reverse b.blocks.items; body = b.body } };
}

impl Builder {
    pub fn new(alloc: Global) -> Builder
        ensures { result ≡ build_start }
    {
        Builder {
            blocks: Vec::new(alloc),
            body: Body::new(alloc),
        }
    }

    /// The place of the next line. `registers` says whether registers may name fields there.
    pub fn place(&self, registers: bool) -> Place
        requires { length self.now.blocks ≤ nesting_limit }
        ensures { result ≡ place_of registers self.now }
    {
        Place {
            blocks: self.blocks.len() as u32,
            lists: lists_in(&self.blocks),
            may_part: may_part(&self.blocks),
            registers,
        }
    }

    /// Whether no block is open.
    pub fn is_outside(&self) -> bool
        ensures outside { OnTrue result (self.now.blocks ≡ []) }
        ensures inside { OnFalse result (0 < length self.now.blocks) }
    {
        self.blocks.is_empty()
    }

    fn push(&mut self, stmt: Stmt) -> Result<bool, OutOfMemory>
        ensures { IfOk result (λ taken. IsBuilt (with_statement self.old.blocks self.old.body (only stmt)) taken self.new) }
    {
        match self.body.push(stmt) {
            Ok(()) => Ok(true),
            Err(NotPushed::Deep { .. }) => Ok(false),
            Err(NotPushed::Memory { .. }) => Err(OutOfMemory),
        }
    }

    // Takes the body as read so far, and leaves an empty one.
    fn take_body(&mut self, alloc: Global) -> Body
        ensures body { result ≡ self.old.body }
        ensures rest { self.new ≡ record { blocks = self.old.blocks; body = stop } }
    {
        mem::replace(&mut self.body, Body::new(alloc))
    }

    fn open(&mut self, block: Block) -> Result<bool, OutOfMemory>
        ensures { IfOk result (λ taken. (taken ≡ true) × (self.new ≡ record { blocks = block ∷ self.old.blocks; body = self.old.body })) }
    {
        self.blocks.push(block)?;
        Ok(true)
    }

    fn part(&mut self, alloc: Global) -> Result<bool, OutOfMemory>
        ensures { IfOk result (λ taken. IsBuilt (built self.old otherwise) taken self.new) }
    {
        match self.blocks.pop() {
            Some(Block::If { on, before }) => {
                let first = self.take_body(alloc);
                self.open(Block::Else { on, first, before })
            }
            _ => Ok(false),
        }
    }

    // Ends the innermost block with its last body.
    fn close_block(&mut self, alloc: Global, block: Block, last: Body) -> Result<bool, OutOfMemory>
        ensures { IfOk result (λ taken. IsBuilt (closed (block ∷ self.old.blocks) last) taken self.new) }
    {
        match block {
            Block::If { on, before } => {
                self.body = before;
                self.push(Stmt::If {
                    on,
                    body: last,
                    other: Body::new(alloc),
                })
            }
            Block::Else { on, first, before } => {
                self.body = before;
                self.push(Stmt::If {
                    on,
                    body: first,
                    other: last,
                })
            }
            Block::Repeat { count, before } => {
                self.body = before;
                self.push(Stmt::Repeat { count, body: last })
            }
            Block::Each { name, list, before } => {
                self.body = before;
                self.push(Stmt::Each {
                    name,
                    list,
                    body: last,
                })
            }
        }
    }

    fn close(&mut self, alloc: Global) -> Result<bool, OutOfMemory>
        ensures { IfOk result (λ taken. IsBuilt (built self.old close) taken self.new) }
    {
        match self.blocks.pop() {
            Some(block) => {
                let last = self.take_body(alloc);
                self.close_block(alloc, block, last)
            }
            None => Ok(false),
        }
    }

    /// Takes one more line. Returns false if the line isn't allowed here; what was built so far is then unspecified.
    pub fn step(&mut self, alloc: Global, line: BodyLine) -> Result<bool, OutOfMemory>
        ensures { IfOk result (λ taken. (l : Line) → said line ≡ Some l → IsBuilt (built self.old l) taken self.new) }
    {
        match line {
            BodyLine::Plain(stmt) => self.push(stmt),
            BodyLine::If { on } => {
                let before = self.take_body(alloc);
                self.open(Block::If { on, before })
            }
            BodyLine::Repeat { count } => {
                let before = self.take_body(alloc);
                self.open(Block::Repeat { count, before })
            }
            BodyLine::Each { name, list } => {
                let before = self.take_body(alloc);
                self.open(Block::Each { name, list, before })
            }
            BodyLine::Else => self.part(alloc),
            BodyLine::End => self.close(alloc),
        }
    }

    /// The body, if each block was ended.
    pub fn into_body(self) -> Option<Body>
        ensures { result ≡ finished self }
    {
        if self.blocks.is_empty() {
            Some(self.body)
        } else {
            None
        }
    }
}
