//! How many records a call emits, at least and at most.

ghost use Rattle.std.specs.Prelude.{◌≡◌, ◌+◌, ◌*◌, ◌==◌, if◌then◌else◌};
ghost use Rattle.tac_syntax.specs.EmitBounds.{AreBounds, at_least_one, capped, least_emits, many, most_emits};
ghost use Rattle.tac_syntax.specs.Trees.{only};

use tac_syntax::{Body, LoopList, Stmt, Valid};

/// All numbers of records stop here: as the greatest number of a call it says "many".
pub const MANY: u32 = 1_000_000;

#[derive(Clone, Copy)]
struct Emits {
    least: u32,
    most: u32,
}

/// The least and the greatest number of records that a call emits. The greatest is no bound where it is `MANY`.
pub fn bounds(f: &Valid) -> (u32, u32)
    ensures least { result.0 ≡ least_emits f.now.function.body }
    ensures most { result.1 ≡ most_emits f.now.function.body }
    ensures calls { AreBounds f.now.function.kind f.now.fields f.now.function.body result.0 result.1 }
{
    let found = emits_in(&f.function().body);
    (found.least, found.most)
}

#[cycle(emits)]
fn emits_by(stmt: &Stmt) -> Emits
    ensures least { result.least ≡ least_emits (only stmt.now) }
    ensures most { result.most ≡ most_emits (only stmt.now) }
{
    match stmt {
        Stmt::Emit { .. } => Emits { least: 1, most: 1 },
        Stmt::If { body, other, .. } => {
            let one = emits_in(body);
            let two = emits_in(other);
            Emits {
                least: one.least.min(two.least),
                most: one.most.max(two.most),
            }
        }
        Stmt::Repeat { count, body } => {
            let turn = emits_in(body);
            Emits {
                least: times(*count, turn.least),
                most: times(*count, turn.most),
            }
        }
        Stmt::Each { list, body, .. } => {
            let turn = emits_in(body);
            Emits {
                least: each_least(*list, turn.least),
                most: each_most(turn.most),
            }
        }
        _ => Emits { least: 0, most: 0 },
    }
}

#[cycle(emits)]
fn emits_in(body: &Body) -> Emits
    ensures least { result.least ≡ least_emits body.now }
    ensures most { result.most ≡ most_emits body.now }
{
    let mut found = Emits { least: 0, most: 0 };
    for stmt in body.stmts() {
        let next = emits_by(stmt);
        found = Emits {
            least: plus(found.least, next.least),
            most: plus(found.most, next.most),
        };
    }
    found
}

fn plus(a: u32, b: u32) -> u32
    ensures { result ≡ capped (a + b) }
{
    a.saturating_add(b).min(MANY)
}

fn times(a: u32, b: u32) -> u32
    ensures { result ≡ capped (a * b) }
{
    a.saturating_mul(b).min(MANY)
}

// The group of a Reduce has a record; those of a CoGroup may have none.
fn each_least(list: LoopList, turn: u32) -> u32
    ensures { result ≡ at_least_one list turn }
{
    match list {
        LoopList::Group => turn,
        LoopList::Left | LoopList::Right => 0,
    }
}

fn each_most(turn: u32) -> u32
    ensures { result ≡ (if turn == 0 then 0 else many) }
{
    if turn == 0 { 0 } else { MANY }
}
