//! The first statement of a body that breaks a rule.

ghost use Rattle.std.specs.Prelude.{◌≡◌, ◌+◌, ◌<◌, ◌^◌};
ghost use Rattle.tac_syntax.specs.Code.{count_of};
ghost use Rattle.tac_syntax.specs.Trees.{only};
ghost use Rattle.tac_syntax.specs.Valid.{first_break};
ghost use Rattle.tac_validate.specs.Stands.{IsAround, place_of};
ghost use Rattle.tac_validate.specs.Walks.{walked};

use crate::breaks::is_broken;
use crate::places::Place;
use tac_syntax::{Body, Function, Rule, Stmt};

/// The number of a statement that breaks a rule.
#[derive(Clone, Copy)]
pub struct Broken {
    pub at: u32,
}

/// The number of the first statement in text order that breaks the rule.
pub fn first_break(rule: Rule, function: &Function, fields: u32) -> Option<u32>
    ensures { result ≡ first_break rule function.now fields }
{
    // A body's size is a u32, so each of its statements has a number.
    let _size = function.body.size();
    match walk_body(rule, Place::top(function, fields), &function.body, 0) {
        Ok(_) => None,
        Err(broken) => Some(broken.at),
    }
}

// Goes through a body whose first statement has number `number`, up to the first statement that breaks the rule. If
// none does, the result is the number after the last statement.
#[cycle(walk)]
fn walk_body(rule: Rule, place: Place, body: &Body, number: u32) -> Result<u32, Broken>
    requires numbered { number + count_of body.now < 2 ^ 32 }
    requires around { IsAround place number }
    ensures { result ≡ walked rule number (place_of place) body.now }
{
    let mut next = number;
    for stmt in body.stmts() {
        next = walk_stmt(rule, place, stmt, next)?;
    }
    Ok(next)
}

#[cycle(walk)]
fn walk_stmt(rule: Rule, place: Place, stmt: &Stmt, number: u32) -> Result<u32, Broken>
    requires numbered { number + count_of (only stmt.now) < 2 ^ 32 }
    requires around { IsAround place number }
    ensures { result ≡ walked rule number (place_of place) (only stmt.now) }
{
    if is_broken(rule, number, place, stmt) {
        return Err(Broken { at: number });
    }
    let inside = number + 1;
    match stmt {
        Stmt::If { body, other, .. } => {
            let inside_other = walk_body(rule, place.in_if(), body, inside)?;
            walk_body(rule, place.in_if(), other, inside_other)
        }
        Stmt::Repeat { count, body } => walk_body(rule, place.in_repeat(*count), body, inside),
        Stmt::Each { body, .. } => walk_body(rule, place.in_each(), body, inside),
        _ => Ok(inside),
    }
}
