//! Statements after which nothing is emitted.

use crate::statements::{behind, inside, inside_other};
use tac_syntax::{Body, Stmt};

#[cycle(emits)]
fn emits(stmt: &Stmt) -> bool {
    match stmt {
        Stmt::Emit { .. } => true,
        Stmt::If { body, other, .. } => has_emit(body) || has_emit(other),
        Stmt::Repeat { body, .. } | Stmt::Each { body, .. } => has_emit(body),
        _ => false,
    }
}

#[cycle(emits)]
fn has_emit(body: &Body) -> bool {
    for stmt in body.stmts() {
        if emits(stmt) {
            return true;
        }
    }
    false
}

/// The first statement of a body after which nothing can be emitted, if nothing is emitted after the body. `first` is
/// the number of the body's first statement.
#[cycle(silent)]
pub fn silent_in(body: &Body, first: u32) -> Option<u32> {
    let mut found = None;
    let mut at = first;
    for stmt in body.stmts() {
        if emits(stmt) {
            found = silent_inside(stmt, at);
        } else if found.is_none() {
            found = Some(at);
        }
        at = behind(at, stmt);
    }
    found
}

// The same inside a statement that emits. In a loop the next turn may emit, so no statement counts.
#[cycle(silent)]
fn silent_inside(stmt: &Stmt, at: u32) -> Option<u32> {
    match stmt {
        Stmt::If { body, other, .. } => {
            let found = silent_in(body, inside(at));
            if found.is_some() {
                return found;
            }
            silent_in(other, inside_other(at, body))
        }
        _ => None,
    }
}
