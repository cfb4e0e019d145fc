//! What depends on the order of the records in a group.

use crate::lists::Register;
use crate::statements::{behind, inside, inside_other, times_assigned};
use order_free::order_test;
use pact_record::Op2;
use tac_syntax::{Body, LoopList, Rec, Stmt, Valid};

/// If the function fails the order test: the statement that makes it fail, if it is one of those that can be told.
pub fn order_fault(f: &Valid) -> Option<Option<u32>> {
    if order_test(f) {
        return None;
    }
    Some(faulty_statement(&f.function().body))
}

// A statement that reads `first`, or one in a loop that changes a register from turn to turn, or the only loop.
fn faulty_statement(body: &Body) -> Option<u32> {
    let first = first_reader(body, 0);
    if first.is_some() {
        return first;
    }
    let changed = changed_in(body, 0, None);
    if changed.is_some() {
        return changed;
    }
    only_loop(body)
}

// ---- `first`

#[cycle(first)]
fn first_reader(body: &Body, first: u32) -> Option<u32> {
    let mut at = first;
    for stmt in body.stmts() {
        let found = first_reader_in(stmt, at);
        if found.is_some() {
            return found;
        }
        at = behind(at, stmt);
    }
    None
}

#[cycle(first)]
fn first_reader_in(stmt: &Stmt, at: u32) -> Option<u32> {
    match stmt {
        Stmt::Get { from, .. } | Stmt::GetAt { from, .. } | Stmt::Copy { from, .. } => {
            matches!(from, Rec::First).then_some(at)
        }
        Stmt::If { body, other, .. } => {
            let found = first_reader(body, inside(at));
            if found.is_some() {
                return found;
            }
            first_reader(other, inside_other(at, body))
        }
        Stmt::Repeat { body, .. } | Stmt::Each { body, .. } => first_reader(body, inside(at)),
        _ => None,
    }
}

// ---- registers that a loop changes from turn to turn

// The first statement of a body that hands a register on to the next turn, in a way that isn't a sum, a least or a
// greatest value. `turn` is the body of the `each` around it that is innermost.
#[cycle(changed)]
fn changed_in(body: &Body, first: u32, turn: Option<&Body>) -> Option<u32> {
    let mut at = first;
    for stmt in body.stmts() {
        let found = changed_by(stmt, at, turn);
        if found.is_some() {
            return found;
        }
        at = behind(at, stmt);
    }
    None
}

#[cycle(changed)]
fn changed_by(stmt: &Stmt, at: u32, turn: Option<&Body>) -> Option<u32> {
    match stmt {
        Stmt::If { body, other, .. } => {
            let found = changed_in(body, inside(at), turn);
            if found.is_some() {
                return found;
            }
            changed_in(other, inside_other(at, body), turn)
        }
        Stmt::Repeat { body, .. } => changed_in(body, inside(at), turn),
        Stmt::Each { body, .. } => changed_in(body, inside(at), Some(body)),
        _ => match turn {
            Some(turned) => hands_on(stmt, turned).then_some(at),
            None => None,
        },
    }
}

// Whether the statement gives a register a value that depends on the one before, and nothing else in the turn assigns
// that register: so the value comes from the turn before.
fn hands_on(stmt: &Stmt, turn: &Body) -> bool {
    match stmt {
        Stmt::Two { to, op, a, b } => {
            (*to == *a || *to == *b)
                && !(is_accumulation(*op) && *to == *a && *to != *b)
                && times_assigned(turn, Register::Value(*to)) == 1
        }
        Stmt::Set { to, .. } | Stmt::SetAt { to, .. } => {
            times_assigned(turn, Register::Record(*to)) == 0
        }
        _ => false,
    }
}

fn is_accumulation(op: Op2) -> bool {
    matches!(op, Op2::AddW | Op2::Min | Op2::Max)
}

// ---- loops

// The loop of a body that has only one.
fn only_loop(body: &Body) -> Option<u32> {
    if loops_in(body) == 1 {
        return first_loop(body, 0);
    }
    None
}

#[cycle(loops)]
fn loops_in(body: &Body) -> u32 {
    let mut count = 0u32;
    for stmt in body.stmts() {
        count = count.saturating_add(loops_by(stmt));
    }
    count
}

#[cycle(loops)]
fn loops_by(stmt: &Stmt) -> u32 {
    match stmt {
        Stmt::If { body, other, .. } => loops_in(body).saturating_add(loops_in(other)),
        Stmt::Repeat { body, .. } => loops_in(body),
        Stmt::Each { body, .. } => loops_in(body).saturating_add(1),
        _ => 0,
    }
}

#[cycle(loop_number)]
fn first_loop(body: &Body, first: u32) -> Option<u32> {
    let mut at = first;
    for stmt in body.stmts() {
        let found = first_loop_in(stmt, at);
        if found.is_some() {
            return found;
        }
        at = behind(at, stmt);
    }
    None
}

#[cycle(loop_number)]
fn first_loop_in(stmt: &Stmt, at: u32) -> Option<u32> {
    match stmt {
        Stmt::If { body, other, .. } => {
            let found = first_loop(body, inside(at));
            if found.is_some() {
                return found;
            }
            first_loop(other, inside_other(at, body))
        }
        Stmt::Repeat { body, .. } => first_loop(body, inside(at)),
        Stmt::Each { .. } => Some(at),
        _ => None,
    }
}

/// The first loop over the list that is inside another one over it. `is_inside` says whether the body is inside one.
#[cycle(inner)]
pub fn inner_loop(body: &Body, first: u32, list: LoopList, is_inside: bool) -> Option<u32> {
    let mut at = first;
    for stmt in body.stmts() {
        let found = inner_loop_in(stmt, at, list, is_inside);
        if found.is_some() {
            return found;
        }
        at = behind(at, stmt);
    }
    None
}

#[cycle(inner)]
fn inner_loop_in(stmt: &Stmt, at: u32, list: LoopList, is_inside: bool) -> Option<u32> {
    match stmt {
        Stmt::If { body, other, .. } => {
            let found = inner_loop(body, inside(at), list, is_inside);
            if found.is_some() {
                return found;
            }
            inner_loop(other, inside_other(at, body), list, is_inside)
        }
        Stmt::Repeat { body, .. } => inner_loop(body, inside(at), list, is_inside),
        Stmt::Each {
            list: over,
            body,
            ..
        } => {
            if *over == list && is_inside {
                return Some(at);
            }
            inner_loop(body, inside(at), list, is_inside || *over == list)
        }
        _ => None,
    }
}
