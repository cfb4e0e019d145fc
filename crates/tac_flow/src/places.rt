//! Which loops have a place in the table of stored facts.

ghost use Rattle.std.specs.Prelude.{◌≡◌, ◌+◌, IfSome};
ghost use Rattle.tac_syntax.specs.Trees.{only};
ghost use Rattle.tac_flow.specs.Memos as memos;
ghost use Rattle.tac_flow.specs.Memos.{place, places};

use tac_syntax::{Body, Stmt};

/// The number of places. The table is on the stack, with 2 KB for each place, and `pact` has to need less than 192 KB
/// of stack in all. If a function has more loops than this, only the largest have a place. With 20 places the worst
/// function found took three times as long.
pub(crate) const PLACES: usize = 40;

// `least_size` tries multiples of this size.
const STEP: u32 = 8;

// Enough multiples: a function of 1,000 statements, with loops at most 3 deep, has at most 37 loops of 80 statements.
const STEPS: u32 = 11;

/// How many statements a loop's body must have to get a place, so that there are enough places.
pub(crate) fn least_size(body: &Body) -> u32 {
    for n in 0..STEPS {
        let least = n * STEP;
        if places_left(least, body, PLACES).is_some() {
            return least;
        }
    }
    u32::MAX
}

/// How many of these places are left after each large loop of the body takes one, or None if there are too few.
#[cycle(places)]
pub(crate) fn places_left(least: u32, body: &Body, room: usize) -> Option<usize>
    ensures { IfSome result (λ left. left + places least body.now ≡ room) }
{
    let mut left = room;
    for stmt in body.stmts() {
        left = left_by_stmt(least, stmt, left)?;
    }
    Some(left)
}

#[cycle(places)]
fn left_by_stmt(least: u32, stmt: &Stmt, room: usize) -> Option<usize>
    ensures { IfSome result (λ left. left + places least (only stmt.now) ≡ room) }
{
    match stmt {
        Stmt::If { body, other, .. } => {
            let left = places_left(least, body, room)?;
            places_left(least, other, left)
        }
        Stmt::Repeat { body, .. } | Stmt::Each { body, .. } => left_by_loop(least, body, room),
        _ => Some(room),
    }
}

#[cycle(places)]
fn left_by_loop(least: u32, body: &Body, room: usize) -> Option<usize>
    ensures { IfSome result (λ left. left + (place (memos.is_large least body.now) + places least body.now) ≡ room) }
{
    if is_large(least, body) {
        let left = room.checked_sub(1)?;
        places_left(least, body, left)
    } else {
        places_left(least, body, room)
    }
}

/// Whether a loop with this body has a place.
pub(crate) fn is_large(least: u32, body: &Body) -> bool
    ensures { result ≡ memos.is_large least body.now }
{
    body.size() >= least
}
