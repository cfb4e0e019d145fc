//! Which value registers statements assign or name.

ghost use Rattle.std.specs.Prelude.{◌≡◌, ◌||◌, ◌==◌, not, ◌&&◌};
ghost use Rattle.tac_syntax.specs.Trees.{only};
ghost use Rattle.order_free.specs.Registers.{value_at, is_assigned};
ghost use Rattle.combine_rule.specs.Pieces.{occurs_in};

use tac_syntax::{Body, Stmt};

/// Whether a statement assigns the value register, or one in its blocks does.
#[cycle(assigned)]
pub(crate) fn assigns(stmt: &Stmt, register: u32) -> bool
    ensures { result ≡ is_assigned (only stmt.now) (value_at register) }
{
    match stmt {
        Stmt::Int { to, .. }
        | Stmt::Text { to, .. }
        | Stmt::Null { to }
        | Stmt::Mov { to, .. }
        | Stmt::Get { to, .. }
        | Stmt::GetAt { to, .. }
        | Stmt::Key { to, .. }
        | Stmt::One { to, .. }
        | Stmt::Two { to, .. } => register == *to,
        Stmt::If { body, other, .. } => is_assigned(body, register) || is_assigned(other, register),
        Stmt::Repeat { body, .. } | Stmt::Each { body, .. } => is_assigned(body, register),
        _ => false,
    }
}

/// Whether a statement of a body assigns the value register, at any depth.
#[cycle(assigned)]
pub(crate) fn is_assigned(body: &Body, register: u32) -> bool
    ensures { result ≡ is_assigned body.now (value_at register) }
{
    for stmt in body.stmts() {
        if assigns(stmt, register) {
            return true;
        }
    }
    false
}

// Whether the value register occurs in a statement, or in one in its blocks.
#[cycle(used)]
fn names(stmt: &Stmt, register: u32) -> bool
    ensures { result ≡ occurs_in (only stmt.now) (value_at register) }
{
    match stmt {
        Stmt::Int { to, .. }
        | Stmt::Text { to, .. }
        | Stmt::Null { to }
        | Stmt::Get { to, .. }
        | Stmt::Key { to, .. } => register == *to,
        Stmt::Mov { to, from } => register == *from || register == *to,
        Stmt::One { to, a, .. } => register == *a || register == *to,
        Stmt::Two { to, a, b, .. } => register == *a || register == *b || register == *to,
        Stmt::GetAt { to, at, .. } => register == *at || register == *to,
        Stmt::Set { value, .. } => register == *value,
        Stmt::SetAt { at, value, .. } => register == *at || register == *value,
        Stmt::If { on, body, other } => {
            register == *on || occurs_in(body, register) || occurs_in(other, register)
        }
        Stmt::Repeat { body, .. } | Stmt::Each { body, .. } => occurs_in(body, register),
        _ => false,
    }
}

/// Whether the value register occurs in a body, at any depth.
#[cycle(used)]
pub(crate) fn occurs_in(body: &Body, register: u32) -> bool
    ensures { result ≡ occurs_in body.now (value_at register) }
{
    for stmt in body.stmts() {
        if names(stmt, register) {
            return true;
        }
    }
    false
}
