//! One context for all those in which the findings about a function are equal.

ghost use Rattle.std.specs.Prelude.{◌≡◌};
ghost use Rattle.tac_syntax.specs.declared.functions.Kind.TheVariants.{CoGroup};
ghost use Rattle.tac_syntax.specs.Contexts.{IsContextOf};
ghost use Rattle.tac_syntax.specs.Trees.{only};
ghost use Rattle.tac_flow.specs.Sharing as sharing;
ghost use Rattle.tac_flow.specs.Views.{sets_in};

use pact_record::Fields;
use tac_syntax::{Body, Context, Kind, Stmt, Valid};

// Whether a statement takes a field's number from a register, or one in its blocks does.
#[cycle(numbers)]
fn takes_number(stmt: &Stmt) -> bool
    ensures { result ≡ sharing.takes_numbers (only stmt.now) }
{
    match stmt {
        Stmt::GetAt { .. } | Stmt::SetAt { .. } => true,
        Stmt::If { body, other, .. } => takes_numbers(body) || takes_numbers(other),
        Stmt::Repeat { body, .. } | Stmt::Each { body, .. } => takes_numbers(body),
        _ => false,
    }
}

/// Whether some statement of a body takes a field's number from a register.
#[cycle(numbers)]
pub fn takes_numbers(body: &Body) -> bool
    ensures { result ≡ sharing.takes_numbers body.now }
{
    for stmt in body.stmts() {
        if takes_number(stmt) {
            return true;
        }
    }
    false
}

/// A context in which `sets` finds the same for the function as in this one. A caller that stores findings needs to
/// store them only for the shared context: a CoGroup has the same one for any fields of its inputs, unless some
/// statement takes a field's number from a register.
pub fn shared_context(f: &Valid, context: &Context) -> Context
    requires { IsContextOf f.now.fields context.now }
    ensures value { result ≡ sharing.shared_context f.now context.now }
    ensures fields { IsContextOf f.now.fields result }
    ensures sets { sets_in f.now result ≡ sets_in f.now context.now }
{
    let function = f.function();
    match function.kind {
        Kind::CoGroup => shared_by_body(&function.body, context),
        _ => *context,
    }
}

// The context that a CoGroup shares.
fn shared_by_body(body: &Body, context: &Context) -> Context
    ensures { result ≡ sharing.shared_by CoGroup (sharing.takes_numbers body.now) context.now }
{
    if takes_numbers(body) {
        return *context;
    }
    Context {
        left: Fields::empty(),
        right: Fields::empty(),
        left_keys: context.left_keys,
        right_keys: context.right_keys,
    }
}
