//! The notes on a whole body, by a warm walk if that is safe.

ghost use Rattle.std.specs.Prelude.{◌≡◌, ◌≤◌, ◌+◌, ℕ, None, IfSome, length};
ghost use Rattle.pact_record.specs.declared.records.TheConstants.{MAX_FIELDS};
ghost use Rattle.tac_syntax.specs.WellFormed.{IsWellFormed};
ghost use Rattle.tac_flow.specs.Results.{notes_of};
ghost use Rattle.tac_flow.specs.Gathering.{gather, noted_of, nothing};
ghost use Rattle.tac_flow.specs.Memos.{memos_of, places};
ghost use Rattle.tac_flow.specs.Warm.{IsSmallScope};
ghost use Rattle.tac_flow.specs.Views.{scope_of};

use crate::facts::Facts;
use crate::noted::Noted;
use crate::places::{PLACES, places_left};
use crate::scopes::Scope;
use crate::sides::Sides;
use crate::walks::walk_body;
use crate::warm::warm_body;
use tac_syntax::Body;

/// The notes on the way through a body. In a warm walk each loop begins from where it settled before. If that might
/// lead to other notes, the body is walked once more, and each loop begins from where it is reached.
pub(crate) fn noted_in(scope: &Scope, body: &Body) -> Noted
    requires well_formed { IsWellFormed scope.now.kind scope.now.fields 0 body.now }
    requires fields { scope.now.fields ≤ MAX_FIELDS }
    requires small { IsSmallScope (scope_of scope.now) }
    ensures { noted_of result ≡ gather (notes_of (scope_of scope.now) body.now) (nothing scope.now.fields) }
{
    // Without nested blocks each loop is reached once, and nothing is worth storing.
    if body.depth() < 2 {
        return noted_cold(scope, body);
    }
    match noted_warm(scope, body) {
        Some(noted) => noted,
        None => noted_cold(scope, body),
    }
}

// Not inlined: otherwise every call of `sets` would have this table in its frame.
#[inline(never)]
fn noted_warm(scope: &Scope, body: &Body) -> Option<Noted>
    requires well_formed { IsWellFormed scope.now.kind scope.now.fields 0 body.now }
    requires fields { scope.now.fields ≤ MAX_FIELDS }
    requires small { IsSmallScope (scope_of scope.now) }
    ensures { IfSome result (λ noted. noted_of noted ≡ gather (notes_of (scope_of scope.now) body.now) (nothing scope.now.fields)) }
{
    let _left = places_left(scope.least, body, PLACES)?;
    let mut memos: [Option<Facts>; PLACES] = [None; PLACES];
    noted_by(scope, body, &mut memos)
}

fn noted_by(scope: &Scope, body: &Body, memos: &mut [Option<Facts>]) -> Option<Noted>
    requires well_formed { IsWellFormed scope.now.kind scope.now.fields 0 body.now }
    requires fields { scope.now.fields ≤ MAX_FIELDS }
    requires small { IsSmallScope (scope_of scope.now) }
    requires places { places scope.now.least body.now ≤ length memos.old }
    requires none { (i : ℕ) → memos_of memos.old i ≡ None }
    ensures { IfSome result (λ noted. noted_of noted ≡ gather (notes_of (scope_of scope.now) body.now) (nothing scope.now.fields)) }
{
    let sides = Sides::none();
    let mut facts = Facts::start(scope.fresh());
    let mut noted = Noted::nothing(scope.fields);
    let _next = warm_body(scope, &sides, body, 0, memos, &mut facts, &mut noted)?;
    Some(noted)
}

fn noted_cold(scope: &Scope, body: &Body) -> Noted
    requires well_formed { IsWellFormed scope.now.kind scope.now.fields 0 body.now }
    requires fields { scope.now.fields ≤ MAX_FIELDS }
    ensures { noted_of result ≡ gather (notes_of (scope_of scope.now) body.now) (nothing scope.now.fields) }
{
    let sides = Sides::none();
    let mut facts = Facts::start(scope.fresh());
    let mut noted = Noted::nothing(scope.fields);
    walk_body(scope, &sides, body, &mut facts, &mut noted);
    noted
}
