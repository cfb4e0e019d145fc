//! Walks in which each loop begins from where it settled before.

ghost use Rattle.std.specs.Prelude.{◌≡◌, ◌≤◌, ◌<◌, ◌+◌, length, true, false, Option, Some, None, IfSome};
ghost use Rattle.pact_record.specs.FieldSets.{has_field};
ghost use Rattle.pact_record.specs.declared.records.TheConstants.{MAX_FIELDS};
ghost use Rattle.tac_syntax.specs.Limits.{loop_limit, value_registers, record_registers};
ghost use Rattle.tac_syntax.specs.Code as code;
ghost use Rattle.tac_syntax.specs.Trees.{only, statement_of};
ghost use Rattle.tac_syntax.specs.WellFormed.{IsWellFormed};
ghost use Rattle.tac_flow.specs.Steps as steps;
ghost use Rattle.tac_flow.specs.Walks.{walk, notes};
ghost use Rattle.tac_flow.specs.Gathering.{gather, noted_of};
ghost use Rattle.tac_flow.specs.Memos.{memos_of, is_large, place, places};
ghost use Rattle.tac_flow.specs.Views.{state_of, scope_of, sides_of};
ghost use Rattle.tac_flow.specs.Warm.{HasSettled, HasWarmed, IsClean, IsLine, IsPlainCopy, IsReady, IsReadyLoop, turn_of};

use crate::facts::Facts;
use crate::memos::{begin, first_inside, keep};
use crate::noted::Noted;
use crate::places::is_large;
use crate::scopes::Scope;
use crate::sides::Sides;
use crate::walks::{side_of, walk_stmt, walks_at_most};
use tac_syntax::{Body, LoopList, Stmt};

// Whether a warm start is safe in spite of this `set`: a value that it puts back has to depend on the field.
fn is_plain_set(scope: &Scope, facts: &Facts, to: u32, field: u32, value: u32) -> bool
    requires to { to < record_registers }
    requires value { value < value_registers }
    requires field { field < MAX_FIELDS }
    ensures { result ≡ true → IsPlainCopy (scope_of scope.now) (steps.record_at scope.now.fields (state_of facts.now) to) (steps.value_at (state_of facts.now) value) field }
{
    let known = facts.value(value);
    let copies = scope.is_copy(facts.record(to).base, known.origin, field);
    !copies || known.deps.has(field)
}

fn is_clean(scope: &Scope, sides: &Sides, stmt: &Stmt, facts: &Facts) -> bool
    requires well_formed { IsWellFormed scope.now.kind scope.now.fields (length (sides_of sides.now)) (only stmt.now) }
    requires fields { scope.now.fields ≤ MAX_FIELDS }
    requires line { IsLine (statement_of stmt.now) }
    ensures { result ≡ true → IsClean (scope_of scope.now) (sides_of sides.now) (only stmt.now) (state_of facts.now) }
{
    match stmt {
        Stmt::Set { to, field, value } => is_plain_set(scope, facts, *to, *field, *value),
        Stmt::Int { .. } => true,
        Stmt::Text { .. } => true,
        Stmt::Null { .. } => true,
        Stmt::Mov { .. } => true,
        Stmt::Get { .. } => true,
        Stmt::GetAt { .. } => true,
        Stmt::Key { .. } => true,
        Stmt::One { .. } => true,
        Stmt::Two { .. } => true,
        Stmt::New { .. } => true,
        Stmt::Copy { .. } => true,
        Stmt::SetAt { .. } => true,
        Stmt::Emit { .. } => true,
        Stmt::If { .. } => true,
        Stmt::Repeat { .. } => true,
        Stmt::Each { .. } => true,
    }
}

// A statement without a body takes no place, so the next free one is still `n`.
fn warm_line(
    scope: &Scope,
    sides: &Sides,
    stmt: &Stmt,
    n: usize,
    memos: &[Option<Facts>],
    facts: &mut Facts,
    noted: &mut Noted,
) -> Option<usize>
    requires well_formed { IsWellFormed scope.now.kind scope.now.fields (length (sides_of sides.now)) (only stmt.now) }
    requires fields { scope.now.fields ≤ MAX_FIELDS }
    requires line { IsLine (statement_of stmt.now) }
    ensures { IfSome result (λ next. (next ≡ n + places scope.now.least (only stmt.now)) × HasWarmed (scope_of scope.now) scope.now.least (sides_of sides.now) (only stmt.now) n (state_of facts.old) (memos_of memos.now) (state_of facts.new) (memos_of memos.now) (noted_of noted.old) (noted_of noted.new)) }
{
    let clean = is_clean(scope, sides, stmt, facts);
    walk_stmt(scope, sides, stmt, facts, noted);
    if clean { Some(n) } else { None }
}

// A statement, and the notes on it. Returns the next free place, or None if a warm start isn't safe.
#[cycle(warm)]
fn warm_stmt(
    scope: &Scope,
    sides: &Sides,
    stmt: &Stmt,
    n: usize,
    memos: &mut [Option<Facts>],
    facts: &mut Facts,
    noted: &mut Noted,
) -> Option<usize>
    requires well_formed { IsWellFormed scope.now.kind scope.now.fields (length (sides_of sides.now)) (only stmt.now) }
    requires fields { scope.now.fields ≤ MAX_FIELDS }
    requires places { n + places scope.now.least (only stmt.now) ≤ length memos.old }
    requires ready { IsReady (scope_of scope.now) scope.now.least (sides_of sides.now) (only stmt.now) n (memos_of memos.old) (state_of facts.old) }
    ensures { IfSome result (λ next. (next ≡ n + places scope.now.least (only stmt.now)) × HasWarmed (scope_of scope.now) scope.now.least (sides_of sides.now) (only stmt.now) n (state_of facts.old) (memos_of memos.old) (state_of facts.new) (memos_of memos.new) (noted_of noted.old) (noted_of noted.new)) }
{
    match stmt {
        Stmt::If { on, body, other } => {
            warm_if(scope, sides, *on, body, other, n, memos, facts, noted)
        }
        Stmt::Repeat { count, body } => {
            warm_repeat(scope, sides, *count, body, n, memos, facts, noted)
        }
        Stmt::Each { name, list, body } => {
            warm_each(scope, sides, *name, *list, body, n, memos, facts, noted)
        }
        Stmt::Int { .. }
        | Stmt::Text { .. }
        | Stmt::Null { .. }
        | Stmt::Mov { .. }
        | Stmt::Get { .. }
        | Stmt::GetAt { .. }
        | Stmt::Key { .. }
        | Stmt::One { .. }
        | Stmt::Two { .. }
        | Stmt::New { .. }
        | Stmt::Copy { .. }
        | Stmt::Set { .. }
        | Stmt::SetAt { .. }
        | Stmt::Emit { .. } => warm_line(scope, sides, stmt, n, memos, facts, noted),
    }
}

// The statements of a body, one after the other.
#[cycle(warm)]
pub(crate) fn warm_body(
    scope: &Scope,
    sides: &Sides,
    body: &Body,
    n: usize,
    memos: &mut [Option<Facts>],
    facts: &mut Facts,
    noted: &mut Noted,
) -> Option<usize>
    requires well_formed { IsWellFormed scope.now.kind scope.now.fields (length (sides_of sides.now)) body.now }
    requires fields { scope.now.fields ≤ MAX_FIELDS }
    requires places { n + places scope.now.least body.now ≤ length memos.old }
    requires ready { IsReady (scope_of scope.now) scope.now.least (sides_of sides.now) body.now n (memos_of memos.old) (state_of facts.old) }
    ensures { IfSome result (λ next. (next ≡ n + places scope.now.least body.now) × HasWarmed (scope_of scope.now) scope.now.least (sides_of sides.now) body.now n (state_of facts.old) (memos_of memos.old) (state_of facts.new) (memos_of memos.new) (noted_of noted.old) (noted_of noted.new)) }
{
    let mut next = n;
    for stmt in body.stmts() {
        next = warm_stmt(scope, sides, stmt, next, memos, facts, noted)?;
    }
    Some(next)
}

#[cycle(warm)]
fn warm_if(
    scope: &Scope,
    sides: &Sides,
    on: u32,
    body: &Body,
    other: &Body,
    n: usize,
    memos: &mut [Option<Facts>],
    facts: &mut Facts,
    noted: &mut Noted,
) -> Option<usize>
    requires on { on < value_registers }
    requires body { IsWellFormed scope.now.kind scope.now.fields (length (sides_of sides.now)) body.now }
    requires other { IsWellFormed scope.now.kind scope.now.fields (length (sides_of sides.now)) other.now }
    requires fields { scope.now.fields ≤ MAX_FIELDS }
    requires places { n + places scope.now.least (code.branch on body.now other.now code.stop) ≤ length memos.old }
    requires ready { IsReady (scope_of scope.now) scope.now.least (sides_of sides.now) (code.branch on body.now other.now code.stop) n (memos_of memos.old) (state_of facts.old) }
    ensures { IfSome result (λ next. (next ≡ n + places scope.now.least (code.branch on body.now other.now code.stop)) × HasWarmed (scope_of scope.now) scope.now.least (sides_of sides.now) (code.branch on body.now other.now code.stop) n (state_of facts.old) (memos_of memos.old) (state_of facts.new) (memos_of memos.new) (noted_of noted.old) (noted_of noted.new)) }
{
    noted.decided(facts.value(on).deps);
    let mut second = *facts;
    let middle = warm_body(scope, sides, body, n, memos, facts, noted)?;
    let next = warm_body(scope, sides, other, middle, memos, &mut second, noted)?;
    facts.join(scope.fields, &second);
    Some(next)
}

// Walks through a loop's body until nothing changes, from where the loop settled before. Returns the first place for
// the loops inside, or None as above.
#[cycle(warm)]
fn settle(
    scope: &Scope,
    inside: &Sides,
    name: Option<u32>,
    body: &Body,
    n: usize,
    memos: &mut [Option<Facts>],
    facts: &mut Facts,
) -> Option<usize>
    requires well_formed { IsWellFormed scope.now.kind scope.now.fields (length (sides_of inside.now)) body.now }
    requires fields { scope.now.fields ≤ MAX_FIELDS }
    requires places { n + place (is_large scope.now.least body.now) + places scope.now.least body.now ≤ length memos.old }
    requires ready { IsReadyLoop (scope_of scope.now) scope.now.least (sides_of inside.now) body.now name n (memos_of memos.old) (state_of facts.old) }
    ensures { IfSome result (λ m. (m ≡ n + place (is_large scope.now.least body.now)) × HasSettled (scope_of scope.now) scope.now.least (is_large scope.now.least body.now) (turn_of (scope_of scope.now) (sides_of inside.now) body.now name) (sides_of inside.now) body.now n (state_of facts.old) (memos_of memos.old) (state_of facts.new) (memos_of memos.new)) }
{
    let large = is_large(scope.least, body);
    let first = first_inside(memos, large, n);
    if begin(memos, scope.fields, large, n, facts) {
        return Some(first);
    }
    for _ in 0..walks_at_most(scope.fields) {
        let mut turn = *facts;
        let mut scratch = Noted::nothing(scope.fields);
        let _next = warm_body(scope, inside, body, first, memos, &mut turn, &mut scratch)?;
        turn.drop_any(name);
        let before = *facts;
        facts.join(scope.fields, &turn);
        if *facts == before {
            keep(memos, large, n, facts);
            return Some(first);
        }
    }
    None
}

#[cycle(warm)]
fn warm_repeat(
    scope: &Scope,
    sides: &Sides,
    count: u32,
    body: &Body,
    n: usize,
    memos: &mut [Option<Facts>],
    facts: &mut Facts,
    noted: &mut Noted,
) -> Option<usize>
    requires well_formed { IsWellFormed scope.now.kind scope.now.fields (length (sides_of sides.now)) body.now }
    requires fields { scope.now.fields ≤ MAX_FIELDS }
    requires places { n + places scope.now.least (code.again count body.now code.stop) ≤ length memos.old }
    requires ready { IsReady (scope_of scope.now) scope.now.least (sides_of sides.now) (code.again count body.now code.stop) n (memos_of memos.old) (state_of facts.old) }
    ensures { IfSome result (λ next. (next ≡ n + places scope.now.least (code.again count body.now code.stop)) × HasWarmed (scope_of scope.now) scope.now.least (sides_of sides.now) (code.again count body.now code.stop) n (state_of facts.old) (memos_of memos.old) (state_of facts.new) (memos_of memos.new) (noted_of noted.old) (noted_of noted.new)) }
{
    let first = settle(scope, sides, None, body, n, memos, facts)?;
    let next = warm_body(scope, sides, body, first, memos, facts, noted)?;
    Some(next)
}

// Not inlined: otherwise each frame of `warm_body` would hold its copy of the facts.
#[cycle(warm)]
#[inline(never)]
fn warm_each(
    scope: &Scope,
    sides: &Sides,
    name: u32,
    list: LoopList,
    body: &Body,
    n: usize,
    memos: &mut [Option<Facts>],
    facts: &mut Facts,
    noted: &mut Noted,
) -> Option<usize>
    requires depth { length (sides_of sides.now) < loop_limit }
    requires well_formed { IsWellFormed scope.now.kind scope.now.fields (length (sides_of sides.now) + 1) body.now }
    requires fields { scope.now.fields ≤ MAX_FIELDS }
    requires places { n + places scope.now.least (code.each name list body.now code.stop) ≤ length memos.old }
    requires ready { IsReady (scope_of scope.now) scope.now.least (sides_of sides.now) (code.each name list body.now code.stop) n (memos_of memos.old) (state_of facts.old) }
    ensures { IfSome result (λ next. (next ≡ n + places scope.now.least (code.each name list body.now code.stop)) × HasWarmed (scope_of scope.now) scope.now.least (sides_of sides.now) (code.each name list body.now code.stop) n (state_of facts.old) (memos_of memos.old) (state_of facts.new) (memos_of memos.new) (noted_of noted.old) (noted_of noted.new)) }
{
    let inside = sides.inside(side_of(list));
    facts.drop_name(name);
    let first = settle(scope, &inside, Some(name), body, n, memos, facts)?;
    let mut last = *facts;
    let next = warm_body(scope, &inside, body, first, memos, &mut last, noted)?;
    Some(next)
}
