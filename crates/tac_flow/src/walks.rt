//! Walks through bodies: what is known after each statement.

ghost use Rattle.std.specs.Prelude.{◌≡◌, ◌≤◌, ◌<◌, ◌+◌, length, ℕ, List};
ghost use Rattle.pact_record.specs.FieldSets.{has_field};
ghost use Rattle.pact_record.specs.declared.records.TheConstants.{MAX_FIELDS};
ghost use Rattle.tac_syntax.specs.Limits.{loop_limit, value_registers, record_registers};
ghost use Rattle.tac_syntax.specs.Code as code;
ghost use Rattle.tac_syntax.specs.Trees.{only};
ghost use Rattle.tac_flow.specs.Known.{Side};
ghost use Rattle.tac_flow.specs.Steps as steps;
ghost use Rattle.tac_flow.specs.Walks.{settled, side_of_list, walk, notes, walks_at_most as most};
ghost use Rattle.tac_flow.specs.Gathering.{gather, noted_of};
ghost use Rattle.tac_syntax.specs.WellFormed.{CanRead, IsWellFormedSimple, IsWellFormed};
ghost use Rattle.tac_flow.specs.Warm.{turn_of};
ghost use Rattle.tac_flow.specs.Views.{known_of, held_of, state_of, scope_of, sides_of};

use crate::bases::{Base, Origin};
use crate::facts::{Facts, RecordFacts, ValueFacts};
use crate::noted::Noted;
use crate::scopes::Scope;
use crate::sides::Sides;
use pact_record::Fields;
use tac_syntax::{Body, LoopList, RECORD_REGISTERS, Rec, Side, Stmt, VALUE_REGISTERS};

// What is known of the record that a statement reads.
fn held_of(scope: &Scope, sides: &Sides, facts: &Facts, from: Rec) -> RecordFacts
    requires { CanRead scope.now.kind (length (sides_of sides.now)) from }
    ensures { held_of result ≡ steps.held_of (scope_of scope.now) (sides_of sides.now) (state_of facts.now) from }
{
    let unchanged = Fields::empty();
    let (base, changed) = match from {
        Rec::Reg(n) => return facts.record(n),
        Rec::Loop(name) => (
            Base::Bound {
                name,
                side: sides.at(name - 1),
            },
            unchanged,
        ),
        Rec::Left => (Base::First, scope.context.right),
        Rec::Right => (Base::First, scope.context.left),
        Rec::Input | Rec::Join | Rec::First => (Base::First, unchanged),
    };
    RecordFacts {
        base,
        changed,
        depends: Fields::empty(),
    }
}

fn transfer_get(scope: &Scope, sides: &Sides, facts: &mut Facts, to: u32, from: Rec, field: u32)
    requires well_formed { IsWellFormedSimple scope.now.kind scope.now.fields (length (sides_of sides.now)) (code.get_field to from field) }
    requires fields { scope.now.fields ≤ MAX_FIELDS }
    ensures { state_of facts.new ≡ steps.transfer (scope_of scope.now) (sides_of sides.now) (code.get_field to from field) (state_of facts.old) }
{
    let row = held_of(scope, sides, facts, from);
    facts.set_value(to, scope.read_from(&row, field));
}

// What a value depends on that is read from the record in a field that isn't known.
fn all_of(scope: &Scope, sides: &Sides, facts: &Facts, from: Rec) -> Fields
    requires { CanRead scope.now.kind (length (sides_of sides.now)) from }
    ensures { has_field result ≡ steps.all_of (scope_of scope.now) (sides_of sides.now) (state_of facts.now) from }
{
    match from {
        Rec::Reg(n) => scope.all_of_held(&facts.record(n)),
        Rec::Loop(name) => scope.fields_of(sides.at(name - 1)),
        Rec::Input | Rec::Left => scope.context.left,
        Rec::Right => scope.context.right,
        Rec::Join => scope.context.left.union(scope.context.right),
        Rec::First => scope.fields_of(Side::Left),
    }
}

fn transfer_get_at(scope: &Scope, sides: &Sides, facts: &mut Facts, to: u32, from: Rec, at: u32)
    requires { IsWellFormedSimple scope.now.kind scope.now.fields (length (sides_of sides.now)) (code.get_at to from at) }
    ensures { state_of facts.new ≡ steps.transfer (scope_of scope.now) (sides_of sides.now) (code.get_at to from at) (state_of facts.old) }
{
    let deps = facts
        .value(at)
        .deps
        .union(all_of(scope, sides, facts, from));
    let origin = Origin::Unknown;
    facts.set_value(to, ValueFacts { deps, origin });
}

fn transfer_key(scope: &Scope, facts: &mut Facts, to: u32, at: u32)
    requires { to < value_registers }
    ensures { (sides : List Side) → state_of facts.new ≡ steps.transfer (scope_of scope.now) sides (code.get_key to at) (state_of facts.old) }
{
    let deps = scope.key_deps(at);
    let origin = Origin::Key { at };
    facts.set_value(to, ValueFacts { deps, origin });
}

fn transfer_set(scope: &Scope, facts: &mut Facts, to: u32, field: u32, value: u32)
    requires to { to < record_registers }
    requires value { value < value_registers }
    requires field { field < MAX_FIELDS }
    ensures { (sides : List Side) → state_of facts.new ≡ steps.transfer (scope_of scope.now) sides (code.set_field to field value) (state_of facts.old) }
{
    let row = scope.written(&facts.record(to), field, &facts.value(value));
    facts.set_record(to, row);
}

fn transfer_set_at(scope: &Scope, facts: &mut Facts, to: u32, at: u32, value: u32)
    requires to { to < record_registers }
    requires at { at < value_registers }
    requires value { value < value_registers }
    requires fields { scope.now.fields ≤ MAX_FIELDS }
    ensures { (sides : List Side) → state_of facts.new ≡ steps.transfer (scope_of scope.now) sides (code.set_at to at value) (state_of facts.old) }
{
    let row = scope.written_at(&facts.record(to), &facts.value(at), &facts.value(value));
    facts.set_record(to, row);
}

// A statement, and the notes on it.
#[cycle(walk)]
pub(crate) fn walk_stmt(
    scope: &Scope,
    sides: &Sides,
    stmt: &Stmt,
    facts: &mut Facts,
    noted: &mut Noted,
)
    requires well_formed { IsWellFormed scope.now.kind scope.now.fields (length (sides_of sides.now)) (only stmt.now) }
    requires fields { scope.now.fields ≤ MAX_FIELDS }
    ensures facts { state_of facts.new ≡ walk (scope_of scope.now) (sides_of sides.now) (only stmt.now) (state_of facts.old) }
    ensures noted { noted_of noted.new ≡ gather (notes (scope_of scope.now) (sides_of sides.now) (only stmt.now) (state_of facts.old)) (noted_of noted.old) }
{
    match stmt {
        Stmt::Int { to, .. } | Stmt::Text { to, .. } | Stmt::Null { to } => {
            facts.set_value(*to, ValueFacts::constant());
        }
        Stmt::Mov { to, from } => {
            let value = facts.value(*from);
            facts.set_value(*to, value);
        }
        Stmt::Get { to, from, field } => transfer_get(scope, sides, facts, *to, *from, *field),
        Stmt::GetAt { to, from, at } => transfer_get_at(scope, sides, facts, *to, *from, *at),
        Stmt::Key { to, at } => transfer_key(scope, facts, *to, *at),
        Stmt::One { to, a, .. } => {
            let deps = facts.value(*a).deps;
            let origin = Origin::Unknown;
            facts.set_value(*to, ValueFacts { deps, origin });
        }
        Stmt::Two { to, a, b, .. } => {
            let deps = facts.value(*a).deps.union(facts.value(*b).deps);
            let origin = Origin::Unknown;
            facts.set_value(*to, ValueFacts { deps, origin });
        }
        Stmt::New { to } => facts.set_record(*to, scope.fresh()),
        Stmt::Copy { to, from } => {
            let row = held_of(scope, sides, facts, *from);
            facts.set_record(*to, row);
        }
        Stmt::Set { to, field, value } => transfer_set(scope, facts, *to, *field, *value),
        Stmt::SetAt { to, at, value } => transfer_set_at(scope, facts, *to, *at, *value),
        Stmt::Emit { from } => noted.emitted(&facts.record(*from)),
        Stmt::If { on, body, other } => {
            walk_if(scope, sides, *on, body, other, facts, noted);
        }
        Stmt::Repeat { body, .. } => {
            settle(scope, sides, None, body, facts);
            walk_body(scope, sides, body, facts, noted);
        }
        Stmt::Each { name, list, body } => {
            walk_each(scope, sides, *name, *list, body, facts, noted);
        }
    }
}

// The statements of a body, one after the other.
#[cycle(walk)]
pub(crate) fn walk_body(
    scope: &Scope,
    sides: &Sides,
    body: &Body,
    facts: &mut Facts,
    noted: &mut Noted,
)
    requires well_formed { IsWellFormed scope.now.kind scope.now.fields (length (sides_of sides.now)) body.now }
    requires fields { scope.now.fields ≤ MAX_FIELDS }
    ensures facts { state_of facts.new ≡ walk (scope_of scope.now) (sides_of sides.now) body.now (state_of facts.old) }
    ensures noted { noted_of noted.new ≡ gather (notes (scope_of scope.now) (sides_of sides.now) body.now (state_of facts.old)) (noted_of noted.old) }
{
    for stmt in body.stmts() {
        walk_stmt(scope, sides, stmt, facts, noted);
    }
}

#[cycle(walk)]
fn walk_if(
    scope: &Scope,
    sides: &Sides,
    on: u32,
    body: &Body,
    other: &Body,
    facts: &mut Facts,
    noted: &mut Noted,
)
    requires on { on < value_registers }
    requires body { IsWellFormed scope.now.kind scope.now.fields (length (sides_of sides.now)) body.now }
    requires other { IsWellFormed scope.now.kind scope.now.fields (length (sides_of sides.now)) other.now }
    requires fields { scope.now.fields ≤ MAX_FIELDS }
    ensures facts { state_of facts.new ≡ walk (scope_of scope.now) (sides_of sides.now) (code.branch on body.now other.now code.stop) (state_of facts.old) }
    ensures noted { noted_of noted.new ≡ gather (notes (scope_of scope.now) (sides_of sides.now) (code.branch on body.now other.now code.stop) (state_of facts.old)) (noted_of noted.old) }
{
    noted.decided(facts.value(on).deps);
    let mut second = *facts;
    walk_body(scope, sides, body, facts, noted);
    walk_body(scope, sides, other, &mut second, noted);
    facts.join(scope.fields, &second);
}

// Walks through a loop's body until nothing changes.
#[cycle(walk)]
fn settle(scope: &Scope, inside: &Sides, name: Option<u32>, body: &Body, facts: &mut Facts)
    requires well_formed { IsWellFormed scope.now.kind scope.now.fields (length (sides_of inside.now)) body.now }
    requires fields { scope.now.fields ≤ MAX_FIELDS }
    ensures { state_of facts.new ≡ settled scope.now.fields (turn_of (scope_of scope.now) (sides_of inside.now) body.now name) (state_of facts.old) }
{
    for _ in 0..walks_at_most(scope.fields) {
        let mut turn = *facts;
        let mut scratch = Noted::nothing(scope.fields);
        walk_body(scope, inside, body, &mut turn, &mut scratch);
        turn.drop_any(name);
        let before = *facts;
        facts.join(scope.fields, &turn);
        if *facts == before {
            return;
        }
    }
}

#[cycle(walk)]
fn walk_each(
    scope: &Scope,
    sides: &Sides,
    name: u32,
    list: LoopList,
    body: &Body,
    facts: &mut Facts,
    noted: &mut Noted,
)
    requires depth { length (sides_of sides.now) < loop_limit }
    requires well_formed { IsWellFormed scope.now.kind scope.now.fields (length (sides_of sides.now) + 1) body.now }
    requires fields { scope.now.fields ≤ MAX_FIELDS }
    ensures facts { state_of facts.new ≡ walk (scope_of scope.now) (sides_of sides.now) (code.each name list body.now code.stop) (state_of facts.old) }
    ensures noted { noted_of noted.new ≡ gather (notes (scope_of scope.now) (sides_of sides.now) (code.each name list body.now code.stop) (state_of facts.old)) (noted_of noted.old) }
{
    let inside = sides.inside(side_of(list));
    facts.drop_name(name);
    settle(scope, &inside, Some(name), body, facts);
    let mut last = *facts;
    walk_body(scope, &inside, body, &mut last, noted);
}

pub(crate) fn side_of(list: LoopList) -> Side
    ensures { result ≡ side_of_list list }
{
    match list {
        LoopList::Group | LoopList::Left => Side::Left,
        LoopList::Right => Side::Right,
    }
}

pub(crate) fn walks_at_most(fields: u32) -> u32
    requires { fields ≤ MAX_FIELDS }
    ensures { result ≡ most fields }
{
    VALUE_REGISTERS * (fields + 1) + RECORD_REGISTERS * (2 * fields + 2)
}
