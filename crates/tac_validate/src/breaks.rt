//! Which statement breaks which rule.

ghost use Rattle.std.specs.Prelude.{◌≡◌, ◌+◌, ◌*◌, ◌<◌, ◌^◌, nat_lt};
ghost use Rattle.tac_syntax.specs.Rules.{breaks, breaks_registers, breaks_operands, breaks_fields, breaks_key_positions, breaks_nested_ifs, breaks_nested_loops, breaks_repeats, no_value_register, no_record_register, no_register_read, has_record, has_list};
ghost use Rattle.tac_syntax.specs.Limits.{turn_limit};
ghost use Rattle.tac_validate.specs.Stands.{place_of};
ghost use Rattle.tac_syntax.specs.Trees.{first_line};

use crate::places::Place;
use tac_syntax::{Kind, LoopList, MAX_LOOPS, RECORD_REGISTERS, Rec, Rule, Stmt, VALUE_REGISTERS};

// The most statements that a valid function can have.
const MAX_STATEMENTS: u32 = 1_000;

// An `if` of a valid function is inside fewer than this many others.
const MAX_IFS: u32 = 8;

// The greatest product of the counts of nested `repeat`.
const MAX_TURNS: u64 = 100_000;

/// Whether the statement with this number in text order breaks the rule.
pub fn is_broken(rule: Rule, number: u32, place: Place, stmt: &Stmt) -> bool
    requires { place.lists + 1 < 2 ^ 32 }
    ensures { result ≡ breaks rule number (place_of place) (first_line stmt.now) }
{
    match rule {
        Rule::Registers => breaks_registers(stmt),
        Rule::Operands => breaks_operands(place, stmt),
        Rule::Fields => breaks_fields(place, stmt),
        Rule::KeyPositions => breaks_key_positions(place, stmt),
        Rule::NestedIfs => breaks_nested_ifs(place, stmt),
        Rule::NestedLoops => breaks_nested_loops(place, stmt),
        Rule::Statements => number >= MAX_STATEMENTS,
        Rule::Repeats => breaks_repeats(place, stmt),
    }
}

fn breaks_registers(stmt: &Stmt) -> bool
    ensures { result ≡ breaks_registers (first_line stmt.now) }
{
    match stmt {
        Stmt::Int { to, .. } => is_no_value(*to),
        Stmt::Text { to, .. } => is_no_value(*to),
        Stmt::Null { to } => is_no_value(*to),
        Stmt::Mov { to, from } => is_no_value(*to) || is_no_value(*from),
        Stmt::Get { to, from, .. } => is_no_value(*to) || is_no_register_read(*from),
        Stmt::GetAt { to, from, at } => {
            is_no_value(*to) || is_no_register_read(*from) || is_no_value(*at)
        }
        Stmt::Key { to, .. } => is_no_value(*to),
        Stmt::One { to, a, .. } => is_no_value(*to) || is_no_value(*a),
        Stmt::Two { to, a, b, .. } => is_no_value(*to) || is_no_value(*a) || is_no_value(*b),
        Stmt::New { to } => is_no_record(*to),
        Stmt::Copy { to, from } => is_no_record(*to) || is_no_register_read(*from),
        Stmt::Set { to, value, .. } => is_no_record(*to) || is_no_value(*value),
        Stmt::SetAt { to, at, value } => {
            is_no_record(*to) || is_no_value(*at) || is_no_value(*value)
        }
        Stmt::Emit { from } => is_no_record(*from),
        Stmt::If { on, .. } => is_no_value(*on),
        Stmt::Repeat { .. } => false,
        Stmt::Each { .. } => false,
    }
}

fn breaks_operands(place: Place, stmt: &Stmt) -> bool
    requires { place.lists + 1 < 2 ^ 32 }
    ensures { result ≡ breaks_operands (place_of place) (first_line stmt.now) }
{
    match stmt {
        Stmt::Get { from, .. } => !has_record(place, *from),
        Stmt::GetAt { from, .. } => !has_record(place, *from),
        Stmt::Key { .. } => !matches!(place.kind, Kind::Reduce | Kind::CoGroup),
        Stmt::Copy { from, .. } => !has_record(place, *from),
        Stmt::Each { name, list, .. } => !has_list(place, *list) || *name != place.lists + 1,
        _ => false,
    }
}

fn breaks_fields(place: Place, stmt: &Stmt) -> bool
    ensures { result ≡ breaks_fields (place_of place) (first_line stmt.now) }
{
    match stmt {
        Stmt::Get { field, .. } => *field >= place.fields,
        Stmt::Set { field, .. } => *field >= place.fields,
        _ => false,
    }
}

fn breaks_key_positions(place: Place, stmt: &Stmt) -> bool
    ensures { result ≡ breaks_key_positions (place_of place) (first_line stmt.now) }
{
    match stmt {
        Stmt::Key { at, .. } => *at >= place.keys,
        _ => false,
    }
}

fn breaks_nested_ifs(place: Place, stmt: &Stmt) -> bool
    ensures { result ≡ breaks_nested_ifs (place_of place) (first_line stmt.now) }
{
    match stmt {
        Stmt::If { .. } => place.ifs >= MAX_IFS,
        _ => false,
    }
}

fn breaks_nested_loops(place: Place, stmt: &Stmt) -> bool
    ensures { result ≡ breaks_nested_loops (place_of place) (first_line stmt.now) }
{
    match stmt {
        Stmt::Repeat { .. } => place.loops >= MAX_LOOPS,
        Stmt::Each { .. } => place.loops >= MAX_LOOPS,
        _ => false,
    }
}

fn breaks_repeats(place: Place, stmt: &Stmt) -> bool
    ensures { result ≡ breaks_repeats (place_of place) (first_line stmt.now) }
{
    match stmt {
        Stmt::Repeat { count, .. } => *count == 0 || has_many_turns(place, *count),
        _ => false,
    }
}

// Whether `count` turns, multiplied by those of the `repeat` around them, are too many.
fn has_many_turns(place: Place, count: u32) -> bool
    ensures { result ≡ nat_lt turn_limit (place.repeats * count) }
{
    place.repeats.saturating_mul(u64::from(count)) > MAX_TURNS
}

fn is_no_value(register: u32) -> bool
    ensures { result ≡ no_value_register register }
{
    register >= VALUE_REGISTERS
}

fn is_no_record(register: u32) -> bool
    ensures { result ≡ no_record_register register }
{
    register >= RECORD_REGISTERS
}

fn is_no_register_read(from: Rec) -> bool
    ensures { result ≡ no_register_read from }
{
    match from {
        Rec::Reg(register) => is_no_record(register),
        _ => false,
    }
}

// Whether a statement at this place may read the record.
fn has_record(place: Place, from: Rec) -> bool
    ensures { result ≡ has_record (place_of place) from }
{
    match from {
        Rec::Reg(_) => true,
        Rec::Loop(name) => 1 <= name && name <= place.lists,
        Rec::Input => place.kind == Kind::Map,
        Rec::Left | Rec::Right | Rec::Join => matches!(place.kind, Kind::Match | Kind::Cross),
        Rec::First => place.kind == Kind::Reduce,
    }
}

// Whether an `each` at this place may go through the list.
fn has_list(place: Place, list: LoopList) -> bool
    ensures { result ≡ has_list (place_of place) list }
{
    match list {
        LoopList::Group => place.kind == Kind::Reduce,
        LoopList::Left | LoopList::Right => place.kind == Kind::CoGroup,
    }
}
