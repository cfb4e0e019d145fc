//! Whether a declaration breaks a rule that needs only the declarations.

ghost use Rattle.std.specs.Prelude.{◌≡◌, nat_le, Some, None, IfSome, IfNone};
ghost use Rattle.std.specs.List.{list_any};
ghost use Rattle.program_check.specs.declared.program_rules.ProgramRule.TheVariants.{NotATree};
ghost use Rattle.program_check.specs.ProgramRules.{are_key_counts, column_fields, is_key_count, function_named, has_other_key_count, has_other_kind, has_wrong_field, is_declared_twice, is_of_kind, is_undeclared, some_missing, some_too_large, times_in};
ghost use Rattle.pact_operators.specs.Resolved.{names_read, node_names};
ghost use Rattle.program_check.specs.RuleTests.{AreReached, breaks};

use crate::candidates::Candidate;
use crate::counts::Counts;
use crate::name_lists::times_in;
use crate::program_rules::ProgramRule;
use crate::reached::is_not_in_tree;
use pact_record::{Column, Word};
use tac_syntax::{Decl, Function, Kind, OpKind, functions_of};

// Whether an operator of this kind reads a name that no source or operator has.
fn is_some_missing(candidate: &Candidate, kind: OpKind, left: &Word, right: &Word) -> bool
    ensures { result ≡ some_missing (names_read kind left.now right.now) (node_names candidate.now.draft.decls) }
{
    match kind {
        OpKind::Source => false,
        OpKind::Map | OpKind::Reduce => !candidate.has_node(left.bytes()),
        OpKind::Match | OpKind::Cross | OpKind::CoGroup => {
            !candidate.has_node(left.bytes()) || !candidate.has_node(right.bytes())
        }
    }
}

fn is_undeclared(candidate: &Candidate, decl: &Decl) -> bool
    ensures { result ≡ is_undeclared candidate.now.draft decl.now }
{
    match decl {
        Decl::Op {
            kind,
            function,
            left,
            right,
            ..
        } => {
            !candidate.has_function(function.bytes())
                || is_some_missing(candidate, *kind, left, right)
        }
        Decl::Sink { input, .. } => !candidate.has_node(input.bytes()),
        _ => false,
    }
}

fn is_declared_twice(candidate: &Candidate, decl: &Decl) -> bool
    ensures { result ≡ is_declared_twice candidate.now.draft decl.now }
{
    match decl {
        Decl::Source { name, .. } => candidate.has_node_twice(name.bytes()),
        Decl::Op { name, .. } => candidate.has_node_twice(name.bytes()),
        Decl::Function { .. } => candidate.has_function_twice(candidate.name_of(decl)),
        Decl::Sink { .. } => false,
    }
}

// Whether an operator of this kind may call the function.
fn is_of_kind(kind: OpKind, function: Kind) -> bool
    ensures { result ≡ is_of_kind kind function }
{
    matches!(
        (kind, function),
        (OpKind::Map, Kind::Map)
            | (OpKind::Reduce, Kind::Reduce)
            | (OpKind::Match, Kind::Match)
            | (OpKind::Cross, Kind::Cross)
            | (OpKind::CoGroup, Kind::CoGroup)
    )
}

fn function_named<'a>(functions: &'a [Function], name: &[u8]) -> Option<&'a Function>
    ensures some { IfSome result (λ f. function_named functions.now name.now ≡ Some f.now) }
    ensures none { IfNone result (function_named functions.now name.now ≡ None) }
{
    for function in functions {
        if name == function.name.bytes() {
            return Some(function);
        }
    }
    None
}

fn has_other_kind(candidate: &Candidate, decl: &Decl) -> bool
    ensures { result ≡ has_other_kind candidate.now.draft decl.now }
{
    match decl {
        Decl::Op { kind, function, .. } => {
            match function_named(functions_of(candidate.draft()), function.bytes()) {
                Some(called) => !is_of_kind(*kind, called.kind),
                None => true,
            }
        }
        _ => false,
    }
}

// Whether there is a function of this name with `count` keys.
fn has_keys(candidate: &Candidate, function: &Word, count: usize) -> bool
    ensures { result ≡ is_key_count (function_named candidate.now.draft.functions function.now) count }
{
    match function_named(functions_of(candidate.draft()), function.bytes()) {
        Some(called) => called.keys as usize == count,
        None => false,
    }
}

// Whether an operator of this kind that calls the function may have key lists of these lengths.
fn are_key_counts(
    candidate: &Candidate,
    kind: OpKind,
    function: &Word,
    left: usize,
    right: usize,
) -> bool
    ensures { result ≡ are_key_counts kind (function_named candidate.now.draft.functions function.now) left right }
{
    match kind {
        OpKind::Source | OpKind::Map | OpKind::Cross => true,
        OpKind::Match => left == right,
        OpKind::Reduce => has_keys(candidate, function, left),
        OpKind::CoGroup => {
            has_keys(candidate, function, left) && has_keys(candidate, function, right)
        }
    }
}

fn has_other_key_count(candidate: &Candidate, decl: &Decl) -> bool
    ensures { result ≡ has_other_key_count candidate.now.draft decl.now }
{
    match decl {
        Decl::Op {
            kind,
            function,
            left_keys,
            right_keys,
            ..
        } => !are_key_counts(
            candidate,
            *kind,
            function,
            left_keys.len(),
            right_keys.len(),
        ),
        _ => false,
    }
}

fn is_column_twice(columns: &[Column], all: &[u32]) -> bool
    ensures { result ≡ list_any (λ k. nat_le 2 (times_in k all.now)) (column_fields columns.now) }
{
    for column in columns {
        if times_in(column.field, all) >= 2 {
            return true;
        }
    }
    false
}

fn is_column_too_large(fields: u32, columns: &[Column]) -> bool
    ensures { result ≡ some_too_large fields (column_fields columns.now) }
{
    for column in columns {
        if column.field >= fields {
            return true;
        }
    }
    false
}

fn is_some_too_large(fields: u32, numbers: &[u32]) -> bool
    ensures { result ≡ some_too_large fields numbers.now }
{
    for number in numbers {
        if *number >= fields {
            return true;
        }
    }
    false
}

fn has_wrong_field(candidate: &Candidate, decl: &Decl) -> bool
    ensures { result ≡ has_wrong_field candidate.now.draft decl.now }
{
    let fields = candidate.draft().fields();
    match decl {
        Decl::Source { columns, .. } => {
            let columns = columns.columns();
            is_column_twice(columns, candidate.columns()) || is_column_too_large(fields, columns)
        }
        Decl::Sink {
            fields: numbers,
            ..
        } => is_some_too_large(fields, numbers.numbers()),
        _ => false,
    }
}

/// Whether a declaration breaks the rule, after declarations of these counts. False for the rules about attributes, and
/// for the rule of one sink, which no single declaration breaks.
pub fn is_broken(
    rule: ProgramRule,
    candidate: &Candidate,
    reached: &[bool],
    counts: Counts,
    decl: &Decl,
) -> bool
    requires { rule ≡ NotATree → AreReached candidate.now.draft reached.now }
    ensures { result ≡ breaks rule candidate.now.draft counts decl.now }
{
    match rule {
        ProgramRule::Undeclared => is_undeclared(candidate, decl),
        ProgramRule::DeclaredTwice => is_declared_twice(candidate, decl),
        ProgramRule::TooMany => counts.leave_no_room(decl),
        ProgramRule::NotATree => is_not_in_tree(candidate, reached, decl),
        ProgramRule::OtherKind => has_other_kind(candidate, decl),
        ProgramRule::OtherKeyCount => has_other_key_count(candidate, decl),
        ProgramRule::WrongField => has_wrong_field(candidate, decl),
        ProgramRule::NoSingleSink => false,
        ProgramRule::NoAttribute => false,
        ProgramRule::SharedAttribute => false,
    }
}
