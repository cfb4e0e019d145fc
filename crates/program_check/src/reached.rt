//! Which sources and operators are reached from the sinks.

ghost use Rattle.std.specs.Prelude.{◌≡◌, suc, ℕ, length, map, IfOk};
ghost use Rattle.program_check.specs.ProgramRules.{is_not_in_tree, is_out_of_tree, is_reached, is_reader};
ghost use Rattle.program_check.specs.RuleTests.{AreReached, is_reached_reader, reached_within};

use crate::candidates::Candidate;
use crate::name_lists::{is_among, times_among};
use pact_record::OutOfMemory;
use std::alloc::Global;
use tac_syntax::{Decl, OpKind};

// Whether the declaration is an operator that reads the source or operator with this name.
fn is_reader(name: &[u8], decl: &Decl) -> bool
    ensures { result ≡ is_reader name.now decl.now }
{
    match decl {
        Decl::Op {
            kind,
            left,
            right,
            ..
        } => match kind {
            OpKind::Source => false,
            OpKind::Map | OpKind::Reduce => name == left.bytes(),
            OpKind::Match | OpKind::Cross | OpKind::CoGroup => {
                name == left.bytes() || name == right.bytes()
            }
        },
        _ => false,
    }
}

// Whether one of the reached operators reads the source or operator with this name.
fn is_read_by_reached(name: &[u8], decls: &[Decl], reached: &[bool]) -> bool
    requires { length reached.now ≡ length decls.now }
    ensures { result ≡ is_reached_reader name.now decls.now reached.now }
{
    for (n, decl) in decls.iter().enumerate() {
        if reached[n] && is_reader(name, decl) {
            return true;
        }
    }
    false
}

// Whether a sink or one of the reached operators reads the source or operator with this name.
fn is_reached(candidate: &Candidate, reached: &[bool], name: &[u8]) -> bool
    requires { length reached.now ≡ length candidate.now.draft.decls }
    ensures { (n : ℕ) → reached.now ≡ map (reached_within n candidate.now.draft) candidate.now.draft.decls → result ≡ is_reached n candidate.now.draft name.now }
{
    is_among(name, candidate.sinks()) || is_read_by_reached(name, candidate.decls(), reached)
}

// The operators that are reached over one more operator.
fn next_reached(
    alloc: Global,
    candidate: &Candidate,
    reached: &[bool],
) -> Result<Vec<bool>, OutOfMemory>
    requires { length reached.now ≡ length candidate.now.draft.decls }
    ensures { IfOk result (λ more. (n : ℕ) → reached.now ≡ map (reached_within n candidate.now.draft) candidate.now.draft.decls
        → more.items ≡ map (reached_within (suc n) candidate.now.draft) candidate.now.draft.decls) }
{
    let mut more = Vec::new(alloc);
    for decl in candidate.decls() {
        let is_operator = matches!(decl, Decl::Op { .. });
        more.push(is_operator && is_reached(candidate, reached, candidate.name_of(decl)))?;
    }
    Ok(more)
}

fn none_reached(alloc: Global, candidate: &Candidate) -> Result<Vec<bool>, OutOfMemory>
    ensures { IfOk result (λ reached. reached.items ≡ map (reached_within 0 candidate.now.draft) candidate.now.draft.decls) }
{
    let mut reached = Vec::new(alloc);
    for _decl in candidate.decls() {
        reached.push(false)?;
    }
    Ok(reached)
}

/// For each operator, whether it is reached; false for other declarations. It goes through the declarations once for
/// each operator.
pub fn reached_operators(alloc: Global, candidate: &Candidate) -> Result<Vec<bool>, OutOfMemory>
    ensures { IfOk result (λ reached. AreReached candidate.now.draft reached.items) }
{
    let mut reached = none_reached(alloc, candidate)?;
    for decl in candidate.decls() {
        if matches!(decl, Decl::Op { .. }) {
            reached = next_reached(alloc, candidate, &reached)?;
        }
    }
    Ok(reached)
}

fn is_out_of_tree(candidate: &Candidate, reached: &[bool], name: &[u8]) -> bool
    requires { AreReached candidate.now.draft reached.now }
    ensures { result ≡ is_out_of_tree candidate.now.draft name.now }
{
    times_among(name, candidate.inputs()) != 1 || !is_reached(candidate, reached, name)
}

/// Whether the declaration is a source or an operator that isn't read exactly once, or isn't reached.
pub fn is_not_in_tree(candidate: &Candidate, reached: &[bool], decl: &Decl) -> bool
    requires { AreReached candidate.now.draft reached.now }
    ensures { result ≡ is_not_in_tree candidate.now.draft decl.now }
{
    match decl {
        Decl::Source { name, .. } => is_out_of_tree(candidate, reached, name.bytes()),
        Decl::Op { name, .. } => is_out_of_tree(candidate, reached, name.bytes()),
        _ => false,
    }
}
