//! The plan of a program as it is written.

ghost use Rattle.std.specs.Prelude.{◌≡◌, ◌++◌, ◌∷◌, [], map, IfOk};
ghost use Rattle.program_check.specs.Checks.{KeepsBefore};
ghost use Rattle.program_check.specs.PlanReads.{IsPlannedFrom, inputs_as};
ghost use Rattle.plan_trees.specs.Plans.{root_of};
ghost use Rattle.pact_operators.specs.Programs.{Follows, IsWrittenPlan};
ghost use Rattle.program_check.specs.ProgramRules.{order_of};
ghost use Rattle.pact_operators.specs.Resolved.{inputs_of, inputs_read};
ghost use Rattle.program_check.specs.declared.program_rules.ProgramRule.TheVariants.{OtherKind};

use crate::candidates::Candidate;
use crate::name_lists::place_among;
use pact_record::{OutOfMemory, Word};
use plan_trees::{MAX_NODES, Plan};
use std::alloc::Global;
use tac_syntax::{Decl, OpKind};

/// What a source or an operator reads.
#[derive(Clone, Copy)]
pub enum Reads {
    Nothing,
    One { at: usize },
    Two { left: usize, right: usize },
}

fn reads_of(nodes: &[Word], kind: OpKind, left: &Word, right: &Word) -> Reads
    ensures { inputs_as result ≡ inputs_read nodes.now kind left.now right.now }
{
    match kind {
        OpKind::Source => Reads::Nothing,
        OpKind::Map | OpKind::Reduce => Reads::One {
            at: place_among(left.bytes(), nodes),
        },
        OpKind::Match | OpKind::Cross | OpKind::CoGroup => Reads::Two {
            left: place_among(left.bytes(), nodes),
            right: place_among(right.bytes(), nodes),
        },
    }
}

fn with_reads(reads: Vec<Reads>, nodes: &[Word], decl: &Decl) -> Result<Vec<Reads>, OutOfMemory>
    ensures { IfOk result (λ more. map inputs_as more.items ≡ map inputs_as reads.items ++ inputs_of nodes.now (decl.now ∷ [])) }
{
    let mut more = reads;
    match decl {
        Decl::Source { .. } => more.push(Reads::Nothing)?,
        Decl::Op {
            kind,
            left,
            right,
            ..
        } => more.push(reads_of(nodes, *kind, left, right))?,
        _ => {}
    }
    Ok(more)
}

// What each source and operator reads, in text order.
fn all_reads(alloc: Global, nodes: &[Word], decls: &[Decl]) -> Result<Vec<Reads>, OutOfMemory>
    ensures { IfOk result (λ reads. map inputs_as reads.items ≡ inputs_of nodes.now decls.now) }
{
    let mut reads = Vec::new(alloc);
    for decl in decls {
        reads = with_reads(reads, nodes, decl)?;
    }
    Ok(reads)
}

// The tree whose root has the number `at`. It has at most `count` nodes, which bounds the recursion.
fn tree_at(reads: &[Reads], at: usize, count: u32) -> Plan
    requires { IsPlannedFrom (map inputs_as reads.now) at count }
    ensures follows { Follows (map inputs_as reads.now) result }
    ensures root { root_of result ≡ at }
{
    match reads[at] {
        Reads::Nothing => Plan::leaf(at as u32),
        Reads::One { at: input } => Plan::over(at as u32, &tree_at(reads, input, count - 1)),
        Reads::Two { left, right } => {
            let left = tree_at(reads, left, count - 1);
            let right = tree_at(reads, right, count - 1);
            Plan::pair(at as u32, &left, &right)
        }
    }
}

/// The tree of all sources and operators, whose root is what the sink names.
pub fn written_plan(alloc: Global, candidate: &Candidate) -> Result<Plan, OutOfMemory>
    requires { KeepsBefore (order_of OtherKind) candidate.now }
    ensures { IfOk result (λ plan. IsWrittenPlan candidate.now.draft plan) }
{
    let nodes = candidate.nodes();
    let reads = all_reads(alloc, nodes, candidate.decls())?;
    let root = place_among(candidate.sinks()[0].bytes(), nodes);
    Ok(tree_at(&reads, root, MAX_NODES as u32))
}
