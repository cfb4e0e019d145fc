//! The combined plan of a physical plan.

ghost use Rattle.std.specs.Prelude.{◌≡◌, ◌<◌, ◌++◌, ◌↔◌, ℕ, List, [], decimal, IfOk, IsTrue, length};
ghost use Rattle.pact_operators.specs.Allowed.{Bag};
ghost use Rattle.pact_operators.specs.Inputs.{AreInputsOf};
ghost use Rattle.pact_operators.specs.Programs.{IsPlanOf, is_operator_kind, times_of_kind};
ghost use Rattle.tac_syntax.specs.declared.declarations.OpKind.TheVariants.{Reduce};
ghost use Rattle.combine_rule.specs.CombinedPrograms.{CanCombine, combined_at, planned, IsCombinedFrom, IsCombinedPlan};
ghost use Rattle.combine_rule.specs.CombinedRuns.{IsCountedFor, AreSentOnce, AllPutOnePerKey};

use crate::deciding::combinable;
use crate::halves::partial;
use crate::parts::Partial;
use pact_operators::{Op, Program, context, insert, replace};
use pact_record::OutOfMemory;
use plan_trees::{Parts, Physical, Ship};
use std::alloc::Global;
use tac_syntax::OpKind;

/// A program with a physical plan of it, in which each Reduce that may be combined is. The list pairs the number of
/// each inserted operator with that of its Reduce.
#[derive(Debug, Drop)]
pub struct Combined {
    pub program: Program,
    pub physical: Physical,
    pub of: Vec<(u32, u32)>,
}

// Whether the operator is a Reduce that may be combined.
fn can_combine(program: &Program, physical: &Physical, at: u32) -> bool
    requires there { at < length program.now.ops }
    requires plan { IsPlanOf program.now.functions program.now.ops physical.now.tree }
    ensures { IsTrue result ↔ CanCombine (planned program.now physical.now) at }
{
    let op = &program.ops()[at as usize];
    if op.kind != OpKind::Reduce {
        return false;
    }
    let Parts::OverOne { input, .. } = physical.plan().subtree(at).parts() else {
        return false;
    };
    let Some(ship) = physical.ship(input.root()) else {
        return false;
    };
    let Ship::Partition(_) = ship else {
        return false;
    };
    // the inserted operator calls one function, and the Reduce another one
    if !program.has_room(2) {
        return false;
    }
    let attributes = context(program, physical.plan(), at).left;
    combinable(program.function_at(at), &op.left_keys, attributes)
}

// Combines the Reduce.
fn combine_one(
    alloc: Global,
    program: Program,
    physical: Physical,
    at: u32,
) -> Result<(Program, Physical), OutOfMemory>
    requires plan { IsPlanOf program.functions program.ops physical.tree }
    requires combinable { CanCombine (planned program physical) at }
    ensures { IfOk result (λ r. (c : CanCombine (planned program physical) at) × (planned r.0 r.1 ≡ combined_at (planned program physical) at c)) }
{
    let new = program.ops().len() as u32;
    let Some(below) = physical.plan().input(at, 0) else {
        unreachable!()
    };
    let attributes = context(&program, physical.plan(), at).left;
    let keys = program.ops()[at as usize].left_keys;
    let Partial { sender, merger } = partial(alloc, program.function_at(at), &keys, attributes)?;
    let op = Op::inserted(alloc, new, OpKind::Reduce, keys)?;
    let (grown, moved) = insert(program, physical, below, op, sender)?;
    let changed = replace(grown, at, merger)?;
    Ok((changed, moved))
}

// Combines the operator with the number if it may be combined.
fn combined_at(alloc: Global, so_far: Combined, at: u32) -> Result<Combined, OutOfMemory>
    requires there { at < length so_far.program.ops }
    requires plan { IsPlanOf so_far.program.functions so_far.program.ops so_far.physical.tree }
    ensures { IfOk result (λ c. (more : List (ℕ × ℕ)) × (c.of.items ≡ so_far.of.items ++ more) × IsCombinedFrom 1 at (planned so_far.program so_far.physical) (planned c.program c.physical) more) }
{
    if !can_combine(&so_far.program, &so_far.physical, at) {
        return Ok(so_far);
    }
    let Combined {
        program,
        physical,
        of,
    } = so_far;
    let mut of = of;
    of.push((program.ops().len() as u32, at))?;
    let (program, physical) = combine_one(alloc, program, physical, at)?;
    Ok(Combined {
        program,
        physical,
        of,
    })
}

fn all_combined(
    alloc: Global,
    program: &Program,
    physical: &Physical,
) -> Result<Combined, OutOfMemory>
    requires { IsPlanOf program.now.functions program.now.ops physical.now.tree }
    ensures { IfOk result (λ c. IsCombinedPlan (planned program.now physical.now) (planned c.program c.physical) c.of.items) }
{
    let mut combined = Combined {
        program: program.copy(alloc)?,
        physical: *physical,
        of: Vec::new(alloc),
    };
    for at in 0..program.ops().len() as u32 {
        combined = combined_at(alloc, combined, at)?;
    }
    Ok(combined)
}

/// The combined plan. In the order of their numbers, each Reduce gets an operator on its input's edge if that edge is
/// Partition and its function may be split. The new operator reduces each worker's records to one record per key. This
/// goes on while the program has fewer than 16 operators and fewer than 63 functions. A run of the combined plan leaves
/// a result that the original plan allows, with the same counts for its operators.
pub fn combine(
    alloc: Global,
    program: &Program,
    physical: &Physical,
) -> Result<Combined, OutOfMemory>
    requires { IsPlanOf program.now.functions program.now.ops physical.now.tree }
    ensures combined { IfOk result (λ c. IsCombinedPlan (planned program.now physical.now) (planned c.program c.physical) c.of.items) }
    ensures plan { IfOk result (λ c. IsPlanOf c.program.functions c.program.ops c.physical.tree) }
    ensures version { IfOk result (λ c. c.program.version ≡ program.now.version) }
    ensures fields { IfOk result (λ c. c.program.fields ≡ program.now.fields) }
    ensures sink { IfOk result (λ c. c.program.sink ≡ program.now.sink) }
    ensures workers { IfOk result (λ c. c.physical.workers ≡ physical.now.workers) }
    ensures inputs { IfOk result (λ c. (inputs : List Bag) → AreInputsOf program.now inputs → AreInputsOf c.program inputs) }
    ensures counted { IfOk result (λ c. IsCountedFor (planned program.now physical.now) (planned c.program c.physical)) }
    ensures once { IfOk result (λ c. AreSentOnce (planned program.now physical.now) (planned c.program c.physical) c.of.items) }
    ensures sent_once { IfOk result (λ c. AllPutOnePerKey (planned c.program c.physical) c.of.items) }
{
    // this call shows the prover that the program keeps every rule
    let _fields = program.fields();
    // this call shows the prover that the physical plan is a valid one
    let _workers = physical.workers();
    all_combined(alloc, program, physical)
}
