//! The pruned program and physical plan.

ghost use Rattle.std.specs.Prelude.{◌≡◌, ◌<◌, ◌+◌, ◌↔◌, ◌&&◌, not, List, IfOk, IfSome, IsTrue, get_or, length, true};
ghost use Rattle.pact_record.specs.FieldSets.{has_field};
ghost use Rattle.plan_trees.specs.declared.physicals.Ship.TheVariants.{Forward};
ghost use Rattle.plan_trees.specs.Physicals.{IsPhysical, has_edge};
ghost use Rattle.plan_trees.specs.Plans.{has};
ghost use Rattle.pact_operators.specs.Allowed.{Bag};
ghost use Rattle.pact_operators.specs.Inputs.{AreInputsOf};
ghost use Rattle.pact_operators.specs.Programs.{IsPlanOf, IsProgram, function_limit, is_operator_kind, operator_limit, times_of_kind};
ghost use Rattle.ship_strategy.specs.PlanFacts.{facts_of};
ghost use Rattle.ship_strategy.specs.Ships.{LegalShip};
ghost use Rattle.prune_fields.specs.Needs as needs;
ghost use Rattle.prune_fields.specs.Needs.{AreNeedsOf};
ghost use Rattle.prune_fields.specs.NeedTables.{needs_in};
ghost use Rattle.prune_fields.specs.PrunedPlans as specs;
ghost use Rattle.prune_fields.specs.PrunedPlans.{IsPruned, IsPrunedBelow, is_forward};
ghost use Rattle.prune_fields.specs.SameAnswers.{AnswersSame, RunsAnswer};

use crate::keeping::keep_at;
use crate::need_tables::NeedTable;
use crate::needs::needs_of_all;
use pact_operators::{Plan, Program, attrs};
use pact_record::{Fields, OutOfMemory};
use plan_trees::{Physical, Ship};
use std::alloc::Global;

/// The number of a source or an operator whose records are cut, and the fields that are kept of them.
#[derive(Clone, Copy, Debug)]
pub struct Kept {
    pub at: u32,
    pub fields: Fields,
}

/// A program with a physical plan of it, in which fields that aren't needed are dropped before records are shipped. The
/// list is in the order of numbers.
#[derive(Debug, Drop)]
pub struct Pruned {
    pub program: Program,
    pub physical: Physical,
    pub kept: Vec<Kept>,
}

// Whether the number's records are shipped: it isn't the root, and doesn't ship Forward.
fn is_shipped(physical: &Physical, at: u32) -> bool
    requires { has at physical.now.tree ≡ true }
    ensures { result ≡ (has_edge at physical.now.tree && not (is_forward (get_or physical.now.ships at Forward))) }
{
    let Some(ship) = physical.ship(at) else {
        return false;
    };
    if let Ship::Forward = ship {
        return false;
    }
    true
}

// Whether some of its attributes aren't needed.
fn has_spare(program: &Program, physical: &Physical, at: u32, needed: Fields) -> bool
    requires program { IsProgram program.now }
    requires there { has at physical.now.tree ≡ true }
    requires needed { has_field needed ≡ needs.need program.now physical.now.tree at }
    ensures { result ≡ specs.has_spare program.now physical.now.tree at }
{
    let attributes = attrs(program, physical.plan(), at);
    !attributes.is_subset(needed)
}

// The table of needed fields. It is filled now if it isn't known yet.
fn table_of(program: &Program, plan: &Plan, known: Option<NeedTable>) -> NeedTable
    requires plan { IsPlanOf program.now.functions program.now.ops plan.now }
    requires known { IfSome known (λ t. AreNeedsOf program.now plan.now (needs_in t)) }
    ensures { AreNeedsOf program.now plan.now (needs_in result) }
{
    match known {
        Some(table) => table,
        None => needs_of_all(program, plan),
    }
}

// The needed fields of a number. The first call fills the table.
fn needed_at(program: &Program, plan: &Plan, known: &mut Option<NeedTable>, at: u32) -> Fields
    requires plan { IsPlanOf program.now.functions program.now.ops plan.now }
    requires there { has at plan.now ≡ true }
    requires known { IfSome known.old (λ t. AreNeedsOf program.now plan.now (needs_in t)) }
    ensures needed { has_field result ≡ needs.need program.now plan.now at }
    ensures known { IfSome known.new (λ t. AreNeedsOf program.now plan.now (needs_in t)) }
{
    let table = table_of(program, plan, *known);
    *known = Some(table);
    table.at(at)
}

// Inserts a Map on this number's edge, if the edge gets one.
fn pruned_at(
    alloc: Global,
    program: &Program,
    physical: &Physical,
    so_far: Pruned,
    known: &mut Option<NeedTable>,
    at: u32,
) -> Result<Pruned, OutOfMemory>
    requires program { IsProgram program.now }
    requires physical { IsPhysical physical.now }
    requires there { at < length program.now.ops }
    requires plan { IsPlanOf program.now.functions program.now.ops physical.now.tree }
    requires so_far { IsPrunedBelow program.now physical.now at so_far.program so_far.physical so_far.kept.items }
    requires known { IfSome known.old (λ t. AreNeedsOf program.now physical.now.tree (needs_in t)) }
    ensures pruned { IfOk result (λ c. IsPrunedBelow program.now physical.now (at + 1) c.program c.physical c.kept.items) }
    ensures known { IfSome known.new (λ t. AreNeedsOf program.now physical.now.tree (needs_in t)) }
{
    if !is_shipped(physical, at) {
        return Ok(so_far);
    }
    if !so_far.program.has_room(1) {
        return Ok(so_far);
    }
    // The first call analyses every operator, so it comes after the two cheaper tests.
    let needed = needed_at(program, physical.plan(), known, at);
    if !has_spare(program, physical, at, needed) {
        return Ok(so_far);
    }
    let Pruned {
        program,
        physical,
        kept,
    } = so_far;
    let mut kept = kept;
    kept.push(Kept { at, fields: needed })?;
    let (program, physical) = keep_at(alloc, program, physical, at, needed)?;
    Ok(Pruned {
        program,
        physical,
        kept,
    })
}

// Inserts all Maps, in the order of numbers.
fn all_pruned(alloc: Global, program: &Program, physical: &Physical) -> Result<Pruned, OutOfMemory>
    requires program { IsProgram program.now }
    requires physical { IsPhysical physical.now }
    requires plan { IsPlanOf program.now.functions program.now.ops physical.now.tree }
    ensures { IfOk result (λ c. IsPruned program.now physical.now c.program c.physical c.kept.items) }
{
    let mut pruned = Pruned {
        program: program.copy(alloc)?,
        physical: *physical,
        kept: Vec::new(alloc),
    };
    let mut known = None;
    for at in 0..program.ops().len() as u32 {
        pruned = pruned_at(alloc, program, physical, pruned, &mut known, at)?;
    }
    Ok(pruned)
}

/// The pruned plan. In the order of their numbers, sources and operators get a Map on their edge that keeps the needed
/// fields of their records. This goes on while there are fewer than 16 operators and fewer than 64 functions. No Map is
/// inserted for the root, for an edge that ships Forward, or if all attributes are needed. Both plans give the same
/// records, cut to the sink's fields, with the same counts at the program's operators. The only error is out of memory.
pub fn prune(alloc: Global, program: &Program, physical: &Physical) -> Result<Pruned, OutOfMemory>
    requires plan { IsPlanOf program.now.functions program.now.ops physical.now.tree }
    requires legal { LegalShip (facts_of program.now physical.now.tree) physical.now }
    ensures pruned { IfOk result (λ c. IsPruned program.now physical.now c.program c.physical c.kept.items) }
    ensures plan { IfOk result (λ c. IsPlanOf c.program.functions c.program.ops c.physical.tree) }
    ensures legal { IfOk result (λ c. LegalShip (facts_of c.program c.physical.tree) c.physical) }
    ensures version { IfOk result (λ c. c.program.version ≡ program.now.version) }
    ensures fields { IfOk result (λ c. c.program.fields ≡ program.now.fields) }
    ensures sink { IfOk result (λ c. c.program.sink ≡ program.now.sink) }
    ensures workers { IfOk result (λ c. c.physical.workers ≡ physical.now.workers) }
    ensures inputs { IfOk result (λ c. (inputs : List Bag) → AreInputsOf program.now inputs → AreInputsOf c.program inputs) }
    ensures same { IfOk result (λ c. AnswersSame program.now physical.now c.program c.physical) }
    ensures runs { IfOk result (λ c. RunsAnswer program.now physical.now c.program c.physical) }
{
    // this call shows the prover that the program keeps every rule
    let _fields = program.fields();
    // this call shows the prover that the physical plan is a valid one
    let _workers = physical.workers();
    all_pruned(alloc, program, physical)
}
