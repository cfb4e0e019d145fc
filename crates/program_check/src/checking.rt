//! Which drafts are programs.

ghost use Rattle.std.specs.Prelude.{◌≡◌, ◌≢◌, ◌<◌, ◌+◌, ◌≤◌, IfOk, IfErr};
ghost use Rattle.program_check.specs.declared.program_rules.ProgramRule.{ProgramRule};
ghost use Rattle.program_check.specs.declared.program_rules.ProgramRule.TheVariants.{NotATree, NoSingleSink, TooMany, NoAttribute};
ghost use Rattle.program_check.specs.declared.checking.NotProgram.TheVariants.{Memory};
ghost use Rattle.program_check.specs.AttributeTests.{AreAttributesKnown};
ghost use Rattle.program_check.specs.Checks.{BreaksFirstAt, IsToldBy, KeepsBefore};
ghost use Rattle.program_check.specs.ProgramRules.{Keeps, code_of_rule, order_of};
ghost use Rattle.pact_operators.specs.Programs.{AreNames, AreValidated, IsProgram, IsProgramOf, IsWrittenPlan, NamesDiffer};
ghost use Rattle.program_check.specs.RuleTests.{AreReached};

use crate::candidates::Candidate;
use crate::first_breaks::{first_attribute_break, first_break};
use crate::program_rules::ProgramRule;
use crate::reached::reached_operators;
use crate::resolving::{sink_fields, small_ops};
use crate::written_plans::written_plan;
use pact_operators::{Op, Program};
use pact_record::{OutOfMemory, Word};
use plan_trees::Plan;
use std::alloc::Global;
use tac_syntax::{Draft, Valid, ValidList};

/// Why a draft isn't a program.
#[derive(Debug, Drop)]
pub enum NotProgram {
    /// The code of the first rule that is broken, and what the first declaration that breaks it is called.
    Bad { code: u32, name: Word },
    Memory,
}

impl From<OutOfMemory> for NotProgram {
    ghost use Rattle.program_check.specs.declared.checking.NotProgram.TheVariants.{Memory};

    ghost from_gives = { λ _ e. e ≡ Memory };

    fn from(_: OutOfMemory) -> NotProgram {
        NotProgram::Memory
    }
}

fn code_of(rule: ProgramRule) -> u32
    ensures { result ≡ code_of_rule rule }
{
    match rule {
        ProgramRule::Undeclared => 1,
        ProgramRule::DeclaredTwice => 2,
        ProgramRule::OtherKind => 3,
        ProgramRule::OtherKeyCount => 4,
        ProgramRule::NoAttribute => 5,
        ProgramRule::SharedAttribute => 6,
        ProgramRule::NotATree => 7,
        ProgramRule::TooMany => 8,
        ProgramRule::NoSingleSink => 9,
        ProgramRule::WrongField => 10,
    }
}

// The refusal of a candidate, if the declaration at `place` is the first that breaks the rule.
fn refusal(alloc: Global, rule: ProgramRule, candidate: &Candidate, place: usize) -> NotProgram
    requires first { BreaksFirstAt rule candidate.now place }
    requires earlier { KeepsBefore (order_of rule) candidate.now }
    ensures { IsToldBy candidate.now.draft candidate.now.valids result }
{
    match Word::from_bytes(alloc, candidate.name_of(&candidate.decls()[place])) {
        Ok(name) => NotProgram::Bad {
            code: code_of(rule),
            name,
        },
        Err(_) => NotProgram::Memory,
    }
}

fn check_rule(
    alloc: Global,
    rule: ProgramRule,
    candidate: &Candidate,
    reached: &[bool],
) -> Result<(), NotProgram>
    requires early { order_of rule < order_of NoAttribute }
    requires sink { rule ≢ NoSingleSink }
    requires reached { rule ≡ NotATree → AreReached candidate.now.draft reached.now }
    requires earlier { KeepsBefore (order_of rule) candidate.now }
    ensures kept { IfOk result (λ _. KeepsBefore (order_of rule + 1) candidate.now) }
    ensures refused { IfErr result (λ e. IsToldBy candidate.now.draft candidate.now.valids e) }
{
    match first_break(rule, candidate, reached) {
        Some(place) => Err(refusal(alloc, rule, candidate, place)),
        None => Ok(()),
    }
}

fn check_attributes(
    alloc: Global,
    rule: ProgramRule,
    candidate: &Candidate,
    ops: &[Op],
    plan: &Plan,
) -> Result<(), NotProgram>
    requires late { order_of NoAttribute ≤ order_of rule }
    requires known { AreAttributesKnown candidate.now ops.now }
    requires plan { IsWrittenPlan candidate.now.draft plan.now }
    requires earlier { KeepsBefore (order_of rule) candidate.now }
    ensures kept { IfOk result (λ _. KeepsBefore (order_of rule + 1) candidate.now) }
    ensures refused { IfErr result (λ e. IsToldBy candidate.now.draft candidate.now.valids e) }
{
    match first_attribute_break(rule, candidate, ops, plan) {
        Some(place) => Err(refusal(alloc, rule, candidate, place)),
        None => Ok(()),
    }
}

fn check_sinks(alloc: Global, candidate: &Candidate) -> Result<(), NotProgram>
    requires { KeepsBefore (order_of NoSingleSink) candidate.now }
    ensures kept { IfOk result (λ _. KeepsBefore (order_of TooMany) candidate.now) }
    ensures refused { IfErr result (λ e. IsToldBy candidate.now.draft candidate.now.valids e) }
{
    if candidate.sinks().len() != 1 {
        return Err(NotProgram::Bad {
            code: code_of(ProgramRule::NoSingleSink),
            name: Word::from_bytes(alloc, b"")?,
        });
    }
    Ok(())
}

// Checks the rules that need only the declarations, in their order.
fn check_declarations(alloc: Global, candidate: &Candidate) -> Result<(), NotProgram>
    ensures kept { IfOk result (λ _. KeepsBefore (order_of NoAttribute) candidate.now) }
    ensures refused { IfErr result (λ e. IsToldBy candidate.now.draft candidate.now.valids e) }
{
    // Only the rule `NotATree` needs to know which operators are reached.
    check_rule(alloc, ProgramRule::Undeclared, candidate, &[])?;
    check_rule(alloc, ProgramRule::DeclaredTwice, candidate, &[])?;
    check_sinks(alloc, candidate)?;
    check_rule(alloc, ProgramRule::TooMany, candidate, &[])?;
    let reached = reached_operators(alloc, candidate)?;
    check_rule(alloc, ProgramRule::NotATree, candidate, &reached)?;
    check_rule(alloc, ProgramRule::OtherKind, candidate, &[])?;
    check_rule(alloc, ProgramRule::OtherKeyCount, candidate, &[])?;
    check_rule(alloc, ProgramRule::WrongField, candidate, &[])
}

// What a program has in addition to its functions.
#[derive(Drop)]
struct Resolved {
    ops: Vec<Op>,
    plan: Plan,
    sink: Vec<u32>,
}

fn resolve(alloc: Global, draft: &Draft, valids: &[Valid]) -> Result<Resolved, NotProgram>
    requires { AreValidated draft.now valids.now }
    ensures program { IfOk result (λ r. IsProgramOf draft.now valids.now (record { version = draft.now.version; fields = draft.now.fields; functions = valids.now; ops = r.ops.items; plan = r.plan; sink = r.sink.items })) }
    ensures whole { IfOk result (λ r. IsProgram (record { version = draft.now.version; fields = draft.now.fields; functions = valids.now; ops = r.ops.items; plan = r.plan; sink = r.sink.items })) }
    ensures kept { IfOk result (λ _. (rule : ProgramRule) → Keeps rule draft.now valids.now) }
    ensures refused { IfErr result (λ e. IsToldBy draft.now valids.now e) }
{
    let candidate = Candidate::of(alloc, draft, valids)?;
    check_declarations(alloc, &candidate)?;
    let plan = written_plan(alloc, &candidate)?;
    let ops = small_ops(alloc, candidate.functions(), candidate.decls())?;
    check_attributes(alloc, ProgramRule::NoAttribute, &candidate, &ops, &plan)?;
    check_attributes(alloc, ProgramRule::SharedAttribute, &candidate, &ops, &plan)?;
    let sink = sink_fields(alloc, candidate.decls())?;
    Ok(Resolved { ops, plan, sink })
}

/// The program that the draft declares, with its functions, which were found valid. Only out of memory may be reported
/// without a cause in the draft.
pub fn check_program(
    alloc: Global,
    draft: &Draft,
    functions: ValidList,
) -> Result<Program, NotProgram>
    requires { AreValidated draft.now functions }
    ensures program { IfOk result (λ p. IsProgramOf draft.now functions p) }
    ensures kept { IfOk result (λ _. (rule : ProgramRule) → Keeps rule draft.now functions) }
    ensures names_differ { IfOk result (λ p. NamesDiffer p.ops) }
    ensures names { IfOk result (λ p. AreNames p.ops) }
    ensures refused { IfErr result (λ e. IsToldBy draft.now functions e) }
    ensures complete { ((rule : ProgramRule) → Keeps rule draft.now functions) → IfErr result (λ e. e ≡ Memory) }
{
    // `decls` makes it known that some text spells the draft.
    let _decls = draft.decls();
    let resolved = resolve(alloc, draft, functions.functions())?;
    Ok(Program::of(
        draft.version(),
        draft.fields(),
        functions,
        resolved.ops,
        resolved.plan,
        resolved.sink,
    ))
}
