//! The plan that is chosen for a program and the rows of its sources, and the texts that are made from it.

ghost use Rattle.std.specs.Prelude.{◌≡◌, ◌≤◌, ◌<◌, ◌+◌, ◌++◌, ◌∷◌, [], ℕ, true, cond, get_or, length, IfOk, OnOk};
ghost use Rattle.pact_operators.specs.Inputs.{AreInputsOf};
ghost use Rattle.pact_operators.specs.PlanOps.{is_source_kind};
ghost use Rattle.pact_operators.specs.Programs.{AreNames, IsPlanOf};
ghost use Rattle.plan_trees.specs.Physicals.{worker_limit};
ghost use Rattle.plan_enumerate.specs.KnownPlans.{AreKnownPlans};
ghost use Rattle.plan_enumerate.specs.Listing.{entry_limit, plans_of};
ghost use Rattle.pact_top.specs.CommandTexts as texts;
ghost use Rattle.pact_load.specs.declared.loaded.Loaded.{Loaded as LoadedData};
ghost use Rattle.ship_strategy.specs.Layouts.{layout_count};
ghost use Rattle.ship_strategy.specs.PlanFacts.{facts_of};
ghost use Rattle.ship_strategy.specs.Views.{facts_in};
ghost use Rattle.pact_top.specs.CommandTexts.{IsCertificateLine, IsChoice, IsDerived, IsOutAlone, IsPlanText};
ghost use Rattle.pact_top.specs.PrivateCalls.{ArePlansOf, IsListedChoice, IsSoundChoice};

use crate::texts::Texts;
use pact_bag::{Counts, Inputs};
use pact_load::{Loaded, is_source};
use pact_operators::{Op, Plan, Program};
use pact_record::OutOfMemory;
use plan_enumerate::{Chosen, KnownPlans, Listed, choose_known, enumerate_and_analyse, steps_of};
use plan_printer::{Shown, plan_text};
use reorder_pair::ConditionList;
use ship_strategy::{Table, layout_known};
use std::alloc::Global;
use swap_certificate::{certificate, certificate_line};

/// Which of the listed plans is chosen for some rows and with which layout, the plan itself, what is known of its
/// operators, and how many rows each source has.
#[derive(Drop)]
pub struct ListedChoice {
    pub chosen: Chosen,
    pub plan: Plan,
    pub facts: Table,
    pub counts: Counts,
}

/// The listed plans, and the best of them for some rows.
#[derive(Drop)]
pub struct Choice {
    pub listed: Listed,
    pub best: ListedChoice,
}

// How many rows a source or operator has of its own (0 for an operator), and the place of the next source. If it is a
// source, its place is `source`.
fn own_rows(op: &Op, inputs: &Inputs, source: usize) -> (u64, usize)
    requires { is_source_kind op.now.kind ≡ true → source < length inputs.now }
    ensures rows { result.0 ≡ cond (is_source_kind op.now.kind) (length (get_or inputs.now source [])) 0 }
    ensures next { result.1 ≡ cond (is_source_kind op.now.kind) (source + 1) source }
{
    // `len` makes it known that the places of sources are bounded.
    let _sources = inputs.len();
    if is_source(op.kind) {
        (inputs.at(source).len() as u64, source + 1)
    } else {
        (0, source)
    }
}

// Appends a count. The clause speaks only of success: only lack of memory makes a push fail.
fn push_count(counts: &mut Counts, count: u64) -> Result<(), OutOfMemory>
    ensures { OnOk result (counts.new ≡ counts.old ++ count ∷ []) }
{
    counts.push(count)?;
    Ok(())
}

// How many rows each source has.
fn row_counts(alloc: Global, program: &Program, inputs: &Inputs) -> Result<Counts, OutOfMemory>
    requires inputs { AreInputsOf program.now inputs.now }
    ensures { IfOk result (λ counts. counts ≡ texts.row_counts program.now.ops inputs.now) }
{
    let mut counts = Counts::new(alloc);
    let mut source = 0;
    for op in program.ops() {
        let (rows, next) = own_rows(op, inputs, source);
        push_count(&mut counts, rows)?;
        source = next;
    }
    Ok(counts)
}

/// The first listed plan of least cost for these rows, with its layout. No function is analysed here.
pub fn choose_listed(
    alloc: Global,
    program: &Program,
    inputs: &Inputs,
    listed: &Listed,
    known: &KnownPlans,
    workers: u32,
) -> Result<ListedChoice, OutOfMemory>
    requires inputs { AreInputsOf program.now inputs.now }
    requires workers { (1 ≤ workers) × (workers ≤ worker_limit) }
    requires plans { ArePlansOf program.now listed.now.entries }
    requires known { AreKnownPlans program.now (plans_of listed.now.entries) known.now }
    ensures { IfOk result (IsListedChoice program.now inputs.now workers listed.now.entries) }
{
    let counts = row_counts(alloc, program, inputs)?;
    let chosen = choose_known(program, listed, known, &counts, workers);
    let entry = chosen.entry as usize;
    let plan = listed.entries().at(entry).plan;
    let facts = *known.table(entry);
    Ok(ListedChoice {
        chosen,
        plan,
        facts,
        counts,
    })
}

/// The first plan of least cost, with its layout, among at most `plans` listed ones.
pub fn choose_plan(
    alloc: Global,
    loaded: &Loaded,
    workers: u32,
    plans: u32,
) -> Result<Choice, OutOfMemory>
    requires inputs { AreInputsOf loaded.now.program loaded.now.inputs }
    requires workers { (1 ≤ workers) × (workers ≤ worker_limit) }
    requires plans { (1 ≤ plans) × (plans ≤ entry_limit) }
    ensures { IfOk result (IsSoundChoice loaded.now workers plans) }
{
    let Loaded { program, inputs } = loaded;
    let (listed, known) = enumerate_and_analyse(alloc, program, plans)?;
    let best = choose_listed(alloc, program, inputs, &listed, &known, workers)?;
    Ok(Choice { listed, best })
}

// The exchanges that lead to the chosen plan.
fn steps_to(alloc: Global, choice: &Choice) -> Result<ConditionList, OutOfMemory>
    requires { choice.now.best.chosen.entry < length choice.now.listed.entries }
    ensures { IfOk result (λ steps. (l : LoadedData) (workers plans : ℕ) → IsChoice l workers plans choice.now → IsDerived l workers plans choice.now steps) }
{
    steps_of(alloc, &choice.listed, choice.best.chosen.entry)
}

// What `plan` shows of the choice.
fn shown(loaded: &Loaded, workers: u32, choice: Choice, steps: ConditionList) -> Shown
    requires workers { (1 ≤ workers) × (workers ≤ worker_limit) }
    requires plan { IsPlanOf loaded.now.program.functions loaded.now.program.ops choice.best.plan }
    requires facts { facts_in choice.best.facts ≡ facts_of loaded.now.program choice.best.plan }
    requires layout { choice.best.chosen.layout < layout_count loaded.now.program.ops }
    requires counts { choice.best.counts ≡ texts.row_counts loaded.now.program.ops loaded.now.inputs }
    ensures { result ≡ texts.shown loaded.now workers choice steps }
{
    let Choice { listed, best } = choice;
    let ListedChoice {
        chosen,
        plan,
        facts,
        counts,
    } = best;
    let physical = layout_known(&loaded.program, &plan, &facts, chosen.layout, workers);
    Shown {
        plans: listed.entries().len() as u32,
        complete: listed.complete(),
        entry: chosen.entry,
        layout: chosen.layout,
        cost: chosen.cost,
        physical,
        counts,
        steps,
    }
}

/// The chosen plan with its layout and the exchanges that lead to it.
pub fn plan_texts(
    alloc: Global,
    loaded: &Loaded,
    workers: u32,
    plans: u32,
) -> Result<Texts, OutOfMemory>
    requires inputs { AreInputsOf loaded.now.program loaded.now.inputs }
    requires workers { (1 ≤ workers) × (workers ≤ worker_limit) }
    requires plans { (1 ≤ plans) × (plans ≤ entry_limit) }
    ensures { IfOk result (IsOutAlone (IsPlanText loaded.now workers plans)) }
{
    let choice = choose_plan(alloc, loaded, workers, plans)?;
    let steps = steps_to(alloc, &choice)?;
    let shown = shown(loaded, workers, choice, steps);
    let out = plan_text(alloc, &loaded.program, &shown)?;
    Ok(Texts::out_alone(out))
}

/// The certificate of the exchanges that lead to the chosen plan, with a line feed after it.
pub fn certificate_texts(
    alloc: Global,
    loaded: &Loaded,
    workers: u32,
    plans: u32,
) -> Result<Texts, OutOfMemory>
    requires names { AreNames loaded.now.program.ops }
    requires inputs { AreInputsOf loaded.now.program loaded.now.inputs }
    requires workers { (1 ≤ workers) × (workers ≤ worker_limit) }
    requires plans { (1 ≤ plans) × (plans ≤ entry_limit) }
    ensures { IfOk result (IsOutAlone (IsCertificateLine loaded.now workers plans)) }
{
    let choice = choose_plan(alloc, loaded, workers, plans)?;
    let steps = steps_to(alloc, &choice)?;
    let certificate = certificate(
        alloc,
        &loaded.program,
        steps.conditions(),
        &choice.best.plan,
    )?;
    let out = certificate_line(alloc, &certificate)?;
    Ok(Texts::out_alone(out))
}
