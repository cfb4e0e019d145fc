//! Runs of the chosen plan, and the texts made from them.

ghost use Rattle.std.specs.Prelude.{◌≡◌, ◌<◌, ◌++◌, IfOk, OnOk};
ghost use Rattle.pact_operators.specs.Inputs.{AreInputsOf};
ghost use Rattle.pact_operators.specs.Programs.{IsPlanOf, IsProgram};
ghost use Rattle.pact_record.specs.Widths.{AreWide};
ghost use Rattle.pact_words.specs.Words.{AreOptionsInRange};
ghost use Rattle.reorder_pair.specs.Legal.{KeepAnswers};
ghost use Rattle.bag_lines.specs.Lines.{AreLines};
ghost use Rattle.ship_strategy.specs.Layouts.{layout_count};
ghost use Rattle.ship_strategy.specs.PlanFacts.{facts_of};
ghost use Rattle.ship_strategy.specs.Views.{facts_in};
ghost use Rattle.pact_top.specs.CommandTexts.{IsAnswerOf, keeps_text};
ghost use Rattle.pact_top.specs.PrivateCalls.{AreReportedCounts, IsLayoutOutcome};

use crate::choosing::{ListedChoice, choose_plan};
use crate::formatters::Formatter;
use crate::rewriting::{RunOutcome, run_rewritten};
use crate::runners::Runner;
use crate::texts::Texts;
use pact_bag::{Counts, Inputs, Outcome, Rows};
use pact_load::Loaded;
use pact_operators::{Plan, Program};
use pact_record::{Bytes, OutOfMemory};
use pact_words::{Options, Rewrites};
use plan_printer::{counts_text, push_keeps, push_partials};
use prune_fields::Kept;
use ship_strategy::layout_known;
use std::alloc::Global;

/// What a run of the chosen plan in parts gives, in the chosen layout. Cut to the sink's fields, the records are those
/// of a bag that the plan as written also allows.
pub fn run_plan<T: Runner>(
    alloc: Global,
    program: &Program,
    inputs: Inputs,
    best: &ListedChoice,
    options: Options,
    rewrites: Rewrites,
    runner: &T,
) -> Result<RunOutcome, OutOfMemory>
    requires inputs { AreInputsOf program.now inputs }
    requires options { AreOptionsInRange options }
    requires plan { IsPlanOf program.now.functions program.now.ops best.now.plan }
    requires facts { facts_in best.now.facts ≡ facts_of program.now best.now.plan }
    requires layout { best.now.chosen.layout < layout_count program.now.ops }
    requires answers { KeepAnswers program.now program.now.plan best.now.plan }
    requires runs { T.ready runner.now }
    ensures { IfOk result (IsLayoutOutcome (record { program = program.now; inputs = inputs }) options.workers best.now.plan best.now.chosen.layout rewrites.prune rewrites.combine) }
{
    let ListedChoice {
        chosen,
        plan,
        facts,
        counts: _,
    } = best;
    let physical = layout_known(program, plan, facts, chosen.layout, options.workers);
    run_rewritten(alloc, program, &physical, inputs, options, rewrites, runner)
}

// Appends the `keeps` lines to the counts, one for each source or operator whose records lost fields.
fn push_kept(
    alloc: Global,
    text: &mut Bytes,
    program: &Program,
    kept: &[Kept],
) -> Result<(), OutOfMemory>
    ensures { OnOk result (text.new ≡ text.old ++ keeps_text program.now kept.now) }
{
    for one in kept {
        push_keeps(alloc, text, program, one.at, one.fields)?;
    }
    Ok(())
}

// The counts of a run of the chosen plan, if they are asked for, with the fields that were kept and the numbers of
// partial groups.
fn reported_counts(
    alloc: Global,
    program: &Program,
    plan: &Plan,
    counts: &Counts,
    kept: &[Kept],
    combined: &[(u32, u32)],
    asked: bool,
) -> Result<Option<Bytes>, OutOfMemory>
    requires plan { IsPlanOf program.now.functions program.now.ops plan.now }
    ensures { IfOk result (AreReportedCounts program.now plan.now counts.now kept.now combined.now asked) }
{
    if !asked {
        return Ok(None);
    }
    let mut text = counts_text(alloc, program, plan, counts)?;
    push_kept(alloc, &mut text, program, kept)?;
    push_partials(alloc, &mut text, program, counts, combined)?;
    Ok(Some(text))
}

// The sorted rows that a run of the chosen plan gave, and its counts if they are asked for.
fn texts_of_run<W: Formatter>(
    alloc: Global,
    program: &Program,
    plan: &Plan,
    ran: RunOutcome,
    counts: bool,
    formatter: &W,
) -> Result<Texts, OutOfMemory>
    requires plan { IsPlanOf program.now.functions program.now.ops plan.now }
    requires widths { AreWide program.now.fields ran.outcome.rows }
    requires formats { W.ready formatter.now }
    ensures lines { IfOk result (λ texts. AreLines program.now.sink ran.outcome.rows texts.out) }
    ensures counts { IfOk result (λ texts. AreReportedCounts program.now plan.now ran.outcome.counts ran.kept.items ran.combined.items counts texts.told) }
    ensures program { IsProgram program.now }
{
    let RunOutcome {
        outcome,
        kept,
        combined,
    } = ran;
    let Outcome {
        rows,
        counts: given,
    } = outcome;
    let out = formatter.lines(rows, program.sink())?;
    let told = reported_counts(alloc, program, plan, &given, &kept, &combined, counts)?;
    Ok(Texts { out, told })
}

/// Chooses a plan and runs it: the sorted rows, and the counts of the run if they are asked for.
pub fn run_texts<T: Runner, W: Formatter>(
    alloc: Global,
    loaded: Loaded,
    options: Options,
    rewrites: Rewrites,
    counts: bool,
    runner: &T,
    formatter: &W,
) -> Result<Texts, OutOfMemory>
    requires inputs { AreInputsOf loaded.program loaded.inputs }
    requires options { AreOptionsInRange options }
    requires runs { T.ready runner.now }
    requires formats { W.ready formatter.now }
    ensures { IfOk result (IsAnswerOf loaded options.workers options.plans counts rewrites.prune rewrites.combine) }
{
    let choice = choose_plan(alloc, &loaded, options.workers, options.plans)?;
    let Loaded { program, inputs } = loaded;
    let best = &choice.best;
    let ran = run_plan(alloc, &program, inputs, best, options, rewrites, runner)?;
    texts_of_run(alloc, &program, &best.plan, ran, counts, formatter)
}
