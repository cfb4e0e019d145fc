//! Programs that run round after round, each time over what the round before gave.

ghost use Rattle.std.specs.Prelude.{◌≡◌, ◌≤◌, length, IfOk};
ghost use Rattle.iterate_plan.specs.Rounds.{AllowsOn, IsIterated};
ghost use Rattle.pact_operators.specs.Inputs.{AreInputsOf};
ghost use Rattle.plan_enumerate.specs.KnownPlans.{AreKnownPlans};
ghost use Rattle.plan_enumerate.specs.Listing.{plans_of};
ghost use Rattle.pact_operators.specs.PlanOps.{source_place};
ghost use Rattle.pact_record.specs.Widths.{AreWide};
ghost use Rattle.plan_trees.specs.Plans.{node_limit};
ghost use Rattle.pact_words.specs.Words.{AreOptionsInRange};
ghost use Rattle.pact_top.specs.PrivateCalls.{ArePlansOf};
ghost use Rattle.pact_top.specs.Iterations as specs;
ghost use Rattle.pact_top.specs.Iterations.{HasSource, IsCallOf, IsIterationText, columns_at};
ghost use Rattle.bag_lines.specs.Lines.{AreLines};

use crate::choosing::choose_listed;
use crate::formatters::Formatter;
use crate::runners::Runner;
use crate::running::run_plan;
use crate::texts::Texts;
use iterate_run::{Iterated, Round, iterate};
use pact_bag::{Inputs, Rows};
use pact_load::{Loaded, is_source};
use pact_operators::{Op, Program};
use pact_record::{Bytes, OutOfMemory};
use pact_words::{Options, Rewrites};
use plan_enumerate::{KnownPlans, Listed, enumerate_and_analyse};
use plan_printer::push_number;
use std::alloc::Global;

/// What an iteration starts from: a program with the rows of its sources, and the number of the source whose rows each
/// round replaces.
#[derive(Drop)]
pub struct IterationInput {
    pub loaded: Loaded,
    pub at: usize,
}

/// How long an iteration goes on: for this number of rounds. With `stable` it ends after the first round that gives back
/// the rows with which it began.
#[derive(Clone, Copy)]
pub struct IterationLimits {
    pub rounds: u32,
    pub stable: bool,
}

// A program with the call for each of its rounds. It is a call because a round may run on threads: the bounds of an
// `impl` hold only for the calling thread.
#[derive(Drop)]
struct CalledRounds<'a, C: Fn(Global, &Inputs) -> Result<Rows, OutOfMemory>> {
    program: &'a Program,
    call: C,
}

impl<'a, C: Fn(Global, &Inputs) -> Result<Rows, OutOfMemory>> Round for CalledRounds<'a, C> {
    ghost program = { λ r. r.program.now };

    ghost ready = { λ r. IsCallOf r.program.now (C.pre r.call) (C.post r.call) };

    fn round(&mut self, alloc: Global, inputs: &Inputs) -> Result<Rows, OutOfMemory> {
        (self.call)(alloc, inputs)
    }
}

// The rows that a run of the plan chosen for these inputs gives. The plan isn't rewritten, because the next round may
// need each field. The inputs are copied, because a run consumes them.
fn one_round<T: Runner>(
    alloc: Global,
    program: &Program,
    listed: &Listed,
    known: &KnownPlans,
    options: Options,
    inputs: &Inputs,
    runner: &T,
) -> Result<Rows, OutOfMemory>
    requires inputs { AreInputsOf program.now inputs.now }
    requires options { AreOptionsInRange options }
    requires plans { ArePlansOf program.now listed.now.entries }
    requires known { AreKnownPlans program.now (plans_of listed.now.entries) known.now }
    requires runs { T.ready runner.now }
    ensures { IfOk result (AllowsOn program.now inputs.now) }
{
    let best = choose_listed(alloc, program, inputs, listed, known, options.workers)?;
    let copied = inputs.copy(alloc)?;
    let unchanged = Rewrites {
        combine: false,
        prune: false,
    };
    let left = run_plan(alloc, program, copied, &best, options, unchanged, runner)?;
    Ok(left.outcome.rows)
}

// The place of the source of this number among the sources.
fn source_place(ops: &[Op], at: usize) -> u32
    requires within { at ≤ length ops.now }
    requires few { length ops.now ≤ node_limit }
    ensures { result ≡ source_place ops.now at }
{
    let mut place = 0;
    for op in &ops[..at] {
        if is_source(op.kind) {
            place += 1;
        }
    }
    place
}

// The rounds of a program by the plans that are listed of it.
fn run_rounds<T: Runner>(
    alloc: Global,
    program: &Program,
    listed: &Listed,
    known: &KnownPlans,
    inputs: Inputs,
    at: usize,
    options: Options,
    limits: IterationLimits,
    runner: &T,
) -> Result<Iterated, OutOfMemory>
    requires inputs { AreInputsOf program.now inputs }
    requires source { HasSource program.now at }
    requires options { AreOptionsInRange options }
    requires plans { ArePlansOf program.now listed.now.entries }
    requires known { AreKnownPlans program.now (plans_of listed.now.entries) known.now }
    requires rounds { 1 ≤ limits.rounds }
    requires runs { T.ready runner.now }
    ensures { IfOk result (λ i. IsIterated program.now inputs (source_place program.now.ops at) (columns_at program.now at) limits.rounds limits.stable i.rows i.rounds) }
{
    let ops = program.ops();
    let place = source_place(ops, at);
    let mut rounds = CalledRounds {
        program,
        call: |alloc: Global, inputs: &Inputs| -> Result<Rows, OutOfMemory>
            requires inputs { AreInputsOf program.now inputs.now }
            requires options { AreOptionsInRange options }
            requires plans { ArePlansOf program.now listed.now.entries }
            requires known { AreKnownPlans program.now (plans_of listed.now.entries) known.now }
            requires runs { T.ready runner.now }
            ensures { IfOk result (AllowsOn program.entry.now inputs.now) }
        { one_round(alloc, program, listed, known, options, inputs, runner) },
    };
    let columns = &ops[at].columns;
    iterate(
        alloc,
        &mut rounds,
        inputs,
        place,
        columns,
        limits.rounds,
        limits.stable,
    )
}

// The text with the number of rounds, if an iteration may end early.
fn told_rounds(alloc: Global, rounds: u32, stable: bool) -> Result<Option<Bytes>, OutOfMemory>
    ensures { IfOk result (λ told. told ≡ specs.told_rounds stable rounds) }
{
    if !stable {
        return Ok(None);
    }
    let mut line = Bytes::from_slice(alloc, b"rounds ")?;
    push_number(alloc, &mut line, u64::from(rounds))?;
    line.extend_from_slice(b"\n")?;
    Ok(Some(line))
}

// The sorted rows of the last round, and the number of rounds if an iteration may end early.
fn texts_of_rounds<W: Formatter>(
    alloc: Global,
    program: &Program,
    iterated: Iterated,
    stable: bool,
    formatter: &W,
) -> Result<Texts, OutOfMemory>
    requires widths { AreWide program.now.fields iterated.rows }
    requires formats { W.ready formatter.now }
    ensures lines { IfOk result (λ texts. AreLines program.now.sink iterated.rows texts.out) }
    ensures told { IfOk result (λ texts. texts.told ≡ specs.told_rounds stable iterated.rounds) }
{
    let Iterated { rows, rounds } = iterated;
    let out = formatter.lines(rows, program.sink())?;
    let told = told_rounds(alloc, rounds, stable)?;
    Ok(Texts { out, told })
}

/// The sorted rows of the last round. If the iteration may end early, the texts also include the number of rounds. The
/// plans of the program are listed and their operators analysed once. One plan is chosen for the rows of each round.
pub fn iteration_texts<T: Runner, W: Formatter>(
    alloc: Global,
    repeated: IterationInput,
    limits: IterationLimits,
    options: Options,
    runner: &T,
    formatter: &W,
) -> Result<Texts, OutOfMemory>
    requires inputs { AreInputsOf repeated.loaded.program repeated.loaded.inputs }
    requires source { HasSource repeated.loaded.program repeated.at }
    requires options { AreOptionsInRange options }
    requires rounds { 1 ≤ limits.rounds }
    requires runs { T.ready runner.now }
    requires formats { W.ready formatter.now }
    ensures { IfOk result (IsIterationText repeated limits.rounds limits.stable) }
{
    let IterationInput { loaded, at } = repeated;
    let Loaded { program, inputs } = loaded;
    // `fields` makes it known that `program` keeps the rules of a program.
    let _fields = program.fields();
    let (listed, known) = enumerate_and_analyse(alloc, &program, options.plans)?;
    let iterated = run_rounds(
        alloc, &program, &listed, &known, inputs, at, options, limits, runner,
    )?;
    texts_of_rounds(alloc, &program, iterated, limits.stable, formatter)
}
