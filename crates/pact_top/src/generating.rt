//! Generated rows, and the summary of a drill's run on them.

ghost use Rattle.std.specs.Prelude.{◌≡◌, ◌≤◌, ◌<◌, length, IfOk};
ghost use Rattle.pact_gen.specs.Generated.{seed_limit};
ghost use Rattle.pact_record.specs.Widths.{AreWide};
ghost use Rattle.pact_words.specs.Words.{AreOptionsInRange};
ghost use Rattle.pact_top.specs.CommandTexts.{IsDrillText, IsGeneratedText, IsSummary, drilled};

use crate::choosing::choose_plan;
use crate::formatters::Formatter;
use crate::runners::Runner;
use crate::running::run_plan;
use csv_sink::write_fields;
use drill_program::{drill_program, summary_text};
use pact_bag::{Inputs, Rows};
use pact_gen::make_input;
use pact_load::{Loaded, push_rows};
use pact_operators::Program;
use pact_record::{Bytes, OutOfMemory};
use pact_words::{Options, Rewrites};
use std::alloc::Global;

/// The generated rows as CSV text, in their own order.
pub fn generated_text(alloc: Global, seed: u32, rows: u32) -> Result<Bytes, OutOfMemory>
    requires { seed ≤ seed_limit }
    ensures { IfOk result (IsGeneratedText seed rows) }
{
    let made = make_input(alloc, seed, rows)?;
    write_fields(alloc, made.rows(), &[0, 1, 2])
}

// The program of a drill and the generated rows, as loading them from files would return them.
fn load_drill(alloc: Global, seed: u32, rows: u32) -> Result<Loaded, OutOfMemory>
    requires { seed ≤ seed_limit }
    ensures { IfOk result (λ loaded. loaded ≡ drilled seed rows) }
{
    let program = drill_program(alloc)?;
    let made = make_input(alloc, seed, rows)?;
    let mut inputs = Inputs::new(alloc);
    push_rows(&mut inputs, made)?;
    Ok(Loaded { program, inputs })
}

// The summary of what a run of the program on `rows` rows gave.
fn summary<W: Formatter>(
    alloc: Global,
    rows: u32,
    program: &Program,
    bag: Rows,
    formatter: &W,
) -> Result<Bytes, OutOfMemory>
    requires widths { AreWide program.now.fields bag }
    requires formats { W.ready formatter.now }
    ensures { IfOk result (IsSummary rows program.now.sink bag) }
{
    let out = bag.len() as u64;
    let lines = formatter.lines(bag, program.sink())?;
    summary_text(alloc, u64::from(rows), out, lines.bytes())
}

/// Runs the program of a drill on `rows` generated rows, and returns the summary of the run.
pub fn drill_text<T: Runner, W: Formatter>(
    alloc: Global,
    seed: u32,
    rows: u32,
    options: Options,
    rewrites: Rewrites,
    runner: &T,
    formatter: &W,
) -> Result<Bytes, OutOfMemory>
    requires seed { seed ≤ seed_limit }
    requires options { AreOptionsInRange options }
    requires runs { T.ready runner.now }
    requires formats { W.ready formatter.now }
    ensures { IfOk result (IsDrillText seed rows) }
{
    let loaded = load_drill(alloc, seed, rows)?;
    let choice = choose_plan(alloc, &loaded, options.workers, options.plans)?;
    let Loaded { program, inputs } = loaded;
    let ran = run_plan(
        alloc,
        &program,
        inputs,
        &choice.best,
        options,
        rewrites,
        runner,
    )?;
    summary(alloc, rows, &program, ran.outcome.rows, formatter)
}
