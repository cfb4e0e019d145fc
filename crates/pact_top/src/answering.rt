//! From the words of the command line and the files to the texts to write.

ghost use Rattle.std.specs.Prelude.{◌≡◌, ◌≤◌, IfOk};
ghost use Rattle.pact_gen.specs.Generated.{seed_limit};
ghost use Rattle.plan_enumerate.specs.Listing.{entry_limit};
ghost use Rattle.plan_trees.specs.Physicals.{worker_limit};
ghost use Rattle.pact_top.specs.CommandTexts.{ready_gen, ready_drill};
ghost use Rattle.pact_load.specs.Answers.{Comes, Decides};
ghost use Rattle.pact_top.specs.Refusal.{AnswersWords, refusal_of};
ghost use Rattle.pact_top.specs.Work as work;
ghost use Rattle.pact_words.specs.Words.{AreOptionsInRange, IsInRange, asked, to_certify, to_check, to_iterate, to_plan, to_run, to_tell_sets};

use crate::certificates::{CERTIFICATE_LIMIT, certificate_in, rechecked};
use crate::choosing::{certificate_texts, plan_texts};
use crate::formatters::Formatter;
use crate::generating::{drill_text, generated_text};
use crate::repeating::{IterationInput, IterationLimits, iteration_texts};
use crate::runners::Runner;
use crate::running::run_texts;
use crate::texts::Texts;
use pact_load::{
    Loaded, Refusal, SourceReader, load, load_program, load_sources, load_text, source_named,
};
use pact_outside::Feed;
use pact_record::Bytes;
use pact_words::{Command, Options, Refused, Rewrites};
use plan_printer::sets_text;
use std::alloc::Global;
use swap_certificate::Certificate;

// `run PROGRAM`.
fn run_program<F: Feed, D: SourceReader, T: Runner, W: Formatter>(
    alloc: Global,
    feed: &mut F,
    name: &[u8],
    options: Options,
    rewrites: Rewrites,
    counts: bool,
    reader: &D,
    runner: &T,
    formatter: &W,
) -> Result<Texts, Refusal>
    requires options { AreOptionsInRange options }
    requires reads { D.ready reader.now }
    requires runs { T.ready runner.now }
    requires formats { W.ready formatter.now }
    ensures { Comes (λ files. work.texts_for files (to_run name.now options rewrites counts)) (F.shows feed.old) (F.shows feed.new) result }
{
    let loaded = load(alloc, feed, name, reader)?;
    let texts = run_texts(alloc, loaded, options, rewrites, counts, runner, formatter)?;
    Ok(texts)
}

// `plan PROGRAM`.
fn plan<F: Feed, D: SourceReader>(
    alloc: Global,
    feed: &mut F,
    name: &[u8],
    workers: u32,
    plans: u32,
    reader: &D,
) -> Result<Texts, Refusal>
    requires workers { (1 ≤ workers) × (workers ≤ worker_limit) }
    requires plans { (1 ≤ plans) × (plans ≤ entry_limit) }
    requires reads { D.ready reader.now }
    ensures { Comes (λ files. work.texts_for files (to_plan name.now workers plans)) (F.shows feed.old) (F.shows feed.new) result }
{
    let loaded = load(alloc, feed, name, reader)?;
    let texts = plan_texts(alloc, &loaded, workers, plans)?;
    Ok(texts)
}

// `cert PROGRAM`.
fn cert<F: Feed, D: SourceReader>(
    alloc: Global,
    feed: &mut F,
    name: &[u8],
    workers: u32,
    plans: u32,
    reader: &D,
) -> Result<Texts, Refusal>
    requires workers { (1 ≤ workers) × (workers ≤ worker_limit) }
    requires plans { (1 ≤ plans) × (plans ≤ entry_limit) }
    requires reads { D.ready reader.now }
    ensures { Comes (λ files. work.texts_for files (to_certify name.now workers plans)) (F.shows feed.old) (F.shows feed.new) result }
{
    let loaded = load(alloc, feed, name, reader)?;
    let texts = certificate_texts(alloc, &loaded, workers, plans)?;
    Ok(texts)
}

// `sets PROGRAM`.
fn sets<F: Feed>(alloc: Global, feed: &mut F, name: &[u8]) -> Result<Texts, Refusal>
    ensures { Comes (λ files. work.texts_for files (to_tell_sets name.now)) (F.shows feed.old) (F.shows feed.new) result }
{
    let program = load_program(alloc, feed, name)?;
    let text = sets_text(alloc, &program)?;
    Ok(Texts::out_alone(text))
}

fn load_certificate<F: Feed>(
    alloc: Global,
    feed: &mut F,
    name: &[u8],
) -> Result<Certificate, Refusal>
    ensures { Comes (λ files. work.certificate_file files name.now) (F.shows feed.old) (F.shows feed.new) result }
{
    let text = load_text(alloc, feed, name, CERTIFICATE_LIMIT)?;
    certificate_in(alloc, text.bytes())
}

// `check PROGRAM CERT`.
fn check<F: Feed>(alloc: Global, feed: &mut F, name: &[u8], other: &[u8]) -> Result<Texts, Refusal>
    ensures { Comes (λ files. work.texts_for files (to_check name.now other.now)) (F.shows feed.old) (F.shows feed.new) result }
{
    let program = load_program(alloc, feed, name)?;
    let certificate = load_certificate(alloc, feed, other)?;
    let _plan = rechecked(alloc, &program, &certificate)?;
    let text = Bytes::from_slice(alloc, b"accepted\n")?;
    Ok(Texts::out_alone(text))
}

// A program, the source of that name, and the rows of the program's sources.
fn load_repeated<F: Feed, D: SourceReader>(
    alloc: Global,
    feed: &mut F,
    name: &[u8],
    source: &[u8],
    reader: &D,
) -> Result<IterationInput, Refusal>
    requires reads { D.ready reader.now }
    ensures { Comes (λ files. work.repeated files name.now source.now) (F.shows feed.old) (F.shows feed.new) result }
{
    let program = load_program(alloc, feed, name)?;
    let at = source_named(alloc, &program, source)?;
    let inputs = load_sources(alloc, feed, &program, reader)?;
    let loaded = Loaded { program, inputs };
    Ok(IterationInput { loaded, at })
}

// `iterate PROGRAM SOURCE ROUNDS`.
fn iterate<F: Feed, D: SourceReader, T: Runner, W: Formatter>(
    alloc: Global,
    feed: &mut F,
    name: &[u8],
    source: &[u8],
    limits: IterationLimits,
    options: Options,
    reader: &D,
    runner: &T,
    formatter: &W,
) -> Result<Texts, Refusal>
    requires options { AreOptionsInRange options }
    requires rounds { 1 ≤ limits.rounds }
    requires reads { D.ready reader.now }
    requires runs { T.ready runner.now }
    requires formats { W.ready formatter.now }
    ensures { Comes (λ files. work.texts_for files (to_iterate name.now source.now limits.rounds options limits.stable)) (F.shows feed.old) (F.shows feed.new) result }
{
    let repeated = load_repeated(alloc, feed, name, source, reader)?;
    let texts = iteration_texts(alloc, repeated, limits, options, runner, formatter)?;
    Ok(texts)
}

// `gen SEED ROWS`, which reads no file.
fn generate(alloc: Global, seed: u32, rows: u32) -> Result<Texts, Refusal>
    requires { seed ≤ seed_limit }
    ensures { Decides (work.at_once (ready_gen seed rows)) result }
{
    let text = generated_text(alloc, seed, rows)?;
    Ok(Texts::out_alone(text))
}

// `drill SEED ROWS`, which reads no file either.
fn drill<T: Runner, W: Formatter>(
    alloc: Global,
    seed: u32,
    rows: u32,
    options: Options,
    rewrites: Rewrites,
    runner: &T,
    formatter: &W,
) -> Result<Texts, Refusal>
    requires seed { seed ≤ seed_limit }
    requires options { AreOptionsInRange options }
    requires runs { T.ready runner.now }
    requires formats { W.ready formatter.now }
    ensures { Decides (work.at_once (ready_drill seed rows)) result }
{
    let text = drill_text(alloc, seed, rows, options, rewrites, runner, formatter)?;
    Ok(Texts::out_alone(text))
}

// The texts of a command.
fn texts_for<F: Feed, D: SourceReader, T: Runner, W: Formatter>(
    alloc: Global,
    command: Command,
    feed: &mut F,
    reader: &D,
    runner: &T,
    formatter: &W,
) -> Result<Texts, Refusal>
    requires range { IsInRange (asked command) }
    requires reads { D.ready reader.now }
    requires runs { T.ready runner.now }
    requires formats { W.ready formatter.now }
    ensures { Comes (λ files. work.texts_for files (asked command.entry)) (F.shows feed.old) (F.shows feed.new) result }
{
    match command {
        Command::Run {
            program,
            options,
            rewrites,
            counts,
        } => run_program(
            alloc,
            feed,
            program.as_bytes(),
            options,
            rewrites,
            counts,
            reader,
            runner,
            formatter,
        ),
        Command::Plan {
            program,
            workers,
            plans,
        } => plan(alloc, feed, program.as_bytes(), workers, plans, reader),
        Command::Cert {
            program,
            workers,
            plans,
        } => cert(alloc, feed, program.as_bytes(), workers, plans, reader),
        Command::Sets { program } => sets(alloc, feed, program.as_bytes()),
        Command::Check {
            program,
            certificate,
        } => check(alloc, feed, program.as_bytes(), certificate.as_bytes()),
        Command::Gen { seed, rows } => generate(alloc, seed, rows),
        Command::Drill {
            seed,
            rows,
            options,
            rewrites,
        } => drill(alloc, seed, rows, options, rewrites, runner, formatter),
        Command::Iterate {
            program,
            source,
            rounds,
            options,
            stable,
        } => {
            let (name, source) = (program.as_bytes(), source.as_bytes());
            let limits = IterationLimits { rounds, stable };
            iterate(
                alloc, feed, name, source, limits, options, reader, runner, formatter,
            )
        }
    }
}

fn refusal_of(refused: Refused) -> Refusal
    ensures { result ≡ refusal_of refused }
{
    match refused {
        Refused::Usage => Refusal::Usage,
        Refused::OutOfMemory => Refusal::OutOfMemory,
    }
}

/// The texts of a command, or the first refusal of its stages, in the order of work. `command` is the command that was
/// read from the words, or why they were refused. `reader` makes the rows of each source, `runner` runs each plan, and
/// `formatter` makes the lines of each answer.
pub fn answer<F: Feed, D: SourceReader, T: Runner, W: Formatter>(
    alloc: Global,
    command: Result<Command, Refused>,
    feed: &mut F,
    reader: &D,
    runner: &T,
    formatter: &W,
) -> Result<Texts, Refusal>
    requires range { IfOk command (λ known. IsInRange (asked known)) }
    requires reads { D.ready reader.now }
    requires runs { T.ready runner.now }
    requires formats { W.ready formatter.now }
    ensures { AnswersWords command.entry (feed.new ≡ feed.old) (F.shows feed.old) (F.shows feed.new) result }
{
    match command {
        Ok(known) => texts_for(alloc, known, feed, reader, runner, formatter),
        Err(refused) => Err(refusal_of(refused)),
    }
}
