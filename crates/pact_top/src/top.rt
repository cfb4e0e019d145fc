//! The call that the program makes, and its counterpart without threads.

ghost use Rattle.std.specs.Prelude.{◌≡◌, ◌≤◌, IfOk};
ghost use Rattle.bag_lines.specs.Lines.{AreLines, CanFormat};
ghost use Rattle.flow_run.specs.Outcomes.{IsPlanOutcome};
ghost use Rattle.pact_top.specs.Headline.{KeepsPromises};
ghost use Rattle.pact_load.specs.Readers.{CanRead, IsRead};
ghost use Rattle.pact_load.specs.Answers.{status_of, refusal_line};
ghost use Rattle.pact_top.specs.Refusal.{AnswersWords, threads_asked};
ghost use Rattle.pact_top.specs.Runs.{CanRun};
ghost use Rattle.pact_top.specs.Statuses.{TellsMore, WritesAnswer, WritesTexts};
ghost use Rattle.pact_top.specs.Writing.{WritesLine};
ghost use Rattle.pact_words.specs.Words.{IsInRange, asked, texts_of};

use crate::answering::answer;
use crate::formatters::{CalledFormats, FormatAlone};
use crate::refusals::tell;
use crate::runners::{CalledRuns, RunAlone};
use crate::strategies::run_by_strategy_on_threads;
use crate::texts::Texts;
use crate::writing::write_all;
use bag_lines::{parts_for_rows, sorted_lines_on_threads};
use csv_parts::{parts_for, read_source_on_threads};
use csv_source::BadRow;
use pact_bag::{Inputs, Outcome, Rows};
use pact_load::{CalledReads, ReadAlone, Refusal};
use pact_operators::{Physical, Program};
use pact_outside::{Failed, Feed, Sink};
use pact_record::{Bytes, Columns, OutOfMemory};
use pact_words::{Command, Options, Refused, read_words};
use std::alloc::Global;
use std::sync::Wait;
use std::thread::Threads;
use worker_gate::Gate;

fn refuse<E: Sink>(err: &mut E, refusal: &Refusal) -> u8
    ensures status { result ≡ status_of refusal.now }
    ensures told { WritesLine (E.taken err.old) (E.taken err.new) (E.faults err.old) (E.faults err.new) (refusal_line refusal.now) }
    ensures later { E.faults err.old ≤ E.faults err.new }
{
    tell(err, refusal);
    refusal.status()
}

// Writes the text for standard error, if there is one.
fn write_more<E: Sink>(err: &mut E, more: &Option<Bytes>) -> u8
    ensures { TellsMore more.now (E.taken err.old) (E.taken err.new) (E.faults err.old) (E.faults err.new) result }
{
    match more {
        None => 0,
        Some(text) => match write_all(err, text.bytes()) {
            Ok(()) => 0,
            Err(Failed) => refuse(err, &Refusal::CannotWrite),
        },
    }
}

// Writes the text for the output, and then the one for standard error.
fn write_texts<O: Sink, E: Sink>(out: &mut O, err: &mut E, texts: &Texts) -> u8
    ensures { WritesTexts texts.now (O.taken out.old) (O.taken out.new) (E.taken err.old) (E.taken err.new) (O.faults out.old) (O.faults out.new) (E.faults err.old) (E.faults err.new) result }
{
    match write_all(out, texts.out.bytes()) {
        Ok(()) => write_more(err, &texts.told),
        Err(Failed) => refuse(err, &Refusal::CannotWrite),
    }
}

// Writes the texts, or prints why there are none.
fn finish<O: Sink, E: Sink>(out: &mut O, err: &mut E, answered: Result<Texts, Refusal>) -> u8
    ensures { WritesAnswer answered (O.taken out.old) (O.taken out.new) (E.taken err.old) (E.taken err.new) (O.faults out.old) (O.faults out.new) (E.faults err.old) (E.faults err.new) result }
{
    match answered {
        Ok(texts) => write_texts(out, err, &texts),
        Err(refusal) => refuse(err, &refusal),
    }
}

// The texts of the command that was read, made on the calling thread.
fn answer_alone<F: Feed>(
    alloc: Global,
    command: Result<Command, Refused>,
    feed: &mut F,
) -> Result<Texts, Refusal>
    requires range { IfOk command (λ known. IsInRange (asked known)) }
    ensures { AnswersWords command.entry (feed.new ≡ feed.old) (F.shows feed.old) (F.shows feed.new) result }
{
    let (reader, runner, formatter) = (
        ReadAlone { alloc },
        RunAlone { alloc },
        FormatAlone { alloc },
    );
    answer(alloc, command, feed, &reader, &runner, &formatter)
}

// The texts of the command that was read, with up to `workers` threads for a run, for a long source and for a long
// text. If there are fewer than two, the calling thread makes them.
fn answer_on_threads<R: Threads + Wait + Sync, F: Feed, G: Gate>(
    rt: &R,
    alloc: Global,
    command: Result<Command, Refused>,
    workers: u32,
    feed: &mut F,
    gate: &G,
) -> Result<Texts, Refusal>
    requires range { IfOk command (λ known. IsInRange (asked known)) }
    ensures { AnswersWords command.entry (feed.new ≡ feed.old) (F.shows feed.old) (F.shows feed.new) result }
{
    let reader = CalledReads {
        call: |bytes: &[u8], columns: &Columns, fields: u32| -> Result<Rows, BadRow>
            requires { CanRead fields columns.now }
            ensures { IsRead fields columns.now bytes.now result }
        {
            let parts = parts_for(bytes.len(), workers);
            read_source_on_threads(rt, alloc, bytes, columns, fields, parts)
        },
    };
    let runner = CalledRuns {
        call: |program: &Program, physical: &Physical, inputs: Inputs, options: Options| -> Result<
            Outcome,
            OutOfMemory,
        >
            requires { CanRun program.now physical.now inputs options }
            ensures { IfOk result (IsPlanOutcome program.now inputs physical.now) }
        { run_by_strategy_on_threads(rt, alloc, program, physical, inputs, options, gate) },
    };
    let formatter = CalledFormats {
        call: |bag: Rows, fields: &[u32]| -> Result<Bytes, OutOfMemory>
            requires { CanFormat fields.now bag }
            ensures { IfOk result (AreLines fields.now bag) }
        {
            let parts = parts_for_rows(bag.len(), workers);
            sorted_lines_on_threads(rt, alloc, bag, fields, parts)
        },
    };
    answer(alloc, command, feed, &reader, &runner, &formatter)
}

// How many threads the words ask for. Words that couldn't be read for lack of memory ask for none.
fn threads_asked(command: &Result<Command, Refused>) -> u32
    ensures { result ≡ threads_asked command.now }
{
    match command {
        Ok(Command::Run { options, .. }) => options.workers,
        Ok(Command::Drill { options, .. }) => options.workers,
        Ok(Command::Iterate { options, .. }) => options.workers,
        Ok(Command::Plan { .. }) => 0,
        Ok(Command::Cert { .. }) => 0,
        Ok(Command::Sets { .. }) => 0,
        Ok(Command::Check { .. }) => 0,
        Ok(Command::Gen { .. }) => 0,
        Err(_) => 0,
    }
}

/// Does what the words of the command line ask for on the calling thread, and returns the exit status.
///
/// It does what `pact_main` does, with the same clause and statuses, and starts no thread. The calling thread reads the
/// sources, steps the instances of all workers in turn, and makes the text of the answer. So it waits for no other
/// thread, and always returns.
pub fn pact_alone<F: Feed, O: Sink, E: Sink>(
    alloc: Global,
    words: &[&str],
    feed: &mut F,
    out: &mut O,
    err: &mut E,
) -> u8
    ensures { KeepsPromises (texts_of words.now) feed.old feed.new (F.shows feed.old) (F.shows feed.new) (O.taken out.old) (O.taken out.new) (E.taken err.old) (E.taken err.new) (O.faults out.old) (O.faults out.new) (E.faults err.old) (E.faults err.new) result }
{
    let command = read_words(alloc, words);
    let answered = answer_alone(alloc, command, feed);
    finish(out, err, answered)
}

/// Does what the words of the command line ask for, and returns the exit status. `words` leaves out the program's own
/// name.
///
/// - `run PROGRAM` reads the program's file and then those of its sources, in text order. It chooses the plan with the
///   least expected cost, runs it in parts, and writes the sorted rows to `out`. With `--counts` it then prints to
///   `err` how many records each operator had.
/// - With `--prune`, fields that nothing above reads are dropped before records are shipped. With counts, a line
///   `keeps` reports which fields were kept where.
/// - With `--combine`, the plan, pruned or not, runs with partial groups. With counts, a line `partials` after all
///   others reports, for each Reduce that was combined, how many partial records went to it.
/// - `plan PROGRAM` writes the chosen plan, and `cert PROGRAM` writes its certificate.
/// - `sets PROGRAM` reads only the program's file, and writes what the analysis finds of each operator.
/// - `check PROGRAM CERT` reads the program's file and then the certificate's. It writes `accepted` if it finds each
///   step of the certificate again.
/// - `gen SEED ROWS` reads no file, and writes rows that the seed determines.
/// - `drill SEED ROWS` reads no file, runs a program of its own on those rows, and writes a summary. The summary is the
///   same for every option.
/// - `iterate PROGRAM SOURCE ROUNDS` runs the program for that number of rounds. From the second round on, the source
///   of that name has the records of the round before, cut to its columns, instead of its file's rows. The plans are
///   listed once, and one is chosen for the rows of each round. The sorted rows of the last round are written.
/// - With `--stable`, the rounds end after the first that gives back the rows with which it began, cut and in any
///   order. The number of rounds is then printed to `err`.
///
/// Nothing is written before all of the texts are made. An error is printed to `err` in one line. If a certificate
/// states other sets or another plan, the lines after it show both. The clause has every promise by its name, and
/// `specs/Headline.antt` says what each of them means.
///
/// A run, a drill or an iteration with two workers or more has a thread for each worker, as far as the system provides
/// them. There `gate` is called before an instance tries to put or to take a note, and before it ends. Long sources are
/// read on at most that number of threads, one source after the other (`csv_parts`). The text of a long answer is made
/// on at most that number too (`bag_lines`). The workers wait for one another's notes, so the call may wait, and the
/// promises hold if it returns. With one worker, and for every other command, it does what `pact_alone` does and waits
/// for no other thread. That follows from how it is built; no clause says so.
///
/// Exit statuses:
/// - 0: the text was written whole.
/// - 1: out of memory.
/// - 2: the words aren't a command.
/// - 3: a file can't be read.
/// - 4: `out` failed, or `err` failed as counts or rounds were printed.
/// - 5: the program's text is faulty.
/// - 6: a function or a declaration of the program breaks a rule, or no source has the name that `iterate` was given.
/// - 7: a row of a source is bad.
/// - 8: a file is longer than its limit.
/// - 9: the certificate is refused.
pub fn pact_main<R: Threads + Wait + Sync, F: Feed, O: Sink, E: Sink, G: Gate>(
    rt: &R,
    alloc: Global,
    words: &[&str],
    feed: &mut F,
    out: &mut O,
    err: &mut E,
    gate: &G,
) -> u8
    ensures { KeepsPromises (texts_of words.now) feed.old feed.new (F.shows feed.old) (F.shows feed.new) (O.taken out.old) (O.taken out.new) (E.taken err.old) (E.taken err.new) (O.faults out.old) (O.faults out.new) (E.faults err.old) (E.faults err.new) result }
{
    let command = read_words(alloc, words);
    let workers = threads_asked(&command);
    let answered = answer_on_threads(rt, alloc, command, workers, feed, gate);
    finish(out, err, answered)
}
