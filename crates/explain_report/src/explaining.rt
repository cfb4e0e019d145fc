//! The call that the program makes.

ghost use Rattle.std.specs.Prelude.{◌≡◌, IfOk};
ghost use Rattle.pact_words.specs.Words.{asked, texts_of};
ghost use Rattle.pact_load.specs.declared.refusals.Refusal.TheVariants as refusals;
ghost use Rattle.explain_report.specs.Explaining.{Explains, ExplainsAny, ExplainsCommand, IsTextOfAny, Tells};

use crate::explanations::{Explanation, of_refusal, without_fault};
use crate::lines::put_line;
use crate::loading::{Work, explain_file};
use explain_usage::{put_faults, put_help, put_refused_words};
use explain_words::Page;
use pact_load::Refusal;
use pact_outside::Feed;
use pact_record::{Bytes, OutOfMemory};
use pact_words::{Command, Refused, read_words};
use std::alloc::Global;

// ---- pages about no command

fn help(alloc: Global) -> Result<Explanation, OutOfMemory>
    ensures { IfOk result (λ e. e.status ≡ 0) }
{
    let mut page = Page::new(alloc);
    put_help(&mut page)?;
    without_fault(alloc, page.bytes())
}

fn all_faults(alloc: Global) -> Result<Explanation, OutOfMemory>
    ensures { IfOk result (λ e. e.status ≡ 0) }
{
    let mut page = Page::new(alloc);
    put_faults(&mut page)?;
    without_fault(alloc, page.bytes())
}

fn explain_line<F: Feed>(
    alloc: Global,
    words: &[&str],
    feed: &mut F,
) -> Result<Explanation, OutOfMemory>
    ensures { IfOk result (λ e. e.status ≡ 0) }
{
    let mut page = Page::new(alloc);
    if let [_, line, programs @ ..] = words {
        put_line(alloc, &mut page, feed, line, programs)?;
    }
    without_fault(alloc, page.bytes())
}

// ---- commands

fn no_fault(alloc: Global) -> Result<Explanation, OutOfMemory>
    ensures { IfOk result (λ e. e.status ≡ 0) }
{
    without_fault(alloc, b"no fault found\n")
}

// The explanation of a command.
fn explain_known<F: Feed>(
    alloc: Global,
    command: Command,
    feed: &mut F,
) -> Result<Explanation, OutOfMemory>
    ensures { IfOk result (ExplainsCommand (F.shows feed.old).files (asked command.entry)) }
{
    match command {
        Command::Run { program, .. } => explain_file(alloc, feed, program.as_bytes(), Work::Run),
        Command::Plan { program, .. } => explain_file(alloc, feed, program.as_bytes(), Work::Run),
        Command::Cert { program, .. } => explain_file(alloc, feed, program.as_bytes(), Work::Run),
        Command::Sets { program } => explain_file(alloc, feed, program.as_bytes(), Work::Sets),
        Command::Check {
            program,
            certificate,
        } => explain_file(
            alloc,
            feed,
            program.as_bytes(),
            Work::Check(certificate.as_bytes()),
        ),
        Command::Gen { .. } => no_fault(alloc),
        Command::Drill { .. } => no_fault(alloc),
        Command::Iterate {
            program,
            source,
            ..
        } => explain_file(
            alloc,
            feed,
            program.as_bytes(),
            Work::Repeat(source.as_bytes()),
        ),
    }
}

fn explain_refused(alloc: Global, words: &[&str]) -> Result<Explanation, OutOfMemory>
    ensures { IfOk result (Tells refusals.Usage) }
{
    let mut page = Page::new(alloc);
    put_refused_words(alloc, &mut page, words)?;
    of_refusal(alloc, &Refusal::Usage, page.bytes())
}

/// Explains what `pact` answers to the words of a command, as `explain` does. It takes no other words.
pub fn explain_command<F: Feed>(
    alloc: Global,
    words: &[&str],
    feed: &mut F,
) -> Result<Explanation, OutOfMemory>
    ensures { IfOk result (Explains (texts_of words.now) (F.shows feed.old).files) }
{
    match read_words(alloc, words) {
        Ok(command) => explain_known(alloc, command, feed),
        Err(Refused::Usage) => explain_refused(alloc, words),
        Err(Refused::OutOfMemory) => Err(OutOfMemory),
    }
}

/// Explains what `pact` answers to the words of a command line, without running anything: which word, which line of a
/// program or which row of a file is at fault, and what may be there instead. Without a fault it lists what is legal
/// but seldom meant.
///
/// Three first words are no command: `--line LINE PROGRAM ..` explains a line that `pact` printed, `--faults` lists
/// what each fault is, and `--help` or no word what the program takes.
pub fn explain<F: Feed>(
    alloc: Global,
    words: &[&str],
    feed: &mut F,
) -> Result<Explanation, OutOfMemory>
    ensures { IfOk result (ExplainsAny (texts_of words.now) (F.shows feed.old).files) }
{
    let Some(first) = words.first() else {
        return help(alloc);
    };
    match *first {
        "--help" => help(alloc),
        "--faults" => all_faults(alloc),
        "--line" => explain_line(alloc, words, feed),
        _ => explain_command(alloc, words, feed),
    }
}

/// Like `explain`, but only the exit status and the text to print, for callers that need no mark.
pub fn explain_in_text<F: Feed>(
    alloc: Global,
    words: &[&str],
    feed: &mut F,
) -> Result<(u8, Bytes), OutOfMemory>
    ensures { IfOk result (IsTextOfAny (texts_of words.now) (F.shows feed.old).files) }
{
    let explained = explain(alloc, words, feed)?;
    Ok((explained.status, explained.text))
}
