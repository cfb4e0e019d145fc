//! What an explanation is: an exit status, a text, and what is marked.

ghost use Rattle.std.specs.Prelude.{◌≡◌, ◌++◌, IfOk, None};
ghost use Rattle.pact_load.specs.Answers.{refusal_line, status_of};
ghost use Rattle.pact_load.specs.RefusalLines as lines;

use pact_load::Refusal;
use pact_record::{Bytes, OutOfMemory};
use std::alloc::Global;
use text_marks::{ExpectedList, Mark};

/// The part of a program's text that has its first fault, and what may be there instead. Of a few faults nothing is
/// listed: of a byte or a literal that can't be, and where a line is missing.
#[derive(Drop)]
pub struct Spot {
    pub mark: Mark,
    pub expected: ExpectedList,
}

/// The exit status that `pact` has for what the words and the files decide, the text to print, and what that text marks
/// if the program's text has a fault.
#[derive(Drop)]
pub struct Explanation {
    pub status: u8,
    pub text: Bytes,
    pub spot: Option<Spot>,
}

fn unread_line(alloc: Global, name: &[u8]) -> Result<Bytes, OutOfMemory>
    ensures { IfOk result (λ line. line ≡ lines.unread_line name.now) }
{
    let mut line = Bytes::from_slice(alloc, b"cannot read ")?;
    line.extend_from_slice(name)?;
    line.extend_from_slice(b"\n")?;
    Ok(line)
}

/// The line or lines that `pact` prints for a refusal.
pub fn refusal_line(alloc: Global, refusal: &Refusal) -> Result<Bytes, OutOfMemory>
    ensures { IfOk result (λ line. line ≡ refusal_line refusal.now) }
{
    match refusal {
        Refusal::OutOfMemory => Bytes::from_slice(alloc, b"out of memory\n"),
        Refusal::Usage => Bytes::from_slice(alloc, b"usage: pact COMMAND ARGUMENTS\n"),
        Refusal::CannotRead(name) => unread_line(alloc, name.bytes()),
        Refusal::CannotWrite => Bytes::from_slice(alloc, b"cannot write\n"),
        Refusal::Decided { line, .. } => Bytes::from_slice(alloc, line.bytes()),
    }
}

/// The explanation of a refusal: what `pact` prints, and then more.
pub fn of_refusal(alloc: Global, refusal: &Refusal, more: &[u8]) -> Result<Explanation, OutOfMemory>
    ensures status { IfOk result (λ e. e.status ≡ status_of refusal.now) }
    ensures text { IfOk result (λ e. e.text ≡ refusal_line refusal.now ++ more.now) }
    ensures spot { IfOk result (λ e. e.spot ≡ None) }
{
    let mut text = refusal_line(alloc, refusal)?;
    text.extend_from_slice(more)?;
    Ok(Explanation {
        status: refusal.status(),
        text,
        spot: None,
    })
}

/// An explanation without a refusal.
pub fn without_fault(alloc: Global, text: &[u8]) -> Result<Explanation, OutOfMemory>
    ensures status { IfOk result (λ e. e.status ≡ 0) }
    ensures spot { IfOk result (λ e. e.spot ≡ None) }
{
    Ok(Explanation {
        status: 0,
        text: Bytes::from_slice(alloc, text)?,
        spot: None,
    })
}
