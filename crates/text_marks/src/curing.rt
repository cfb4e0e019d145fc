//! Words that mend a text.

ghost use Rattle.std.specs.Prelude.{[], IfOk, IsTrue, OnOk};
ghost use Rattle.std.specs.List.{AllByRecursion};
ghost use Rattle.text_marks.specs.Marks.{IsCure};
ghost use Rattle.text_marks.specs.TextParts.{IsInside};

use crate::bounds::line_number;
use crate::marks::{Mark, marked_part};
use crate::placing::with_word;
use crate::spellings::is_close;
use crate::trials::{first_fault, is_accepted};
use crate::vocabulary::fixed_words;
use pact_record::OutOfMemory;
use std::alloc::Global;

/// What can be done with the marked part so that the text's first fault is on a later line, or gone.
#[derive(Debug, Drop)]
pub struct CureWords {
    /// Fixed words that are spelled nearly like the marked part, to be put in its place.
    pub words: Vec<&'static [u8]>,
    /// Whether leaving out the marked part does it.
    pub deletes: bool,
}

// Whether the text with this word has its first fault, if any, on a later line.
fn is_cure(alloc: Global, text: &[u8], mark: &Mark, word: &[u8]) -> Result<bool, OutOfMemory>
    requires { IsInside text.now mark.now.from mark.now.to }
    ensures { IfOk result (λ cure. IsTrue cure → IsCure mark.now.from mark.now.to text.now word.now) }
{
    let mended = with_word(alloc, text, mark, word)?;
    match first_fault(alloc, mended.bytes())? {
        None => Ok(true),
        Some(fault) => Ok(line_number(text, mark.from) < fault.line),
    }
}

// Adds the word if it looks like the marked part and is a cure.
fn add_cure(
    alloc: Global,
    text: &[u8],
    mark: &Mark,
    word: &'static [u8],
    words: &mut Vec<&'static [u8]>,
) -> Result<(), OutOfMemory>
    requires inside { IsInside text.now mark.now.from mark.now.to }
    requires words { AllByRecursion (λ word. IsCure mark.now.from mark.now.to text.now word.now) words.old.items }
    ensures { OnOk result (AllByRecursion (λ word. IsCure mark.now.from mark.now.to text.now word.now) words.new.items) }
{
    if is_close(marked_part(text, mark), word) && is_cure(alloc, text, mark, word)? {
        words.push(word)?;
    }
    Ok(())
}

// The fixed words that look like the marked part and are cures; none where a name is wanted.
fn close_cures(alloc: Global, text: &[u8], mark: &Mark) -> Result<Vec<&'static [u8]>, OutOfMemory>
    requires { IsInside text.now mark.now.from mark.now.to }
    ensures { IfOk result (λ words. AllByRecursion (λ word. IsCure mark.now.from mark.now.to text.now word.now) words.items) }
{
    let mut words = Vec::new(alloc);
    if is_accepted(alloc, text, mark, b"zz")? {
        return Ok(words);
    }
    for word in fixed_words() {
        add_cure(alloc, text, mark, word, &mut words)?;
    }
    Ok(words)
}

/// The fixed words that cure the text instead of the marked part, among those that are spelled nearly like it, and
/// whether deleting it does. Nothing cures an empty mark, and no fixed word one where a name is wanted.
pub fn cures(alloc: Global, text: &[u8], mark: &Mark) -> Result<CureWords, OutOfMemory>
    requires { IsInside text.now mark.now.from mark.now.to }
    ensures words { IfOk result (λ cures. AllByRecursion (λ word. IsCure mark.now.from mark.now.to text.now word.now) cures.words.items) }
    ensures deletes { IfOk result (λ cures. IsTrue cures.deletes → IsCure mark.now.from mark.now.to text.now []) }
{
    if mark.from == mark.to {
        return Ok(CureWords {
            words: Vec::new(alloc),
            deletes: false,
        });
    }
    let words = close_cures(alloc, text, mark)?;
    let deletes = is_cure(alloc, text, mark, b"")?;
    Ok(CureWords { words, deletes })
}
