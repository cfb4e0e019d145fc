//! A text, line by line.

ghost use Rattle.std.specs.Prelude.{◌≡◌, ◌≤◌, ◌<◌, ◌-◌, ◌∷◌, length, drop};
ghost use Rattle.text_lines.specs.TextLines.{lines_of, trimmed};

use pact_record::OutOfMemory;

/// Why a text couldn't be read.
#[derive(Clone, Copy, Debug, PartialEq, Eq)]
pub enum TextFault {
    /// The first faulty line and its first fault, by their numbers; lines count from 1.
    At { line: u64, what: u32 },
    Memory,
}

impl From<OutOfMemory> for TextFault {
    ghost use Rattle.text_lines.specs.declared.lines.TextFault.TheVariants.{Memory};

    ghost from_gives = { λ _ e. e ≡ Memory };

    fn from(_: OutOfMemory) -> TextFault {
        TextFault::Memory
    }
}

/// The first line of a text without its line feed, and the text after that line feed.
pub fn first_line(text: &[u8]) -> (&[u8], &[u8])
    requires { 0 < length text.now }
    ensures lines { lines_of text.now ≡ result.0.now ∷ lines_of result.1.now }
    ensures rest { result.1.now ≡ drop (length text.now - length result.1.now) text.now }
    ensures shorter { length result.1.now < length text.now }
{
    for at in 0..text.len() {
        if text[at] == b'\n' {
            return (text.split_at(at).0, text.split_at(at + 1).1);
        }
    }
    (text, text.split_at(text.len()).1)
}

/// The line that begins at offset `at`, without its line feed, and the offset after that line feed.
pub fn line_at(text: &[u8], at: usize) -> (&[u8], usize)
    requires { at < length text.now }
    ensures lines { lines_of (drop at text.now) ≡ result.0.now ∷ lines_of (drop result.1 text.now) }
    ensures further { at < result.1 }
    ensures within { result.1 ≤ length text.now }
{
    let (line, rest) = first_line(text.split_at(at).1);
    (line, text.len() - rest.len())
}

/// A line without the carriage return at its end.
pub fn trim_line(line: &[u8]) -> &[u8]
    ensures { result.now ≡ trimmed line.now }
{
    match line.split_last() {
        Some((last, front)) => { if *last == b'\r' { front } else { line } }
        None => line,
    }
}
