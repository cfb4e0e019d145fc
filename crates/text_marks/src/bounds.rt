//! Where the lines of a text begin and end.

ghost use Rattle.std.specs.Prelude.{◌≡◌, ◌≤◌, ◌<◌, ◌+◌, IfNone, IfSome, length};
ghost use Rattle.text_marks.specs.TextParts.{AreBounds, IsInside, IsLineStart, LacksLine, line_number};

use text_lines::{line_at, trim_line};

// Where a line begins; at the text's end if the text has one line fewer.
fn line_start(text: &[u8], line: u64) -> Option<usize>
    requires { 1 ≤ line }
    ensures line { IfSome result (λ at. IsLineStart text.now line at) }
    ensures none { IfNone result (LacksLine text.now line) }
{
    let mut at = 0;
    for _ in 1..line {
        if at == text.len() {
            return None;
        }
        let (_, next) = line_at(text, at);
        at = next;
    }
    Some(at)
}

/// Where a line begins and ends in the text, without its line end. Lines count from 1; `None` if the text has fewer.
pub fn line_bounds(text: &[u8], line: u64) -> Option<(usize, usize)>
    ensures inside { IfSome result (λ bounds. IsInside text.now bounds.0 bounds.1) }
    ensures line { IfSome result (λ bounds. AreBounds text.now line bounds.0 bounds.1) }
    ensures none { IfNone result (LacksLine text.now line) }
{
    if line == 0 {
        return None;
    }
    let at = line_start(text, line)?;
    if at == text.len() {
        return None;
    }
    let (inside, _) = line_at(text, at);
    Some((at, at + trim_line(inside).len()))
}

/// The number of the line, from 1, that the byte at this place is on.
pub fn line_number(text: &[u8], at: usize) -> u64
    requires { at ≤ length text.now }
    ensures { result ≡ line_number at text.now }
{
    let mut number: u64 = 1;
    for byte in &text[..at] {
        if *byte == b'\n' {
            number += 1;
        }
    }
    number
}
