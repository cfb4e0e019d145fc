//! Texts that are put together from pieces.

ghost use Rattle.std.specs.Prelude.{◌≡◌, ◌++◌, [], List, ℕ, OnOk, decimal};

use pact_record::{Bytes, OutOfMemory};
use std::alloc::Global;
use std::marker::Model;
use std::str;

/// The most bytes of a quoted text that are shown.
pub const MOST_SHOWN: usize = 60;

/// The most bytes of a line that are shown.
const MOST_OF_LINE: usize = 160;

/// A piece of a text.
#[derive(Clone, Copy)]
pub enum Piece<'a> {
    /// Words as they are.
    Say(&'a str),
    Number(u64),
    /// Bytes from outside: the first ones, with escapes for those that can't be printed.
    Quote(&'a [u8]),
}

/// A text that grows.
#[derive(Drop)]
pub struct Page {
    alloc: Global,
    text: Bytes,
}

impl Model for Page {
    ghost use Rattle.std.specs.Prelude.{List, ℕ};

    ghost Value = { List ℕ };

    ghost view = { λ p. p.text };
}

/// The bytes from `from` up to `to`, or none if there are no such bytes.
pub fn part(bytes: &[u8], from: usize, to: usize) -> &[u8] {
    if from <= to && to <= bytes.len() {
        &bytes[from..to]
    } else {
        b""
    }
}

/// The bytes as text, or no text if they aren't UTF-8.
pub fn text_of(bytes: &[u8]) -> &str {
    match str::from_utf8(bytes) {
        Ok(text) => text,
        Err(_) => "",
    }
}

/// How many bytes the character that begins there has, or 0 if none begins there.
pub fn character_at(bytes: &[u8], at: usize) -> usize {
    for size in 1..5 {
        let sign = part(bytes, at, at.saturating_add(size));
        if !sign.is_empty() && str::from_utf8(sign).is_ok() {
            return size;
        }
    }
    0
}

// Whether the byte is inside a character that begins before it.
fn is_inside(bytes: &[u8], at: usize) -> bool {
    for back in 1..4 {
        if back <= at && character_at(bytes, at - back) > back {
            return true;
        }
    }
    false
}

fn hexadecimal(half: u8) -> u8 {
    match half {
        0..=9 => half + b'0',
        10..=15 => half - 10 + b'A',
        _ => b'?',
    }
}

impl Page {
    pub fn new(alloc: Global) -> Page
        ensures { result ≡ [] }
    {
        Page {
            alloc,
            text: Bytes::new(alloc),
        }
    }

    /// The text so far.
    pub fn bytes(&self) -> &[u8]
        ensures { result.now ≡ self.now }
    {
        self.text.bytes()
    }

    pub fn is_empty(&self) -> bool {
        self.text.len() == 0
    }

    /// Appends bytes as they are.
    pub fn put(&mut self, bytes: &[u8]) -> Result<(), OutOfMemory>
        ensures { OnOk result (self.new ≡ self.old ++ bytes.now) }
    {
        self.text.extend_from_slice(bytes)
    }

    /// Appends a number in decimal digits.
    pub fn put_number(&mut self, number: u64) -> Result<(), OutOfMemory>
        ensures { OnOk result (self.new ≡ self.old ++ decimal number) }
    {
        let digits = number.to_string(self.alloc)?;
        self.put(digits.as_bytes())
    }

    fn put_code(&mut self, byte: u8) -> Result<(), OutOfMemory> {
        self.put(&[b'\\', b'x', hexadecimal(byte / 16), hexadecimal(byte % 16)])
    }

    // Appends the character that begins there, or an escape for the byte, and returns its width.
    fn put_sign(&mut self, bytes: &[u8], at: usize) -> Result<u32, OutOfMemory> {
        let size = character_at(bytes, at);
        let sign = part(bytes, at, at.saturating_add(size));
        match sign {
            [] => {
                if is_inside(bytes, at) {
                    return Ok(0);
                }
                for byte in part(bytes, at, at.saturating_add(1)) {
                    self.put_code(*byte)?;
                }
                Ok(4)
            }
            b"\t" => {
                self.put(b"\t")?;
                Ok(1)
            }
            [byte] if *byte < 32 || *byte == 127 => {
                self.put_code(*byte)?;
                Ok(4)
            }
            _ => {
                self.put(sign)?;
                Ok(1)
            }
        }
    }

    /// Appends the first bytes of a text from outside, with escapes for those that can't be printed.
    pub fn put_shown(&mut self, bytes: &[u8], most: usize) -> Result<(), OutOfMemory> {
        for at in 0..bytes.len() {
            if at >= most {
                return self.put(b" ..");
            }
            match part(bytes, at, at.saturating_add(1)) {
                b"\t" => self.put(b"\\t")?,
                b"\n" => self.put(b"\\n")?,
                b"\r" => self.put(b"\\r")?,
                _ => {
                    self.put_sign(bytes, at)?;
                }
            }
        }
        Ok(())
    }

    fn put_piece(&mut self, piece: Piece) -> Result<(), OutOfMemory> {
        match piece {
            Piece::Say(words) => self.put(words.as_bytes()),
            Piece::Number(number) => self.put_number(number),
            Piece::Quote(bytes) => self.put_shown(bytes, MOST_SHOWN),
        }
    }

    /// Appends pieces one after the other.
    pub fn add(&mut self, pieces: &[Piece]) -> Result<(), OutOfMemory> {
        for piece in pieces {
            self.put_piece(*piece)?;
        }
        Ok(())
    }

    /// Appends pieces and a line end.
    pub fn line(&mut self, pieces: &[Piece]) -> Result<(), OutOfMemory> {
        self.add(pieces)?;
        self.put(b"\n")
    }

    fn put_times(&mut self, sign: &[u8], times: u32) -> Result<(), OutOfMemory> {
        for _ in 0..times {
            self.put(sign)?;
        }
        Ok(())
    }

    /// Appends a line of a text, and below it a line with marks under the bytes from `from` up to `to`, or one mark at
    /// `from` if there are none. A long line is cut on both sides of the marks.
    pub fn excerpt(&mut self, line: &[u8], from: usize, to: usize) -> Result<(), OutOfMemory>
        ensures { OnOk result ((more : List ℕ) × (self.new ≡ self.old ++ more)) }
    {
        let first = from.saturating_sub(MOST_OF_LINE / 2);
        let last = first.saturating_add(MOST_OF_LINE).min(line.len());
        let mut shown = Page::new(self.alloc);
        let mut marks = Page::new(self.alloc);
        let lead: &[u8] = if first > 0 { b"    .. " } else { b"    " };
        let blanks: &[u8] = if first > 0 { b"       " } else { b"    " };
        shown.put(lead)?;
        marks.put(blanks)?;
        for at in first..last {
            let width = shown.put_sign(line, at)?;
            let is_tab = part(line, at, at.saturating_add(1)) == b"\t".as_slice();
            if from <= at && at < to {
                marks.put_times(b"^", width)?;
            } else if at < from && !is_tab {
                marks.put_times(b" ", width)?;
            }
            // a tab after a mark goes to the same place as one without
            if is_tab {
                marks.put(b"\t")?;
            }
        }
        if last < line.len() {
            shown.put(b" ..")?;
        }
        if to <= from {
            marks.put(b"^")?;
        }
        shown.put(b"\n")?;
        shown.put(marks.bytes().trim_ascii_end())?;
        shown.put(b"\n")?;
        self.put(shown.bytes())
    }
}
