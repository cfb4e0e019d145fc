//! The declarations of a program, by their lines.

use explain_words::TextLine;
use explain_words::pages::Page;
use explain_words::pages::Piece::{Number, Quote, Say};
use explain_words::places::lines_of;
use pact_record::OutOfMemory;
use std::alloc::Global;

/// The lines of a program that declare something, in text order.
#[derive(Drop)]
pub struct Declared<'a> {
    pub text: &'a [u8],
    pub lines: Vec<TextLine>,
    /// The line of the text that says how many fields there are.
    pub fields_line: u64,
    pub fields: u64,
}

/// Whether the word declares an operator.
pub fn is_operator(kind: &[u8]) -> bool {
    kind == b"map".as_slice()
        || kind == b"reduce".as_slice()
        || kind == b"match".as_slice()
        || kind == b"cross".as_slice()
        || kind == b"cogroup".as_slice()
}

/// Whether the word declares an operator over two inputs.
pub fn has_two_inputs(kind: &[u8]) -> bool {
    kind == b"match".as_slice() || kind == b"cross".as_slice() || kind == b"cogroup".as_slice()
}

/// Whether the word declares something that can be an input.
pub fn is_input(kind: &[u8]) -> bool {
    kind == b"source".as_slice() || is_operator(kind)
}

fn is_declaration(kind: &[u8]) -> bool {
    is_input(kind) || kind == b"function".as_slice() || kind == b"sink".as_slice()
}

/// The number that the digits spell, or nothing if other bytes are among them.
pub fn number(digits: &[u8]) -> Option<u64> {
    let mut value = 0u64;
    for digit in digits {
        if !digit.is_ascii_digit() {
            return None;
        }
        value = value
            .saturating_mul(10)
            .saturating_add(u64::from(digit.saturating_sub(b'0')));
    }
    if digits.is_empty() { None } else { Some(value) }
}

impl<'a> Declared<'a> {
    /// The declarations of a text that `pact` reads without a text fault.
    pub fn of(alloc: Global, text: &'a [u8]) -> Result<Declared<'a>, OutOfMemory> {
        let mut lines = Vec::new(alloc);
        let mut fields_line = 0;
        let mut fields = 0;
        for line in lines_of(alloc, text)? {
            if line.word(text, 0) == b"fields".as_slice() {
                fields_line = line.number;
                fields = number(line.word(text, 1)).unwrap_or(0);
            }
            if is_declaration(line.word(text, 0)) {
                lines.push(line)?;
            }
        }
        Ok(Declared {
            text,
            lines,
            fields_line,
            fields,
        })
    }

    pub fn kind(&self, line: &TextLine) -> &'a [u8] {
        line.word(self.text, 0)
    }

    /// The name by which `pact` reports the declaration; a sink has that of its input.
    pub fn name(&self, line: &TextLine) -> &'a [u8] {
        line.word(self.text, 1)
    }

    /// The function that an operator calls, or no bytes.
    pub fn function(&self, line: &TextLine) -> &'a [u8] {
        if is_operator(self.kind(line)) {
            line.word(self.text, 2)
        } else {
            b""
        }
    }

    /// The place of the left input among the words, and of the right one; 0 if there is none.
    pub fn input_places(&self, line: &TextLine) -> (usize, usize) {
        let kind = self.kind(line);
        if kind == b"sink".as_slice() {
            (1, 0)
        } else if has_two_inputs(kind) {
            (3, 4)
        } else if is_operator(kind) {
            (3, 0)
        } else {
            (0, 0)
        }
    }

    /// The names of the inputs; no bytes for one that the declaration doesn't have.
    pub fn inputs(&self, line: &TextLine) -> (&'a [u8], &'a [u8]) {
        let (left, right) = self.input_places(line);
        (self.word_at(line, left), self.word_at(line, right))
    }

    fn word_at(&self, line: &TextLine, place: usize) -> &'a [u8] {
        if place == 0 {
            b""
        } else {
            line.word(self.text, place)
        }
    }

    /// The first source or operator of that name.
    pub fn input_named(&self, name: &[u8]) -> Option<&TextLine> {
        for line in &self.lines {
            if is_input(self.kind(line)) && self.name(line) == name {
                return Some(line);
            }
        }
        None
    }

    /// The first function of that name.
    pub fn function_named(&self, name: &[u8]) -> Option<&TextLine> {
        for line in &self.lines {
            if self.kind(line) == b"function".as_slice() && self.name(line) == name {
                return Some(line);
            }
        }
        None
    }

    /// The first source of that name.
    pub fn source_named(&self, name: &[u8]) -> Option<&TextLine> {
        for line in &self.lines {
            if self.kind(line) == b"source".as_slice() && self.name(line) == name {
                return Some(line);
            }
        }
        None
    }

    /// The names of all sources and operators.
    pub fn input_names(&self, alloc: Global) -> Result<Vec<&'a [u8]>, OutOfMemory> {
        let mut names = Vec::new(alloc);
        for line in &self.lines {
            if is_input(self.kind(line)) {
                names.push(self.name(line))?;
            }
        }
        Ok(names)
    }

    /// The names of the functions of a kind, or of all if `kind` has no bytes.
    pub fn function_names(&self, alloc: Global, kind: &[u8]) -> Result<Vec<&'a [u8]>, OutOfMemory> {
        let mut names = Vec::new(alloc);
        for line in &self.lines {
            let fits = kind.is_empty() || line.word(self.text, 2) == kind;
            if self.kind(line) == b"function".as_slice() && fits {
                names.push(self.name(line))?;
            }
        }
        Ok(names)
    }

    /// The names of the sources.
    pub fn source_names(&self, alloc: Global) -> Result<Vec<&'a [u8]>, OutOfMemory> {
        let mut names = Vec::new(alloc);
        for line in &self.lines {
            if self.kind(line) == b"source".as_slice() {
                names.push(self.name(line))?;
            }
        }
        Ok(names)
    }

    /// The line of the operator or source with that number, or the function with that number.
    pub fn numbered(&self, number: usize, functions: bool) -> Option<&TextLine> {
        let mut left = number;
        for line in &self.lines {
            let kind = self.kind(line);
            let counts = if functions {
                kind == b"function".as_slice()
            } else {
                is_input(kind)
            };
            if counts && left == 0 {
                return Some(line);
            }
            if counts {
                left = left.saturating_sub(1);
            }
        }
        None
    }

    /// Appends a field's number and which fields records have.
    pub fn put_width(&self, page: &mut Page, field: u64) -> Result<(), OutOfMemory> {
        page.line(&[
            Say("field "),
            Number(field),
            Say(": records have "),
            Number(self.fields),
            Say(if self.fields == 1 {
                " field (line "
            } else {
                " fields (line "
            }),
            Number(self.fields_line),
            Say("), numbered 0 to "),
            Number(self.fields.saturating_sub(1)),
        ])
    }

    /// The line of the header of the function that has this name and comes after `nth` others of that name.
    pub fn header(&self, name: &[u8], nth: usize) -> Option<&TextLine> {
        let mut left = nth;
        for line in &self.lines {
            if self.kind(line) == b"function".as_slice() && self.name(line) == name {
                if left == 0 {
                    return Some(line);
                }
                left = left.saturating_sub(1);
            }
        }
        None
    }
}

/// Appends names, each after a blank.
pub fn put_names(page: &mut Page, names: &[&[u8]]) -> Result<(), OutOfMemory> {
    if names.is_empty() {
        page.put(b" none")?;
    }
    for name in names {
        page.add(&[Say(" "), Quote(name)])?;
    }
    page.put(b"\n")
}
