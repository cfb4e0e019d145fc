//! Certificates that are refused.

use explain_words::Page;
use explain_words::faults::{certificate_cure, certificate_fault};
use explain_words::pages::Piece::{Number, Quote, Say};
use pact_record::OutOfMemory;

fn put_section(page: &mut Page, number: u32) -> Result<(), OutOfMemory> {
    if number == 0 {
        return page.line(&[Say("docs/faults.md, \"Certificate: the shape\"")]);
    }
    page.line(&[
        Say("docs/faults.md, \"Certificate fault C"),
        Number(u64::from(number)),
        Say("\""),
    ])
}

// Why the field makes an exchange illegal.
fn conflict(words: &str) -> &'static str {
    match words {
        "conflict read-write" => "the upper operator reads it, and the lower one writes it",
        "conflict write-read" => "the upper operator writes it, and the lower one reads it",
        "conflict write-write" => "both operators write it",
        "side" => {
            "the operator that would move touches it, and the input that it would move past has it"
        }
        _ =>
            "it is a key of the match on the side that the reduce would move to or from, and the reduce doesn't group by it",
    }
}

fn put_why(page: &mut Page, why: &str) -> Result<(), OutOfMemory> {
    if let Some((words, field)) = why.rsplit_once(" ") {
        return page.line(&[
            Say("field "),
            Quote(field.as_bytes()),
            Say(": "),
            Say(conflict(words)),
        ]);
    }
    let words = match why {
        "not-anchored" => {
            "the cogroup may emit a record that didn't begin as a copy of one from the side that the map would move to or from"
        }
        "not-unique" => {
            "the other side of the match may hold two records with the same key. That side must be a reduce by the match's keys, or maps over such a reduce. Each of these must emit at most one record a call and write no key."
        }
        "key-group" => {
            "groups may change: a map must emit exactly one record a call. It may emit none only if the group's keys alone decide that. A match that a reduce moves past must emit exactly one record for each pair."
        }
        _ => return Ok(()),
    };
    page.line(&[Say(words)])
}

// ---- what is stated and what is found

// The rest of the first line that begins with these words, or no text.
fn line_with<'a>(more: &'a str, prefix: &str) -> &'a str {
    for line in more.split('\n') {
        if let Some(rest) = line.strip_prefix(prefix) {
            return rest;
        }
    }
    ""
}

// The word after this one in a line of words.
fn word_after<'a>(line: &'a str, name: &str) -> &'a str {
    let mut is_next = false;
    for word in line.split(' ') {
        if is_next {
            return word;
        }
        is_next = word == name;
    }
    ""
}

const SETS: &[&str] = &["reads", "writes", "control", "touched", "emit", "anchor"];

fn put_different<'x>(
    page: &mut Page,
    who: &'static str,
    stated: &'x str,
    found: &'x str,
) -> Result<(), OutOfMemory> {
    for set in SETS {
        let (one, other) = (word_after(stated, set), word_after(found, set));
        if one != other {
            page.line(&[
                Say(who),
                Say(" "),
                Say(set),
                Say(": the certificate states "),
                Quote(one.as_bytes()),
                Say(", and `pact` finds "),
                Quote(other.as_bytes()),
            ])?;
        }
    }
    Ok(())
}

// Words and a value after them.
fn put_between(page: &mut Page, words: &str, value: &str) -> Result<(), OutOfMemory> {
    page.put(words.as_bytes())?;
    page.put(value.as_bytes())
}

// What the lines after the first one state and find.
fn put_more(page: &mut Page, number: u32, more: &str) -> Result<(), OutOfMemory> {
    if more.is_empty() {
        return Ok(());
    }
    match number {
        3 => {
            let upper = (
                line_with(more, "stated upper "),
                line_with(more, "found upper "),
            );
            put_different(page, "upper", upper.0, upper.1)?;
            let lower = (
                line_with(more, "stated lower "),
                line_with(more, "found lower "),
            );
            put_different(page, "lower", lower.0, lower.1)
        }
        5 => {
            put_between(
                page,
                "the steps lead to the plan ",
                line_with(more, "found "),
            )?;
            put_between(
                page,
                ", and the certificate states ",
                line_with(more, "stated "),
            )?;
            page.put(b"\n")
        }
        6 => {
            let stated = line_with(more, "stated ");
            put_between(
                page,
                "the certificate is for a program that begins with pact ",
                stated,
            )?;
            let found = line_with(more, "found ");
            put_between(page, ", and this one begins with pact ", found)?;
            page.put(b"\n")
        }
        _ => Ok(()),
    }
}

/// Appends why a certificate is refused. `more` are the lines after the first one that `pact` prints.
pub fn put_certificate_fault(
    page: &mut Page,
    number: u32,
    step: u64,
    why: &str,
    more: &str,
) -> Result<(), OutOfMemory> {
    page.line(&[Say(certificate_fault(number))])?;
    if step > 0 {
        page.line(&[
            Say("the fault is in step "),
            Number(step),
            Say(" of the certificate, counted from 1"),
        ])?;
    }
    put_why(page, why)?;
    put_more(page, number, more)?;
    page.line(&[Say("cure: "), Say(certificate_cure(number))])?;
    put_section(page, number)
}
