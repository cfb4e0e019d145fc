//! Which word of a command line is wrong, found by trying other words.

use crate::tables::{
    COMMANDS, CommandRow, OPTIONS, Operand, Opt, Takes, command_named, option_named,
};
use explain_words::Page;
use explain_words::pages::Piece::{Number, Quote, Say};
use explain_words::spelling::{is_near, nearest};
use pact_record::OutOfMemory;
use pact_words::{Refused, read_words};
use std::alloc::Global;

/// Whether `pact` takes the words.
pub fn are_taken(alloc: Global, words: &[&str]) -> Result<bool, OutOfMemory> {
    match read_words(alloc, words) {
        Ok(_) => Ok(true),
        Err(Refused::Usage) => Ok(false),
        Err(Refused::OutOfMemory) => Err(OutOfMemory),
    }
}

// ---- changed words

// The words with others instead of `count` of them at `at`.
fn changed<'a>(
    alloc: Global,
    words: &[&'a str],
    at: usize,
    count: usize,
    others: &[&'a str],
) -> Result<Vec<&'a str>, OutOfMemory> {
    let mut all = Vec::new(alloc);
    for (place, word) in words.iter().enumerate() {
        if place == at {
            all.extend_from_slice(others)?;
        }
        if place < at || at.saturating_add(count) <= place {
            all.push(*word)?;
        }
    }
    if words.len() <= at {
        all.extend_from_slice(others)?;
    }
    Ok(all)
}

// ---- what is printed

fn put_words(page: &mut Page, words: &[&str]) -> Result<(), OutOfMemory> {
    page.put(b"pact")?;
    for word in words {
        page.put(b" ")?;
        page.put(word.as_bytes())?;
    }
    Ok(())
}

// The words, with a mark under the one at `at`, or after the last one.
fn put_marked(
    alloc: Global,
    page: &mut Page,
    words: &[&str],
    at: usize,
) -> Result<(), OutOfMemory> {
    let mut line = Page::new(alloc);
    put_words(&mut line, words)?;
    let mut from = line.bytes().len().saturating_add(1);
    let mut to = from;
    let mut place = 5usize;
    for (number, word) in words.iter().enumerate() {
        if number == at {
            from = place;
            to = place.saturating_add(word.len());
        }
        place = place.saturating_add(word.len()).saturating_add(1);
    }
    page.excerpt(line.bytes(), from, to)
}

fn put_usage(page: &mut Page, row: CommandRow) -> Result<(), OutOfMemory> {
    page.line(&[Say("usage: pact "), Say(row.line)])
}

fn put_commands(page: &mut Page) -> Result<(), OutOfMemory> {
    for row in &COMMANDS {
        put_usage(page, *row)?;
    }
    for option in &OPTIONS {
        page.line(&[Say("  "), Say(option.line())])?;
    }
    page.line(&[Say("  SEED is 0 to 2147483646, ROWS 0 to 1000000, and ROUNDS 1 to 1000")])
}

// A cure, if `pact` takes these words.
fn put_cure(alloc: Global, page: &mut Page, words: &[&str]) -> Result<bool, OutOfMemory> {
    if !are_taken(alloc, words)? {
        return Ok(false);
    }
    page.put(b"cure: ")?;
    put_words(page, words)?;
    page.put(b"\n")?;
    Ok(true)
}

// ---- the first word

fn put_no_command(page: &mut Page) -> Result<(), OutOfMemory> {
    page.line(&[Say("no command is given: the first word must be one")])?;
    put_commands(page)
}

fn command_near(alloc: Global, word: &str) -> Result<Option<&'static str>, OutOfMemory> {
    let mut names: Vec<&[u8]> = Vec::new(alloc);
    for row in &COMMANDS {
        names.push(row.name.as_bytes())?;
    }
    let Some(near) = nearest(word.as_bytes(), &names) else {
        return Ok(None);
    };
    for row in &COMMANDS {
        if row.name.as_bytes() == near {
            return Ok(Some(row.name));
        }
    }
    Ok(None)
}

// The words with the command at `at` as the first one.
fn with_command_first<'a>(
    alloc: Global,
    words: &[&'a str],
    at: usize,
) -> Result<Vec<&'a str>, OutOfMemory> {
    let mut all = Vec::new(alloc);
    for (place, word) in words.iter().enumerate() {
        if place == at {
            all.push(*word)?;
        }
    }
    for (place, word) in words.iter().enumerate() {
        if place != at {
            all.push(*word)?;
        }
    }
    Ok(all)
}

// Cures of words whose first one is no command.
fn put_command_cures(
    alloc: Global,
    page: &mut Page,
    words: &[&str],
    first: &str,
) -> Result<(), OutOfMemory> {
    if let Some(near) = command_near(alloc, first)? {
        page.line(&[Say("the most similar command is "), Say(near)])?;
        put_cure(alloc, page, &changed(alloc, words, 0, 1, &[near])?)?;
    }
    for (at, word) in words.iter().enumerate() {
        if command_named(word).is_some() {
            page.line(&[
                Say("the command "),
                Quote(word.as_bytes()),
                Say(" must come first, and its options after it"),
            ])?;
            put_cure(alloc, page, &with_command_first(alloc, words, at)?)?;
            return Ok(());
        }
    }
    if first.ends_with(".pact") {
        put_cure(alloc, page, &changed(alloc, words, 0, 0, &["run"])?)?;
    }
    Ok(())
}

fn put_other_command(
    alloc: Global,
    page: &mut Page,
    words: &[&str],
    first: &str,
) -> Result<(), OutOfMemory> {
    put_marked(alloc, page, words, 0)?;
    page.line(&[
        Say("the word "),
        Quote(first.as_bytes()),
        Say(" isn't a command"),
    ])?;
    page.line(&[Say("expected: run, plan, cert, check, sets, gen, drill or iterate")])?;
    put_command_cures(alloc, page, words, first)?;
    put_commands(page)
}

// ---- the other words

// The option before this word, if it takes a value.
fn option_of_value(words: &[&str], at: usize) -> Option<Opt> {
    if at < 2 {
        return None;
    }
    let option = option_named(words.get(at - 1)?)?;
    match option.takes() {
        Takes::Nothing => None,
        _ => Some(option),
    }
}

// How many operands come before this word.
fn operands_before(words: &[&str], at: usize) -> usize {
    let mut count = 0usize;
    for (place, word) in words.iter().enumerate() {
        if 0 < place
            && place < at
            && !word.starts_with("--")
            && option_of_value(words, place).is_none()
        {
            count = count.saturating_add(1);
        }
    }
    count
}

fn operand_at(row: CommandRow, at: usize) -> Option<Operand> {
    row.operands.get(at).copied()
}

fn put_takes(page: &mut Page, takes: Takes) -> Result<(), OutOfMemory> {
    match takes {
        Takes::Anything => page.line(&[Say("expected: any word")]),
        Takes::Range(low, high) => page.line(&[
            Say("expected: a whole number without commas, "),
            Number(low),
            Say(" to "),
            Number(high),
        ]),
        Takes::Way => page.line(&[Say("expected: hash or sort")]),
        Takes::Nothing => page.line(&[Say("expected: no value")]),
    }
}

// The number that has these digits, perhaps with commas and blanks between them. A number that is too large is the
// greatest one.
fn number_of(given: &str) -> Option<u64> {
    let mut number = 0u64;
    let mut has_digit = false;
    for byte in given.as_bytes() {
        if byte.is_ascii_digit() {
            let digit = u64::from(byte.saturating_sub(b'0'));
            number = number.saturating_mul(10).saturating_add(digit);
            has_digit = true;
        } else if *byte != b',' && *byte != b' ' {
            return None;
        }
    }
    if has_digit { Some(number) } else { None }
}

// The value nearest to the given one that is allowed, or no text.
fn value_near(alloc: Global, takes: Takes, given: &str) -> Result<String, OutOfMemory> {
    match takes {
        Takes::Range(low, high) => match number_of(given) {
            Some(number) => number.max(low).min(high).to_string(alloc),
            None => String::from_str(alloc, ""),
        },
        Takes::Way if given.starts_with("s") => String::from_str(alloc, "sort"),
        Takes::Way => String::from_str(alloc, "hash"),
        _ => String::from_str(alloc, "m.pact"),
    }
}

// The option's value at `at` is wrong.
fn put_bad_value(
    alloc: Global,
    page: &mut Page,
    words: &[&str],
    at: usize,
    option: Opt,
    given: &str,
) -> Result<(), OutOfMemory> {
    put_marked(alloc, page, words, at)?;
    page.line(&[
        Say(option.word()),
        Say(" doesn't take the value "),
        Quote(given.as_bytes()),
    ])?;
    put_takes(page, option.takes())?;
    page.line(&[Say("  "), Say(option.line())])?;
    let near = value_near(alloc, option.takes(), given)?;
    if option_of_value(words, at).is_some() {
        put_cure(
            alloc,
            page,
            &changed(alloc, words, at, 1, &[near.as_str()])?,
        )?;
    } else {
        let others = [option.word(), near.as_str()];
        put_cure(alloc, page, &changed(alloc, words, at, 1, &others)?)?;
    }
    Ok(())
}

fn put_bad_operand(
    alloc: Global,
    page: &mut Page,
    words: &[&str],
    at: usize,
    operand: Operand,
    given: &str,
) -> Result<(), OutOfMemory> {
    put_marked(alloc, page, words, at)?;
    page.line(&[
        Say(operand.name()),
        Say(" can't be "),
        Quote(given.as_bytes()),
    ])?;
    page.line(&[Say("expected: "), Say(operand.meaning())])?;
    let near = value_near(alloc, operand.takes(), given)?;
    put_cure(
        alloc,
        page,
        &changed(alloc, words, at, 1, &[near.as_str()])?,
    )?;
    Ok(())
}

// Whether another value in `OPTION=VALUE` makes the words a command.
fn explains_joined_value(
    alloc: Global,
    page: &mut Page,
    words: &[&str],
    at: usize,
    word: &str,
) -> Result<bool, OutOfMemory> {
    let Some((name, value)) = word.split_once("=") else {
        return Ok(false);
    };
    let Some(option) = option_named(name) else {
        return Ok(false);
    };
    if option.takes() == Takes::Nothing {
        return Ok(false);
    }
    let others = [option.word(), option.sample()];
    if !are_taken(alloc, &changed(alloc, words, at, 1, &others)?)? {
        return Ok(false);
    }
    put_bad_value(alloc, page, words, at, option, value)?;
    Ok(true)
}

// Whether another value or operand instead of the word makes the words a command.
fn explains_value(
    alloc: Global,
    page: &mut Page,
    words: &[&str],
    row: CommandRow,
    at: usize,
    word: &str,
) -> Result<bool, OutOfMemory> {
    if explains_joined_value(alloc, page, words, at, word)? {
        return Ok(true);
    }
    if let Some(option) = option_of_value(words, at) {
        let others = [option.sample()];
        if are_taken(alloc, &changed(alloc, words, at, 1, &others)?)? {
            put_bad_value(alloc, page, words, at, option, word)?;
            return Ok(true);
        }
        return Ok(false);
    }
    let Some(operand) = operand_at(row, operands_before(words, at)) else {
        return Ok(false);
    };
    let others = [operand.sample()];
    if word.starts_with("-") || !are_taken(alloc, &changed(alloc, words, at, 1, &others)?)? {
        return Ok(false);
    }
    put_bad_operand(alloc, page, words, at, operand, word)?;
    Ok(true)
}

// ---- words that are missing

fn put_missing(
    alloc: Global,
    page: &mut Page,
    words: &[&str],
    operand: Operand,
) -> Result<(), OutOfMemory> {
    put_marked(alloc, page, words, words.len())?;
    page.line(&[Say("the operand "), Say(operand.name()), Say(" is missing")])?;
    page.line(&[Say("expected: "), Say(operand.meaning())])
}

fn explains_missing_value(
    alloc: Global,
    page: &mut Page,
    words: &[&str],
) -> Result<bool, OutOfMemory> {
    let Some(option) = option_of_value(words, words.len()) else {
        return Ok(false);
    };
    put_marked(alloc, page, words, words.len())?;
    page.line(&[Say("the value of "), Say(option.word()), Say(" is missing")])?;
    put_takes(page, option.takes())?;
    page.line(&[Say("  "), Say(option.line())])?;
    Ok(true)
}

// Whether operands after the last word make the words a command.
fn explains_missing(
    alloc: Global,
    page: &mut Page,
    words: &[&str],
    row: CommandRow,
) -> Result<bool, OutOfMemory> {
    if explains_missing_value(alloc, page, words)? {
        return Ok(true);
    }
    let before = operands_before(words, words.len());
    let mut longer = changed(alloc, words, 0, 0, &[])?;
    for (place, operand) in row.operands.iter().enumerate() {
        if place < before {
            continue;
        }
        longer.push(operand.sample())?;
        if are_taken(alloc, &longer)? {
            if let Some(first) = operand_at(row, before) {
                put_missing(alloc, page, words, first)?;
            }
            return Ok(true);
        }
    }
    Ok(false)
}

// ---- words that are left over

fn put_options(page: &mut Page, row: CommandRow) -> Result<(), OutOfMemory> {
    if row.options.is_empty() {
        return page.line(&[
            Say("expected: no option; "),
            Say(row.name),
            Say(" has none"),
        ]);
    }
    page.line(&[Say("expected: an option of "), Say(row.name)])?;
    for option in row.options {
        page.line(&[Say("  "), Say(option.line())])?;
    }
    Ok(())
}

// Whether the option may be meant by the word: it is spelled like it, or begins with its letter.
fn is_meant(option: Opt, word: &str) -> bool {
    let letter = word.as_bytes().get(1).copied();
    let initial = option.word().as_bytes().get(2).copied();
    is_near(word.as_bytes(), option.word().as_bytes()) || (word.len() == 2 && letter == initial)
}

// A cure by each option that may be meant.
fn put_option_cures(
    alloc: Global,
    page: &mut Page,
    words: &[&str],
    row: CommandRow,
    at: usize,
    name: &str,
) -> Result<(), OutOfMemory> {
    for option in row.options {
        if is_meant(*option, name) {
            put_cure(
                alloc,
                page,
                &changed(alloc, words, at, 1, &[option.word()])?,
            )?;
        }
    }
    Ok(())
}

// The option's word in `OPTION=VALUE`.
fn option_part(word: &str) -> &str {
    match word.split_once("=") {
        Some((name, _)) => name,
        None => word,
    }
}

fn has_named(row: CommandRow, name: &str) -> bool {
    match option_named(name) {
        Some(option) => row.has(option),
        None => false,
    }
}

fn put_other_option(
    alloc: Global,
    page: &mut Page,
    words: &[&str],
    row: CommandRow,
    at: usize,
    word: &str,
) -> Result<(), OutOfMemory> {
    let name = option_part(word);
    match option_named(name) {
        Some(option) if row.has(option) && option.takes() == Takes::Nothing && name != word => {
            page.line(&[
                Say("the option "),
                Say(option.word()),
                Say(" takes no value"),
            ])?;
            put_cure(
                alloc,
                page,
                &changed(alloc, words, at, 1, &[option.word()])?,
            )?;
        }
        Some(option) if row.has(option) => {
            page.line(&[
                Say("the option "),
                Say(option.word()),
                Say(" is given twice: each may be given once"),
            ])?;
        }
        Some(option) => {
            page.line(&[
                Say("the command "),
                Say(row.name),
                Say(" has no option "),
                Say(option.word()),
                Say("; other commands have it"),
            ])?;
            put_options(page, row)?;
        }
        None if name == "--help" || name == "-h" => {
            page.line(&[Say(
                "for help, read docs/commands.md, or run `man ./docs/pact.1` in a clone",
            )])?;
        }
        None => {
            page.line(&[Say("there is no option "), Quote(name.as_bytes())])?;
            put_options(page, row)?;
            put_option_cures(alloc, page, words, row, at, name)?;
        }
    }
    Ok(())
}

fn put_left_over(
    alloc: Global,
    page: &mut Page,
    words: &[&str],
    row: CommandRow,
    at: usize,
    count: usize,
    word: &str,
) -> Result<(), OutOfMemory> {
    put_marked(alloc, page, words, at)?;
    if word.starts_with("-") {
        put_other_option(alloc, page, words, row, at, word)?;
    } else {
        page.line(&[
            Say("the word "),
            Quote(word.as_bytes()),
            Say(" is one too many"),
        ])?;
    }
    put_cure(alloc, page, &changed(alloc, words, at, count, &[])?)?;
    Ok(())
}

// Whether the words are a command without this word, or without it and the next one.
fn explains_left_over(
    alloc: Global,
    page: &mut Page,
    words: &[&str],
    row: CommandRow,
    at: usize,
    word: &str,
) -> Result<bool, OutOfMemory> {
    if option_of_value(words, at).is_some() {
        return Ok(false);
    }
    for count in 1..3 {
        if are_taken(alloc, &changed(alloc, words, at, count, &[])?)? {
            put_left_over(alloc, page, words, row, at, count, word)?;
            return Ok(true);
        }
    }
    Ok(false)
}

// ---- several faults

// Whether the option isn't one of the command.
fn explains_option(
    alloc: Global,
    page: &mut Page,
    words: &[&str],
    row: CommandRow,
    at: usize,
    word: &str,
) -> Result<bool, OutOfMemory> {
    let name = option_part(word);
    let is_own = has_named(row, name);
    if !word.starts_with("-") || is_own || option_of_value(words, at).is_some() {
        return Ok(false);
    }
    put_marked(alloc, page, words, at)?;
    put_other_option(alloc, page, words, row, at, word)?;
    Ok(true)
}

fn put_first_of_several(
    alloc: Global,
    page: &mut Page,
    words: &[&str],
    row: CommandRow,
) -> Result<(), OutOfMemory> {
    for (at, word) in words.iter().enumerate() {
        if at > 0 && explains_option(alloc, page, words, row, at, word)? {
            break;
        }
    }
    page.line(&[Say("more than one word is wrong or missing")])
}

// ---- all words

// The first change of one place that makes the words a command.
fn explains_one(
    alloc: Global,
    page: &mut Page,
    words: &[&str],
    row: CommandRow,
) -> Result<bool, OutOfMemory> {
    if explains_missing(alloc, page, words, row)? {
        return Ok(true);
    }
    for (at, word) in words.iter().enumerate() {
        if at > 0 && explains_value(alloc, page, words, row, at, word)? {
            return Ok(true);
        }
    }
    for back in 1..words.len() {
        let at = words.len() - back;
        if explains_left_over(alloc, page, words, row, at, words[at])? {
            return Ok(true);
        }
    }
    Ok(false)
}

/// Appends which word is wrong, what it takes, and how the command's words are written.
pub fn put_refused_words(
    alloc: Global,
    page: &mut Page,
    words: &[&str],
) -> Result<(), OutOfMemory> {
    let Some(first) = words.first() else {
        return put_no_command(page);
    };
    let Some(row) = command_named(first) else {
        return put_other_command(alloc, page, words, first);
    };
    if !explains_one(alloc, page, words, row)? {
        put_first_of_several(alloc, page, words, row)?;
    }
    put_usage(page, row)
}

/// Appends the words of all commands.
pub fn put_all_usage(page: &mut Page) -> Result<(), OutOfMemory> {
    put_commands(page)
}
