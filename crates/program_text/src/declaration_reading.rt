//! The lines of declarations, read from their words.

ghost use Rattle.std.specs.Prelude.{◌≡◌, ◌≤◌, ◌++◌, ◌∷◌, [], IsTrue, OnOk, ◌<◌, ℕ, None, Some, IfErr, IfOk, codes, length};
ghost use Rattle.tac_syntax.specs.Grammar.{IsNumber};
ghost use Rattle.tac_syntax.specs.Versions.{field_limit};
ghost use Rattle.tac_syntax.specs.Names.{is_file_name, is_name};
ghost use Rattle.text_lines.specs.LineReading.{ReadsNext, IsFaultOf, TellsFault, TellsNoFault};
ghost use Rattle.text_lines.specs.declared.line_words.LineWord.TheVariants.{Plain as plain_word};
ghost use Rattle.text_lines.specs.Slots.{file_name, identifier};
ghost use Rattle.program_text.specs.ProgramStates.{ReadsColumns, ReadsKeyPair, ReadsLeftKeys, ReadsNumbers, GivesDecl, ReadsDecl};
ghost use Rattle.tac_syntax.specs.Declarations.{IsSpelledDecl};
ghost use Rattle.tac_syntax.specs.declared.declarations.Decl.{Decl as DeclData};
ghost use Rattle.tac_syntax.specs.declared.declarations.OpKind.TheVariants.{CoGroup, Match};
ghost use Rattle.program_text.specs.DeclarationFaults.{declaration_fault};
ghost use Rattle.program_text.specs.DeclarationWords.{words_of_decl};

use pact_record::{Column, Columns, MAX_KEYS, OutOfMemory, Word};
use std::alloc::Global;
use tac_syntax::{Decl, Numbers, OpKind, field_limit};
use text_lines::{Cursor, LineWord, NotRead, is_word};

fn read_name(alloc: Global, words: &mut Cursor<'_>) -> Result<Word, NotRead>
    ensures { ReadsNext identifier (λ name. IsTrue (is_name name)) (λ name. plain_word name) result words.old words.new }
{
    Ok(Word::from_bytes(alloc, words.name()?)?)
}

fn read_file_name(alloc: Global, words: &mut Cursor<'_>) -> Result<Word, NotRead>
    ensures { ReadsNext file_name (λ name. IsTrue (is_file_name name)) (λ name. plain_word name) result words.old words.new }
{
    Ok(Word::from_bytes(alloc, words.file_name()?)?)
}

fn add_column(columns: &mut Columns, column: Column) -> Result<(), OutOfMemory>
    ensures { OnOk result (columns.new ≡ columns.old ++ column ∷ []) }
{
    columns.push(column)?;
    Ok(())
}

fn add_number(numbers: &mut Numbers, number: u32) -> Result<(), OutOfMemory>
    requires { IsNumber number }
    ensures { OnOk result (numbers.new ≡ numbers.old ++ number ∷ []) }
{
    numbers.push(number)?;
    Ok(())
}

// The columns up to the line's end: one or more, and at most `limit`.
fn read_columns(alloc: Global, limit: usize, words: &mut Cursor<'_>) -> Result<Columns, NotRead>
    requires { 1 ≤ limit }
    ensures { ReadsColumns limit result words.old }
{
    let mut columns = Columns::new(alloc);
    let first = words.column()?;
    add_column(&mut columns, first)?;
    while words.left() > 0 {
        let column = words.column()?;
        if columns.len() == limit {
            return Err(NotRead::Fault { what: 5 });
        }
        add_column(&mut columns, column)?;
    }
    Ok(columns)
}

// The numbers up to the line's end: one or more, and at most `limit`.
fn read_numbers(alloc: Global, limit: usize, words: &mut Cursor<'_>) -> Result<Numbers, NotRead>
    requires { 1 ≤ limit }
    ensures { ReadsNumbers limit result words.old }
{
    let mut numbers = Numbers::new(alloc);
    let first = words.number(0, 255)?;
    add_number(&mut numbers, first)?;
    while words.left() > 0 {
        let number = words.number(0, 255)?;
        if numbers.len() == limit {
            return Err(NotRead::Fault { what: 5 });
        }
        add_number(&mut numbers, number)?;
    }
    Ok(numbers)
}

// The keys of the left input, and `=`.
fn read_left_keys(alloc: Global, words: &mut Cursor<'_>) -> Result<Numbers, NotRead>
    ensures { ReadsLeftKeys result words.old words.new }
{
    let mut keys = Numbers::new(alloc);
    let first = words.number(0, 255)?;
    add_number(&mut keys, first)?;
    while !words.skips(b"=") {
        let key = words.number(0, 255)?;
        if keys.len() == MAX_KEYS {
            return Err(NotRead::Fault { what: 8 });
        }
        add_number(&mut keys, key)?;
    }
    Ok(keys)
}

// The keys of both inputs, up to the line's end.
fn read_key_pair(alloc: Global, words: &mut Cursor<'_>) -> Result<(Numbers, Numbers), NotRead>
    ensures { ReadsKeyPair result words.old }
{
    let left_keys = read_left_keys(alloc, words)?;
    let right_keys = read_numbers(alloc, MAX_KEYS, words)?;
    Ok((left_keys, right_keys))
}

// ---- after a line's first word

// The most columns of a source, and the most fields of a sink.
fn listed(version: u32) -> usize
    ensures limit { result ≡ field_limit version }
    ensures some { 1 ≤ result }
{
    field_limit(version) as usize
}

fn read_source(alloc: Global, version: u32, words: &mut Cursor<'_>) -> Result<Decl, NotRead>
    ensures { ReadsDecl version (codes "source") result words.old }
{
    let name = read_name(alloc, words)?;
    let file = read_file_name(alloc, words)?;
    let columns = read_columns(alloc, listed(version), words)?;
    Ok(Decl::Source {
        name,
        file,
        columns,
    })
}

fn read_map(alloc: Global, words: &mut Cursor<'_>) -> Result<Decl, NotRead>
    ensures { (version : ℕ) → ReadsDecl version (codes "map") result words.old }
{
    let name = read_name(alloc, words)?;
    let function = read_name(alloc, words)?;
    let left = read_name(alloc, words)?;
    words.end()?;
    Ok(Decl::Op {
        name,
        kind: OpKind::Map,
        function,
        left,
        right: Word::from_bytes(alloc, b"")?,
        left_keys: Numbers::new(alloc),
        right_keys: Numbers::new(alloc),
    })
}

fn read_reduce(alloc: Global, words: &mut Cursor<'_>) -> Result<Decl, NotRead>
    ensures { (version : ℕ) → ReadsDecl version (codes "reduce") result words.old }
{
    let name = read_name(alloc, words)?;
    let function = read_name(alloc, words)?;
    let left = read_name(alloc, words)?;
    words.fixed(b"by")?;
    let left_keys = read_numbers(alloc, MAX_KEYS, words)?;
    Ok(Decl::Op {
        name,
        kind: OpKind::Reduce,
        function,
        left,
        right: Word::from_bytes(alloc, b"")?,
        left_keys,
        right_keys: Numbers::new(alloc),
    })
}

fn read_cross(alloc: Global, words: &mut Cursor<'_>) -> Result<Decl, NotRead>
    ensures { (version : ℕ) → ReadsDecl version (codes "cross") result words.old }
{
    let name = read_name(alloc, words)?;
    let function = read_name(alloc, words)?;
    let left = read_name(alloc, words)?;
    let right = read_name(alloc, words)?;
    words.end()?;
    Ok(Decl::Op {
        name,
        kind: OpKind::Cross,
        function,
        left,
        right,
        left_keys: Numbers::new(alloc),
        right_keys: Numbers::new(alloc),
    })
}

// An operator that matches the keys of two inputs.
fn read_matching(alloc: Global, kind: OpKind, words: &mut Cursor<'_>) -> Result<Decl, NotRead>
    ensures matching { (version : ℕ) → kind ≡ Match → ReadsDecl version (codes "match") result words.old }
    ensures cogrouping { (version : ℕ) → kind ≡ CoGroup → ReadsDecl version (codes "cogroup") result words.old }
{
    let name = read_name(alloc, words)?;
    let function = read_name(alloc, words)?;
    let left = read_name(alloc, words)?;
    let right = read_name(alloc, words)?;
    words.fixed(b"by")?;
    let (left_keys, right_keys) = read_key_pair(alloc, words)?;
    Ok(Decl::Op {
        name,
        kind,
        function,
        left,
        right,
        left_keys,
        right_keys,
    })
}

fn read_sink(alloc: Global, version: u32, words: &mut Cursor<'_>) -> Result<Decl, NotRead>
    ensures { ReadsDecl version (codes "sink") result words.old }
{
    let input = read_name(alloc, words)?;
    let fields = read_numbers(alloc, listed(version), words)?;
    Ok(Decl::Sink { input, fields })
}

// ---- lines

fn read_behind(
    alloc: Global,
    version: u32,
    first: &[u8],
    words: &mut Cursor<'_>,
) -> Result<Decl, NotRead>
    ensures { ReadsDecl version first.now result words.old }
{
    if is_word(first, b"source") {
        read_source(alloc, version, words)
    } else if is_word(first, b"map") {
        read_map(alloc, words)
    } else if is_word(first, b"reduce") {
        read_reduce(alloc, words)
    } else if is_word(first, b"match") {
        read_matching(alloc, OpKind::Match, words)
    } else if is_word(first, b"cross") {
        read_cross(alloc, words)
    } else if is_word(first, b"cogroup") {
        read_matching(alloc, OpKind::CoGroup, words)
    } else if is_word(first, b"sink") {
        read_sink(alloc, version, words)
    } else if is_word(first, b"else") || is_word(first, b"end") {
        Err(NotRead::Fault { what: 10 })
    } else {
        Err(NotRead::Fault { what: 3 })
    }
}

fn read_line(alloc: Global, version: u32, words: &[LineWord]) -> Result<Decl, NotRead>
    requires { 0 < length words.now }
    ensures decl { IfOk result (λ d. IsSpelledDecl version d × (words.now ≡ words_of_decl d)) }
    ensures fault { IfErr result (λ e. IsFaultOf e (declaration_fault version words.now)) }
{
    let mut words = Cursor::new(words);
    match words.next()? {
        LineWord::Plain(first) => read_behind(alloc, version, first.bytes(), &mut words),
        LineWord::Literal(_) => Err(NotRead::Fault { what: 3 }),
    }
}

/// The declaration that a line's words make in a program of the version, or their first fault.
pub fn read_declaration(alloc: Global, version: u32, words: &[LineWord]) -> Result<Decl, NotRead>
    requires some { 0 < length words.now }
    ensures decl { IfOk result (λ d. IsSpelledDecl version d × (words.now ≡ words_of_decl d)) }
    ensures fault { IfErr result (λ e. IsFaultOf e (declaration_fault version words.now)) }
    ensures decl_always { (d : DeclData) → IsSpelledDecl version d → words.now ≡ words_of_decl d → GivesDecl result d }
    ensures faultless_always { declaration_fault version words.now ≡ None → TellsNoFault result }
    ensures fault_always { (what : ℕ) → declaration_fault version words.now ≡ Some what → TellsFault result what }
{
    read_line(alloc, version, words)
}
