//! The canonical lines of declarations, and programs, written as text.

ghost use Rattle.std.specs.Prelude.{◌≡◌, ◌++◌, ◌∷◌, [], IfOk, ℕ, codes, map, ◌≤◌};
ghost use Rattle.tac_syntax.specs.Declarations.{IsSpelledDecl};
ghost use Rattle.text_lines.specs.CanonicalLines.{canonical_line, word_text, line_spelling};
ghost use Rattle.text_lines.specs.declared.line_words.LineWord.TheVariants.{Plain as plain_word};
ghost use Rattle.program_text.specs.DeclarationWords.{column_word, key_pair_words, number_words, words_of_decl, behind_left};
ghost use Rattle.std.specs.List.{AllByRecursion};
ghost use Rattle.program_text.specs.ProgramTexts.{ProgramText, decl_spelling, program_spelling, CanWrite};
ghost use Rattle.program_text.specs.FirstLines.{field_count_words, version_words};
ghost use Rattle.tac_syntax.specs.Code.{nesting};
ghost use Rattle.tac_syntax.specs.Limits.{nesting_limit};
ghost use Rattle.text_lines.specs.TextLines.{lines_of};

use pact_record::{Bytes, Columns, OutOfMemory, Word};
use std::alloc::Global;
use tac_syntax::{Decl, Draft, Function, Numbers, OpKind, functions_of};
use tac_text::{Words, put_line, write_function};

fn and_numbers(alloc: Global, mut words: Words, numbers: &Numbers) -> Result<Words, OutOfMemory>
    ensures { IfOk result (λ all. all ≡ words ++ map word_text (number_words numbers.now)) }
{
    for number in numbers.numbers() {
        words = words.and_number(alloc, b"", *number)?;
    }
    Ok(words)
}

fn and_columns(alloc: Global, mut words: Words, columns: &Columns) -> Result<Words, OutOfMemory>
    ensures { IfOk result (λ all. all ≡ words ++ map word_text (map column_word columns.now)) }
{
    for column in columns.columns() {
        let front: &[u8] = if column.text { b"text:" } else { b"int:" };
        words = words.and_number(alloc, front, column.field)?;
    }
    Ok(words)
}

fn and_key_pair(
    alloc: Global,
    words: Words,
    left_keys: &Numbers,
    right_keys: &Numbers,
) -> Result<Words, OutOfMemory>
    ensures { IfOk result (λ all. all ≡ words ++ map word_text (plain_word (codes "by") ∷ key_pair_words left_keys.now right_keys.now)) }
{
    let words = and_numbers(alloc, words.and_word(alloc, b"by")?, left_keys)?;
    let words = words.and_word(alloc, b"=")?;
    and_numbers(alloc, words, right_keys)
}

// The words after an operator's first input.
fn and_others(
    alloc: Global,
    words: Words,
    kind: OpKind,
    right: &Word,
    left_keys: &Numbers,
    right_keys: &Numbers,
) -> Result<Words, OutOfMemory>
    ensures { IfOk result (λ all. all ≡ words ++ map word_text (behind_left kind right.now left_keys.now right_keys.now)) }
{
    match kind {
        OpKind::Source | OpKind::Map => Ok(words),
        OpKind::Reduce => and_numbers(alloc, words.and_word(alloc, b"by")?, left_keys),
        OpKind::Cross => words.and_word(alloc, right.bytes()),
        OpKind::Match | OpKind::CoGroup => {
            let words = words.and_word(alloc, right.bytes())?;
            and_key_pair(alloc, words, left_keys, right_keys)
        }
    }
}

fn decl_words(alloc: Global, decl: &Decl) -> Result<Words, OutOfMemory>
    requires { (version : ℕ) × IsSpelledDecl version decl.now }
    ensures { IfOk result (λ words. words ≡ map word_text (words_of_decl decl.now)) }
{
    match decl {
        Decl::Source {
            name,
            file,
            columns,
        } => {
            let words = Words::new(alloc)
                .and_word(alloc, b"source")?
                .and_word(alloc, name.bytes())?
                .and_word(alloc, file.bytes())?;
            and_columns(alloc, words, columns)
        }
        Decl::Function { .. } => unreachable!(),
        Decl::Op {
            name,
            kind,
            function,
            left,
            right,
            left_keys,
            right_keys,
        } => {
            let words = Words::new(alloc)
                .and_word(alloc, kind.word())?
                .and_word(alloc, name.bytes())?
                .and_word(alloc, function.bytes())?
                .and_word(alloc, left.bytes())?;
            and_others(alloc, words, *kind, right, left_keys, right_keys)
        }
        Decl::Sink { input, fields } => {
            let words = Words::new(alloc)
                .and_word(alloc, b"sink")?
                .and_word(alloc, input.bytes())?;
            and_numbers(alloc, words, fields)
        }
    }
}

/// The one canonical line of a declaration, with its line feed.
pub fn write_declaration(alloc: Global, decl: &Decl) -> Result<Bytes, OutOfMemory>
    requires { (version : ℕ) × IsSpelledDecl version decl.now }
    ensures { IfOk result (λ text. text ≡ canonical_line 0 (words_of_decl decl.now) ++ 10 ∷ []) }
{
    let mut text = Bytes::new(alloc);
    put_line(&mut text, 0, &decl_words(alloc, decl)?)?;
    Ok(text)
}

// The version, and the number of fields.
fn first_lines(alloc: Global, version: u32, fields: u32) -> Result<Bytes, OutOfMemory>
    ensures { IfOk result (λ text. text ≡ line_spelling 0 (version_words version) ++ line_spelling 0 (field_count_words fields)) }
{
    let mut text = Bytes::from_slice(alloc, b"pact ")?;
    let number = version.to_string(alloc)?;
    text.extend_from_slice(number.as_bytes())?;
    text.extend_from_slice(b"\nfields ")?;
    let digits = fields.to_string(alloc)?;
    text.extend_from_slice(digits.as_bytes())?;
    text.extend_from_slice(b"\n")?;
    Ok(text)
}

fn write_decl(alloc: Global, functions: &[Function], decl: &Decl) -> Result<Bytes, OutOfMemory>
    requires { (version : ℕ) × CanWrite version functions.now decl.now }
    ensures { IfOk result (λ text. text ≡ decl_spelling functions.now decl.now) }
{
    match decl {
        Decl::Function { number } => write_function(alloc, &functions[*number]),
        Decl::Source { .. } | Decl::Op { .. } | Decl::Sink { .. } => write_declaration(alloc, decl),
    }
}

// No function is nested too deeply, which its body guarantees. The call only makes this known.
fn tell_nesting(functions: &[Function])
    ensures { AllByRecursion (λ f. nesting f.body ≤ nesting_limit) functions.now }
{
    for function in functions {
        let _nesting = function.body.depth();
    }
}

/// The text of a program, in its canonical spelling.
pub fn write_program(alloc: Global, draft: &Draft) -> Result<Bytes, OutOfMemory>
    ensures spelled { IfOk result (λ text. text ≡ program_spelling draft.now) }
    ensures read_again { IfOk result (λ text. ProgramText draft.now (lines_of text)) }
{
    let mut out = first_lines(alloc, draft.version(), draft.fields())?;
    let functions = functions_of(draft);
    tell_nesting(functions);
    for decl in draft.decls() {
        out.extend_from_slice(write_decl(alloc, functions, decl)?.bytes())?;
    }
    Ok(out)
}
