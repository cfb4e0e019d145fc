//! Programs, read from their text.

ghost use Rattle.std.specs.Prelude.{◌≡◌, ◌<◌, ◌∷◌, [], true, false, length, IfErr, IfOk};
ghost use Rattle.tac_syntax.specs.Drafts.{DraftData};
ghost use Rattle.tac_syntax.specs.FieldRegisters.{Takes, has_registers};
ghost use Rattle.tac_syntax.specs.Versions.{IsVersion};
ghost use Rattle.text_lines.specs.LineReading.{IsFaultOf};
ghost use Rattle.program_text.specs.ProgramStates.{EndsWith, FitsVersion, GivesDraft, LeadsOn, TellsFirstFault, begins_function, state_of, drafted, nothing_read, open_function, program_place, RunsTo, version_read, with_function};
ghost use Rattle.program_text.specs.ProgramTexts.{ProgramText, program_fault};
ghost use Rattle.text_lines.specs.declared.faults.NotRead.TheVariants.{Memory};
ghost use Rattle.tac_text.specs.FunctionStates.{function_of};
ghost use Rattle.tac_text.specs.Places.{FitsBuild};
ghost use Rattle.text_lines.specs.FirstFaults.{IsLineFault};
ghost use Rattle.text_lines.specs.TextLines.{lines_of};
ghost use Rattle.text_lines.specs.CanonicalLines.{AreLineWords};

use crate::declaration_reading::read_declaration;
use crate::first_lines::{read_field_count, read_version};
use pact_record::OutOfMemory;
use std::alloc::Global;
use tac_syntax::Draft;
use tac_text::{OpenFunction, read_header};
use text_lines::{LineWord, NotRead, TextFault, first_line, is_word, read_words, trim_line};

// How much of a program was read.
#[derive(Drop)]
enum State {
    NothingRead,
    VersionRead(u32),
    Drafted(Draft),
    // in the text of a function
    Open(Draft, OpenFunction),
}

// ---- one line's words

fn second_words(alloc: Global, version: u32, words: &[LineWord]) -> Result<State, NotRead>
    requires version { IsVersion version }
    requires some { 0 < length words.now }
    ensures leads { IfOk result (λ t. LeadsOn (version_read version) words.now (state_of t)) }
    ensures fault { IfErr result (λ e. IsFaultOf e (program_fault (program_place (version_read version)) words.now)) }
{
    match read_field_count(version, words) {
        Ok(fields) => Ok(State::Drafted(Draft::new(alloc, version, fields))),
        Err(what) => Err(NotRead::Fault { what }),
    }
}

fn begins_function(words: &[LineWord]) -> bool
    ensures { result ≡ begins_function words.now }
{
    match words.first() {
        Some(LineWord::Plain(bytes)) => is_word(bytes.bytes(), b"function"),
        _ => false,
    }
}

fn open_words(alloc: Global, draft: Draft, words: &[LineWord]) -> Result<State, NotRead>
    requires some { 0 < length words.now }
    requires begins { begins_function words.now ≡ true }
    ensures leads { IfOk result (λ t. LeadsOn (drafted draft) words.now (state_of t)) }
    ensures fault { IfErr result (λ e. IsFaultOf e (program_fault (program_place (drafted draft)) words.now)) }
{
    let function = read_header(alloc, words)?;
    Ok(State::Open(draft, function))
}

fn decl_words(alloc: Global, mut draft: Draft, words: &[LineWord]) -> Result<State, NotRead>
    requires some { 0 < length words.now }
    requires other { begins_function words.now ≡ false }
    ensures leads { IfOk result (λ t. LeadsOn (drafted draft) words.now (state_of t)) }
    ensures fault { IfErr result (λ e. IsFaultOf e (program_fault (program_place (drafted draft)) words.now)) }
{
    let decl = read_declaration(alloc, draft.version(), words)?;
    match draft.push(decl) {
        Ok(()) => Ok(State::Drafted(draft)),
        Err(_) => Err(NotRead::Memory),
    }
}

// Whether registers may name fields in the draft's functions.
fn has_registers(draft: &Draft) -> bool
    ensures { result ≡ has_registers draft.now.version }
{
    draft.version() == 2
}

fn inside_words(
    alloc: Global,
    draft: Draft,
    mut function: OpenFunction,
    words: &[LineWord],
) -> Result<State, NotRead>
    requires version { FitsBuild (has_registers draft.version) function.build }
    requires some { 0 < length words.now }
    requires words { AreLineWords words.now }
    ensures leads { IfOk result (λ t. LeadsOn (open_function draft function) words.now (state_of t)) }
    ensures fault { IfErr result (λ e. IsFaultOf e (program_fault (program_place (open_function draft function)) words.now)) }
{
    let ended = function.read_line(alloc, has_registers(&draft), words)?;
    if ended {
        with_function(draft, function)
    } else {
        Ok(State::Open(draft, function))
    }
}

// The draft with a function whose text has ended.
fn with_function(mut draft: Draft, function: OpenFunction) -> Result<State, NotRead>
    requires ended { function.build.blocks ≡ [] }
    requires registers { Takes (has_registers draft.version) function.build.body }
    ensures function { IfOk result (λ t. state_of t ≡ drafted (with_function draft (function_of function))) }
    ensures memory { IfErr result (λ e. e ≡ Memory) }
{
    match draft.push_function(function.finish()) {
        Ok(()) => Ok(State::Drafted(draft)),
        Err(_) => Err(NotRead::Memory),
    }
}

fn next(alloc: Global, state: State, words: &[LineWord]) -> Result<State, NotRead>
    requires version { FitsVersion (state_of state) }
    requires some { 0 < length words.now }
    requires words { AreLineWords words.now }
    ensures leads { IfOk result (λ t. LeadsOn (state_of state) words.now (state_of t)) }
    ensures fault { IfErr result (λ e. IsFaultOf e (program_fault (program_place (state_of state)) words.now)) }
{
    match state {
        State::NothingRead => match read_version(words) {
            Ok(version) => Ok(State::VersionRead(version)),
            Err(what) => Err(NotRead::Fault { what }),
        },
        State::VersionRead(version) => second_words(alloc, version, words),
        State::Drafted(draft) => {
            if begins_function(words) {
                open_words(alloc, draft, words)
            } else {
                decl_words(alloc, draft, words)
            }
        }
        State::Open(draft, function) => inside_words(alloc, draft, function, words),
    }
}

// ---- lines

fn read_line(alloc: Global, state: State, line: &[u8]) -> Result<State, NotRead>
    requires { FitsVersion (state_of state) }
    ensures leads { IfOk result (λ t. RunsTo (state_of state) (line.now ∷ []) (state_of t)) }
    ensures fault { IfErr result (λ e. IsLineFault (program_fault (program_place (state_of state))) e line.now) }
{
    let words = read_words(alloc, trim_line(line))?;
    if words.words().is_empty() {
        return Ok(state);
    }
    next(alloc, state, words.words())
}

// The result after all lines, of which there were `lines`.
fn ended(state: State, lines: u64) -> Result<Draft, TextFault>
    ensures { EndsWith (state_of state) lines result }
{
    let line = lines.max(1);
    match state {
        State::Drafted(draft) => Ok(draft),
        State::NothingRead | State::VersionRead(_) => Err(TextFault::At { line, what: 12 }),
        State::Open(..) => Err(TextFault::At { line, what: 10 }),
    }
}

/// The draft that a program's text spells, or the first fault of the text: the number of its first faulty line, from 1,
/// and what is wrong with it. If the text ends too early, the line is its last one, or 1 if it has none.
pub fn read_program(alloc: Global, text: &[u8]) -> Result<Draft, TextFault>
    ensures draft { IfOk result (λ d. ProgramText d (lines_of text.now)) }
    ensures draft_always { (d : DraftData) → ProgramText d (lines_of text.now) → GivesDraft result d }
    ensures fault { IfErr result (λ e. TellsFirstFault e (lines_of text.now)) }
{
    let mut rest = text;
    let mut lines: u64 = 0;
    let mut state = State::NothingRead;
    while rest.len() > 0 {
        let (line, behind) = first_line(rest);
        lines += 1;
        state = match read_line(alloc, state, line) {
            Ok(next) => next,
            Err(not) => return Err(not.at_line(lines)),
        };
        rest = behind;
    }
    ended(state, lines)
}
