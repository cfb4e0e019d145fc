//! From a program's text to the program.

ghost use Rattle.std.specs.Prelude.{◌≡◌, ◌≤◌, ◌++◌, ◌∷◌, [], OnOk};
ghost use Rattle.pact_record.specs.declared.records.TheConstants.{MAX_FIELDS};
ghost use Rattle.pact_operators.specs.Programs.{AreValidated};
ghost use Rattle.pact_load.specs.Answers.{Decides, ProgramRefused, TextRefused};
ghost use Rattle.pact_load.specs.Loading as work;

use crate::refusal_lines::{bad_function, bad_program, bad_text};
use crate::refusals::Refusal;
use pact_operators::{Draft, Program, ValidList, functions_of};
use pact_record::OutOfMemory;
use program_check::{NotProgram, check_program};
use program_text::read_program;
use std::alloc::Global;
use tac_syntax::{Function, Valid};
use tac_validate::validate;
use text_lines::TextFault;

/// The refusal of a faulty text, which it names `name`.
pub fn text_refused(alloc: Global, name: &[u8], fault: TextFault) -> Refusal
    ensures { TextRefused name.now fault result }
{
    match fault {
        TextFault::At { line, what } => bad_text(alloc, name, line, what),
        TextFault::Memory => Refusal::OutOfMemory,
    }
}

fn read_draft(alloc: Global, name: &[u8], text: &[u8]) -> Result<Draft, Refusal>
    ensures { Decides (work.draft name.now text.now) result }
{
    match read_program(alloc, text) {
        Ok(draft) => Ok(draft),
        Err(fault) => Err(text_refused(alloc, name, fault)),
    }
}

// ---- functions

fn valid_function(alloc: Global, function: &Function, fields: u32) -> Result<Valid, Refusal>
    requires some_field { 1 ≤ fields }
    requires few_fields { fields ≤ MAX_FIELDS }
    ensures { Decides (work.valid fields function.now) result }
{
    match validate(function.copy(alloc)?, fields) {
        Ok(valid) => Ok(valid),
        Err(refused) => Err(bad_function(alloc, function.name.bytes(), refused.code, refused.at)),
    }
}

fn push_valid(valids: &mut ValidList, valid: Valid) -> Result<(), OutOfMemory>
    ensures { OnOk result (valids.new ≡ valids.old ++ valid ∷ []) }
{
    valids.push(valid)?;
    Ok(())
}

// The functions in text order, up to the first that isn't valid.
fn valid_functions(alloc: Global, draft: &Draft) -> Result<ValidList, Refusal>
    ensures { Decides (work.valids draft.now) result }
{
    let _declared = draft.decls();
    let fields = draft.fields();
    let mut valids = ValidList::new(alloc);
    for function in functions_of(draft) {
        let valid = valid_function(alloc, function, fields)?;
        push_valid(&mut valids, valid)?;
    }
    Ok(valids)
}

// ---- programs

fn program_refused(alloc: Global, not: NotProgram) -> Refusal
    ensures { ProgramRefused not result }
{
    match not {
        NotProgram::Bad { code, name } => bad_program(alloc, name.bytes(), code),
        NotProgram::Memory => Refusal::OutOfMemory,
    }
}

fn checked(alloc: Global, draft: &Draft, valids: ValidList) -> Result<Program, Refusal>
    requires { AreValidated draft.now valids }
    ensures { Decides (work.program draft.now valids) result }
{
    match check_program(alloc, draft, valids) {
        Ok(program) => Ok(program),
        Err(not) => Err(program_refused(alloc, not)),
    }
}

/// The program that a text spells. A refusal of a faulty text names `name`.
pub fn program_of(alloc: Global, name: &[u8], text: &[u8]) -> Result<Program, Refusal>
    ensures { Decides (work.program_of name.now text.now) result }
{
    let draft = read_draft(alloc, name, text)?;
    let valids = valid_functions(alloc, &draft)?;
    checked(alloc, &draft, valids)
}
