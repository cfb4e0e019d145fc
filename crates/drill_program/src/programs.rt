//! The program of a drill, made from its text.

ghost use Rattle.std.specs.Prelude.{◌≡◌, Err, IfOk, map};
ghost use Rattle.std.specs.List.{AllByRecursion};
ghost use Rattle.tac_syntax.specs.Valid.{IsValid};
ghost use Rattle.program_check.specs.declared.checking.NotProgram.TheVariants.{Memory};
ghost use Rattle.program_text.specs.ProgramStates.{GivesDraft};
ghost use Rattle.drill_program.specs.Drill.{drill_draft, with_fields};
ghost use Rattle.drill_program.specs.Drill as specs;

use pact_operators::{Draft, Program, ValidList, functions_of};
use pact_record::OutOfMemory;
use program_check::{NotProgram, check_program};
use program_text::read_program;
use std::alloc::Global;
use tac_syntax::{Function, Valid};
use text_lines::TextFault;

const TEXT: &[u8] = b"pact 1
fields 4
source g drill.csv int:0 int:1 text:2
function total reduce 1
  v0 = int 0
  each x1 of group
    v1 = get x1 1
    v0 = addw v0 v1
  end
  r0 = new
  v2 = key 0
  set r0 0 v2
  set r0 3 v0
  emit r0
end
function low map
  v0 = get in 0
  v1 = int 500
  v2 = lt v0 v1
  if v2
    r0 = copy in
    emit r0
  end
end
reduce r total g by 0
map m low r
sink m 0 3
";

// The only error is out of memory, since the text has no fault.
fn not_read(fault: TextFault) -> OutOfMemory
    requires { GivesDraft (Err fault) drill_draft }
{
    match fault {
        TextFault::Memory => OutOfMemory,
        TextFault::At { .. } => unreachable!(),
    }
}

fn read_draft(alloc: Global) -> Result<Draft, OutOfMemory>
    ensures { IfOk result (λ draft. draft ≡ drill_draft) }
{
    match read_program(alloc, TEXT) {
        Ok(draft) => Ok(draft),
        Err(fault) => Err(not_read(fault)),
    }
}

// Copies of functions that are known to be valid.
fn seal_all(alloc: Global, functions: &[Function], fields: u32) -> Result<ValidList, OutOfMemory>
    requires { AllByRecursion (λ f. IsValid f fields) functions.now }
    ensures { IfOk result (λ valids. valids ≡ map (with_fields fields) functions.now) }
{
    let mut valids = ValidList::new(alloc);
    for function in functions {
        valids.push(Valid::seal(function.copy(alloc)?, fields))?;
    }
    Ok(valids)
}

// The only error is out of memory, since no rule is broken.
fn not_made(not: NotProgram) -> OutOfMemory
    requires { not ≡ Memory }
{
    match not {
        NotProgram::Memory => OutOfMemory,
        NotProgram::Bad { .. } => unreachable!(),
    }
}

/// The program of a drill. Out of memory is the only error.
pub fn drill_program(alloc: Global) -> Result<Program, OutOfMemory>
    ensures { IfOk result (λ program. program ≡ specs.drill_program) }
{
    let draft = read_draft(alloc)?;
    let functions = seal_all(alloc, functions_of(&draft), draft.fields())?;
    match check_program(alloc, &draft, functions) {
        Ok(program) => Ok(program),
        Err(not) => Err(not_made(not)),
    }
}
