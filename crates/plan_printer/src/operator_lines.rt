//! The findings of the analysis for all operators of a program, as text.

ghost use Rattle.std.specs.Prelude.{◌≡◌, ◌++◌, IfOk, OnOk, Some, codes, slice_get};
ghost use Rattle.tac_syntax.specs.declared.declarations.OpKind.TheVariants.{Source};
ghost use Rattle.plan_printer.specs.SetsText.{IsLineOf, IsOperatorLine, IsSetsText, line_text, yes_or_no};

use crate::findings::found_text;
use order_free::order_test;
use pact_operators::{Op, OpKind, Program};
use pact_record::{Bytes, OutOfMemory};
use reorder_pair::{Found, found_in_plan};
use std::alloc::Global;

fn push_spaced(text: &mut Bytes, part: &[u8]) -> Result<(), OutOfMemory>
    ensures { OnOk result (text.new ≡ text.old ++ (codes " " ++ part.now)) }
{
    text.extend_from_slice(b" ")?;
    text.extend_from_slice(part)
}

fn yes_or_no(answer: bool) -> &'static [u8]
    ensures { result.now ≡ yes_or_no answer }
{
    if answer { b"yes" } else { b"no" }
}

// The line of an operator with this name and kind.
fn spelled_line(
    alloc: Global,
    name: &[u8],
    kind: OpKind,
    found: &Found,
    passes: bool,
) -> Result<Bytes, OutOfMemory>
    ensures { IfOk result (λ line. line ≡ line_text name.now kind found.now passes) }
{
    let mut line = Bytes::from_slice(alloc, name)?;
    push_spaced(&mut line, kind.word())?;
    push_spaced(&mut line, found_text(alloc, found)?.bytes())?;
    line.extend_from_slice(b" order ")?;
    line.extend_from_slice(yes_or_no(passes))?;
    line.extend_from_slice(b"\n")?;
    Ok(line)
}

fn operator_line(alloc: Global, program: &Program, at: u32, op: &Op) -> Result<Bytes, OutOfMemory>
    requires op { slice_get program.now.ops at ≡ Some op.now }
    requires operator { op.now.kind ≡ Source → ⊥ }
    ensures { IfOk result (IsOperatorLine program.now at op.now) }
{
    let found = found_in_plan(program, program.plan(), at);
    let passes = order_test(&program.functions()[op.function as usize]);
    spelled_line(alloc, op.name.bytes(), op.kind, &found, passes)
}

// The line of an operator; for a source it is empty.
fn line_of(alloc: Global, program: &Program, at: u32, op: &Op) -> Result<Bytes, OutOfMemory>
    requires { slice_get program.now.ops at ≡ Some op.now }
    ensures { IfOk result (IsLineOf program.now at op.now.kind op.now) }
{
    match op.kind {
        OpKind::Source => Ok(Bytes::new(alloc)),
        _ => operator_line(alloc, program, at, op),
    }
}

/// A line for each operator in text order: its name, its kind, the findings for it in the plan as written, and whether
/// its function passes the order test. Out of memory is the only error.
pub fn sets_text(alloc: Global, program: &Program) -> Result<Bytes, OutOfMemory>
    ensures { IfOk result (IsSetsText program.now) }
{
    // this call shows the prover that the plan is small; each operator is in it, so its number is small too
    let _root = program.plan().root();
    let mut text = Bytes::new(alloc);
    for (n, op) in program.ops().iter().enumerate() {
        let line = line_of(alloc, program, n as u32, op)?;
        text.extend_from_slice(line.bytes())?;
    }
    Ok(text)
}
