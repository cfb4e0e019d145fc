//! Operators by their names, and plans on one line.

ghost use Rattle.std.specs.Prelude.{◌≡◌, ◌≤◌, ◌++◌, ℕ, ◌↔◌, IfNone, IfSome, IfOk, IsTrue, OnOk, length};
ghost use Rattle.tac_syntax.specs.declared.declarations.OpKind.TheVariants.{Source};
ghost use Rattle.plan_trees.specs.Plans.{node_limit};
ghost use Rattle.swap_certificate.specs.PlanLines.{IsNamed, line_of, name_at};

use pact_operators::{Op, OpKind, Parts, Plan};
use pact_record::{Bytes, OutOfMemory};
use std::alloc::Global;

// Whether this is an operator with the name. A source isn't one.
fn has_name(op: &Op, name: &[u8]) -> bool
    ensures { IsTrue result ↔ ((op.now.kind ≡ Source → ⊥) × (op.now.name ≡ name.now)) }
{
    op.kind != OpKind::Source && op.name.bytes() == name
}

/// The number of the first operator with the name. A source doesn't count.
pub fn operator_named(ops: &[Op], name: &[u8]) -> Option<u32>
    requires few { length ops.now ≤ node_limit }
    ensures some { IfSome result (IsNamed ops.now name.now) }
    ensures none { IfNone result ((n : ℕ) → IsNamed ops.now name.now n → ⊥) }
{
    for at in 0..ops.len() {
        if has_name(&ops[at], name) {
            return Some(at as u32);
        }
    }
    None
}

fn push_name(ops: &[Op], at: u32, line: &mut Bytes) -> Result<(), OutOfMemory>
    ensures { OnOk result (line.new ≡ line.old ++ name_at ops.now at) }
{
    match ops.get(at as usize) {
        Some(op) => line.extend_from_slice(op.name.bytes()),
        None => Ok(()),
    }
}

// Appends the line of a plan.
fn push_line(ops: &[Op], plan: &Plan, line: &mut Bytes) -> Result<(), OutOfMemory>
    ensures { OnOk result (line.new ≡ line.old ++ line_of ops.now plan.now) }
{
    match plan.parts() {
        Parts::Alone { at } => push_name(ops, at, line),
        Parts::OverOne { at, input } => {
            push_name(ops, at, line)?;
            line.extend_from_slice(b"(")?;
            push_line(ops, &input, line)?;
            line.extend_from_slice(b")")
        }
        Parts::OverTwo { at, left, right } => {
            push_name(ops, at, line)?;
            line.extend_from_slice(b"(")?;
            push_line(ops, &left, line)?;
            line.extend_from_slice(b",")?;
            push_line(ops, &right, line)?;
            line.extend_from_slice(b")")
        }
    }
}

/// A plan on one line.
pub fn plan_line(alloc: Global, ops: &[Op], plan: &Plan) -> Result<Bytes, OutOfMemory>
    ensures { IfOk result (λ line. line ≡ line_of ops.now plan.now) }
{
    let mut line = Bytes::new(alloc);
    push_line(ops, plan, &mut line)?;
    Ok(line)
}
