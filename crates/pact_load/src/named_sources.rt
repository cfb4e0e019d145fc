//! Sources by their names.

ghost use Rattle.std.specs.Prelude.{◌≡◌, ◌≤◌, ◌^◌, ◌&&◌, bytes_eq, length, IfNone, IfSome};
ghost use Rattle.pact_operators.specs.PlanOps.{is_source_kind};
ghost use Rattle.pact_load.specs.Answers.{Decides};
ghost use Rattle.pact_load.specs.Loading as work;
ghost use Rattle.pact_load.specs.NamedSources.{IsSourceNamed, LacksSource};

use crate::loaded::is_source;
use crate::refusal_lines::unnamed_source;
use crate::refusals::Refusal;
use pact_operators::{Op, Program};
use std::alloc::Global;

fn is_named(op: &Op, name: &[u8]) -> bool
    ensures { result ≡ (is_source_kind op.now.kind && bytes_eq name.now op.now.name) }
{
    is_source(op.kind) && name == op.name.bytes()
}

// The number of the source of that name.
fn number_of(ops: &[Op], name: &[u8]) -> Option<usize>
    ensures some { IfSome result (IsSourceNamed ops.now name.now) }
    ensures none { IfNone result (LacksSource ops.now name.now) }
{
    for at in 0..ops.len() {
        if is_named(&ops[at], name) {
            return Some(at);
        }
    }
    None
}

/// The number of the source of that name among all operators, or a refusal if no source has that name.
pub fn source_named(alloc: Global, program: &Program, name: &[u8]) -> Result<usize, Refusal>
    ensures { Decides (work.source_named program.now name.now) result }
{
    match number_of(program.ops(), name) {
        Some(at) => Ok(at),
        None => Err(unnamed_source(alloc, name)),
    }
}
