//! What takes long over many rows.

use emit_bounds::bounds;
use function_hints::{Hint, HintList, inner_loop, number_of};
use pact_operators::{Op, OpKind, Parts, Plan, Program};
use pact_record::OutOfMemory;
use std::alloc::Global;
use tac_syntax::LoopList;

/// An input with this number of rows is a large one.
pub const LARGE_ROWS: u64 = 10_000;

/// A Cross that makes this number of pairs is a large one.
pub const LARGE_PAIRS: u64 = 10_000_000;

/// How many records there are, at least and at most.
#[derive(Clone, Copy)]
struct Count {
    least: u64,
    most: u64,
}

/// What may take long, given how many rows each source has, in text order. Only inputs count that are sources, or Maps
/// over them that emit at most one record a call.
pub fn size_hints(alloc: Global, program: &Program, rows: &[u64]) -> Result<HintList, OutOfMemory> {
    let mut list = HintList::new(alloc);
    let plan = program.plan();
    for at in 0..program.ops().len() {
        let number = number_of(at);
        if plan.has(number) {
            note_operator(&mut list, program, rows, number, &plan.subtree(number))?;
        }
    }
    Ok(list)
}

fn note_operator(
    list: &mut HintList,
    program: &Program,
    rows: &[u64],
    op: u32,
    tree: &Plan,
) -> Result<(), OutOfMemory> {
    match tree.parts() {
        Parts::Alone { .. } => Ok(()),
        Parts::OverOne { input, .. } => {
            note_loops(
                list,
                program,
                op,
                LoopList::Group,
                count_of(program, rows, &input),
            )
        }
        Parts::OverTwo { left, right, .. } => note_pair(
            list,
            program,
            op,
            count_of(program, rows, &left),
            count_of(program, rows, &right),
        ),
    }
}

fn note_pair(
    list: &mut HintList,
    program: &Program,
    op: u32,
    left: Option<Count>,
    right: Option<Count>,
) -> Result<(), OutOfMemory> {
    match kind_of(program, op) {
        Some(OpKind::Match) => note_match(list, op, left, right),
        Some(OpKind::Cross) => note_cross(list, op, left, right),
        _ => {
            note_loops(list, program, op, LoopList::Left, left)?;
            note_loops(list, program, op, LoopList::Right, right)
        }
    }
}

fn kind_of(program: &Program, op: u32) -> Option<OpKind> {
    let found = program.ops().get(op as usize)?;
    Some(found.kind)
}

fn note_match(
    list: &mut HintList,
    op: u32,
    left: Option<Count>,
    right: Option<Count>,
) -> Result<(), OutOfMemory> {
    if let (Some(one), Some(two)) = (left, right) {
        if one.least >= LARGE_ROWS && one.least > two.most {
            list.push(Hint::LargerLeft { op })?;
        }
    }
    Ok(())
}

fn note_cross(
    list: &mut HintList,
    op: u32,
    left: Option<Count>,
    right: Option<Count>,
) -> Result<(), OutOfMemory> {
    if let (Some(one), Some(two)) = (left, right) {
        if one.least.saturating_mul(two.least) >= LARGE_PAIRS {
            list.push(Hint::LargeCross { op })?;
        }
    }
    Ok(())
}

// A loop over an input's group inside another one over it, if the input is large. A loop over the other input's group
// isn't one: it makes pairs. Each function is reported once.
fn note_loops(
    list: &mut HintList,
    program: &Program,
    op: u32,
    group: LoopList,
    input: Option<Count>,
) -> Result<(), OutOfMemory> {
    let Some(hint) = loop_hint(program, op, group, input) else {
        return Ok(());
    };
    if !list.items().contains(&hint) {
        list.push(hint)?;
    }
    Ok(())
}

fn loop_hint(program: &Program, op: u32, group: LoopList, input: Option<Count>) -> Option<Hint> {
    if input?.least < LARGE_ROWS {
        return None;
    }
    let function = program.ops().get(op as usize)?.function;
    let called = program.functions().get(function as usize)?;
    let statement = inner_loop(&called.function().body, 0, group, false)?;
    Some(Hint::SquareLoop {
        function,
        statement,
    })
}

// How many records the plan's root gives, if that is known.
fn count_of(program: &Program, rows: &[u64], plan: &Plan) -> Option<Count> {
    match plan.parts() {
        Parts::Alone { at } => {
            let count = *rows.get(sources_before(program.ops(), at))?;
            Some(Count {
                least: count,
                most: count,
            })
        }
        Parts::OverOne { at, input } => { mapped(program, at, count_of(program, rows, &input)?) }
        Parts::OverTwo { .. } => None,
    }
}

// How many of the sources come before the operator of that number.
fn sources_before(ops: &[Op], at: u32) -> usize {
    let mut count = 0usize;
    for n in 0..ops.len() {
        if n >= at as usize {
            return count;
        }
        if ops[n].kind == OpKind::Source {
            count = count.saturating_add(1);
        }
    }
    count
}

// How many records a Map gives that emits at most one a call.
fn mapped(program: &Program, at: u32, input: Count) -> Option<Count> {
    let op = program.ops().get(at as usize)?;
    if op.kind != OpKind::Map {
        return None;
    }
    let (least, most) = bounds(program.functions().get(op.function as usize)?);
    if most > 1 {
        return None;
    }
    Some(Count {
        least: if least == 1 { input.least } else { 0 },
        most: if most == 1 { input.most } else { 0 },
    })
}
