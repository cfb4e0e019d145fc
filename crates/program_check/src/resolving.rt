//! Sources, operators and sinks with their names resolved.

ghost use Rattle.std.specs.Prelude.{◌≡◌, ◌≤◌, ◌++◌, ◌∷◌, [], length, map, IfOk};
ghost use Rattle.std.specs.List.{AllByRecursion};
ghost use Rattle.pact_record.specs.Keys.{key_limit};
ghost use Rattle.pact_operators.specs.Programs.{function_limit};
ghost use Rattle.pact_operators.specs.Resolved.{ops_of, sink_fields};
ghost use Rattle.tac_syntax.specs.declared.declarations.OpKind.TheVariants.{Source as SourceKind};
ghost use Rattle.program_check.specs.WrittenOps.{HasFewKeys, small_keys, with_small_keys};

use crate::name_lists::place_among;
use pact_operators::{Op, copied_columns};
use pact_record::{Columns, Keys, MAX_FIELDS, OutOfMemory, Word};
use std::alloc::Global;
use tac_syntax::{Decl, OpKind};

// The numbers that can be fields.
fn small_keys(numbers: &[u32]) -> Keys
    requires { length numbers.now ≤ key_limit }
    ensures { result ≡ small_keys numbers.now }
{
    let mut keys = Keys::new();
    for number in numbers {
        if *number < MAX_FIELDS {
            keys.push(*number);
        }
    }
    keys
}

fn source(alloc: Global, name: &Word, file: &Word, columns: &Columns) -> Result<Op, OutOfMemory>
    ensures { IfOk result (λ op. op ≡ record { name = name.now; kind = SourceKind; function = 0; left_keys = []; right_keys = []; file = file.now; columns = columns.now }) }
{
    Ok(Op {
        name: Word::from_bytes(alloc, name.bytes())?,
        kind: OpKind::Source,
        function: 0,
        left_keys: Keys::new(),
        right_keys: Keys::new(),
        file: Word::from_bytes(alloc, file.bytes())?,
        columns: copied_columns(alloc, columns)?,
    })
}

fn operator(
    alloc: Global,
    name: &Word,
    kind: OpKind,
    function: u32,
    left_keys: Keys,
    right_keys: Keys,
) -> Result<Op, OutOfMemory>
    ensures { IfOk result (λ op. op ≡ record { name = name.now; kind = kind; function = function; left_keys = left_keys; right_keys = right_keys; file = []; columns = [] }) }
{
    Ok(Op {
        name: Word::from_bytes(alloc, name.bytes())?,
        kind,
        function,
        left_keys,
        right_keys,
        file: Word::from_bytes(alloc, b"")?,
        columns: Columns::new(alloc),
    })
}

fn with_op(
    alloc: Global,
    ops: Vec<Op>,
    functions: &[Word],
    decl: &Decl,
) -> Result<Vec<Op>, OutOfMemory>
    requires functions { length functions.now ≤ function_limit }
    requires keys { HasFewKeys decl.now }
    ensures { IfOk result (λ more. more.items ≡ ops.items ++ map with_small_keys (ops_of functions.now (decl.now ∷ []))) }
{
    let mut more = ops;
    match decl {
        Decl::Source {
            name,
            file,
            columns,
        } => more.push(source(alloc, name, file, columns)?)?,
        Decl::Op {
            name,
            kind,
            function,
            left_keys,
            right_keys,
            ..
        } => {
            let number = place_among(function.bytes(), functions) as u32;
            let left = small_keys(left_keys.numbers());
            let right = small_keys(right_keys.numbers());
            more.push(operator(alloc, name, *kind, number, left, right)?)?;
        }
        _ => {}
    }
    Ok(more)
}

/// The sources and operators, without the keys that are too large to be fields.
pub fn small_ops(alloc: Global, functions: &[Word], decls: &[Decl]) -> Result<Vec<Op>, OutOfMemory>
    requires functions { length functions.now ≤ function_limit }
    requires keys { AllByRecursion HasFewKeys decls.now }
    ensures { IfOk result (λ ops. ops.items ≡ map with_small_keys (ops_of functions.now decls.now)) }
{
    let mut ops = Vec::new(alloc);
    for decl in decls {
        ops = with_op(alloc, ops, functions, decl)?;
    }
    Ok(ops)
}

/// The fields of the first sink.
pub fn sink_fields(alloc: Global, decls: &[Decl]) -> Result<Vec<u32>, OutOfMemory>
    ensures { IfOk result (λ fields. fields.items ≡ sink_fields decls.now) }
{
    for decl in decls {
        if let Decl::Sink { fields, .. } = decl {
            return Vec::from_slice(alloc, fields.numbers());
        }
    }
    Ok(Vec::new(alloc))
}
