//! What declarations name.

ghost use Rattle.std.specs.Prelude.{◌≡◌, ◌++◌, ◌∷◌, [], IfOk};
ghost use Rattle.program_check.specs.ProgramRules.{all_columns, all_inputs, column_fields};
ghost use Rattle.pact_operators.specs.Resolved.{function_names, inputs_named, names_read, node_names, sink_inputs};

use crate::name_lists::with_name;
use pact_record::{Column, OutOfMemory, Word};
use std::alloc::Global;
use tac_syntax::{Decl, Function, OpKind};

pub fn function_names(alloc: Global, functions: &[Function]) -> Result<Vec<Word>, OutOfMemory>
    ensures { IfOk result (λ names. names.items ≡ function_names functions.now) }
{
    let mut names = Vec::new(alloc);
    for function in functions {
        names = with_name(alloc, names, &function.name)?;
    }
    Ok(names)
}

fn with_node(alloc: Global, names: Vec<Word>, decl: &Decl) -> Result<Vec<Word>, OutOfMemory>
    ensures { IfOk result (λ more. more.items ≡ names.items ++ node_names (decl.now ∷ [])) }
{
    match decl {
        Decl::Source { name, .. } => with_name(alloc, names, name),
        Decl::Op { name, .. } => with_name(alloc, names, name),
        _ => Ok(names),
    }
}

/// The names of sources and operators.
pub fn node_names(alloc: Global, decls: &[Decl]) -> Result<Vec<Word>, OutOfMemory>
    ensures { IfOk result (λ names. names.items ≡ node_names decls.now) }
{
    let mut names = Vec::new(alloc);
    for decl in decls {
        names = with_node(alloc, names, decl)?;
    }
    Ok(names)
}

fn with_names_read(
    alloc: Global,
    names: Vec<Word>,
    kind: OpKind,
    left: &Word,
    right: &Word,
) -> Result<Vec<Word>, OutOfMemory>
    ensures { IfOk result (λ more. more.items ≡ names.items ++ names_read kind left.now right.now) }
{
    match kind {
        OpKind::Source => Ok(names),
        OpKind::Map | OpKind::Reduce => with_name(alloc, names, left),
        OpKind::Match | OpKind::Cross | OpKind::CoGroup => {
            let names = with_name(alloc, names, left)?;
            with_name(alloc, names, right)
        }
    }
}

fn with_inputs(alloc: Global, names: Vec<Word>, decl: &Decl) -> Result<Vec<Word>, OutOfMemory>
    ensures { IfOk result (λ more. more.items ≡ names.items ++ inputs_named decl.now) }
{
    match decl {
        Decl::Op {
            kind,
            left,
            right,
            ..
        } => with_names_read(alloc, names, *kind, left, right),
        Decl::Sink { input, .. } => with_name(alloc, names, input),
        _ => Ok(names),
    }
}

/// The names of inputs, of operators and of sinks.
pub fn all_inputs(alloc: Global, decls: &[Decl]) -> Result<Vec<Word>, OutOfMemory>
    ensures { IfOk result (λ names. names.items ≡ all_inputs decls.now) }
{
    let mut names = Vec::new(alloc);
    for decl in decls {
        names = with_inputs(alloc, names, decl)?;
    }
    Ok(names)
}

fn with_sink(alloc: Global, names: Vec<Word>, decl: &Decl) -> Result<Vec<Word>, OutOfMemory>
    ensures { IfOk result (λ more. more.items ≡ names.items ++ sink_inputs (decl.now ∷ [])) }
{
    match decl {
        Decl::Sink { input, .. } => with_name(alloc, names, input),
        _ => Ok(names),
    }
}

/// The names of the inputs of sinks.
pub fn sink_inputs(alloc: Global, decls: &[Decl]) -> Result<Vec<Word>, OutOfMemory>
    ensures { IfOk result (λ names. names.items ≡ sink_inputs decls.now) }
{
    let mut names = Vec::new(alloc);
    for decl in decls {
        names = with_sink(alloc, names, decl)?;
    }
    Ok(names)
}

fn with_fields(fields: Vec<u32>, columns: &[Column]) -> Result<Vec<u32>, OutOfMemory>
    ensures { IfOk result (λ more. more.items ≡ fields.items ++ column_fields columns.now) }
{
    let mut more = fields;
    for column in columns {
        more.push(column.field)?;
    }
    Ok(more)
}

fn with_columns(fields: Vec<u32>, decl: &Decl) -> Result<Vec<u32>, OutOfMemory>
    ensures { IfOk result (λ more. more.items ≡ fields.items ++ all_columns (decl.now ∷ [])) }
{
    match decl {
        Decl::Source { columns, .. } => with_fields(fields, columns.columns()),
        _ => Ok(fields),
    }
}

/// The fields of the columns of all sources.
pub fn all_columns(alloc: Global, decls: &[Decl]) -> Result<Vec<u32>, OutOfMemory>
    ensures { IfOk result (λ fields. fields.items ≡ all_columns decls.now) }
{
    let mut fields = Vec::new(alloc);
    for decl in decls {
        fields = with_columns(fields, decl)?;
    }
    Ok(fields)
}
