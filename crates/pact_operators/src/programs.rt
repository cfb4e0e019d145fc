//! Programs whose names are resolved.

ghost use Rattle.std.specs.Prelude.{◌≡◌, ◌<◌, ◌≤◌, ◌↔◌, Some, IfOk, IsTrue, length, slice_get};
ghost use Rattle.pact_record.specs.declared.records.TheConstants.{MAX_FIELDS};
ghost use Rattle.plan_trees.specs.Inserted.{inserted, inserted_above};
ghost use Rattle.plan_trees.specs.Plans.{PlanTree};
ghost use Rattle.tac_syntax.specs.declared.declarations.OpKind.TheVariants.{Source};
ghost use Rattle.pact_operators.specs.Insertions.{CanInsert, CanReplace, HasRoomFor, inserted_into, replaced_in};
ghost use Rattle.pact_operators.specs.PlanOps.{function_in, kind_at};
ghost use Rattle.pact_operators.specs.Programs.{IsPlanOf, IsProgram, function_limit, is_operator_kind, nulls_match, times_of_kind};

use crate::operators::Op;
use pact_record::OutOfMemory;
use plan_trees::{Physical, Plan};
use std::alloc::Global;
use std::marker::Model;
use tac_syntax::{OpKind, Valid, ValidList};

// A program has at most so many operators and functions.
const MAX_OPERATORS: usize = 16;

const MAX_FUNCTIONS: usize = 64;

/// A program that follows every rule. The number of a function, or of a source or operator, is its place in the list.
/// Inserted ones come last.
#[derive(Debug, Drop)]
pub struct Program {
    version: u32,
    fields: u32,
    functions: ValidList,
    ops: Vec<Op>,
    plan: Plan,
    sink: Vec<u32>,
}

impl Model for Program {
    ghost use Rattle.pact_operators.specs.Programs.{IsProgram, ProgramData};
    ghost use Rattle.pact_operators.specs.ProgramCode.{coded_program};

    ghost Value = { ProgramData };

    ghost coded = { coded_program };

    ghost view = { λ p. record { version = p.version; fields = p.fields; functions = p.functions; ops = p.ops.items; plan = p.plan; sink = p.sink.items } };

    ghost invariant = { λ p. IsProgram (record { version = p.version; fields = p.fields; functions = p.functions; ops = p.ops.items; plan = p.plan; sink = p.sink.items }) };
}

impl Program {
    /// A program of these parts.
    pub fn of(
        version: u32,
        fields: u32,
        functions: ValidList,
        ops: Vec<Op>,
        plan: Plan,
        sink: Vec<u32>,
    ) -> Program
        requires { IsProgram (record { version = version; fields = fields; functions = functions; ops = ops.items; plan = plan; sink = sink.items }) }
        ensures { result ≡ record { version = version; fields = fields; functions = functions; ops = ops.items; plan = plan; sink = sink.items } }
    {
        Program {
            version,
            fields,
            functions,
            ops,
            plan,
            sink,
        }
    }

    /// The version of the language, 1 or 2.
    pub fn version(&self) -> u32
        ensures version { result ≡ self.now.version }
        ensures keeps { IsProgram self.now }
    {
        self.version
    }

    /// Whether a Null in a key of a Match matches another one, as in version 1.
    pub fn nulls_match(&self) -> bool
        ensures { result ≡ nulls_match self.now }
    {
        self.version == 1
    }

    pub fn fields(&self) -> u32
        ensures fields { result ≡ self.now.fields }
        ensures few { result ≤ MAX_FIELDS }
        ensures keeps { IsProgram self.now }
    {
        self.fields
    }

    /// The functions in the order of their numbers.
    pub fn functions(&self) -> &[Valid]
        ensures functions { result.now ≡ self.now.functions }
        ensures keeps { IsProgram self.now }
    {
        self.functions.functions()
    }

    /// The sources and operators in the order of their numbers.
    pub fn ops(&self) -> &[Op]
        ensures ops { result.now ≡ self.now.ops }
        ensures keeps { IsProgram self.now }
    {
        &self.ops
    }

    /// Whether one more operator and this many more functions may be inserted. A program has at most 16 operators and 64
    /// functions.
    pub fn has_room(&self, functions: usize) -> bool
        requires { functions ≤ function_limit }
        ensures { IsTrue result ↔ HasRoomFor self.now functions }
    {
        count_operators(self.ops()) < MAX_OPERATORS
            && self.functions().len() <= MAX_FUNCTIONS - functions
    }

    /// The function that an operator calls.
    pub fn function_at(&self, at: u32) -> &Valid
        requires operator { kind_at self.now.ops at ≡ Source → ⊥ }
        ensures function { slice_get self.now.functions (function_in (slice_get self.now.ops at)) ≡ Some result.now }
        ensures fields { result.now.fields ≡ self.now.fields }
    {
        let op = &self.ops()[at as usize];
        &self.functions()[op.function as usize]
    }

    /// The plan as written, or the plan with the inserted operators.
    pub fn plan(&self) -> &Plan
        ensures plan { result.now ≡ self.now.plan }
        ensures keeps { IsProgram self.now }
    {
        &self.plan
    }

    /// The fields that the result keeps, in their order.
    pub fn sink(&self) -> &[u32]
        ensures sink { result.now ≡ self.now.sink }
        ensures few { length result.now ≤ MAX_FIELDS }
        ensures keeps { IsProgram self.now }
    {
        &self.sink
    }

    /// A copy of the program, for calls that take one. Out of memory is the only error.
    pub fn copy(&self, alloc: Global) -> Result<Program, OutOfMemory>
        ensures { IfOk result (λ p. p ≡ self.now) }
    {
        let functions = copied_functions(alloc, self.functions())?;
        let ops = copied_ops(alloc, self.ops())?;
        let sink = Vec::from_slice(alloc, self.sink())?;
        Ok(Program::of(
            self.version,
            self.fields(),
            functions,
            ops,
            *self.plan(),
            sink,
        ))
    }

    // The function and the operator come last, and the operator calls the function.
    fn with_operator(self, op: Op, function: Valid, plan: Plan) -> Result<Program, OutOfMemory>
        requires few { length self.functions < 64 }
        requires program { IsProgram (inserted_into self op function plan) }
        ensures { IfOk result (λ p. p ≡ inserted_into self op function plan) }
    {
        let mut functions = self.functions;
        let mut ops = self.ops;
        let mut last = op;
        last.function = functions.len() as u32;
        functions.push(function)?;
        ops.push(last)?;
        Ok(Program::of(self.version, self.fields, functions, ops, plan, self.sink))
    }

    // The function comes last, and the operator of the number calls it.
    fn with_function(self, at: u32, function: Valid) -> Result<Program, OutOfMemory>
        requires few { length self.functions < 64 }
        requires there { at < length self.ops }
        requires program { IsProgram (replaced_in self at function) }
        ensures { IfOk result (λ p. p ≡ replaced_in self at function) }
    {
        let mut functions = self.functions;
        let mut ops = self.ops;
        ops[at as usize].function = functions.len() as u32;
        functions.push(function)?;
        Ok(Program::of(
            self.version,
            self.fields,
            functions,
            ops,
            self.plan,
            self.sink,
        ))
    }
}

// The number of operators, without the sources.
fn count_operators(ops: &[Op]) -> usize
    ensures { result ≡ times_of_kind is_operator_kind ops.now }
{
    let mut count = 0;
    for op in ops {
        if op.kind != OpKind::Source {
            count += 1;
        }
    }
    count
}

fn copied_functions(alloc: Global, functions: &[Valid]) -> Result<ValidList, OutOfMemory>
    ensures { IfOk result (λ copy. copy ≡ functions.now) }
{
    let mut copy = ValidList::new(alloc);
    for function in functions {
        copy.push(function.copy(alloc)?)?;
    }
    Ok(copy)
}

fn copied_ops(alloc: Global, ops: &[Op]) -> Result<Vec<Op>, OutOfMemory>
    ensures { IfOk result (λ copy. copy.items ≡ ops.now) }
{
    let mut copy = Vec::new(alloc);
    for op in ops {
        copy.push(op.copy(alloc)?)?;
    }
    Ok(copy)
}

/// The program with the operator, which calls the function, on the edge from `below` to its consumer. The edge to it
/// has Forward, and the edge from it has the ship that the edge had. Its number comes after all others, and so does the
/// function's. Out of memory is the only error, and the program is lost then: pass a copy.
pub fn insert(
    program: Program,
    physical: Physical,
    below: u32,
    op: Op,
    function: Valid,
) -> Result<(Program, Physical), OutOfMemory>
    requires { CanInsert program physical.tree below op function }
    ensures program { IfOk result (λ r. r.0 ≡ inserted_into program op function (inserted below (length program.ops) physical.tree)) }
    ensures physical { IfOk result (λ r. r.1 ≡ inserted_above below (length program.ops) physical) }
    ensures plan { IfOk result (λ r. IsPlanOf r.0.functions r.0.ops r.1.tree) }
{
    let new = program.ops().len() as u32;
    let _valid = function.function();
    let mut moved = physical;
    moved.insert(below, new);
    let grown = program.with_operator(op, function, *moved.plan())?;
    Ok((grown, moved))
}

/// The program in which the operator calls the function, which comes last. Every plan of the program stays one. Out of
/// memory is the only error, and the program is lost then.
pub fn replace(program: Program, at: u32, function: Valid) -> Result<Program, OutOfMemory>
    requires { CanReplace program at function }
    ensures value { IfOk result (λ p. p ≡ replaced_in program at function) }
    ensures plans { IfOk result (λ p. (tree : PlanTree) → IsPlanOf program.functions program.ops tree → IsPlanOf p.functions p.ops tree) }
{
    let _ops = program.ops();
    let _valid = function.function();
    program.with_function(at, function)
}
