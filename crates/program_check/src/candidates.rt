//! Drafts that may be programs.

ghost use Rattle.std.specs.Prelude.{◌≡◌, ◌≤◌, length, get_or, nat_le, [], IfOk};
ghost use Rattle.pact_record.specs.declared.words.TheConstants.{MAX_WORD};
ghost use Rattle.program_check.specs.Candidates.{CandidateData};
ghost use Rattle.tac_syntax.specs.Drafts.{IsSpelledDraft};
ghost use Rattle.program_check.specs.ProgramRules.{all_columns, all_inputs, name_at};
ghost use Rattle.pact_operators.specs.Programs.{AreValidated};
ghost use Rattle.pact_operators.specs.Resolved.{function_names, is_among, node_names, sink_inputs, times_among};

use crate::gathering;
use crate::name_tables::{NameTable, function_table, node_table};
use pact_record::{OutOfMemory, Word};
use std::alloc::Global;
use std::marker::Model;
use tac_syntax::{Decl, Draft, Valid, functions_of};

/// A draft and its valid functions, with the names and columns of its declarations gathered once. The names of
/// functions, and those of sources and operators, are also in hash tables, since there may be many.
#[derive(Drop)]
pub struct Candidate<'a> {
    draft: &'a Draft,
    valids: &'a [Valid],
    functions: Vec<Word>,
    nodes: Vec<Word>,
    inputs: Vec<Word>,
    sinks: Vec<Word>,
    columns: Vec<u32>,
    by_function: NameTable<'a>,
    by_node: NameTable<'a>,
}

impl<'a> Model for Candidate<'a> {
    ghost use Rattle.program_check.specs.Candidates.{CandidateData, IsGathered, coded_candidate};
    ghost use Rattle.program_check.specs.NameTables.{IsTableOf};
    ghost use Rattle.pact_operators.specs.Resolved.{function_names, node_names};

    ghost Value = { CandidateData };

    ghost coded = { coded_candidate };

    ghost view = { λ c. record { draft = c.draft.now; valids = c.valids.now } };

    ghost invariant = { λ c. IsGathered (record { draft = c.draft.now; valids = c.valids.now }) c.functions.items c.nodes.items c.inputs.items c.sinks.items c.columns.items × IsTableOf (function_names c.draft.now.functions) c.by_function.marks × IsTableOf (node_names c.draft.now.decls) c.by_node.marks };
}

impl<'a> Candidate<'a> {
    pub fn of(
        alloc: Global,
        draft: &'a Draft,
        valids: &'a [Valid],
    ) -> Result<Candidate<'a>, OutOfMemory>
        requires { AreValidated draft.now valids.now }
        ensures { IfOk result (λ c. c ≡ record { draft = draft.now; valids = valids.now }) }
    {
        let decls = draft.decls();
        Ok(Candidate {
            draft,
            valids,
            functions: gathering::function_names(alloc, functions_of(draft))?,
            nodes: gathering::node_names(alloc, decls)?,
            inputs: gathering::all_inputs(alloc, decls)?,
            sinks: gathering::sink_inputs(alloc, decls)?,
            columns: gathering::all_columns(alloc, decls)?,
            by_function: function_table(alloc, functions_of(draft))?,
            by_node: node_table(alloc, decls)?,
        })
    }

    pub fn draft(&self) -> &Draft
        ensures draft { result.now ≡ self.now.draft }
        ensures validated { AreValidated self.now.draft self.now.valids }
    {
        self.draft
    }

    pub fn decls(&self) -> &[Decl]
        ensures decls { result.now ≡ self.now.draft.decls }
        ensures spelled { IsSpelledDraft self.now.draft }
    {
        self.draft.decls()
    }

    pub fn valids(&self) -> &[Valid]
        ensures { result.now ≡ self.now.valids }
    {
        self.valids
    }

    pub fn functions(&self) -> &[Word]
        ensures { result.now ≡ function_names self.now.draft.functions }
    {
        &self.functions
    }

    /// The names of sources and operators.
    pub fn nodes(&self) -> &[Word]
        ensures { result.now ≡ node_names self.now.draft.decls }
    {
        &self.nodes
    }

    /// Whether a function has the name.
    pub fn has_function(&self, name: &[u8]) -> bool
        ensures { result ≡ is_among name.now (function_names self.now.draft.functions) }
    {
        self.by_function.contains(name)
    }

    /// Whether two functions have the name.
    pub fn has_function_twice(&self, name: &[u8]) -> bool
        ensures { result ≡ nat_le 2 (times_among name.now (function_names self.now.draft.functions)) }
    {
        self.by_function.has_twice(name)
    }

    /// Whether a source or an operator has the name.
    pub fn has_node(&self, name: &[u8]) -> bool
        ensures { result ≡ is_among name.now (node_names self.now.draft.decls) }
    {
        self.by_node.contains(name)
    }

    /// Whether two sources or operators have the name.
    pub fn has_node_twice(&self, name: &[u8]) -> bool
        ensures { result ≡ nat_le 2 (times_among name.now (node_names self.now.draft.decls)) }
    {
        self.by_node.has_twice(name)
    }

    /// The names of inputs, of operators and of sinks.
    pub fn inputs(&self) -> &[Word]
        ensures { result.now ≡ all_inputs self.now.draft.decls }
    {
        &self.inputs
    }

    /// The names of the inputs of sinks.
    pub fn sinks(&self) -> &[Word]
        ensures { result.now ≡ sink_inputs self.now.draft.decls }
    {
        &self.sinks
    }

    /// The fields of the columns of all sources.
    pub fn columns(&self) -> &[u32]
        ensures { result.now ≡ all_columns self.now.draft.decls }
    {
        &self.columns
    }

    fn function_name(&self, number: usize) -> &[u8]
        ensures name { result.now ≡ get_or (function_names self.now.draft.functions) number [] }
        ensures short { length result.now ≤ MAX_WORD }
    {
        match self.functions.get(number) {
            Some(name) => name.bytes(),
            None => &[],
        }
    }

    /// What a declaration is called in a refusal.
    pub fn name_of(&'a self, decl: &'a Decl) -> &'a [u8]
        ensures name { result.now ≡ name_at self.now.draft.functions decl.now }
        ensures short { length result.now ≤ MAX_WORD }
    {
        match decl {
            Decl::Source { name, .. } => name.bytes(),
            Decl::Function { number } => self.function_name(*number),
            Decl::Op { name, .. } => name.bytes(),
            Decl::Sink { input, .. } => input.bytes(),
        }
    }
}
