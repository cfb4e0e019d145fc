//! Names in hash tables, since a draft may declare many.

ghost use Rattle.std.specs.Prelude.{◌≡◌, ◌++◌, ◌∷◌, [], ℕ, List, nat_le, IfOk, OnOk};
ghost use Rattle.program_check.specs.NameTables.{IsTableOf};
ghost use Rattle.pact_operators.specs.Resolved.{function_names, is_among, node_names, times_among};

use indexmap::IndexMap;
use pact_record::OutOfMemory;
use std::alloc::Global;
use tac_syntax::{Decl, Function};

/// Names, each with whether it was added more than once.
#[derive(Drop)]
pub struct NameTable<'a> {
    marks: IndexMap<&'a [u8], bool>,
}

impl<'a> NameTable<'a> {
    fn new(alloc: Global) -> NameTable<'a>
        ensures { IsTableOf [] result.marks }
    {
        NameTable {
            marks: IndexMap::new(alloc),
        }
    }

    fn add(&mut self, name: &'a [u8]) -> Result<(), OutOfMemory>
        ensures { OnOk result ((names : List (List ℕ)) → IsTableOf names self.old.marks → IsTableOf (names ++ name.now ∷ []) self.new.marks) }
    {
        let is_there = self.marks.contains_key(name);
        self.marks.insert(name, is_there)?;
        Ok(())
    }

    /// Whether the name was added.
    pub fn contains(&self, name: &[u8]) -> bool
        ensures { (names : List (List ℕ)) → IsTableOf names self.now.marks → result ≡ is_among name.now names }
    {
        self.marks.contains_key(name)
    }

    /// Whether the name was added more than once.
    pub fn has_twice(&self, name: &[u8]) -> bool
        ensures { (names : List (List ℕ)) → IsTableOf names self.now.marks → result ≡ nat_le 2 (times_among name.now names) }
    {
        self.marks.get(name).copied().unwrap_or(false)
    }
}

/// The names of functions.
pub fn function_table<'a>(
    alloc: Global,
    functions: &'a [Function],
) -> Result<NameTable<'a>, OutOfMemory>
    ensures { IfOk result (λ table. IsTableOf (function_names functions.now) table.marks) }
{
    let mut table = NameTable::new(alloc);
    for function in functions {
        table.add(function.name.bytes())?;
    }
    Ok(table)
}

// Adds the name of a declaration, if it is a source or an operator.
fn add_node<'a>(table: &mut NameTable<'a>, decl: &'a Decl) -> Result<(), OutOfMemory>
    ensures { OnOk result ((names : List (List ℕ)) → IsTableOf names table.old.marks → IsTableOf (names ++ node_names (decl.now ∷ [])) table.new.marks) }
{
    match decl {
        Decl::Source { name, .. } => table.add(name.bytes()),
        Decl::Op { name, .. } => table.add(name.bytes()),
        _ => Ok(()),
    }
}

/// The names of sources and operators.
pub fn node_table<'a>(alloc: Global, decls: &'a [Decl]) -> Result<NameTable<'a>, OutOfMemory>
    ensures { IfOk result (λ table. IsTableOf (node_names decls.now) table.marks) }
{
    let mut table = NameTable::new(alloc);
    for decl in decls {
        add_node(&mut table, decl)?;
    }
    Ok(table)
}
