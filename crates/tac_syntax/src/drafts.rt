//! Programs as their text declares them.

ghost use Rattle.std.specs.Prelude.{◌≡◌, ◌≤◌, ◌++◌, ◌∷◌, [], length, OnOk, OnErr};
ghost use Rattle.pact_record.specs.declared.records.TheConstants.{MAX_FIELDS};
ghost use Rattle.tac_syntax.specs.FieldRegisters.{Takes, has_registers};
ghost use Rattle.tac_syntax.specs.Functions.{IsSpelledFunction};
ghost use Rattle.tac_syntax.specs.declared.declarations.Decl.TheVariants.{Function as FunctionDecl};
ghost use Rattle.tac_syntax.specs.Declarations.{IsSpelledDecl};
ghost use Rattle.tac_syntax.specs.Drafts.{IsSpelledDraft};
ghost use Rattle.tac_syntax.specs.Versions.{IsVersion, field_limit};

use crate::declarations::Decl;
use crate::functions::Function;
use pact_record::OutOfMemory;
use std::alloc::Global;
use std::marker::Model;

/// A program that some text spells. What its declarations name needn't exist, and its functions needn't be valid.
#[derive(Debug, Drop)]
pub struct Draft {
    version: u32,
    fields: u32,
    functions: Vec<Function>,
    decls: Vec<Decl>,
}

impl Model for Draft {
    ghost use Rattle.tac_syntax.specs.Drafts.{DraftData, IsSpelledDraft};
    ghost use Rattle.tac_syntax.specs.DraftCode.{coded_draft};

    ghost Value = { DraftData };

    ghost coded = { coded_draft };

    ghost view = { λ d. record { version = d.version; fields = d.fields; functions = d.functions.items; decls = d.decls.items } };

    ghost invariant = { λ d. IsSpelledDraft (record { version = d.version; fields = d.fields; functions = d.functions.items; decls = d.decls.items }) };
}

impl Draft {
    /// A program of this version with `fields` fields and without declarations.
    pub fn new(alloc: Global, version: u32, fields: u32) -> Draft
        requires version { IsVersion version }
        requires fields { (1 ≤ fields) × (fields ≤ field_limit version) }
        ensures { result ≡ record { version = version; fields = fields; functions = []; decls = [] } }
    {
        Draft {
            version,
            fields,
            functions: Vec::new(alloc),
            decls: Vec::new(alloc),
        }
    }

    /// Appends a declaration, other than one of a function.
    pub fn push(&mut self, decl: Decl) -> Result<(), OutOfMemory>
        requires { IsSpelledDecl self.old.version decl }
        ensures ok { let d = self.old in
            OnOk result (self.new ≡ record { version = d.version; fields = d.fields; functions = d.functions; decls = d.decls ++ decl ∷ [] }) }
        ensures err { OnErr result (self.new ≡ self.old) }
    {
        self.decls.push(decl)?;
        Ok(())
    }

    /// Appends a function, and its declaration.
    pub fn push_function(&mut self, function: Function) -> Result<(), OutOfMemory>
        requires spelled { IsSpelledFunction function }
        requires registers { Takes (has_registers self.old.version) function.body }
        ensures ok { let d = self.old in
            let decl = FunctionDecl (length d.functions) in
            OnOk result (self.new ≡ record { version = d.version; fields = d.fields; functions = d.functions ++ function ∷ []; decls = d.decls ++ decl ∷ [] }) }
        ensures err { OnErr result (self.new ≡ self.old) }
    {
        let number = self.functions.len();
        self.decls.reserve(1)?;
        self.functions.push(function)?;
        // This can't fail: there is room for it.
        let _ = self.decls.push(Decl::Function { number });
        Ok(())
    }

    /// The version of the language, 1 or 2.
    pub fn version(&self) -> u32
        ensures version { result ≡ self.now.version }
        ensures known { IsVersion result }
    {
        self.version
    }

    pub fn fields(&self) -> u32
        ensures fields { result ≡ self.now.fields }
        ensures few { result ≤ MAX_FIELDS }
    {
        self.fields
    }

    /// The declarations in text order.
    pub fn decls(&self) -> &[Decl]
        ensures decls { result.now ≡ self.now.decls }
        ensures spelled { IsSpelledDraft self.now }
    {
        &self.decls
    }
}

/// The functions in text order, which is that of their numbers.
pub fn functions_of(draft: &Draft) -> &[Function]
    ensures { result.now ≡ draft.now.functions }
{
    &draft.functions
}
