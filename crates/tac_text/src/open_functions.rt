//! Functions whose lines are being read.

ghost use Rattle.std.specs.Bool.{OnFalse, OnTrue};
ghost use Rattle.std.specs.Prelude.{◌≡◌, ◌<◌, ℕ, [], None, Some, true, IfErr, IfOk, OnOk, length, List};
ghost use Rattle.tac_syntax.specs.Code.{Line, close};
ghost use Rattle.tac_syntax.specs.declared.functions.Kind.{Kind};
ghost use Rattle.text_lines.specs.CanonicalLines.{AreLineWords};
ghost use Rattle.tac_text.specs.declared.building.Block.{Block};
ghost use Rattle.tac_text.specs.Places.{build_start, built_on, IsInside, MayInside, place_of};
ghost use Rattle.tac_text.specs.FunctionStates.{begun, function_of, GivesHeader, IsUnchanged, TakesWords, with_build};
ghost use Rattle.tac_text.specs.FunctionFaults.{header_fault};
ghost use Rattle.tac_text.specs.FunctionLines.{header_words, IsHeader, IsWritable};
ghost use Rattle.tac_text.specs.StatementAnswers.{said};
ghost use Rattle.text_lines.specs.LineReading.{IsFaultOf, TellsFault, TellsNoFault};
ghost use Rattle.tac_text.specs.StatementFaults.{statement_fault};

use crate::building::Builder;
use crate::headers::read_parts;
use crate::lines::BodyLine;
use crate::statement_reading::read_statement;
use pact_record::{OutOfMemory, Word};
use std::alloc::Global;
use std::marker::Model;
use tac_syntax::{Function, Kind};
use text_lines::{LineWord, NotRead};

/// A function whose header was read, with some lines of its body. If a call reports out of memory, the lines may be
/// lost.
#[derive(Debug, Drop)]
pub struct OpenFunction {
    name: Word,
    kind: Kind,
    keys: u32,
    builder: Builder,
}

impl Model for OpenFunction {
    ghost use Rattle.tac_text.specs.FunctionStates.{coded_open, OpenData};
    ghost use Rattle.tac_text.specs.FunctionLines.{IsHeader};
    ghost use Rattle.std.specs.Prelude.{true};
    ghost use Rattle.tac_text.specs.Places.{FitsBuild};

    ghost Value = { OpenData };

    ghost coded = { coded_open };

    ghost view = { λ f. record { name = f.name; kind = f.kind; keys = f.keys; build = f.builder } };

    // so that its `end` can always follow
    ghost invariant = { λ f. IsHeader f.name f.kind f.keys × FitsBuild true f.builder };
}

fn begin(alloc: Global, words: &[LineWord]) -> Result<OpenFunction, NotRead>
    requires { 0 < length words.now }
    ensures header { IfOk result (λ f. (words.now ≡ header_words f.name f.kind f.keys) × IsHeader f.name f.kind f.keys × (f.build ≡ build_start)) }
    ensures fault { IfErr result (λ e. IsFaultOf e (header_fault words.now)) }
{
    let header = read_parts(words)?;
    Ok(OpenFunction {
        name: Word::from_bytes(alloc, header.name)?,
        kind: header.kind,
        keys: header.keys,
        builder: Builder::new(alloc),
    })
}

/// A function from the words of its header, without lines.
pub fn read_header(alloc: Global, words: &[LineWord]) -> Result<OpenFunction, NotRead>
    requires some { 0 < length words.now }
    ensures header { IfOk result (λ f. (words.now ≡ header_words f.name f.kind f.keys) × IsHeader f.name f.kind f.keys × (f.build ≡ build_start)) }
    ensures fault { IfErr result (λ e. IsFaultOf e (header_fault words.now)) }
    ensures header_always { (name : List ℕ) (kind : Kind) (keys : ℕ) → IsHeader name kind keys → words.now ≡ header_words name kind keys → GivesHeader result name kind keys }
    ensures faultless_always { header_fault words.now ≡ None → TellsNoFault result }
    ensures fault_always { (what : ℕ) → header_fault words.now ≡ Some what → TellsFault result what }
{
    begin(alloc, words)
}

fn is_end(line: &BodyLine) -> bool
    ensures end { OnTrue result (said line.now ≡ Some close) }
    ensures other { OnFalse result ((blocks : List Block) (l : Line) → said line.now ≡ Some l → IsInside l blocks) }
{
    match line {
        BodyLine::End => true,
        BodyLine::Plain(_)
        | BodyLine::If { .. }
        | BodyLine::Repeat { .. }
        | BodyLine::Each { .. }
        | BodyLine::Else => false,
    }
}

impl OpenFunction {
    // Takes a line that may follow.
    fn add(&mut self, alloc: Global, line: BodyLine) -> Result<(), OutOfMemory>
        requires { (l : Line) × (said line ≡ Some l) × MayInside true self.now.build l }
        ensures { OnOk result ((l : Line) → said line ≡ Some l → self.new ≡ with_build self.old (built_on self.old.build l)) }
    {
        match self.builder.step(alloc, line) {
            Ok(true) => Ok(()),
            Ok(false) => unreachable!(),
            Err(OutOfMemory) => {
                self.builder = Builder::new(alloc);
                Err(OutOfMemory)
            }
        }
    }

    /// Takes the words of one more line, and returns whether they were the function's own `end`. `registers` says
    /// whether registers may name fields.
    pub fn read_line(
        &mut self,
        alloc: Global,
        registers: bool,
        words: &[LineWord],
    ) -> Result<bool, NotRead>
        requires some { 0 < length words.now }
        requires words { AreLineWords words.now }
        ensures taken { IfOk result (λ ended. TakesWords registers ended words.now self.old self.new) }
        ensures fault { IfErr result (λ e. IsFaultOf e (statement_fault (place_of registers self.old.build) words.now)) }
        ensures unchanged { IfErr result (λ e. IsUnchanged e self.old self.new) }
        ensures faultless_always { statement_fault (place_of registers self.old.build) words.now ≡ None → TellsNoFault result }
        ensures fault_always { (what : ℕ) → statement_fault (place_of registers self.old.build) words.now ≡ Some what → TellsFault result what }
    {
        let line = read_statement(alloc, self.builder.place(registers), words)?;
        if self.builder.is_outside() && is_end(&line) {
            return Ok(true);
        }
        self.add(alloc, line)?;
        Ok(false)
    }

    /// The function, once its `end` was read.
    pub fn finish(self) -> Function
        requires { self.build.blocks ≡ [] }
        ensures function { result ≡ function_of self }
        ensures writable { IsWritable result }
    {
        let Some(body) = self.builder.into_body() else {
            unreachable!()
        };
        Function {
            name: self.name,
            kind: self.kind,
            keys: self.keys,
            body,
        }
    }
}
