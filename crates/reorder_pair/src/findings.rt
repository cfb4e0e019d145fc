//! A table of findings about operators, by context.

ghost use Rattle.std.specs.Prelude.{◌≡◌, ◌++◌, ◌∷◌, [], true, List, IfNone, IfOk, IfSome, OnErr, OnOk};
ghost use Rattle.tac_syntax.specs.declared.declarations.OpKind.TheVariants.{Source};
ghost use Rattle.plan_trees.specs.Plans.{has};
ghost use Rattle.pact_operators.specs.PlanOps.{kind_at};
ghost use Rattle.pact_operators.specs.Programs.{ProgramData};
ghost use Rattle.reorder_pair.specs.FindingTable.{AreFindings, BeginsWith, IsKept, Keeps, KeepsBoth, KeepsEach, KeepsInPlan, corner_place, corner_places, kept_under};
ghost use Rattle.reorder_pair.specs.Corners.{AreCorners, IsCornered};
ghost use Rattle.reorder_pair.specs.declared.findings.OperatorIn.{OperatorIn};
ghost use Rattle.reorder_pair.specs.declared.finding.Found.{Found};
ghost use Rattle.reorder_pair.specs.Legal.{IsFoundAt};
ghost use Rattle.reorder_pair.specs.Places.{IsFound, IsFoundFor, IsOperatorIn, IsPlace};

use crate::corners::{Corners, corner, from_corners, is_cornered};
use crate::exchanges::neighbours;
use crate::finding::{Found, context_in_plan, found_for};
use crate::rules::Rule;
use indexmap::IndexMap;
use pact_operators::{Plan, Program};
use pact_record::OutOfMemory;
use std::alloc::Global;
use std::marker::Model;
use tac_flow::shared_context;
use tac_syntax::Context;

/// An operator by its number, in a context.
#[derive(Clone, Copy, PartialEq, Eq, Hash)]
struct OperatorIn {
    at: u32,
    context: Context,
}

// The key of an operator without corners.
fn place_of(program: &Program, at: u32, context: &Context) -> OperatorIn
    requires operator { IsOperatorIn program.now at context.now }
    requires corners { IsCornered program.now at → ⊥ }
    ensures place { (old : List (OperatorIn × Found)) (new : List (OperatorIn × Found)) (s : Found) → Keeps result s old new → KeepsEach (kept_under program.now at context.now) old new }
    ensures operator { IsOperatorIn program.now result.at result.context }
    ensures found { (s : Found) → IsFoundFor program.now result.at result.context s → IsFoundFor program.now at context.now s }
{
    OperatorIn {
        at,
        context: shared_context(program.function_at(at), context),
    }
}

// The key of one of an operator's corners.
fn corner_of(program: &Program, at: u32, left: bool, right: bool, context: &Context) -> OperatorIn
    requires { IsOperatorIn program.now at context.now }
    ensures place { result ≡ corner_place program.now at left right context.now }
    ensures operator { IsOperatorIn program.now result.at result.context }
{
    OperatorIn {
        at,
        context: corner(program.fields(), left, right, context),
    }
}

/// Findings about the operators of one program, each in the contexts that were asked for. In the plans that exchanges
/// lead to, an operator has far fewer contexts than places. Contexts in which the findings about an operator are equal
/// count as one.
#[derive(Drop)]
pub struct Findings {
    table: IndexMap<OperatorIn, Found>,
}

impl Model for Findings {
    ghost use Rattle.std.specs.Prelude.{List};
    ghost use Rattle.std.specs.Coded.{coded_list, coded×};
    ghost use Rattle.reorder_pair.specs.contracts.findings.OperatorIn as placed;
    ghost use Rattle.reorder_pair.specs.declared.findings.OperatorIn.{OperatorIn};
    ghost use Rattle.reorder_pair.specs.contracts.finding.Found as found;
    ghost use Rattle.reorder_pair.specs.declared.finding.Found.{Found};

    ghost Value = { List (OperatorIn × Found) };

    ghost coded = { coded_list (coded× placed.the_row.coded found.the_row.coded) };

    ghost view = { λ s. s.table.entries };
}

impl Findings {
    /// An empty table.
    pub fn new(alloc: Global) -> Findings
        ensures { result ≡ [] }
    {
        Findings {
            table: IndexMap::new(alloc),
        }
    }

    // The stored finding about an operator in a context.
    fn kept(&self, placed: &OperatorIn) -> Option<Found>
        ensures found { (p : ProgramData) → AreFindings p self.now → IfSome result (IsFoundFor p placed.now.at placed.now.context) }
        ensures some { IfSome result (λ _. IsKept placed.now self.now) }
        ensures none { IfNone result (IsKept placed.now self.now → ⊥) }
    {
        self.table.get(placed).copied()
    }

    // Stores the finding about an operator in a context.
    fn keep(&mut self, placed: &OperatorIn, found: &Found) -> Result<(), OutOfMemory>
        requires { IsKept placed.now self.old → ⊥ }
        ensures kept { OnOk result (self.new ≡ self.old ++ (placed.now, found.now) ∷ []) }
        ensures unchanged { OnErr result (self.new ≡ self.old) }
    {
        self.table.insert(*placed, *found)?;
        Ok(())
    }

    // The finding about an operator in a context: the stored one, or otherwise a new one, which is stored.
    fn found_under(&mut self, program: &Program, placed: &OperatorIn) -> Result<Found, OutOfMemory>
        requires operator { IsOperatorIn program.now placed.now.at placed.now.context }
        requires findings { AreFindings program.now self.old }
        ensures found { IfOk result (IsFoundFor program.now placed.now.at placed.now.context) }
        ensures kept { IfOk result (λ s. Keeps placed.now s self.old self.new) }
        ensures unchanged { OnErr result (self.new ≡ self.old) }
        ensures findings { OnOk result (AreFindings program.now self.new) }
    {
        if let Some(found) = self.kept(placed) {
            return Ok(found);
        }
        let found = found_for(program, placed.at, &placed.context);
        self.keep(placed, &found)?;
        Ok(found)
    }

    // The findings about an operator in each of its corners. After out of memory the table may have rows for some of
    // them.
    fn corners(
        &mut self,
        program: &Program,
        at: u32,
        context: &Context,
    ) -> Result<Corners, OutOfMemory>
        requires operator { IsOperatorIn program.now at context.now }
        requires findings { AreFindings program.now self.old }
        ensures found { IfOk result (AreCorners program.now at context.now) }
        ensures kept { OnOk result (KeepsEach (corner_places program.now at context.now) self.old self.new) }
        ensures begins { BeginsWith self.old self.new }
        ensures findings { OnOk result (AreFindings program.now self.new) }
    {
        let neither = self.found_under(program, &corner_of(program, at, false, false, context))?;
        let left = self.found_under(program, &corner_of(program, at, true, false, context))?;
        let right = self.found_under(program, &corner_of(program, at, false, true, context))?;
        let both = self.found_under(program, &corner_of(program, at, true, true, context))?;
        Ok(Corners {
            neither,
            left,
            right,
            both,
        })
    }

    // `found` for an operator with corners. If memory runs out, the rows of this call are removed again.
    fn found_by_corners(
        &mut self,
        program: &Program,
        at: u32,
        context: &Context,
    ) -> Result<Found, OutOfMemory>
        requires operator { IsOperatorIn program.now at context.now }
        requires cornered { IsCornered program.now at }
        requires findings { AreFindings program.now self.old }
        ensures found { IfOk result (IsFoundFor program.now at context.now) }
        ensures kept { OnOk result (KeepsEach (kept_under program.now at context.now) self.old self.new) }
        ensures unchanged { OnErr result (self.new ≡ self.old) }
        ensures findings { OnOk result (AreFindings program.now self.new) }
    {
        let rows = self.table.len();
        match self.corners(program, at, context) {
            Ok(corners) => Ok(from_corners(program, at, context, &corners)),
            Err(not) => {
                self.table.truncate(rows);
                Err(not)
            }
        }
    }

    // `found` for an operator without corners.
    fn found_by_place(
        &mut self,
        program: &Program,
        at: u32,
        context: &Context,
    ) -> Result<Found, OutOfMemory>
        requires operator { IsOperatorIn program.now at context.now }
        requires corners { IsCornered program.now at → ⊥ }
        requires findings { AreFindings program.now self.old }
        ensures found { IfOk result (IsFoundFor program.now at context.now) }
        ensures kept { OnOk result (KeepsEach (kept_under program.now at context.now) self.old self.new) }
        ensures unchanged { OnErr result (self.new ≡ self.old) }
        ensures findings { OnOk result (AreFindings program.now self.new) }
    {
        let placed = place_of(program, at, context);
        self.found_under(program, &placed)
    }

    /// The findings about an operator in a context: the stored ones, or otherwise new ones, which are stored. Contexts
    /// in which the findings about the operator's function are equal share a row. A CoGroup that takes a field's number
    /// from a register has four rows for all its contexts.
    pub fn found(
        &mut self,
        program: &Program,
        at: u32,
        context: &Context,
    ) -> Result<Found, OutOfMemory>
        requires operator { IsOperatorIn program.now at context.now }
        requires findings { AreFindings program.now self.old }
        ensures found { IfOk result (IsFoundFor program.now at context.now) }
        ensures kept { OnOk result (KeepsEach (kept_under program.now at context.now) self.old self.new) }
        ensures unchanged { OnErr result (self.new ≡ self.old) }
        ensures findings { OnOk result (AreFindings program.now self.new) }
    {
        if is_cornered(program, at) {
            self.found_by_corners(program, at, context)
        } else {
            self.found_by_place(program, at, context)
        }
    }

    /// Returns what the free function `found_in_plan` does, from the table: the operator is analysed only if the table
    /// has no row for the context that it has in the plan.
    pub fn found_in_plan(
        &mut self,
        program: &Program,
        plan: &Plan,
        at: u32,
    ) -> Result<Found, OutOfMemory>
        requires operator { kind_at program.now.ops at ≡ Source → ⊥ }
        requires place { has at plan.now ≡ true }
        requires findings { AreFindings program.now self.old }
        ensures found { IfOk result (IsFound program.now at plan.now plan.now) }
        ensures kept { OnOk result (KeepsInPlan program.now plan.now at self.old self.new) }
        ensures unchanged { OnErr result (self.new ≡ self.old) }
        ensures findings { OnOk result (AreFindings program.now self.new) }
    {
        let context = context_in_plan(program, plan, at);
        self.found(program, at, &context)
    }

    /// Returns what the free function `found` does for the two operators of an exchange, from the table: each is
    /// analysed only if the table has no row for its context. After out of memory the table may have the rows for the
    /// upper one.
    pub fn found_at(
        &mut self,
        program: &Program,
        plan: &Plan,
        at: u32,
        rule: Rule,
    ) -> Result<Option<(Found, Found)>, OutOfMemory>
        requires findings { AreFindings program.now self.old }
        ensures found { IfOk result (λ told. IfSome told (λ both. IsFoundAt program.now plan.now at rule both.0 both.1)) }
        ensures none { IfOk result (λ told. IfNone told ((IsPlace program.now plan.now at rule → ⊥) × (self.new ≡ self.old))) }
        ensures kept { IfOk result (λ told. IfSome told (λ both. KeepsBoth program.now plan.now at rule self.old self.new)) }
        ensures findings { OnOk result (AreFindings program.now self.new) }
    {
        let Some(both) = neighbours(program, plan, at, rule) else {
            return Ok(None);
        };
        let upper = self.found(program, both.upper, &both.upper_context)?;
        let lower = self.found(program, both.lower, &both.lower_context)?;
        Ok(Some((upper, lower)))
    }
}
