//! The analysis of the operators of listed plans, each once for each context that the plans give it.

ghost use Rattle.std.specs.Prelude.{◌≡◌, ◌≤◌, ◌↔◌, true, false, length, IfOk, OnOk};
ghost use Rattle.plan_trees.specs.Plans.{PlanTree, has};
ghost use Rattle.pact_operators.specs.Programs.{IsPlanOf};
ghost use Rattle.reorder_pair.specs.FindingTable.{AreFindings};
ghost use Rattle.reorder_pair.specs.Legal.{KeepAnswers};
ghost use Rattle.reorder_pair.specs.Reach.{Reach};
ghost use Rattle.ship_strategy.specs.PlanFacts.{facts_of};
ghost use Rattle.ship_strategy.specs.Views.{facts_in, known_of, unknown};
ghost use Rattle.plan_enumerate.specs.KnownPlans.{AreKnownPlans};
ghost use Rattle.plan_enumerate.specs.Listing.{IsListed, IsListing, IsOpen, ListedPlans, entry_limit, plans_of};

use crate::entries::Entries;
use crate::enumerating::list_plans;
use crate::known_plans::KnownPlans;
use crate::listings::Listed;
use pact_operators::{MAX_NODES, OpKind, Plan, Program, context};
use pact_record::OutOfMemory;
use reorder_pair::{Findings, kind_of};
use ship_strategy::{OpFacts, Table, nothing_found};
use std::alloc::Global;

// What is known of a source or an operator of the plan. Only an operator has a function to analyse.
fn facts_there(
    program: &Program,
    findings: &mut Findings,
    plan: &Plan,
    at: u32,
) -> Result<OpFacts, OutOfMemory>
    requires place { has at plan.now ≡ true }
    requires findings { AreFindings program.now findings.old }
    ensures facts { IfOk result (λ x. known_of x ≡ facts_of program.now plan.now at) }
    ensures findings { OnOk result (AreFindings program.now findings.new) }
{
    // `fields` makes it known that the program follows every rule.
    let _fields = program.fields();
    let kind = kind_of(program, at);
    let context = context(program, plan, at);
    match kind {
        OpKind::Source => Ok(OpFacts::of(kind, &context, &nothing_found())),
        _ => {
            let found = findings.found(program, at, &context)?;
            Ok(OpFacts::of(kind, &context, &found.sets))
        }
    }
}

// What is known of a number in the plan, which may not have it.
fn facts_by_number(
    program: &Program,
    findings: &mut Findings,
    plan: &Plan,
    at: u32,
) -> Result<OpFacts, OutOfMemory>
    requires findings { AreFindings program.now findings.old }
    ensures facts { IfOk result (λ x. known_of x ≡ facts_of program.now plan.now at) }
    ensures findings { OnOk result (AreFindings program.now findings.new) }
{
    if !plan.has(at) {
        return Ok(OpFacts::nothing());
    }
    facts_there(program, findings, plan, at)
}

// Fills a blank table with what is known of each source and operator of the plan.
fn fill(
    program: &Program,
    findings: &mut Findings,
    plan: &Plan,
    table: &mut Table,
) -> Result<(), OutOfMemory>
    requires blank { facts_in table.old ≡ (λ k. unknown) }
    requires findings { AreFindings program.now findings.old }
    ensures table { OnOk result (facts_in table.new ≡ facts_of program.now plan.now) }
    ensures findings { OnOk result (AreFindings program.now findings.new) }
{
    // `root` makes it known that the plan's numbers are below `MAX_NODES`.
    let _root = plan.root();
    for at in 0..MAX_NODES as u32 {
        table.set(at, facts_by_number(program, findings, plan, at)?);
    }
    Ok(())
}

// What is known of the operators of each entry's plan, from earlier findings and new ones.
fn analyse_entries(
    alloc: Global,
    program: &Program,
    findings: &mut Findings,
    entries: &Entries,
) -> Result<KnownPlans, OutOfMemory>
    requires { AreFindings program.now findings.old }
    ensures { IfOk result (AreKnownPlans program.now (plans_of entries.now)) }
{
    let mut known = KnownPlans::new(alloc);
    for entry in 0..entries.len() {
        let mut table = Table::blank();
        fill(program, findings, &entries.at(entry).plan, &mut table)?;
        known.push(alloc, &table)?;
    }
    Ok(known)
}

/// The list that `enumerate` makes, and what is known of the operators of its plans, for `choose_known`. An operator is
/// analysed once for each context that it has in them, and what was already analysed for the exchanges isn't analysed
/// again. Out of memory is the only error.
pub fn enumerate_and_analyse(
    alloc: Global,
    program: &Program,
    limit: u32,
) -> Result<(Listed, KnownPlans), OutOfMemory>
    requires some { 1 ≤ limit }
    requires few { limit ≤ entry_limit }
    ensures listing { IfOk result (λ both. IsListing program.now limit both.0) }
    ensures only { IfOk result (λ both. (other : ListedPlans) → IsListing program.now limit other → both.0 ≡ other) }
    ensures incomplete { IfOk result (λ both. (both.0.complete ≡ false) ↔ ((length both.0.entries ≡ limit) × IsOpen program.now both.0.entries)) }
    ensures complete { IfOk result (λ both. both.0.complete ≡ true → (t : PlanTree) → IsListed t both.0.entries ↔ Reach program.now t) }
    ensures reached { IfOk result (λ both. (t : PlanTree) → IsListed t both.0.entries → Reach program.now t) }
    ensures answers { IfOk result (λ both. (t : PlanTree) → IsListed t both.0.entries → KeepAnswers program.now program.now.plan t) }
    ensures plans { IfOk result (λ both. (t : PlanTree) → IsListed t both.0.entries → IsPlanOf program.now.functions program.now.ops t) }
    ensures known { IfOk result (λ both. AreKnownPlans program.now (plans_of both.0.entries) both.1) }
{
    // `fields` makes it known that the program follows every rule.
    let _fields = program.fields();
    let mut findings = Findings::new(alloc);
    let listed = list_plans(alloc, program, limit, &mut findings)?;
    let known = analyse_entries(alloc, program, &mut findings, listed.entries())?;
    Ok((listed, known))
}
