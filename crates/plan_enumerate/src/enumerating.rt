//! From a program to the list of its plans.

ghost use Rattle.std.specs.Prelude.{◌≡◌, ◌≤◌, ◌<◌, ◌+◌, ◌↔◌, true, false, length, IfNone, IfOk, IfSome, OnOk, IsTrue};
ghost use Rattle.plan_trees.specs.Plans.{PlanTree};
ghost use Rattle.pact_operators.specs.PlanOps.{kind_at};
ghost use Rattle.pact_operators.specs.Programs.{IsPlanOf};
ghost use Rattle.reorder_pair.specs.FindingTable.{AreFindings};
ghost use Rattle.reorder_pair.specs.Legal.{IsConditionOf, IsLegal, KeepAnswers};
ghost use Rattle.reorder_pair.specs.Rules.{Plays, all_rules, exchange_of};
ghost use Rattle.plan_enumerate.specs.Listing.{IsAt, IsListed, IsListing, IsOpen, ListedPlans, entry_limit};
ghost use Rattle.reorder_pair.specs.Reach.{Reach};
ghost use Rattle.plan_enumerate.specs.Walks.{GoesTo, IsNeighbour, IsWalked};

use crate::entries::{Entries, Entry};
use crate::listings::Listed;
use pact_operators::{MAX_NODES, Plan, Program};
use pact_record::OutOfMemory;
use reorder_group::{apply, legal_for, other_is_unique};
use reorder_pair::{Condition, Findings, Rule, kind_of};
use std::alloc::Global;

// Whether an operator may be the upper one of an exchange by the rule. This is checked first, since `found_at` takes
// the plan apart.
fn may_be_upper(program: &Program, at: u32, rule: Rule) -> bool
    ensures { IsTrue result ↔ Plays (exchange_of rule).upper (kind_at program.now.ops at) }
{
    rule.exchange().upper.is_played_by(kind_of(program, at))
}

// The condition of a listed plan's exchange, if it is legal.
fn legal_exchange(
    program: &Program,
    findings: &mut Findings,
    plan: &Plan,
    at: u32,
    rule: Rule,
) -> Result<Option<Condition>, OutOfMemory>
    requires plan { IsPlanOf program.now.functions program.now.ops plan.now }
    requires findings { AreFindings program.now findings.old }
    ensures some { IfOk result (λ told. IfSome told (IsConditionOf program.now plan.now at rule)) }
    ensures none { IfOk result (λ told. IfNone told (IsLegal program.now plan.now at rule → ⊥)) }
    ensures findings { OnOk result (AreFindings program.now findings.new) }
{
    if !may_be_upper(program, at, rule) {
        return Ok(None);
    }
    let Some((upper, lower)) = findings.found_at(program, plan, at, rule)? else {
        return Ok(None);
    };
    let unique = other_is_unique(program, findings, plan, at, rule)?;
    Ok(legal_for(program, plan, at, rule, &upper, &lower, unique).ok())
}

// The entry of what a legal exchange of a listed plan yields. `from` is the number of the plan's entry.
fn neighbour(program: &Program, plan: &Plan, from: u32, at: u32, rule: Rule, by: Condition) -> Entry
    requires plan { IsPlanOf program.now.functions program.now.ops plan.now }
    requires legal { IsConditionOf program.now plan.now at rule by }
    ensures { IsNeighbour program.now plan.now from at rule result }
{
    Entry {
        plan: apply(program, plan, at, rule),
        from,
        by: Some(by),
    }
}

// Adds what the exchange by the rule at place `n` yields, if it is legal and not listed; returns false if there is no
// room for it.
fn add_neighbour(
    program: &Program,
    findings: &mut Findings,
    entries: &mut Entries,
    from: u32,
    plan: &Plan,
    at: u32,
    n: usize,
    limit: u32,
) -> Result<bool, OutOfMemory>
    requires some { 1 ≤ limit }
    requires entry { IsAt entries.old from plan.now }
    requires plan { IsPlanOf program.now.functions program.now.ops plan.now }
    requires rule { n < length all_rules }
    requires findings { AreFindings program.now findings.old }
    requires walked { IsWalked program.now limit entries.old from at n }
    ensures walked { IfOk result (GoesTo program.now limit entries.new from at (n + 1)) }
    ensures entry { OnOk result (IsAt entries.new from plan.now) }
    ensures findings { OnOk result (AreFindings program.now findings.new) }
{
    let rule = Rule::all()[n];
    let Some(by) = legal_exchange(program, findings, plan, at, rule)? else {
        return Ok(true);
    };
    entries.add(neighbour(program, plan, from, at, rule, by), limit)
}

// Adds what the exchanges yield that have the operator as the upper one.
fn add_by_rules(
    program: &Program,
    findings: &mut Findings,
    entries: &mut Entries,
    from: u32,
    plan: &Plan,
    at: u32,
    limit: u32,
) -> Result<bool, OutOfMemory>
    requires some { 1 ≤ limit }
    requires entry { IsAt entries.old from plan.now }
    requires plan { IsPlanOf program.now.functions program.now.ops plan.now }
    requires findings { AreFindings program.now findings.old }
    requires walked { IsWalked program.now limit entries.old from at 0 }
    ensures walked { IfOk result (GoesTo program.now limit entries.new from (at + 1) 0) }
    ensures entry { OnOk result (IsAt entries.new from plan.now) }
    ensures findings { OnOk result (AreFindings program.now findings.new) }
{
    for n in 0..Rule::all().len() {
        if !add_neighbour(program, findings, entries, from, plan, at, n, limit)? {
            return Ok(false);
        }
    }
    Ok(true)
}

// Adds what all exchanges of an entry's plan yield.
fn add_neighbours(
    program: &Program,
    findings: &mut Findings,
    entries: &mut Entries,
    from: u32,
    limit: u32,
) -> Result<bool, OutOfMemory>
    requires some { 1 ≤ limit }
    requires within { from < length entries.old }
    requires findings { AreFindings program.now findings.old }
    requires walked { IsWalked program.now limit entries.old from 0 0 }
    ensures walked { IfOk result (GoesTo program.now limit entries.new (from + 1) 0 0) }
    ensures within { OnOk result (from < length entries.new) }
    ensures findings { OnOk result (AreFindings program.now findings.new) }
{
    // `fields` makes it known that the program follows every rule.
    let _fields = program.fields();
    let plan = entries.at(from as usize).plan;
    // `root` makes it known that the numbers of a plan are below `MAX_NODES`.
    let _root = plan.root();
    for at in 0..MAX_NODES as u32 {
        if !add_by_rules(program, findings, entries, from, &plan, at, limit)? {
            return Ok(false);
        }
    }
    Ok(true)
}

// Adds what the exchanges of every entry yield, including entries added on the way; returns false if there is no room
// for one.
fn walk(
    program: &Program,
    findings: &mut Findings,
    entries: &mut Entries,
    limit: u32,
) -> Result<bool, OutOfMemory>
    requires some { 1 ≤ limit }
    requires few { limit ≤ entry_limit }
    requires findings { AreFindings program.now findings.old }
    requires begun { IsWalked program.now limit entries.old 0 0 0 }
    ensures walked { IfOk result (GoesTo program.now limit entries.new (length entries.new) 0 0) }
    ensures findings { OnOk result (AreFindings program.now findings.new) }
{
    let mut from = 0;
    while (from as usize) < entries.len() {
        if !add_neighbours(program, findings, entries, from, limit)? {
            return Ok(false);
        }
        from += 1;
    }
    Ok(true)
}

// The list that begins with the plan as written.
pub(crate) fn list_plans(
    alloc: Global,
    program: &Program,
    limit: u32,
    findings: &mut Findings,
) -> Result<Listed, OutOfMemory>
    requires some { 1 ≤ limit }
    requires few { limit ≤ entry_limit }
    requires findings { AreFindings program.now findings.old }
    ensures listing { IfOk result (IsListing program.now limit) }
    ensures findings { OnOk result (AreFindings program.now findings.new) }
{
    let mut entries = Entries::of(alloc, *program.plan())?;
    let complete = walk(program, findings, &mut entries, limit)?;
    Ok(Listed::of(entries, complete))
}

/// The plans that legal exchanges lead to from the plan as written, at most `limit` of them; the limit is from 1 to
/// 1,000. Out of memory is the only error. Memory is taken for entries that are made, not for `limit` of them. Time
/// grows with the plans, and for each with the exchanges that have a place there. An operator is analysed once for each
/// context that it has in them; the findings are kept in separate memory until the list is made.
pub fn enumerate(alloc: Global, program: &Program, limit: u32) -> Result<Listed, OutOfMemory>
    requires some { 1 ≤ limit }
    requires few { limit ≤ entry_limit }
    ensures listing { IfOk result (IsListing program.now limit) }
    ensures only { IfOk result (λ l. (other : ListedPlans) → IsListing program.now limit other → l ≡ other) }
    ensures incomplete { IfOk result (λ l. (l.complete ≡ false) ↔ ((length l.entries ≡ limit) × IsOpen program.now l.entries)) }
    ensures complete { IfOk result (λ l. l.complete ≡ true → (t : PlanTree) → IsListed t l.entries ↔ Reach program.now t) }
    ensures reached { IfOk result (λ l. (t : PlanTree) → IsListed t l.entries → Reach program.now t) }
    ensures answers { IfOk result (λ l. (t : PlanTree) → IsListed t l.entries → KeepAnswers program.now program.now.plan t) }
    ensures plans { IfOk result (λ l. (t : PlanTree) → IsListed t l.entries → IsPlanOf program.now.functions program.now.ops t) }
{
    // `fields` makes it known that the program follows every rule.
    let _fields = program.fields();
    let mut findings = Findings::new(alloc);
    list_plans(alloc, program, limit, &mut findings)
}
