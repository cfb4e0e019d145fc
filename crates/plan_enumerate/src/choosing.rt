//! Which plan, with which layout, is expected to cost least.

ghost use Rattle.std.specs.Prelude.{◌≡◌, ◌≢◌, ◌≤◌, ◌<◌, ◌+◌, ℕ, List, Some, length, slice_get};
ghost use Rattle.plan_trees.specs.Physicals.{worker_limit};
ghost use Rattle.plan_trees.specs.Plans.{PlanTree, node_limit};
ghost use Rattle.pact_operators.specs.Programs.{IsPlanOf, ProgramData};
ghost use Rattle.ship_strategy.specs.Facts.{Facts};
ghost use Rattle.ship_strategy.specs.Layouts.{layout_count, ways_of};
ghost use Rattle.ship_strategy.specs.PlanFacts.{facts_of};
ghost use Rattle.ship_strategy.specs.EarlierFindings.{AreTrueFindings};
ghost use Rattle.ship_strategy.specs.Views.{facts_in, ways_in};
ghost use Rattle.plan_enumerate.specs.Choices.{IsChosen, layout_cost, pair_cost};
ghost use Rattle.plan_enumerate.specs.KnownPlans.{AreKnownPlans};
ghost use Rattle.plan_enumerate.specs.Leasts.{IsLeastBelow, IsLeastPair};
ghost use Rattle.plan_enumerate.specs.Listing.{IsListed, plans_of};
ghost use Rattle.plan_enumerate.specs.RowsOfPlans.{AreWeighed, Holds};
ghost use Rattle.plan_enumerate.specs.Weights.{weighed};
ghost use Rattle.plan_enumerate.specs.declared.plan_rows.Row as row;

use crate::entries::Entries;
use crate::known_plans::KnownPlans;
use crate::listings::Listed;
use crate::plan_rows::{Rows, rows_of};
use crate::weights::{Weight, row_weight, source_weight};
use pact_bag::Counts;
use pact_operators::{MAX_NODES, Op, Plan, Program};
use ship_strategy::{EarlierFindings, Table, Ways, chosen, known_after, layouts};

/// Which listed plan and which of its layouts is chosen, and what it is expected to cost.
#[derive(Clone, Copy, Debug, PartialEq, Eq)]
pub struct Chosen {
    /// The number of the plan's entry.
    pub entry: u32,
    /// The number of the layout among those of the plan.
    pub layout: u32,
    pub cost: u64,
}

// A layout of a plan, and what it costs.
#[derive(Clone, Copy)]
struct Least {
    layout: u32,
    cost: u64,
}

// The first row whose operator's way has changed, or the number of rows if none has.
fn first_changed(rows: &Rows, old: &Ways, new: &Ways) -> u32
    requires few { rows.now.count ≤ node_limit }
    ensures within { result ≤ rows.now.count }
    ensures same { (k : ℕ) (x : row.Row) → k < result → slice_get rows.now.held k ≡ Some x → ways_in old.now x.at ≡ ways_in new.now x.at }
    ensures changed { (x : row.Row) → result < rows.now.count → slice_get rows.now.held result ≡ Some x → ways_in old.now x.at ≢ ways_in new.now x.at }
{
    for n in 0..rows.count {
        let at = rows.held[n as usize].at;
        if old.at(at) != new.at(at) {
            return n;
        }
    }
    rows.count
}

// Weighs the rows from `first` on; those before it are weighed already.
fn weigh_from(rows: &Rows, ways: &Ways, workers: u32, first: u32, weights: &mut [Weight; MAX_NODES])
    requires few { rows.now.count ≤ node_limit }
    requires within { first ≤ rows.now.count }
    ensures { (p : ProgramData) (counts : List ℕ) (f : Facts) → AreWeighed p counts workers f (ways_in ways.now) rows.now.held weights.old first
        → AreWeighed p counts workers f (ways_in ways.now) rows.now.held weights.new rows.now.count }
{
    for n in first..rows.count {
        weights[n as usize] = row_weight(&rows.held[n as usize], ways, workers, weights);
    }
}

// Weighs again all rows from the first whose operator's way has changed.
fn weigh_again(rows: &Rows, old: &Ways, new: &Ways, workers: u32, weights: &mut [Weight; MAX_NODES])
    requires few { rows.now.count ≤ node_limit }
    ensures { (p : ProgramData) (counts : List ℕ) (f : Facts) → AreWeighed p counts workers f (ways_in old.now) rows.now.held weights.old rows.now.count
        → AreWeighed p counts workers f (ways_in new.now) rows.now.held weights.new rows.now.count }
{
    let first = first_changed(rows, old, new);
    weigh_from(rows, new, workers, first, weights);
}

// The first layout that costs least, of those with numbers below `count`, for the plan in the rows.
fn cheapest_in(rows: &Rows, ops: &[Op], workers: u32, count: u32) -> Least
    requires rows { (1 ≤ rows.now.count) × (rows.now.count ≤ node_limit) }
    requires few { length ops.now ≤ node_limit }
    requires some { 1 ≤ count }
    ensures { (p : ProgramData) (counts : List ℕ) (f : Facts) (t : PlanTree) (root : ℕ) → rows.now.count ≡ root + 1 → Holds p counts f rows.now.held root t
        → IsLeastBelow (λ k. (weighed p counts workers f (ways_of ops.now k) t).cost) count result.layout result.cost }
{
    let root = rows.count as usize - 1;
    let mut ways = chosen(ops, 0);
    let mut weights = [source_weight(); MAX_NODES];
    weigh_from(rows, &ways, workers, 0, &mut weights);
    let mut least = Least {
        layout: 0,
        cost: weights[root].cost,
    };
    for number in 1..count {
        let next = chosen(ops, number);
        weigh_again(rows, &ways, &next, workers, &mut weights);
        ways = next;
        let cost = weights[root].cost;
        if cost < least.cost {
            least = Least {
                layout: number,
                cost,
            };
        }
    }
    least
}

// The first of a plan's layouts that cost least; the table has what is known of its operators.
fn cheapest(program: &Program, plan: &Plan, table: &Table, counts: &Counts, workers: u32) -> Least
    requires of { IsPlanOf program.now.functions program.now.ops plan.now }
    requires workers { (1 ≤ workers) × (workers ≤ worker_limit) }
    requires table { facts_in table.now ≡ facts_of program.now plan.now }
    ensures { IsLeastBelow (layout_cost program.now counts.now workers plan.now) (layout_count program.now.ops) result.layout result.cost }
{
    // `root` makes it known that the numbers of a plan are below `MAX_NODES`.
    let _root = plan.root();
    let rows = rows_of(program, counts, table, plan);
    cheapest_in(&rows, program.ops(), workers, layouts(program, plan))
}

// The cheapest layout of an entry's plan, with a table made from what was seen of earlier plans.
fn cheapest_seen(
    program: &Program,
    entries: &Entries,
    entry: usize,
    counts: &Counts,
    workers: u32,
    seen: &mut EarlierFindings,
) -> Least
    requires within { entry < length entries.now }
    requires of { (t : PlanTree) → IsListed t entries.now → IsPlanOf program.now.functions program.now.ops t }
    requires workers { (1 ≤ workers) × (workers ≤ worker_limit) }
    requires seen { AreTrueFindings program.now seen.old.tables }
    ensures seen { AreTrueFindings program.now seen.new.tables }
    ensures least { IsLeastBelow (pair_cost program.now (plans_of entries.now) counts.now workers entry) (layout_count program.now.ops) result.layout result.cost }
{
    let plan = entries.at(entry).plan;
    let table = known_after(program, &plan, seen);
    cheapest(program, &plan, &table, counts, workers)
}

// The cheapest layout of an entry's plan, with the table made for it.
fn cheapest_known(
    program: &Program,
    entries: &Entries,
    entry: usize,
    known: &KnownPlans,
    counts: &Counts,
    workers: u32,
) -> Least
    requires within { entry < length entries.now }
    requires of { (t : PlanTree) → IsListed t entries.now → IsPlanOf program.now.functions program.now.ops t }
    requires workers { (1 ≤ workers) × (workers ≤ worker_limit) }
    requires known { AreKnownPlans program.now (plans_of entries.now) known.now }
    ensures { IsLeastBelow (pair_cost program.now (plans_of entries.now) counts.now workers entry) (layout_count program.now.ops) result.layout result.cost }
{
    let plan = entries.at(entry).plan;
    cheapest(program, &plan, known.table(entry), counts, workers)
}

// The choice among the entries up to and including this one, whose cheapest layout is `least`.
fn cheaper(chosen: Chosen, entry: u32, least: Least) -> Chosen
    ensures { (c : ℕ → ℕ → ℕ) (n : ℕ) → IsLeastPair c entry n chosen.entry chosen.layout chosen.cost → IsLeastBelow (c entry) n least.layout least.cost
        → IsLeastPair c (entry + 1) n result.entry result.layout result.cost }
{
    if least.cost < chosen.cost {
        return Chosen {
            entry,
            layout: least.layout,
            cost: least.cost,
        };
    }
    chosen
}

/// The first pair of a listed plan and one of its layouts that is expected to cost least. Pairs are ordered by entry,
/// then by layout. `counts` has each source's number of rows at the source's number. It takes no memory: it keeps what
/// is known of operators on the stack, for the last plans only. Time grows with the plans times their layouts, of which
/// there are at most 6,561 each. A caller that chooses more than once uses `choose_known`.
pub fn choose(program: &Program, listed: &Listed, counts: &Counts, workers: u32) -> Chosen
    requires of { (t : PlanTree) → IsListed t listed.now.entries → IsPlanOf program.now.functions program.now.ops t }
    requires workers { (1 ≤ workers) × (workers ≤ worker_limit) }
    ensures { IsChosen program.now (plans_of listed.now.entries) counts.now workers result }
{
    let entries = listed.entries();
    let mut seen = EarlierFindings::nothing();
    let first = cheapest_seen(program, entries, 0, counts, workers, &mut seen);
    let mut chosen = Chosen {
        entry: 0,
        layout: first.layout,
        cost: first.cost,
    };
    for entry in 1..entries.len() {
        let least = cheapest_seen(program, entries, entry, counts, workers, &mut seen);
        chosen = cheaper(chosen, entry as u32, least);
    }
    chosen
}

/// The same pair as `choose` returns; `known` has what is known of the listed plans. It takes no memory and analyses no
/// function.
pub fn choose_known(
    program: &Program,
    listed: &Listed,
    known: &KnownPlans,
    counts: &Counts,
    workers: u32,
) -> Chosen
    requires of { (t : PlanTree) → IsListed t listed.now.entries → IsPlanOf program.now.functions program.now.ops t }
    requires workers { (1 ≤ workers) × (workers ≤ worker_limit) }
    requires known { AreKnownPlans program.now (plans_of listed.now.entries) known.now }
    ensures { IsChosen program.now (plans_of listed.now.entries) counts.now workers result }
{
    let entries = listed.entries();
    let first = cheapest_known(program, entries, 0, known, counts, workers);
    let mut chosen = Chosen {
        entry: 0,
        layout: first.layout,
        cost: first.cost,
    };
    for entry in 1..entries.len() {
        let least = cheapest_known(program, entries, entry, known, counts, workers);
        chosen = cheaper(chosen, entry as u32, least);
    }
    chosen
}
