//! The layouts of a plan.

ghost use Rattle.std.specs.Prelude.{◌≡◌, ◌≤◌, ◌<◌, ℕ, List, length};
ghost use Rattle.plan_trees.specs.Physicals.{worker_limit};
ghost use Rattle.plan_trees.specs.Plans.{node_limit};
ghost use Rattle.pact_operators.specs.Allowed.{Bag, Counted};
ghost use Rattle.pact_operators.specs.Divided.{IsDivided, Shares};
ghost use Rattle.pact_operators.specs.Inputs.{AreInputsOf};
ghost use Rattle.pact_operators.specs.PlanOps.{plan_ops};
ghost use Rattle.pact_operators.specs.Programs.{IsPlanOf};
ghost use Rattle.ship_strategy.specs.Layouts.{AreChoices, IsLaidOut, choices, layout_count, layout_of, place_of, ways_of};
ghost use Rattle.ship_strategy.specs.Meets.{AllGaveShares, AllMeet};
ghost use Rattle.ship_strategy.specs.PlanFacts.{facts_of};
ghost use Rattle.ship_strategy.specs.Ships.{LegalShip};
ghost use Rattle.ship_strategy.specs.Views.{facts_in};

use crate::knowing::known;
use crate::laying::lay;
use crate::numbering::{chosen, count};
use crate::tables::Table;
use pact_operators::{Op, Physical, Plan, Program};

/// How many layouts the plan has: as many as there are lists of choices, one for each operator.
pub fn layouts(program: &Program, plan: &Plan) -> u32
    requires { IsPlanOf program.now.functions program.now.ops plan.now }
    ensures value { result ≡ layout_count program.now.ops }
    ensures few { result ≤ 6561 }
    ensures some { 1 ≤ result }
    ensures each { (cs : List ℕ) → AreChoices program.now.ops cs → (place_of program.now.ops cs < result) × (choices program.now.ops (place_of program.now.ops cs) ≡ cs) }
{
    // `plan` isn't used: a plan of a program has the program's operators, so it has their choices
    let _ = plan;
    count(program.ops())
}

/// The layout with a number; the table has what is known of the plan's operators.
pub fn layout_in(table: &Table, ops: &[Op], plan: &Plan, number: u32, workers: u32) -> Physical
    requires workers { (1 ≤ workers) × (workers ≤ worker_limit) }
    requires few { length ops.now ≤ node_limit }
    ensures { result ≡ layout_of (facts_in table.now) ops.now plan.now number workers }
{
    let ways = chosen(ops, number);
    let mut physical = Physical::forward(*plan, workers);
    lay(table, &ways, plan, &mut physical);
    physical
}

/// The layout that `layout` returns; the table has what is known of the plan's operators. It analyses no function.
pub fn layout_known(
    program: &Program,
    plan: &Plan,
    table: &Table,
    number: u32,
    workers: u32,
) -> Physical
    requires of { IsPlanOf program.now.functions program.now.ops plan.now }
    requires number { number < layout_count program.now.ops }
    requires workers { (1 ≤ workers) × (workers ≤ worker_limit) }
    requires table { facts_in table.now ≡ facts_of program.now plan.now }
    ensures value { result ≡ layout_of (facts_of program.now plan.now) program.now.ops plan.now number workers }
    ensures tree { result.tree ≡ plan.now }
    ensures legal { LegalShip (facts_of program.now result.tree) result }
    ensures ships { IsLaidOut (facts_of program.now plan.now) (ways_of program.now.ops number) result plan.now }
    ensures meets { (inputs : List Bag) → AreInputsOf program.now inputs → (gave : Shares) → AllGaveShares (plan_ops program.now inputs) result gave → AllMeet (plan_ops program.now inputs) result gave }
    ensures counted { (inputs : List Bag) → AreInputsOf program.now inputs → (rows : Bag) (counts : List ℕ)
        → IsDivided (plan_ops program.now inputs) result rows counts → Counted (plan_ops program.now inputs) result.tree rows counts }
    ensures runs { (inputs : List Bag) → (rows : Bag) × (counts : List ℕ) × IsDivided (plan_ops program.now inputs) result rows counts }
    ensures place { AreChoices program.now.ops (choices program.now.ops number) × (place_of program.now.ops (choices program.now.ops number) ≡ number) }
{
    // `root` makes it known that the tree is a plan
    let _root = plan.root();
    layout_in(table, program.ops(), plan, number, workers)
}

/// The layout with a number, for this number of workers. Layouts are numbered from 0 in the order of their lists of
/// choices; the last operator's choice varies fastest. The choices of a Match are, in order: by key, its left side
/// everywhere, its right side everywhere. Those of a Cross are its left side everywhere, its right side everywhere.
pub fn layout(program: &Program, plan: &Plan, number: u32, workers: u32) -> Physical
    requires of { IsPlanOf program.now.functions program.now.ops plan.now }
    requires number { number < layout_count program.now.ops }
    requires workers { (1 ≤ workers) × (workers ≤ worker_limit) }
    ensures value { result ≡ layout_of (facts_of program.now plan.now) program.now.ops plan.now number workers }
    ensures tree { result.tree ≡ plan.now }
    ensures legal { LegalShip (facts_of program.now result.tree) result }
    ensures ships { IsLaidOut (facts_of program.now plan.now) (ways_of program.now.ops number) result plan.now }
    ensures meets { (inputs : List Bag) → AreInputsOf program.now inputs → (gave : Shares) → AllGaveShares (plan_ops program.now inputs) result gave → AllMeet (plan_ops program.now inputs) result gave }
    ensures counted { (inputs : List Bag) → AreInputsOf program.now inputs → (rows : Bag) (counts : List ℕ)
        → IsDivided (plan_ops program.now inputs) result rows counts → Counted (plan_ops program.now inputs) result.tree rows counts }
    ensures runs { (inputs : List Bag) → (rows : Bag) × (counts : List ℕ) × IsDivided (plan_ops program.now inputs) result rows counts }
    ensures place { AreChoices program.now.ops (choices program.now.ops number) × (place_of program.now.ops (choices program.now.ops number) ≡ number) }
{
    layout_known(program, plan, &known(program, plan), number, workers)
}
