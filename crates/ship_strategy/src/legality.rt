//! Whether a physical plan's ships are legal.

ghost use Rattle.std.specs.Prelude.{◌≡◌, ◌&&◌, ◌↔◌, ℕ, IsTrue, List};
ghost use Rattle.plan_trees.specs.Edges.{EdgesLieIn};
ghost use Rattle.pact_operators.specs.Allowed.{Bag, Counted};
ghost use Rattle.pact_operators.specs.Divided.{IsDivided, Shares};
ghost use Rattle.pact_operators.specs.Inputs.{AreInputsOf};
ghost use Rattle.pact_operators.specs.PlanOps.{plan_ops};
ghost use Rattle.pact_operators.specs.Programs.{IsPlanOf};
ghost use Rattle.ship_strategy.specs.Meets.{AllGaveShares, AllMeet};
ghost use Rattle.ship_strategy.specs.PlanFacts.{facts_of};
ghost use Rattle.ship_strategy.specs.Ships as ships;
ghost use Rattle.ship_strategy.specs.Ships.{LegalShip, is_legal};
ghost use Rattle.ship_strategy.specs.Views.{facts_in, known_of};

use crate::knowing::known;
use crate::placements::{
    edge_placement, is_broadcast, is_exactly, is_within, placed_both, placed_over,
};
use crate::tables::{OpFacts, Table};
use pact_operators::{OpKind, Parts, Physical, Plan, Program, Ship};
use pact_record::Keys;
use plan_trees::{parts_within, ship_below};

// Where the records of a tree's root are, and whether every edge of the tree is legal.
#[derive(Clone, Copy)]
struct CheckedEdges {
    placement: Option<Keys>,
    legal: bool,
}

fn legal_over(kind: OpKind, keys: &Keys, all: bool, edge: &Option<Keys>) -> bool
    ensures { result ≡ ships.legal_over kind keys.now all edge.now }
{
    match kind {
        OpKind::Map => !all,
        OpKind::Reduce => is_within(keys, edge),
        _ => false,
    }
}

fn goes_everywhere(left_all: bool, right_all: bool) -> bool
    ensures { result ≡ ships.goes_everywhere left_all right_all }
{
    if left_all { !right_all } else { right_all }
}

fn are_by_key(x: &OpFacts, left_edge: &Option<Keys>, right_edge: &Option<Keys>) -> bool
    ensures { result ≡ ships.are_by_key x.now.left_keys x.now.right_keys left_edge.now right_edge.now }
{
    is_exactly(&x.left_keys, left_edge) && is_exactly(&x.right_keys, right_edge)
}

fn legal_both(
    x: &OpFacts,
    left_all: bool,
    right_all: bool,
    left_edge: &Option<Keys>,
    right_edge: &Option<Keys>,
) -> bool
    ensures { result ≡ ships.legal_both x.now.kind x.now.left_keys x.now.right_keys left_all right_all left_edge.now right_edge.now }
{
    match x.kind {
        OpKind::Match => {
            are_by_key(x, left_edge, right_edge) || goes_everywhere(left_all, right_all)
        }
        OpKind::Cross => goes_everywhere(left_all, right_all),
        OpKind::CoGroup => are_by_key(x, left_edge, right_edge),
        _ => false,
    }
}

fn allows_over(x: &OpFacts, ship: &Ship, below: &Option<Keys>) -> bool
    ensures { result ≡ ships.allows_over (known_of x.now) ship.now below.now }
{
    legal_over(
        x.kind,
        &x.left_keys,
        is_broadcast(ship),
        &edge_placement(ship, below),
    )
}

fn allows_both(
    x: &OpFacts,
    left_ship: &Ship,
    right_ship: &Ship,
    left: &Option<Keys>,
    right: &Option<Keys>,
) -> bool
    ensures { result ≡ ships.allows_both (known_of x.now) left_ship.now right_ship.now left.now right.now }
{
    let left_edge = edge_placement(left_ship, left);
    let right_edge = edge_placement(right_ship, right);
    legal_both(
        x,
        is_broadcast(left_ship),
        is_broadcast(right_ship),
        &left_edge,
        &right_edge,
    )
}

fn both_so(one: bool, other: bool) -> bool
    ensures { result ≡ (one && other) }
{
    one && other
}

fn check_edges(table: &Table, physical: &Physical, tree: &Plan) -> CheckedEdges
    requires { EdgesLieIn tree.now physical.now.tree }
    ensures placement { result.placement ≡ ships.placement (facts_in table.now) physical.now tree.now }
    ensures legal { result.legal ≡ is_legal (facts_in table.now) physical.now tree.now }
{
    match parts_within(physical, tree) {
        Parts::Alone { .. } => CheckedEdges {
            placement: None,
            legal: true,
        },
        Parts::OverOne { at, input } => {
            let below = check_edges(table, physical, &input);
            let ship = ship_below(physical, &input);
            let x = table.at(at);
            let allowed = allows_over(&x, &ship, &below.placement);
            CheckedEdges {
                placement: placed_over(&x, &ship, &below.placement),
                legal: both_so(allowed, below.legal),
            }
        }
        Parts::OverTwo { at, left, right } => {
            let on_left = check_edges(table, physical, &left);
            let on_right = check_edges(table, physical, &right);
            let left_ship = ship_below(physical, &left);
            let right_ship = ship_below(physical, &right);
            let x = table.at(at);
            let allowed = allows_both(
                &x,
                &left_ship,
                &right_ship,
                &on_left.placement,
                &on_right.placement,
            );
            CheckedEdges {
                placement: placed_both(
                    &x,
                    &left_ship,
                    &right_ship,
                    &on_left.placement,
                    &on_right.placement,
                ),
                legal: both_so(allowed, both_so(on_left.legal, on_right.legal)),
            }
        }
    }
}

fn has_legal_edges(program: &Program, physical: &Physical) -> bool
    ensures { IsTrue result ↔ LegalShip (facts_of program.now physical.now.tree) physical.now }
{
    let table = known(program, physical.plan());
    check_edges(&table, physical, physical.plan()).legal
}

/// Whether every edge of the physical plan is legal: each operator has at one worker all records that it needs
/// together.
pub fn legal_ship(program: &Program, physical: &Physical) -> bool
    ensures legal { IsTrue result ↔ LegalShip (facts_of program.now physical.now.tree) physical.now }
    ensures meets { IsTrue result → IsPlanOf program.now.functions program.now.ops physical.now.tree → (inputs : List Bag) → AreInputsOf program.now inputs → (gave : Shares)
        → AllGaveShares (plan_ops program.now inputs) physical.now gave → AllMeet (plan_ops program.now inputs) physical.now gave }
    ensures counted { IsTrue result → IsPlanOf program.now.functions program.now.ops physical.now.tree → (inputs : List Bag) → AreInputsOf program.now inputs → (rows : Bag) (counts : List ℕ)
        → IsDivided (plan_ops program.now inputs) physical.now rows counts → Counted (plan_ops program.now inputs) physical.now.tree rows counts }
    ensures runs { IsPlanOf program.now.functions program.now.ops physical.now.tree → (inputs : List Bag)
        → (rows : Bag) × (counts : List ℕ) × IsDivided (plan_ops program.now inputs) physical.now rows counts }
{
    // `fields` makes it known that the program follows every rule, and `workers` that the physical plan does
    let _fields = program.fields();
    let _workers = physical.workers();
    has_legal_edges(program, physical)
}
