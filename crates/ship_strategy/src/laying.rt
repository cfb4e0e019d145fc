//! The ships of a layout in a physical plan.

ghost use Rattle.std.specs.Prelude.{◌≡◌, ◌≢◌, true};
ghost use Rattle.plan_trees.specs.Physicals.{with_ship};
ghost use Rattle.plan_trees.specs.Plans.{has, root_of};
ghost use Rattle.plan_trees.specs.Edges.{EdgesLieIn};
ghost use Rattle.ship_strategy.specs.Layouts as layouts;
ghost use Rattle.ship_strategy.specs.Layouts.{planned};
ghost use Rattle.ship_strategy.specs.Views.{facts_in, ways_in};

use crate::edges::{left_ship, only_ship, right_ship};
use crate::placements::{placed_both, placed_over};
use crate::tables::Table;
use crate::ways::Ways;
use pact_operators::{Parts, Physical, Plan, Ship};
use pact_record::Keys;
use plan_trees::parts_within;

// A ship that is borrowed again may not be passed by value.
fn put(physical: &mut Physical, input: &Plan, ship: &Ship)
    requires has { has (root_of input.now) physical.old.tree ≡ true }
    requires edge { root_of input.now ≢ root_of physical.old.tree }
    ensures value { physical.new ≡ with_ship physical.old (root_of input.now) ship.now }
    ensures tree { physical.new.tree ≡ physical.old.tree }
{
    physical.set_ship(input.root(), *ship);
}

/// Sets the ships of the tree's edges in the physical plan, and returns the placement of its root's records.
pub(crate) fn lay(table: &Table, ways: &Ways, tree: &Plan, physical: &mut Physical) -> Option<Keys>
    requires { EdgesLieIn tree.now physical.old.tree }
    ensures placed { result ≡ planned (facts_in table.now) (ways_in ways.now) tree.now }
    ensures laid { physical.new ≡ layouts.laid (facts_in table.now) (ways_in ways.now) tree.now physical.old }
    ensures tree { physical.new.tree ≡ physical.old.tree }
{
    match parts_within(physical, tree) {
        Parts::Alone { .. } => None,
        Parts::OverOne { at, input } => {
            let below = lay(table, ways, &input, physical);
            let x = table.at(at);
            let ship = only_ship(x.kind, &x.left_keys, &below);
            let placed = placed_over(&x, &ship, &below);
            put(physical, &input, &ship);
            placed
        }
        Parts::OverTwo { at, left, right } => {
            let left_below = lay(table, ways, &left, physical);
            let right_below = lay(table, ways, &right, physical);
            let x = table.at(at);
            let way = ways.at(at);
            let on_left = left_ship(way, &x.left_keys, &left_below);
            let on_right = right_ship(way, &x.right_keys, &right_below);
            let placed = placed_both(&x, &on_left, &on_right, &left_below, &right_below);
            put(physical, &left, &on_left);
            put(physical, &right, &on_right);
            placed
        }
    }
}
