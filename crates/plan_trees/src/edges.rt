//! The edges of a physical plan, by the trees that they leave.

ghost use Rattle.std.specs.Prelude.{◌≡◌, ◌≢◌, true};
ghost use Rattle.plan_trees.specs.Plans.{has, root_of};
ghost use Rattle.plan_trees.specs.Physicals.{ship_of};
ghost use Rattle.plan_trees.specs.PlanParts.{parts_of};
ghost use Rattle.plan_trees.specs.Edges.{AreInner, EdgesLieIn};

use crate::physicals::{Physical, Ship};
use crate::plans::{Parts, Plan};

/// The root of a tree and the plans of its inputs. Their edges are in the physical plan if the tree's own are.
pub fn parts_within(physical: &Physical, tree: &Plan) -> Parts
    requires { EdgesLieIn tree.now physical.now.tree }
    ensures parts { result ≡ parts_of tree.now }
    ensures inner { AreInner physical.now.tree tree.now result }
{
    tree.parts()
}

/// How the records of an input's root go to its consumer.
pub fn ship_below(physical: &Physical, input: &Plan) -> Ship
    requires has { has (root_of input.now) physical.now.tree ≡ true }
    requires edge { root_of input.now ≢ root_of physical.now.tree }
    ensures { result ≡ ship_of physical.now input.now }
{
    match physical.ship(input.root()) {
        Some(ship) => ship,
        None => Ship::Forward,
    }
}
