//! Where records are placed.

ghost use Rattle.std.specs.Prelude.{◌≡◌};
ghost use Rattle.std.specs.List.{list_all, list_any};
ghost use Rattle.pact_record.specs.FieldSets.{has_field};
ghost use Rattle.pact_record.specs.Keys.{is_listed};
ghost use Rattle.ship_strategy.specs.Ships as ships;
ghost use Rattle.ship_strategy.specs.Views.{known_of};

use crate::tables::OpFacts;
use pact_operators::{OpKind, Ship};
use pact_record::{Fields, Keys};

fn meets(bad: Fields, keys: &Keys) -> bool
    ensures { result ≡ list_any (has_field bad) keys.now }
{
    for n in 0..keys.len() {
        if bad.has(keys.at(n)) {
            return true;
        }
    }
    false
}

fn are_listed(keys: &Keys, fields: &Keys) -> bool
    ensures { result ≡ list_all (is_listed keys.now) fields.now }
{
    let among = keys.fields();
    for n in 0..fields.len() {
        if !among.has(fields.at(n)) {
            return false;
        }
    }
    true
}

fn same_keys(one: &Keys, other: &Keys) -> bool
    ensures { result ≡ ships.same_keys one.now other.now }
{
    if one.len() != other.len() {
        return false;
    }
    for n in 0..one.len() {
        if one.at(n) != other.at(n) {
            return false;
        }
    }
    true
}

/// Whether the edge has a placement, all of whose fields are among the keys.
pub(crate) fn is_within(keys: &Keys, edge: &Option<Keys>) -> bool
    ensures { result ≡ ships.is_within keys.now edge.now }
{
    match edge {
        None => false,
        Some(fields) => are_listed(keys, fields),
    }
}

/// Whether the edge's placement is exactly the keys.
pub(crate) fn is_exactly(keys: &Keys, edge: &Option<Keys>) -> bool
    ensures { result ≡ ships.is_exactly keys.now edge.now }
{
    match edge {
        None => false,
        Some(fields) => same_keys(fields, keys),
    }
}

// A placement, if none of its fields is in the set.
fn passed(bad: Fields, edge: Option<Keys>) -> Option<Keys>
    ensures { result ≡ ships.passed (has_field bad) edge }
{
    match edge {
        None => None,
        Some(keys) => { if meets(bad, &keys) { None } else { Some(keys) } }
    }
}

fn first_of_both(one: Option<Keys>, other: Option<Keys>) -> Option<Keys>
    ensures { result ≡ ships.first_of_both one other }
{
    match one {
        None => other,
        Some(keys) => Some(keys),
    }
}

/// The placement of an edge, from that of the operator that it leaves.
pub(crate) fn edge_placement(ship: &Ship, below: &Option<Keys>) -> Option<Keys>
    ensures { result ≡ ships.edge_placement ship.now below.now }
{
    match ship {
        Ship::Forward => *below,
        Ship::Partition(keys) => Some(*keys),
        Ship::Broadcast => None,
    }
}

pub(crate) fn is_broadcast(ship: &Ship) -> bool
    ensures { result ≡ ships.is_broadcast ship.now }
{
    matches!(ship, Ship::Broadcast)
}

fn placement_over(kind: OpKind, writes: Fields, edge: Option<Keys>) -> Option<Keys>
    ensures { result ≡ ships.placement_over kind (has_field writes) edge }
{
    match kind {
        OpKind::Map | OpKind::Reduce => passed(writes, edge),
        _ => None,
    }
}

// The placement of an operator that pairs each record of a side that goes everywhere with the records of the other
// side.
fn placement_paired(
    x: &OpFacts,
    left_all: bool,
    right_all: bool,
    left_edge: Option<Keys>,
    right_edge: Option<Keys>,
    by_key: Option<Keys>,
) -> Option<Keys>
    ensures { result ≡ ships.placement_paired (has_field x.now.writes) (has_field x.now.left) (has_field x.now.right) left_all right_all left_edge right_edge by_key }
{
    if left_all {
        return passed(x.writes.union(x.left), right_edge);
    }
    if right_all {
        return passed(x.writes.union(x.right), left_edge);
    }
    by_key
}

// The placement of an operator with both sides by key.
fn placement_of_keys(x: &OpFacts) -> Option<Keys>
    ensures { result ≡ ships.placement_of_keys (has_field x.now.writes) (has_field x.now.left) (has_field x.now.right) x.now.left_keys x.now.right_keys }
{
    let left = passed(x.writes.union(x.right), Some(x.left_keys));
    let right = passed(x.writes.union(x.left), Some(x.right_keys));
    first_of_both(left, right)
}

fn where_so(so: bool, keys: Keys) -> Option<Keys>
    ensures { result ≡ ships.where_so so keys }
{
    if so { Some(keys) } else { None }
}

// The placement of a CoGroup.
fn placement_anchored(x: &OpFacts) -> Option<Keys>
    ensures { result ≡ ships.placement_anchored (has_field x.now.writes) x.now.anchor_left x.now.anchor_right x.now.left_keys x.now.right_keys }
{
    let left = passed(x.writes, where_so(x.anchor_left, x.left_keys));
    let right = passed(x.writes, where_so(x.anchor_right, x.right_keys));
    first_of_both(left, right)
}

fn placement_both(
    x: &OpFacts,
    left_all: bool,
    right_all: bool,
    left_edge: Option<Keys>,
    right_edge: Option<Keys>,
) -> Option<Keys>
    ensures { result ≡ ships.placement_both x.now.kind (known_of x.now) left_all right_all left_edge right_edge }
{
    match x.kind {
        OpKind::Match => {
            if left_all || right_all {
                placement_paired(x, left_all, right_all, left_edge, right_edge, None)
            } else {
                placement_of_keys(x)
            }
        }
        OpKind::Cross => placement_paired(x, left_all, right_all, left_edge, right_edge, None),
        OpKind::CoGroup => placement_anchored(x),
        _ => None,
    }
}

/// The placement of what an operator of one input emits, from its edge's ship and the placement below.
pub fn placed_over(x: &OpFacts, ship: &Ship, below: &Option<Keys>) -> Option<Keys>
    ensures { result ≡ ships.placed_over (known_of x.now) ship.now below.now }
{
    placement_over(x.kind, x.writes, edge_placement(ship, below))
}

/// The placement of what an operator of two inputs emits.
pub fn placed_both(
    x: &OpFacts,
    left_ship: &Ship,
    right_ship: &Ship,
    left: &Option<Keys>,
    right: &Option<Keys>,
) -> Option<Keys>
    ensures { result ≡ ships.placed_both (known_of x.now) left_ship.now right_ship.now left.now right.now }
{
    let left_all = is_broadcast(left_ship);
    let right_all = is_broadcast(right_ship);
    let left_edge = edge_placement(left_ship, left);
    let right_edge = edge_placement(right_ship, right);
    placement_both(x, left_all, right_all, left_edge, right_edge)
}
