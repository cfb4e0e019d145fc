//! The ships that a layout chooses.

ghost use Rattle.std.specs.Prelude.{◌≡◌};
ghost use Rattle.ship_strategy.specs.Layouts as layouts;

use crate::placements::{is_exactly, is_within};
use crate::ways::Way;
use pact_operators::{OpKind, Ship};
use pact_record::Keys;

fn ship_by_key(keys: &Keys, below: &Option<Keys>) -> Ship
    ensures { result ≡ layouts.ship_by_key keys.now below.now }
{
    if is_exactly(keys, below) {
        Ship::Forward
    } else {
        Ship::Partition(*keys)
    }
}

/// The ship of the left edge of an operator of two inputs, by its way, its left keys and the placement below.
pub fn left_ship(way: Way, keys: &Keys, below: &Option<Keys>) -> Ship
    ensures { result ≡ layouts.left_ship way keys.now below.now }
{
    match way {
        Way::ByKey => ship_by_key(keys, below),
        Way::LeftEverywhere => Ship::Broadcast,
        Way::RightEverywhere => Ship::Forward,
    }
}

/// The ship of the right edge, by its right keys.
pub fn right_ship(way: Way, keys: &Keys, below: &Option<Keys>) -> Ship
    ensures { result ≡ layouts.right_ship way keys.now below.now }
{
    match way {
        Way::ByKey => ship_by_key(keys, below),
        Way::LeftEverywhere => Ship::Forward,
        Way::RightEverywhere => Ship::Broadcast,
    }
}

/// The ship of the edge of an operator of one input.
pub fn only_ship(kind: OpKind, keys: &Keys, below: &Option<Keys>) -> Ship
    ensures { result ≡ layouts.only_ship kind keys.now below.now }
{
    match kind {
        OpKind::Reduce => {
            if is_within(keys, below) {
                Ship::Forward
            } else {
                Ship::Partition(*keys)
            }
        }
        _ => Ship::Forward,
    }
}
