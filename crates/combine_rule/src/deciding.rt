//! Which functions may be split.

ghost use Rattle.std.specs.Prelude.{◌≡◌, ◌↔◌, true, IsTrue};
ghost use Rattle.pact_record.specs.FieldSets.{has_field};
ghost use Rattle.tac_syntax.specs.declared.functions.Kind.TheVariants.{Reduce};
ghost use Rattle.tac_syntax.specs.Valid.{IsValid};
ghost use Rattle.combine_rule.specs.Combinable.{IsCombinable};
ghost use Rattle.combine_rule.specs.Pieces as specs;
ghost use Rattle.combine_rule.specs.Tests.{HalvesPass};

use crate::pieces::{has_one_loop, split};
use crate::room::{has_room, keys_pass, pieces_pass};
use crate::slots::spare_register;
use order_free::order_test;
use pact_record::{Fields, Keys};
use tac_syntax::{Function, Kind, Valid};

// Whether the sender and the merger of a function with one loop may replace it, for a Reduce with these keys and
// attributes.
fn halves_pass(function: &Function, fields: u32, keys: &Keys, attributes: Fields) -> bool
    requires valid { IsValid function.now fields }
    requires kind { function.now.kind ≡ Reduce }
    requires one_loop { specs.has_one_loop function.now.body ≡ true }
    ensures { IsTrue result ↔ HalvesPass function.now fields keys.now (has_field attributes) }
{
    let Some(_register) = spare_register(&function.body) else {
        return false;
    };
    let Some(p) = split(&function.body) else {
        unreachable!()
    };
    if !pieces_pass(&p, fields, attributes) {
        return false;
    }
    if !keys_pass(keys, function.keys, fields, attributes) {
        return false;
    }
    has_room(&p, fields, keys, attributes)
}

/// Whether a Reduce with these keys, over records with these attributes, may have partial groups made from its groups
/// before they are shipped.
pub fn combinable(f: &Valid, keys: &Keys, attributes: Fields) -> bool
    ensures { IsTrue result ↔ IsCombinable f.now.function f.now.fields keys.now (has_field attributes) }
{
    let function = f.function();
    if function.kind != Kind::Reduce {
        return false;
    }
    if !order_test(f) {
        return false;
    }
    if !has_one_loop(&function.body) {
        return false;
    }
    halves_pass(function, f.fields(), keys, attributes)
}
