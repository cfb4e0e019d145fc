//! The tests of the pieces of a body, of keys, and of counts.

ghost use Rattle.std.specs.Prelude.{◌≡◌, ◌↔◌, ◌≤◌, ◌<◌, ◌^◌, IsTrue, length};
ghost use Rattle.pact_record.specs.FieldSets.{has_field};
ghost use Rattle.tac_syntax.specs.Code.{count_of};
ghost use Rattle.tac_syntax.specs.Limits.{statement_limit};
ghost use Rattle.tac_syntax.specs.Trees.{code_of};
ghost use Rattle.combine_rule.specs.Tests.{HasRoom, KeysPass, PiecesPass, merger_size, sender_size};

use crate::fields::{all_inside, are_below, are_inside, count_spare};
use crate::pieces::{Pieces, has_emit};
use crate::sizes::size_of;
use crate::slots::{are_numbers, count_taken, weights};
use pact_record::{Fields, Keys};

// The most statements of a function.
const MAX_STATEMENTS: u32 = 1_000;

/// Whether the statements before the loop and those in it emit nothing and set only fields of the set, and sums start
/// as numbers.
pub(crate) fn pieces_pass(p: &Pieces<'_>, fields: u32, set: Fields) -> bool
    ensures { IsTrue result ↔ PiecesPass (code_of p.now.front.now) p.now.inner.now fields (has_field set) }
{
    !has_emit(p.front)
        && !has_emit(p.inner.stmts())
        && all_inside(p.front, fields, set)
        && all_inside(p.inner.stmts(), fields, set)
        && are_numbers(p.front, p.inner)
}

/// Whether the keys are attributes and fields of the program, and the function has at least as many key positions.
pub(crate) fn keys_pass(keys: &Keys, positions: u32, fields: u32, set: Fields) -> bool
    ensures { IsTrue result ↔ KeysPass keys.now positions fields (has_field set) }
{
    are_inside(keys, set) && are_below(keys, fields) && keys.len() <= positions
}

// The number of statements of the sender for this number of keys.
fn sender_size(p: &Pieces<'_>, keys: u32) -> u32
    requires front { count_of (code_of p.now.front.now) ≤ statement_limit }
    requires inner { count_of p.now.inner.now ≤ statement_limit }
    requires keys { keys ≤ 8 }
    ensures { result ≡ sender_size (code_of p.now.front.now) p.now.inner.now keys }
{
    size_of(p.front) + weights(p.inner) + 1 + p.inner.size() + 1 + 2 * keys + 1
}

// The number of statements of the merger.
fn merger_size(p: &Pieces<'_>) -> u32
    requires front { count_of (code_of p.now.front.now) ≤ statement_limit }
    requires rest { count_of (code_of p.now.rest.now) ≤ statement_limit }
    ensures { result ≡ merger_size (code_of p.now.front.now) p.now.inner.now (code_of p.now.rest.now) }
{
    size_of(p.front) + 1 + 2 * count_taken(p.inner) + size_of(p.rest)
}

/// Whether there is a field for each accumulator, and neither the sender nor the merger is too long.
pub(crate) fn has_room(p: &Pieces<'_>, fields: u32, keys: &Keys, set: Fields) -> bool
    requires front { count_of (code_of p.now.front.now) ≤ statement_limit }
    requires inner { count_of p.now.inner.now ≤ statement_limit }
    requires rest { count_of (code_of p.now.rest.now) ≤ statement_limit }
    ensures { IsTrue result ↔ HasRoom (code_of p.now.front.now) p.now.inner.now (code_of p.now.rest.now) fields keys.now (has_field set) }
{
    count_taken(p.inner) <= count_spare(fields, keys, set)
        && sender_size(p, keys.len()) <= MAX_STATEMENTS
        && merger_size(p) <= MAX_STATEMENTS
}
