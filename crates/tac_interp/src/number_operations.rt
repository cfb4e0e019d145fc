//! Operations on two numbers. Most statements are one of these, and a number is cheaper to pass on than a value, which
//! may hold a text.

ghost use Rattle.std.specs.Prelude.{◌≡◌, IfSome};
ghost use Rattle.pact_record.specs.Operations as specs;
ghost use Rattle.pact_record.specs.Operations.{applied2, wrapped_sum_of};
ghost use Rattle.pact_record.specs.declared.values.Value.TheVariants.{Int};

use pact_record::Op2;

fn truth(holds: bool) -> i64
    ensures { specs.truth holds ≡ Int result }
{
    if holds { 1 } else { 0 }
}

fn wrapped_sum(x: i64, y: i64) -> i64
    ensures { result ≡ wrapped_sum_of x y }
{
    x.wrapping_add(y)
}

/// The result of the operation for two numbers, or None if it may not be a number.
#[inline(always)]
pub(crate) fn on_numbers(op: Op2, x: i64, y: i64) -> Option<i64>
    ensures { IfSome result (λ n. applied2 op (Int x) (Int y) ≡ Int n) }
{
    match op {
        Op2::Add => x.checked_add(y),
        Op2::Sub => x.checked_sub(y),
        Op2::Mul => x.checked_mul(y),
        Op2::Div => x.checked_div(y),
        Op2::Rem => x.checked_rem(y),
        Op2::AddW => Some(wrapped_sum(x, y)),
        Op2::Lt => Some(truth(x.cmp(&y).is_lt())),
        Op2::Le => Some(truth(x.cmp(&y).is_le())),
        Op2::Eq => Some(truth(x.cmp(&y).is_eq())),
        Op2::And => Some(truth(x != 0 && y != 0)),
        Op2::Or => Some(truth(x != 0 || y != 0)),
        Op2::Min | Op2::Max | Op2::Cat => None,
    }
}
