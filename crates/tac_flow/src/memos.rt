//! A table of the facts with which loops settled last.

ghost use Rattle.std.specs.Prelude.{◌≡◌, ◌<◌, ◌≤◌, ◌+◌, ℕ, Some, true, length};
ghost use Rattle.pact_record.specs.declared.records.TheConstants.{MAX_FIELDS};
ghost use Rattle.tac_flow.specs.Memos.{memos_of, memo_at, begun, put, place};
ghost use Rattle.tac_flow.specs.Views.{state_of};

use crate::facts::Facts;

/// The first place for the loops inside a loop. If that is large, place `n` is its own.
pub(crate) fn first_inside(memos: &[Option<Facts>], large: bool, n: usize) -> usize
    requires { n + place large ≤ length memos.now }
    ensures { result ≡ n + place large }
{
    if large { n + 1 } else { n }
}

/// Joins the stored facts of a loop with the facts with which it is reached. If that doesn't change the stored facts,
/// the loop has settled, and the result is true.
pub(crate) fn begin(
    memos: &[Option<Facts>],
    fields: u32,
    large: bool,
    n: usize,
    facts: &mut Facts,
) -> bool
    requires fields { fields ≤ MAX_FIELDS }
    requires n { n + place large ≤ length memos.now }
    ensures state { state_of facts.new ≡ begun fields (memo_at large (memos_of memos.now) n) (state_of facts.old) }
    ensures same { result ≡ true → memo_at large (memos_of memos.now) n ≡ Some (state_of facts.new) }
{
    if !large {
        return false;
    }
    match &memos[n] {
        Some(memo) => {
            facts.join(fields, memo);
            *facts == *memo
        }
        None => false,
    }
}

/// Keeps the facts with which a loop settled.
// Inlined, it would put a copy of the facts into its caller's frame, of which there is one for each loop around.
#[inline(never)]
pub(crate) fn keep(memos: &mut [Option<Facts>], large: bool, n: usize, facts: &Facts)
    requires { n + place large ≤ length memos.old }
    ensures { (i : ℕ) → memos_of memos.new i ≡ put large n (state_of facts.now) (memos_of memos.old) i }
{
    if large {
        memos[n] = Some(*facts);
    }
}
