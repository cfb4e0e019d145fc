//! Round after round.

ghost use Rattle.std.specs.Prelude.{◌≡◌, ◌≤◌, ℕ, IfOk};
ghost use Rattle.std.specs.List.Sorted.{IsPermutation};
ghost use Rattle.pact_operators.specs.Allowed.{Bag};
ghost use Rattle.pact_operators.specs.Inputs.{AreInputsOf};
ghost use Rattle.pact_operators.specs.Programs.{IsProgram};
ghost use Rattle.iterate_plan.specs.Rounds.{AllowsOne, IsIterated, IsSourceAt};
ghost use Rattle.iterate_run.specs.NextRows.{AreNextRows};

use crate::rounds::Round;
use iterate_plan::{cut, same_bag};
use pact_bag::{Inputs, Rows};
use pact_record::{Columns, OutOfMemory};
use std::alloc::Global;

/// The last round's bag, and how many rounds there were.
#[derive(Debug, Drop)]
pub struct Iterated {
    pub rows: Rows,
    pub rounds: u32,
}

// The rows of the source in the next round, or none if they are those of this round and the iteration may end early.
fn next_rows(
    alloc: Global,
    rows: &Rows,
    bag: &Rows,
    columns: &Columns,
    stable: bool,
) -> Result<Option<Rows>, OutOfMemory>
    ensures { IfOk result (AreNextRows columns.now rows.now bag.now stable) }
{
    let next = cut(alloc, bag, columns)?;
    if stable && same_bag(alloc, rows, &next)? {
        return Ok(None);
    }
    Ok(Some(next))
}

/// Runs the program `rounds` times. From the second round on, the source at this place among the sources has the
/// records of the round before, cut to its columns. With `stable` the iteration ends early, after the first round whose
/// records, once cut, are those that the source had in it, in any order. Out of memory is the only error.
pub fn iterate<R: Round>(
    alloc: Global,
    round: &mut R,
    mut inputs: Inputs,
    source: u32,
    columns: &Columns,
    rounds: u32,
    stable: bool,
) -> Result<Iterated, OutOfMemory>
    requires ready { R.ready round.old }
    requires program { IsProgram (R.program round.old) }
    requires inputs { AreInputsOf (R.program round.old) inputs }
    requires source { IsSourceAt (R.program round.old) source columns.now }
    requires rounds { 1 ≤ rounds }
    ensures ready { R.ready round.new }
    ensures same { R.program round.new ≡ R.program round.old }
    ensures rounds { IfOk result (λ i. IsIterated (R.program round.old) inputs source columns.now rounds stable i.rows i.rounds) }

    // A program that allows only one bag allows only one iteration.
    ensures only { IfOk result (λ i. AllowsOne (R.program round.old) → (other : Bag) (count : ℕ)
        → IsIterated (R.program round.old) inputs source columns.now rounds stable other count
        → IsPermutation i.rows other × (i.rounds ≡ count)) }
{
    let at = source as usize;
    let mut rows = round.round(alloc, &inputs)?;
    for count in 1..rounds {
        let Some(next) = next_rows(alloc, inputs.at(at), &rows, columns, stable)? else {
            return Ok(Iterated {
                rows,
                rounds: count,
            });
        };
        inputs.set(at, next);
        rows = round.round(alloc, &inputs)?;
    }
    Ok(Iterated { rows, rounds })
}
