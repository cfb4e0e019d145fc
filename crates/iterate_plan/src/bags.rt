//! Whether two lists of rows are the same bag.

ghost use Rattle.std.specs.Prelude.{◌≡◌, ◌↔◌, map, IfOk, IsTrue};
ghost use Rattle.std.specs.List.Sorted.{IsPermutation, IsSorted};
ghost use Rattle.pact_record.specs.Record.{record_cmp};

use pact_bag::Rows;
use pact_record::{OutOfMemory, Record};
use std::alloc::Global;

// The rows by reference.
fn by_reference(alloc: Global, rows: &Rows) -> Result<Vec<&Record>, OutOfMemory>
    ensures { IfOk result (λ refs. map (λ r. r.now) refs.items ≡ rows.now) }
{
    rows.rows().iter().collect(alloc)
}

// The rows by reference, sorted.
#[tactic(auto, using(crate::proofs::SortedBags::sorted_refs, crate::proofs::SortedBags::permuted_refs))]
fn sorted(alloc: Global, rows: &Rows) -> Result<Vec<&Record>, OutOfMemory>
    ensures permuted { IfOk result (λ refs. IsPermutation rows.now (map (λ r. r.now) refs.items)) }
    ensures sorted { IfOk result (λ refs. IsSorted record_cmp (map (λ r. r.now) refs.items)) }
{
    let mut refs = by_reference(alloc, rows)?;
    refs.sort_unstable();
    Ok(refs)
}

// Whether the referenced rows are equal, one after the other.
fn same_rows(rows: &[&Record], others: &[&Record]) -> bool
    ensures { IsTrue result ↔ (map (λ r. r.now) rows.now ≡ map (λ r. r.now) others.now) }
{
    rows == others
}

/// Whether the rows are the same up to their order. It takes memory for a reference to each row.
pub fn same_bag(alloc: Global, a: &Rows, b: &Rows) -> Result<bool, OutOfMemory>
    ensures { IfOk result (λ same. IsTrue same ↔ IsPermutation a.now b.now) }
{
    if a.len() != b.len() {
        return Ok(false);
    }
    let left = sorted(alloc, a)?;
    let right = sorted(alloc, b)?;
    Ok(same_rows(&left, &right))
}
