//! Comparisons of what runs gave.

use pact_bag::{Counts, Outcome, Rows};
use std::test::Fail;

fn are_equal(found: &Counts, wanted: &Counts) -> bool {
    for at in 0..wanted.len().min(found.len()) {
        if found.at(at) != wanted.at(at) {
            return false;
        }
    }
    found.len() == wanted.len()
}

// Whether these are the same rows, in some order.
fn are_same(found: Rows, wanted: Rows) -> Result<bool, Fail> {
    let mut found = found.into_records();
    let mut wanted = wanted.into_records();
    found.sort()?;
    wanted.sort()?;
    Ok(found == wanted)
}

/// Whether two runs gave the same counts, and the same rows in some order.
pub fn same_outcomes(found: Outcome, wanted: Outcome) -> Result<bool, Fail> {
    if !are_equal(&found.counts, &wanted.counts) {
        return Ok(false);
    }
    are_same(found.rows, wanted.rows)
}
