//! The programs of `examples/`, each by many lists of picked events.

use crate::example_texts::EXAMPLES;
use crate::run_tests::picked_alike;
use std::alloc::Global;
use std::test::Fail;

// The first of these programs, by its place, of which a run by picked events gives another answer than its evaluation.
fn first_unlike(alloc: Global, from: usize, to: usize) -> Result<Option<usize>, Fail> {
    for at in from..to.min(EXAMPLES.len()) {
        let (program, rows) = EXAMPLES[at];
        if !picked_alike(alloc, program, rows)? {
            return Ok(Some(at));
        }
    }
    Ok(None)
}

#[test]
fn programs_from_0(rt: HostRuntime) -> Result<(), Fail> {
    assert_eq!(rt; first_unlike(rt.alloc(), 0, 15)?, None);
    Ok(())
}

#[test]
fn programs_from_15(rt: HostRuntime) -> Result<(), Fail> {
    assert_eq!(rt; first_unlike(rt.alloc(), 15, 30)?, None);
    Ok(())
}

#[test]
fn programs_from_30(rt: HostRuntime) -> Result<(), Fail> {
    assert_eq!(rt; first_unlike(rt.alloc(), 30, 45)?, None);
    Ok(())
}

#[test]
fn programs_from_45(rt: HostRuntime) -> Result<(), Fail> {
    assert_eq!(rt; first_unlike(rt.alloc(), 45, EXAMPLES.len())?, None);
    Ok(())
}
