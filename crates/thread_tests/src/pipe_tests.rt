//! Pipes on one thread.

ghost use Rattle.std.specs.Prelude.{IfOk};
ghost use Rattle.flow_instance.specs.Notes.{IsNote};

use batch_channel::{Note, close, pipe};
use pact_bag::Rows;
use pact_record::Record;
use std::alloc::Global;
use std::marker::Brand;
use std::sync::Wait;
use std::test::Fail;

// Every third note is a batch of one record without values, and the others are end marks. So notes in another order can
// be distinguished.
fn note(alloc: Global, number: u32) -> Result<Note, Fail>
    ensures { IfOk result (IsNote 0) }
{
    if number % 3 != 0 {
        return Ok(Note::End);
    }
    let mut rows = Rows::new(alloc);
    rows.push(Record::empty(alloc, 0)?)?;
    Ok(Note::Batch(rows))
}

fn is_batch(note: &Note) -> bool {
    matches!(note, Note::Batch(_))
}

// A pipe holds one note, and refuses a second one.
fn holds_one<R: Wait>(rt: &R, alloc: Global) -> Result<bool, Fail> {
    let (pipe, mut put, mut take) = pipe::<Brand, R>(rt, alloc, 1)?;
    if pipe.put(rt, &mut put, note(alloc, 0)?).is_err() {
        return Ok(false);
    }
    let back = pipe.put(rt, &mut put, Note::End);
    let taken = pipe.take(rt, &mut take);
    let none = pipe.take(rt, &mut take);
    let put_again = pipe.put(rt, &mut put, Note::End);
    let count = put.len();
    let mut left = close(rt, pipe, put, take);
    let rest = left.next(rt);
    let end = left.next(rt);
    Ok(
        matches!(&back, Err(Note::End))
            && matches!(&taken, Some(Note::Batch(_)))
            && none.is_none()
            && put_again.is_ok()
            && count == 2
            && matches!(&rest, Some(Note::End))
            && end.is_none(),
    )
}

const DEPTH: u32 = 4;

// Fills and drains a pipe in turns, with `events` events in all. True if each note came out in its place.
fn keeps_order<R: Wait>(rt: &R, alloc: Global, events: u32) -> Result<bool, Fail> {
    let (pipe, mut put, mut take) = pipe::<Brand, R>(rt, alloc, DEPTH)?;
    for n in 0..events {
        if n / DEPTH % 2 == 0 {
            if put.len() > u64::from(n) || pipe.put(rt, &mut put, note(alloc, n)?).is_err() {
                return Ok(false);
            }
        } else {
            let Some(taken) = pipe.take(rt, &mut take) else {
                return Ok(false);
            };
            if is_batch(&taken) != ((n - DEPTH) % 3 == 0) {
                return Ok(false);
            }
        }
    }
    Ok(true)
}

#[test]
fn notes_come_out_in_the_order_in_which_they_went_in(rt: HostRuntime) -> Result<(), Fail> {
    assert!(rt; holds_one(&rt, rt.alloc())?);
    assert!(rt; keeps_order(&rt, rt.alloc(), 4000)?);
    Ok(())
}
