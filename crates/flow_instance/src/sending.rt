//! Records in batches for their receivers.

ghost use Rattle.std.specs.Prelude.{◌≡◌, ◌<◌, ◌≤◌, ◌+◌, ◌++◌, ◌∷◌, [], ℕ, List, length, get_or, replicate, IfOk, IsTrue, OnOk};
ghost use Rattle.pact_operators.specs.Allowed.{Bag};
ghost use Rattle.pact_record.specs.Widths.{AreBelow, AreWide};
ghost use Rattle.pact_record.specs.declared.records.TheConstants.{MAX_FIELDS};
ghost use Rattle.flow_instance.specs.Sending.{AreCarried, AreCarriedBut, AreDivided, AreFew, AreMarked, AreSent, IsTurn};
ghost use Rattle.flow_instance.specs.declared.addressed_notes.AddressedNote.{AddressedNote as Sealed};

use crate::addressed_notes::AddressedNote;
use crate::notes::Note;
use crate::targets::{have_fields, target};
use pact_bag::Rows;
use pact_record::{Keys, OutOfMemory, Record};
use plan_trees::Ship;
use std::alloc::Global;
use std::collections::VecDeque;
use std::mem;

// Queues the rows as one batch, unless there are none.
fn queue_batch(to: u32, rows: Rows, queue: &mut VecDeque<AddressedNote>) -> Result<(), OutOfMemory>
    ensures queued { OnOk result ((fields : ℕ) (done : Bag) (old : List Sealed) → AreCarriedBut fields to done old queue.old.items rows → AreCarriedBut fields to done old queue.new.items []) }
    ensures batches { OnOk result ((most : ℕ) → length rows ≤ most → AreFew most queue.old.items → AreFew most queue.new.items) }
{
    if rows.len() == 0 {
        return Ok(());
    }
    queue.push_back(AddressedNote {
        to,
        note: Note::Batch(rows),
    })?;
    Ok(())
}

// Queues the open batch if it is full, and begins the next one. `more` rows are still to come.
fn queue_if_full(
    alloc: Global,
    to: u32,
    batch: u32,
    more: usize,
    held: &mut Rows,
    queue: &mut VecDeque<AddressedNote>,
) -> Result<(), OutOfMemory>
    requires { 1 ≤ batch }
    ensures queued { OnOk result ((fields : ℕ) (done : Bag) (old : List Sealed) → AreCarriedBut fields to done old queue.old.items held.old → AreCarriedBut fields to done old queue.new.items held.new) }
    ensures few { OnOk result (length held.new < batch) }
    ensures batches { OnOk result ((most : ℕ) → length held.old ≤ most → AreFew most queue.old.items → AreFew most queue.new.items) }
{
    if held.len() < batch as usize {
        return Ok(());
    }
    let next = Rows::with_capacity(alloc, more.min(batch as usize))?;
    let full = mem::replace(held, next);
    queue_batch(to, full, queue)
}

// Appends the rows to the queue in batches of at most `batch`.
fn cut(
    alloc: Global,
    to: u32,
    batch: u32,
    rows: Rows,
    queue: &mut VecDeque<AddressedNote>,
) -> Result<(), OutOfMemory>
    requires { 1 ≤ batch }
    ensures carried { OnOk result ((fields : ℕ) → AreWide fields rows → AreCarried fields to rows queue.old.items queue.new.items) }
    ensures batches { OnOk result (AreFew batch queue.old.items → AreFew batch queue.new.items) }
{
    // this call makes it known that all rows have one width
    let _same = rows.rows();
    let mut more = rows.len();
    let mut held = Rows::with_capacity(alloc, more.min(batch as usize))?;
    for row in rows.into_records() {
        held.push(row)?;
        more -= 1;
        queue_if_full(alloc, to, batch, more, &mut held, queue)?;
    }
    queue_batch(to, held, queue)
}

// Like `cut`, but rows that fit into one batch are queued as they are.
fn send_to(
    alloc: Global,
    to: u32,
    batch: u32,
    rows: Rows,
    queue: &mut VecDeque<AddressedNote>,
) -> Result<(), OutOfMemory>
    requires { 1 ≤ batch }
    ensures carried { OnOk result ((fields : ℕ) → AreWide fields rows → AreCarried fields to rows queue.old.items queue.new.items) }
    ensures batches { OnOk result (AreFew batch queue.old.items → AreFew batch queue.new.items) }
{
    if rows.len() > batch as usize {
        return cut(alloc, to, batch, rows, queue);
    }
    queue_batch(to, rows, queue)
}

// The number of rows for which a worker's next batch gets memory if `more` rows are still to come. It is an equal share
// of them and a quarter more, since shares differ, but at most a batch.
fn room(more: usize, workers: u32, batch: u32) -> usize
    requires { 1 ≤ workers }
{
    let share = more / workers as usize;
    share.saturating_add(share / 4).min(batch as usize)
}

// An open batch for each worker, with memory for this number of rows.
fn no_rows(alloc: Global, workers: u32, room: usize) -> Result<Vec<Rows>, OutOfMemory>
    ensures { IfOk result (λ held. held.items ≡ replicate workers []) }
{
    let mut held = Vec::with_capacity(alloc, workers as usize)?;
    for _ in 0..workers {
        let rows = Rows::with_capacity(alloc, room)?;
        held.push_reserved(rows);
    }
    Ok(held)
}

// Adds the row to the open batch of the worker to which its key values send it, and returns that worker. `is_whole`
// says that the row lacks no key field.
fn hold_row(
    alloc: Global,
    keys: &Keys,
    workers: u32,
    is_whole: bool,
    row: Record,
    held: &mut Vec<Rows>,
) -> Result<u32, OutOfMemory>
    requires some { 1 ≤ workers }
    requires whole { IsTrue is_whole → AreBelow (length row) keys.now }
    requires fields { AreBelow MAX_FIELDS keys.now }
    requires long { length held.old.items ≡ workers }
    requires wide { (to : ℕ) → AreWide (length row) (get_or held.old.items to []) }
    ensures below { IfOk result (λ to. to < workers) }
    ensures long { IfOk result (λ _. length held.new.items ≡ workers) }
    ensures divided { IfOk result (λ _. (fields from : ℕ) (done : Bag) (queue : List Sealed) → length row ≡ fields → AreDivided fields workers keys.now from done queue held.old.items
        → AreDivided fields workers keys.now from (done ++ row ∷ []) queue held.new.items) }
{
    let to = target(alloc, &row, keys, workers, is_whole)?;
    held[to as usize].push(row)?;
    Ok(to)
}

// Queues the worker's open batch if it is full, and begins the next one. `more` rows are still to come.
fn send_if_full(
    alloc: Global,
    to: u32,
    workers: u32,
    batch: u32,
    more: usize,
    held: &mut Vec<Rows>,
    queue: &mut VecDeque<AddressedNote>,
) -> Result<(), OutOfMemory>
    requires some { 1 ≤ batch }
    requires below { to < workers }
    requires long { length held.old.items ≡ workers }
    ensures divided { OnOk result ((fields from : ℕ) (keys : List ℕ) (rows : Bag) → AreDivided fields workers keys from rows queue.old.items held.old.items → AreDivided fields workers keys from rows queue.new.items held.new.items) }
    ensures batches { OnOk result (AreFew batch queue.old.items → AreFew batch queue.new.items) }
{
    if held[to as usize].len() < batch as usize {
        return Ok(());
    }
    let next = Rows::with_capacity(alloc, room(more, workers, batch))?;
    let full = mem::replace(&mut held[to as usize], next);
    send_to(alloc, to, batch, full, queue)
}

// The receiver after `n` others. Each sender begins with the worker of its own number and goes around. Otherwise all
// senders would feed the same worker at the same time, and the others would wait.
fn receiver(workers: u32, from: u32, n: u32) -> u32
    requires from { from < workers }
    requires n { n < workers }
    ensures below { result < workers }
    ensures turn { IsTurn workers from n result }
{
    let before_the_end = workers - from;
    if n < before_the_end {
        from + n
    } else {
        n - before_the_end
    }
}

// Queues the open batches that have rows.
fn send_held(
    alloc: Global,
    from: u32,
    workers: u32,
    batch: u32,
    held: Vec<Rows>,
    queue: &mut VecDeque<AddressedNote>,
) -> Result<(), OutOfMemory>
    requires some { 1 ≤ batch }
    requires from { from < workers }
    requires long { length held.items ≡ workers }
    ensures sent { OnOk result ((fields : ℕ) (keys : List ℕ) (rows : Bag) → AreDivided fields workers keys from rows queue.old.items held.items → AreSent fields workers (Ship.Partition keys) from rows queue.new.items) }
    ensures batches { OnOk result (AreFew batch queue.old.items → AreFew batch queue.new.items) }
{
    let mut held = held;
    for n in 0..workers {
        let to = receiver(workers, from, n);
        let rows = mem::replace(&mut held[to as usize], Rows::new(alloc));
        send_to(alloc, to, batch, rows, queue)?;
    }
    Ok(())
}

// Queues each row for the worker to which its key values send it. Each worker has one open batch, which is queued as
// soon as it is full. Dividing all rows first and cutting them into batches afterwards would move each row twice.
fn send_by_key(
    alloc: Global,
    keys: &Keys,
    from: u32,
    workers: u32,
    batch: u32,
    rows: Rows,
    queue: &mut VecDeque<AddressedNote>,
) -> Result<(), OutOfMemory>
    requires some { 1 ≤ batch }
    requires from { from < workers }
    requires none { queue.old.items ≡ [] }
    ensures sent { OnOk result ((fields : ℕ) → AreWide fields rows → AreSent fields workers (Ship.Partition keys.now) from rows queue.new.items) }
    ensures batches { OnOk result (AreFew batch queue.new.items) }
{
    // this call makes it known that all rows have one width
    let _same = rows.rows();
    let are_whole = have_fields(&rows, keys);
    let mut more = rows.len();
    let mut held = no_rows(alloc, workers, room(more, workers, batch))?;
    for row in rows.into_records() {
        more -= 1;
        let to = hold_row(alloc, keys, workers, are_whole, row, &mut held)?;
        send_if_full(alloc, to, workers, batch, more, &mut held, queue)?;
    }
    send_held(alloc, from, workers, batch, held, queue)
}

// Queues all rows for each worker. The last one gets the rows themselves instead of a copy.
fn send_all(
    alloc: Global,
    from: u32,
    workers: u32,
    batch: u32,
    rows: Rows,
    queue: &mut VecDeque<AddressedNote>,
) -> Result<(), OutOfMemory>
    requires some { 1 ≤ batch }
    requires from { from < workers }
    requires none { queue.old.items ≡ [] }
    ensures sent { OnOk result ((fields : ℕ) → AreWide fields rows → AreSent fields workers Ship.Broadcast from rows queue.new.items) }
    ensures batches { OnOk result (AreFew batch queue.new.items) }
{
    let last = workers - 1;
    for n in 0..last {
        let to = receiver(workers, from, n);
        send_to(alloc, to, batch, rows.copy(alloc)?, queue)?;
    }
    let to = receiver(workers, from, last);
    send_to(alloc, to, batch, rows, queue)
}

/// Queues the records for all workers to which an edge leads, in batches of at most `batch`. The queue must be empty.
/// Out of memory is the only error, and the queue then has some of the batches.
pub fn queue_rows(
    alloc: Global,
    ship: &Ship,
    from: u32,
    workers: u32,
    batch: u32,
    rows: Rows,
    queue: &mut VecDeque<AddressedNote>,
) -> Result<(), OutOfMemory>
    requires some { 1 ≤ batch }
    requires below { from < workers }
    requires none { queue.old.items ≡ [] }
    ensures sent { OnOk result ((fields : ℕ) → AreWide fields rows → AreSent fields workers ship.now from rows queue.new.items) }
    ensures batches { OnOk result (AreFew batch queue.new.items) }
{
    match ship {
        Ship::Forward => send_to(alloc, from, batch, rows, queue),
        // a single worker gets all rows, whatever their keys are
        Ship::Partition(_) if workers == 1 => send_to(alloc, from, batch, rows, queue),
        Ship::Partition(keys) => send_by_key(alloc, keys, from, workers, batch, rows, queue),
        Ship::Broadcast => send_all(alloc, from, workers, batch, rows, queue),
    }
}

// Adds an end mark if there is a pipe.
fn mark_along(
    ship: &Ship,
    from: u32,
    to: u32,
    queue: &mut VecDeque<AddressedNote>,
) -> Result<(), OutOfMemory>
    ensures { OnOk result ((workers : ℕ) (old : List Sealed) → to < workers → AreMarked workers ship.now from to old queue.old.items → AreMarked workers ship.now from (to + 1) old queue.new.items) }
{
    if ship.has_pipe(from, to) {
        queue.push_back(AddressedNote {
            to,
            note: Note::End,
        })?;
    }
    Ok(())
}

/// Queues an end mark for each worker to which the edge leads. Out of memory is the only error, and the queue then has
/// some of the end marks.
pub fn queue_end_marks(
    ship: &Ship,
    from: u32,
    workers: u32,
    queue: &mut VecDeque<AddressedNote>,
) -> Result<(), OutOfMemory>
    ensures { OnOk result (AreMarked workers ship.now from workers queue.old.items queue.new.items) }
{
    for to in 0..workers {
        mark_along(ship, from, to, queue)?;
    }
    Ok(())
}
