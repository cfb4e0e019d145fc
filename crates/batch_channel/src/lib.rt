//! A bounded pipe of notes between two threads.
//!
//! `pipe` makes a `Pipe`, which threads share, and its two ends, each for one thread. `Pipe::put` appends a note unless
//! it finds the pipe full. `Pipe::take` takes the oldest note unless it finds the pipe empty. `close` joins the ends
//! again and returns a `Left`, which has the notes that were put and not taken.
//!
//! No contract can say what a shared queue holds at some moment, so contracts speak of the ends: the model of a
//! `PutEnd` is the list of the notes that it has put, that of a `TakeEnd` the list of those that it has taken. `rules`
//! ties the two by a rule of the queue (`specs/Rule`): the notes put are the notes taken, followed by what the queue
//! holds. `proofs/Keeps` shows that every step keeps the rule. The trait `Width` has the number of values of each
//! record, which only contracts see.
#![tactic(auto)]

mod ends;
mod lefts;
mod openings;
mod pipes;
mod rules;
mod widths;

pub use ends::{PutEnd, TakeEnd};
pub use flow_instance::Note;
pub use lefts::{Left, close};
pub use openings::pipe;
pub use pipes::Pipe;
pub use widths::Width;
