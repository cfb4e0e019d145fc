//! One operator or source on one worker, and the model of a run in parts.
//!
//! A plan runs as one instance of every source and operator on every worker. If an edge joins two instances, a pipe of
//! notes leads from one to the other. The model has instances, worlds of instances and pipes, histories and events as
//! plain data. `specs/Local` relates an instance to the notes that it has taken and put. `specs/Worlds` says when a
//! world agrees with a history. `specs/Steps` and `specs/Events` say what an event changes. The laws, which hold over
//! every list of events, are in `proofs/`: each event preserves the agreement of world and history, a world is stuck
//! only when it is done, and the number of events is bounded.
//!
//! An `Instance` implements this model. It starts from an `Unstarted`, which can move to another thread. It wants to
//! take a note at a port, to put a note for a worker, to end, or nothing. Calls hand it notes and fetch notes from it;
//! it knows neither pipes nor threads. Each call preserves `IsLocal`. `states` has its fields, and `specs/StateSteps`
//! what a step does to them. `taking` and `ending` handle batches and end marks. `matching` and `grouping` call the
//! operator's function for kept records, which the trait `Local` finds. `sending` turns the given records into notes:
//! batches, each for a worker to which an edge leads, and end marks after them. If an edge partitions records, each
//! receiver has one open batch at a time.
#![tactic(auto)]

pub mod addressed_notes;
pub mod before_start;
mod ending;
mod grouping;
pub mod instances;
mod keeping;
mod matching;
pub mod notes;
mod parts;
mod plan_parts;
mod senders;
pub mod sending;
mod states;
mod taking;
mod targets;

pub use addressed_notes::AddressedNote;
pub use before_start::Unstarted;
pub use instances::{Instance, MAX_BATCH};
pub use notes::{Event, Note, PipeId, Want};
pub use sending::{queue_end_marks, queue_rows};
