//! A plan's instances and pipes on one thread, event by event.
//!
//! A `World` has an instance of each source and operator on each worker, each with the notes on the pipes that leave
//! it. `enabled` says whether an event can happen, and `step` lets it happen. `replay` goes through a list of events,
//! `run_alone` picks its own until every instance is done, and `run_picked` has them picked by numbers. What they
//! promise speaks of histories: a world represents the notes that were put and taken so far.
//!
//! A caller that lets the events happen itself begins with `start_instances`, or with `all_unstarted`, which has what
//! the instances start from, so that they may start on threads. `World::resume` makes a world of instances and notes
//! that represent some history.
#![tactic(auto)]

pub mod alone;
pub mod instance_lists;
pub mod note_lists;
pub mod picks;
mod plan_tables;
mod queued_instances;
mod ready;
pub mod replay_errors;
pub mod replays;
mod resuming;
mod searching;
pub mod starting;
pub mod worlds;

pub use alone::run_alone;
pub use flow_instance::{Event, PipeId};
pub use instance_lists::{InstanceList, Instances};
pub use note_lists::NoteLists;
pub use picks::run_picked;
pub use ready::MAX_WORKERS;
pub use replay_errors::Replay;
pub use replays::replay;
pub use starting::{UnstartedInstances, all_unstarted, start_in_turn, start_instances};
pub use worlds::World;
