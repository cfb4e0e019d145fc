//! A plan on threads: workers, and pipes between them.
//!
//! `run_owned` starts all instances, those of a long source on threads (`thread_starts`). `wire` makes a pipe for each
//! edge, sender and receiver between which records can go, and workers with their ends of the pipes (`wires`); then
//! each instance goes to its worker (`assigning`). All workers work side by side (`schedules`). `work` goes over a
//! worker's instances in turns (`turns`), attempts what each wants (`tries`), and ends when all are done or the worker
//! leaves. The worker's instances represent what its ends have put and taken, so no worker has to know of another.
//! When all have returned, `gather` closes the pipes and lists the notes that are left on them, `arrange` lists the
//! instances, and the world of both runs on the caller's thread to its end (`finishing`).
//!
//! `run` does the same, and copies the rows first; `run_in_turn` does it with one worker after the other on the
//! caller's thread. `run_on_one` needs no worker and no pipe between threads: it runs the world from its start, as
//! `run_owned` does with one worker.
#![tactic(auto)]

mod arranging;
mod assigning;
mod attempts;
mod finishing;
mod gathers;
mod options;
mod runs;
mod schedules;
pub mod tables;
mod thread_starts;
mod tries;
mod turns;
mod wires;
mod worker_contexts;
pub mod workers;

pub use options::Options;
pub use runs::{run, run_in_turn, run_on_one, run_owned};
pub use workers::{Worker, work};
