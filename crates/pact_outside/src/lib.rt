//! Where bytes come from and where they go.
//!
//! A `Feed` opens files by name and reads them in pieces; a `Sink` takes bytes. Ghost members of both model their
//! contents, if these are known, and how often they failed, so that a caller's contract can speak of the outside.
//! `MemFeed` and `MemSink` have known contents, and fail at the calls that a test lists. `FileFeed` and `StreamSink`
//! adapt real files and writers; a caller knows only their counts and the name opened last. The contents of a writer
//! grow by exactly the bytes that `StreamSink` reports as taken. For files, the corresponding clause is that of the
//! private call with which `FileFeed` reads.
#![tactic(auto)]

pub mod feeds;
pub mod file_feed;
pub mod files;
pub mod lists;
pub mod mem_feed;
pub mod mem_sink;
pub mod sinks;
pub mod stream_sink;

pub use feeds::Feed;
pub use file_feed::FileFeed;
pub use files::NamedFile;
pub use lists::{FailList, MemFiles};
pub use mem_feed::MemFeed;
pub use mem_sink::MemSink;
pub use sinks::Sink;
pub use stream_sink::StreamSink;

/// A feed or a sink failed. Its count of faults says how often.
#[derive(Clone, Copy, Debug, PartialEq, Eq)]
pub struct Failed;
