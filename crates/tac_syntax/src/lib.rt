//! Functions in three-address code, what one call of a function means, and programs as they are declared.
//!
//! A function's body is a tree of statements over value registers and record registers. The meaning of a call is given
//! in small steps, in `specs/Call.antt`: a state holds the registers, what was emitted and a flat list of the items
//! still to do, and each step takes the first item away. `specs/Rules.antt` has the rules that a valid function keeps;
//! a `Valid` is a valid function.
//!
//! A `Draft` is what a program's text declares, in text order: functions, sources, operators and sinks. Nothing in it
//! is resolved or checked. A reader of texts makes a `Draft`, and a writer spells it.
#![tactic(auto)]

pub mod contexts;
pub mod declarations;
pub mod drafts;
pub mod functions;
mod named_fields;
pub mod names;
pub mod numbers;
pub mod rules;
pub mod statements;
pub mod valid_lists;
pub mod valids;
pub mod versions;

pub use contexts::{Context, Side};
pub use declarations::{Decl, OpKind};
pub use drafts::{Draft, functions_of};
pub use functions::{Function, Kind};
pub use names::{is_file_name, is_name};
pub use numbers::Numbers;
pub use rules::{MAX_LOOPS, Rule};
pub use statements::{
    Body, LoopList, MAX_NESTING, NotPushed, RECORD_REGISTERS, Rec, Stmt, VALUE_REGISTERS,
};
pub use valid_lists::ValidList;
pub use valids::Valid;
pub use versions::field_limit;
