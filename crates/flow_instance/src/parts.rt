//! The part of a program and of a physical plan that an instance keeps.

ghost use Rattle.std.specs.Prelude.{◌≡◌, ◌||◌, not, Some, IsSome};
ghost use Rattle.flow_instance.specs.Local.{is_pipelined};
ghost use Rattle.pact_operators.specs.Programs.{is_pair_kind};
ghost use Rattle.flow_instance.specs.States.{is_cross, is_map, is_match, is_reduce};

use pact_record::Keys;
use plan_trees::Ship;
use tac_syntax::{OpKind, Valid};

/// An edge that comes in at a port, by the number of its sender.
#[derive(Clone, Copy)]
pub(crate) struct Port {
    pub(crate) edge: u32,
    pub(crate) ship: Ship,
}

/// One source or operator on one worker.
#[derive(Drop)]
pub(crate) struct Part {
    pub(crate) at: u32,
    pub(crate) kind: OpKind,
    /// `None` for a source.
    pub(crate) called: Option<Valid>,
    pub(crate) left_keys: Keys,
    pub(crate) right_keys: Keys,
    /// Whether Nulls match in the keys of a Match.
    pub(crate) nulls: bool,
    pub(crate) fields: u32,
    pub(crate) worker: u32,
    pub(crate) workers: u32,
    /// The most records of a batch.
    pub(crate) batch: u32,
    pub(crate) ports: Vec<Port>,
    /// `None` for the root.
    pub(crate) out: Option<Ship>,
}

impl Part {
    pub(crate) fn function(&self) -> &Valid
        requires { IsSome self.now.called }
        ensures { self.now.called ≡ Some result.now }
    {
        match &self.called {
            Some(function) => function,
            None => unreachable!(),
        }
    }

    pub(crate) fn maps(&self) -> bool
        ensures { result ≡ is_map self.now.kind }
    {
        self.kind == OpKind::Map
    }

    pub(crate) fn pairs(&self) -> bool
        ensures { result ≡ is_pair_kind self.now.kind }
    {
        matches!(self.kind, OpKind::Match | OpKind::Cross)
    }

    pub(crate) fn crosses(&self) -> bool
        ensures { result ≡ is_cross self.now.kind }
    {
        self.kind == OpKind::Cross
    }

    /// Whether a record that comes to port 0 is kept even if its key has a Null.
    pub(crate) fn keeps_nulls(&self) -> bool
        ensures { result ≡ (self.now.nulls || not (is_match self.now.kind)) }
    {
        self.nulls || self.kind != OpKind::Match
    }

    pub(crate) fn reduces(&self) -> bool
        ensures { result ≡ is_reduce self.now.kind }
    {
        self.kind == OpKind::Reduce
    }

    /// Whether it emits records before it has taken all input.
    pub(crate) fn is_pipelined(&self) -> bool
        ensures { result ≡ is_pipelined self.now.kind }
    {
        !matches!(self.kind, OpKind::Reduce | OpKind::CoGroup)
    }
}
