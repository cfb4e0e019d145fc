//! What is known of the operators of a plan, by their numbers.

ghost use Rattle.std.specs.Prelude.{◌≡◌, ◌<◌};
ghost use Rattle.plan_trees.specs.Plans.{node_limit};
ghost use Rattle.tac_flow.specs.Views.{found_of};
ghost use Rattle.ship_strategy.specs.Views.{facts_in, known_by, known_of, put, unknown};

use pact_operators::{MAX_NODES, OpKind};
use pact_record::{Fields, Keys};
use tac_flow::Sets;
use tac_syntax::Context;

/// What is known of a source or an operator in its place in a plan.
#[derive(Clone, Copy, Debug)]
pub struct OpFacts {
    pub kind: OpKind,
    pub left_keys: Keys,
    pub right_keys: Keys,
    /// The attributes of its only or its left input.
    pub left: Fields,
    /// The attributes of its right input.
    pub right: Fields,
    /// The fields that its function writes there.
    pub writes: Fields,
    /// Whether all that a CoGroup emits began as records of its left side.
    pub anchor_left: bool,
    /// Whether all that a CoGroup emits began as records of its right side.
    pub anchor_right: bool,
}

impl OpFacts {
    /// The facts of a source or an operator of this kind in a context with these findings.
    pub fn of(kind: OpKind, context: &Context, found: &Sets) -> OpFacts
        ensures { known_of result ≡ known_by kind context.now (found_of found.now) }
    {
        OpFacts {
            kind,
            left_keys: context.left_keys,
            right_keys: context.right_keys,
            left: context.left,
            right: context.right,
            writes: found.writes,
            anchor_left: found.anchor_left,
            anchor_right: found.anchor_right,
        }
    }

    /// The facts for a number that the plan doesn't have.
    pub fn nothing() -> OpFacts
        ensures { known_of result ≡ unknown }
    {
        OpFacts {
            kind: OpKind::Source,
            left_keys: Keys::new(),
            right_keys: Keys::new(),
            left: Fields::empty(),
            right: Fields::empty(),
            writes: Fields::empty(),
            anchor_left: false,
            anchor_right: false,
        }
    }
}

/// What is known of each source and operator of a plan, by its number.
#[derive(Clone, Copy, Debug)]
pub struct Table {
    pub(crate) nodes: [OpFacts; MAX_NODES],
}

impl Table {
    /// A table in which nothing is known of any number.
    pub fn blank() -> Table
        ensures { facts_in result ≡ (λ k. unknown) }
    {
        Table {
            nodes: [OpFacts::nothing(); MAX_NODES],
        }
    }

    /// Enters what is known of the source or operator of this number.
    pub fn set(&mut self, at: u32, x: OpFacts)
        requires { at < node_limit }
        ensures { facts_in self.new ≡ put at (known_of x) (facts_in self.old) }
    {
        self.nodes[at as usize] = x;
    }

    /// What is known of the source or operator of this number.
    pub fn at(&self, at: u32) -> OpFacts
        ensures { known_of result ≡ facts_in self.now at }
    {
        match self.nodes.get(at as usize) {
            Some(x) => *x,
            None => OpFacts::nothing(),
        }
    }
}
