//! The sides of the loops around a statement.

ghost use Rattle.std.specs.Prelude.{◌≡◌, ◌<◌, ◌++◌, ◌∷◌, [], get_or, length};
ghost use Rattle.tac_syntax.specs.Limits.{loop_limit};
ghost use Rattle.tac_flow.specs.Known.{left};
ghost use Rattle.tac_flow.specs.Views.{sides_of};

use tac_syntax::{MAX_LOOPS, Side};

/// The side of each loop around a statement, the outermost first.
#[derive(Clone, Copy)]
pub(crate) struct Sides {
    held: [Side; MAX_LOOPS as usize],
    count: usize,
}

impl Sides {
    pub(crate) fn none() -> Sides
        ensures { sides_of result ≡ [] }
    {
        Sides {
            held: [Side::Left; MAX_LOOPS as usize],
            count: 0,
        }
    }

    pub(crate) fn inside(&self, side: Side) -> Sides
        requires { length (sides_of self.now) < loop_limit }
        ensures { sides_of result ≡ sides_of self.now ++ side ∷ [] }
    {
        let mut held = self.held;
        held[self.count] = side;
        Sides {
            held,
            count: self.count + 1,
        }
    }

    pub(crate) fn at(&self, n: u32) -> Side
        requires { n < length (sides_of self.now) }
        ensures { result ≡ get_or (sides_of self.now) n left }
    {
        self.held[n as usize]
    }
}
