//! What runs in each round.

ghost use Rattle.std.specs.Prelude.{◌≡◌, IfOk};
ghost use Rattle.pact_operators.specs.Inputs.{AreInputsOf};
ghost use Rattle.pact_operators.specs.Programs.{ProgramData};
ghost use Rattle.iterate_plan.specs.Rounds.{AllowsOn};

use pact_bag::{Inputs, Rows};
use pact_record::OutOfMemory;
use std::alloc::Global;

/// A program that runs on the rows of its sources, each time that it is called.
pub trait Round {
    /// The program.
    ghost program: { Self → ProgramData };

    /// What has to hold before a round. For a round that calls a function: the function can be called, and it returns
    /// an allowed bag.
    ghost ready: { Self → Type 0 };

    /// A bag that the plan as written allows. Out of memory is the only error.
    fn round(&mut self, alloc: Global, inputs: &Inputs) -> Result<Rows, OutOfMemory>
        requires ready { ready self.old }
        requires inputs { AreInputsOf (program self.old) inputs.now }
        ensures ready { ready self.new }
        ensures same { program self.new ≡ program self.old }
        ensures allowed { IfOk result (λ bag. AllowsOn (program self.old) inputs.now bag) };
}
