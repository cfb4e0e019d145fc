ghost use Rattle.std.specs.Prelude.{◌≡◌, ◌<◌, ℕ, List, length, Option, OnErr, IfOk};
ghost use Rattle.pact_outside.specs.Outside.{HasCause, Takes};

use crate::Failed;

/// Where bytes go.
pub trait Sink {
    /// The bytes taken, if they are known.
    ghost taken: { Self → Option (List ℕ) };

    /// How often a call failed. It never decreases, and it stays at its greatest value.
    ghost faults: { Self → ℕ };

    /// Takes a prefix of the piece, at least one byte, and returns its length. A call that failed took nothing.
    fn write(&mut self, piece: &[u8]) -> Result<usize, Failed>
        requires { 0 < length piece.now }
        ensures takes { IfOk result (λ count. Takes (taken self.old) (taken self.new) piece.now count) }
        ensures nothing { OnErr result (taken self.new ≡ taken self.old) }
        ensures cause { HasCause (faults self.old) (faults self.new) result };
}
