//! Attempts to do what an instance wants.

ghost use Rattle.std.specs.Prelude.{◌≡◌};
ghost use Rattle.flow_run.specs.Tries.{and_then, is_progress};

/// The result of an attempt.
#[derive(Clone, Copy, Debug, PartialEq, Eq)]
pub(crate) enum Attempt {
    /// There was an event.
    Progress,
    /// There was no event: the instance waits, or is done.
    Blocked,
    /// There was no event, since the put would be the 2^61st of its end.
    Exhausted,
}

impl Attempt {
    pub(crate) fn is_progress(self) -> bool
        ensures { result ≡ is_progress self }
    {
        match self {
            Attempt::Progress => true,
            Attempt::Blocked => false,
            Attempt::Exhausted => false,
        }
    }

    /// The result of two attempts, one after the other.
    pub(crate) fn and(self, next: Attempt) -> Attempt
        ensures { result ≡ and_then self next }
    {
        match self {
            Attempt::Progress => Attempt::Progress,
            Attempt::Blocked => next,
            Attempt::Exhausted => match next {
                Attempt::Progress => Attempt::Progress,
                Attempt::Blocked => Attempt::Exhausted,
                Attempt::Exhausted => Attempt::Exhausted,
            },
        }
    }
}
