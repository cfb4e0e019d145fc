//! What a worker calls before each attempt.

/// The kind of the event that is attempted next.
#[derive(Clone, Copy, Debug, PartialEq, Eq)]
pub enum Act {
    /// A note is put.
    Put,
    /// A note is taken.
    Take,
    /// An instance ends.
    End,
}

/// A place at which workers can be held.
pub trait Gate: Sync {
    /// Called before every event, on the thread of the event's worker, and also before a put or a take that then finds
    /// its pipe full or empty. It may take a while, but it always returns, and it returns nothing.
    fn before(&self, worker: u32, act: Act);
}

/// A gate that does nothing.
pub struct OpenGate;

impl Gate for OpenGate {
    fn before(&self, _worker: u32, _act: Act) {}
}
