//! The gate that workers pass before their first reception.
ghost use Rattle.std.specs.Prelude.{◌≡◌};

/// What each worker, numbered from 0, calls once before its first reception. It answers nothing and changes no result.
pub trait Gate: Sync {
    /// Called by the worker with this number; a test may have it wait here.
    fn enter(&self, worker: u32);
}

/// What workers have that have entered the gate: those from `low` on and below `high`, for which one thread acts.
/// `enter` alone makes it, and receptions are read for those who have it, so that a thread which reads one before its
/// workers enter doesn't compile.
#[derive(Drop)]
pub struct Entered {
    pub(crate) low: u32,
    pub(crate) high: u32,
}

/// Has the workers from `low` on and below `high` enter the gate, one after the other.
pub(crate) fn enter<G: Gate>(gate: &G, low: u32, high: u32) -> Entered
    ensures { (result.low ≡ low) × (result.high ≡ high) }
{
    for worker in low..high {
        gate.enter(worker);
    }
    Entered { low, high }
}

/// The gate of the program, which is open.
#[derive(Clone, Copy, Debug, PartialEq, Eq)]
pub struct Open;

impl Gate for Open {
    fn enter(&self, _worker: u32) {}
}
