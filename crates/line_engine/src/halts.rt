//! Why a run stops before its input's end.
ghost use Rattle.std.specs.Prelude.{◌≡◌};

use crate::faults::FirstFault;
use std::alloc::AllocError;

/// Why a run stops before its input's end.
#[derive(Clone, Copy, Debug, PartialEq, Eq)]
pub(crate) enum Halt {
    /// A line has a fault.
    Fault(FirstFault),
    /// The source failed.
    Read,
    /// The sink failed.
    Write,
    /// There was no memory.
    Memory,
}

impl From<AllocError> for Halt {
    ghost use Rattle.line_engine.specs.declared.halts.Halt.TheVariants.{Memory as memory};

    ghost from_gives = { λ _ e. e ≡ memory };

    fn from(_: AllocError) -> Self {
        Halt::Memory
    }
}
