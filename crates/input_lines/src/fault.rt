//! Why a line isn't read.
ghost use Rattle.std.specs.Prelude.{◌≡◌};
ghost use Rattle.input_lines.specs.declared.fault.LineFault.TheVariants as fault;

use line_grammar::Column;
use std::alloc::AllocError;
use thiserror::Error;

/// Why a line was not read.
#[derive(Clone, Copy, Debug, PartialEq, Eq, Error)]
pub enum LineFault {
    /// The line is ill-formed at this column.
    #[error("ill-formed at column {0}")]
    Column(Column),
    /// There was no memory for the line's elements.
    #[error("out of memory")]
    NoMemory,
}

impl From<Column> for LineFault {
    ghost from_gives = { λ n e. e ≡ fault.Column n };

    fn from(n: Column) -> LineFault {
        LineFault::Column(n)
    }
}

impl From<AllocError> for LineFault {
    ghost from_gives = { λ _ e. e ≡ fault.NoMemory };

    fn from(_: AllocError) -> LineFault {
        LineFault::NoMemory
    }
}
