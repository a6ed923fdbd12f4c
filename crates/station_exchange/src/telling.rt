//! The lines that an exchange alone has.
ghost use Rattle.std.specs.Prelude.{◌≡◌, ◌++◌, OnOk};
ghost use Rattle.station_exchange.specs.Output.{nothing_line};

use itoa::Buffer;
use std::alloc::AllocError;

/// Appends the line of a delivery for which no call of this number was sent.
#[tactic(auto, unfolding(crate::specs::Output::nothing_line))]
pub(crate) fn append_nothing(out: &mut Vec<u8>, at: u32, number: u32) -> Result<(), AllocError>
    ensures { OnOk result (out.new.items ≡ out.old.items ++ nothing_line at number) }
{
    let mut moment = Buffer::new();
    out.extend_from_slice(moment.format(at).as_bytes())?;
    out.extend_from_slice(b" nothing ")?;
    let mut digits = Buffer::new();
    out.extend_from_slice(digits.format(number).as_bytes())?;
    out.extend_from_slice(b"\n")?;
    Ok(())
}
