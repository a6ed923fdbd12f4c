//! The coast station of an exchange, which is another than its ship.
ghost use Rattle.std.specs.Prelude.{◌≡◌, ◌≢◌, true, IfOk, IfErr, Ok, Err};
ghost use Rattle.call_values.specs.Identity.{IsMmsi};
ghost use Rattle.line_grammar.specs.Sections.{last};
ghost use Rattle.line_grammar.specs.Rows.{ReadsRow};
ghost use Rattle.line_grammar.specs.Shapes.{digits};
ghost use Rattle.line_grammar.specs.inside.Reading.{read_token};
ghost use Rattle.line_grammar.specs.inside.Soundness.{are_ranges};
ghost use Rattle.traffic_lines.specs.Lines.{coast, coast_station_parts};
ghost use Rattle.traffic_lines.specs.Worlds as worlds;
ghost use Rattle.traffic_lines.specs.Worlds.{IsOtherCoast, other_identity};

use crate::rows::Rows;
use call_values::bounds::LAST_IDENTITY;
use call_values::{Band, Mmsi};
use line_grammar::{Left, fixed_number, word};

/// The other identities below this one; of the first, all others.
fn others_below(mmsi: u32) -> (u64, u64)
    requires { IsMmsi mmsi }
    ensures { result ≡ worlds.others_below mmsi }
{
    if mmsi == 0 {
        (1, LAST_IDENTITY as u64)
    } else {
        (0, mmsi as u64 - 1)
    }
}

/// The other identities above this one; of the last, all others.
fn others_above(mmsi: u32) -> (u64, u64)
    requires { IsMmsi mmsi }
    ensures { result ≡ worlds.others_above mmsi }
{
    if mmsi == LAST_IDENTITY {
        (0, mmsi as u64 - 1)
    } else {
        (mmsi as u64 + 1, LAST_IDENTITY as u64)
    }
}

/// The identities but for this one, as ranges of numbers.
fn others(mmsi: u32) -> [(u64, u64); 2]
    requires { IsMmsi mmsi }
    ensures ranges { result ≡ worlds.others mmsi }
    ensures some { are_ranges 9 result ≡ true }
{
    [others_below(mmsi), others_above(mmsi)]
}

/// Reads the number of an identity but this one, and what follows it.
fn other_number(mmsi: u32, bytes: &[u8]) -> Result<(u64, &[u8]), Left>
    requires { IsMmsi mmsi }
    ensures lawful { IfOk result (λ parts. IsMmsi parts.0) }
    ensures other { IfOk result (λ parts. parts.0 ≢ mmsi) }
    ensures value { IfOk result (λ parts. read_token (other_identity mmsi) bytes.now ≡ Ok (digits 9 parts.0, parts.1.now)) }
    ensures left { IfErr result (λ left. read_token (other_identity mmsi) bytes.now ≡ Err left) }
{
    let ranges = others(mmsi);
    let (number, rest) = fixed_number(9, &ranges, bytes)?;
    Ok((number, rest))
}

/// Reads a coast station's identity but this one, and its band.
pub fn other_coast(ship: Mmsi, bytes: &[u8]) -> Result<(Mmsi, Band), Left>
    ensures { ReadsRow (coast (other_identity ship)) (last 0) (IsOtherCoast ship) coast_station_parts bytes.now result }
{
    let rest = word(b"station coast ", bytes)?;
    let (number, rest) = other_number(ship.number(), rest)?;
    let band = Band::read(rest)?;
    Ok((Mmsi::new(number as u32).unwrap(), band))
}
