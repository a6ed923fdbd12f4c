//! The line of a reception that heard a whole transmission.
ghost use Rattle.std.specs.Prelude.{◌≡◌, ◌++◌, OnOk};
ghost use Rattle.encode_calls.specs.Encoding.{encoded_line};

use crate::signs::{ROOM, append_list};
use crate::transmissions::write_list;
use arrayvec::ArrayVec;
use call_values::Call;
use expansion::Expansion;
use line_grammar::{append, append_number};
use std::alloc::AllocError;

/// The room in which a line is made; one room serves every line.
#[derive(Drop)]
pub(crate) struct Room {
    /// The symbols of the last call.
    list: ArrayVec<u8, 64>,
    /// The signs of their words.
    words: [u8; ROOM],
}

impl Room {
    /// The room before the first line.
    pub fn new() -> Room {
        Room {
            list: ArrayVec::new(),
            words: [b'-'; ROOM],
        }
    }
}

/// Appends the line of a reception of this group, which heard the call and the expansion after it whole.
pub(crate) fn append_line(
    out: &mut Vec<u8>,
    room: &mut Room,
    long: bool,
    group: u32,
    call: &Call,
    expansion: &Option<Expansion>,
) -> Result<(), AllocError>
    ensures { OnOk result (out.new.items ≡ out.old.items ++ encoded_line long group (call.now, expansion.now)) }
{
    let mut front: ArrayVec<u8, 24> = ArrayVec::new();
    append(&mut front, b"r g");
    append_number(&mut front, u64::from(group));
    front.push(b' ');
    out.extend_from_slice(&front)?;
    write_list(&mut room.list, call, expansion);
    append_list(out, &mut room.words, &room.list, long)?;
    out.push(b'\n')?;
    Ok(())
}
