//! The rows of the book, and their kinds.
ghost use Rattle.std.specs.Prelude.{◌≡◌};

use arrayvec::ArrayVec;
use line_grammar::append;
use std::alloc::AllocError;

/// What a row is about, in the order of rows (ITU-R M.493, distress calls).
#[derive(Clone, Copy, Debug, PartialEq, Eq, PartialOrd, Ord)]
pub enum BookKind {
    Alert,
    /// An alert's acknowledgement.
    Ack,
    Relay,
    /// A relay's acknowledgement.
    RelayAck,
}

/// A row of the casualty book. Rows are ordered by these fields in this order (this project's profile). Symbols from
/// 100 on are given by their last two digits, and lists of digits by the digits' values.
#[derive(Debug, PartialEq, Eq, PartialOrd, Ord, Drop)]
pub struct BookRow {
    /// The ship in distress: nine digits and a 0.
    pub casualty: [u8; 10],
    pub kind: BookKind,
    /// The sender, or the area that the call is for.
    pub from: [u8; 10],
    /// The nature of distress.
    pub nature: Option<u8>,
    /// The digits of the position.
    pub place: ArrayVec<u8, 16>,
    /// Hour and minute in four digits.
    pub time: Option<u16>,
    /// What is to follow.
    pub second: Option<u8>,
}

impl BookRow {
    /// An equal row.
    pub fn copy(&self) -> BookRow
        ensures { result ≡ self.now }
    {
        let mut place = ArrayVec::new();
        append(&mut place, self.place.as_slice());
        BookRow {
            casualty: self.casualty,
            kind: self.kind,
            from: self.from,
            nature: self.nature,
            place,
            time: self.time,
            second: self.second,
        }
    }
}

impl Clone for BookRow {
    ghost is_clone = { λ row copy. copy ≡ row };

    fn clone(&self) -> Result<BookRow, AllocError> {
        Ok(self.copy())
    }
}
