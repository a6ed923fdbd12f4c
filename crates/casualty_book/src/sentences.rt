//! The row of a DSC sentence.
ghost use Rattle.std.specs.Prelude.{◌≡◌, IfSome};
ghost use Rattle.casualty_book.specs.Rows.{IsLawful};
ghost use Rattle.casualty_book.specs.Sentences as rows;

use crate::rows::{BookKind, BookRow};
use arrayvec::ArrayVec;
use call_values::End;
use dsc_sentences::{DscFields, DscSentence};
use dsc_symbols::last_digits::{ALERT, DISTRESS, DISTRESS_ACKNOWLEDGEMENT, DISTRESS_RELAY};
use line_grammar::append;

/// The row of a sentence: that of an alert, or of an acknowledgement, a relay or a relay's acknowledgement that names
/// the ship in distress. None for every other sentence.
#[tactic(auto, unfolding(crate::specs::Sentences::row_of))]
pub fn row_of(s: &DscSentence) -> Option<BookRow>
    ensures row { result ≡ rows.row_of s.now }
    ensures lawful { IfSome result IsLawful }
{
    let fields = s.fields();
    if fields.format == ALERT {
        return Some(row_with(BookKind::Alert, fields.address, fields.first, fields));
    }
    if fields.category != Some(DISTRESS) {
        return None;
    }
    let kind = kind_of(fields.first, fields.end)?;
    let casualty = fields.distress?;
    Some(row_with(kind, casualty, fields.nature, fields))
}

/// The row of this kind about a casualty.
fn row_with(kind: BookKind, casualty: [u8; 10], nature: Option<u8>, fields: &DscFields) -> BookRow
    ensures { result ≡ rows.row_with kind casualty nature fields.now }
{
    let mut place = ArrayVec::new();
    append(&mut place, fields.place.as_slice());
    BookRow {
        casualty,
        kind,
        from: fields.address,
        nature,
        place,
        time: fields.time,
        second: fields.second,
    }
}

/// The kind of a distress call, by its first telecommand and its end of sequence.
fn kind_of(first: Option<u8>, end: End) -> Option<BookKind>
    ensures { result ≡ rows.kind_of first end }
{
    match (first, end) {
        (Some(DISTRESS_ACKNOWLEDGEMENT), _) => Some(BookKind::Ack),
        (Some(DISTRESS_RELAY), End::Reply) => Some(BookKind::RelayAck),
        (Some(DISTRESS_RELAY), _) => Some(BookKind::Relay),
        _ => None,
    }
}
