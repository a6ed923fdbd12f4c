//! Reading a DSE sentence.
ghost use Rattle.std.specs.Prelude.{◌≡◌, ◌+◌, ◌<◌, ◌≤◌, IfOk, IfErr, Ok, Err, codes};
ghost use Rattle.sentence_frame.specs.Shapes as shape;
ghost use Rattle.sentence_frame.specs.inside.Fields.{field};
ghost use Rattle.dsc_sentences.specs.Dse as dse;
ghost use Rattle.dsc_sentences.specs.inside.DseReading as inside;

use crate::dse::{DseFields, DseSentence, Flag};
use cursor::Cursor;
use expansion::bounds::{LAST_COURSE, LAST_ENHANCEMENT, LAST_SPEED};
use expansion::last_digits::{COURSE, ENHANCED_POSITION, SPEED};
use expansion::{Expansion, Part, Sets};
use sentence_frame::{SentenceRefusal, code, digits, fields_of, letter, next_text, perhaps_number};

/// What is read of the fields of a DSE sentence.
#[derive(Clone, Copy)]
pub struct DseParts {
    pub flag: Flag,
    pub address: [u8; 10],
    pub sets: Sets,
}

/// Field k, where it is the letter of a flag.
#[tactic(auto, unfolding(sentence_frame::specs::inside::Fields::field))]
fn flag(k: usize, text: &[u8]) -> Result<Flag, SentenceRefusal>
    ensures { result ≡ field k (shape.letter (codes "AQR")) inside.flag_in text.now }
{
    match letter(k, b"AQR", text) {
        Ok(b'A') => Ok(Flag::A),
        Ok(b'Q') => Ok(Flag::Q),
        Ok(_) => Ok(Flag::R),
        Err(refusal) => Err(refusal),
    }
}

/// Reads the set with this code, its digits so many and up to the most, where it comes next at field k; and answers the
/// number of the field after it.
#[tactic(auto, unfolding(crate::specs::inside::DseReading::read_set, sentence_frame::specs::inside::Fields::field, sentence_frame::specs::inside::Fields::and_then))]
fn read_set(
    fields: &mut Cursor,
    k: usize,
    set: u8,
    width: usize,
    most: u32,
) -> Result<(Part, usize), SentenceRefusal>
    requires width { width ≤ 8 }
    requires k { k < 100 }
    ensures ok { IfOk result (λ p. inside.read_set k set width most fields.old
        ≡ Ok (record { part = p.0; next = p.1; rest = fields.new })) }
    ensures next { IfOk result (λ p. p.1 ≤ k + 2) }
    ensures err { IfErr result (λ e. inside.read_set k set width most fields.old ≡ Err e) }
{
    let mut ahead = Cursor::new(fields.rest());
    if code(k, &[set], next_text(&mut ahead)).is_err() {
        return Ok((Part::left_out(), k));
    }
    let data = perhaps_number(k + 1, width, most, next_text(&mut ahead));
    fields.go_on(ahead.rest());
    match data {
        Ok(Some(number)) => Ok((Part::digits(number), k + 2)),
        Ok(None) => Ok((Part::none(), k + 2)),
        Err(refusal) => Err(refusal),
    }
}

/// Reads the fields of a DSE sentence.
#[tactic(auto, unfolding(crate::specs::inside::DseReading::read_fields, sentence_frame::specs::inside::Fields::and_then))]
fn read_fields(fields: &mut Cursor) -> Result<DseParts, SentenceRefusal>
    ensures { result ≡ inside.read_fields fields.old }
{
    letter(1, b"1", next_text(fields))?;
    letter(2, b"1", next_text(fields))?;
    let flag = flag(3, next_text(fields))?;
    let address = digits(4, next_text(fields))?;
    let (enhanced, k) = read_set(fields, 5, ENHANCED_POSITION, 8, LAST_ENHANCEMENT)?;
    let (speed, k) = read_set(fields, k, SPEED, 4, LAST_SPEED)?;
    let (course, k) = read_set(fields, k, COURSE, 4, LAST_COURSE)?;
    if !fields.rest().is_empty() {
        return Err(SentenceRefusal::Field(k));
    }
    let sets = Sets {
        enhanced,
        speed,
        course,
    };
    Ok(DseParts {
        flag,
        address,
        sets,
    })
}

/// The parts of the DSE sentence whose bytes these are; else the first refusal.
fn parts_read(bytes: &[u8]) -> Result<DseParts, SentenceRefusal>
    ensures { inside.PartsAnswer result bytes.now }
{
    let mut fields = fields_of(b"$CDDSE", &[6, 8, 10], bytes)?;
    read_fields(&mut fields)
}

/// The DSE sentence whose bytes these are; else the first refusal.
pub fn read_dse(bytes: &[u8]) -> Result<DseSentence, SentenceRefusal>
    ensures { dse.IsReading bytes.now result }
{
    let parts = parts_read(bytes)?;
    Ok(sentence_of(&parts))
}

/// The sentence of these parts.
fn sentence_of(parts: &DseParts) -> DseSentence
    requires { dse.IsDse (inside.fields_of parts.now) }
    ensures { result ≡ inside.fields_of parts.now }
{
    let sets = &parts.sets;
    DseSentence {
        fields: DseFields {
            flag: parts.flag,
            address: parts.address,
            expansion: Expansion::new(sets.enhanced, sets.speed, sets.course).unwrap(),
        },
    }
}
