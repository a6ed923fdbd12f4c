//! The lines of evidence that stand for all that receivers of a group showed.
ghost use Rattle.std.specs.Prelude.{◌≡◌, ◌+◌, ◌≤◌, ◌<◌, ◌++◌, ◌∷◌, []};
ghost use Rattle.arrayvec.specs.ArrayVec.{array_vec_len};
ghost use Rattle.line_grammar.specs.Bytes.{line_feed};
ghost use Rattle.slot_evidence.specs.Seen.{IsLawful};
ghost use Rattle.input_lines.specs.inside.Reading.{pairs_text};
ghost use Rattle.input_lines.specs.Evidence.{pairs_at, evidence_text};

use arrayvec::ArrayVec;
use line_grammar::{append, append_number};
use slot_evidence::{Seen, Sheet};

/// A group's evidence, without the end of its line: `e g9 0:120 8:14 8:22`. It has the pairs of all places, by rising
/// place: of each its one symbol, or its least and then its greatest.
pub fn put_evidence(group: u32, sheet: &Sheet) -> ArrayVec<u8, 1024>
    ensures { result.items ≡ evidence_text group sheet.now }
{
    let mut out = ArrayVec::new();
    append_evidence(&mut out, group, sheet);
    out
}

/// The same with the line feed that ends the line.
pub fn put_evidence_line(group: u32, sheet: &Sheet) -> ArrayVec<u8, 1025>
    ensures { result.items ≡ evidence_text group sheet.now ++ line_feed ∷ [] }
{
    let mut out = ArrayVec::new();
    append_evidence(&mut out, group, sheet);
    out.push(b'\n');
    out
}

/// Appends a group's evidence, which takes at most 919 bytes.
fn append_evidence<const N: usize>(out: &mut ArrayVec<u8, N>, group: u32, sheet: &Sheet)
    requires { array_vec_len out.old + 960 ≤ N }
    ensures items { out.new.items ≡ out.old.items ++ evidence_text group sheet.now }
    ensures len { array_vec_len out.new ≤ array_vec_len out.old + 919 }
{
    append(out, b"e g");
    append_number(out, u64::from(group));
    for place in 0..64 {
        append_seen(out, place, sheet.at(place));
    }
}

/// Appends the pairs of a place, which take at most 14 bytes.
fn append_seen<const N: usize>(out: &mut ArrayVec<u8, N>, place: u8, seen: Seen)
    requires place { place < 64 }
    requires lawful { IsLawful seen }
    requires room { array_vec_len out.old + 49 ≤ N }
    ensures items { out.new.items ≡ out.old.items ++ pairs_text (pairs_at place seen) }
    ensures len { array_vec_len out.new ≤ array_vec_len out.old + 14 }
{
    match seen {
        Seen::None => {}
        Seen::One(symbol) => append_pair(out, place, symbol),
        Seen::Differ(least, greatest) => {
            append_pair(out, place, least);
            append_pair(out, place, greatest);
        }
    }
}

/// Appends a pair, which takes at most 7 bytes.
fn append_pair<const N: usize>(out: &mut ArrayVec<u8, N>, place: u8, symbol: u8)
    requires place { place < 64 }
    requires symbol { symbol < 128 }
    requires room { array_vec_len out.old + 42 ≤ N }
    ensures items { out.new.items ≡ out.old.items ++ pairs_text ((place, symbol) ∷ []) }
    ensures len { array_vec_len out.new ≤ array_vec_len out.old + 7 }
{
    append(out, b" ");
    append_number(out, u64::from(place));
    append(out, b":");
    append_number(out, u64::from(symbol));
}
