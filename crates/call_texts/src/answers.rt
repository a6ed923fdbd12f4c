//! The text of a group's answer.
ghost use Rattle.std.specs.Prelude.{◌≡◌, ◌+◌, ◌≤◌, ◌++◌, [], ◌∷◌, codes, decimal};
ghost use Rattle.arrayvec.specs.ArrayVec.{array_vec_len};
ghost use Rattle.line_grammar.specs.Bytes.{line_feed};
ghost use Rattle.call_texts.specs.Texts.{report_text, answer_text, answer_line};

use crate::calls::append_reported;
use arrayvec::ArrayVec;
use line_grammar::{append, append_number};
use slot_join::Joined;

/// A group's answer, without the end of its line: `g0 reported ..`, `g0 missing 7`, `g0 differ 8 14 22`,
/// `g0 outside 6 91` or `g0 check 17 78 79`.
pub fn put_answer(group: u32, answer: &Joined) -> ArrayVec<u8, 288>
    ensures { result.items ≡ answer_text group answer.now }
{
    let mut out = ArrayVec::new();
    append_answer(&mut out, group, answer);
    out
}

/// The same with the line feed that ends the line.
pub fn put_answer_line(group: u32, answer: &Joined) -> ArrayVec<u8, 289>
    ensures { result.items ≡ answer_line group answer.now }
{
    let mut out = ArrayVec::new();
    append_answer_line(&mut out, group, answer);
    out
}

/// Appends the same to a text that has room for it, so that it isn't copied.
pub fn append_answer_line<const N: usize>(out: &mut ArrayVec<u8, N>, group: u32, answer: &Joined)
    requires { array_vec_len out.old + 183 ≤ N }
    ensures { out.new.items ≡ out.old.items ++ answer_line group answer.now }
{
    append_answer(out, group, answer);
    out.push(b'\n');
}

/// Appends a group's answer without its line feed: `g`, the group's number, and the report; at most 182 bytes.
#[tactic(auto, unfolding(crate::specs::Texts::answer_text))]
fn append_answer<const N: usize>(out: &mut ArrayVec<u8, N>, group: u32, answer: &Joined)
    requires { array_vec_len out.old + 182 ≤ N }
    ensures items { out.new.items ≡ out.old.items ++ answer_text group answer.now }
    ensures len { array_vec_len out.new ≤ array_vec_len out.old + 182 }
{
    append(out, b"g");
    append_number(out, u64::from(group));
    append_report(out, answer);
}

/// Appends what an answer says after its group; at most 161 bytes.
fn append_report<const N: usize>(out: &mut ArrayVec<u8, N>, answer: &Joined)
    requires { array_vec_len out.old + 161 ≤ N }
    ensures items { out.new.items ≡ out.old.items ++ report_text answer.now }
    ensures len { array_vec_len out.new ≤ array_vec_len out.old + 161 }
{
    match answer {
        Joined::Reported { call, expansion } => {
            append(out, b" reported ");
            append_reported(out, call, expansion);
        }
        Joined::Missing(n) => {
            append(out, b" missing ");
            append_number(out, u64::from(*n));
        }
        Joined::Differ(n, least, greatest) => {
            append(out, b" differ ");
            append_number(out, u64::from(*n));
            append_behind_blank(out, *least);
            append_behind_blank(out, *greatest);
        }
        Joined::Outside(n, symbol) => {
            append(out, b" outside ");
            append_number(out, u64::from(*n));
            append_behind_blank(out, *symbol);
        }
        Joined::Check { n, want, got } => {
            append(out, b" check ");
            append_number(out, u64::from(*n));
            append_behind_blank(out, *want);
            append_behind_blank(out, *got);
        }
    }
}

/// Appends a blank and a number; at most 21 bytes.
fn append_behind_blank<const N: usize>(out: &mut ArrayVec<u8, N>, number: u8)
    requires { array_vec_len out.old + 21 ≤ N }
    ensures items { out.new.items ≡ out.old.items ++ codes " " ++ decimal number }
    ensures len { array_vec_len out.new ≤ array_vec_len out.old + 21 }
{
    append(out, b" ");
    append_number(out, u64::from(number));
}
