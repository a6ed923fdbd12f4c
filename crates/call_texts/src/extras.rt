//! The text of what follows a reported call.
ghost use Rattle.std.specs.Prelude.{◌≡◌, ◌+◌, ◌≤◌, ◌++◌, length};
ghost use Rattle.arrayvec.specs.ArrayVec.{array_vec_len};
ghost use Rattle.call_texts.specs.CallParts.{expansion_text};
ghost use Rattle.call_texts.specs.Texts.{extra_text};
ghost use Rattle.call_texts.specs.inside.Expansions.{label_and_set};

use arrayvec::ArrayVec;
use expansion::{Expansion, Part, PartKind};
use line_grammar::{append, append_digits, append_number};
use slot_join::Extra;

/// Appends what comes after a call, which takes at most 40 bytes.
pub fn append_extra<const N: usize>(out: &mut ArrayVec<u8, N>, extra: &Extra)
    requires { array_vec_len out.old + 40 ≤ N }
    ensures items { out.new.items ≡ out.old.items ++ extra_text extra.now }
    ensures len { array_vec_len out.new ≤ array_vec_len out.old + 40 }
{
    match extra {
        Extra::Absent => {}
        Extra::Whole(expansion) => append_expansion(out, expansion),
        Extra::Broken(n) => {
            append(out, b" broken ");
            append_number(out, u64::from(*n));
        }
    }
}

/// Appends the text of an expansion: `exp` and each set after its label; at most 40 bytes.
fn append_expansion<const N: usize>(out: &mut ArrayVec<u8, N>, expansion: &Expansion)
    requires { array_vec_len out.old + 40 ≤ N }
    ensures items { out.new.items ≡ out.old.items ++ expansion_text expansion.now }
    ensures len { array_vec_len out.new ≤ array_vec_len out.old + 40 }
{
    expansion.lawful();
    append(out, b" exp");
    append_set(out, b" enh=", 8, &expansion.enhanced());
    append_set(out, b" speed=", 4, &expansion.speed());
    append_set(out, b" course=", 4, &expansion.course());
}

/// Appends a set after its label, and nothing where it is left out.
fn append_set<const N: usize>(out: &mut ArrayVec<u8, N>, label: &[u8], width: usize, set: &Part)
    requires width { 4 ≤ width }
    requires room { array_vec_len out.old + (length label.now + width) ≤ N }
    ensures items { out.new.items ≡ out.old.items ++ label_and_set label.now width set.now }
    ensures len { array_vec_len out.new ≤ array_vec_len out.old + (length label.now + width) }
{
    match set.kind() {
        PartKind::LeftOut => {}
        PartKind::NoInformation => {
            append(out, label);
            append(out, b"none");
        }
        PartKind::Digits(number) => {
            append(out, label);
            append_digits(out, width, u64::from(number));
        }
    }
}
