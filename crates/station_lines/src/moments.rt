//! A moment before a text, and a number after its label.
ghost use Rattle.std.specs.Prelude.{◌≡◌, ◌+◌, ◌≤◌, ◌++◌, codes, decimal, length};
ghost use Rattle.arrayvec.specs.ArrayVec.{array_vec_len};

use arrayvec::ArrayVec;
use line_grammar::{append, append_number};

/// Appends a moment and the blank after it.
pub fn append_moment<const N: usize>(out: &mut ArrayVec<u8, N>, at: u32)
    requires { array_vec_len out.old + 21 ≤ N }
    ensures items { out.new.items ≡ out.old.items ++ (decimal at ++ codes " ") }
    ensures len { array_vec_len out.new ≤ array_vec_len out.old + 21 }
{
    append_number(out, u64::from(at));
    append(out, b" ");
}

/// Appends a number after its label.
pub fn append_labelled<const N: usize>(out: &mut ArrayVec<u8, N>, label: &[u8], number: u64)
    requires { array_vec_len out.old + (length label.now + 20) ≤ N }
    ensures items { out.new.items ≡ out.old.items ++ (label.now ++ decimal number) }
    ensures len { array_vec_len out.new ≤ array_vec_len out.old + (length label.now + 20) }
{
    append(out, label);
    append_number(out, number);
}
