//! The faults of an input, their lines and statuses.
ghost use Rattle.std.specs.Prelude.{◌≡◌, ◌+◌, ◌≤◌, ◌++◌};
ghost use Rattle.arrayvec.specs.ArrayVec.{array_vec_len};
ghost use Rattle.line_engine.specs.Faults.{fault_line, fault_name};
ghost use Rattle.line_engine.specs.Faults as faults;

use arrayvec::ArrayVec;
use byte_streams::Status;
use line_grammar::{append, append_number};

/// What is wrong with a line of an input.
#[derive(Clone, Copy, Debug, PartialEq, Eq)]
pub enum Fault {
    /// The line comes after line 65,536.
    TooManyLines,
    /// The line has more than 4,200 bytes.
    TooLong,
    /// The line is ill-formed at this column, counted from 1.
    Column(usize),
    /// The line brings a group more than the command can hold.
    TooManyGroups,
}

/// The first line of an input that has a fault, counted from 1, and its fault.
#[derive(Clone, Copy, Debug, PartialEq, Eq)]
pub(crate) struct FirstFault {
    pub line: usize,
    pub fault: Fault,
}

/// The line that names a fault in the input: `dsc: line 3 column 7`, `dsc: line 2 too long`, `dsc: line 65537 too many
/// lines` or `dsc: line 9 too many groups`.
#[tactic(auto, unfolding(crate::specs::Faults::fault_line))]
pub(crate) fn put_fault(first: &FirstFault) -> ArrayVec<u8, 80>
    ensures { result.items ≡ fault_line first.now.line first.now.fault }
{
    let mut out = ArrayVec::new();
    append(&mut out, b"dsc: line ");
    append_number(&mut out, first.line as u64);
    append_name(&mut out, &first.fault);
    out.push(b'\n');
    out
}

/// Appends what is wrong with a line, which takes at most 28 bytes.
fn append_name<const N: usize>(out: &mut ArrayVec<u8, N>, fault: &Fault)
    requires { array_vec_len out.old + 28 ≤ N }
    ensures items { out.new.items ≡ out.old.items ++ fault_name fault.now }
    ensures len { array_vec_len out.new ≤ array_vec_len out.old + 28 }
{
    match fault {
        Fault::TooManyLines => append(out, b" too many lines"),
        Fault::TooLong => append(out, b" too long"),
        Fault::Column(n) => {
            append(out, b" column ");
            append_number(out, *n as u64);
        }
        Fault::TooManyGroups => append(out, b" too many groups"),
    }
}

/// The status of a fault: 3 for an ill-formed line and 7 for a limit.
pub(crate) fn fault_status(fault: &Fault) -> Status
    ensures { result ≡ faults.fault_status fault.now }
{
    match fault {
        Fault::TooManyLines | Fault::TooLong | Fault::TooManyGroups => Status::new(7),
        Fault::Column(_) => Status::new(3),
    }
}
