//! Writing what a command gave, and the line of a fault.
ghost use Rattle.std.specs.Prelude.{◌≡◌, ◌≢◌, ◌⊎◌, ℕ, List, [], ◌++◌, IfErr, OnOk, OnErr};
ghost use Rattle.line_engine.specs.Endings.{Writes};
ghost use Rattle.line_engine.specs.inside.Progress.{HasWritten, Fails, PendingFails};

use crate::halts::Halt;
use byte_streams::{Failed, Sink, Status, write_all};

/// Writes what is pending, and empties it.
pub(crate) fn write_pending<K: Sink>(out: &mut Vec<u8>, sink: &mut K) -> Result<(), Halt>
    ensures emptied { OnOk result (out.new.items ≡ []) }
    ensures wrote { OnOk result ((start : K) (text : List ℕ) → HasWritten K.written K.faults start sink.old text
        → HasWritten K.written K.faults start sink.new (text ++ out.old.items)) }
    ensures failed { IfErr result (λ halt. PendingFails K.written K.faults sink.old sink.new out.old.items halt) }
    ensures not_flushed { K.flushed sink.new ≡ K.flushed sink.old }
{
    if out.is_empty() {
        return Ok(());
    }
    match write_all(sink, out) {
        Ok(()) => {
            out.clear();
            Ok(())
        }
        Err(Failed) => Err(Halt::Write),
    }
}

/// Writes two texts and flushes the sink.
fn write_flushed<K: Sink>(sink: &mut K, text: &[u8], last: &[u8]) -> Result<(), Failed>
    ensures done { OnOk result ((start : K) (before : List ℕ) → HasWritten K.written K.faults start sink.old before
        → Writes (K.written start) (K.written sink.new) (K.flushed sink.new) (before ++ text.now ++ last.now)) }
    ensures sound { OnOk result (K.faults sink.new ≡ K.faults sink.old) }
    ensures failed { OnErr result ((start : K) (before : List ℕ) → HasWritten K.written K.faults start sink.old before
        → Fails K.written K.faults start sink.new (before ++ text.now ++ last.now)) }
    ensures not_flushed { OnErr result (K.flushed sink.new ≡ K.flushed sink.old) }
{
    write_all(sink, text)?;
    write_all(sink, last)?;
    sink.flush()
}

/// Writes two texts, flushes the sink, and ends with a status, or with that of a write fault.
pub(crate) fn write_ending<K: Sink>(
    sink: &mut K,
    text: &[u8],
    last: &[u8],
    status: Status,
) -> Status
    requires { status ≢ 5 }
    ensures which { (result ≡ status) ⊎ (result ≡ 5) }
    ensures done { result ≢ 5 → (start : K) (before : List ℕ) → HasWritten K.written K.faults start sink.old before
        → Writes (K.written start) (K.written sink.new) (K.flushed sink.new) (before ++ text.now ++ last.now) }
    ensures sound { result ≢ 5 → K.faults sink.new ≡ K.faults sink.old }
    ensures failed { result ≡ 5 → (start : K) (before : List ℕ) → HasWritten K.written K.faults start sink.old before
        → Fails K.written K.faults start sink.new (before ++ text.now ++ last.now) }
    ensures not_flushed { result ≡ 5 → K.flushed sink.new ≡ K.flushed sink.old }
{
    match write_flushed(sink, text, last) {
        Ok(()) => status,
        Err(Failed) => Status::new(5),
    }
}
