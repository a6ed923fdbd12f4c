//! Writing a whole text to a sink.
ghost use Rattle.std.specs.Prelude.{◌≡◌, ℕ, ◌++◌, List, OnOk, OnErr};
ghost use Rattle.byte_streams.specs.Streams.{Gains, Rises, SeenBefore};

use crate::{Failed, Sink};

/// Writes all of a text, or as much of it as went before a failure.
pub fn write_all<K: Sink>(sink: &mut K, text: &[u8]) -> Result<(), Failed>
    ensures all { OnOk result (Gains (K.written sink.old) (K.written sink.new) text.now) }
    ensures sound { OnOk result (K.faults sink.new ≡ K.faults sink.old) }
    ensures front { OnErr result ((front : List ℕ) × (rest : List ℕ) × (text.now ≡ front ++ rest)
        × Gains (K.written sink.old) (K.written sink.new) front) }
    ensures cause { OnErr result (Rises (K.faults sink.old) (K.faults sink.new)) }
    ensures not_flushed { K.flushed sink.new ≡ K.flushed sink.old }
    ensures told { SeenBefore (K.written sink.old) (K.written sink.new) }
{
    let mut rest = text;
    while !rest.is_empty() {
        let n = sink.write(rest)?;
        let (_, after) = rest.split_at(n);
        rest = after;
    }
    Ok(())
}
