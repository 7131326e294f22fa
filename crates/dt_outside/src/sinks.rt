//! Sinks: where bytes are written to.
ghost use Rattle.std.specs.Prelude.{◌≡◌, ℕ, ◌≤◌, ◌<◌, List, length, take, Option, IfOk, OnOk, OnErr};
ghost use Rattle.dt_outside.specs.Faults.{HasRisen, IsAppended};

use thiserror::Error;

/// A write that failed.
#[derive(Clone, Copy, Debug, PartialEq, Eq, Error)]
#[error("a write took no byte, where it has to take one at least")]
pub struct SinkFailed;

/// Where bytes are written to. `written` is what was written, if the sink exposes it; one that doesn't
/// expose it never begins to. `faults` counts the writes that failed, never falls and ends at 2^64 - 1.
pub trait Sink {
    ghost written: { Self → Option (List ℕ) };

    ghost faults: { Self → ℕ };

    /// Writes the first bytes of a piece that isn't empty, and answers how many, at least one; or
    /// fails and writes none.
    fn write_some(&mut self, piece: &[u8]) -> Result<usize, SinkFailed>
        requires some { 0 < length piece.now }
        ensures count { IfOk result (λ n. (1 ≤ n) × (n ≤ length piece.now)) }
        ensures bytes { IfOk result (λ n. IsAppended (written self.old) (take n piece.now) (written self.new)) }
        ensures quiet { OnOk result (faults self.new ≡ faults self.old) }
        ensures failed { OnErr result (HasRisen (faults self.old) (faults self.new)) }
        ensures kept { OnErr result (written self.new ≡ written self.old) };
}

/// Writes the whole text, each time as the whole rest; an empty text makes no write.
pub fn write_all<K: Sink>(sink: &mut K, text: &[u8]) -> Result<(), SinkFailed>
    ensures bytes { OnOk result (IsAppended (K.written sink.old) text.now (K.written sink.new)) }
    ensures quiet { OnOk result (K.faults sink.new ≡ K.faults sink.old) }
    ensures failed { OnErr result (HasRisen (K.faults sink.old) (K.faults sink.new)) }
    ensures begun { OnErr result ((n : ℕ) × (n ≤ length text.now) × IsAppended (K.written sink.old) (take n text.now) (K.written sink.new)) }
{
    let mut at = 0;
    while at < text.len() {
        at += sink.write_some(&text[at..])?;
    }
    Ok(())
}
