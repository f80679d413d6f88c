ghost use Rattle.std.specs.Prelude.{◌≡◌, ℕ, ◌≤◌, ◌<◌, length, take, IfOk, MatchOption, IfSome, is_ok, if◌then◌else◌, None};
ghost use Rattle.std.specs.Io.KnownBytes.{Keeps, Appends, WriteAppends};
ghost use Rattle.vchan_io.specs.Counts.{one_more};

use crate::faults::Failed;
use crate::sink::Sink;
use std::io::{ErrorKind, Write};
use std::marker::Model;

/// A sink into a writer of std, which is trusted to write what it is given. Contracts see its count of faults
/// and the writer, which takes the bytes that a write reports, but not the bytes held. It flushes nothing: the
/// owner of a writer that holds bytes back flushes it.
#[derive(Debug, Drop)]
pub struct StdSink<W> {
    inner: W,
    faults: u64,
}

impl<W> Model for StdSink<W> {
    ghost use Rattle.vchan_io.specs.StdStream.{StdStream};

    ghost Value = { StdStream W };

    ghost view = { λ s. record { inner = s.inner; faults = s.faults } };
}

impl<W: Write> StdSink<W> {
    /// Makes a sink into `inner`, with no fault yet.
    pub fn new(inner: W) -> StdSink<W>
        ensures inner { result.inner ≡ inner }
        ensures faults { result.faults ≡ 0 }
    {
        StdSink { inner, faults: 0 }
    }
}

impl<W: Write> Sink for StdSink<W> {
    ghost held = { λ _. None };

    ghost faults = { λ s. s.faults };

    /// Writes once. Each error of the writer counts as a fault, except an interruption, after which the write
    /// is repeated. A write that takes nothing of a piece that isn't empty is a fault too.
    fn write(&mut self, piece: &[u8]) -> Result<usize, Failed>
        ensures within { IfOk result (λ count. count ≤ length piece.now) }
        ensures some { IfOk result (λ count. 0 < length piece.now → 0 < count) }
        ensures bytes { WriteAppends (W.contents self.old.inner) (W.contents self.new.inner) result piece.now }
        ensures faults { self.new.faults ≡ (if is_ok result then self.old.faults else one_more self.old.faults) }
        ensures counted { self.old.faults ≤ self.new.faults }
    {
        match write_uninterrupted(&mut self.inner, piece) {
            Some(count) if count > 0 || piece.is_empty() => Ok(count),
            _ => {
                self.faults = self.faults.saturating_add(1);
                Err(Failed)
            }
        }
    }
}

// Makes one write, and repeats it if a signal interrupts it. `None` stands for an error of the writer.
fn write_uninterrupted<W: Write>(writer: &mut W, piece: &[u8]) -> Option<usize>
    ensures within { IfSome result (λ count. count ≤ length piece.now) }
    ensures bytes { MatchOption result (Keeps (W.contents writer.old) (W.contents writer.new))
        (λ count. Appends (W.contents writer.old) (W.contents writer.new) (take count piece.now)) }
{
    for _ in 0..u64::MAX {
        match writer.write(piece) {
            Ok(count) => return Some(count),
            Err(error) if error.kind() == ErrorKind::Interrupted => {}
            Err(_) => break,
        }
    }
    None
}
