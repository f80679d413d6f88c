//! The task that sends all bytes.
use crate::task::{HopDone, HopTask};
use std::marker::Model;
use task_pool::Turn;
use vchan_lifecycle::retire;
use vchan_rule::End;
use vchan_stream::{WriteAnswer, write};

/// The client of the first page, with the bytes that it sends.
#[derive(Drop)]
pub(crate) struct Writer<'p> {
    end: End<'p>,
    bytes: Vec<u8>,
    sent: usize,
    // Whether the last turn sent bytes.
    moved: bool,
}

impl<'p> Model for Writer<'p> {
    ghost use Rattle.std.specs.Prelude.{◌≡◌, ◌≤◌, length, take};
    ghost use Rattle.ring_words.specs.declared.page.Role.TheVariants.{Client};
    ghost use Rattle.vchan_rule.specs.Seated.{IsOpen};
    ghost use Rattle.vchan_relay.specs.States.{WriterState};

    ghost Value = { WriterState };

    ghost view = { λ w. record { end = w.end; bytes = w.bytes.items } };

    ghost invariant = { λ w. IsOpen w.end × (w.end.side.role ≡ Client) × (w.sent ≤ length w.bytes.items) × (w.end.side.sent ≡ take w.sent w.bytes.items) };
}

impl<'p> Writer<'p> {
    ghost use Rattle.std.specs.Prelude.{◌≡◌, []};
    ghost use Rattle.ring_words.specs.declared.page.Role.TheVariants.{Client};
    ghost use Rattle.task_pool.specs.Owes.{Pays};
    ghost use Rattle.vchan_rule.specs.Seated.{view, IsOpen};
    ghost use Rattle.vchan_relay.specs.Owes.{hop_owes};
    ghost use Rattle.vchan_relay.specs.Tasks.{HopTurns};

    /// Makes a writer that has sent nothing.
    pub(crate) fn new(end: End<'p>, bytes: Vec<u8>) -> Writer<'p>
        requires open { IsOpen end }
        requires client { end.side.role ≡ Client }
        requires none { (view end).sent ≡ [] }
        ensures { result ≡ record { end = end.entry; bytes = bytes.items } }
    {
        Writer {
            end,
            bytes,
            sent: 0,
            moved: true,
        }
    }

    /// Returns whether the last turn sent bytes, or there was none yet.
    pub(crate) fn moved(&self) -> bool {
        self.moved
    }

    /// Sends what has room. It retires after the last byte, or if the reader is shut.
    pub(crate) fn turn(self) -> Turn<HopTask<'p>>
        ensures pays { Pays hop_owes (HopTask.Writes self.entry) result }
        ensures turns { HopTurns (HopTask.Writes self.entry) result }
    {
        let Writer {
            mut end,
            bytes,
            sent,
            ..
        } = self;
        if sent == bytes.len() {
            return Turn::Done(HopDone::Wrote(retire(end)));
        }
        match write(&mut end, &bytes[sent..]) {
            WriteAnswer::Wrote { count } => Turn::Again(HopTask::Writes(Writer {
                end,
                bytes,
                sent: sent + count as usize,
                moved: true,
            })),
            WriteAnswer::Full { prod: _, cons: _ } => Turn::Again(HopTask::Writes(Writer {
                end,
                bytes,
                sent,
                moved: false,
            })),
            WriteAnswer::PeerClosed => Turn::Done(HopDone::Wrote(retire(end))),
        }
    }
}
