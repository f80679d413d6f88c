//! The tasks of a run of relays.
use crate::hop::Hop;
use crate::reader::Reader;
use crate::relay::Joint;
use crate::writer::Writer;
use qrexec_frame::Bytes;
use task_pool::{PoolTask, Turn};
use vchan_rule::Retired;

/// A task of a run: it goes on with its end or its two ends, or is over.
#[derive(Drop)]
pub(crate) enum HopTask<'p> {
    /// Sends all bytes on the first page.
    Writes(Writer<'p>),
    /// Passes on what it gets.
    Passes(Hop<'p>),
    /// Gets all bytes on the last page.
    Reads(Reader<'p>),
    /// Was refused when it connected.
    Over(HopDone),
}

/// What a task returns: its ends, which make no event any more.
#[derive(Drop)]
pub(crate) enum HopDone {
    /// The writer's end.
    Wrote(Retired),
    /// The end that a relay read, and the one that it wrote. A relay that was refused joined nothing.
    Passed {
        near: Retired,
        far: Retired,
        joint: Option<Joint>,
    },
    /// The reader's end, and what it got.
    Read {
        end: Retired,
        bytes: Bytes,
    },
}

impl<'p> PoolTask for HopTask<'p> {
    ghost use Rattle.vchan_relay.specs.Owes.{hop_owes};
    ghost use Rattle.vchan_relay.specs.Tasks.{HopTurns};

    type Done = HopDone;

    ghost owes = { hop_owes };

    ghost turns = { HopTurns };

    fn turn(self) -> Turn<Self> {
        match self {
            HopTask::Writes(writer) => writer.turn(),
            HopTask::Passes(hop) => hop.turn(),
            HopTask::Reads(reader) => reader.turn(),
            HopTask::Over(done) => Turn::Done(done),
        }
    }

    fn moved(&self) -> bool {
        match self {
            HopTask::Writes(writer) => writer.moved(),
            HopTask::Passes(hop) => hop.moved(),
            HopTask::Reads(reader) => reader.moved(),
            HopTask::Over(_) => true,
        }
    }
}
