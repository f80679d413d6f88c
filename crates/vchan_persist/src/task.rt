//! The tasks of an epoch.
use crate::answering::Answering;
use crate::calling::Calling;
use crate::scribbling::Scribbling;
use channel_session::{CallerEnd, ServingEnd};
use task_pool::{PoolTask, Turn};
use vchan_rule::Retired;

/// A task of an epoch, which goes on with its end, or is over.
#[derive(Drop)]
pub(crate) enum EpochTask<'p> {
    /// A client that calls.
    Calls(Calling<'p>),
    /// A hostile client.
    Scribbles(Scribbling<'p>),
    /// The server.
    Serves(Answering<'p>),
    /// A client that was refused when it connected.
    Over(SideDone),
}

/// What a task hands back. Its end makes no more events.
#[derive(Drop)]
pub(crate) enum SideDone {
    /// A client whose call is over.
    Called(CallerEnd),
    /// The end of a client that was refused.
    Refused(Retired),
    /// The end of a hostile client.
    Scribbled(Retired),
    /// The server, whose client is over.
    Served(ServingEnd),
    /// Memory ran out, and the end was retired.
    NoMemory,
}

impl<'p> PoolTask for EpochTask<'p> {
    ghost use Rattle.vchan_persist.specs.Owes.{epoch_owes};
    ghost use Rattle.vchan_persist.specs.Tasks.{EpochTurns};

    type Done = SideDone;

    ghost owes = { epoch_owes };

    ghost turns = { EpochTurns };

    fn turn(self) -> Turn<Self> {
        match self {
            EpochTask::Calls(calling) => calling.turn(),
            EpochTask::Scribbles(scribbling) => scribbling.turn(),
            EpochTask::Serves(answering) => answering.turn(),
            EpochTask::Over(done) => Turn::Done(done),
        }
    }

    fn moved(&self) -> bool {
        match self {
            EpochTask::Calls(calling) => calling.moved(),
            EpochTask::Scribbles(_) => true,
            EpochTask::Serves(answering) => answering.moved(),
            EpochTask::Over(_) => true,
        }
    }
}
