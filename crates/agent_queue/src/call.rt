//! A call of an agent, as its queue keeps it.
ghost use Rattle.std.specs.Prelude.{◌≡◌};
ghost use Rattle.task_duties.specs.Agent.Answers.{waits};
ghost use Rattle.agent_queue.specs.Queue.{answer_of};

use scenario_file::CallPlan;
use std::snapshot::Snapshot;

/// The answer to a call.
#[derive(Clone, Copy, Debug, PartialEq, Eq)]
pub enum CallAnswer {
    /// No answer has come yet.
    Waits,
    /// The broker refused it.
    Refused,
    /// The broker let it through.
    At {
        /// The domain that serves it.
        to: u32,
        /// The port of its session.
        port: u32,
    },
}

impl CallAnswer {
    /// Returns whether the call still waits for its answer.
    pub(crate) fn waits(self) -> bool
        ensures { result ≡ waits (answer_of self) }
    {
        matches!(self, CallAnswer::Waits)
    }
}

/// A call, with what was heard and sent of it.
#[derive(Drop)]
pub struct QueuedCall {
    // The call as it was given.
    pub given: Snapshot<CallPlan>,
    // The same call. Its session takes the input from here.
    pub plan: CallPlan,
    pub answer: CallAnswer,
    // The place of the first call to its target. The open calls to the target are counted there.
    pub target: usize,
    // Whether it was requested, not refused, and not reported as ended since.
    pub is_open: bool,
}
