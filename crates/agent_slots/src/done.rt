//! What came of the sessions of an agent's data ends.
ghost use Rattle.std.specs.Prelude.{◌≡◌};

use std::mem;
use task_duties::{CallerDone, RetiredEnd, ServedDone};

/// What came of the session of a call of the agent's own.
#[derive(Debug, Drop)]
pub struct CallOver {
    /// The domain that served it.
    pub to: u32,
    /// The port of the session.
    pub port: u32,
    /// What the caller has of it.
    pub done: CallerDone,
}

/// The data ends of an agent that is done with them.
#[derive(Drop)]
pub struct DataDone {
    /// The ends, in the order in which they were given, behind the one that was retired before.
    pub ends: Vec<RetiredEnd>,
    /// What came of each of the agent's own calls that had a session, by the numbers of the calls.
    pub calls: Vec<Option<CallOver>>,
    /// What was served, in the order in which it began.
    pub served: Vec<ServedDone>,
}

/// What came of the session of an end, if it had one.
#[derive(Drop)]
pub(crate) enum SessionDone {
    Nothing,
    Call { number: usize, over: CallOver },
    Serving { number: usize, done: ServedDone },
}

impl SessionDone {
    ghost use Rattle.std.specs.Prelude.{Some, IsSome};
    ghost use Rattle.agent_slots.specs.Reports.{call_in, served_in};

    /// Takes out what came of a call.
    pub(crate) fn take_call(&mut self) -> CallOver
        requires { IsSome (call_in self.old) }
        ensures { call_in self.old ≡ Some result }
    {
        match mem::replace(self, SessionDone::Nothing) {
            SessionDone::Call { over, .. } => over,
            _ => unreachable!(),
        }
    }

    /// Takes out what came of a served session.
    pub(crate) fn take_served(&mut self) -> ServedDone
        requires { IsSome (served_in self.old) }
        ensures { served_in self.old ≡ Some result }
    {
        match mem::replace(self, SessionDone::Nothing) {
            SessionDone::Serving { done, .. } => done,
            _ => unreachable!(),
        }
    }
}
