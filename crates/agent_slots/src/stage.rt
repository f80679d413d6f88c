//! What a data end is used for.
use crate::side::PageSide;
use channel_session::{CallerSession, ServingSession};
use page_offer::UnlaidClient;
use qrexec_data::{Outcome, Serving};
use qrexec_frame::Bytes;
use service_gate::Builtin;
use std::snapshot::Snapshot;
use task_duties::{CallerDone, DoneEnd, UnusedEnd};

/// What an end is used for.
#[derive(Drop)]
pub(crate) enum Stage<'p> {
    /// Not used yet.
    Unused {
        end: UnusedEnd<'p>,
    },
    /// A call of the agent's own.
    Calls {
        number: usize,
        input: Snapshot<Vec<u8>>,
        side: PageSide,
        session: CallerSession<'p>,
    },
    /// A call that the agent serves, and whose caller hasn't offered the page yet.
    Awaits {
        number: usize,
        service: Snapshot<Builtin>,
        serving: Serving<Builtin>,
        side: UnlaidClient,
    },
    /// A call that the agent serves.
    Serves {
        number: usize,
        service: Snapshot<Builtin>,
        side: PageSide,
        session: ServingSession<'p>,
    },
    /// A call of the agent's own that is over.
    CallIsOver {
        number: usize,
        input: Snapshot<Vec<u8>>,
        done: CallerDone,
        end: DoneEnd,
    },
    /// A call that the agent served and that is over.
    ServingIsOver {
        number: usize,
        service: Snapshot<Builtin>,
        outcome: Outcome,
        got: Bytes,
        end: DoneEnd,
    },
    /// Its end is being put to another use. No call leaves a slot like this.
    Taken,
}
