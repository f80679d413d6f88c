//! The task of the server.
use crate::task::{EpochTask, SideDone};
use channel_session::ServingSession;
use service_gate::Builtin;
use std::marker::Model;
use std::snapshot::Snapshot;
use task_pool::Turn;

/// The server's end of the page, with the side that serves a call that isn't over, and room for the
/// bytes that come.
#[derive(Drop)]
pub(crate) struct Answering<'p> {
    session: ServingSession<'p>,
    room: Vec<u8>,
    // The service before any input; only clauses use it.
    service: Snapshot<Builtin>,
}

impl<'p> Model for Answering<'p> {
    ghost use Rattle.std.specs.Prelude.{◌≡◌, ◌<◌, None, length};
    ghost use Rattle.ring_words.specs.declared.page.Role.TheVariants.{Server};
    ghost use Rattle.service_gate.specs.Owing.{builtin_owes};
    ghost use Rattle.channel_session.specs.Session.{IsAtWork, StandsOn, builtin_half};
    ghost use Rattle.vchan_persist.specs.States.{AnsweringState};

    ghost Value = { AnsweringState };

    ghost view = { λ a. record { session = a.session; service = a.service.value } };

    ghost invariant = { λ a. IsAtWork builtin_half a.session.half a.session.end × StandsOn builtin_half (builtin_owes a.service.value) a.session.half a.session.end × (a.session.half.answering.outcome ≡ None) × (a.session.half.answering.own ≡ 3) × (a.session.end.side.role ≡ Server) × (0 < length a.room.items) };
}

impl<'p> Answering<'p> {
    ghost use Rattle.std.specs.Prelude.{◌≡◌, ◌<◌, None, length};
    ghost use Rattle.ring_words.specs.declared.page.Role.TheVariants.{Server};
    ghost use Rattle.task_pool.specs.Owes.{Pays};
    ghost use Rattle.service_gate.specs.Owing.{builtin_owes};
    ghost use Rattle.channel_session.specs.Session.{IsAtWork, StandsOn, builtin_half};
    ghost use Rattle.vchan_persist.specs.Owes.{epoch_owes};
    ghost use Rattle.vchan_persist.specs.Tasks.{EpochTurns};

    /// Returns the task of such a session with this service, and with some room.
    pub(crate) fn new(session: ServingSession<'p>, service: Builtin, room: Vec<u8>) -> Answering<'p>
        requires work { IsAtWork builtin_half session.half session.end }
        requires stands { StandsOn builtin_half (builtin_owes service) session.half session.end }
        requires undecided { session.half.answering.outcome ≡ None }
        requires own { session.half.answering.own ≡ 3 }
        requires server { session.end.side.role ≡ Server }
        requires some { 0 < length room.items }
        ensures { result ≡ record { session = session.entry; service = service } }
    {
        Answering {
            session,
            room,
            service: Snapshot::of(&service),
        }
    }

    /// Returns whether the last turn moved bytes, or there was no turn yet.
    pub(crate) fn moved(&self) -> bool {
        self.session.moved()
    }

    /// Makes a turn of the session. After the call is over, or if memory runs out, its end is
    /// retired.
    pub(crate) fn turn(self) -> Turn<EpochTask<'p>>
        ensures pays { Pays epoch_owes (EpochTask.Serves self.entry) result }
        ensures turns { EpochTurns (EpochTask.Serves self.entry) result }
    {
        let Answering {
            mut session,
            mut room,
            service,
        } = self;
        let Ok(_) = session.turn(room.as_mut_slice()) else {
            session.give_up();
            return Turn::Done(SideDone::NoMemory);
        };
        match session.outcome() {
            Some(outcome) => Turn::Done(SideDone::Served(session.finish(outcome))),
            None => Turn::Again(EpochTask::Serves(Answering {
                session,
                room,
                service,
            })),
        }
    }
}
