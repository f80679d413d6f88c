//! The task of a client that calls.
use crate::task::{EpochTask, SideDone};
use channel_session::CallerSession;
use std::marker::Model;
use task_pool::Turn;

/// The client's end of the page, with the caller's side of a call that isn't over, and room for the
/// bytes that come.
#[derive(Drop)]
pub(crate) struct Calling<'p> {
    session: CallerSession<'p>,
    room: Vec<u8>,
}

impl<'p> Model for Calling<'p> {
    ghost use Rattle.std.specs.Prelude.{◌≡◌, ◌<◌, None, length};
    ghost use Rattle.ring_words.specs.declared.page.Role.TheVariants.{Client};
    ghost use Rattle.qrexec_data.specs.CallerSide.{caller_half};
    ghost use Rattle.channel_session.specs.Session.{CallerAt, IsAtWork, StandsOn};

    ghost Value = { CallerAt };

    ghost view = { λ c. c.session };

    ghost invariant = { λ c. IsAtWork caller_half c.session.half c.session.end × StandsOn caller_half tt c.session.half c.session.end × (c.session.half.replies.outcome ≡ None) × (c.session.half.replies.own ≡ 3) × (c.session.end.side.role ≡ Client) × (0 < length c.room.items) };
}

impl<'p> Calling<'p> {
    ghost use Rattle.std.specs.Prelude.{◌≡◌, ◌<◌, None, length};
    ghost use Rattle.ring_words.specs.declared.page.Role.TheVariants.{Client};
    ghost use Rattle.task_pool.specs.Owes.{Pays};
    ghost use Rattle.qrexec_data.specs.CallerSide.{caller_half};
    ghost use Rattle.channel_session.specs.Session.{IsAtWork, StandsOn};
    ghost use Rattle.vchan_persist.specs.Owes.{epoch_owes};
    ghost use Rattle.vchan_persist.specs.Tasks.{EpochTurns};

    /// Returns the task of such a session, with some room.
    pub(crate) fn new(session: CallerSession<'p>, room: Vec<u8>) -> Calling<'p>
        requires work { IsAtWork caller_half session.half session.end }
        requires stands { StandsOn caller_half tt session.half session.end }
        requires undecided { session.half.replies.outcome ≡ None }
        requires own { session.half.replies.own ≡ 3 }
        requires client { session.end.side.role ≡ Client }
        requires some { 0 < length room.items }
        ensures { result ≡ session.entry }
    {
        Calling { session, room }
    }

    /// Returns whether the last turn moved bytes, or there was no turn yet.
    pub(crate) fn moved(&self) -> bool {
        self.session.moved()
    }

    /// Makes a turn of the session. After its call is over, or if memory runs out, its end is
    /// retired.
    pub(crate) fn turn(self) -> Turn<EpochTask<'p>>
        ensures pays { Pays epoch_owes (EpochTask.Calls self.entry) result }
        ensures turns { EpochTurns (EpochTask.Calls self.entry) result }
    {
        let Calling {
            mut session,
            mut room,
        } = self;
        let Ok(_) = session.turn(room.as_mut_slice()) else {
            session.give_up();
            return Turn::Done(SideDone::NoMemory);
        };
        match session.outcome() {
            Some(outcome) => Turn::Done(SideDone::Called(session.finish(outcome))),
            None => Turn::Again(EpochTask::Calls(Calling { session, room })),
        }
    }
}
