//! The beginning and the end of a session that serves its call.
ghost use Rattle.std.specs.Prelude.{◌≡◌, ℕ, List, [], Some, true, false};
ghost use Rattle.service_gate.specs.Triple.{Triple};
ghost use Rattle.service_gate.specs.Owing.{builtin_owes};
ghost use Rattle.qrexec_data.specs.ServingSide.{ServingStandsFor};
ghost use Rattle.vchan_rule.specs.Seated.{view, last_view};
ghost use Rattle.vchan_rule.specs.Ends.{IsSameEnd};
ghost use Rattle.channel_session.specs.Session.{IsFreshCall, IsAtWork, StandsOn, IsRetired, builtin_half};
ghost use Rattle.channel_session.specs.Turning.{first_pace};
ghost use Rattle.task_duties.specs.Agent.Sessions.{IsService, ServingOwes};

use crate::session::Session;
use qrexec_data::{Half, Outcome, Serving};
use qrexec_frame::Bytes;
use service_gate::Builtin;
use vchan_lifecycle::{connect, retire};
use vchan_rule::{End, Retired};

/// The side of a call that serves it, with the end of its data channel.
pub type ServingSession<'p> = Session<'p, Serving<Builtin>>;

impl<'p> Session<'p, Serving<Builtin>> {
    /// Connects the end of a side that has read and sent nothing. If the connect is refused,
    /// because the page's order words don't hold the page's orders, the call is closed at once.
    pub fn start(mut serving: Serving<Builtin>, mut end: End<'p>) -> ServingSession<'p>
        requires fresh { IsFreshCall serving end }
        ensures end { IsSameEnd end.entry result.end }
        ensures own { result.half.answering.own ≡ serving.answering.own }
        ensures pace { result.pace ≡ first_pace }
        ensures work { IsAtWork builtin_half result.half result.end }
        ensures stands { (owed : List ℕ → Triple) → ServingStandsFor builtin_owes owed serving [] → StandsOn builtin_half owed result.half result.end }
    {
        if connect(&mut end).is_err() {
            serving.closed();
        }
        Session::new(serving, end)
    }

    /// Retires the end of a call with this outcome, and returns all bytes that were got.
    pub fn finish(self, outcome: Outcome) -> ServingEnd
        requires work { IsAtWork builtin_half self.half self.end }
        requires outcome { self.half.answering.outcome ≡ Some outcome }
        ensures outcome { result.outcome ≡ outcome }
        ensures owed { (name : List ℕ) (owed : List ℕ → Triple) → IsService name owed → StandsOn builtin_half owed self.entry.half self.entry.end →
            ServingOwes self.entry.half.answering.own name outcome result.got (last_view result.retired) }
        ensures end { IsRetired (view self.entry.end) (last_view result.retired) }
        ensures honest { (last_view result.retired).turned ≡ false }
    {
        let Session { half, end, .. } = self;
        ServingEnd {
            outcome,
            got: Bytes::of(half.into_got()),
            retired: retire(end),
        }
    }
}

/// A call that is over at the side that served it: how it came out, all bytes got, and its end.
#[derive(Drop)]
pub struct ServingEnd {
    /// How it came out.
    pub outcome: Outcome,
    /// All bytes got.
    pub got: Bytes,
    /// Its end, which makes no more events.
    pub retired: Retired,
}
