//! The end of a session that made its call.
ghost use Rattle.std.specs.Prelude.{◌≡◌, Some, false};
ghost use Rattle.qrexec_data.specs.CallerSide.{caller_half};
ghost use Rattle.vchan_rule.specs.Seated.{view, last_view};
ghost use Rattle.task_duties.specs.Agent.Sessions.{CallerOwes};
ghost use Rattle.channel_session.specs.Session.{IsAtWork, StandsOn, IsRetired};

use crate::session::Session;
use qrexec_data::{Caller, CallerParts, Outcome};
use qrexec_frame::Bytes;
use task_duties::CallerDone;
use vchan_lifecycle::retire;
use vchan_rule::Retired;

/// The side of a call that made it, with the end of its data channel.
pub type CallerSession<'p> = Session<'p, Caller>;

impl<'p> Session<'p, Caller> {
    /// Retires the end of a call with this outcome, and returns what the caller has.
    pub fn finish(self, outcome: Outcome) -> CallerEnd
        requires work { IsAtWork caller_half self.half self.end }
        requires outcome { self.half.replies.outcome ≡ Some outcome }
        ensures outcome { result.done.outcome ≡ outcome }
        ensures owed { StandsOn caller_half tt self.entry.half self.entry.end →
            CallerOwes self.entry.half.replies.own self.entry.half.requests.input result.done (last_view result.retired) }
        ensures end { IsRetired (view self.entry.end) (last_view result.retired) }
        ensures honest { (last_view result.retired).turned ≡ false }
    {
        let Session { half, end, .. } = self;
        let CallerParts {
            stdout,
            stderr,
            got,
        } = half.into_parts();
        let done = CallerDone {
            outcome,
            stdout: Bytes::of(stdout),
            stderr: Bytes::of(stderr),
            got: Bytes::of(got),
        };
        CallerEnd {
            done,
            retired: retire(end),
        }
    }
}

/// A call that is over at its caller: what the caller has, and its end.
#[derive(Drop)]
pub struct CallerEnd {
    /// How it came out, the two outputs that came before the message that decided, and all bytes got.
    pub done: CallerDone,
    /// Its end, which makes no more events.
    pub retired: Retired,
}
