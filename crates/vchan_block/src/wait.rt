//! Waiting for an event.
ghost use Rattle.std.specs.Prelude.{◌≡◌};
ghost use Rattle.vchan_rule.specs.Seated.{view, IsOpen};
ghost use Rattle.vchan_rule.specs.Ends.{IsSameEnd};
ghost use Rattle.vchan_block.specs.Rounds.{Waits};

use crate::pause::Pauses;
use crate::waking::Waking;
use std::sync::Wait;
use std::time::Clock;
use vchan_notify::take_event;
use vchan_rule::End;

/// Tries to take an event until it took one, as `libxenvchan_wait` waits for one.
///
/// It makes one call a try, and takes one event. The tries before that took nothing, and so it wasn't
/// signalled when it slept: until then [`round_misses_nothing`](crate::laws::round_misses_nothing) holds.
pub fn wait<R: Wait + Clock>(rt: &R, end: &mut End<'_>)
    requires { IsOpen end.old }
    ensures same { IsSameEnd end.old end.new }
    ensures open { IsOpen end.new }
    ensures view { view end.new ≡ view end.old }
    ensures waits { Waits end.old end.new }
{
    wait_waking(rt, end, Waking::Nobody);
}

/// Does the same as [`wait`], while the thread at the other end may wake this one.
pub(crate) fn wait_waking<R: Wait + Clock>(rt: &R, end: &mut End<'_>, waking: Waking<'_>)
    requires { IsOpen end.old }
    ensures same { IsSameEnd end.old end.new }
    ensures open { IsOpen end.new }
    ensures view { view end.new ≡ view end.old }
    ensures waits { Waits end.old end.new }
{
    let mut pauses = Pauses::new();
    'tries: for _ in rt.forever() {
        if take_event(end) {
            return;
        }
        pauses.pause(rt, waking);
    }
    unreachable!()
}
