//! One turn of an act that sends bytes.
ghost use Rattle.std.specs.Prelude.{◌≡◌, ◌≤◌, ◌<◌, ◌+◌, false, List, ℕ, length};
ghost use Rattle.ring_words.specs.declared.page.Role.TheVariants.{Server};
ghost use Rattle.vchan_protocol.specs.declared.op.PastEvent.{PastEvent};
ghost use Rattle.task_duties.specs.Hostile.Saying.{Voice};
ghost use Rattle.hostile_task.specs.Saying.{SaysSoFar, SaysOn};

use crate::progress::Progress;
use hostile_seat::Hostile;

/// The greatest number of turns that an act of saying takes. Then it gives up, since its peer may
/// never read on.
const MOST_TURNS: u32 = 1_024;

/// Sends as many of the bytes that are left as have room, never more than 1,048,576, the bytes of
/// the greatest ring. Returns whether the act is over: nothing is left, or it has taken the
/// greatest number of turns. If nothing was left, no event is made.
pub fn say(control: &mut Hostile<'_>, progress: &mut Progress, words: &[u8]) -> bool
    requires role { control.old.side.role ≡ Server }
    requires within { progress.old.said ≤ length words.now }
    requires turns { progress.old.turns < 1024 }
    ensures acts { progress.new.acts ≡ progress.old.acts }
    ensures turns { result ≡ false → (progress.new.turns ≡ progress.old.turns + 1) × (progress.new.turns < 1024) }
    ensures says { (before : Voice) (events : List PastEvent) → before.orders ≡ control.old.side.orders → SaysSoFar before words.now progress.old events →
        SaysOn before words.now events result progress.new control.old control.new }
{
    let left = &words[progress.said..];
    if left.is_empty() {
        return true;
    }
    progress.said += control.say(&mut progress.own, left) as usize;
    progress.turns += 1;
    progress.said == words.len() || progress.turns == MOST_TURNS
}
