//! The task of a relay.
ghost use Rattle.std.specs.Prelude.{◌≡◌, false};
ghost use Rattle.vchan_rule.specs.Ends.{IsSameEnd};
ghost use Rattle.vchan_relay.specs.Relay.{IsRelay};
ghost use Rattle.vchan_relay.specs.Turns.{Advances, Leaves, ends_relay};

use crate::relay::Relay;
use crate::task::{HopDone, HopTask};
use crate::turn::RelayTurn;
use std::marker::Model;
use task_pool::Turn;

/// A relay that hasn't ended, between the server's end of one page and the client's of the next.
#[derive(Drop)]
pub(crate) struct Hop<'p> {
    relay: Relay<'p>,
    // Whether the last turn took bytes or passed them on.
    moved: bool,
}

impl<'p> Model for Hop<'p> {
    ghost use Rattle.std.specs.Prelude.{◌≡◌, false};
    ghost use Rattle.ring_words.specs.declared.page.Role.TheVariants.{Server, Client};
    ghost use Rattle.vchan_relay.specs.Relay.{RelayState};

    ghost Value = { RelayState };

    ghost view = { λ h. h.relay };

    ghost invariant = { λ h. (h.relay.ended ≡ false) × (h.relay.near.side.role ≡ Server) × (h.relay.far.side.role ≡ Client) };
}

/// Makes a turn of the relay, and another one if the first took bytes, to pass these on: so the next task
/// finds them in its turn. Returns the answer of the last turn, and whether either moved bytes.
fn advance(relay: &mut Relay<'_>) -> (RelayTurn, bool)
    requires { relay.old.ended ≡ false }
    ensures near { IsSameEnd relay.old.near relay.new.near }
    ensures far { IsSameEnd relay.old.far relay.new.far }
    ensures advances { Advances relay.old relay.new }
    ensures leaves { Leaves result.0 relay.new }
    ensures ended { relay.new.ended ≡ ends_relay result.0 }
    ensures relay { IsRelay relay.new }
{
    let turn = relay.turn();
    match turn {
        RelayTurn::Took { count: _ } => (relay.turn(), true),
        _ => (turn, moves(turn)),
    }
}

/// Returns whether a turn with this answer moved bytes, or ended the relay.
fn moves(turn: RelayTurn) -> bool {
    !matches!(turn, RelayTurn::NotYet { .. } | RelayTurn::Full { .. })
}

impl<'p> Hop<'p> {
    ghost use Rattle.std.specs.Prelude.{◌≡◌, false};
    ghost use Rattle.ring_words.specs.declared.page.Role.TheVariants.{Server, Client};
    ghost use Rattle.task_pool.specs.Owes.{Pays};
    ghost use Rattle.vchan_relay.specs.Owes.{hop_owes};
    ghost use Rattle.vchan_relay.specs.Tasks.{HopTurns};

    /// Makes the task of a relay.
    pub(crate) fn new(relay: Relay<'p>) -> Hop<'p>
        requires going { relay.ended ≡ false }
        requires near { relay.near.side.role ≡ Server }
        requires far { relay.far.side.role ≡ Client }
        ensures { result ≡ relay.entry }
    {
        Hop { relay, moved: true }
    }

    /// Returns whether the last turn moved bytes, or there was none yet.
    pub(crate) fn moved(&self) -> bool {
        self.moved
    }

    /// Goes on with the relay, and retires both its ends after it has ended.
    pub(crate) fn turn(self) -> Turn<HopTask<'p>>
        ensures pays { Pays hop_owes (HopTask.Passes self.entry) result }
        ensures turns { HopTurns (HopTask.Passes self.entry) result }
    {
        let Hop { mut relay, .. } = self;
        let (_, moved) = advance(&mut relay);
        if relay.ended() {
            let (near, far, joint) = relay.retire();
            return Turn::Done(HopDone::Passed {
                near,
                far,
                joint: Some(joint),
            });
        }
        Turn::Again(HopTask::Passes(Hop { relay, moved }))
    }
}
