//! The task of a hostile client.
ghost use Rattle.std.specs.Prelude.{◌≡◌, ◌≤◌};
ghost use Rattle.hostile_seat.specs.Hostile.{strays_along};
ghost use Rattle.vchan_persist.specs.Epochs.{scribbled};

use crate::task::{EpochTask, SideDone};
use hostile_seat::{Hostile, turn};
use hostile_task::field_of;
use script_words::next_number;
use std::marker::Model;
use task_pool::Turn;
use vchan_rule::End;

/// The client's end of the page, and the stores that its user will make.
#[derive(Drop)]
pub(crate) struct Scribbling<'p> {
    end: End<'p>,
    seed: u32,
    stores: u32,
}

impl<'p> Model for Scribbling<'p> {
    ghost use Rattle.std.specs.Prelude.{◌≡◌, ◌≤◌, []};
    ghost use Rattle.ring_words.specs.declared.page.Role.TheVariants.{Client};
    ghost use Rattle.vchan_persist.specs.States.{ScribblingState};

    ghost Value = { ScribblingState };

    ghost view = { λ s. record { page = s.end.page; seed = s.seed; stores = s.stores } };

    ghost invariant = { λ s. (s.end.side.role ≡ Client) × (s.seed ≤ 65535) × (s.end.side.sent ≡ []) × (s.end.side.got ≡ []) };
}

impl<'p> Scribbling<'p> {
    ghost use Rattle.std.specs.Prelude.{◌≡◌, ◌≤◌, []};
    ghost use Rattle.ring_words.specs.declared.page.Role.TheVariants.{Client};
    ghost use Rattle.task_pool.specs.Owes.{Pays};
    ghost use Rattle.vchan_persist.specs.Owes.{epoch_owes};
    ghost use Rattle.vchan_persist.specs.Tasks.{EpochTurns};

    /// Returns the task of a user who draws this many stores from this seed on. The end has moved
    /// no byte.
    pub(crate) fn new(end: End<'p>, seed: u32, stores: u32) -> Scribbling<'p>
        requires client { end.side.role ≡ Client }
        requires seed { seed ≤ 65535 }
        requires unused { (end.side.sent ≡ []) × (end.side.got ≡ []) }
        ensures { result ≡ record { page = end.entry.page; seed = seed; stores = stores } }
    {
        Scribbling { end, seed, stores }
    }

    /// Gives the end up to its user, who makes all stores and retires it.
    pub(crate) fn turn(self) -> Turn<EpochTask<'p>>
        ensures pays { Pays epoch_owes (EpochTask.Scribbles self.entry) result }
        ensures turns { EpochTurns (EpochTask.Scribbles self.entry) result }
    {
        let Scribbling { end, seed, stores } = self;
        let mut end = turn(end);
        scribble(&mut end, seed, stores);
        Turn::Done(SideDone::Scribbled(end.retire()))
    }
}

/// Makes this many stores to fields of the header, each drawn by three numbers of the generator.
/// The first of them would choose among pages, but there is only one.
fn scribble(end: &mut Hostile<'_>, seed: u32, stores: u32)
    requires { seed ≤ 65535 }
    ensures page { end.new.page ≡ end.old.page }
    ensures side { end.new.side ≡ strays_along end.old.side (scribbled seed stores) }
{
    let mut x = seed;
    for _ in 0..stores {
        let page = next_number(x);
        let word = next_number(page);
        let value = next_number(word);
        let field = field_of(word);
        end.store(field, u64::from(value));
        x = value;
    }
}
