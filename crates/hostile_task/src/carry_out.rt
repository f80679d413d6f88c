//! One turn of the act under way.
ghost use Rattle.std.specs.Prelude.{◌≡◌, ◌<◌, ◌+◌, length, OnOk};
ghost use Rattle.hostile_task.specs.UnderWay.{IsUnderWay};
ghost use Rattle.hostile_task.specs.Pages.{AreSamePages};
ghost use Rattle.hostile_task.specs.Turns.{TakesTurn};

use crate::domain::HostileDomain;
use crate::pages::Pages;
use crate::progress::Progress;
use crate::say::say;
use crate::spell::prepare;
use scenario_file::Act;
use std::alloc::Global;
use vchan_io::Memory;

/// Carries out one turn of the next act. A scribble is one turn: its stores are drawn one by one,
/// without waiting in between. It leaves fewer turns of the acts.
///
/// # Errors
///
/// `Memory` if memory runs out for the bytes that an act sends; no event
/// was made then.
pub fn carry_out(
    alloc: Global,
    domain: &HostileDomain,
    pages: &mut Pages<'_>,
    progress: &mut Progress,
    spelled: &mut Vec<u8>,
) -> Result<(), Memory>
    requires way { IsUnderWay domain.now pages.old progress.old spelled.old.items }
    requires left { progress.old.acts < length domain.now.acts }
    ensures way { IsUnderWay domain.now pages.new progress.new spelled.new.items }
    ensures same { AreSamePages pages.old pages.new }
    ensures turn { OnOk result (TakesTurn domain.now.acts progress.old.acts progress.old.turns progress.new.acts progress.new.turns) }
{
    let act = &domain.acts.list()[progress.acts];
    match act {
        Act::Poke { page, word, value } => {
            pages.poke(domain, page, *word, *value);
            progress.end_turn(true);
            Ok(())
        }
        Act::Scribble { seed, count } => {
            pages.scribble(*seed, *count);
            progress.end_turn(true);
            Ok(())
        }
        Act::Signal => {
            pages.signal();
            progress.end_turn(true);
            Ok(())
        }
        Act::Rest { turns } => {
            progress.rest();
            progress.end_turn(progress.turns >= *turns);
            Ok(())
        }
        _ => {
            prepare(alloc, act, progress.turns, spelled)?;
            let over = say(&mut pages.control.end, progress, spelled);
            progress.end_turn(over);
            Ok(())
        }
    }
}
