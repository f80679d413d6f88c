//! Ends before their first use.
ghost use Rattle.std.specs.Prelude.{◌≡◌, ◌+◌, ◌≤◌, [], None, IfOk, length, replicate, vec_capacity};
ghost use Rattle.task_duties.specs.TaskOwes.{places_in};
ghost use Rattle.task_duties.specs.GivenEnds.{all_given};
ghost use Rattle.agent_slots.specs.Slots.{AreApart};
ghost use Rattle.agent_slots.specs.Given.{unused_slots};
ghost use Rattle.agent_slots.specs.Index.{IsIndexOf};

use crate::index::{Index, index_of};
use crate::note::CallNote;
use crate::slot::Slot;
use crate::stage::Stage;
use std::alloc::{AllocError, Global};
use task_duties::{DataEnd, RetiredEnd};

/// The memory for the ends of an agent, which takes them without any more.
#[derive(Drop)]
pub(crate) struct EndsRoom<'p> {
    /// The ends by their places.
    pub(crate) index: Index,
    /// The agent's own calls, none of which has a session.
    pub(crate) calls: Vec<Option<CallNote>>,
    /// Room for the ends once they are retired, and for one more before them.
    pub(crate) retired: Vec<RetiredEnd>,
    /// No slots yet, and room for all of them.
    pub(crate) slots: Vec<Slot<'p>>,
}

/// Takes the memory for these ends, of an agent that has `calls` calls of its own.
pub(crate) fn room_for<'p>(
    alloc: Global,
    ends: &[DataEnd<'p>],
    calls: usize,
) -> Result<EndsRoom<'p>, AllocError>
    requires { AreApart (places_in (all_given ends.now)) }
    ensures slots { IfOk result (λ room. (room.slots.items ≡ []) × (length ends.now ≤ vec_capacity room.slots)) }
    ensures retired { IfOk result (λ room. (room.retired.items ≡ []) × (length ends.now + 1 ≤ vec_capacity room.retired)) }
    ensures index { IfOk result (λ room. IsIndexOf (places_in (all_given ends.now)) room.index) }
    ensures calls { IfOk result (λ room. room.calls.items ≡ replicate calls None) }
{
    Ok(EndsRoom {
        index: index_of(alloc, ends)?,
        calls: no_notes(alloc, calls)?,
        retired: Vec::with_capacity(alloc, ends.len() + 1)?,
        slots: Vec::with_capacity(alloc, ends.len())?,
    })
}

/// Puts ends, which are all unused, into slots. The list has room for them.
pub(crate) fn unused_slots<'p>(mut slots: Vec<Slot<'p>>, ends: Vec<DataEnd<'p>>) -> Vec<Slot<'p>>
    requires empty { slots.items ≡ [] }
    requires room { length ends.items ≤ vec_capacity slots }
    ensures { result.items ≡ unused_slots ends.entry.items }
{
    for DataEnd {
        from,
        to,
        port,
        end,
    } in ends {
        slots.push_reserved(Slot {
            from,
            to,
            port,
            stage: Stage::Unused { end },
        });
    }
    slots
}

// Notes of `count` calls, none of which has a session.
fn no_notes(alloc: Global, count: usize) -> Result<Vec<Option<CallNote>>, AllocError>
    ensures { IfOk result (λ notes. notes.items ≡ replicate count None) }
{
    let mut notes = Vec::with_capacity(alloc, count)?;
    for _call in 0..count {
        notes.push(None)?;
    }
    Ok(notes)
}
