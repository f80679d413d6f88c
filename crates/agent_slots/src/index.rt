//! The ends of an agent by their places.
ghost use Rattle.std.specs.Prelude.{◌≡◌, IfOk};
ghost use Rattle.task_duties.specs.TaskOwes.{places_in};
ghost use Rattle.task_duties.specs.GivenEnds.{all_given};
ghost use Rattle.agent_slots.specs.Slots.{AreApart};
ghost use Rattle.agent_slots.specs.Index.{IsIndexOf, end_at};

use std::alloc::{AllocError, Global};
use std::collections::HashMap;
use task_duties::DataEnd;

/// Which end lies at a place: by the domain that calls, the domain that is called, and the port.
pub(crate) type Index = HashMap<(u32, u32, u32), usize>;

/// Makes the index of ends that lie at different places.
pub(crate) fn index_of(alloc: Global, ends: &[DataEnd]) -> Result<Index, AllocError>
    requires { AreApart (places_in (all_given ends.now)) }
    ensures { IfOk result (λ index. IsIndexOf (places_in (all_given ends.now)) index) }
{
    let mut index = HashMap::new(alloc);
    for (at, end) in ends.iter().enumerate() {
        index.insert((end.from, end.to, end.port), at)?;
    }
    Ok(index)
}

/// Returns which end lies at this place, if one does.
pub(crate) fn end_at(index: &Index, from: u32, to: u32, port: u32) -> Option<usize>
    ensures { result ≡ end_at index.now from to port }
{
    index.get(&(from, to, port)).copied()
}
