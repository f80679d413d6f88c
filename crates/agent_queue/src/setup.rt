//! A queue before anything was heard or sent.
ghost use Rattle.std.specs.Prelude.{◌≡◌, map, IfOk};
ghost use Rattle.std.specs.List.{AllZip as EachPair};
ghost use Rattle.agent_queue.specs.Inside.{IsFresh};

use crate::call::{CallAnswer, QueuedCall};
use crate::index::first_places;
use scenario_file::CallPlan;
use std::alloc::{AllocError, Global};
use std::snapshot::Snapshot;

/// Makes the calls as a queue keeps them, before anything was heard or sent of them.
pub(crate) fn queued(alloc: Global, calls: Vec<CallPlan>) -> Result<Vec<QueuedCall>, AllocError>
    ensures { IfOk result (λ queued. EachPair (IsFresh (map (λ c. c.to) calls.items)) calls.items queued.items) }
{
    let targets = first_places(alloc, &calls)?;
    let mut queued = Vec::with_capacity(alloc, calls.len())?;
    for plan in calls {
        let target = targets[queued.len()];
        queued.push(QueuedCall {
            given: Snapshot::of(&plan),
            plan,
            answer: CallAnswer::Waits,
            target,
            is_open: false,
        })?;
    }
    Ok(queued)
}
