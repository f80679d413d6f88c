//! What is given back of ends that are done with.
ghost use Rattle.std.specs.Prelude.{◌≡◌, ◌≢◌, ◌+◌, ◌≤◌, [], ℕ, Some, IsSome, false, IfOk, length, map, slice_get, vec_capacity};
ghost use Rattle.std.specs.List.{AllByRecursion as Each};
ghost use Rattle.task_duties.specs.GivenEnds.{all_retired, retired_at};
ghost use Rattle.agent_slots.specs.Done.{AreBack};
ghost use Rattle.agent_slots.specs.Stages.{CanRetire, is_session};
ghost use Rattle.agent_slots.specs.Whole.{held_in};
ghost use Rattle.agent_slots.specs.Finished.{AreFinished, AreCalls, AreServings, KeepsServings, HasCall, KeepsOthers, call_at, served_at};

use crate::done::{CallOver, SessionDone};
use crate::note::{CallNote, ServedNote};
use crate::slot::Slot;
use std::alloc::{AllocError, Global};
use task_duties::{RetiredEnd, ServedDone};

/// Retires all ends, used or not, into a list that has room for them behind `first`, an end that was retired
/// before.
pub(crate) fn give_up_all(
    slots: Vec<Slot>,
    first: RetiredEnd,
    mut retired: Vec<RetiredEnd>,
) -> Vec<RetiredEnd>
    requires retire { Each (λ s. CanRetire s.stage) slots.items }
    requires empty { retired.items ≡ [] }
    requires room { length slots.items + 1 ≤ vec_capacity retired }
    ensures { AreBack (retired_at first) (held_in slots.entry.items) (all_retired result.items) }
{
    retired.push_reserved(first);
    for slot in slots {
        retired.push_reserved(slot.give_up());
    }
    retired
}

/// Retires all ends and returns what came of their sessions, none of which is open. The lists have room for
/// them, and that of the ends also for `first`, an end that was retired before and stands before them.
pub(crate) fn finish_all(
    slots: Vec<Slot>,
    first: RetiredEnd,
    mut retired: Vec<RetiredEnd>,
    reports: &mut Vec<SessionDone>,
) -> Vec<RetiredEnd>
    requires retire { Each (λ s. CanRetire s.stage) slots.items }
    requires closed { Each (λ s. is_session s.stage ≡ false) slots.items }
    requires empty { (retired.items ≡ []) × (reports.old.items ≡ []) }
    requires room { (length slots.items + 1 ≤ vec_capacity retired) × (length slots.items ≤ vec_capacity reports.old) }
    ensures { AreFinished (retired_at first) slots.entry.items (all_retired result.items) reports.new.items }
{
    retired.push_reserved(first);
    for slot in slots {
        let (end, report) = slot.finish();
        retired.push_reserved(end);
        reports.push_reserved(report);
    }
    retired
}

/// Returns what came of all sessions: the agent's own calls by their numbers, and what was served in the
/// order in which it began.
pub(crate) fn session_ends(
    alloc: Global,
    calls: &[Option<CallNote>],
    served: &[ServedNote],
    reports: &mut [SessionDone],
) -> Result<(Vec<Option<CallOver>>, Vec<ServedDone>), AllocError>
    requires calls { AreCalls reports.old calls.now }
    requires served { AreServings reports.old served.now }
    ensures calls { IfOk result (λ done. done.0.items ≡ map (call_at reports.old) calls.now) }
    ensures served { IfOk result (λ done. map Some done.1.items ≡ map (served_at reports.old) served.now) }
{
    let calls = call_ends(alloc, calls, reports)?;
    let served = served_ends(alloc, served, reports)?;
    Ok((calls, served))
}

// What came of the agent's own calls, by their numbers.
fn call_ends(
    alloc: Global,
    calls: &[Option<CallNote>],
    reports: &mut [SessionDone],
) -> Result<Vec<Option<CallOver>>, AllocError>
    requires { AreCalls reports.old calls.now }
    ensures ends { IfOk result (λ done. done.items ≡ map (call_at reports.old) calls.now) }
    ensures others { KeepsServings reports.old reports.new }
{
    let mut done = Vec::new(alloc);
    for note in calls {
        done.push(call_end(note, reports))?;
    }
    Ok(done)
}

// What came of the sessions that were served, in the order in which they began.
fn served_ends(
    alloc: Global,
    served: &[ServedNote],
    reports: &mut [SessionDone],
) -> Result<Vec<ServedDone>, AllocError>
    requires { AreServings reports.old served.now }
    ensures { IfOk result (λ done. map Some done.items ≡ map (served_at reports.old) served.now) }
{
    let mut done = Vec::new(alloc);
    for note in served {
        done.push(served_end(note, reports))?;
    }
    Ok(done)
}

// What came of a call, if it has a session.
fn call_end(note: &Option<CallNote>, reports: &mut [SessionDone]) -> Option<CallOver>
    requires { HasCall reports.old note.now }
    ensures end { result ≡ call_at reports.old note.now }
    ensures others { KeepsOthers note.now reports.old reports.new }
{
    match note {
        Some(note) => Some(reports[note.at].take_call()),
        None => None,
    }
}

// What came of a served session.
fn served_end(note: &ServedNote, reports: &mut [SessionDone]) -> ServedDone
    requires { IsSome (served_at reports.old note.now) }
    ensures end { served_at reports.old note.now ≡ Some result }
    ensures others { (at : ℕ) → at ≢ note.now.at → slice_get reports.new at ≡ slice_get reports.old at }
{
    reports[note.at].take_served()
}
