//! What an agent reports, and how it gives up.
ghost use Rattle.std.specs.Prelude.{◌≡◌, ◌<◌, [], true, false, Some, None, IfOk, IfErr, length, slice_get};
ghost use Rattle.vchan_rule.specs.Seated.{view, last_view};
ghost use Rattle.task_duties.specs.declared.place.PagePlace.TheVariants.{Control};
ghost use Rattle.task_duties.specs.TaskOwes.{AreGivenBack};
ghost use Rattle.task_duties.specs.GivenEnds.{all_retired, retired_at};
ghost use Rattle.task_duties.specs.Agent.Answers.{Asked};
ghost use Rattle.agent_queue.specs.Queue.{answer_of, asked_by};
ghost use Rattle.agent_task.specs.Standing.{CanGiveUp, CanRest};
ghost use Rattle.agent_task.specs.Ending.{IsOver};
ghost use Rattle.agent_task.specs.Finishing.{call_end_of, call_done_of, call_dones};
ghost use Rattle.agent_task.specs.Given.{plan_of, ends_of};
ghost use Rattle.agent_task.specs.Owing.{IsOwed};
ghost use Rattle.agent_task.specs.Telling.{TellsAll};

use crate::agent::Agent;
use crate::task::AgentDone;
use agent_control::AgentControl;
use agent_queue::{CallAnswer, CallQueue};
use agent_slots::{CallOver, DataDone};
use control_port::ControlPort;
use std::alloc::Global;
use task_duties::{CallDone, CallEnd, CallerDone, ControlEnd, DoneEnd, PagePlace, RetiredEnd};
use vchan_io::Memory;
use vchan_rule::Retired;

impl<'p> Agent<'p> {
    /// Retires the data ends that were never used, and returns what came of all calls. The control channel is
    /// over, and no session is open.
    ///
    /// Returns all ends, retired and in the order in which they were given, if memory runs out.
    pub(crate) fn finish(self, over: ControlEnd) -> Result<AgentDone, Vec<RetiredEnd>>
        requires over { IsOver over self }
        requires idle { self.slots.opened ≡ [] }
        ensures owed { IfOk result (λ done. IsOwed self.entry.given done) }
        ensures tells { IfOk result (λ done. TellsAll (plan_of self.entry.given) done) }
        ensures err { IfErr result (λ ends. AreGivenBack false (ends_of self.entry.given) (all_retired ends.items)) }
    {
        let Agent {
            alloc,
            given,
            control,
            slots,
            ..
        } = self;
        let AgentControl { port, queue, .. } = control;
        let domain = given.domain;
        let first = control_end(domain, port.rest());
        let came = match slots.finish(first) {
            Ok(came) => came,
            Err(ends) => return Err(ends),
        };
        let DataDone {
            ends,
            calls,
            served,
        } = came;
        let Ok(calls) = call_dones(alloc, &queue, calls) else {
            return Err(ends);
        };
        Ok(AgentDone {
            domain,
            calls,
            served,
            control: over,
            ends,
        })
    }

    /// Retires all ends, and returns them in the order in which they were given.
    pub(crate) fn give_up(self) -> Vec<RetiredEnd>
        requires { CanGiveUp self }
        ensures { AreGivenBack false (ends_of self.entry.given) (all_retired result.items) }
    {
        let Agent {
            given,
            control,
            slots,
            over,
            ..
        } = self;
        let AgentControl { port, .. } = control;
        let domain = given.domain;
        let first = control_end(domain, retired_port(port, over));
        slots.give_up(first)
    }
}

// Retires the end of a port, unless it was retired when the channel was over.
fn retired_port(port: ControlPort, over: Option<ControlEnd>) -> Retired
    requires idle { (view port.end).idle ≡ true }
    requires rests { CanRest over (view port.end) }
    ensures page { (last_view result).page ≡ (view port.entry.end).page }
    ensures role { (last_view result).role ≡ (view port.entry.end).role }
    ensures honest { (last_view result).turned ≡ false }
{
    match over {
        Some(_) => port.rest(),
        None => port.retire(),
    }
}

// The retired end of the control page of a domain.
fn control_end(domain: u32, retired: Retired) -> RetiredEnd
    ensures { retired_at result ≡ record { place = Control domain; view = last_view retired } }
{
    RetiredEnd {
        place: PagePlace::Control { domain },
        retired: DoneEnd::Laid(retired),
    }
}

// What came of the calls, in their order.
fn call_dones(
    alloc: Global,
    queue: &CallQueue,
    over: Vec<Option<CallOver>>,
) -> Result<Vec<CallDone>, Memory>
    requires { length over.items ≡ length (asked_by queue.now) }
    ensures { IfOk result (λ done. done.items ≡ call_dones (asked_by queue.now) over.items) }
{
    let mut done = Vec::new(alloc);
    for session in over {
        let place = done.len();
        done.push(call_done(queue, place, session))?;
    }
    Ok(done)
}

// What came of the call at a place.
fn call_done(queue: &CallQueue, place: usize, over: Option<CallOver>) -> CallDone
    requires { place < length queue.now.calls }
    ensures { (a : Asked) → slice_get (asked_by queue.now) place ≡ Some a → result ≡ call_done_of a over }
{
    CallDone {
        number: queue.number(place),
        end: call_end(queue.answer(place), over),
    }
}

// What came of a call with this answer and this session.
fn call_end(answer: CallAnswer, over: Option<CallOver>) -> CallEnd
    ensures { result ≡ call_end_of (answer_of answer) over }
{
    match over {
        Some(
            CallOver {
                to,
                port,
                done: CallerDone {
                    outcome,
                    stdout,
                    stderr,
                    got,
                },
            },
        ) => CallEnd::Session {
            port,
            to,
            outcome,
            stdout,
            stderr,
            got,
        },
        None => unsessioned(answer),
    }
}

// What came of a call that had no session.
fn unsessioned(answer: CallAnswer) -> CallEnd
    ensures { result ≡ call_end_of (answer_of answer) None }
{
    match answer {
        CallAnswer::Refused => CallEnd::Refused,
        CallAnswer::Waits | CallAnswer::At { .. } => CallEnd::Unanswered,
    }
}
