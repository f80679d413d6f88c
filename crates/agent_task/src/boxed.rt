//! An agent on the heap, whose memory is there before its ends are put in.
ghost use Rattle.std.specs.Prelude.{◌≡◌, ◌≢◌, ◌⊎◌, ◌<◌, [], false, Some, None, IsSomeAnd, IfSome, IsSome, OnOk, length};
ghost use Rattle.agent_slots.specs.Agreeing.{Agrees};
ghost use Rattle.agent_task.specs.Standing.{CanGiveUp};
ghost use Rattle.agent_task.specs.Ending.{IsOver, IsRunning};
ghost use Rattle.agent_task.specs.Moving.{TurnsChannel, KeepsChannel};
ghost use Rattle.agent_task.specs.State.{state_in, task_given, TurnsEach};

use crate::agent::Agent;
use task_duties::{ControlEnd, SessionEnd};
use vchan_io::Memory;

/// Makes one round of an agent over all channels, as [`Agent::go_round`].
pub(crate) fn go_round(
    agent: &mut Option<Agent>,
    scratch: &mut [u8],
    over: &mut Vec<SessionEnd>,
) -> Result<bool, Memory>
    requires running { IsSomeAnd agent.old IsRunning }
    requires some { 0 < length scratch.old }
    requires empty { over.old.items ≡ [] }
    ensures running { OnOk result (IsSomeAnd agent.new IsRunning) }
    ensures empty { OnOk result (over.new.items ≡ []) }
    ensures given { task_given (state_in agent.new) ≡ task_given (state_in agent.old) }
    ensures turns { OnOk result (TurnsEach (state_in agent.old).sessions (state_in agent.new).sessions) }
    ensures channel { OnOk result ((state_in agent.new).over ≡ None → TurnsChannel (state_in agent.new).pages (state_in agent.old).channel (state_in agent.new).channel) }
    ensures kept { OnOk result (KeepsChannel (state_in agent.old).over (state_in agent.new).over (state_in agent.old).channel (state_in agent.new).channel) }
    ensures agree { OnOk result (IsSomeAnd agent.new (λ a. Agrees a.slots)) }
    ensures retire { IsSomeAnd agent.new CanGiveUp }
    ensures long { length scratch.new ≡ length scratch.old }
{
    match agent {
        Some(agent) => agent.go_round(scratch, over),
        None => unreachable!(),
    }
}

/// Returns how the control channel of an agent ended, once all its sessions are over too.
pub(crate) fn over_at(agent: &Option<Agent>) -> Option<ControlEnd>
    requires { IsSomeAnd agent.now IsRunning }
    ensures some { IfSome result (λ over. IsSomeAnd agent.now (λ a. IsOver over a × (a.slots.opened ≡ []))) }
    ensures none { result ≡ None → ((state_in agent.now).over ≡ None) ⊎ ((state_in agent.now).opened ≢ []) }
{
    match agent {
        Some(agent) => agent.ended(),
        None => unreachable!(),
    }
}

/// Takes the agent out.
pub(crate) fn taken<'p>(agent: Box<Option<Agent<'p>>>) -> Agent<'p>
    requires { IsSome agent.value }
    ensures { agent.entry.value ≡ Some result }
{
    match Box::into_inner(agent) {
        Some(agent) => agent,
        None => unreachable!(),
    }
}
