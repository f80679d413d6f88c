//! The task of an agent.
ghost use Rattle.std.specs.Prelude.{◌<◌, IfOk, length, map};
ghost use Rattle.std.specs.List.{AllByRecursion as Each};
ghost use Rattle.list_laws.specs.Lists.{AreDifferent};
ghost use Rattle.agent_queue.specs.Queue.{FitsTrigger};
ghost use Rattle.agent_task.specs.Starting.{IsNewQueue};

use crate::agent::{Agent, Given};
use crate::boxed::{go_round, over_at, taken};
use agent_control::AgentControl;
use agent_queue::CallQueue;
use agent_slots::DataSlots;
use control_port::{ControlPort, Talker};
use scenario_file::CallPlan;
use std::alloc::Global;
use std::collections::VecDeque;
use std::marker::Model;
use std::snapshot::Snapshot;
use task_duties::{
    CallDone, ControlEnd, DataEnd, RetiredEnd, ServedDone, SessionEnd, TaskTurn, UnmadeEnds,
};
use vchan_io::Memory;
use vchan_rule::End;

/// The most bytes that a turn takes of one channel. Source: this project's own.
const SCRATCH: usize = 8_192;

/// The agent of a domain. Contracts see what the task was given, which no turn changes, its control end, and
/// its sessions.
#[derive(Drop)]
pub struct AgentTask<'p> {
    // The agent, which is there between two turns. Boxed because it is large, and the workers that turn tasks
    // move them.
    agent: Box<Option<Agent<'p>>>,
    // The buffer through which all bytes are read.
    scratch: Vec<u8>,
    // The sessions that were over in a turn. The list is kept for its room.
    ended: Vec<SessionEnd>,
    // Whether the last turn moved anything.
    moved: bool,
}

impl<'p> Model for AgentTask<'p> {
    ghost use Rattle.std.specs.Prelude.{◌≡◌, ◌<◌, [], IsSomeAnd, length};
    ghost use Rattle.agent_task.specs.State.{AgentState, state_in};

    ghost Value = { AgentState };

    ghost use Rattle.agent_task.specs.Ending.{IsRunning};

    ghost view = { λ t. state_in t.agent.value };

    ghost invariant = { λ t. IsSomeAnd t.agent.value IsRunning × (0 < length t.scratch.items) × (t.ended.items ≡ []) };
}

/// The memory of a task that has no ends yet.
#[derive(Drop)]
struct TaskRoom<'p> {
    agent: Box<Option<Agent<'p>>>,
    queue: CallQueue,
    scratch: Vec<u8>,
}

/// An agent that is done.
#[derive(Drop)]
pub struct AgentDone {
    /// The number of its domain.
    pub domain: u32,
    /// What came of each of its calls, in their order.
    pub calls: Vec<CallDone>,
    /// The sessions in which it served, in the order in which they began.
    pub served: Vec<ServedDone>,
    /// How its control channel ended.
    pub control: ControlEnd,
    /// Its ends, in the order in which they were given, with the end of the control page first.
    pub ends: Vec<RetiredEnd>,
}

impl<'p> AgentTask<'p> {
    ghost use Rattle.std.specs.Prelude.{◌≡◌, ◌<◌, ◌≤◌, [], false, length, map, IfOk, IfErr};
    ghost use Rattle.ring_words.specs.declared.page.Role.TheVariants.{Server};
    ghost use Rattle.end_view.specs.EndView.{IsUnused};
    ghost use Rattle.vchan_rule.specs.Seated.{view};
    ghost use Rattle.std.specs.List.{AllByRecursion as Each};
    ghost use Rattle.task_duties.specs.TaskOwes.{Agent as AgentWith, AreGivenBack, agent_given, places_in};
    ghost use Rattle.task_duties.specs.GivenEnds.{all_given, all_retired};
    ghost use Rattle.list_laws.specs.Lists.{AreDifferent};
    ghost use Rattle.agent_queue.specs.Queue.{FitsTrigger};
    ghost use Rattle.agent_slots.specs.Slots.{IsGiven, AreApart};
    ghost use Rattle.agent_task.specs.Given.{given_of, plan_of};
    ghost use Rattle.agent_task.specs.State.{AgentState, task_given};
    ghost use Rattle.agent_task.specs.Ending.{IsOver};
    ghost use Rattle.agent_task.specs.Starting.{IsNew, IsNewTask};
    ghost use Rattle.agent_task.specs.Turns.{Pays, Tells, GoesOn};

    /// Makes the task of the agent of a domain, of version 2 or 3, with its calls and its ends. All ends are
    /// unused. The end of the control page is the server's. A data end is the server's if the domain calls on
    /// its page, and the client's otherwise; no two lie at one place. The numbers of the calls differ, and
    /// their texts fit a trigger: a target of at most 31 bytes, and a service of at most 63.
    ///
    /// Returns the ends as they were given if memory runs out.
    pub fn new(
        alloc: Global,
        domain: u32,
        version: u32,
        calls: Vec<CallPlan>,
        control: End<'p>,
        payload: Vec<DataEnd<'p>>,
    ) -> Result<AgentTask<'p>, UnmadeEnds<'p>>
        requires version { (2 ≤ version) × (version ≤ 3) }
        requires different { AreDifferent (map (λ c. c.number) calls.items) }
        requires short { Each FitsTrigger calls.items }
        requires control { IsUnused (view control) × ((view control).role ≡ Server) }
        requires payload { Each (IsGiven domain) (all_given payload.items) }
        requires apart { AreApart (places_in (all_given payload.items)) }
        ensures made { IfOk result (λ task. AgentWith task.plan task.ends ≡ agent_given domain version calls.items (view control.entry) (all_given payload.entry.items)) }
        ensures new { IfOk result IsNewTask }
        ensures unmade { IfErr result (λ unmade. unmade ≡ record { control = control.entry; payload = payload.entry }) }
    {
        let given = Given {
            domain,
            version,
            calls: Snapshot::of(&calls),
            control: Snapshot::of(&control),
            payload: Snapshot::of(&payload),
        };
        let count = calls.len();
        let Ok(room) = room_for(alloc, calls) else {
            return Err(UnmadeEnds { control, payload });
        };
        let slots = match DataSlots::new(alloc, domain, version, payload, count) {
            Ok(slots) => slots,
            Err(payload) => return Err(UnmadeEnds { control, payload }),
        };
        let port = ControlPort::new(alloc, control, Talker::Agent, version);
        Ok(AgentTask::of(alloc, given, room, port, slots))
    }

    // Puts the task of an agent together, in memory that is there.
    fn of(
        alloc: Global,
        given: Given<'p>,
        room: TaskRoom<'p>,
        port: ControlPort<'p>,
        slots: DataSlots<'p>,
    ) -> AgentTask<'p>
        requires running { IsNew given room.queue port slots }
        requires some { 0 < length room.scratch.items }
        ensures given { task_given result ≡ given_of given.entry }
        ensures new { IsNewTask result }
    {
        let TaskRoom {
            mut agent,
            queue,
            scratch,
        } = room;
        let control = AgentControl {
            port,
            queue,
            unsaid: VecDeque::new(alloc),
        };
        // In a call: dropped here, each part of an agent would be dropped in the proof of this function.
        drop(Box::replace(
            &mut agent,
            Some(Agent {
                alloc,
                given,
                control,
                slots,
                over: None,
            }),
        ));
        AgentTask {
            agent,
            scratch,
            ended: Vec::new(alloc),
            moved: true,
        }
    }

    /// Returns whether the last turn moved anything that another task may wait for, or whether there was no
    /// turn yet. No contract relies on it.
    pub fn moved(&self) -> bool {
        self.moved
    }

    /// Makes one turn, which is a round over all channels. Once the control channel and all sessions are
    /// over, it gives the report. If memory runs out, it gives all ends back.
    pub fn turn(self) -> TaskTurn<AgentTask<'p>, AgentDone>
        ensures pays { Pays (task_given self.entry) result }
        ensures tells { Tells self.entry.plan result }
        ensures goes { GoesOn self.entry result }
    {
        let AgentTask {
            mut agent,
            mut scratch,
            mut ended,
            ..
        } = self;
        let Ok(moved) = go_round(&mut agent, &mut scratch, &mut ended) else {
            let ends = taken(agent).give_up();
            return TaskTurn::NoMemory { ends };
        };
        match over_at(&agent) {
            Some(over) => AgentTask::finish(taken(agent), over),
            None => TaskTurn::Again(AgentTask {
                agent,
                scratch,
                ended,
                moved,
            }),
        }
    }

    /// Retires all ends, and returns them in the order in which they were given, with the end of the control
    /// page first. It takes no memory.
    pub fn give_up(self) -> Vec<RetiredEnd>
        ensures { AreGivenBack false self.entry.ends (all_retired result.items) }
    {
        let AgentTask { agent, .. } = self;
        taken(agent).give_up()
    }

    // Gives the report. Everything is over.
    fn finish(agent: Agent<'p>, over: ControlEnd) -> TaskTurn<AgentTask<'p>, AgentDone>
        requires over { IsOver over agent }
        requires idle { agent.slots.opened ≡ [] }
        ensures pays { Pays (given_of agent.entry.given) result }
        ensures tells { Tells (plan_of agent.entry.given) result }
        ensures done { (before : AgentState) → GoesOn before result }
    {
        match agent.finish(over) {
            Ok(done) => TaskTurn::Done(done),
            Err(ends) => TaskTurn::NoMemory { ends },
        }
    }
}

// Takes the memory of a task that has these calls.
fn room_for<'p>(alloc: Global, calls: Vec<CallPlan>) -> Result<TaskRoom<'p>, Memory>
    requires different { AreDifferent (map (λ c. c.number) calls.items) }
    requires short { Each FitsTrigger calls.items }
    ensures queue { IfOk result (λ room. IsNewQueue calls.items room.queue) }
    ensures some { IfOk result (λ room. 0 < length room.scratch.items) }
{
    Ok(TaskRoom {
        agent: Box::new(alloc, None)?,
        queue: CallQueue::new(alloc, calls)?,
        scratch: vec![in alloc; 0u8; SCRATCH]?,
    })
}
