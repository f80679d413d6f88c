//! The turns of the tasks of a run.
ghost use Rattle.domain_task.specs.Owes.{Owes, PaysFor};
ghost use Rattle.domain_task.specs.Given.{given_of};
ghost use Rattle.domain_task.specs.Turning.{TaskTurns};
ghost use Rattle.domain_task.specs.Working.{Works};

use crate::done::TaskDone;
use crate::task::Task;
use agent_task::AgentTask;
use broker_task::BrokerTask;
use hostile_task::HostileTask;
use task_duties::TaskTurn;
use task_pool::{PoolTask, Turn};

impl<'p> PoolTask for Task<'p> {
    ghost use Rattle.task_pool.specs.Owes.{Pays};

    type Done = TaskDone;

    ghost owes = { Owes };

    ghost turns = { TaskTurns };

    /// Makes one turn. Beside what the task owes it tells what its own crate tells of a turn: that the task goes
    /// on as one of its kind, and that something moved, or why nothing did. No turn lowers the number of what the
    /// task has done, of an agent on its control channel and in all its sessions; and a turn that doesn't raise
    /// it did nothing.
    #[tactic(auto, using(crate::proofs::WorkLaws::turns_work))]
    fn turn(self) -> Turn<Self>
        ensures pays { Pays Owes self.entry result }
        ensures turns { TaskTurns self.entry result }
        ensures works { Works self.entry result }
    {
        match self {
            Task::Agent(task) => turn_agent(task),
            Task::Broker(task) => turn_broker(task),
            Task::Hostile(task) => turn_hostile(task),
        }
    }

    fn moved(&self) -> bool {
        match self {
            Task::Agent(task) => task.moved(),
            Task::Broker(task) => task.moved(),
            Task::Hostile(task) => task.moved(),
        }
    }
}

// Makes a turn of an agent.
fn turn_agent<'p>(task: AgentTask<'p>) -> Turn<Task<'p>>
    ensures pays { PaysFor (given_of (Task.Agent task.entry)) result }
    ensures turns { TaskTurns (Task.Agent task.entry) result }
{
    match task.turn() {
        TaskTurn::Again(task) => Turn::Again(Task::Agent(task)),
        TaskTurn::Done(done) => Turn::Done(TaskDone::Agent(done)),
        TaskTurn::NoMemory { ends } => Turn::Done(TaskDone::NoMemory { ends }),
    }
}

// Makes a turn of the broker.
fn turn_broker<'p>(task: BrokerTask<'p>) -> Turn<Task<'p>>
    ensures pays { PaysFor (given_of (Task.Broker task.entry)) result }
    ensures turns { TaskTurns (Task.Broker task.entry) result }
{
    match task.turn() {
        TaskTurn::Again(task) => Turn::Again(Task::Broker(task)),
        TaskTurn::Done(done) => Turn::Done(TaskDone::Broker(done)),
        TaskTurn::NoMemory { ends } => Turn::Done(TaskDone::NoMemory { ends }),
    }
}

// Makes a turn of a hostile domain.
fn turn_hostile<'p>(task: HostileTask<'p>) -> Turn<Task<'p>>
    ensures pays { PaysFor (given_of (Task.Hostile task.entry)) result }
    ensures turns { TaskTurns (Task.Hostile task.entry) result }
{
    match task.turn() {
        TaskTurn::Again(task) => Turn::Again(Task::Hostile(task)),
        TaskTurn::Done(done) => Turn::Done(TaskDone::Hostile(done)),
        TaskTurn::NoMemory { ends } => Turn::Done(TaskDone::NoMemory { ends }),
    }
}
