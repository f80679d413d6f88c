//! One type for the tasks of a run.
ghost use Rattle.task_duties.specs.TaskOwes.{NoMemory, TaskOwes};
ghost use Rattle.task_duties.specs.GivenEnds.{all_retired};
ghost use Rattle.domain_task.specs.Given.{given_of};

use agent_task::AgentTask;
use broker_task::BrokerTask;
use hostile_task::HostileTask;
use task_duties::RetiredEnd;

/// A task of a run.
#[derive(Drop)]
pub enum Task<'p> {
    /// The agent of a domain.
    Agent(AgentTask<'p>),
    /// The task of the broker.
    Broker(BrokerTask<'p>),
    /// The task of a hostile domain.
    Hostile(HostileTask<'p>),
}

impl<'p> Task<'p> {
    /// Retires all ends of the task, and gives them back in the order in which they were given. It takes no
    /// memory.
    pub fn give_up(self) -> Vec<RetiredEnd>
        ensures { TaskOwes (given_of self.entry) (NoMemory (all_retired result.items)) }
    {
        match self {
            Task::Agent(task) => task.give_up(),
            Task::Broker(task) => task.give_up(),
            Task::Hostile(task) => task.give_up(),
        }
    }
}
