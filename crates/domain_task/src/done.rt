//! What a task of a run gives when it is done.
use agent_task::AgentDone;
use broker_task::BrokerDone;
use hostile_task::HostileDone;
use task_duties::RetiredEnd;

/// What a task gives when it is done. All ends that it was given are retired then, and given back.
#[derive(Drop)]
pub enum TaskDone {
    /// What an agent reports.
    Agent(AgentDone),
    /// The broker with its journal.
    Broker(BrokerDone),
    /// A hostile domain that has done all its acts.
    Hostile(HostileDone),
    /// Memory ran out.
    NoMemory {
        /// The ends, in the order in which they were given.
        ends: Vec<RetiredEnd>,
    },
}
