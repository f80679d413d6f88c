//! The tasks of a run: the agent of a domain, the task of the broker, and the task of a hostile domain.
//!
//! It serves programs that run a scenario: it has one type for the three, which a pool of workers turns.
//! docs/QREXEC.md says in plain words what each task does in a turn and what it owes.
#![tactic(auto)]

mod done;
mod pool;
mod task;

pub use agent_task::AgentDone;
pub use broker_task::BrokerDone;
pub use done::TaskDone;
pub use hostile_task::HostileDone;
pub use task::Task;
pub use task_duties::{CallDone, DataEnd, PagePlace, RetiredEnd, ServedDone};
