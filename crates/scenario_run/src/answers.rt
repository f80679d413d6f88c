//! What the tasks of a run answered, taken apart.
ghost use Rattle.std.specs.Prelude.{◌≡◌, ◌∷◌, map, IfOk, OnOk};
ghost use Rattle.std.specs.List.{AllByRecursion as Each};
ghost use Rattle.task_duties.specs.TaskOwes.{IsReport};
ghost use Rattle.task_duties.specs.GivenEnds.{all_retired};
ghost use Rattle.domain_task.specs.Owes.{answer_of};
ghost use Rattle.run_laws.specs.Results.{ends_of};
ghost use Rattle.scenario_run.specs.Parts.{report_of};
ghost use Rattle.std.specs.Prelude.{List};
ghost use Rattle.task_duties.specs.declared.done.CallDone.{CallDone as Done};

use agent_task::AgentDone;
use broker_task::BrokerDone;
use call_broker::{Broker, Entry};
use domain_task::TaskDone;
use hostile_task::HostileDone;
use std::alloc::Global;
use std::collections::VecDeque;
use std::marker::Model;
use task_duties::{CallDone, RetiredEnd, ServedDone};
use vchan_io::Memory;

/// What a task reports besides its ends. The calls are taken in their order.
#[derive(Drop)]
pub(crate) struct TaskReport {
    pub(crate) calls: VecDeque<CallDone>,
    pub(crate) served: Vec<ServedDone>,
    pub(crate) broker: Option<Broker>,
}

impl Model for TaskReport {
    ghost use Rattle.scenario_run.specs.Parts.{ReportPart, journal_in};

    ghost Value = { ReportPart };

    ghost view = { λ r. record { calls = r.calls.items; served = r.served.items; journal = journal_in r.broker } };
}

impl TaskReport {
    /// Takes the first call that is left.
    pub(crate) fn take_call(&mut self) -> CallDone
        requires { (call : Done) × (rest : List Done) × (self.old.calls ≡ call ∷ rest) }
        ensures calls { self.old.calls ≡ result ∷ self.new.calls }
        ensures same { (self.new.served ≡ self.old.served) × (self.new.journal ≡ self.old.journal) }
    {
        match self.calls.pop_front() {
            Some(call) => call,
            None => unreachable!(),
        }
    }

    /// Returns the journal, which only the broker's task has.
    pub(crate) fn journal(&self) -> &[Entry]
        ensures { result.now ≡ self.now.journal }
    {
        match &self.broker {
            Some(broker) => broker.journal(),
            None => &[],
        }
    }
}

/// The answers of all tasks, taken apart.
#[derive(Drop)]
pub(crate) struct Answers {
    pub(crate) ends: Vec<Vec<RetiredEnd>>,
    pub(crate) reports: Vec<TaskReport>,
}

/// Takes apart what all tasks answered. Returns `Memory` if memory runs out, or ran out in a task.
pub(crate) fn take_apart(alloc: Global, dones: Vec<TaskDone>) -> Result<Answers, Memory>
    ensures ends { IfOk result (λ a. map (λ ends. all_retired ends.items) a.ends.items ≡ map (λ done. ends_of (answer_of done)) dones.items) }
    ensures reports { IfOk result (λ a. a.reports.items ≡ map (λ done. report_of (answer_of done)) dones.items) }
    ensures done { OnOk result (Each (λ done. IsReport (answer_of done)) dones.items) }
{
    let mut answers = Answers {
        ends: Vec::with_capacity(alloc, dones.len())?,
        reports: Vec::with_capacity(alloc, dones.len())?,
    };
    for done in dones {
        let (ends, report) = parts_of(alloc, done)?;
        answers.ends.push(ends)?;
        answers.reports.push(report)?;
    }
    Ok(answers)
}

// The ends and the report in what a task answered.
fn parts_of(alloc: Global, done: TaskDone) -> Result<(Vec<RetiredEnd>, TaskReport), Memory>
    ensures ends { IfOk result (λ p. all_retired p.0.items ≡ ends_of (answer_of done)) }
    ensures report { IfOk result (λ p. p.1 ≡ report_of (answer_of done)) }
    ensures done { OnOk result (IsReport (answer_of done)) }
{
    match done {
        TaskDone::Agent(done) => Ok(parts_of_agent(done)),
        TaskDone::Broker(done) => Ok(parts_of_broker(alloc, done)),
        TaskDone::Hostile(done) => Ok(parts_of_hostile(alloc, done)),
        TaskDone::NoMemory { .. } => Err(Memory),
    }
}

fn parts_of_agent(done: AgentDone) -> (Vec<RetiredEnd>, TaskReport)
    ensures ends { all_retired result.0.items ≡ ends_of (answer_of (TaskDone.Agent done)) }
    ensures report { result.1 ≡ report_of (answer_of (TaskDone.Agent done)) }
{
    let AgentDone {
        calls,
        served,
        ends,
        ..
    } = done;
    let report = TaskReport {
        calls: VecDeque::from_vec(calls),
        served,
        broker: None,
    };
    (ends, report)
}

fn parts_of_broker(alloc: Global, done: BrokerDone) -> (Vec<RetiredEnd>, TaskReport)
    ensures ends { all_retired result.0.items ≡ ends_of (answer_of (TaskDone.Broker done)) }
    ensures report { result.1 ≡ report_of (answer_of (TaskDone.Broker done)) }
{
    let BrokerDone { broker, ends } = done;
    let report = TaskReport {
        calls: VecDeque::new(alloc),
        served: Vec::new(alloc),
        broker: Some(broker),
    };
    (ends, report)
}

fn parts_of_hostile(alloc: Global, done: HostileDone) -> (Vec<RetiredEnd>, TaskReport)
    ensures ends { all_retired result.0.items ≡ ends_of (answer_of (TaskDone.Hostile done)) }
    ensures report { result.1 ≡ report_of (answer_of (TaskDone.Hostile done)) }
{
    let report = TaskReport {
        calls: VecDeque::new(alloc),
        served: Vec::new(alloc),
        broker: None,
    };
    (done.ends, report)
}
