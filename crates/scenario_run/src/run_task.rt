//! A task of a run, which is made at its first turn.
ghost use Rattle.scenario_run.specs.Turns.{Owes, RunTurns};

use crate::tasks::{broker, domain, is_scenario};
use crate::unmade::{retire_controls, retire_hand};
use domain_task::{Task, TaskDone};
use run_pages::Hand;
use scenario_file::Scenario;
use std::alloc::Global;
use std::marker::Model;
use std::sync::atomic::{AtomicBool, Ordering};
use task_duties::{RetiredEnd, UnmadeEnds};
use task_pool::{PoolTask, Turn};
use vchan_rule::End;

/// How far a task of a run is. One that wasn't made has room for its ends, so that they retire without memory.
#[derive(Drop)]
pub(crate) enum TaskStage<'p> {
    /// The broker's task, with its ends of the control pages, in the order of the domains.
    Broker {
        controls: Vec<End<'p>>,
        retired: Vec<RetiredEnd>,
    },
    /// The task of the domain with this number, with its ends.
    Domain {
        number: u32,
        hand: Hand<'p>,
        retired: Vec<RetiredEnd>,
    },
    /// A task that was made.
    Made(Task<'p>),
}

/// A task of a run. It is made from its ends at its first turn, by the worker that makes that turn. Contracts
/// see what it waits to be made of, or the task that was made.
///
/// If memory runs out for a task, its ends retire, and it sets a flag that all tasks share. Each of the others
/// retires its ends at its next turn, and is done as out of memory too, since there will be no report.
#[derive(Drop)]
pub(crate) struct RunTask<'p, 's> {
    alloc: Global,
    scenario: &'s Scenario,
    no_memory: &'s AtomicBool,
    stage: TaskStage<'p>,
}

impl<'p, 's> Model for RunTask<'p, 's> {
    ghost use Rattle.scenario_run.specs.Stages.{MayMake, state_at};
    ghost use Rattle.scenario_run.specs.Turns.{RunState};

    ghost Value = { RunState };

    ghost view = { λ t. state_at t.scenario.now t.stage };

    ghost invariant = { λ t. MayMake t.scenario.now t.stage };
}

impl<'p> TaskStage<'p> {
    ghost use Rattle.std.specs.Prelude.{◌≡◌, IfOk, IfErr};
    ghost use Rattle.task_duties.specs.TaskOwes.{TaskOwes, NoMemory};
    ghost use Rattle.task_duties.specs.GivenEnds.{all_retired};
    ghost use Rattle.domain_task.specs.Given.{given_of};
    ghost use Rattle.scenario_run.specs.Stages.{MayMake, state_at};
    ghost use Rattle.scenario_run.specs.Turns.{IsOf, given_in};

    // Returns the task, and makes it first unless it was made. If memory runs out, returns its ends retired.
    fn task(self, alloc: Global, scenario: &Scenario) -> Result<Task<'p>, Vec<RetiredEnd>>
        requires { MayMake scenario.now self }
        ensures given { IfOk result (λ task. given_of task ≡ given_in (state_at scenario.now self.entry)) }
        ensures made { IfOk result (IsOf (state_at scenario.now self.entry)) }
        ensures unmade { IfErr result (λ ends. TaskOwes (given_in (state_at scenario.now self.entry)) (NoMemory (all_retired ends.items))) }
    {
        is_scenario(scenario);
        match self {
            TaskStage::Broker { controls, retired } => match broker(alloc, scenario, controls) {
                Ok(task) => Ok(task),
                Err(controls) => Err(retire_controls(controls, retired)),
            },
            TaskStage::Domain {
                number,
                hand,
                retired,
            } => match domain(alloc, scenario, number, hand) {
                Ok(task) => Ok(task),
                Err(ends) => Err(retire_hand(number, ends.control, ends.payload, retired)),
            },
            TaskStage::Made(task) => Ok(task),
        }
    }

    // Retires all ends.
    fn give_up(self, scenario: &Scenario) -> Vec<RetiredEnd>
        requires { MayMake scenario.now self }
        ensures { TaskOwes (given_in (state_at scenario.now self.entry)) (NoMemory (all_retired result.items)) }
    {
        is_scenario(scenario);
        match self {
            TaskStage::Broker { controls, retired } => retire_controls(controls, retired),
            TaskStage::Domain {
                number,
                hand,
                retired,
            } => retire_hand(number, hand.control, hand.payload, retired),
            TaskStage::Made(task) => task.give_up(),
        }
    }
}

impl<'p, 's> RunTask<'p, 's> {
    ghost use Rattle.std.specs.Prelude.{◌≡◌};
    ghost use Rattle.scenario_run.specs.Stages.{MayMake, state_at};

    /// Makes a task of this scenario. All tasks of a run share `no_memory`, which is false at first.
    pub(crate) fn new(
        alloc: Global,
        scenario: &'s Scenario,
        no_memory: &'s AtomicBool,
        stage: TaskStage<'p>,
    ) -> RunTask<'p, 's>
        requires { MayMake scenario.now stage }
        ensures { result ≡ state_at scenario.now stage.entry }
    {
        RunTask {
            alloc,
            scenario,
            no_memory,
            stage,
        }
    }
}

impl<'p, 's> PoolTask for RunTask<'p, 's> {
    type Done = TaskDone;

    ghost owes = { Owes };

    ghost turns = { RunTurns };

    fn turn(self) -> Turn<Self> {
        let RunTask {
            alloc,
            scenario,
            no_memory,
            stage,
        } = self;
        if no_memory.load(Ordering::SeqCst) {
            let ends = stage.give_up(scenario);
            return Turn::Done(TaskDone::NoMemory { ends });
        }
        match stage.task(alloc, scenario) {
            Ok(task) => match task.turn() {
                Turn::Again(task) => Turn::Again(RunTask {
                    alloc,
                    scenario,
                    no_memory,
                    stage: TaskStage::Made(task),
                }),
                Turn::Done(done) => Turn::Done(done),
            },
            Err(ends) => {
                no_memory.store(true, Ordering::SeqCst);
                Turn::Done(TaskDone::NoMemory { ends })
            }
        }
    }

    fn moved(&self) -> bool {
        match &self.stage {
            TaskStage::Broker { .. } | TaskStage::Domain { .. } => true,
            TaskStage::Made(task) => task.moved(),
        }
    }
}
