//! The tasks of a run, from the ends that are dealt to them.
ghost use Rattle.std.specs.Prelude.{◌≡◌, ◌≤◌, ◌<◌, ◌+◌, ◌^◌, [], length, map, Some, None, IfOk, IfErr};
ghost use Rattle.call_broker.specs.Domains.{count_of};
ghost use Rattle.broker_task.specs.Replies.{HasShortNames};
ghost use Rattle.vchan_rule.specs.Seated.{view};
ghost use Rattle.scenario_file.specs.declared.scenario.Domain.{Domain as Named};
ghost use Rattle.scenario_file.specs.Scenario.{IsScenario, domain_of};
ghost use Rattle.run_laws.specs.Laid.{awaited_by, hub_of};
ghost use Rattle.task_duties.specs.TaskOwes.{broker_given};
ghost use Rattle.scenario_run.specs.Tasks.{AreHandsOf, AreControlsOf, AreTasksOf, AreUnmade, IsHandOf, domain_given, awaited_from};
ghost use Rattle.scenario_run.specs.Turns.{IsOf, Waits};

use crate::copies::{calls_from, copy_of_acts, entries_of, names_of};
use crate::run_task::{RunTask, TaskStage};
use agent_task::AgentTask;
use broker_task::BrokerTask;
use call_broker::Broker;
use domain_task::Task;
use hostile_task::{HostileDomain, HostileTask};
use run_pages::{Dealt, Hand, page_table};
use scenario_file::{Acts, Domain, Scenario};
use std::alloc::{AllocError, Global};
use std::sync::atomic::AtomicBool;
use task_duties::UnmadeEnds;
use vchan_io::Memory;
use vchan_rule::End;

/// Makes the tasks of a scenario from the ends that were dealt: the broker's first, then those of the domains
/// in order. Each is made ready at its first turn, and has room for its ends from now on; all share
/// `no_memory`, by which they report that memory ran out. Returns an error if memory runs out here, where no
/// task waits for another yet; the ends are dropped then.
pub(crate) fn tasks<'p, 's>(
    alloc: Global,
    scenario: &'s Scenario,
    no_memory: &'s AtomicBool,
    dealt: Dealt<'p>,
) -> Result<Vec<RunTask<'p, 's>>, AllocError>
    requires controls { AreControlsOf scenario.now dealt.controls.items }
    requires hands { AreHandsOf scenario.now dealt.hands.items }
    ensures { IfOk result (λ tasks. AreTasksOf scenario.now (map view dealt.entry.controls.items) dealt.entry.hands.items tasks.items) }
{
    is_scenario(scenario);
    let Dealt { controls, hands } = dealt;
    let mut tasks = Vec::with_capacity(alloc, hands.len() + 1)?;
    let retired = Vec::with_capacity(alloc, controls.len())?;
    let broker = TaskStage::Broker { controls, retired };
    tasks.push(RunTask::new(alloc, scenario, no_memory, broker))?;
    let mut number = 1;
    for hand in hands {
        let retired = Vec::with_capacity(alloc, hand.payload.len() + 1)?;
        let domain = TaskStage::Domain {
            number,
            hand,
            retired,
        };
        tasks.push(RunTask::new(alloc, scenario, no_memory, domain))?;
        number += 1;
    }
    Ok(tasks)
}

/// Makes the task of the broker. Returns the ends as they were given if memory runs out.
#[inline(never)]
pub(crate) fn broker<'p>(
    alloc: Global,
    scenario: &Scenario,
    controls: Vec<End<'p>>,
) -> Result<Task<'p>, Vec<End<'p>>>
    requires { AreControlsOf scenario.now controls.items }
    ensures made { IfOk result (IsOf (Waits (broker_given (hub_of scenario.now) (awaited_by scenario.now) (map view controls.entry.items)))) }
    ensures unmade { IfErr result (λ ends. ends ≡ controls.entry) }
{
    let Ok(plan) = broker_plan(alloc, scenario) else {
        return Err(controls);
    };
    let BrokerPlan { broker, awaited } = plan;
    match BrokerTask::new(alloc, broker, awaited, controls) {
        Ok(task) => Ok(Task::Broker(task)),
        Err(controls) => Err(controls),
    }
}

// What the task of the broker is made of, beside its ends.
#[derive(Drop)]
struct BrokerPlan {
    broker: Broker,
    awaited: Vec<u32>,
}

// The broker of a scenario, which has heard nothing yet, and how many calls of each domain it awaits.
fn broker_plan(alloc: Global, scenario: &Scenario) -> Result<BrokerPlan, Memory>
    ensures first { IfOk result (λ plan. plan.broker.journal ≡ []) }
    ensures hub { IfOk result (λ plan. plan.broker.hub ≡ hub_of scenario.now) }
    ensures awaited { IfOk result (λ plan. plan.awaited.items ≡ awaited_by scenario.now) }
    ensures names { IfOk result (λ plan. HasShortNames plan.broker.hub) }
    ensures count { IfOk result (λ plan. (count_of plan.broker.hub ≡ length scenario.now.domains) × (length plan.awaited.items ≡ length scenario.now.domains)) }
    ensures few { length scenario.now.domains < 2 ^ 32 }
{
    is_scenario(scenario);
    let domains = entries_of(alloc, scenario)?;
    let pages = page_table(alloc, scenario)?;
    let broker = Broker::new(alloc, domains, pages)?;
    let awaited = awaited(alloc, scenario)?;
    Ok(BrokerPlan { broker, awaited })
}

// For the proof: what holds of every scenario.
pub(crate) fn is_scenario(scenario: &Scenario)
    ensures { IsScenario scenario.now }
{
    let _start = scenario.start;
}

// The number of calls of each domain.
fn awaited(alloc: Global, scenario: &Scenario) -> Result<Vec<u32>, AllocError>
    ensures { IfOk result (λ counts. counts.items ≡ awaited_by scenario.now) }
{
    let mut counts = Vec::with_capacity(alloc, scenario.domains.len())?;
    for index in 0..scenario.domains.len() as u32 {
        counts.push(count_from(scenario, index + 1))?;
    }
    Ok(counts)
}

// The number of calls of a domain.
fn count_from(scenario: &Scenario, from: u32) -> u32
    ensures { result ≡ awaited_from scenario.now from }
{
    let mut count = 0;
    for call in &scenario.calls {
        if call.from == from {
            count += 1;
        }
    }
    count
}

/// Makes the task of a domain. Returns the ends as they were given if memory runs out.
#[inline(never)]
pub(crate) fn domain<'p>(
    alloc: Global,
    scenario: &Scenario,
    number: u32,
    hand: Hand<'p>,
) -> Result<Task<'p>, UnmadeEnds<'p>>
    requires there { (1 ≤ number) × (number ≤ length scenario.now.domains) }
    requires hand { IsHandOf scenario.now number hand }
    ensures made { IfOk result (IsOf (Waits (domain_given scenario.now number hand.entry))) }
    ensures unmade { IfErr result (λ ends. AreUnmade hand.entry ends) }
{
    let domain = &scenario.domains[number as usize - 1];
    match &domain.hostile {
        Some(acts) => hostile(alloc, scenario, number, acts, hand),
        None => agent(alloc, scenario, number, domain, hand),
    }
}

// Makes the agent of a domain.
fn agent<'p>(
    alloc: Global,
    scenario: &Scenario,
    number: u32,
    domain: &Domain,
    hand: Hand<'p>,
) -> Result<Task<'p>, UnmadeEnds<'p>>
    requires domain { domain_of scenario.now number ≡ Some domain.now }
    requires honest { domain.now.hostile ≡ None }
    requires hand { IsHandOf scenario.now number hand }
    ensures made { IfOk result (IsOf (Waits (domain_given scenario.now number hand.entry))) }
    ensures unmade { IfErr result (λ ends. AreUnmade hand.entry ends) }
{
    is_scenario(scenario);
    let Hand { control, payload } = hand;
    let Ok(calls) = calls_from(alloc, scenario, number) else {
        return Err(UnmadeEnds { control, payload });
    };
    match AgentTask::new(alloc, number, domain.version, calls, control, payload) {
        Ok(task) => Ok(Task::Agent(task)),
        Err(ends) => Err(ends),
    }
}

// Makes the task of a hostile domain.
fn hostile<'p>(
    alloc: Global,
    scenario: &Scenario,
    number: u32,
    acts: &Acts,
    hand: Hand<'p>,
) -> Result<Task<'p>, UnmadeEnds<'p>>
    requires acts { (d : Named) × (domain_of scenario.now number ≡ Some d) × (d.hostile ≡ Some acts.now) }
    requires hand { IsHandOf scenario.now number hand }
    ensures made { IfOk result (IsOf (Waits (domain_given scenario.now number hand.entry))) }
    ensures unmade { IfErr result (λ ends. AreUnmade hand.entry ends) }
{
    let Hand { control, payload } = hand;
    let Ok(domain) = hostile_domain(alloc, scenario, number, acts) else {
        return Err(UnmadeEnds { control, payload });
    };
    match HostileTask::new(alloc, domain, control, payload) {
        Ok(task) => Ok(Task::Hostile(task)),
        Err(ends) => Err(ends),
    }
}

// What the task of a hostile domain is made of, beside its ends.
fn hostile_domain(
    alloc: Global,
    scenario: &Scenario,
    number: u32,
    acts: &Acts,
) -> Result<HostileDomain, AllocError>
    ensures names { IfOk result (λ domain. domain.names.items ≡ map (λ d. d.name) scenario.now.domains) }
    ensures same { IfOk result (λ domain. (domain.number ≡ number) × (domain.acts ≡ acts.now) × (domain.control ≡ scenario.now.control) × (domain.payload ≡ scenario.now.payload)) }
{
    Ok(HostileDomain {
        number,
        names: names_of(alloc, scenario)?,
        acts: copy_of_acts(alloc, acts)?,
        control: scenario.control,
        payload: scenario.payload,
    })
}
