//! What the broker holds back: no caller is told to connect before its target was told to serve.
ghost use Rattle.std.specs.Prelude.{◌≡◌, ◌≤◌, [], IfOk, OnOk, length};
ghost use Rattle.qrexec_frame.specs.Messages.{HasNumbers};
ghost use Rattle.ring_words.specs.declared.page.Role.TheVariants.{Server, Client};
ghost use Rattle.vchan_rule.specs.Seated.{IsOpen};
ghost use Rattle.call_broker.specs.Domains.{count_of};
ghost use Rattle.control_port.specs.declared.talk.Talker.TheVariants.{Agent};
ghost use Rattle.broker_task.specs.Given.{IsNewClient};
ghost use Rattle.broker_task.specs.Replies.{HasShortNames};

use broker_task::BrokerTask;
use call_broker::{Broker, DomainEntry};
use control_port::{ControlPort, Talker};
use qrexec_frame::{Message, Text, fits};
use ring_words::check_orders;
use std::alloc::Global;
use std::process::Abort;
use std::test::Fail;
use task_duties::TaskTurn;
use vchan_io::Memory;
use vchan_packet::SendAnswer;
use vchan_rule::{End, IdleSeat, Page};

/// The name of the domain that calls, of the greatest length, and of the domain that is called.
const CALLER: &[u8] = b"a-domain-of-thirty-one-letters-";

const TARGET: &[u8] = b"vault";

/// The number of calls that it requests: as many as may be live from one domain to another.
const CALLS: u32 = 16;

/// The number of Execs for which there is room until the target reads. A ring of 1,024 bytes has room for the
/// greeting, which takes 12, and for 14 commands of 70 bytes each.
const WITH_ROOM: u32 = 14;

/// Makes the name of a domain.
fn name_of(alloc: Global, name: &[u8]) -> Result<Text, Fail>
    ensures { IfOk result (λ name. length name ≤ 31) }
{
    if name.len() > 31 {
        return Err("a long name".into());
    }
    Ok(Text::of(alloc, name)?)
}

/// Makes the broker of two domains, the first of which may call the second.
fn broker_of(alloc: Global) -> Result<Broker, Fail>
    ensures domains { IfOk result (λ broker. count_of broker.hub ≡ 2) }
    ensures names { IfOk result (λ broker. HasShortNames broker.hub) }
    ensures journal { IfOk result (λ broker. broker.journal ≡ []) }
{
    let pages = Vec::from_array(alloc, [0, CALLS, 0, 0])?;
    let caller = name_of(alloc, CALLER)?;
    let target = name_of(alloc, TARGET)?;
    let domains = [DomainEntry { name: caller }, DomainEntry { name: target }];
    Ok(Broker::new(alloc, Vec::from_array(alloc, domains)?, pages)?)
}

/// Makes the task of this broker, with its ends of the control pages.
fn task_of<'p>(alloc: Global, first: End<'p>, second: End<'p>) -> Result<BrokerTask<'p>, Fail>
    requires first { IsNewClient first }
    requires second { IsNewClient second }
{
    let controls = Vec::from_array(alloc, [first, second])?;
    let awaited = Vec::from_array(alloc, [CALLS, 0])?;
    match BrokerTask::new(alloc, broker_of(alloc)?, awaited, controls) {
        Ok(task) => Ok(task),
        Err(_ends) => Err(Memory.into()),
    }
}

/// Makes the agent's end of a page, which has greeted.
fn agent_of(alloc: Global, page: &Page, server: IdleSeat) -> Result<ControlPort<'_>, Fail>
    requires { server ≡ record { page = page.now; role = Server } }
    ensures open { IfOk result (λ agent. IsOpen agent.end) }
    ensures talker { IfOk result (λ agent. agent.talker ≡ Agent) }
{
    let mut agent = ControlPort::new(alloc, page.attach(server), Talker::Agent, 3);
    agent.greet()?;
    Ok(agent)
}

/// Makes the trigger of a call to the target.
fn trigger(alloc: Global) -> Result<Message, Fail>
    ensures { IfOk result HasNumbers }
{
    Ok(Message::Trigger3 {
        target: Text::of(alloc, TARGET)?,
        ident: Text::of(alloc, b"one")?,
        service: Text::of(alloc, b"echo")?,
    })
}

/// Requests a call, as `say` does. Only this function owns the message: each one that does is dear to prove.
fn ask(alloc: Global, caller: &mut ControlPort) -> Result<bool, Fail>
    requires open { IsOpen caller.old.end }
    requires talker { caller.old.talker ≡ Agent }
    ensures open { IsOpen caller.new.end }
    ensures talker { caller.new.talker ≡ caller.old.talker }
{
    let message = trigger(alloc)?;
    say(caller, &message)
}

/// Requests all calls. Returns whether all triggers were sent.
fn ask_all(alloc: Global, caller: &mut ControlPort) -> Result<bool, Fail>
    requires open { IsOpen caller.old.end }
    requires talker { caller.old.talker ≡ Agent }
    ensures open { IsOpen caller.new.end }
{
    'calls: for _ in 0..CALLS {
        if !ask(alloc, caller)? {
            return Ok(false);
        }
    }
    Ok(true)
}

/// Sends a message, if an agent may send it and there is room. Returns whether it was sent.
fn say(agent: &mut ControlPort, message: &Message) -> Result<bool, Fail>
    requires open { IsOpen agent.old.end }
    requires talker { agent.old.talker ≡ Agent }
    requires numbers { HasNumbers message.now }
    ensures open { IsOpen agent.new.end }
    ensures talker { agent.new.talker ≡ agent.old.talker }
{
    if !agent.greeted() || !fits(message) || !Talker::Agent.says(message) {
        return Ok(false);
    }
    Ok(agent.say(message)? == SendAnswer::Sent)
}

/// Returns whether `count` Connects are heard now, and no more.
fn hears_connects(caller: &mut ControlPort, count: u32) -> Result<bool, Fail>
    requires open { IsOpen caller.old.end }
    ensures open { IsOpen caller.new.end }
{
    caller.drain(&mut [0; 1_024])?;
    'connects: for _ in 0..count {
        if !hears_connect(caller)? {
            return Ok(false);
        }
    }
    Ok(!hears_connect(caller)?)
}

/// Returns whether the next message is a Connect.
fn hears_connect(caller: &mut ControlPort) -> Result<bool, Fail>
    ensures { caller.new.end ≡ caller.old.end }
{
    if caller.fault().is_some() {
        return Ok(false);
    }
    Ok(matches!(caller.next()?, Some(Message::Connect { .. })))
}

/// Returns the task after two turns, so that in the second one each domain hears what came of the first. The
/// caller must hear `count` Connects then, and no more.
fn turned_twice<'p>(
    task: BrokerTask<'p>,
    caller: &mut ControlPort,
    count: u32,
) -> Result<BrokerTask<'p>, Fail>
    requires { IsOpen caller.old.end }
    ensures { OnOk result (IsOpen caller.new.end) }
{
    let task = turned(task).and_then(turned).ok_or("no more turns")?;
    if !hears_connects(caller, count)? {
        return Err("other Connects".into());
    }
    Ok(task)
}

/// Returns the task after a turn, if it wants another.
fn turned(task: BrokerTask<'_>) -> Option<BrokerTask<'_>> {
    match task.turn() {
        TaskTurn::Again(task) => Some(task),
        TaskTurn::Done(_done) => None,
        TaskTurn::NoMemory { ends: _ends } => None,
    }
}

/// Checks that the caller hears the Connects of the calls whose Exec was sent, and no others until the target
/// has read.
fn check_connects<'p>(
    alloc: Global,
    caller: &mut ControlPort,
    target: &mut ControlPort,
    first: End<'p>,
    second: End<'p>,
) -> Result<(), Fail>
    requires caller { IsOpen caller.old.end }
    requires target { IsOpen target.old.end }
    requires first { IsNewClient first }
    requires second { IsNewClient second }
{
    let task = task_of(alloc, first, second)?;
    let task = turned_twice(task, caller, WITH_ROOM)?;
    let task = turned_twice(task, caller, 0)?;
    target.drain(&mut [0; 1_024])?;
    turned_twice(task, caller, CALLS - WITH_ROOM)?;
    Ok(())
}

// Each of these functions owns little, and its last line lends it to the next: what a test owns is proved to be
// dropped at each exit.
#[test]
fn a_connect_waits_for_its_exec(rt: HostRuntime) -> Result<(), Fail> {
    let orders = check_orders(10, 11)?;
    let (first, caller, to_caller) = Page::open(rt.alloc(), orders, 0)?;
    let (second, target, to_target) = Page::open(rt.alloc(), orders, 0)?;
    let mut caller = agent_of(rt.alloc(), &first, caller)?;
    check_caller(
        &rt,
        &mut caller,
        &first,
        &second,
        to_caller,
        target,
        to_target,
    )
}

/// Checks what comes to the caller, on the first page, while the target, on the second one, doesn't read.
fn check_caller(
    rt: &(impl Abort + AllocGlobal),
    caller: &mut ControlPort,
    first: &Page,
    second: &Page,
    to_caller: IdleSeat,
    target: IdleSeat,
    to_target: IdleSeat,
) -> Result<(), Fail>
    requires open { IsOpen caller.old.end }
    requires talker { caller.old.talker ≡ Agent }
    requires to_caller { to_caller ≡ record { page = first.now; role = Client } }
    requires target { target ≡ record { page = second.now; role = Server } }
    requires to_target { to_target ≡ record { page = second.now; role = Client } }
{
    assert!(rt; ask_all(rt.alloc(), caller)?);
    let mut target = agent_of(rt.alloc(), second, target)?;
    let (first, second) = (first.attach(to_caller), second.attach(to_target));
    check_connects(rt.alloc(), caller, &mut target, first, second)
}
