//! What an agent answers to messages that a broker of this repository never sends.
ghost use Rattle.std.specs.Prelude.{◌≡◌, IfOk};
ghost use Rattle.qrexec_frame.specs.Messages.{HasNumbers};
ghost use Rattle.ring_words.specs.declared.page.Role.TheVariants.{Server, Client};
ghost use Rattle.vchan_rule.specs.Seated.{IsOpen};
ghost use Rattle.control_port.specs.declared.talk.Talker.TheVariants.{Broker};

use agent_task::AgentTask;
use control_port::{ControlPort, Talker};
use qrexec_frame::{Message, Text, fits};
use ring_words::check_orders;
use std::alloc::Global;
use std::process::Abort;
use std::test::Fail;
use task_duties::TaskTurn;
use vchan_io::Memory;
use vchan_rule::{IdleSeat, Page};

/// Commands that an agent without data ends can't serve: whether each is a MSG_JUST_EXEC, the domain and the
/// port that it names, and its line.
const COMMANDS: [(bool, u32, u32, &[u8]); 4] = [
    (true, 2, 513, b"DEFAULT:QUBESRPC echo vault"),
    (false, 3, 515, b"DEFAULT:xterm"),
    (false, 4, 517, b"DEFAULT:QUBESRPC nothing vault"),
    (false, 5, 519, b"DEFAULT:QUBESRPC echo vault"),
];

/// Makes the message of a command.
fn message_of(alloc: Global, command: (bool, u32, u32, &[u8])) -> Result<Message, Fail>
    ensures { IfOk result HasNumbers }
{
    let (is_just, domain, port, line) = command;
    let line = Text::of(alloc, line)?;
    if is_just {
        return Ok(Message::JustExec { domain, port, line });
    }
    Ok(Message::Exec { domain, port, line })
}

/// Sends a message, if the broker may send it. Returns whether it was sent.
fn say(broker: &mut ControlPort, message: &Message) -> Result<bool, Fail>
    requires open { IsOpen broker.old.end }
    requires talker { broker.old.talker ≡ Broker }
    requires numbers { HasNumbers message.now }
    ensures open { IsOpen broker.new.end }
    ensures talker { broker.new.talker ≡ broker.old.talker }
{
    if !broker.greeted() || !fits(message) || !Talker::Broker.says(message) {
        return Ok(false);
    }
    broker.say(message)?;
    Ok(true)
}

/// Sends the message of a command, as `say` does. Only this function owns the message: each one that does is
/// dear to prove.
fn say_command(
    alloc: Global,
    broker: &mut ControlPort,
    command: (bool, u32, u32, &[u8]),
) -> Result<bool, Fail>
    requires open { IsOpen broker.old.end }
    requires talker { broker.old.talker ≡ Broker }
    ensures open { IsOpen broker.new.end }
    ensures talker { broker.new.talker ≡ broker.old.talker }
{
    let message = message_of(alloc, command)?;
    say(broker, &message)
}

/// Sends all commands. Returns whether all were sent.
fn say_all(alloc: Global, broker: &mut ControlPort) -> Result<bool, Fail>
    requires open { IsOpen broker.old.end }
    requires talker { broker.old.talker ≡ Broker }
    ensures open { IsOpen broker.new.end }
{
    for command in COMMANDS {
        if !say_command(alloc, broker, command)? {
            return Ok(false);
        }
    }
    Ok(true)
}

/// Returns whether the ends of all commands are heard, in their order.
fn hears_ends(broker: &mut ControlPort) -> Result<bool, Fail>
    requires { IsOpen broker.old.end }
{
    broker.drain(&mut [0; 256])?;
    for (_, domain, port, _) in COMMANDS {
        if !hears_end(broker, domain, port)? {
            return Ok(false);
        }
    }
    Ok(true)
}

/// Returns whether the next message reports that this session has ended.
fn hears_end(broker: &mut ControlPort, domain: u32, port: u32) -> Result<bool, Fail> {
    if broker.fault().is_some() {
        return Ok(false);
    }
    let message = broker.next()?;
    Ok(is_end(message.as_ref(), domain, port))
}

/// Returns whether a message reports that this session has ended.
fn is_end(message: Option<&Message>, domain: u32, port: u32) -> bool {
    match message {
        Some(
            Message::Terminated {
                domain: with,
                port: at,
            },
        ) => *with == domain && *at == port,
        _ => false,
    }
}

/// Makes the broker's end of a page, which has greeted.
fn broker_of(alloc: Global, page: &Page, client: IdleSeat) -> Result<ControlPort<'_>, Fail>
    requires { client ≡ record { page = page.now; role = Client } }
    ensures open { IfOk result (λ broker. IsOpen broker.end) }
    ensures talker { IfOk result (λ broker. broker.talker ≡ Broker) }
{
    let mut broker = ControlPort::new(alloc, page.attach(client), Talker::Broker, 3);
    broker.connect().map_err(|_| "other orders")?;
    broker.greet()?;
    Ok(broker)
}

/// Makes the agent of domain 1 at a page, with no calls and no data ends.
fn agent_of(alloc: Global, page: &Page, server: IdleSeat) -> Result<AgentTask<'_>, Memory>
    requires { server ≡ record { page = page.now; role = Server } }
{
    let control = page.attach(server);
    let Ok(task) = AgentTask::new(alloc, 1, 3, Vec::new(alloc), control, Vec::new(alloc)) else {
        return Err(Memory);
    };
    Ok(task)
}

/// Returns an agent after a turn, if it goes on.
fn turned(agent: AgentTask<'_>) -> Option<AgentTask<'_>> {
    match agent.turn() {
        TaskTurn::Again(agent) => Some(agent),
        TaskTurn::Done(_done) => None,
        TaskTurn::NoMemory { ends: _ends } => None,
    }
}

/// Returns whether an agent goes on after two turns.
fn turns_twice(agent: AgentTask<'_>) -> bool {
    match turned(agent) {
        Some(agent) => turned(agent).is_some(),
        None => false,
    }
}

// Each of these functions owns one thing at most, and its last line lends it to the next: what a test owns is
// proved to be dropped at each exit.
#[test]
fn an_agent_ends_what_it_does_not_serve(rt: HostRuntime) -> Result<(), Fail> {
    let (page, server, client) = Page::open(rt.alloc(), check_orders(10, 11)?, 0)?;
    check_agent(&rt, &page, server, client)
}

/// Checks the agent of a page.
fn check_agent(
    rt: &(impl Abort + AllocGlobal),
    page: &Page,
    server: IdleSeat,
    client: IdleSeat,
) -> Result<(), Fail>
    requires server { server ≡ record { page = page.now; role = Server } }
    requires client { client ≡ record { page = page.now; role = Client } }
{
    let mut broker = broker_of(rt.alloc(), page, client)?;
    check_answers(rt, page, server, &mut broker)
}

/// Checks what the agent of a page answers to all commands in two turns.
fn check_answers(
    rt: &(impl Abort + AllocGlobal),
    page: &Page,
    server: IdleSeat,
    broker: &mut ControlPort,
) -> Result<(), Fail>
    requires server { server ≡ record { page = page.now; role = Server } }
    requires open { IsOpen broker.old.end }
    requires talker { broker.old.talker ≡ Broker }
{
    assert!(rt; say_all(rt.alloc(), broker)?);
    assert!(rt; turns_twice(agent_of(rt.alloc(), page, server)?));
    assert!(rt; hears_ends(broker)?);
    Ok(())
}
