//! What the task sends after the broker's decision.
ghost use Rattle.std.specs.Prelude.{◌≡◌, ◌++◌, ◌∷◌, [], List, true, IfOk, IfSome, codes};
ghost use Rattle.qrexec_frame.specs.Names.{cleaned_service};
ghost use Rattle.call_broker.specs.Domains.{is_domain, name_of};
ghost use Rattle.call_broker.specs.Journal.{IsNumbered};
ghost use Rattle.task_duties.specs.Words.{exec_line, user};
ghost use Rattle.qrexec_frame.specs.Texts.{HasNoNul};
ghost use Rattle.broker_task.specs.Lines.{HasRoom};
ghost use Rattle.broker_task.specs.Replies.{IsReplyTo, AreFit, HasShortNames};

use call_broker::{Broker, Decision, Event};
use qrexec_frame::{Message, Text, TextError, clean_service};
use std::alloc::Global;
use vchan_io::Memory;

/// The beginning of the line of a MSG_EXEC_CMDLINE for a service.
const USER: &[u8] = b"DEFAULT:QUBESRPC ";

/// The room that a line has at first, in bytes. A usual line fits.
const USUAL_LINE: usize = 64;

/// The messages that follow from a decision.
#[derive(Drop)]
pub(crate) enum Reply {
    Nothing,
    // For the caller.
    Refused {
        refused: Message,
    },
    // For the domain that will serve, and for the caller.
    Accepted {
        to: u32,
        exec: Message,
        connect: Message,
    },
}

/// Returns the reply to an event that was decided.
pub(crate) fn reply_to(
    alloc: Global,
    broker: &Broker,
    event: &Event,
    decision: Decision,
) -> Result<Reply, Memory>
    requires numbered { IsNumbered broker.now.hub event.now }
    requires room { HasRoom event.now }
    requires names { HasShortNames broker.now.hub }
    ensures fits { IfOk result (λ reply. AreFit broker.now.hub reply) }
    ensures reply { IfOk result (λ reply. IsReplyTo broker.now.hub event.now decision reply) }
{
    let Event::Trigger {
        from,
        service,
        ident,
        ..
    } = event
    else {
        return Ok(Reply::Nothing);
    };
    match decision {
        Decision::Accepted { to, port } => {
            let service = clean_service(alloc, service)?;
            let line = line_of(alloc, &service, broker.name(*from))?;
            let ident = ident.clone()?;
            Ok(Reply::Accepted {
                to,
                exec: Message::Exec {
                    domain: *from,
                    port,
                    line,
                },
                connect: Message::Connect {
                    domain: to,
                    port,
                    ident,
                },
            })
        }
        Decision::Refused { .. } => {
            let ident = ident.clone()?;
            Ok(Reply::Refused {
                refused: Message::Refused { ident },
            })
        }
        Decision::Ended { .. } | Decision::PassedOver => Ok(Reply::Nothing),
    }
}

// The line by which a domain of this name asks for this service. The service's name is clean.
fn line_of(alloc: Global, service: &Text, from: &Text) -> Result<Text, Memory>
    ensures line { IfOk result (λ line. line ≡ exec_line service.now from.now) }
    ensures no_nul { IfOk result (λ line. HasNoNul line) }
{
    let mut line = Vec::with_capacity(alloc, USUAL_LINE)?;
    line.extend_from_slice(USER)?;
    line.extend_from_slice(service.bytes())?;
    line.push(b' ')?;
    line.extend_from_slice(from.bytes())?;
    match Text::of(alloc, &line) {
        Ok(line) => Ok(line),
        Err(TextError::Nul) => unreachable!(),
        Err(TextError::Memory) => Err(Memory),
    }
}
