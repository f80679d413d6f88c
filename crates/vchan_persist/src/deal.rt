//! Dealing the ends of a page to the tasks of its epoch.
ghost use Rattle.std.specs.Prelude.{◌≡◌, ◌<◌, ◌≤◌, [], None, IfOk, IfErr, false, true, length};
ghost use Rattle.ring_words.specs.declared.page.Role.TheVariants.{Server, Client as ClientEnd};
ghost use Rattle.vchan_rule.specs.Seated.{view, last_view, IsOpen};
ghost use Rattle.qrexec_data.specs.CallerSide.{CallerStandsFor};
ghost use Rattle.qrexec_data.specs.ServingSide.{ServingStandsFor};
ghost use Rattle.service_gate.specs.Owing.{builtin_owes};
ghost use Rattle.vchan_persist.specs.Clients.{IsServable};
ghost use Rattle.vchan_persist.specs.Owes.{AreSides, CallerHands, ServerHands, IsRefused, Owes};

use crate::answering::Answering;
use crate::calling::Calling;
use crate::client::Client;
use crate::scribbling::Scribbling;
use crate::task::{EpochTask, SideDone};
use channel_session::{CallerSession, ServingSession};
use qrexec_data::{Caller, Serving};
use ring_words::{Order, Orders};
use service_gate::Builtin;
use std::alloc::Global;
use vchan_io::Memory;
use vchan_lifecycle::{connect, retire};
use vchan_rule::{End, IdleSeat, Page, Retired};

/// The version that both sides announce.
const VERSION: u32 = 3;

/// The greatest number of bytes that a side puts into one message.
const CHUNK: u32 = 65_536;

/// Connects the client of a page, and returns its end. If it is refused, it is retired.
fn connected<'p>(page: &'p Page, seat: IdleSeat) -> Result<End<'p>, Retired>
    requires { seat ≡ record { page = page.now; role = ClientEnd } }
    ensures ok { IfOk result (λ end. IsOpen end × (end.side.role ≡ ClientEnd) × (end.page ≡ page.now.table) × ((view end).sent ≡ []) × ((view end).got ≡ []) × ((view end).ended ≡ None)) }
    ensures refused { IfErr result (IsRefused page.now.table) }
{
    let mut end = page.attach(seat);
    match connect(&mut end) {
        Ok(()) => Ok(end),
        Err(_) => Err(retire(end)),
    }
}

/// Returns room for as many bytes as a ring has.
fn make_room(alloc: Global, order: Order) -> Result<Vec<u8>, Memory>
    ensures { IfOk result (λ room. 0 < length room.items) }
{
    Ok(vec![in alloc; 0u8; order.size() as usize]?)
}

/// Returns the task of a client that calls by this caller.
fn calling<'p>(page: &'p Page, seat: IdleSeat, caller: Caller, room: Vec<u8>) -> EpochTask<'p>
    requires seat { seat ≡ record { page = page.now; role = ClientEnd } }
    requires asked { (caller.requests.chunk ≡ 65536) × (caller.replies.own ≡ 3) }
    requires new { (caller.inbox.got ≡ []) × (caller.replies.outcome ≡ None) × CallerStandsFor caller [] }
    requires some { 0 < length room.items }
    ensures { Owes result (CallerHands page.now.table caller.requests.input) }
{
    match connected(page, seat) {
        Ok(end) => EpochTask::Calls(Calling::new(CallerSession::new(caller, end), room)),
        Err(end) => EpochTask::Over(SideDone::Refused(end)),
    }
}

/// Returns the task of a server of this service.
fn answering<'p>(
    page: &'p Page,
    seat: IdleSeat,
    service: Builtin,
    serving: Serving<Builtin>,
    room: Vec<u8>,
) -> EpochTask<'p>
    requires seat { seat ≡ record { page = page.now; role = Server } }
    requires asked { (serving.answering.chunk ≡ 65536) × (serving.answering.own ≡ 3) }
    requires new { (serving.inbox.got ≡ []) × (serving.answering.outcome ≡ None) × ServingStandsFor builtin_owes (builtin_owes service) serving [] }
    requires some { 0 < length room.items }
    ensures { Owes result (ServerHands page.now.table service) }
{
    let session = ServingSession::new(serving, page.attach(seat));
    EpochTask::Serves(Answering::new(session, service, room))
}

/// Returns the two tasks of an epoch, the client's first. All memory is taken before an end is
/// attached.
///
/// # Errors
///
/// `Memory` if memory runs out; no other.
pub(crate) fn deal<'p>(
    alloc: Global,
    page: &'p Page,
    orders: Orders,
    server: IdleSeat,
    client_seat: IdleSeat,
    service: Builtin,
    client: Client,
) -> Result<Vec<EpochTask<'p>>, Memory>
    requires server { server ≡ record { page = page.now; role = Server } }
    requires client { client_seat ≡ record { page = page.now; role = ClientEnd } }
    requires servable { IsServable client }
    ensures { IfOk result (λ tasks. AreSides page.now.table client service tasks.items) }
{
    let mut tasks = Vec::with_capacity(alloc, 2)?;
    // In a call, here and below: else each part of what is held would be dropped at each exit in the proof.
    let Ok(room) = make_room(alloc, orders.left) else {
        drop(tasks);
        return Err(Memory);
    };
    let Ok(serving) = Serving::new(alloc, service, VERSION, CHUNK) else {
        drop(tasks);
        return Err(Memory);
    };
    match client {
        Client::Call { stdin } => {
            let Ok(replies) = make_room(alloc, orders.right) else {
                drop(tasks);
                drop(serving);
                return Err(Memory);
            };
            let Ok(caller) = Caller::new(alloc, stdin.into_list(), VERSION, CHUNK) else {
                drop(tasks);
                drop(serving);
                return Err(Memory);
            };
            tasks.push_reserved(calling(page, client_seat, caller, replies));
        }
        Client::Hostile { seed, stores } => {
            let end = page.attach(client_seat);
            tasks.push_reserved(EpochTask::Scribbles(Scribbling::new(end, seed, stores)));
        }
    }
    tasks.push_reserved(answering(page, server, service, serving, room));
    Ok(tasks)
}
