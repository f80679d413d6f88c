//! Dealing the ends of the pages to the tasks of a run.
ghost use Rattle.std.specs.Prelude.{◌≡◌, ◌≤◌, ◌<◌, ◌+◌, ◌^◌, [], IfOk, IfErr, true, length, vec_len};
ghost use Rattle.ring_words.specs.declared.page.Role.TheVariants.{Server, Client};
ghost use Rattle.vchan_rule.specs.Seated.{PageStart, view, last_view, IsOpen};
ghost use Rattle.vchan_lifecycle.specs.Ended.{IsEndOf};
ghost use Rattle.vchan_relay.specs.Laying.{AreLaid};
ghost use Rattle.vchan_relay.specs.Owes.{AreTasks, Owes, RelayHands, WriterHands};

use crate::hop::Hop;
use crate::lay::PageSeats;
use crate::reader::Reader;
use crate::relay::Relay;
use crate::task::{HopDone, HopTask};
use crate::writer::Writer;
use std::alloc::Global;
use vchan_io::Memory;
use vchan_lifecycle::{connect, retire};
use vchan_rule::{End, IdleSeat, Page, Retired};

/// Returns the client of a page, connected. A client that was refused has retired.
fn connected<'p>(page: &'p Page, seat: IdleSeat) -> Result<End<'p>, Retired>
    requires { seat ≡ record { page = page.now; role = Client } }
    ensures ok { IfOk result (λ end. IsOpen end × (end.side.role ≡ Client) × (end.page ≡ page.now.table) × ((view end).sent ≡ [])) }
    ensures refused { IfErr result (λ end. IsEndOf page.now.table Client end × ((last_view end).misled ≡ true) × ((last_view end).sent ≡ [])) }
{
    let mut end = page.attach(seat);
    match connect(&mut end) {
        Ok(()) => Ok(end),
        Err(_) => Err(retire(end)),
    }
}

/// Returns the server of a page.
fn served<'p>(page: &'p Page, seat: IdleSeat) -> End<'p>
    requires { seat ≡ record { page = page.now; role = Server } }
    ensures { IsOpen result × (result.side.role ≡ Server) × (result.page ≡ page.now.table) × ((view result).got ≡ []) }
{
    page.attach(seat)
}

/// Returns the task that sends all bytes on a page.
fn writer_task<'p>(page: &'p Page, seat: IdleSeat, bytes: Vec<u8>) -> HopTask<'p>
    requires { seat ≡ record { page = page.now; role = Client } }
    ensures { Owes result (WriterHands page.now.table bytes.items) }
{
    match connected(page, seat) {
        Ok(end) => HopTask::Writes(Writer::new(end, bytes)),
        Err(end) => HopTask::Over(HopDone::Wrote(end)),
    }
}

/// Returns the task that reads the page of `near` and writes the page of the seat.
fn relay_task<'p>(
    alloc: Global,
    near: End<'p>,
    page: &'p Page,
    seat: IdleSeat,
    room: u32,
) -> Result<HopTask<'p>, Memory>
    requires near { IsOpen near × (near.side.role ≡ Server) × ((view near).got ≡ []) }
    requires seat { seat ≡ record { page = page.now; role = Client } }
    requires room { (1 ≤ room) × (room ≤ 1048576) }
    ensures { IfOk result (λ task. Owes task (RelayHands near.entry.page page.now.table)) }
{
    match connected(page, seat) {
        Ok(far) => match Relay::new(alloc, near, far, room) {
            Ok(relay) => Ok(HopTask::Passes(Hop::new(relay))),
            Err(refused) => {
                // In a call: dropped here, each part of both ends would be dropped in this proof.
                drop(refused);
                Err(Memory)
            }
        },
        Err(far) => Ok(HopTask::Over(HopDone::Passed {
            near: retire(near),
            far,
            joint: None,
        })),
    }
}

/// Returns the tasks of a run from near to far: the writer, a relay for each page except the first, and the
/// reader, which has room for one byte more than there are. Returns `Memory` if memory runs out.
pub(crate) fn deal<'p>(
    alloc: Global,
    pages: &'p [Page],
    seats: Vec<PageSeats>,
    room: u32,
    bytes: Vec<u8>,
) -> Result<Vec<HopTask<'p>>, Memory>
    requires laid { (words : PageStart) × AreLaid words pages.now seats.items }
    requires some { 0 < length pages.now }
    requires room { (1 ≤ room) × (room ≤ 1048576) }
    requires few { vec_len bytes < 2 ^ 31 }
    ensures { IfOk result (λ tasks. AreTasks bytes.items (length bytes.items + 1) pages.now tasks.items) }
{
    let buffer = vec![in alloc; 0u8; bytes.len() + 1]?;
    let mut tasks = Vec::with_capacity(alloc, pages.len() + 1)?;
    let mut seats = seats.into_iter();
    let Some(first) = seats.next() else {
        unreachable!()
    };
    let nearest = &pages[0];
    tasks.push(writer_task(nearest, first.client, bytes))?;
    let mut near = served(nearest, first.server);
    let mut index = 1;
    for next in seats {
        let page = &pages[index];
        tasks.push(relay_task(alloc, near, page, next.client, room)?)?;
        near = served(page, next.server);
        index += 1;
    }
    tasks.push(HopTask::Reads(Reader::new(near, buffer)))?;
    Ok(tasks)
}
