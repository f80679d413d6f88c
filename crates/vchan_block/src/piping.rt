//! A pipe: bytes that go through one channel, from one thread to another.
ghost use Rattle.std.specs.Prelude.{◌≡◌, ◌≤◌, ◌<◌, ◌+◌, ◌^◌, [], ℕ, IfOk, length, take, vec_len};
ghost use Rattle.ring_words.specs.declared.page.Role.TheVariants.{Server, Client};
ghost use Rattle.vchan_rule.specs.Seated.{view, last_view, IsOpen};
ghost use Rattle.vchan_rule.specs.Ends.{IsSameEnd};
ghost use Rattle.vchan_lifecycle.specs.Ended.{GetsAll, HasEnded, IsEndOf, MayHaveEnded, SendsAll, drained_count};
ghost use Rattle.vchan_block.specs.Pipe.{HasPiped};

use crate::wait::wait_waking;
use crate::waking::{Sleepers, Waking};
use crate::writing::{BlockWrite, write_waking};
use ring_words::Orders;
use std::alloc::Global;
use std::sync::Wait;
use std::thread::{Promise, Threads, scope, scope_env};
use std::time::Clock;
use vchan_io::Memory;
use vchan_lifecycle::{DrainAnswer, connect, drain, retire};
use vchan_rule::{End, IdleSeat, Page, Retired, Settled};

/// What the reading thread returns: its end, and the bytes that it got.
#[derive(Drop)]
struct Received {
    end: Retired,
    bytes: Vec<u8>,
}

/// The most bytes that the writer of a pipe sends at once: the reader gets them while the next ones are written.
/// A large ring would else be filled first and then emptied, by one thread at a time.
const PIECE: usize = 65_536;

/// Sends all bytes, piece by piece. It ends before that only if it finds its peer shut.
fn write_pieces<R: Wait + Clock>(rt: &R, end: &mut End<'_>, bytes: &[u8], waking: Waking<'_>)
    requires open { IsOpen end.old }
    requires none { (view end.old).sent ≡ [] }
    ensures same { IsSameEnd end.old end.new }
    ensures open { IsOpen end.new }
    ensures sent { SendsAll (view end.new) bytes.now }
{
    let mut sent = 0usize;
    'pieces: for _ in rt.forever() {
        let more = (bytes.len() - sent).min(PIECE);
        match write_waking(rt, end, &bytes[sent..sent + more], waking) {
            BlockWrite::Wrote { before: _, last: _ } => sent += more,
            BlockWrite::PeerClosed { before: _ } => return,
        }
        if sent == bytes.len() {
            return;
        }
    }
    unreachable!()
}

/// Connects as the client, sends all bytes and retires.
fn write_all_and_retire<R: Wait + Clock>(
    rt: &R,
    page: &Page,
    seat: IdleSeat,
    bytes: &[u8],
    waking: Waking<'_>,
) -> Retired
    requires { seat ≡ record { page = page.now; role = Client } }
    ensures end { IsEndOf page.now.table Client result }
    ensures sent { SendsAll (last_view result) bytes.now }
{
    let mut end = page.attach(seat);
    match connect(&mut end) {
        Ok(()) => {
            write_pieces(rt, &mut end, bytes, waking);
            retire(end)
        }
        Err(_) => retire(end),
    }
}

/// Drains into a buffer, after the bytes that it has already.
fn drain_behind(end: &mut End<'_>, buf: &mut [u8], count: usize) -> DrainAnswer
    requires open { IsOpen end.old }
    requires some { count < length buf.old }
    requires got { (view end.old).got ≡ take count buf.old }
    ensures same { IsSameEnd end.old end.new }
    ensures open { IsOpen end.new }
    ensures long { length buf.new ≡ length buf.old }
    ensures few { (more : ℕ) → result ≡ DrainAnswer.More more → count + more ≤ length buf.old }
    ensures got { (view end.new).got ≡ take (count + drained_count result) buf.new }
    ensures ended { MayHaveEnded result (view end.new) }
{
    drain(end, &mut buf[count..])
}

/// Drains until no more comes, or until the buffer is full. Returns how many bytes were got.
fn drain_all<R: Wait + Clock>(
    rt: &R,
    end: &mut End<'_>,
    buf: &mut [u8],
    waking: Waking<'_>,
) -> usize
    requires open { IsOpen end.old }
    requires some { 0 < length buf.old }
    requires none { (view end.old).got ≡ [] }
    ensures same { IsSameEnd end.old end.new }
    ensures open { IsOpen end.new }
    ensures long { length buf.new ≡ length buf.old }
    ensures few { result ≤ length buf.old }
    ensures got { (view end.new).got ≡ take result buf.new }
    ensures ended { result < length buf.old → HasEnded (view end.new) }
{
    let mut count = 0;
    'drains: for _ in rt.forever() {
        match drain_behind(end, buf, count) {
            DrainAnswer::More { count: more } => {
                count += more as usize;
                waking.wake_peer();
                if count == buf.len() {
                    return count;
                }
            }
            DrainAnswer::NotYet { prod: _, cons: _ } => wait_waking(rt, end, waking),
            DrainAnswer::AllRead => return count,
            DrainAnswer::PeerGone { prod: _, cons: _ } => return count,
        }
    }
    unreachable!()
}

/// Reads as the server, into this buffer, until no more comes or the buffer is full, and retires.
fn read_all_and_retire<R: Wait + Clock>(
    rt: &R,
    page: &Page,
    seat: IdleSeat,
    mut buf: Vec<u8>,
    waking: Waking<'_>,
) -> Received
    requires seat { seat ≡ record { page = page.now; role = Server } }
    requires some { 0 < vec_len buf }
    ensures end { IsEndOf page.now.table Server result.end }
    ensures got { GetsAll (last_view result.end) result.bytes.items (vec_len buf) }
{
    let mut end = page.attach(seat);
    let count = drain_all(rt, &mut end, buf.as_mut_slice(), waking);
    buf.truncate(count);
    Received {
        end: retire(end),
        bytes: buf,
    }
}

/// What the writing thread promises of the end that it returns.
#[derive(Clone, Copy)]
struct AllSent<'a> {
    page: &'a Page,
    bytes: &'a [u8],
}

impl<'a> Promise<Retired> for AllSent<'a> {
    ghost kept_by = { λ p end. IsEndOf p.page.now.table Client end × SendsAll (last_view end) p.bytes.now };
}

/// Writes and reads at once, with the writer on a thread of its own. Returns the client's end, and what was
/// received. Returns `Memory` if memory runs out for that thread; no byte is sent then, since a writer and
/// a reader one after the other would wait for ever.
fn write_and_read<R: Threads + Wait + Clock + Sync>(
    rt: &R,
    page: &Page,
    server: IdleSeat,
    client: IdleSeat,
    bytes: &[u8],
    buf: Vec<u8>,
) -> Result<(Retired, Received), Memory>
    requires server { server ≡ record { page = page.now; role = Server } }
    requires client { client ≡ record { page = page.now; role = Client } }
    requires some { 0 < vec_len buf }
    ensures client { IfOk result (λ done. IsEndOf page.now.table Client done.0 × SendsAll (last_view done.0) bytes.now) }
    ensures server { IfOk result (λ done. IsEndOf page.now.table Server done.1.end × GetsAll (last_view done.1.end) done.1.bytes.items (vec_len buf)) }
{
    let sleepers = Sleepers::new();
    let sleepers = &sleepers;
    scope(
        scope_env(),
        rt,
        |threads| -> Result<(Retired, Received), Memory>
            requires { (client ≡ record { page = page.now; role = Client }) × (server ≡ record { page = page.now; role = Server }) × (0 < vec_len buf) }
            ensures client { IfOk result (λ done. IsEndOf page.entry.now.table Client done.0 × SendsAll (last_view done.0) bytes.entry.now) }
            ensures server { IfOk result (λ done. IsEndOf page.entry.now.table Server done.1.end × GetsAll (last_view done.1.end) done.1.bytes.items (vec_len buf)) }
        {
            let writer = threads.spawn_with(
                AllSent { page, bytes },
                move || -> Retired
                    requires { client ≡ record { page = page.now; role = Client } }
                    ensures { IsEndOf page.entry.now.table Client result × SendsAll (last_view result) bytes.entry.now }
                {
                    let end = write_all_and_retire(rt, page, client, bytes, sleepers.for_writer());
                    sleepers.for_writer().wake_peer();
                    end
                },
            );
            let Ok(writer) = writer else {
                return Err(Memory);
            };
            let received = read_all_and_retire(rt, page, server, buf, sleepers.for_reader());
            sleepers.for_reader().wake_peer();
            Ok((writer.join(rt), received))
        },
    )
}

/// Sends all bytes through the left ring of a new page, whose indices begin at `start`. Returns what was
/// read there, and what holds of the page, with its orders and its start.
///
/// One thread writes as the client and retires; another reads as the server until no more comes, and
/// retires. All memory is taken first, and the writing thread is started last. Returns `Memory` only if
/// memory runs out or no second thread can be made; nothing was sent then.
pub fn pipe<R: Threads + Wait + Clock + Sync>(
    rt: &R,
    alloc: Global,
    orders: Orders,
    start: u32,
    bytes: Vec<u8>,
) -> Result<(Vec<u8>, Settled), Memory>
    requires { vec_len bytes < 2 ^ 31 }
    ensures bytes { IfOk result (λ piped. piped.0.items ≡ bytes.items) }
    ensures page { IfOk result (λ piped. HasPiped (record { orders = orders; start = start }) bytes.items piped.1) }
{
    let (page, server, client) = Page::open(alloc, orders, start)?;
    // After the page, so that it lies where the page's start words were.
    let buf = vec![in alloc; 0u8; bytes.len() + 1]?;
    let (client, received) = write_and_read(rt, &page, server, client, bytes.as_slice(), buf)?;
    let Received { end: server, bytes } = received;
    let settled = page.finish(server, client);
    settled.promise();
    Ok((bytes, settled))
}
