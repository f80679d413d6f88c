//! Worked rows of one relay, and runs of several.
ghost use Rattle.std.specs.Prelude.{◌≡◌, ◌≤◌, ◌<◌, ◌^◌, [], IfSome, IsTrue};
ghost use Rattle.ring_words.specs.declared.page.Role.TheVariants.{Server, Client};
ghost use Rattle.vchan_rule.specs.Seated.{view, IsOpen};

use ring_words::{WordName, check_orders};
use std::alloc::Global;
use std::sync::Wait;
use std::thread::Threads;
use vchan_core::EndState;
use vchan_lifecycle::{close, connect};
use vchan_relay::{Relay, RelayTurn, relay_run};
use vchan_rule::{End, IdleSeat, Page, TurnedEnd};
use vchan_stream::{WriteAnswer, write};

/// A page, with the seats of its server and of its client.
fn open(alloc: Global) -> Option<(Page, IdleSeat, IdleSeat)>
    ensures { IfSome result (λ p. (p.1 ≡ record { page = p.0; role = Server }) × (p.2 ≡ record { page = p.0; role = Client })) }
{
    let orders = check_orders(10, 11).ok()?;
    Page::open(alloc, orders, 0).ok()
}

/// The end of a page's client, which has connected.
fn connected(page: &Page, seat: IdleSeat) -> Option<End<'_>>
    requires { seat ≡ record { page = page.now; role = Client } }
    ensures { IfSome result (λ end. IsOpen end × ((view end).sent ≡ [])) }
{
    let mut end = page.attach(seat);
    match connect(&mut end) {
        Ok(()) => Some(end),
        Err(_) => None,
    }
}

/// A relay that serves the near page, is the client of the far one and holds at most this many
/// bytes.
fn relay_between<'p>(
    alloc: Global,
    near: (&'p Page, IdleSeat),
    far: (&'p Page, IdleSeat),
    room: u32,
) -> Option<Relay<'p>>
    requires near { near.1 ≡ record { page = near.0.now; role = Server } }
    requires far { far.1 ≡ record { page = far.0.now; role = Client } }
    requires room { (1 ≤ room) × (room ≤ 1048576) }
{
    let (page, seat) = far;
    let far = connected(page, seat)?;
    let (page, seat) = near;
    Relay::new(alloc, page.attach(seat), far, room).ok()
}

/// Whether these are the relay's next turns.
fn makes(relay: &mut Relay<'_>, turns: &[RelayTurn]) -> bool {
    for turn in turns {
        if relay.ended() || relay.turn() != *turn {
            return false;
        }
    }
    true
}

/// What happens beside a relay, or the turns that it makes.
#[derive(Clone, Copy)]
enum Move {
    /// The near writer writes these bytes.
    Writes(&'static [u8]),
    /// The near writer closes.
    WriterCloses,
    /// The far reader closes.
    ReaderCloses,
    /// The relay makes these turns.
    Turns(&'static [RelayTurn]),
    /// The relay has ended or not, and holds this many bytes.
    Stands(bool, u32),
}

fn is_open(end: &End<'_>) -> bool
    ensures { IsTrue result → IsOpen end.now }
{
    end.idle() && end.state() == EndState::Open
}

/// Makes a move. Returns whether it went as it should.
fn goes(writer: &mut End<'_>, reader: &mut End<'_>, relay: &mut Relay<'_>, made: Move) -> bool {
    match made {
        Move::Writes(bytes) => {
            if !is_open(writer) {
                return false;
            }
            match write(writer, bytes) {
                WriteAnswer::Wrote { count } => count as usize == bytes.len(),
                _ => false,
            }
        }
        Move::WriterCloses => closes(writer),
        Move::ReaderCloses => closes(reader),
        Move::Turns(turns) => makes(relay, turns),
        Move::Stands(ended, held) => relay.ended() == ended && relay.held() == held,
    }
}

fn closes(end: &mut End<'_>) -> bool {
    if !is_open(end) {
        return false;
    }
    close(end);
    true
}

/// The most bytes that a relay holds, and what happens.
type Row = (u32, &'static [Move]);

const ROWS: [Row; 3] = [
    // The far reader closes before all is passed on.
    (
        4,
        &[
            Move::Writes(b"abcdef"),
            Move::Turns(&[
                RelayTurn::Took { count: 4 },
                RelayTurn::Passed { count: 4 },
                RelayTurn::Took { count: 2 },
            ]),
            Move::ReaderCloses,
            Move::Turns(&[RelayTurn::FarClosed { held: 2 }]),
            Move::Stands(true, 2),
        ],
    ),
    // The near writer closes.
    (
        16,
        &[
            Move::Turns(&[RelayTurn::NotYet { prod: 0, cons: 0 }]),
            Move::Writes(b"hello"),
            Move::WriterCloses,
            Move::Turns(&[RelayTurn::Took { count: 5 }]),
            Move::Stands(false, 5),
            Move::Turns(&[RelayTurn::Passed { count: 5 }, RelayTurn::Ended]),
            Move::Stands(true, 0),
        ],
    ),
    // The far ring is full.
    (
        2_000,
        &[
            Move::Writes(&[b'q'; 1_024]),
            Move::Turns(&[
                RelayTurn::Took { count: 1_024 },
                RelayTurn::Passed { count: 1_024 },
            ]),
            Move::Writes(b"hello"),
            Move::Turns(&[
                RelayTurn::Took { count: 5 },
                RelayTurn::Full {
                    prod: 1_024,
                    cons: 0,
                },
            ]),
            Move::Stands(false, 5),
        ],
    ),
];

/// Lays two pages with a relay between them. Returns how many of the moves went as they should.
fn moved(alloc: Global, row: Row) -> Option<usize> {
    let (room, moves) = row;
    if room < 1 || room > 1_048_576 {
        return None;
    }
    let (page, server, client) = open(alloc)?;
    let (far_page, reader, far) = open(alloc)?;
    let mut writer = connected(&page, client)?;
    let mut reader = far_page.attach(reader);
    let mut relay = relay_between(alloc, (&page, server), (&far_page, far), room)?;
    Some(went(&mut writer, &mut reader, &mut relay, moves))
}

fn went(
    writer: &mut End<'_>,
    reader: &mut End<'_>,
    relay: &mut Relay<'_>,
    moves: &[Move],
) -> usize {
    for (at, made) in moves.iter().enumerate() {
        if !goes(writer, reader, relay, *made) {
            return at;
        }
    }
    moves.len()
}

#[test]
fn relays_between_honest_ends(rt: HostRuntime) {
    for (at, row) in ROWS.iter().enumerate() {
        assert!(rt; moved(rt.alloc(), *row) == Some(row.1.len()), "row {at}");
    }
}

/// Whether a relay tells of a near writer that leaves a wrong index.
fn tells_of_wrong_writer(alloc: Global) -> Option<bool> {
    let (page, server, client) = open(alloc)?;
    let (far_page, _, far) = open(alloc)?;
    let mut relay = relay_between(alloc, (&page, server), (&far_page, far), 16)?;
    let mut hostile = page.attach(client).turn();
    hostile.store(WordName::LeftProd, 5_000);
    let _ = hostile.retire();
    let gone = RelayTurn::NearGone {
        prod: 5_000,
        cons: 0,
    };
    Some(makes(&mut relay, &[gone]) && relay.ended() && relay.held() == 0)
}

/// Whether a relay tells of a far reader that leaves a wrong index, and then of its end.
fn tells_of_wrong_reader(alloc: Global) -> Option<bool> {
    let (page, server, client) = open(alloc)?;
    let (far_page, reader, far) = open(alloc)?;
    let mut writer = connected(&page, client)?;
    let mut relay = relay_between(alloc, (&page, server), (&far_page, far), 16)?;
    let mut hostile = far_page.attach(reader).turn();
    Some(meets_wrong_reader(&mut writer, &mut relay, &mut hostile))
}

fn meets_wrong_reader(
    writer: &mut End<'_>,
    relay: &mut Relay<'_>,
    hostile: &mut TurnedEnd<'_>,
) -> bool {
    let full = RelayTurn::Full {
        prod: 0,
        cons: 5_000,
    };
    if !is_open(writer) || write(writer, b"hello") != (WriteAnswer::Wrote { count: 5 }) {
        return false;
    }
    if !makes(relay, &[RelayTurn::Took { count: 5 }]) {
        return false;
    }
    hostile.store(WordName::LeftCons, 5_000);
    if !makes(relay, &[full]) {
        return false;
    }
    hostile.store(WordName::SrvLive, 0);
    makes(relay, &[RelayTurn::FarClosed { held: 5 }])
}

#[test]
fn relays_beside_hostile_ends(rt: HostRuntime) {
    assert!(rt; tells_of_wrong_writer(rt.alloc()) == Some(true));
    assert!(rt; tells_of_wrong_reader(rt.alloc()) == Some(true));
}

/// Whether this many bytes come through this many relays.
fn comes_through<R: Threads + Wait + AllocGlobal + Sync>(
    rt: &R,
    hops: u32,
    workers: u32,
    len: u32,
) -> Option<bool>
    requires hops { (1 ≤ hops) × (hops ≤ 16) }
    requires workers { (1 ≤ workers) × (workers ≤ 16) }
    requires few { len < 2 ^ 31 }
{
    let orders = check_orders(10, 11).ok()?;
    let bytes = vec![in rt.alloc(); b'q'; len as usize].ok()?;
    let relayed = relay_run(rt, rt.alloc(), hops, workers, orders, 4_294_967_295, bytes).ok()?;
    Some(relayed.got.slice().len() == len as usize && relayed.pages.len() == hops as usize + 1)
}

#[test]
fn bytes_come_through(rt: HostRuntime) {
    assert!(rt; comes_through(&rt, 1, 1, 0) == Some(true));
    assert!(rt; comes_through(&rt, 3, 2, 5_000) == Some(true));
    assert!(rt; comes_through(&rt, 16, 4, 40_000) == Some(true));
}
