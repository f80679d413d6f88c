//! Worked rows on a page whose left ring has 1,024 places and whose right one has 2,048.
ghost use Rattle.std.specs.Prelude.{◌≡◌, ◌++◌, [], length, true, false, IfNone, IfSome, codes};
ghost use Rattle.ring_words.specs.declared.page.Role.TheVariants.{Server, Client};
ghost use Rattle.vchan_rule.specs.Seated.{view, IsOpen};
ghost use Rattle.vchan_rule.specs.Ends.{IsSameEnd};
ghost use Rattle.ring_words.specs.Rings.{size};
ghost use Rattle.tests_ring.specs.Rows.{AreBetween, AreUnused, HasCounts, IsNew, IsRow, IsUnderWay, moved_on};

use crate::row::Row;
use crate::whole::{
    check_bytes, drain_all, drain_none, end_stream, letters, read_all, read_none, receive_none,
    receive_whole, send_none, send_whole, write_all, write_none, write_some,
};
use hostile_seat::turn;
use ring_words::{Orders, Ring, WordName, check_orders};
use std::alloc::Global;
use vchan_core::{Answer, Call, EndState};
use vchan_lifecycle::{close, connect, retire};
use vchan_notify::{buffer_space, data_ready, peer_gone, take_event};
use vchan_rule::{End, IdleSeat, Page, Retired, Settled};

fn small_page(alloc: Global) -> Option<(Page, IdleSeat, IdleSeat)>
    ensures seats { IfSome result (λ p. (p.1 ≡ record { page = p.0; role = Server }) × (p.2 ≡ record { page = p.0; role = Client })) }
    ensures size { IfSome result (λ p. size p.0.orders.left ≡ 1024) }
{
    match Page::open(alloc, small_orders()?, 0) {
        Ok(opened) => Some(opened),
        Err(_) => None,
    }
}

fn small_orders() -> Option<Orders>
    ensures { IfSome result (λ orders. size orders.left ≡ 1024) }
{
    let Ok(orders) = check_orders(10, 11) else {
        return None;
    };
    if orders.left.size() != 1024 {
        return None;
    }
    Some(orders)
}

/// Returns the two ends, after the client has connected.
fn connected<'p>(page: &'p Page, server: IdleSeat, client: IdleSeat) -> Option<(End<'p>, End<'p>)>
    requires server { server ≡ record { page = page.now; role = Server } }
    requires client { client ≡ record { page = page.now; role = Client } }
    ensures { IfSome result (λ ends. IsOpen ends.0 × IsOpen ends.1 × IsNew (view ends.0) page.now Server × IsNew (view ends.1) page.now Client) }
{
    let server = page.attach(server);
    let mut client = page.attach(client);
    match connect(&mut client) {
        Ok(()) => Some((server, client)),
        Err(_) => None,
    }
}

/// Plays a row on a new page. Returns `None` if an answer isn't that of the row.
pub fn play(alloc: Global, row: Row) -> Option<Settled>
    ensures { IfSome result (λ page. IsRow row (page.client.sent, page.server.got, page.server.sent, page.client.got)) }
{
    let (page, server, client) = small_page(alloc)?;
    let (mut server, mut client) = connected(&page, server, client)?;
    moves(row, &mut server, &mut client)?;
    let server = retire(server);
    let client = retire(client);
    Some(page.finish(server, client))
}

/// Makes the moves of a row. Returns `None` if an answer isn't that of the row.
fn moves(row: Row, server: &mut End<'_>, client: &mut End<'_>) -> Option<()>
    requires unused { AreUnused server.old client.old }
    ensures between { IfSome result (λ _. AreBetween server.old server.new client.old client.new) }
    ensures row { IfSome result (λ _. IsRow row (moved_on server.new client.new)) }
{
    match row {
        Row::Fresh => finds_nothing(server, client),
        Row::FiveBytes => five_bytes(server, client),
        Row::FullRing => full_ring(server, client),
        Row::Packets => packets(server, client),
        Row::LongPacket => long_packet(server, client),
        Row::Events => events(server, client),
    }
}

// The moves of each row.
fn finds_nothing(server: &mut End<'_>, client: &mut End<'_>) -> Option<()>
    requires unused { AreUnused server.old client.old }
    ensures between { IfSome result (λ _. AreBetween server.old server.new client.old client.new) }
    ensures row { IfSome result (λ _. IsRow Row.Fresh (moved_on server.new client.new)) }
{
    drain_none(server, &mut [0; 4], 0, 0)?;
    (client.state() == EndState::Open).then_some(())
}

fn five_bytes(server: &mut End<'_>, client: &mut End<'_>) -> Option<()>
    requires unused { AreUnused server.old client.old }
    ensures between { IfSome result (λ _. AreBetween server.old server.new client.old client.new) }
    ensures row { IfSome result (λ _. IsRow Row.FiveBytes (moved_on server.new client.new)) }
{
    let mut bytes = [0; 5];
    write_all(client, b"hello")?;
    read_all(server, &mut bytes)?;
    check_bytes(&bytes, b"hello")
}

fn full_ring(server: &mut End<'_>, client: &mut End<'_>) -> Option<()>
    requires unused { AreUnused server.old client.old }
    ensures between { IfSome result (λ _. AreBetween server.old server.new client.old client.new) }
    ensures row { IfSome result (λ _. IsRow Row.FullRing (moved_on server.new client.new)) }
{
    write_some(client, letters(1025), 1024)?;
    write_none(client, b"b", 1024, 0)
}

fn packets(server: &mut End<'_>, client: &mut End<'_>) -> Option<()>
    requires unused { AreUnused server.old client.old }
    ensures between { IfSome result (λ _. AreBetween server.old server.new client.old client.new) }
    ensures row { IfSome result (λ _. IsRow Row.Packets (moved_on server.new client.new)) }
{
    let mut bytes = [0; 4];
    send_whole(client, letters(1024))?;
    send_none(client, b"b", 1024, 0)?;
    receive_whole(server, &mut bytes)?;
    receive_none(server, &mut [0; 1021], 1024, 4)?;
    check_bytes(&bytes, b"aaaa")
}

fn long_packet(server: &mut End<'_>, client: &mut End<'_>) -> Option<()>
    requires unused { AreUnused server.old client.old }
    ensures between { IfSome result (λ _. AreBetween server.old server.new client.old client.new) }
    ensures row { IfSome result (λ _. IsRow Row.LongPacket (moved_on server.new client.new)) }
{
    send_none(client, letters(1025), 0, 0)
}

fn events(server: &mut End<'_>, client: &mut End<'_>) -> Option<()>
    requires unused { AreUnused server.old client.old }
    ensures between { IfSome result (λ _. AreBetween server.old server.new client.old client.new) }
    ensures row { IfSome result (λ _. IsRow Row.Events (moved_on server.new client.new)) }
{
    read_none(server, &mut [0; 1], 0, 0)?;
    write_all(client, b"a")?;
    write_all(client, b"b")?;
    if take_event(server) && !take_event(server) {
        Some(())
    } else {
        None
    }
}

/// Makes this many events of a call under way that sends nothing, or fewer if its answer comes before.
fn make_events(end: &mut End<'_>, most: u32, buf: &mut [u8]) -> Option<Answer>
    requires { IsUnderWay end.old buf.old }
    ensures same { IsSameEnd end.old end.new }
    ensures sent { (view end.new).sent ≡ (view end.old).sent }
    ensures long { length buf.new ≡ length buf.old }
    ensures goes_on { IfNone result (IsUnderWay end.new buf.new) }
{
    'events: for _ in 0..most {
        if let Some(answer) = end.step(&[], buf) {
            return Some(answer);
        }
    }
    None
}

/// A server has begun a read and found no byte when its client writes two and closes. The read then finds
/// the client shut, a drain still finds the bytes, and a second one that all was read.
fn race(server: &mut End<'_>, client: &mut End<'_>) -> Option<()>
    requires unused { AreUnused server.old client.old }
    ensures between { IfSome result (λ _. AreBetween server.old server.new client.old client.new) }
    ensures sent { IfSome result (λ _. ((view client.new).sent ≡ codes "ab") × ((view server.new).sent ≡ []) × ((view client.new).got ≡ [])) }
    ensures drained { IfSome result (λ _. (view server.new).drained ≡ true) }
{
    let mut bytes = [0; 8];
    server.begin(Call::Read { most: 4 });
    if let Some(_) = make_events(server, 3, &mut bytes) {
        return None;
    }
    write_all(client, b"ab")?;
    close(client);
    let answer = make_events(server, 8, &mut bytes);
    if answer != Some(Answer::PeerClosed) || !server.idle() || server.state() != EndState::Open {
        return None;
    }
    drain_all(server, &mut [0; 2])?;
    end_stream(server)?;
    Some(())
}

/// Plays that race. Only the contracts tell which bytes the server got: all that was sent, as its ring is
/// drained.
pub fn closed_race(alloc: Global) -> Option<Settled>
    ensures { IfSome result (λ page. (page.client.sent ≡ codes "ab") × (page.server.got ≡ codes "ab") × (page.server.sent ≡ []) × (page.client.got ≡ [])) }
{
    let (page, server, client) = small_page(alloc)?;
    let (mut server, mut client) = connected(&page, server, client)?;
    race(&mut server, &mut client)?;
    let server = retire(server);
    let client = retire(client);
    let settled = page.finish(server, client);
    if settled.server_turned() || settled.client_turned() {
        return None;
    }
    all_was_got(&settled);
    Some(settled)
}

/// If the left ring of two honest ends was drained, all that was sent was got.
fn all_was_got(page: &Settled)
    requires honest { (page.now.server.turned ≡ false) × (page.now.client.turned ≡ false) }
    requires drained { page.now.server.drained ≡ true }
    ensures { page.now.server.got ≡ page.now.client.sent }
{
    page.promise();
}

/// What a server finds to read, what room a client finds, and whether the client is gone after it
/// retired.
pub fn ready_space_gone(alloc: Global) -> Option<(u32, u32, bool, bool)> {
    let (page, server, client) = small_page(alloc)?;
    let (mut server, mut client) = connected(&page, server, client)?;
    let ready = data_ready(&mut server);
    let space = buffer_space(&mut client);
    let before = peer_gone(&mut server);
    let _ = retire(client);
    Some((ready, space, before, peer_gone(&mut server)))
}

/// A client writes six bytes, of which the server reads two.
fn two_of_six(server: &mut End<'_>, client: &mut End<'_>) -> Option<()>
    requires unused { AreUnused server.old client.old }
    ensures between { AreBetween server.old server.new client.old client.new }
    ensures open { IsOpen server.new × IsOpen client.new }
    ensures moved { IfSome result (λ _. moved_on server.new client.new ≡ (codes "abcdef", codes "ab", [], [])) }
{
    let mut first = [0; 2];
    write_all(client, b"abcdef")?;
    read_all(server, &mut first)?;
    check_bytes(&first, b"ab")
}

/// Turns a client, whose hostile user then stores the same byte at the first six places of its ring.
fn overwritten(client: End<'_>) -> Retired
    requires idle { (view client).idle ≡ true }
    ensures same { (result.page ≡ client.entry.page) × (result.side.role ≡ client.entry.side.role) }
    ensures sent { result.side.sent ≡ client.entry.side.sent }
{
    let mut client = turn(client);
    'stores: for at in 0..6 {
        let word = WordName::RingByte {
            ring: Ring::Left,
            at,
        };
        if client.may(word) {
            client.store(word, 99);
        }
    }
    client.retire()
}

/// Drains four bytes.
fn four_more(server: &mut End<'_>) -> Option<[u8; 4]>
    requires open { IsOpen server.old }
    ensures same { IsSameEnd server.old server.new }
    ensures open { IsOpen server.new }
    ensures got { IfSome result (λ bytes. (view server.new).got ≡ (view server.old).got ++ bytes) }
{
    let mut bytes = [0; 4];
    drain_all(server, &mut bytes)?;
    Some(bytes)
}

/// A client writes six bytes, of which the server reads two. Then the client is turned, and its hostile user
/// overwrites all six. Returns the four bytes that the server still drains.
pub fn consumed_prefix(alloc: Global) -> Option<(Settled, [u8; 4])>
    ensures { IfSome result (λ p. (p.0.client.sent ≡ codes "abcdef") × (p.0.server.got ≡ codes "ab" ++ p.1)) }
{
    let (page, server, client) = small_page(alloc)?;
    let (mut server, mut client) = connected(&page, server, client)?;
    two_of_six(&mut server, &mut client)?;
    let client = overwritten(client);
    let bytes = four_more(&mut server)?;
    close(&mut server);
    let server = retire(server);
    Some((page.finish(server, client), bytes))
}

/// A client fills its ring, a server reads two bytes of it, and the client writes two more.
fn filled_again(server: &mut End<'_>, client: &mut End<'_>) -> Option<()>
    requires unused { AreUnused server.old client.old }
    ensures between { AreBetween server.old server.new client.old client.new }
    ensures moved { IfSome result (λ _. (length (view client.new).sent ≡ 1026) × (length (view server.new).got ≡ 2) × ((view server.new).sent ≡ []) × ((view client.new).got ≡ [])) }
{
    write_some(client, letters(1024), 1024)?;
    read_all(server, &mut [0; 2])?;
    write_some(client, b"bc", 2)
}

/// A server reads two bytes of a full ring, and the client fills it again. Then the client is turned. Only
/// the contracts tell how much the server had got: no more than one ring can be on its way, and no more
/// than what was got can have been consumed.
pub fn consumed_of_full_ring(alloc: Global) -> Option<Settled>
    ensures { IfSome result (λ page. (page.client.consumed ≡ 2) × HasCounts page 1026 2 0 0) }
{
    let (page, server, client) = small_page(alloc)?;
    let (mut server, mut client) = connected(&page, server, client)?;
    filled_again(&mut server, &mut client)?;
    let client = turn(client).retire();
    let server = retire(server);
    let settled = page.finish(server, client);
    if settled.server_turned() || !settled.client_turned() {
        return None;
    }
    two_consumed(&settled);
    Some(settled)
}

/// If the client was turned when it had sent 1,026 bytes, of which its honest server got two, exactly these
/// two had been consumed.
fn two_consumed(page: &Settled)
    requires turned { (page.now.client.turned ≡ true) × (page.now.server.turned ≡ false) }
    requires size { size page.now.orders.left ≡ 1024 }
    requires moved { (length page.now.client.sent ≡ 1026) × (length page.now.server.got ≡ 2) }
    ensures { page.now.client.consumed ≡ 2 }
{
    page.promise();
}

/// A hostile user puts 2,000 bytes on an untouched ring. Returns how many had room, the user's own producer
/// index then, and whether the user reaches three words that it mustn't.
pub fn said_by_hand(alloc: Global) -> Option<(u32, u32, [bool; 3])> {
    let (page, server, client) = small_page(alloc)?;
    let (_, client) = connected(&page, server, client)?;
    let mut client = turn(client);
    let mut own = 0;
    let count = client.say(&mut own, &[7; 2000]);
    let beyond = WordName::RingByte {
        ring: Ring::Left,
        at: 1024,
    };
    let reaches = [
        client.may(WordName::SrvPending),
        client.may(WordName::CliGone),
        client.may(beyond),
    ];
    Some((count, own, reaches))
}
