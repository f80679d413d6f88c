ghost use Rattle.std.specs.Prelude.{◌≡◌};
ghost use Rattle.ring_words.specs.declared.page.Role.TheVariants.{Server, Client};

use crate::row::Row;
use crate::rows::{
    closed_race, consumed_of_full_ring, consumed_prefix, play, ready_space_gone, said_by_hand,
};
use crate::threads::{exchange, receive_all, send_all};
use ring_words::check_orders;
use std::alloc::{AllocError, Global};
use std::test::Fail;
use std::thread::join;
use vchan_lifecycle::{close, connect};
use vchan_rule::{IdleSeat, Page};

const ROWS: [Row; 6] = [
    Row::Fresh,
    Row::FiveBytes,
    Row::FullRing,
    Row::Packets,
    Row::LongPacket,
    Row::Events,
];

// Whether rows answer as they should, in functions of their own: what the contracts of the rows say stays
// out of the test.
fn is_played(alloc: Global, row: Row) -> bool {
    match play(alloc, row) {
        Some(settled) => !settled.server_turned() && !settled.client_turned(),
        None => false,
    }
}

fn race_is_told(alloc: Global) -> bool {
    closed_race(alloc).is_some()
}

fn prefix_is_consumed(alloc: Global) -> Option<bool> {
    let (settled, bytes) = consumed_prefix(alloc)?;
    Some(bytes == [99; 4] && settled.client_turned() && !settled.server_turned())
}

fn full_ring_is_consumed(alloc: Global) -> bool {
    consumed_of_full_ring(alloc).is_some()
}

#[test]
fn rows_answer_as_they_should(rt: HostRuntime) {
    let alloc = rt.alloc();
    for row in ROWS {
        assert!(rt; is_played(alloc, row));
    }
    assert!(rt; race_is_told(alloc));
    assert!(rt; ready_space_gone(alloc) == Some((0, 1024, false, true)));
    assert!(rt; prefix_is_consumed(alloc) == Some(true));
    assert!(rt; full_ring_is_consumed(alloc));
    assert!(rt; said_by_hand(alloc) == Some((1024, 1024, [false; 3])));
}

fn server_exchanges(page: &Page, seat: IdleSeat) -> Option<u8>
    requires { seat ≡ record { page = page.now; role = Server } }
{
    exchange(&mut page.attach(seat), b's')
}

fn client_exchanges(page: &Page, seat: IdleSeat) -> Option<u8>
    requires { seat ≡ record { page = page.now; role = Client } }
{
    let mut end = page.attach(seat);
    match connect(&mut end) {
        Ok(()) => exchange(&mut end, b'c'),
        Err(_) => None,
    }
}

#[test]
fn two_ends_at_once(rt: HostRuntime) -> Result<(), Fail> {
    let orders = check_orders(10, 11).map_err(|_| "orders")?;
    let (page, server, client) = Page::open(rt.alloc(), orders, 0)?;
    let (one, two) = join(
        &rt,
        || -> Option<u8>
            requires { server ≡ record { page = page; role = Server } }
        { server_exchanges(&page, server) },
        || -> Option<u8>
            requires { client ≡ record { page = page; role = Client } }
        { client_exchanges(&page, client) },
    );
    assert!(rt; one == Some(b'c') && two == Some(b's'));
    Ok(())
}

fn pattern(alloc: Global, len: u32) -> Result<Vec<u8>, AllocError> {
    let mut bytes = Vec::new(alloc);
    for number in 0..len {
        bytes.push((number % 251) as u8)?;
    }
    Ok(bytes)
}

fn server_receives(page: &Page, seat: IdleSeat, alloc: Global) -> Result<Vec<u8>, AllocError>
    requires { seat ≡ record { page = page.now; role = Server } }
{
    receive_all(&mut page.attach(seat), alloc)
}

fn client_sends(page: &Page, seat: IdleSeat, data: &[u8]) -> bool
    requires { seat ≡ record { page = page.now; role = Client } }
{
    let mut end = page.attach(seat);
    match connect(&mut end) {
        Ok(()) => {
            let sent = send_all(&mut end, data);
            close(&mut end);
            sent
        }
        Err(_) => false,
    }
}

#[test]
fn a_mebibyte_crosses_two_threads(rt: HostRuntime) -> Result<(), Fail> {
    let orders = check_orders(10, 11).map_err(|_| "orders")?;
    let (page, server, client) = Page::open(rt.alloc(), orders, 4_294_967_295)?;
    let data = pattern(rt.alloc(), 1_048_576)?;
    let alloc = rt.alloc();
    let (got, sent) = join(
        &rt,
        || -> Result<Vec<u8>, AllocError>
            requires { server ≡ record { page = page; role = Server } }
        { server_receives(&page, server, alloc) },
        || -> bool
            requires { client ≡ record { page = page; role = Client } }
        { client_sends(&page, client, data.as_slice()) },
    );
    assert!(rt; sent && got?.as_slice() == data.as_slice());
    Ok(())
}
