//! Calls that wait, and pipes, by two threads over one page.
ghost use Rattle.std.specs.Prelude.{◌≡◌, ◌<◌, ◌^◌};
ghost use Rattle.ring_words.specs.declared.page.Role.TheVariants.{Server, Client};

use ring_words::check_orders;
use std::sync::Wait;
use std::test::Fail;
use std::thread::{Threads, join};
use std::time::Clock;
use vchan_block::{BlockRead, BlockRecv, BlockSend, BlockWrite, pipe, read, recv, send, write};
use vchan_lifecycle::{close, connect};
use vchan_rule::{IdleSeat, Page};

/// How many pieces are written, about a mebibyte in all.
const PIECES: u32 = 1_050;

/// Connects, and writes pieces of 1 to 1,999 bytes: how many bytes were sent, and whether the peer
/// was found shut.
fn client_writes<R: Wait + Clock>(rt: &R, page: &Page, seat: IdleSeat) -> (u64, bool)
    requires { seat ≡ record { page = page.now; role = Client } }
{
    let mut end = page.attach(seat);
    let mut sent = 0u64;
    if connect(&mut end).is_err() {
        return (sent, false);
    }
    let bytes = [b'q'; 2_000];
    'pieces: for number in 0..PIECES {
        let most = (number * 787 % 1_999) as usize + 1;
        match write(rt, &mut end, &bytes[..most]) {
            BlockWrite::Wrote { before, last } => {
                sent = sent
                    .saturating_add(before as u64)
                    .saturating_add(u64::from(last));
            }
            BlockWrite::PeerClosed { before } => return (sent.saturating_add(before as u64), true),
        }
    }
    (sent, false)
}

/// Reads until it got this many bytes, then closes: how many it got.
fn server_reads<R: Wait + Clock>(rt: &R, page: &Page, seat: IdleSeat, most: u64) -> u64
    requires { seat ≡ record { page = page.now; role = Server } }
{
    let mut end = page.attach(seat);
    let mut buf = [0; 777];
    let mut got = 0u64;
    'reads: for _ in 0..u64::MAX {
        if got >= most {
            break;
        }
        match read(rt, &mut end, &mut buf) {
            BlockRead::Got { count } => got = got.saturating_add(u64::from(count)),
            BlockRead::PeerClosed => break,
        }
    }
    close(&mut end);
    got
}

#[test]
fn a_reader_closes_in_the_middle(rt: HostRuntime) -> Result<(), Fail> {
    let orders = check_orders(10, 11).map_err(|_| "orders")?;
    let (page, server, client) = Page::open(rt.alloc(), orders, 4_294_967_295)?;
    let ((sent, closed), got) = join(
        &rt,
        || -> (u64, bool)
            requires { client ≡ record { page = page; role = Client } }
        { client_writes(&rt, &page, client) },
        || -> u64
            requires { server ≡ record { page = page; role = Server } }
        { server_reads(&rt, &page, server, 500_000) },
    );
    assert!(rt; closed && got >= 500_000);
    assert!(rt; got <= sent, "{got} of {sent}");
    assert!(rt; sent - got <= 1_024, "{got} of {sent}");
    Ok(())
}

#[test]
fn what_never_fits_is_refused(rt: HostRuntime) -> Result<(), Fail> {
    let orders = check_orders(10, 11).map_err(|_| "orders")?;
    let (page, server, client) = Page::open(rt.alloc(), orders, 0)?;
    let mut server = page.attach(server);
    let mut client = page.attach(client);
    if connect(&mut client).is_err() {
        return Err(Fail::from("connect"));
    }
    let large = BlockSend::TooLarge {
        len: 1_025,
        size: 1_024,
    };
    assert!(rt; send(&rt, &mut client, &[b'q'; 1_025]) == large);
    let large = BlockRecv::TooLarge {
        len: 2_049,
        size: 2_048,
    };
    assert!(rt; recv(&rt, &mut client, &mut [0; 2_049]) == large);
    close(&mut server);
    assert!(rt; write(&rt, &mut client, b"abc") == BlockWrite::PeerClosed { before: 0 });
    Ok(())
}

/// Whether a pipe gives back as many bytes as it was given.
fn comes_back<R: Threads + Wait + Clock + AllocGlobal + Sync>(
    rt: &R,
    left: u16,
    right: u16,
    len: u32,
) -> Option<bool>
    requires { len < 2 ^ 31 }
{
    let orders = check_orders(left, right).ok()?;
    let bytes = vec![in rt.alloc(); b'q'; len as usize].ok()?;
    let (back, _) = pipe(rt, rt.alloc(), orders, 4_294_967_295, bytes).ok()?;
    Some(back.len() == len as usize)
}

#[test]
fn bytes_come_back(rt: HostRuntime) {
    assert!(rt; comes_back(&rt, 10, 11, 0) == Some(true));
    assert!(rt; comes_back(&rt, 10, 11, 1) == Some(true));
    assert!(rt; comes_back(&rt, 10, 11, 70_000) == Some(true));
    assert!(rt; comes_back(&rt, 12, 12, 70_000) == Some(true));
}
