//! The numbers of a page's words, and what the words hold.
use crate::images::set;
use ring_words::{Layout, Orders, Ring, WordName, Words, check_orders};
use std::alloc::Global;
use std::process::Abort;
use std::test::Fail;

#[test]
fn numbers_the_words(rt: HostRuntime) -> Result<(), Fail> {
    let layout = Layout::new(check_orders(10, 11)?);
    let rows = [
        (WordName::LeftCons, 0),
        (WordName::LeftProd, 1),
        (WordName::RightCons, 2),
        (WordName::RightProd, 3),
        (WordName::LeftOrder, 4),
        (WordName::RightOrder, 5),
        (WordName::CliLive, 6),
        (WordName::SrvLive, 7),
        (WordName::CliNotify, 8),
        (WordName::SrvNotify, 9),
        (WordName::SrvPending, 10),
        (WordName::CliPending, 11),
        (WordName::SrvGone, 12),
        (WordName::CliGone, 13),
        (byte(Ring::Left, 0), 14),
        (byte(Ring::Left, 1023), 1037),
        (byte(Ring::Right, 0), 1038),
        (byte(Ring::Right, 2047), 3085),
    ];
    for (name, number) in rows {
        assert!(rt; layout.has(name), "at {name:?}");
        assert!(rt; layout.word(name) == number, "at {name:?}");
    }
    assert!(rt; layout.count() == 3086);
    Ok(())
}

#[test]
fn has_no_byte_beyond_a_ring(rt: HostRuntime) -> Result<(), Fail> {
    let layout = Layout::new(check_orders(10, 11)?);
    for name in [
        byte(Ring::Left, 1024),
        byte(Ring::Right, 2048),
        byte(Ring::Right, u32::MAX),
    ] {
        assert!(rt; !layout.has(name), "at {name:?}");
    }
    Ok(())
}

fn byte(ring: Ring, at: u32) -> WordName {
    WordName::RingByte { ring, at }
}

// Single accesses, in functions of their own: what a contract says of a page's words stays out of the test.
fn loads(words: &Words, name: WordName) -> Option<u64> {
    if Layout::new(words.orders()).has(name) {
        return Some(words.load(name));
    }
    None
}

/// Stores the last two bytes of a left ring of 1,024 bytes, and returns the last three.
fn last_bytes(words: &mut Words) -> Option<[u8; 3]> {
    if words.orders().left.size() != 1024 {
        return None;
    }
    words.store_bytes(Ring::Left, 1022, b"xy");
    let mut bytes = [0u8; 3];
    words.load_bytes(Ring::Left, 1021, &mut bytes);
    Some(bytes)
}

fn check_list(rt: &impl Abort, list: &[u64]) {
    assert!(rt; list.len() == 3086);
    assert!(rt; list[3] == 4_294_967_295);
    assert!(rt; list[1038] == u64::MAX);
}

/// A page of these orders whose words hold 0.
fn empty(alloc: Global, orders: Orders) -> Result<Words, Fail> {
    let count = Layout::new(orders).count();
    Ok(Words::of(orders, vec![in alloc; 0u64; count]?))
}

#[test]
fn holds_what_was_stored(rt: HostRuntime) -> Result<(), Fail> {
    let orders = check_orders(10, 11)?;
    let mut words = empty(rt.alloc(), orders)?;
    let first = byte(Ring::Right, 0);
    set(&mut words, WordName::RightProd, 4_294_967_295);
    set(&mut words, first, u64::MAX);
    assert!(rt; loads(&words, WordName::RightProd) == Some(4_294_967_295));
    assert!(rt; loads(&words, first) == Some(u64::MAX));
    assert!(rt; loads(&words, WordName::LeftProd) == Some(0));
    assert!(rt; words.orders() == orders);
    assert!(rt; last_bytes(&mut words) == Some(*b"\0xy"));
    check_list(&rt, words.list());
    Ok(())
}
