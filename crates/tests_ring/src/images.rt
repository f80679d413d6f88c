//! The image of a page, and the page of an image.
use ring_words::{
    ImageError, Layout, Ring, WordName, Words, check_orders, page_image, words_of_image,
};
use std::alloc::Global;
use std::process::Abort;
use std::test::Fail;

/// The bytes of an image.
const PAGE_SIZE: usize = 4096;

/// A page with a client, the first bytes of its image, and the others that aren't 0.
#[derive(Clone, Copy)]
struct Row {
    orders: (u16, u16),
    indices: [u64; 4],
    ring: &'static [(Ring, u32, u64)],
    head: &'static [u8; 24],
    bytes: &'static [(usize, u8)],
    lost: WordName,
}

const ROWS: [Row; 4] = [
    // Ten bytes that the server has read, from the index 4,294,967,290 on.
    Row {
        orders: (10, 11),
        indices: [4, 4, 4_294_967_290, 4_294_967_290],
        ring: &[
            (Ring::Left, 1018, 0x30),
            (Ring::Left, 1023, 0x35),
            (Ring::Left, 0, 0x36),
            (Ring::Left, 3, 0x39),
        ],
        head: b"\x04\0\0\0\x04\0\0\0\xfa\xff\xff\xff\xfa\xff\xff\xff\x0a\0\x0b\0\x01\x01\0\x01",
        bytes: &[(2042, 0x30), (2047, 0x35), (1024, 0x36), (1027, 0x39)],
        lost: WordName::SrvPending,
    },
    // Five bytes of a client that has just connected.
    Row {
        orders: (10, 11),
        indices: [0, 5, 0, 0],
        ring: &[(Ring::Left, 0, 0x68), (Ring::Left, 4, 0x6f)],
        head: b"\0\0\0\0\x05\0\0\0\0\0\0\0\0\0\0\0\x0a\0\x0b\0\x01\x01\0\x01",
        bytes: &[(1024, 0x68), (1028, 0x6f)],
        lost: WordName::SrvPending,
    },
    // One byte.
    Row {
        orders: (10, 11),
        indices: [0, 1, 0, 0],
        ring: &[(Ring::Left, 0, 0x61)],
        head: b"\0\0\0\0\x01\0\0\0\0\0\0\0\0\0\0\0\x0a\0\x0b\0\x01\x01\0\x01",
        bytes: &[(1024, 0x61)],
        lost: WordName::CliGone,
    },
    // A ring of order 12, which isn't in the image.
    Row {
        orders: (11, 12),
        indices: [0, 0, 0, 2],
        ring: &[(Ring::Left, 2047, 0x62)],
        head: b"\0\0\0\0\0\0\0\0\0\0\0\0\x02\0\0\0\x0b\0\x0c\0\x01\x01\0\x01",
        bytes: &[(4095, 0x62)],
        lost: WordName::RingByte {
            ring: Ring::Right,
            at: 0,
        },
    },
];

/// Returns the row's page; the word that its image doesn't show holds `lost`.
fn page(alloc: Global, row: Row, lost: u64) -> Result<Words, Fail> {
    let (left, right) = row.orders;
    let orders = check_orders(left, right)?;
    let mut page = Words::of(orders, vec![in alloc; 0u64; Layout::new(orders).count()]?);
    set(&mut page, WordName::LeftCons, row.indices[0]);
    set(&mut page, WordName::LeftProd, row.indices[1]);
    set(&mut page, WordName::RightCons, row.indices[2]);
    set(&mut page, WordName::RightProd, row.indices[3]);
    set(&mut page, WordName::LeftOrder, u64::from(left));
    set(&mut page, WordName::RightOrder, u64::from(right));
    set(&mut page, WordName::CliLive, 1);
    set(&mut page, WordName::SrvLive, 1);
    set(&mut page, WordName::SrvNotify, 1);
    for (ring, at, byte) in row.ring {
        set(
            &mut page,
            WordName::RingByte {
                ring: *ring,
                at: *at,
            },
            *byte,
        );
    }
    set(&mut page, row.lost, lost);
    Ok(page)
}

/// Stores a value in a word, if the page has it.
pub(crate) fn set(page: &mut Words, name: WordName, value: u64) {
    if Layout::new(page.orders()).has(name) {
        page.store(name, value);
    }
}

/// Returns the row's image.
fn image(row: Row) -> [u8; PAGE_SIZE] {
    let mut image = [0; PAGE_SIZE];
    let head = row.head;
    image[..24].copy_from_slice(head);
    for (at, byte) in row.bytes {
        if *at < PAGE_SIZE {
            image[*at] = *byte;
        }
    }
    image
}

/// Checks the row's image, and the words that it shows.
fn check(rt: &(impl Abort + Alloc<A = Global>), row: Row) -> Result<(), Fail> {
    let shown = page_image(&page(rt.alloc(), row, 1)?);
    let words = words_of_image(rt.alloc(), &shown)?;
    let kept = page(rt.alloc(), row, 0)?;
    assert!(rt; shown == image(row), "at {:?}", row.head);
    assert!(rt; words.orders() == kept.orders(), "at {:?}", row.head);
    assert!(rt; words.list() == kept.list(), "at {:?}", row.head);
    Ok(())
}

#[test]
fn images_of_pages(rt: HostRuntime) -> Result<(), Fail> {
    for row in ROWS {
        check(&rt, row)?;
    }
    Ok(())
}

#[test]
fn names_bad_orders(rt: HostRuntime) -> Result<(), Fail> {
    let mut image = [0; PAGE_SIZE];
    image[16..20].copy_from_slice(b"\x0a\0\x0a\0");
    let refused = words_of_image(rt.alloc(), &image).err();
    assert!(rt;
        refused
            == Some(ImageError::BadOrders {
                left: 10,
                right: 10
            })
    );
    Ok(())
}
