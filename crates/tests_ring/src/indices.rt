//! What two indices say: bytes that wait, room, and places.
use ring_words::{Order, place, ready, room};
use std::test::Fail;

/// Just below the wrap of an index.
const LATE: u32 = 4_294_967_290;

/// How many bytes wait, and how many have room.
fn both(prod: u32, cons: u32, order: Order) -> (u32, u32) {
    (ready(prod, cons, order), room(prod, cons, order))
}

#[test]
fn bytes_that_wait_and_room(rt: HostRuntime) -> Result<(), Fail> {
    let order = Order::new(10).ok_or("order")?;
    // prod, cons, ready, room
    let rows = [
        (0, 0, 0, 1024),
        (5, 0, 5, 1019),
        (1024, 0, 1024, 0),
        (1025, 0, 0, 0),
        (2000, 0, 0, 0),
        (0, 5, 0, 0),
        (LATE, LATE, 0, 1024),
        (4, LATE, 10, 1014),
        (1018, LATE, 1024, 0),
        (1019, LATE, 0, 0),
        (LATE, 4, 0, 0),
    ];
    for (prod, cons, waiting, free) in rows {
        assert!(rt;
            both(prod, cons, order) == (waiting, free),
            "at {prod} {cons}"
        );
    }
    Ok(())
}

#[test]
fn places_wrap_with_the_index(rt: HostRuntime) -> Result<(), Fail> {
    // order, index, place
    let rows = [
        (10, 0, 0),
        (10, 1023, 1023),
        (10, 1024, 0),
        (10, LATE, 1018),
        (10, u32::MAX, 1023),
        (11, 1024, 1024),
        (11, LATE, 2042),
        (20, LATE, 1_048_570),
    ];
    for (number, index, want) in rows {
        let order = Order::new(number).ok_or("order")?;
        assert!(rt; place(index, order) == want, "at {index} of {number}");
    }
    Ok(())
}
