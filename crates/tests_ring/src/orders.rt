//! Ring orders: their sizes, how they are chosen and which are refused.
use ring_words::{BadOrders, Order, Orders, check_orders, choose_orders};

/// Returns the size of the order of this number, and its number again.
fn size_and_number(number: u16) -> Option<(u32, u16)> {
    let order = Order::new(number)?;
    Some((order.size(), order.number()))
}

#[test]
fn orders_are_ten_to_twenty(rt: HostRuntime) {
    let sizes = [
        (0, None),
        (9, None),
        (10, Some(1024)),
        (11, Some(2048)),
        (20, Some(1_048_576)),
        (21, None),
        (u16::MAX, None),
    ];
    for (number, size) in sizes {
        let want = size.map(|size| (size, number));
        assert!(rt; size_and_number(number) == want, "at {number}");
    }
}

/// Returns the two numbers of a pair of orders.
fn numbers(orders: Orders) -> (u16, u16) {
    (orders.left.number(), orders.right.number())
}

/// Returns the numbers of the orders for two sizes, or the size that is too large.
fn chosen(left: u32, right: u32) -> Result<(u16, u16), u32> {
    match choose_orders(left, right) {
        Ok(orders) => Ok(numbers(orders)),
        Err(refused) => Err(refused.size),
    }
}

#[test]
fn chooses_orders(rt: HostRuntime) {
    let rows = [
        ((0, 0), Ok((10, 11))),
        ((1024, 2048), Ok((10, 11))),
        ((2048, 1024), Ok((11, 10))),
        ((1025, 1024), Ok((11, 10))),
        ((2000, 2000), Ok((11, 12))),
        ((1024, 2049), Ok((11, 12))),
        ((3000, 100), Ok((12, 11))),
        ((2049, 2048), Ok((12, 11))),
        ((4096, 4097), Ok((12, 13))),
        ((5000, 70000), Ok((13, 17))),
        ((1_048_576, 1_048_576), Ok((20, 20))),
        ((0, 1_048_577), Err(1_048_577)),
        ((1_048_577, 0), Err(1_048_577)),
        ((2_000_000, 3_000_000), Err(2_000_000)),
    ];
    for ((left, right), want) in rows {
        assert!(rt; chosen(left, right) == want, "at {left} {right}");
    }
}

#[test]
fn checks_orders(rt: HostRuntime) {
    let rows = [
        (9, 12, false),
        (12, 9, false),
        (10, 11, true),
        (11, 10, true),
        (10, 10, false),
        (11, 11, false),
        (12, 12, true),
        (20, 20, true),
        (10, 20, true),
        (21, 12, false),
        (12, 21, false),
    ];
    for (left, right, good) in rows {
        let want = if good {
            Ok((left, right))
        } else {
            Err(BadOrders { left, right })
        };
        assert!(rt;
            check_orders(left, right).map(numbers) == want,
            "at {left} {right}"
        );
    }
}
