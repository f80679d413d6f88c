//! The sizes of rings, as powers of two.
ghost use Rattle.std.specs.Prelude.{◌≡◌, ◌≤◌, ◌<◌, ◌^◌, ◌⊎◌, IsNone, IfSome, ◌↔◌, ◌≢◌};

use crate::page::Ring;

/// The size of a ring, as an exponent of two: a ring of order n has 2^n bytes. The fields `left_order` and
/// `right_order` in Xen's `public/io/libxenvchan.h` hold this number.
#[derive(Clone, Copy, Debug, PartialEq, Eq)]
pub struct Order {
    number: u16,
    ghost in_range: { (10 ≤ number) × (number ≤ 20) },
}

/// The orders of both rings of a page.
///
/// A ring of order 10 lies at offset 1,024 of the shared page and one of order 11 at offset 2,048,
/// so the two rings can't both have order 10, nor both order 11.
#[derive(Clone, Copy, Debug, PartialEq, Eq)]
pub struct Orders {
    /// The order of the ring that the client writes.
    pub left: Order,
    /// The order of the ring that the server writes.
    pub right: Order,
    ghost distinct: { left.number ≡ right.number → 12 ≤ left.number },
}

impl Order {
    ghost use Rattle.ring_words.specs.Rings.{number_of, size};
    ghost use Rattle.ring_words.specs.Choice.{IsLeastOrder, largest_size};

    /// The order of the smaller ring within the shared page, of 1,024 bytes.
    pub(crate) const SMALL: Order = Order { number: 10 };

    /// The order of the larger ring within the shared page, of 2,048 bytes.
    pub(crate) const LARGE: Order = Order { number: 11 };

    /// Returns the order of that number, or `None` if and only if the number is below 10 or above 20.
    pub fn new(number: u16) -> Option<Order>
        ensures none { IsNone result ↔ ((number < 10) ⊎ (20 < number)) }
        ensures number { IfSome result (λ order. number_of order ≡ number) }
    {
        match number {
            10..=20 => Some(Order { number }),
            _ => None,
        }
    }

    /// Returns the least order, from 12 on, whose ring holds `bytes` bytes.
    pub(crate) fn least_for(bytes: u32) -> Order
        requires { bytes ≤ largest_size }
        ensures { IsLeastOrder bytes (number_of result) }
    {
        for number in 12..20 {
            let order = Order { number };
            if bytes <= order.size() {
                return order;
            }
        }
        Order { number: 20 }
    }

    /// Returns the exponent of two, from 10 to 20.
    pub fn number(self) -> u16
        ensures { result ≡ number_of self }
    {
        self.number
    }

    /// Returns the number of bytes of a ring of this order.
    pub fn size(self) -> u32
        ensures size { result ≡ size self }
        ensures within { (1024 ≤ result) × (result ≤ 1048576) }
    {
        1u32 << self.number
    }
}

impl Orders {
    ghost use Rattle.ring_words.specs.Page.{order_of};

    /// Returns the order of one of the two rings.
    pub fn order_of(self, ring: Ring) -> Order
        ensures { result ≡ order_of self ring }
    {
        match ring {
            Ring::Left => self.left,
            Ring::Right => self.right,
        }
    }
}
