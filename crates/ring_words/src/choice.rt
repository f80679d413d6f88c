//! The choice and the check of ring orders, as in libxenvchan's `init.c`.
ghost use Rattle.std.specs.Prelude.{◌≡◌, ◌≤◌, ◌<◌, ◌↔◌, IsOk, IsErr, IfOk, IfErr};
ghost use Rattle.ring_words.specs.Choice.{AreChosen, AreBadOrders, largest_size, refused_size};
ghost use Rattle.ring_words.specs.Rings.{number_of};

use crate::order::{Order, Orders};

/// The size of the largest ring, in bytes.
const LARGEST_SIZE: u32 = 1_048_576;

/// The size of the smaller ring within the shared page, in bytes.
const SMALL_SIZE: u32 = 1024;

/// The size of the larger ring within the shared page, in bytes.
const LARGE_SIZE: u32 = 2048;

/// A requested ring is larger than 1,048,576 bytes.
#[derive(Clone, Copy, Debug, PartialEq, Eq)]
pub struct SizeTooLarge {
    /// The requested size, in bytes.
    pub size: u32,
}

/// Two numbers that aren't the orders of a page's rings.
#[derive(Clone, Copy, Debug, PartialEq, Eq)]
pub struct BadOrders {
    /// The number given for the left ring.
    pub left: u16,
    /// The number given for the right ring.
    pub right: u16,
}

/// Returns orders for rings that hold at least `left` and `right` bytes. Rings lie within the shared page
/// if they fit, as in `init.c`.
///
/// # Errors
///
/// Returns [`SizeTooLarge`] if a size is above 1,048,576 bytes. It names the left size if that one is too
/// large, else the right size.
pub fn choose_orders(left: u32, right: u32) -> Result<Orders, SizeTooLarge>
    ensures ok { IsOk result ↔ ((left ≤ largest_size) × (right ≤ largest_size)) }
    ensures chosen { IfOk result (AreChosen left right) }
    ensures too_large { IfErr result (λ e. (largest_size < e.size) × (e.size ≡ refused_size left right)) }
{
    if left > LARGEST_SIZE {
        return Err(SizeTooLarge { size: left });
    }
    if right > LARGEST_SIZE {
        return Err(SizeTooLarge { size: right });
    }
    let (left, right) = if left <= SMALL_SIZE && right <= LARGE_SIZE {
        (Order::SMALL, Order::LARGE)
    } else if left <= LARGE_SIZE && right <= SMALL_SIZE {
        (Order::LARGE, Order::SMALL)
    } else if left <= LARGE_SIZE {
        (Order::LARGE, Order::least_for(right))
    } else if right <= LARGE_SIZE {
        (Order::least_for(left), Order::LARGE)
    } else {
        (Order::least_for(left), Order::least_for(right))
    };
    Ok(Orders { left, right })
}

/// Returns the orders that a page's two order fields give.
///
/// # Errors
///
/// Returns [`BadOrders`], with the two numbers, if one is below 10 or above 20, or if both are equal and
/// below 12: two such rings would lie at one place of the shared page.
pub fn check_orders(left: u16, right: u16) -> Result<Orders, BadOrders>
    ensures ok { IfOk result (λ orders. (number_of orders.left ≡ left) × (number_of orders.right ≡ right)) }
    ensures bad { IsErr result ↔ AreBadOrders left right }
    ensures named { IfErr result (λ e. (e.left ≡ left) × (e.right ≡ right)) }
{
    let bad = BadOrders { left, right };
    let left_order = Order::new(left).ok_or(bad)?;
    let right_order = Order::new(right).ok_or(bad)?;
    if left == right && left < 12 {
        return Err(bad);
    }
    Ok(Orders {
        left: left_order,
        right: right_order,
    })
}
