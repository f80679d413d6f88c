//! Making the pages of a run.
ghost use Rattle.std.specs.Prelude.{◌≡◌, IfOk, length};
ghost use Rattle.vchan_relay.specs.Laying.{AreLaid};

use ring_words::Orders;
use std::alloc::Global;
use vchan_io::Memory;
use vchan_rule::{IdleSeat, Page};

/// The two seats of a page, whose ends have done nothing.
#[derive(Drop)]
pub(crate) struct PageSeats {
    pub(crate) server: IdleSeat,
    pub(crate) client: IdleSeat,
}

/// Makes `count` pages from near to far, whose indices begin at `start`, with the seats of each. Returns
/// `Memory` if memory runs out.
pub(crate) fn lay(
    alloc: Global,
    count: usize,
    orders: Orders,
    start: u32,
) -> Result<(Vec<Page>, Vec<PageSeats>), Memory>
    ensures laid { IfOk result (λ laid. AreLaid (record { orders = orders; start = start }) laid.0.items laid.1.items) }
    ensures count { IfOk result (λ laid. length laid.0.items ≡ count) }
{
    let mut pages = Vec::with_capacity(alloc, count)?;
    let mut seats = Vec::with_capacity(alloc, count)?;
    for _page in 0..count {
        let (page, server, client) = Page::open(alloc, orders, start)?;
        pages.push(page)?;
        seats.push(PageSeats { server, client })?;
    }
    Ok((pages, seats))
}
