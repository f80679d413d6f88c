//! A page that two threads borrow.
ghost use Rattle.std.specs.Prelude.{◌≡◌, ◌<◌, IfOk, vec_len};
ghost use Rattle.ring_words.specs.declared.page.Role.TheVariants.{Server, Client};
ghost use Rattle.vchan_lifecycle.specs.Ended.{IsEndOf};
ghost use Rattle.ring_example.specs.Sides.{HasPassed, HasReceived};

use crate::sides::{Received, read_and_retire, write_and_retire};
use ring_words::Orders;
use std::alloc::Global;
use std::sync::Wait;
use std::thread::{Threads, join};
use std::time::Clock;
use vchan_io::Memory;
use vchan_rule::{Page, Retired, Settled};

/// Passes bytes through a new page: what the server read first of them, and what stands of the page.
pub fn pass<R: Threads + Wait + Clock + Sync>(
    rt: &R,
    alloc: Global,
    orders: Orders,
    bytes: &[u8],
) -> Result<(Vec<u8>, Settled), Memory>
    ensures { IfOk result (λ passed. HasPassed passed.0.items passed.1) }
{
    let buf = vec![in alloc; 0u8; 64]?;
    let (page, server, client) = Page::open(alloc, orders, 0)?;
    let (client, received) = join(
        rt,
        || -> Retired
            requires { client ≡ record { page = page; role = Client } }
            ensures { IsEndOf page.table Client result }
        { write_and_retire(rt, page.attach(client), bytes) },
        || -> Received
            requires { (server ≡ record { page = page; role = Server }) × (0 < vec_len buf) }
            ensures { HasReceived page result }
        { read_and_retire(rt, page.attach(server), buf) },
    );
    let Received { end: server, bytes } = received;
    let settled = page.finish(server, client);
    settled.promise();
    Ok((bytes, settled))
}
