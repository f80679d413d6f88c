//! A run of relays.
ghost use Rattle.std.specs.Prelude.{◌≡◌, ◌≤◌, ◌<◌, ◌+◌, ◌^◌, IfOk, vec_len};

use crate::deal::deal;
use crate::lay::lay;
use crate::relay::Joint;
use crate::settle::settle;
use qrexec_frame::Bytes;
use ring_words::Orders;
use service_gate::OpenGate;
use std::alloc::Global;
use std::marker::Model;
use std::sync::Wait;
use std::thread::Threads;
use task_pool::run_pool;
use vchan_io::Memory;
use vchan_rule::Settled;

/// What came through a row of relays.
#[derive(Drop)]
pub struct Relayed {
    /// What the last reader got.
    pub got: Bytes,
    /// The pages, from near to far.
    pub pages: Vec<Settled>,
    /// The relays between them, from near to far: each joined a page and the next one.
    pub joints: Vec<Joint>,
}

impl Model for Relayed {
    ghost use Rattle.vchan_relay.specs.Runs.{RelayedPages};

    ghost Value = { RelayedPages };

    ghost view = { λ r. record { got = r.got; pages = r.pages.items; joints = r.joints.items } };
}

ghost use Rattle.vchan_relay.specs.Runs.{HasRelayed};

/// Sends all bytes through `hops` relays, one after the other. Returns what the reader after the last of
/// them got, with what holds of each page.
///
/// There is one page more than there are relays; the pages' indices begin at `start`. The writer is the
/// client of the first page, each relay is the server of one page and the client of the next, and the reader
/// is the server of the last. All bytes go by left rings, and each relay has the room of one. All of these
/// are tasks of a pool of `workers` workers.
///
/// # Errors
///
/// Returns `Memory` if memory runs out. All memory is taken before the first byte is sent, except for the
/// list of the pages.
pub fn relay_run<R: Threads + Wait + Sync>(
    rt: &R,
    alloc: Global,
    hops: u32,
    workers: u32,
    orders: Orders,
    start: u32,
    bytes: Vec<u8>,
) -> Result<Relayed, Memory>
    requires hops { (1 ≤ hops) × (hops ≤ 16) }
    requires workers { (1 ≤ workers) × (workers ≤ 16) }
    requires few { vec_len bytes < 2 ^ 31 }
    ensures { IfOk result (HasRelayed hops (record { orders = orders; start = start }) bytes.items) }
{
    let (pages, seats) = lay(alloc, hops as usize + 1, orders, start)?;
    let tasks = deal(alloc, pages.as_slice(), seats, orders.left.size(), bytes)?;
    let dones = run_pool(rt, alloc, tasks, workers, &OpenGate)?;
    settle(alloc, pages, dones)
}
