//! The server.
ghost use Rattle.std.specs.Prelude.{◌≡◌, ℕ, List, IsSome, IfOk};
ghost use Rattle.service_gate.specs.ServiceResult.{service as service_of};
ghost use Rattle.service_gate.specs.Owing.{builtin_owes};
ghost use Rattle.task_duties.specs.Agent.Sessions.{IsService};
ghost use Rattle.vchan_persist.specs.Clients.{AreServable, IsServable};
ghost use Rattle.vchan_persist.specs.Epochs.{AreEpochs};
ghost use Rattle.vchan_persist.specs.Settling.{ComesTo};

use crate::client::Client;
use crate::deal::deal;
use crate::epoch::EpochDone;
use crate::settle::{Epoch, settle};
use ring_words::Orders;
use service_gate::{Builtin, OpenGate};
use std::alloc::Global;
use std::sync::Wait;
use std::thread::Threads;
use task_pool::run_pool;
use vchan_io::Memory;
use vchan_rule::Page;

/// How many workers turn the two sides of an epoch.
const WORKERS: u32 = 2;

/// Serves clients one after another by the built-in service of this name, and returns one epoch for
/// each, in order.
///
/// Each epoch has a new page, whose indices begin at `start`; its client and its server are two
/// tasks of a pool with two workers. A client that calls gets the answer of the service to its
/// input. The end of a hostile client is given up to it: it makes its stores and retires.
///
/// There are at most 4,096 clients, and their numbers are in range.
///
/// # Errors
///
/// `Memory` if memory runs out; no other.
pub fn serve_clients<R: Threads + Wait + Sync>(
    rt: &R,
    alloc: Global,
    name: &[u8],
    orders: Orders,
    start: u32,
    clients: Vec<Client>,
) -> Result<Vec<EpochDone>, Memory>
    requires named { (input : List ℕ) → IsSome (service_of name.now input) }
    requires servable { AreServable clients.items }
    ensures { IfOk result (λ dones. AreEpochs name.now (record { orders = orders; start = start }) 1 clients.items dones.items) }
{
    let Some(service) = Builtin::named(name) else {
        unreachable!()
    };
    let mut dones = Vec::with_capacity(alloc, clients.len())?;
    let mut number = 1;
    for client in clients {
        let Epoch { result, settled } = serve_client(rt, alloc, service, orders, start, client)?;
        dones.push(EpochDone {
            number,
            result,
            settled,
        })?;
        number += 1;
    }
    Ok(dones)
}

/// Serves one client, and returns its epoch.
fn serve_client<R: Threads + Wait + Sync>(
    rt: &R,
    alloc: Global,
    service: Builtin,
    orders: Orders,
    start: u32,
    client: Client,
) -> Result<Epoch, Memory>
    requires servable { IsServable client }
    requires named { (name : List ℕ) × IsService name (builtin_owes service) }
    ensures { IfOk result (λ e. ComesTo (record { orders = orders; start = start }) client service e.result e.settled) }
{
    let (page, server, seat) = Page::open(alloc, orders, start)?;
    let tasks = deal(alloc, &page, orders, server, seat, service, client)?;
    let dones = run_pool(rt, alloc, tasks, WORKERS, &OpenGate)?;
    settle(page, dones)
}
