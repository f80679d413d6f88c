//! Bytes that go through channels: what `pipe` and `relay` do with their input.
ghost use Rattle.std.specs.Prelude.{◌≡◌, ◌≤◌, ◌+◌, ◌++◌, ◌∷◌, [], None, IfOk, OnOk, codes, decimal, length, vec_len};
ghost use Rattle.ring_words.specs.Rings.{number_of};
ghost use Rattle.qrexec_frame.specs.Lines.{shown_bytes};
ghost use Rattle.run_report.specs.Lines.{spaced};
ghost use Rattle.vchan_top.specs.declared.command.Command.TheVariants.{Pipe, Relay};
ghost use Rattle.vchan_top.specs.Prints.{Prints};
ghost use Rattle.vchan_top.specs.Relays.{counts_line, even_lines};
ghost use Rattle.vchan_top.specs.Top.{greatest_input};

use ring_words::{Orders, check_orders};
use run_report::{push_bytes, push_number};
use std::alloc::{AllocError, Global};
use std::sync::Wait;
use std::thread::Threads;
use std::time::Clock;
use vchan_block::pipe;
use vchan_io::Memory;
use vchan_relay::{Relayed, relay_run};
use vchan_rule::Settled;

/// Passes the input through the left ring of one page, whose indices begin at 0. Returns what came out, which
/// is the input, and that page. Returns `Memory` if memory runs out.
pub(crate) fn pipe_input<R: Threads + Wait + Clock + Sync>(
    rt: &R,
    alloc: Global,
    orders: Orders,
    input: Vec<u8>,
) -> Result<(Vec<u8>, Vec<Settled>), Memory>
    requires { length input.items ≤ greatest_input }
    ensures { IfOk result (λ done. Prints (Pipe orders) input.items done.0.items None done.1.items) }
{
    let mut settled = Vec::with_capacity(alloc, 1)?;
    let (bytes, page) = pipe(rt, alloc, orders, 0, input)?;
    settled.push_reserved(page);
    Ok((bytes, settled))
}

/// Passes the input through `hops` relays by `workers` workers, on pages whose indices begin at 0. Returns
/// the text, with a line for each page and one for what came out, which is the input; and these pages.
/// Returns `Memory` if memory runs out.
pub(crate) fn relay_input<R: Threads + Wait + Sync>(
    rt: &R,
    alloc: Global,
    hops: u32,
    workers: u32,
    input: Vec<u8>,
) -> Result<(Vec<u8>, Vec<Settled>), Memory>
    requires hops { (1 ≤ hops) × (hops ≤ 16) }
    requires workers { (1 ≤ workers) × (workers ≤ 16) }
    requires few { length input.items ≤ greatest_input }
    ensures { IfOk result (λ done. Prints (Relay hops workers) input.items done.0.items None done.1.items) }
{
    let Relayed { got, pages, .. } = relay_run(rt, alloc, hops, workers, small_orders(), 0, input)?;
    let text = relays_text(alloc, hops as usize + 1, got.slice())?;
    Ok((text, pages))
}

/// Returns the orders of the rings that lie in the shared page itself: 10 and 11.
pub(crate) fn small_orders() -> Orders
    ensures { (number_of result.left ≡ 10) × (number_of result.right ≡ 11) }
{
    match check_orders(10, 11) {
        Ok(orders) => orders,
        Err(_) => unreachable!(),
    }
}

/// Returns the lines of `pages` pages through each of which these bytes went, and the line of the bytes.
fn relays_text(alloc: Global, pages: usize, bytes: &[u8]) -> Result<Vec<u8>, AllocError>
    requires pages { pages ≤ 17 }
    requires few { length bytes.now ≤ greatest_input }
    ensures { IfOk result (λ text. text.items ≡ even_lines (length bytes.now) pages ++ (codes "bytes" ++ (spaced (shown_bytes bytes.now ∷ []) ++ 10 ∷ []))) }
{
    let mut text = Vec::with_capacity(
        alloc,
        pages * ROOM_OF_LINE + bytes.len() * 2 + ROOM_OF_LINE,
    )?;
    push_pages(&mut text, pages, bytes.len())?;
    text.extend_from_slice(b"bytes")?;
    push_bytes(&mut text, bytes)?;
    text.push(b'\n')?;
    Ok(text)
}

/// More bytes than the line of a page has. With this room a text is made in one piece of memory.
const ROOM_OF_LINE: usize = 32;

/// Appends the lines of `pages` pages through each of which `count` bytes went.
fn push_pages(out: &mut Vec<u8>, pages: usize, count: usize) -> Result<(), AllocError>
    requires { pages ≤ 17 }
    ensures { OnOk result (out.new.items ≡ out.old.items ++ even_lines count pages) }
{
    for before in 0..pages {
        push_page(out, before + 1, count)?;
    }
    Ok(())
}

/// Appends the line of a page through which `count` bytes went.
fn push_page(out: &mut Vec<u8>, number: usize, count: usize) -> Result<(), AllocError>
    ensures { OnOk result (out.new.items ≡ out.old.items ++ counts_line number count count) }
{
    out.extend_from_slice(b"page")?;
    push_number(out, number)?;
    push_number(out, count)?;
    push_number(out, count)?;
    out.push(b'\n')?;
    Ok(())
}
