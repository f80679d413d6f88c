//! Bytes that go from one thread to another through a page, in the two ways of docs/LIBRARY.md: the
//! threads borrow the page, or their ends hold it.
#![tactic(auto)]

mod borrowed;
mod held;
mod sides;

use anyhow::{Result, bail};
use ring_words::check_orders;
use std::str;

fn main(rt: HostRuntime) -> Result<()> {
    let Ok(orders) = check_orders(10, 11) else {
        bail!("no page has these orders");
    };
    let (bytes, _) = borrowed::pass(&rt, rt.alloc(), orders, b"hello")?;
    println!(rt; "borrowed: {}", str::from_utf8(bytes.as_slice())?)?;
    let (bytes, _) = held::pass(&rt, rt.alloc(), orders, b"hello")?;
    println!(rt; "held: {}", str::from_utf8(bytes.as_slice())?)?;
    Ok(())
}
