//! What a ring can hold.
ghost use Rattle.std.specs.Prelude.{◌≡◌, ◌≤◌, ◌↔◌, IsTrue};
ghost use Rattle.ring_words.specs.Rings.{size};
ghost use Rattle.vchan_protocol.specs.Table.Ends.{write_size, read_size};
ghost use Rattle.vchan_protocol.specs.History.Core.{standing_of};

use ring_words::{Order, Role};
use vchan_rule::End;

/// Returns whether a ring of this order can hold `len` bytes at once.
pub fn fits_ring(len: u32, order: Order) -> bool
    ensures { IsTrue result ↔ (len ≤ size order) }
{
    len <= order.size()
}

/// Returns how many bytes the ring that an end writes can hold.
pub(crate) fn written_size(end: &End<'_>) -> u32
    ensures { result ≡ write_size (standing_of end.now.side) }
{
    let orders = end.orders();
    match end.role() {
        Role::Server => orders.right.size(),
        Role::Client => orders.left.size(),
    }
}

/// Returns how many bytes the ring that an end reads can hold.
pub(crate) fn read_size(end: &End<'_>) -> u32
    ensures { result ≡ read_size (standing_of end.now.side) }
{
    let orders = end.orders();
    match end.role() {
        Role::Server => orders.left.size(),
        Role::Client => orders.right.size(),
    }
}
