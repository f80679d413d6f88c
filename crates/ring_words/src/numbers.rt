//! What the two indices of a ring tell. Indices count bytes modulo 2^32.
ghost use Rattle.std.specs.Prelude.{◌≡◌, ◌<◌, ◌≤◌};
ghost use Rattle.ring_words.specs.Rings.{place as place_of, ready as ready_of, room as room_of, size};

use crate::order::Order;

/// Returns how many bytes wait to be read in a ring whose writer wrote up to `prod` and whose reader read
/// up to `cons`. The result is 0 if the indices lie further apart than the ring's size, as in `io.c`.
pub fn ready(prod: u32, cons: u32, order: Order) -> u32
    ensures ready { result ≡ ready_of prod cons order }
    ensures within { result ≤ size order }
{
    let diff = prod.wrapping_sub(cons);
    if diff <= order.size() { diff } else { 0 }
}

/// Returns how many bytes may be written into a ring whose writer wrote up to `prod` and whose reader read
/// up to `cons`. The result is 0 if the indices lie further apart than the ring's size, as in `io.c`.
pub fn room(prod: u32, cons: u32, order: Order) -> u32
    ensures room { result ≡ room_of prod cons order }
    ensures within { result ≤ size order }
{
    let diff = prod.wrapping_sub(cons);
    let size = order.size();
    if diff <= size { size - diff } else { 0 }
}

/// Returns the place in its ring, counted from 0, of the byte at an index.
pub fn place(index: u32, order: Order) -> u32
    ensures place { result ≡ place_of index order }
    ensures within { result < size order }
{
    index % order.size()
}
