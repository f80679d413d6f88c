//! The words of a page on which nothing has happened yet.
ghost use Rattle.std.specs.Prelude.{◌≡◌, ◌≢◌, IfOk};
ghost use Rattle.vchan_protocol.specs.History.Page.{start_words as start_words_of};
ghost use Rattle.vchan_protocol.specs.declared.call.EndState.{EndState};

use ring_words::{Layout, Orders, Words};
use std::alloc::Global;
use vchan_io::Memory;
use vchan_protocol::EndState;

/// Makes the words of a page on which nothing has happened yet: all indices are `start`, the order words
/// hold `said` (the left ring's first), and the client is in this state, fresh or open.
///
/// # Errors
///
/// Returns [`Memory`] if memory runs out, and no other error.
pub fn start_words(
    alloc: Global,
    orders: Orders,
    start: u32,
    said: (u16, u16),
    state: EndState,
) -> Result<Words, Memory>
    requires { state ≢ EndState.Shut }
    ensures orders { IfOk result (λ words. words.orders ≡ orders) }
    ensures list { IfOk result (λ words. words.list ≡ start_words_of orders start said state) }
{
    let index = u64::from(start);
    let live = match state {
        EndState::Fresh => 2,
        EndState::Open => 1,
        EndState::Shut => 0,
    };
    let head = [
        index,
        index,
        index,
        index,
        u64::from(said.0),
        u64::from(said.1),
        live,
        1,
        1,
        1,
        0,
        0,
        0,
        0,
    ];
    let mut list = Vec::with_capacity(alloc, Layout::new(orders).count())?;
    list.extend_from_slice(&head)?;
    list.resize(Layout::new(orders).count(), 0)?;
    Ok(Words::of(orders, list))
}
