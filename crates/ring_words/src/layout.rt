//! The places of the words of a page in a list.
ghost use Rattle.std.specs.Prelude.{◌≡◌, ◌<◌, ◌↔◌, IsTrue};
ghost use Rattle.ring_words.specs.Page.{Has, index_of, word_count};

use crate::order::Orders;
use crate::page::{Ring, WordName};

/// How many words come before the rings.
const HEADER: usize = 14;

/// The numbers of the words of a page: first the header, then the left ring, then the right ring. Each
/// byte of a ring is one word.
#[derive(Clone, Copy, Debug, PartialEq, Eq)]
pub struct Layout {
    /// The orders of the page's rings.
    pub orders: Orders,
}

impl Layout {
    /// Returns the layout of a page whose rings have these orders.
    pub fn new(orders: Orders) -> Layout
        ensures { result.orders ≡ orders }
    {
        Layout { orders }
    }

    /// Returns how many words the page has: 14 and one for each byte of both rings.
    pub fn count(&self) -> usize
        ensures { result ≡ word_count self.now.orders }
    {
        HEADER + self.orders.left.size() as usize + self.orders.right.size() as usize
    }

    /// Returns whether the page has that word: a ring's byte must lie in its ring. It tests what
    /// [`Layout::word`] requires.
    pub fn has(&self, name: WordName) -> bool
        ensures { IsTrue result ↔ Has self.now.orders name }
    {
        match name {
            WordName::RingByte { ring, at } => at < self.orders.order_of(ring).size(),
            _ => true,
        }
    }

    /// Returns the number of a word, which is below [`Layout::count`].
    #[inline(always)]
    pub fn word(&self, name: WordName) -> usize
        requires { Has self.now.orders name }
        ensures number { result ≡ index_of self.now.orders name }
        ensures within { result < word_count self.now.orders }
    {
        match name {
            WordName::LeftCons => 0,
            WordName::LeftProd => 1,
            WordName::RightCons => 2,
            WordName::RightProd => 3,
            WordName::LeftOrder => 4,
            WordName::RightOrder => 5,
            WordName::CliLive => 6,
            WordName::SrvLive => 7,
            WordName::CliNotify => 8,
            WordName::SrvNotify => 9,
            WordName::SrvPending => 10,
            WordName::CliPending => 11,
            WordName::SrvGone => 12,
            WordName::CliGone => 13,
            WordName::RingByte {
                ring: Ring::Left,
                at,
            } => HEADER + at as usize,
            WordName::RingByte {
                ring: Ring::Right,
                at,
            } => { HEADER + self.orders.left.size() as usize + at as usize }
        }
    }
}
