//! A page's words as a list in memory.
ghost use Rattle.std.specs.Prelude.{◌≡◌, ◌<◌, ◌≤◌, ◌+◌, ◌^◌, length, slice_index, slice_set, vec_len};
ghost use Rattle.ring_words.specs.Page.{Has, index_of, order_of, word_count};
ghost use Rattle.ring_words.specs.Rings.{size};
ghost use Rattle.ring_words.specs.Overwritten.{overwritten, low_bytes};
ghost use Rattle.ring_words.specs.declared.page.WordName.TheVariants.{RingByte};

use crate::layout::Layout;
use crate::order::Orders;
use crate::page::{Ring, WordName};
use std::marker::Model;

/// The words of a page whose rings have these orders. Their number is always [`Layout::count`].
#[derive(Debug, Drop)]
pub struct Words {
    orders: Orders,
    list: Vec<u64>,
}

impl Model for Words {
    ghost use Rattle.std.specs.Prelude.{◌≡◌, vec_len};
    ghost use Rattle.ring_words.specs.Page.{word_count};
    ghost use Rattle.ring_words.specs.PageWords.{PageWords};

    ghost Value = { PageWords };

    ghost view = { λ words. record { orders = words.orders; list = words.list.items } };

    ghost invariant = { λ words. vec_len words.list ≡ word_count words.orders };
}

impl Words {
    /// Makes a page of these words, whose number must be [`Layout::count`]. It keeps the given list and
    /// takes no memory.
    pub fn of(orders: Orders, list: Vec<u64>) -> Words
        requires { vec_len list ≡ word_count orders }
        ensures orders { result.orders ≡ orders }
        ensures list { result.list ≡ list.items }
    {
        Words { orders, list }
    }

    /// Returns the orders of the page's rings.
    pub fn orders(&self) -> Orders
        ensures orders { result ≡ self.now.orders }
        ensures count { length self.now.list ≡ word_count self.now.orders }
    {
        self.orders
    }

    /// Returns all words, each at the place that [`Layout::word`] gives.
    pub fn list(&self) -> &[u64]
        ensures list { result.now ≡ self.now.list }
        ensures count { length result.now ≡ word_count self.now.orders }
    {
        self.list.as_slice()
    }

    /// Returns what a word holds. The page must have the word, which [`Layout::has`] tests.
    #[inline(always)]
    pub fn load(&self, name: WordName) -> u64
        requires { Has self.now.orders name }
        ensures value { result ≡ slice_index self.now.list (index_of self.now.orders name) }
        ensures within { result < 2 ^ 64 }
        ensures count { length self.now.list ≡ word_count self.now.orders }
    {
        self.list[Layout::new(self.orders).word(name)]
    }

    /// Stores a value in a word. The page must have the word, which [`Layout::has`] tests.
    #[inline(always)]
    pub fn store(&mut self, name: WordName, value: u64)
        requires { Has self.old.orders name }
        ensures words { self.new ≡ record self.old { list = slice_set self.old.list (index_of self.old.orders name) value } }
        ensures count { length self.new.list ≡ word_count self.new.orders }
    {
        let index = Layout::new(self.orders).word(name);
        self.list[index] = value;
    }

    /// Stores bytes one after another into a ring, the first at the place `at`. The last must lie before
    /// the ring's end. The effect is that of [`Words::store`] for each byte.
    pub fn store_bytes(&mut self, ring: Ring, at: u32, bytes: &[u8])
        requires first { at < size (order_of self.old.orders ring) }
        requires last { at + length bytes.now ≤ size (order_of self.old.orders ring) }
        ensures words { self.new ≡ record self.old { list = overwritten self.old.list (index_of self.old.orders (RingByte ring at)) bytes.now } }
        ensures count { length self.new.list ≡ word_count self.new.orders }
    {
        let first = Layout::new(self.orders).word(WordName::RingByte { ring, at });
        for i in 0..bytes.len() {
            self.list[first + i] = u64::from(bytes[i]);
        }
    }

    /// Loads bytes one after another from a ring until `buf` is full, the first at the place `at`. The last
    /// must lie before the ring's end. Each byte is the low 8 bits of its word.
    pub fn load_bytes(&self, ring: Ring, at: u32, buf: &mut [u8])
        requires first { at < size (order_of self.now.orders ring) }
        requires last { at + length buf.old ≤ size (order_of self.now.orders ring) }
        ensures { buf.new ≡ low_bytes self.now.list (index_of self.now.orders (RingByte ring at)) (length buf.old) }
    {
        let first = Layout::new(self.orders).word(WordName::RingByte { ring, at });
        for i in 0..buf.len() {
            buf[i] = (self.list[first + i] % 256) as u8;
        }
    }
}
