//! A page's words as the bytes of its shared page, and back. The fields lie as in
//! `struct vchan_interface` of Xen's `public/io/libxenvchan.h`; the small rings lie as in
//! libxenvchan's `init.c`.
ghost use Rattle.std.specs.Prelude.{◌≡◌, ◌+◌, ◌*◌, ◌≤◌, ◌<◌, ◌++◌, ◌⊎◌, ◌↔◌, ◌∷◌, [], ℕ, length, map, slice_index, slice_range, IfErr, IfOk, IfSome, OnOk, IsErrAnd};
ghost use Rattle.ring_words.specs.Choice.{AreBadOrders};
ghost use Rattle.ring_words.specs.Image.{AreNamed, AreWithinPage, IsBadOrders, IsShown, Puts, bytes_piece, field_piece, fields, header_shown, image_of, left_order, number_from, number_piece, page_shown, right_order, ring_offset as offset_of_ring, ring_pieces, ring_shown, shown};
ghost use Rattle.ring_words.specs.Rings.{number_of, size};

use crate::choice::{self, check_orders};
use crate::layout::Layout;
use crate::order::Order;
use crate::page::{Ring, WordName};
use crate::words::Words;
use std::alloc::{AllocError, Global};

/// The size of a page, in bytes.
const PAGE_SIZE: usize = 4096;

/// The offset of a ring of order 10 in the page.
const SMALL_RING_OFFSET: usize = 1024;

/// The offset of a ring of order 11 in the page.
const LARGE_RING_OFFSET: usize = 2048;

/// The reasons why the bytes of a page give no words.
#[derive(Clone, Copy, Debug, PartialEq, Eq)]
pub enum ImageError {
    /// The two order fields aren't the orders of a page's rings.
    BadOrders {
        /// The number in the field `left_order`.
        left: u16,
        /// The number in the field `right_order`.
        right: u16,
    },
    /// Memory ran out for the words.
    Memory,
}

impl From<choice::BadOrders> for ImageError {
    ghost use Rattle.ring_words.specs.declared.image.ImageError.TheVariants.{BadOrders};

    ghost from_gives = { λ bad e. e ≡ BadOrders bad.left bad.right };

    fn from(bad: choice::BadOrders) -> ImageError {
        ImageError::BadOrders {
            left: bad.left,
            right: bad.right,
        }
    }
}

impl From<AllocError> for ImageError {
    ghost use Rattle.ring_words.specs.declared.image.ImageError.TheVariants.{Memory};

    ghost from_gives = { λ _ e. e ≡ Memory };

    fn from(_error: AllocError) -> ImageError {
        ImageError::Memory
    }
}

/// Returns the bytes of the page in memory: the low bits of each field at its offset, little-endian, and
/// the rings of order 10 and 11. The grant list, bytes 24 to 1,023, is zeros, and so is the place of a
/// ring that the page doesn't have. It takes no memory.
pub fn page_image(words: &Words) -> [u8; PAGE_SIZE]
    ensures { result ≡ image_of words.now }
{
    let mut image = [0; PAGE_SIZE];
    put_header(&mut image, words);
    put_ring(&mut image, words, Ring::Left);
    put_ring(&mut image, words, Ring::Right);
    image
}

/// Puts the fields that lie before the grant list.
fn put_header(image: &mut [u8; PAGE_SIZE], words: &Words)
    ensures { Puts (map (field_piece words.now) fields) image.old image.new }
{
    put_field(image, 0, 4, words.load(WordName::LeftCons));
    put_field(image, 4, 4, words.load(WordName::LeftProd));
    put_field(image, 8, 4, words.load(WordName::RightCons));
    put_field(image, 12, 4, words.load(WordName::RightProd));
    put_field(image, 16, 2, words.load(WordName::LeftOrder));
    put_field(image, 18, 2, words.load(WordName::RightOrder));
    put_field(image, 20, 1, words.load(WordName::CliLive));
    put_field(image, 21, 1, words.load(WordName::SrvLive));
    put_field(image, 22, 1, words.load(WordName::CliNotify));
    put_field(image, 23, 1, words.load(WordName::SrvNotify));
}

/// Puts the low bytes of a word at an offset, the lowest byte first.
fn put_field(image: &mut [u8; PAGE_SIZE], offset: usize, bytes: usize, word: u64)
    requires within { offset + bytes ≤ 4096 }
    requires of_word { bytes ≤ 8 }
    ensures { Puts (number_piece offset bytes word ∷ []) image.old image.new }
{
    image[offset..offset + bytes].copy_from_slice(&word.to_le_bytes()[..bytes]);
}

/// Puts a ring at its place, if it lies in the page.
fn put_ring(image: &mut [u8; PAGE_SIZE], words: &Words, ring: Ring)
    ensures { Puts (ring_pieces words.now ring) image.old image.new }
{
    let layout = Layout::new(words.orders());
    let order = layout.orders.order_of(ring);
    let Some(offset) = ring_offset(order) else {
        return;
    };
    let first = layout.word(WordName::RingByte { ring, at: 0 });
    put_bytes(
        image,
        offset,
        &words.list()[first..first + order.size() as usize],
    );
}

/// Puts the low byte of each word, from an offset on.
fn put_bytes(image: &mut [u8; PAGE_SIZE], offset: usize, words: &[u64])
    requires { offset + length words.now ≤ 4096 }
    ensures { Puts (bytes_piece offset words.now ∷ []) image.old image.new }
{
    for (at, word) in words.iter().enumerate() {
        image[offset + at] = (*word & 0xff) as u8;
    }
}

/// Returns the offset of a ring of that order in the page, if it lies there.
fn ring_offset(order: Order) -> Option<usize>
    ensures offset { result ≡ offset_of_ring order }
    ensures within { IfSome result (λ offset. offset + size order ≤ 4096) }
{
    match order.number() {
        10 => Some(SMALL_RING_OFFSET),
        11 => Some(LARGE_RING_OFFSET),
        _ => None,
    }
}

/// Returns the words that the bytes of a page show: its fields, and its rings of order 10 and 11. Every
/// word of a larger ring is 0, and so are the pending and the gone words. The grant list, bytes 24 to
/// 1,023, is skipped.
///
/// # Errors
///
/// Returns [`ImageError::BadOrders`], with the two order fields, if [`check_orders`] refuses them, and
/// [`ImageError::Memory`] if memory runs out.
pub fn words_of_image(alloc: Global, image: &[u8; PAGE_SIZE]) -> Result<Words, ImageError>
    ensures bad_orders { IsErrAnd result IsBadOrders
        ↔ AreBadOrders (shown image.now left_order) (shown image.now right_order) }
    ensures named { IfErr result (AreNamed (shown image.now left_order) (shown image.now right_order)) }
    ensures orders { IfOk result (λ words. (number_of words.orders.left ≡ shown image.now left_order)
        × (number_of words.orders.right ≡ shown image.now right_order)) }
    ensures words { IfOk result (λ words. words ≡ page_shown image.now words.orders) }

    // At each offset that shows something of the words, their image is the given one.
    ensures shows_again { IfOk result (λ words. (at : ℕ) → IsShown words at
        → slice_index (image_of words) at ≡ slice_index image.now at) }
    ensures round_trip { IfOk result (λ words. AreWithinPage words.orders
        → (at : ℕ) → (at < 24) ⊎ (1024 ≤ at)
        → slice_index (image_of words) at ≡ slice_index image.now at) }
{
    let orders = check_orders(order_shown(image, 16), order_shown(image, 18))?;
    let mut list = Vec::with_capacity(alloc, Layout::new(orders).count())?;
    list.extend_from_slice(&header_shown(image))?;
    extend_ring(&mut list, image, orders.left)?;
    extend_ring(&mut list, image, orders.right)?;
    Ok(Words::of(orders, list))
}

/// Returns the words before the rings.
fn header_shown(image: &[u8; PAGE_SIZE]) -> [u64; 14]
    ensures { result ≡ header_shown image.now }
{
    [
        index_shown(image, 0),
        index_shown(image, 4),
        index_shown(image, 8),
        index_shown(image, 12),
        u64::from(order_shown(image, 16)),
        u64::from(order_shown(image, 18)),
        u64::from(image[20]),
        u64::from(image[21]),
        u64::from(image[22]),
        u64::from(image[23]),
        0,
        0,
        0,
        0,
    ]
}

/// Returns the index in the field at an offset.
fn index_shown(image: &[u8; PAGE_SIZE], offset: usize) -> u64
    requires { offset + 4 ≤ 4096 }
    ensures { result ≡ number_from (slice_range image.now offset (offset + 4)) }
{
    u64::from(u32::from_le_bytes([
        image[offset],
        image[offset + 1],
        image[offset + 2],
        image[offset + 3],
    ]))
}

/// Returns the order in the field at an offset.
fn order_shown(image: &[u8; PAGE_SIZE], offset: usize) -> u16
    requires { offset + 2 ≤ 4096 }
    ensures { result ≡ number_from (slice_range image.now offset (offset + 2)) }
{
    u16::from_le_bytes([image[offset], image[offset + 1]])
}

/// Appends the words of a ring.
fn extend_ring(list: &mut Vec<u64>, image: &[u8; PAGE_SIZE], order: Order) -> Result<(), AllocError>
    ensures { OnOk result (list.new.items ≡ list.old.items ++ ring_shown image.now order) }
{
    let size = order.size() as usize;
    match ring_offset(order) {
        Some(offset) => list.extend(
            image[offset..offset + size]
                .iter()
                .map(|byte| u64::from(*byte)),
        ),
        None => list.resize(list.len() + size, 0),
    }
}
