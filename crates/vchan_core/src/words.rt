//! Which words and rings belong to which role, and the bits that a load takes.
ghost use Rattle.std.specs.Prelude.{◌≡◌, ◌<◌, ◌^◌, ◌≤◌};
ghost use Rattle.vchan_protocol.specs.Table.Ends.{prod_word as prod_word_of, cons_word as cons_word_of, written_ring as written_ring_of, read_ring as read_ring_of, ask_word as ask_word_of, notify_word as notify_word_of, peer_live as peer_live_of, own_live as own_live_of, own_pending as own_pending_of, peer_pending as peer_pending_of, own_gone as own_gone_of, peer_gone as peer_gone_of, mask as mask_of, low8 as low8_of, low16 as low16_of, low32 as low32_of};

use ring_words::{Ring, Role, WordName};
use vchan_protocol::Bit;

/// Returns the word that holds the producer index of a ring.
pub fn prod_word(ring: Ring) -> WordName
    ensures { result ≡ prod_word_of ring }
{
    match ring {
        Ring::Left => WordName::LeftProd,
        Ring::Right => WordName::RightProd,
    }
}

/// Returns the word that holds the consumer index of a ring.
pub fn cons_word(ring: Ring) -> WordName
    ensures { result ≡ cons_word_of ring }
{
    match ring {
        Ring::Left => WordName::LeftCons,
        Ring::Right => WordName::RightCons,
    }
}

/// Returns the ring that an end writes.
#[inline(always)]
pub fn written_ring(role: Role) -> Ring
    ensures { result ≡ written_ring_of role }
{
    match role {
        Role::Server => Ring::Right,
        Role::Client => Ring::Left,
    }
}

/// Returns the ring that an end reads.
#[inline(always)]
pub fn read_ring(role: Role) -> Ring
    ensures { result ≡ read_ring_of role }
{
    match role {
        Role::Server => Ring::Left,
        Role::Client => Ring::Right,
    }
}

/// Returns the word in which an end asks for signals.
#[inline(always)]
pub fn ask_word(role: Role) -> WordName
    ensures { result ≡ ask_word_of role }
{
    match role {
        Role::Server => WordName::CliNotify,
        Role::Client => WordName::SrvNotify,
    }
}

/// Returns the word in which an end's peer has asked for signals.
#[inline(always)]
pub fn notify_word(role: Role) -> WordName
    ensures { result ≡ notify_word_of role }
{
    match role {
        Role::Server => WordName::SrvNotify,
        Role::Client => WordName::CliNotify,
    }
}

/// Returns an end's own live byte.
#[inline(always)]
pub fn own_live(role: Role) -> WordName
    ensures { result ≡ own_live_of role }
{
    match role {
        Role::Server => WordName::SrvLive,
        Role::Client => WordName::CliLive,
    }
}

/// Returns the live byte of an end's peer.
#[inline(always)]
pub fn peer_live(role: Role) -> WordName
    ensures { result ≡ peer_live_of role }
{
    match role {
        Role::Server => WordName::CliLive,
        Role::Client => WordName::SrvLive,
    }
}

/// Returns the word that tells an end that it is signalled.
#[inline(always)]
pub fn own_pending(role: Role) -> WordName
    ensures { result ≡ own_pending_of role }
{
    match role {
        Role::Server => WordName::SrvPending,
        Role::Client => WordName::CliPending,
    }
}

/// Returns the word by which an end signals its peer.
#[inline(always)]
pub fn peer_pending(role: Role) -> WordName
    ensures { result ≡ peer_pending_of role }
{
    match role {
        Role::Server => WordName::CliPending,
        Role::Client => WordName::SrvPending,
    }
}

/// Returns the word in which an end stores that it has retired.
#[inline(always)]
pub fn own_gone(role: Role) -> WordName
    ensures { result ≡ own_gone_of role }
{
    match role {
        Role::Server => WordName::SrvGone,
        Role::Client => WordName::CliGone,
    }
}

/// Returns the word in which an end's peer stores that it has retired.
#[inline(always)]
pub fn peer_gone(role: Role) -> WordName
    ensures { result ≡ peer_gone_of role }
{
    match role {
        Role::Server => WordName::CliGone,
        Role::Client => WordName::SrvGone,
    }
}

/// Returns the bit of a notify byte.
#[inline(always)]
pub fn mask(bit: Bit) -> u64
    ensures value { result ≡ mask_of bit }
    ensures within { result ≤ 2 }
{
    match bit {
        Bit::Written => 1,
        Bit::Consumed => 2,
    }
}

/// Returns the bits that a load of a live or notify byte takes.
pub(crate) fn low8(value: u64) -> u64
    ensures { result ≡ low8_of value }
{
    value % 256
}

/// Returns the bits that a load of an order takes.
pub(crate) fn low16(value: u64) -> u16
    ensures { result ≡ low16_of value }
{
    (value % 65536) as u16
}

/// Returns the bits that a load of an index takes.
pub(crate) fn low32(value: u64) -> u32
    ensures { result ≡ low32_of value }
{
    (value % 4294967296) as u32
}
