//! A stream of short messages that is cut anywhere: the bytes of the message under way lie in the caller's struct.
ghost use Rattle.std.specs.Prelude.{◌⊎◌, ◌≡◌, ◌≢◌, ◌≤◌, ◌+◌, ◌++◌, ◌<◌, ◌↔◌, min, ℕ, List, length, take, Some};
ghost use Rattle.qrexec_frame.specs.declared.kind.Channel.{Channel};
ghost use Rattle.qrexec_frame.specs.declared.message.Message.{Message};
ghost use Rattle.qrexec_frame.specs.Streams.{Placed};
ghost use Rattle.qrexec_c.specs.Readers.{channel_of, IsNext, IsFault, Stands, ReadsNext, ReadsFault};
ghost use Rattle.qrexec_frame.specs.Grammar.{number_at};
ghost use Rattle.qrexec_c.specs.Gathers.{came, with_piece, until_of, IsNoGather, GoesOn, IsLong};

use crate::found::{Found, tell};
use crate::reader::{Reader, channel_told, faulted};
use qrexec_frame::{Body, u32_at};

/// The length of a header, in bytes.
const HEADER: usize = 8;

/// The length of the longest body that is gathered, in bytes: that of `MSG_TRIGGER_SERVICE`.
const MOST_BODY: u32 = 128;

/// The length of the longest message that is gathered, in bytes.
const MOST: usize = 136;

/// A reader, and the bytes of the message under way.
#[repr(C)]
#[derive(Clone, Copy)]
pub struct Gather {
    /// The reader. It stands at the message's first byte until the whole message has come.
    pub reader: Reader,
    /// How many bytes of the message have come.
    pub got: u32,
    /// How many bytes of the last piece were taken.
    pub taken: u32,
    /// The message's bytes.
    pub bytes: [u8; 136],
}

/// Puts a piece after the first `got` bytes.
pub(crate) fn fill(bytes: &mut [u8], got: usize, piece: &[u8])
    requires { got + length piece.now ≤ length bytes.old }
    ensures { take (got + length piece.now) bytes.new ≡ take got bytes.old ++ piece.now }
{
    bytes[got..got + piece.len()].copy_from_slice(piece);
}

/// Returns up to which length the bytes that have come, and a piece after them, are known to go: the length of a
/// header, or that of the whole message if its header has come and it is one that is gathered.
#[inline(always)]
fn until(bytes: &[u8], got: usize, piece: &[u8]) -> usize
    requires room { 8 ≤ length bytes.now }
    requires within { got ≤ length bytes.now }
    ensures until { result ≡ until_of (take got bytes.now ++ piece.now) }
    ensures most { (8 ≤ result) × (result ≤ 136) }
{
    if got + piece.len() < HEADER {
        return HEADER;
    }
    let len = len_told(bytes, got, piece);
    if len > MOST_BODY {
        HEADER
    } else {
        HEADER + len as usize
    }
}

/// Returns the length in a header, of which the first bytes have come and the others lie in a piece.
#[inline(always)]
fn len_told(bytes: &[u8], got: usize, piece: &[u8]) -> u32
    requires room { 8 ≤ length bytes.now }
    requires within { got ≤ length bytes.now }
    requires there { 8 ≤ got + length piece.now }
    ensures { result ≡ number_at 4 (take got bytes.now ++ piece.now) }
{
    if got == 0 {
        return u32_at(piece, 4);
    }
    if got >= HEADER {
        return u32_at(bytes, 4);
    }
    let mut header = [0; HEADER];
    fill(&mut header, 0, &bytes[..got]);
    fill(&mut header, got, &piece[..HEADER - got]);
    u32_at(&header, 4)
}

/// Takes bytes of a piece of the stream, up to the end of the message, and tells how many.
///
/// Returns 1 if `found` tells the message, whose bytes lie in the struct until the next call; the rest of the piece
/// is for the next call. Returns 0 if the whole piece was taken and the message goes on. Returns 2 if the reader
/// holds a fault, as it will at each later call; 3, with nothing changed, if the numbers are those of no reader, or
/// more bytes have come than the message has. Returns 4 if the message has more than 136 bytes: its header lies
/// in the struct then, and its whole bytes are for [`qrexec_next`](crate::qrexec_next).
#[unsafe(no_mangle)]
pub extern "C" fn qrexec_gather(gather: &mut Gather, piece: &[u8], found: &mut Found) -> u32
    ensures numbers { result ≤ 4 }
    ensures none { result ≡ 3 → (gather.new ≡ gather.old) × IsNoGather gather.old }
    ensures taken { IsNoGather gather.old → result ≡ 3 }
    ensures less { result ≡ 0 → (channel : Channel) → channel_of gather.old.reader.channel ≡ Some channel →
        GoesOn channel gather.old piece.now gather.new × (gather.new.taken ≡ length piece.now) }
    ensures long { result ≡ 4 → (channel : Channel) → channel_of gather.old.reader.channel ≡ Some channel →
        GoesOn channel gather.old piece.now gather.new × IsLong (came gather.new) }
    ensures next { result ≡ 1 → (channel : Channel) → channel_of gather.old.reader.channel ≡ Some channel →
        IsNext channel (with_piece gather.old piece.now gather.new.taken) gather.old.reader gather.new.reader found.new × (gather.new.got ≡ 0) }
    ensures bytes { result ≡ 1 → take (gather.old.got + gather.new.taken) gather.new.bytes ≡ with_piece gather.old piece.now gather.new.taken }
    ensures fault { result ≡ 2 → gather.old.reader.fault ≡ 0 → (channel : Channel) → channel_of gather.old.reader.channel ≡ Some channel →
        IsFault channel (with_piece gather.old piece.now gather.new.taken) gather.old.reader gather.new.reader }
    ensures faulted { gather.old.reader.fault ≢ 0 → (gather.new ≡ gather.old) × ((result ≡ 2) ⊎ (result ≡ 3)) }

    // However the stream is cut, what is told is what all its bytes hold.
    ensures stream_less { (result ≡ 0) ⊎ (result ≡ 4) → (channel : Channel) → channel_of gather.old.reader.channel ≡ Some channel →
        (stream : List ℕ) (given : List (Placed Message)) → Stands channel gather.old.reader (came gather.old) stream given →
        Stands channel gather.new.reader (came gather.new) (stream ++ take gather.new.taken piece.now) given }
    ensures stream_next { result ≡ 1 → (channel : Channel) → channel_of gather.old.reader.channel ≡ Some channel →
        (stream : List ℕ) (given : List (Placed Message)) → Stands channel gather.old.reader (came gather.old) stream given →
        ReadsNext channel (with_piece gather.old piece.now gather.new.taken) gather.old.reader gather.new.reader found.new (stream ++ take gather.new.taken piece.now) given }
    ensures stream_fault { result ≡ 2 → gather.old.reader.fault ≡ 0 → (channel : Channel) → channel_of gather.old.reader.channel ≡ Some channel →
        (stream : List ℕ) (given : List (Placed Message)) → Stands channel gather.old.reader (came gather.old) stream given →
        ReadsFault channel (with_piece gather.old piece.now gather.new.taken) gather.new.reader (stream ++ take gather.new.taken piece.now) given }
{
    let Some(channel) = channel_told(gather.reader.channel) else {
        return 3;
    };
    if gather.reader.fault != 0 {
        return if gather.reader.fault <= 4 { 2 } else { 3 };
    }
    let got = gather.got as usize;
    if got > MOST {
        return 3;
    }
    let until = until(&gather.bytes, got, piece);
    if until < got {
        return 3;
    }
    let rest = until - got;
    let count = if piece.len() < rest {
        piece.len()
    } else {
        rest
    };
    fill(&mut gather.bytes, got, &piece[..count]);
    let whole = got + count;
    gather.got = whole as u32;
    gather.taken = count as u32;
    match Body::at_front(channel, gather.reader.at, &gather.bytes[..whole]) {
        Ok(None) => { if count == piece.len() { 0 } else { 4 } }
        Ok(Some(body)) => {
            let len = body.bytes.len();
            *found = tell(body.kind, &gather.bytes[..whole], len);
            gather.reader.at = gather.reader.at.wrapping_add(8 + len as u64);
            gather.got = 0;
            1
        }
        Err(fault) => {
            gather.reader = faulted(gather.reader.channel, fault);
            2
        }
    }
}
