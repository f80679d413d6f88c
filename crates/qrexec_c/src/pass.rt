//! A data channel whose bodies go elsewhere: each header as eight bytes, and the body of a data message by its count.
ghost use Rattle.std.specs.Prelude.{◌⊎◌, ◌≡◌, ◌≢◌, ◌<◌, ◌≤◌, ◌↔◌, ◌++◌, ℕ, List, [], length, take, Some, IsTrue};
ghost use Rattle.qrexec_frame.specs.declared.kind.Channel.{Channel};
ghost use Rattle.qrexec_frame.specs.declared.message.Message.{Message};
ghost use Rattle.qrexec_frame.specs.Streams.{Placed};
ghost use Rattle.qrexec_c.specs.Readers.{channel_of, IsNoReader, IsFault, Stands, ReadsFault};
ghost use Rattle.qrexec_c.specs.Passings.{AreUnder, Under, IsOther, PassesOn, PassesWhole, ReadsPart, ReadsWhole};

use crate::reader::{Reader, channel_told, faulted};
use qrexec_frame::{Kind, header_kind, u32_at};

/// A reader that is between two messages, or inside the body of a data message.
#[repr(C)]
#[derive(Clone, Copy)]
pub struct Passing {
    /// The reader. It stands at the message's first byte until the whole message has passed.
    pub reader: Reader,
    /// The number of the type in the last header.
    pub kind: u32,
    /// The length in the last header.
    pub len: u32,
    /// How many bytes of the body are still to come.
    pub left: u32,
    /// 1 inside the body of a data message, else 0.
    pub under: u32,
}

/// Takes the first eight bytes of the next message.
///
/// Returns 1 if they begin a data message, whose body is passed next. Returns 4 if they begin a message of
/// another type: nothing but the type and the length is taken then, and the whole message is for
/// [`qrexec_next`](crate::qrexec_next). Returns 0 if these are less than eight bytes; 2 if the reader holds a fault,
/// as it will at each later call; 3 if the numbers are those of no reader, or a message is under way. Nothing
/// changes at 0 and 3.
#[unsafe(no_mangle)]
pub extern "C" fn qrexec_head(passing: &mut Passing, header: &[u8]) -> u32
    ensures begun { result ≡ 1 → (channel : Channel) → channel_of passing.old.reader.channel ≡ Some channel →
        Under channel passing.new (take 8 header.now) × (passing.new.left ≡ passing.new.len) × (passing.new.reader ≡ passing.old.reader) }
    ensures other { result ≡ 4 → (channel : Channel) → channel_of passing.old.reader.channel ≡ Some channel →
        IsOther channel header.now passing.new × (passing.new.reader ≡ passing.old.reader) × (passing.new.under ≡ 0) }
    ensures fault { result ≡ 2 → passing.old.reader.fault ≡ 0 → (channel : Channel) → channel_of passing.old.reader.channel ≡ Some channel →
        IsFault channel header.now passing.old.reader passing.new.reader }
    ensures faulted { passing.old.reader.fault ≢ 0 → (passing.new ≡ passing.old) × ((result ≡ 2) ⊎ (result ≡ 3)) }
    ensures none { result ≡ 3 ↔ IsNoReader passing.old.reader ⊎ ((passing.old.reader.fault ≡ 0) × (passing.old.under ≢ 0)) }
    ensures others { result ≡ 2 → passing.new ≡ record passing.old { reader = passing.new.reader } }
    ensures refused { result ≡ 3 → passing.new ≡ passing.old }
    ensures less { result ≡ 0 → (passing.new ≡ passing.old) × (length header.now < 8) }
    ensures stream_fault { result ≡ 2 → passing.old.reader.fault ≡ 0 → (channel : Channel) → channel_of passing.old.reader.channel ≡ Some channel →
        (stream : List ℕ) (given : List (Placed Message)) → Stands channel passing.old.reader [] stream given →
        ReadsFault channel header.now passing.new.reader (stream ++ header.now) given }
{
    let Some(channel) = channel_told(passing.reader.channel) else {
        return 3;
    };
    if passing.reader.fault != 0 {
        return if passing.reader.fault <= 4 { 2 } else { 3 };
    }
    if passing.under != 0 {
        return 3;
    }
    if header.len() < 8 {
        return 0;
    }
    let kind = u32_at(header, 0);
    let len = u32_at(header, 4);
    match header_kind(channel, passing.reader.at, kind, len) {
        Err(fault) => {
            passing.reader = faulted(passing.reader.channel, fault);
            2
        }
        Ok(Kind::Stdin | Kind::Stdout | Kind::Stderr) => {
            passing.kind = kind;
            passing.len = len;
            passing.left = len;
            passing.under = 1;
            1
        }
        Ok(_) => {
            passing.kind = kind;
            passing.len = len;
            passing.left = 0;
            4
        }
    }
}

/// Returns whether a data message is under way.
fn is_under(passing: &Passing) -> bool
    ensures { IsTrue result ↔ AreUnder passing.now }
{
    passing.reader.channel == 1
        && passing.reader.fault == 0
        && passing.under == 1
        && passing.kind >= 0x190
        && passing.kind <= 0x192
        && passing.len <= 65_536
        && passing.left <= passing.len
}

/// Passes the next bytes of the body of the data message under way, of which only the count is told.
///
/// Returns 1 if the message is whole: the reader stands after it. Returns 0 if its body goes on. Returns 3 if no data
/// message is under way, and 5 if its body has fewer bytes left; nothing changes then.
#[unsafe(no_mangle)]
pub extern "C" fn qrexec_pass(passing: &mut Passing, count: u32) -> u32
    ensures none { result ≢ 3 ↔ AreUnder passing.old }
    ensures too_many { result ≡ 5 ↔ AreUnder passing.old × (passing.old.left ≤ count) × (passing.old.left ≢ count) }
    ensures refused { 3 ≤ result → passing.new ≡ passing.old }
    ensures goes_on { result ≡ 0 → (channel : Channel) (part piece : List ℕ) → Under channel passing.old part → length piece ≡ count →
        PassesOn channel (part ++ piece) passing.old passing.new }
    ensures whole { result ≡ 1 → (channel : Channel) (part piece : List ℕ) → Under channel passing.old part → length piece ≡ count →
        PassesWhole channel (part ++ piece) passing.old passing.new }

    // However the stream is cut, what has passed is what all its bytes hold.
    ensures stream_goes_on { result ≡ 0 → (channel : Channel) (part piece stream : List ℕ) (given : List (Placed Message)) →
        Under channel passing.old part → length piece ≡ count → Stands channel passing.old.reader part stream given →
        ReadsPart channel (part ++ piece) passing.new (stream ++ piece) given }
    ensures stream_whole { result ≡ 1 → (channel : Channel) (part piece stream : List ℕ) (given : List (Placed Message)) →
        Under channel passing.old part → length piece ≡ count → Stands channel passing.old.reader part stream given →
        ReadsWhole channel (part ++ piece) passing.old passing.new (stream ++ piece) given }
{
    if !is_under(passing) {
        return 3;
    }
    if passing.left < count {
        return 5;
    }
    passing.left -= count;
    if passing.left != 0 {
        return 0;
    }
    passing.under = 0;
    passing.reader.at = passing.reader.at.wrapping_add(8 + passing.len as u64);
    1
}
