//! A reader of the messages that lie in the caller's bytes.
ghost use Rattle.std.specs.Prelude.{◌⊎◌, ◌≡◌, ◌≢◌, ◌↔◌, ◌≤◌, ℕ, List, length, Some, None, true, false};
ghost use Rattle.qrexec_frame.specs.declared.kind.Channel.{Channel};
ghost use Rattle.qrexec_frame.specs.declared.message.Message.{Message};
ghost use Rattle.qrexec_frame.specs.Streams.{Placed, Rest};
ghost use Rattle.qrexec_frame.specs.Fronts.{reading};
ghost use Rattle.qrexec_c.specs.Readers.{channel_of, fault_in, fresh, IsNoReader, IsLess, IsNext, IsFault, Stands, ReadsNext, ReadsFault};

use crate::found::{Found, tell};
use qrexec_frame::{Body, Channel, FrameFault};

/// A reader of a channel's messages.
#[repr(C)]
#[derive(Clone, Copy)]
pub struct Reader {
    /// The offset in the stream of the first byte that isn't read yet, modulo 2^64. With a fault, that is the
    /// first byte of the message at fault.
    pub at: u64,
    /// The type in the header of the message at fault.
    pub kind: u32,
    /// The length in that header, if the fault is 2 or 3.
    pub len: u32,
    /// 0 for a control channel, 1 for a data channel.
    pub channel: u32,
    /// 0 for none; 1 the channel has no such type; 2 the length is above 65,536; 3 the type has no body of this
    /// length; 4 a line or a service doesn't end with NUL.
    pub fault: u32,
}

/// Returns the channel of a number.
#[inline(always)]
pub(crate) fn channel_told(number: u32) -> Option<Channel>
    ensures { result ≡ channel_of number }
{
    match number {
        0 => Some(Channel::Control),
        1 => Some(Channel::Data),
        _ => None,
    }
}

/// Makes a reader of a channel, at the beginning of its stream: 0 for a control channel, 1 for a data channel.
///
/// Returns false, and changes nothing, if and only if the number is another.
#[unsafe(no_mangle)]
pub extern "C" fn qrexec_reader_init(reader: &mut Reader, channel: u32) -> bool
    ensures made { result ≡ true → reader.new ≡ fresh channel }
    ensures refused { result ≡ false → reader.new ≡ reader.old }
    ensures exact { result ≡ false ↔ channel_of channel ≡ None }
{
    if channel_told(channel).is_none() {
        return false;
    }
    *reader = Reader {
        at: 0,
        kind: 0,
        len: 0,
        channel,
        fault: 0,
    };
    true
}

/// Returns a reader that holds this fault.
pub(crate) fn faulted(channel: u32, fault: FrameFault) -> Reader
    ensures { result ≡ fault_in channel fault }
{
    match fault {
        FrameFault::UnknownType { at, kind } => Reader {
            at,
            kind,
            len: 0,
            channel,
            fault: 1,
        },
        FrameFault::TooLong { at, kind, len } => Reader {
            at,
            kind,
            len,
            channel,
            fault: 2,
        },
        FrameFault::BadLength { at, kind, len } => Reader {
            at,
            kind,
            len,
            channel,
            fault: 3,
        },
        FrameFault::NoNul { at, kind } => Reader {
            at,
            kind,
            len: 0,
            channel,
            fault: 4,
        },
    }
}

/// Finds the message at the front of the bytes, which are those of the stream from the reader's offset on.
///
/// Returns 1 if `found` tells that message; the reader stands after it then, and its offset before the call was
/// the message's. Returns 0 if the bytes are less than a message and show no fault; 2 if the reader holds a fault,
/// as it will at each later call; 3 if its numbers are those of no reader. Nothing changes at 0 and 3.
#[unsafe(no_mangle)]
pub extern "C" fn qrexec_next(reader: &mut Reader, bytes: &[u8], found: &mut Found) -> u32
    ensures numbers { result ≤ 3 }
    ensures none { result ≡ 3 ↔ IsNoReader reader.old }
    ensures less { result ≡ 0 → (channel : Channel) → channel_of reader.old.channel ≡ Some channel →
        IsLess channel bytes.now reader.old reader.new × (found.new ≡ found.old) }
    ensures next { result ≡ 1 → (channel : Channel) → channel_of reader.old.channel ≡ Some channel →
        IsNext channel bytes.now reader.old reader.new found.new }
    ensures fault { result ≡ 2 → reader.old.fault ≡ 0 → (channel : Channel) → channel_of reader.old.channel ≡ Some channel →
        IsFault channel bytes.now reader.old reader.new × (found.new ≡ found.old) }
    ensures faulted { reader.old.fault ≢ 0 → (reader.new ≡ reader.old) × (found.new ≡ found.old) × ((result ≡ 2) ⊎ (result ≡ 3)) }

    // However the stream is cut, the messages found are those of all its bytes, in order, and so is the fault.
    ensures stream_less { result ≡ 0 → (channel : Channel) → channel_of reader.old.channel ≡ Some channel →
        (stream : List ℕ) (given : List (Placed Message)) → Stands channel reader.old bytes.now stream given →
        reading channel stream ≡ record { placed = given; ending = Rest (length bytes.now) } }
    ensures stream_next { result ≡ 1 → (channel : Channel) → channel_of reader.old.channel ≡ Some channel →
        (stream : List ℕ) (given : List (Placed Message)) → Stands channel reader.old bytes.now stream given →
        ReadsNext channel bytes.now reader.old reader.new found.new stream given }
    ensures stream_fault { result ≡ 2 → (channel : Channel) → channel_of reader.old.channel ≡ Some channel →
        (stream : List ℕ) (given : List (Placed Message)) → Stands channel reader.old bytes.now stream given →
        ReadsFault channel bytes.now reader.new stream given }
{
    let Some(channel) = channel_told(reader.channel) else {
        return 3;
    };
    if reader.fault != 0 {
        return if reader.fault <= 4 { 2 } else { 3 };
    }
    match Body::at_front(channel, reader.at, bytes) {
        Ok(None) => 0,
        Ok(Some(body)) => {
            let len = body.bytes.len();
            *found = tell(body.kind, bytes, len);
            reader.at = reader.at.wrapping_add(8 + len as u64);
            1
        }
        Err(fault) => {
            *reader = faulted(reader.channel, fault);
            2
        }
    }
}
