//! Decoding a whole input.
ghost use Rattle.std.specs.Prelude.{◌≡◌, IfErr, IfOk};
ghost use Rattle.stream_text.specs.Input.{BeginsWell, IsRefusal};
ghost use Rattle.stream_text.specs.Texts.{decoded};

use crate::error::DecodeError;
use crate::listing::Listing;
use qrexec_frame::Channel;
use script_words::{LineReader, NextLine};
use std::alloc::Global;

/// Returns the text of a captured stream.
///
/// Each line of the input is a byte string, the next piece of the stream; an empty line and one
/// that begins with `#` are skipped. The text has a line for each message of the stream, as
/// `message_line` has it, and then `rest K`, where K bytes are left that aren't a whole message, or
/// the fault with which the stream ends. The text doesn't depend on where the stream was cut.
///
/// # Errors
///
/// `Bad` if and only if a line is bad, with the first such line: `TooManyLines` if it is the
/// 65,537th, else `BadHex` if it isn't a byte string, else `TooManyBytes` if all byte strings up to
/// it have more than 8,388,608 bytes. `Memory` if memory runs out; it replaces `Bad` only if the
/// first line that isn't skipped has a piece.
pub fn decode_text(alloc: Global, channel: Channel, bytes: &[u8]) -> Result<Vec<u8>, DecodeError>
    ensures text { IfOk result (λ text. decoded channel bytes.now ≡ Ok text.items) }
    ensures bad { IfErr result (λ e. IsRefusal e (decoded channel bytes.now)) }
    ensures memory { result ≡ Err DecodeError.Memory → BeginsWell bytes.now }
{
    let mut listing = Listing::new(alloc, channel);
    let mut total = 0usize;
    let mut reader = LineReader::of(bytes);
    while let NextLine::Line { number, text } = reader.next()? {
        total += listing.take_line(number, total, text)?;
    }
    Ok(listing.into_text()?)
}
