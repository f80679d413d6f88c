//! The text of a stream, which grows with the stream.
ghost use Rattle.std.specs.Prelude.{◌≡◌, ◌≤◌, ◌+◌, ℕ, List, [], ◌++◌, length, codes, decimal, IfErr, IfOk, OnOk};
ghost use Rattle.qrexec_frame.specs.Fronts.{reading};
ghost use Rattle.stream_text.specs.Input.{IsLineRefusal, piece_at};
ghost use Rattle.stream_text.specs.Texts.{fault_line, text_of};
ghost use Rattle.stream_text.specs.Listings.{Gathers, Lists, ListsAll};

use crate::error::DecodeError;
use crate::piece::push_piece;
use itoa::{Buffer, Integer};
use qrexec_frame::{Channel, Decoder, FrameFault, NextError};
use script_words::text::{LINE, make_room};
use std::alloc::{AllocError, Global};
use vchan_io::Memory;

/// From this many bytes on, what was gathered goes to the decoder.
const MANY: usize = 4_096;

/// A decoder that takes a stream line by line, with the lines of the messages that it has returned.
// What the lines spell is gathered, so that the decoder looks at many short lines at once.
#[derive(Drop)]
pub(crate) struct Listing {
    decoder: Decoder,
    gathered: Vec<u8>,
    text: Vec<u8>,
}

impl Listing {
    /// Returns the listing of a stream of which nothing has come yet.
    pub(crate) fn new(alloc: Global, channel: Channel) -> Listing
        ensures { Gathers channel [] result.decoder result.gathered.items result.text.items }
    {
        Listing {
            decoder: Decoder::new(alloc, channel),
            gathered: Vec::new(alloc),
            text: Vec::new(alloc),
        }
    }

    /// Takes the piece of the stream that the line of this number spells, and returns how many
    /// bytes it has; the lines before it spell `before` bytes.
    ///
    /// # Errors
    ///
    /// `Bad` if and only if the line isn't a byte string, or is one with which there are too many
    /// bytes; `Memory` only if it is neither.
    pub(crate) fn take_line(
        &mut self,
        number: u32,
        before: usize,
        line: &[u8],
    ) -> Result<usize, DecodeError>
        requires { before ≤ 8388608 }
        ensures taken { IfOk result (λ count. (piece : List ℕ) × (piece_at number before line.now ≡ Ok piece) × (count ≡ length piece) × (before + count ≤ 8388608)
            × ((channel : Channel) (bytes : List ℕ) → Gathers channel bytes self.old.decoder self.old.gathered.items self.old.text.items →
            Gathers channel (bytes ++ piece) self.new.decoder self.new.gathered.items self.new.text.items)) }
        ensures bad { IfErr result (λ e. IsLineRefusal e (piece_at number before line.now)) }
    {
        let count = push_piece(&mut self.gathered, number, before, line)?;
        if self.gathered.len() >= MANY {
            self.feed_gathered()?;
        }
        Ok(count)
    }

    /// Feeds what was gathered to the decoder, and prints the messages that it completes.
    fn feed_gathered(&mut self) -> Result<(), Memory>
        ensures { (channel : Channel) (bytes : List ℕ) → Gathers channel bytes self.old.decoder self.old.gathered.items self.old.text.items →
            OnOk result (Gathers channel bytes self.new.decoder self.new.gathered.items self.new.text.items) }
    {
        self.decoder.feed(self.gathered.as_slice())?;
        self.gathered.clear();
        let _ = self.print_messages()?;
        Ok(())
    }

    /// Prints the messages that are whole, and returns the fault after them, if there is one.
    fn print_messages(&mut self) -> Result<Option<FrameFault>, Memory>
        ensures listed { (channel : Channel) (fed : List ℕ) → Lists channel fed self.old.decoder self.old.text.items →
            IfOk result (λ fault. ListsAll channel fed self.new.decoder self.new.text.items fault) }
        ensures gathered { self.new.gathered.items ≡ self.old.gathered.items }
    {
        'messages: loop {
            match self.decoder.next_line(&mut self.text) {
                Ok(true) => self.text.push(b'\n')?,
                Ok(false) => return Ok(None),
                Err(NextError::Fault(fault)) => return Ok(Some(fault)),
                Err(NextError::Memory) => return Err(Memory),
            }
        }
    }

    /// Returns the whole text, after the last line of the stream.
    pub(crate) fn into_text(mut self) -> Result<Vec<u8>, Memory>
        ensures { (channel : Channel) (bytes : List ℕ) → Gathers channel bytes self.decoder self.gathered.items self.text.items →
            IfOk result (λ text. text.items ≡ text_of (reading channel bytes)) }
    {
        self.decoder.feed(self.gathered.as_slice())?;
        self.end()
    }

    /// Returns the whole text, after the decoder was fed all of the stream.
    fn end(mut self) -> Result<Vec<u8>, Memory>
        ensures { (channel : Channel) (fed : List ℕ) → Lists channel fed self.decoder self.text.items →
            IfOk result (λ text. text.items ≡ text_of (reading channel fed)) }
    {
        let fault = self.print_messages()?;
        let Listing {
            decoder,
            mut text,
            ..
        } = self;
        make_room(&mut text, LINE)?;
        match fault {
            None => put_rest(&mut text, decoder.rest())?,
            Some(fault) => put_fault(&mut text, fault)?,
        }
        text.push(b'\n')?;
        Ok(text)
    }
}

fn put_rest(text: &mut Vec<u8>, left: usize) -> Result<(), AllocError>
    ensures { OnOk result (text.new.items ≡ text.old.items ++ (codes "rest " ++ decimal left)) }
{
    text.extend_from_slice(b"rest ")?;
    put_number(text, left)
}

fn put_fault(text: &mut Vec<u8>, fault: FrameFault) -> Result<(), AllocError>
    ensures { OnOk result (text.new.items ≡ text.old.items ++ fault_line fault) }
{
    match fault {
        FrameFault::UnknownType { at, kind } => put_place(text, b"fault unknown-type ", at, kind),
        FrameFault::TooLong { at, kind, len } => {
            put_place(text, b"fault too-long ", at, kind)?;
            put_len(text, len)
        }
        FrameFault::BadLength { at, kind, len } => {
            put_place(text, b"fault bad-length ", at, kind)?;
            put_len(text, len)
        }
        FrameFault::NoNul { at, kind } => put_place(text, b"fault no-nul ", at, kind),
    }
}

/// Appends a name, the offset at which the faulty message begins, and the number of its type.
fn put_place(text: &mut Vec<u8>, name: &[u8], at: u64, kind: u32) -> Result<(), AllocError>
    ensures { OnOk result (text.new.items ≡ text.old.items ++ (name.now ++ (decimal at ++ (codes " " ++ decimal kind)))) }
{
    text.extend_from_slice(name)?;
    put_number(text, at)?;
    text.push(b' ')?;
    put_number(text, kind)
}

fn put_len(text: &mut Vec<u8>, len: u32) -> Result<(), AllocError>
    ensures { OnOk result (text.new.items ≡ text.old.items ++ (codes " " ++ decimal len)) }
{
    text.push(b' ')?;
    put_number(text, len)
}

fn put_number<I: Integer>(text: &mut Vec<u8>, number: I) -> Result<(), AllocError>
    ensures { OnOk result (text.new.items ≡ text.old.items ++ I.text number) }
{
    text.extend_from_slice(Buffer::new().format(number).as_bytes())
}
