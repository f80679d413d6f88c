ghost use Rattle.std.specs.Prelude.{◌≡◌, ◌<◌, ◌≤◌, ◌+◌, ◌*◌, ℕ, List, [], ◌++◌, length, drop, vec_len, vec_capacity, Option, Some, None, true, false, IsOk, IsSome, IfOk, IfSome, OnOk, OnErr};
ghost use Rattle.qrexec_frame.specs.declared.fault.FrameFault.{FrameFault};
ghost use Rattle.qrexec_frame.specs.declared.message.Message.{Message};
ghost use Rattle.qrexec_frame.specs.Streams.{Placed};
ghost use Rattle.qrexec_frame.specs.Messages.{IsSpellable, GoesOn};
ghost use Rattle.qrexec_frame.specs.Printing.{Printed};
ghost use Rattle.qrexec_frame.specs.Decoding.{after_feed, held, Answers, FollowsGrammar, StandsFor, Reads};

use crate::encoding::{HEADER, put};
use crate::fault::{FrameFault, NextError};
use crate::front::{Body, message_of};
use crate::kind::Channel;
use crate::line::put_body;
use crate::message::Message;
use std::alloc::Global;
use std::marker::Model;
use vchan_io::Memory;

/// Reads the messages of a channel from bytes that come in pieces of any size.
///
/// It keeps a place up to which its bytes were given out; `next` moves that place, but no byte.
// The offset stands apart from the place: side by side, one wide load would read both, and it would
// wait for the place that `feed` has just stored.
#[derive(Debug, Drop)]
pub struct Decoder {
    channel: Channel,
    at: u64,
    bytes: Vec<u8>,
    given: usize,
    fault: Option<FrameFault>,
}

impl Model for Decoder {
    ghost use Rattle.std.specs.Prelude.{◌≤◌, length, drop};
    ghost use Rattle.qrexec_frame.specs.Decoding.{DecoderState};

    ghost Value = { DecoderState };

    ghost view = { λ d. record { channel = d.channel; passed = d.given; left = drop d.given d.bytes.items; at = d.at; fault = d.fault } };

    ghost invariant = { λ d. d.given ≤ length d.bytes.items };
}

impl Decoder {
    ghost use Rattle.std.specs.Borrow.{sem};
    ghost use Rattle.qrexec_frame.specs.Bodies.{StandsAtFront};
    ghost use Rattle.qrexec_frame.specs.Lent.{RestsBehind};

    /// Returns a decoder of a channel's messages that hasn't been fed anything.
    pub fn new(alloc: Global, channel: Channel) -> Decoder
        ensures state { result ≡ record { channel = channel; passed = 0; left = []; at = 0; fault = None } }
        ensures stream { StandsFor result [] [] }
    {
        Decoder {
            channel,
            bytes: Vec::new(alloc),
            given: 0,
            at: 0,
            fault: None,
        }
    }

    /// Takes the next bytes of the stream, and then holds at most twice as many bytes as haven't been
    /// given out. A faulted decoder stays as it is.
    ///
    /// # Errors
    ///
    /// `Memory` if memory runs out; the decoder is as it was then.
    pub fn feed(&mut self, piece: &[u8]) -> Result<(), Memory>
        ensures ok { OnOk result (self.new ≡ after_feed self.old piece.now) }
        ensures held { self.old.fault ≡ None → OnOk result (held self.new ≤ 2 * length self.new.left) }
        ensures err { OnErr result (self.new ≡ self.old) }
        ensures faulted { IsSome self.old.fault → IsOk result }

        // It stands for what it stood for, and this piece.
        ensures stream { (fed : List ℕ) (given : List (Placed Message)) → StandsFor self.old fed given →
            OnOk result (StandsFor self.new (fed ++ piece.now) given) }
    {
        self.take(piece)
    }

    // `feed`, told by the bytes that it holds.
    fn take(&mut self, piece: &[u8]) -> Result<(), Memory>
        ensures ok { OnOk result (self.new ≡ after_feed self.old piece.now) }
        ensures err { OnErr result (self.new ≡ self.old) }
        ensures faulted { IsSome self.old.fault → IsOk result }
    {
        if self.fault.is_some() {
            return Ok(());
        }
        let left = self.bytes.len() - self.given;
        if left <= self.given {
            put_behind(&mut self.bytes, self.given, piece)?;
            self.given = 0;
        } else {
            self.bytes.extend_from_slice(piece)?;
        }
        Ok(())
    }

    /// Returns the next message of the stream, or `None` if the bytes not yet given out are less
    /// than a whole message and show no fault. They are fewer than 65,544 then.
    ///
    /// # Errors
    ///
    /// `Fault` if the bytes show a fault at a message's place, with the first that applies; every
    /// later call answers the same. `Memory` if memory runs out; the decoder is as it was then.
    pub fn next(&mut self) -> Result<Option<Message>, NextError>
        ensures answer { self.old.fault ≡ None → Answers self.old self.new result }
        ensures grammar { self.old.fault ≡ None → FollowsGrammar self.old self.new result }
        ensures faulted { (f : FrameFault) → self.old.fault ≡ Some f →
            (result ≡ Err (NextError.Fault f)) × (self.new ≡ self.old) }
        ensures fits { IfOk result (λ found. IfSome found (λ m. IsSpellable m × GoesOn self.old.channel m)) }
        ensures short { result ≡ Ok None → length self.old.left < 65544 }

        // The messages and the end of all bytes fed, however they were cut.
        ensures stream { (fed : List ℕ) (given : List (Placed Message)) → StandsFor self.old fed given →
            Reads self.old self.new fed given result }
    {
        self.give()
    }

    // `next`, told by what stands at the front.
    fn give(&mut self) -> Result<Option<Message>, NextError>
        ensures answer { self.old.fault ≡ None → Answers self.old self.new result }
        ensures faulted { (f : FrameFault) → self.old.fault ≡ Some f →
            (result ≡ Err (NextError.Fault f)) × (self.new ≡ self.old) }
        ensures fits { IfOk result (λ found. IfSome found (λ m. IsSpellable m)) }
    {
        if let Some(fault) = self.fault {
            return Err(NextError::Fault(fault));
        }
        let alloc = *self.bytes.allocator();
        match Body::at_front(self.channel, self.at, &self.bytes[self.given..]) {
            Ok(None) => Ok(None),
            Ok(Some(body)) => {
                let len = HEADER + body.bytes.len();
                let message = message_of(alloc, body.kind, body.bytes)?;
                self.given += len;
                self.at = self.at.wrapping_add(len as u64);
                Ok(Some(message))
            }
            Err(fault) => {
                self.fault = Some(fault);
                Err(NextError::Fault(fault))
            }
        }
    }

    /// Takes the next message of the stream as `next` does, but returns its type and its borrowed
    /// body. It takes no memory.
    ///
    /// # Errors
    ///
    /// A fault, as `next` has it.
    pub fn next_body(&mut self) -> Result<Option<Body<'_>>, FrameFault>
        ensures* after { sem 𝓛 (RestsBehind self.entry result) }
        ensures answer { self.old.fault ≡ None → StandsAtFront self.old.channel self.old.at self.old.left result }
        ensures faulted { (f : FrameFault) → self.old.fault ≡ Some f → result ≡ Err f }
    {
        if let Some(known) = self.fault {
            return Err(known);
        }
        match Body::at_front(self.channel, self.at, &self.bytes[self.given..]) {
            Ok(None) => Ok(None),
            Ok(Some(body)) => {
                let len = HEADER + body.bytes.len();
                self.given += len;
                self.at = self.at.wrapping_add(len as u64);
                Ok(Some(body))
            }
            Err(found) => {
                self.fault = Some(found);
                Err(found)
            }
        }
    }

    /// Takes the next message of the stream as `next` does, and appends its line, as `message_line`
    /// has it, to `out`. The message isn't copied. Returns false if `next` would return `None`.
    ///
    /// # Errors
    ///
    /// Those of `next`. If memory runs out, the decoder and `out` are as they were.
    pub fn next_line(&mut self, out: &mut Vec<u8>) -> Result<bool, NextError>
        ensures answer { self.old.fault ≡ None → Printed (Answers self.old self.new) out.old.items out.new.items result }
        ensures faulted { (f : FrameFault) → self.old.fault ≡ Some f →
            (result ≡ Err (NextError.Fault f)) × (self.new ≡ self.old) × (out.new.items ≡ out.old.items) }
        ensures channel { self.new.channel ≡ self.old.channel }
        ensures shorter { result ≡ Ok true → length self.new.left < length self.old.left }
        ensures stays { result ≡ Ok false → self.new ≡ self.old }
        ensures short { result ≡ Ok false → length self.old.left < 65544 }

        // The messages and the end of all bytes fed, however they were cut.
        ensures stream { (fed : List ℕ) (given : List (Placed Message)) → StandsFor self.old fed given →
            Printed (Reads self.old self.new fed given) out.old.items out.new.items result }
    {
        self.print(out)
    }

    // `next_line`, told by what stands at the front.
    fn print(&mut self, out: &mut Vec<u8>) -> Result<bool, NextError>
        ensures answer { self.old.fault ≡ None → Printed (Answers self.old self.new) out.old.items out.new.items result }
        ensures faulted { (f : FrameFault) → self.old.fault ≡ Some f →
            (result ≡ Err (NextError.Fault f)) × (self.new ≡ self.old) × (out.new.items ≡ out.old.items) }
    {
        if let Some(known) = self.fault {
            return Err(NextError::Fault(known));
        }
        match Body::at_front(self.channel, self.at, &self.bytes[self.given..]) {
            Ok(None) => Ok(false),
            Ok(Some(body)) => {
                let len = HEADER + body.bytes.len();
                put_body(out, body.kind, body.bytes)?;
                self.given += len;
                self.at = self.at.wrapping_add(len as u64);
                Ok(true)
            }
            Err(found) => {
                self.fault = Some(found);
                Err(NextError::Fault(found))
            }
        }
    }

    /// Returns how many bytes it holds, including those that were given out.
    pub fn held(&self) -> usize
        ensures { result ≡ held self.now }
    {
        self.bytes.len()
    }

    /// Returns how many bytes haven't been given out yet.
    pub fn rest(&self) -> usize
        ensures { result ≡ length self.now.left }
    {
        self.bytes.len() - self.given
    }

    /// Returns the offset of the first byte that hasn't been given out yet, counted modulo 2^64.
    pub fn at(&self) -> u64
        ensures { result ≡ self.now.at }
    {
        self.at
    }
}

// Puts a piece after the bytes, without the first `passed` of them.
fn put_behind(bytes: &mut Vec<u8>, passed: usize, piece: &[u8]) -> Result<(), Memory>
    requires { passed ≤ vec_len bytes.old }
    ensures ok { OnOk result (bytes.new.items ≡ drop passed bytes.old.items ++ piece.now) }
    ensures err { OnErr result (bytes.new.items ≡ bytes.old.items) }
{
    bytes.reserve(piece.len().saturating_sub(passed))?;
    drop_first(bytes, passed);
    put(bytes, piece);
    Ok(())
}

// Drops the first `count` bytes, and moves the others to the beginning.
fn drop_first(bytes: &mut Vec<u8>, count: usize)
    requires { count ≤ vec_len bytes.old }
    ensures items { bytes.new.items ≡ drop count bytes.old.items }
    ensures len { vec_len bytes.new + count ≡ vec_len bytes.old }
    ensures capacity { vec_capacity bytes.old ≤ vec_capacity bytes.new }
{
    let left = bytes.len() - count;
    bytes.copy_within(count.., 0);
    bytes.truncate(left);
}
