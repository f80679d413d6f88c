//! The bytes that a side of a call gets.
ghost use Rattle.std.specs.Prelude.{◌≡◌, ◌+◌, ◌≤◌, ◌++◌, [], length, take, OnOk, OnErr};
ghost use Rattle.qrexec_frame.specs.declared.kind.Channel.TheVariants.{Data};
ghost use Rattle.qrexec_frame.specs.Bodies.{StandsAtFront};
ghost use Rattle.qrexec_data.specs.Reading.{unread};

use crate::unsent::SHORT_CALL;
use qrexec_frame::{Body, Channel, FrameFault};
use std::alloc::Global;
use std::marker::Model;
use vchan_io::Memory;

/// All bytes got, and how many of them were read. A message is borrowed from these bytes.
#[derive(Debug, Drop)]
pub(crate) struct Inbox {
    got: Vec<u8>,
    read: usize,
}

impl Model for Inbox {
    ghost use Rattle.std.specs.Prelude.{◌≤◌, length};
    ghost use Rattle.qrexec_data.specs.Reading.{InboxState};

    ghost Value = { InboxState };

    ghost view = { λ i. record { got = i.got.items; read = i.read } };

    ghost invariant = { λ i. i.read ≤ length i.got.items };
}

impl Inbox {
    pub(crate) fn new(alloc: Global) -> Inbox
        ensures { result ≡ record { got = []; read = 0 } }
    {
        Inbox {
            got: Vec::new(alloc),
            read: 0,
        }
    }

    /// Takes the next bytes.
    pub(crate) fn take(&mut self, piece: &[u8]) -> Result<(), Memory>
        ensures ok { OnOk result (self.new ≡ record self.old { got = self.old.got ++ piece.now }) }
        ensures err { OnErr result (self.new ≡ self.old) }
    {
        if self.got.is_empty() {
            self.got.reserve(SHORT_CALL)?;
        }
        self.got.extend_from_slice(piece)?;
        Ok(())
    }

    /// Drops all bytes got but the first `len`.
    pub(crate) fn cut(&mut self, len: usize)
        ensures { self.new.got ≡ take len self.old.got }
    {
        self.got.truncate(len);
        self.read = self.read.min(self.got.len());
    }

    /// Returns what stands at the front of the bytes that haven't been read.
    pub(crate) fn front(&self) -> Result<Option<Body<'_>>, FrameFault>
        ensures { StandsAtFront Data self.now.read (unread self.now) result }
    {
        Body::at_front(Channel::Data, self.read as u64, &self.got[self.read..])
    }

    /// Returns all bytes got.
    pub(crate) fn into_got(self) -> Vec<u8>
        ensures { result.items ≡ self.got }
    {
        let Inbox { got, read: _ } = self;
        got
    }

    /// Returns how many bytes were read, which is the offset of the next message.
    pub(crate) fn read(&self) -> usize
        ensures at { result ≡ self.now.read }
        ensures within { result ≤ length self.now.got }
    {
        self.read
    }

    /// Tells that `len` more bytes were read.
    pub(crate) fn pass(&mut self, len: usize)
        requires { self.old.read + len ≤ length self.old.got }
        ensures { self.new ≡ record self.old { read = self.old.read + len } }
    {
        self.read += len;
    }

    /// Returns all bytes got.
    pub(crate) fn got(&self) -> &[u8]
        ensures { result.now ≡ self.now.got }
    {
        &self.got
    }
}
