//! What a caller sends.
ghost use Rattle.std.specs.Prelude.{◌≡◌, ◌+◌, ◌≤◌, ◌<◌, ◌++◌, [], false, length, drop, map, min, IfOk, OnOk, OnErr, Option};
ghost use Rattle.qrexec_frame.specs.declared.message.Message.TheVariants as message;
ghost use Rattle.qrexec_frame.specs.Messages.{written};
ghost use Rattle.qrexec_data.specs.Requests.{packed_next, packed_on};
ghost use Rattle.qrexec_data.specs.Sending.{most};

use crate::unsent::{Unsent, most};
use qrexec_frame::Kind;
use std::alloc::Global;
use std::marker::Model;
use vchan_io::Memory;

/// The input of a call, and its messages that wait to go. A message is packed only if no other waits,
/// so that a session needs no second copy of its input.
#[derive(Debug, Drop)]
pub(crate) struct Requests {
    chunk: usize,
    input: Vec<u8>,
    packed: usize,
    closed: bool,
    waiting: Unsent,
}

impl Model for Requests {
    ghost use Rattle.std.specs.Prelude.{◌≤◌, ◌<◌, length};
    ghost use Rattle.qrexec_data.specs.Requests.{RequestsState};

    ghost Value = { RequestsState };

    ghost view = { λ r. record {
      chunk = r.chunk;
      input = r.input.items;
      packed = r.packed;
      closed = r.closed;
      waiting = r.waiting;
    } };

    ghost invariant = { λ r. (0 < r.chunk) × (r.chunk ≤ 65536) × (r.packed ≤ length r.input.items) };
}

impl Requests {
    /// Returns the requests of a caller of this version, whose greeting waits to go.
    pub(crate) fn new(
        alloc: Global,
        input: Vec<u8>,
        own: u32,
        chunk: u32,
    ) -> Result<Requests, Memory>
        requires own { (2 ≤ own) × (own ≤ 3) }
        requires chunk { (0 < chunk) × (chunk ≤ 65536) }
        ensures { IfOk result (λ r. r ≡ record { chunk = chunk; input = input.items; packed = 0; closed = false; waiting = written (message.Hello own) }) }
    {
        let mut waiting = Unsent::new(alloc);
        waiting.put_greeting(own)?;
        Ok(Requests {
            chunk: chunk as usize,
            input,
            packed: 0,
            closed: false,
            waiting,
        })
    }

    /// Lays the next message of the input, if none waits and a version is agreed on.
    pub(crate) fn pack(&mut self, version: Option<u32>) -> Result<(), Memory>
        ensures { OnOk result (self.new ≡ packed_on version self.old) }
    {
        match version {
            Some(version) if self.waiting.is_empty() => self.pack_next(version),
            _ => Ok(()),
        }
    }

    fn pack_next(&mut self, version: u32) -> Result<(), Memory>
        ensures { OnOk result (self.new ≡ packed_next version self.old) }
    {
        if self.closed {
            return Ok(());
        }
        if self.packed < self.input.len() {
            let len = self
                .chunk
                .min(most(version))
                .min(self.input.len() - self.packed);
            self.waiting
                .put_data(Kind::Stdin, &self.input[self.packed..self.packed + len])?;
            self.packed += len;
        } else {
            self.waiting.put_data(Kind::Stdin, &[])?;
            self.closed = true;
        }
        Ok(())
    }

    /// Borrows the bytes that wait.
    pub(crate) fn waiting(&self) -> &[u8]
        ensures { result.now ≡ self.now.waiting }
    {
        self.waiting.waiting()
    }

    /// Drops the first `count` of the bytes that wait, which have gone.
    pub(crate) fn advance(&mut self, count: usize)
        requires { count ≤ length self.old.waiting }
        ensures { self.new ≡ record self.old { waiting = drop count self.old.waiting } }
    {
        self.waiting.advance(count);
    }
}
