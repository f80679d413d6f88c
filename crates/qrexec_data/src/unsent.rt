//! The bytes that a side of a call sends, and how many a message and a list of them have.
ghost use Rattle.std.specs.Prelude.{◌≡◌, ◌≤◌, ◌++◌, ◌==◌, [], length, drop, OnOk, OnErr};
ghost use Rattle.qrexec_data.specs.Sending.{most};
ghost use Rattle.qrexec_frame.specs.Kinds.{IsData};
ghost use Rattle.qrexec_frame.specs.Fronts.{made};
ghost use Rattle.qrexec_frame.specs.Messages.{Fits, written};
ghost use Rattle.qrexec_frame.specs.declared.message.Message.TheVariants as message;

use qrexec_frame::{Kind, Message, encode, encode_data};
use qrexec_hello::Hello;
use std::alloc::Global;
use std::marker::Model;
use vchan_io::Memory;

/// The number of bytes that one side sends in a call whose streams have some 80 bytes. A list of
/// bytes has room for them at first, since workers that grow lists wait for one another at the
/// allocator. The number is this project's own.
pub(crate) const SHORT_CALL: usize = 128;

/// Returns the greatest number of bytes that one message of a stream carries in a version: 4,096
/// below version 3, and 65,536 from it on.
pub(crate) fn most(version: u32) -> usize
    ensures { result ≡ most version }
{
    if version < 3 { 4_096 } else { 65_536 }
}

/// Messages that wait to go, in their written spelling. Contracts see the bytes that haven't gone
/// yet.
#[derive(Debug, Drop)]
pub(crate) struct Unsent {
    bytes: Vec<u8>,
    gone: usize,
}

impl Model for Unsent {
    ghost use Rattle.std.specs.Prelude.{◌≤◌, List, ℕ, length, drop};

    ghost Value = { List ℕ };

    ghost view = { λ o. drop o.gone o.bytes.items };

    ghost invariant = { λ o. o.gone ≤ length o.bytes.items };
}

impl Unsent {
    pub(crate) fn new(alloc: Global) -> Unsent
        ensures { result ≡ [] }
    {
        Unsent {
            bytes: Vec::new(alloc),
            gone: 0,
        }
    }

    /// Returns whether no byte waits.
    pub(crate) fn is_empty(&self) -> bool
        ensures { result ≡ (length self.now == 0) }
    {
        self.waiting().is_empty()
    }

    /// Borrows the bytes that wait.
    pub(crate) fn waiting(&self) -> &[u8]
        ensures { result.now ≡ self.now }
    {
        &self.bytes[self.gone..]
    }

    /// Drops the first `count` of the bytes that wait, which have gone.
    pub(crate) fn advance(&mut self, count: usize)
        requires { count ≤ length self.old }
        ensures { self.new ≡ drop count self.old }
    {
        self.gone += count;
    }

    /// Appends a message of a stream.
    pub(crate) fn put_data(&mut self, kind: Kind, bytes: &[u8]) -> Result<(), Memory>
        requires stream { IsData kind }
        requires fits { length bytes.now ≤ 65536 }
        ensures ok { OnOk result (self.new ≡ self.old ++ written (made kind bytes.now)) }
        ensures err { OnErr result (self.new ≡ self.old) }
    {
        self.begin_anew()?;
        encode_data(kind, bytes, &mut self.bytes)
    }

    /// Appends the greeting of a side of this version, 2 or 3.
    pub(crate) fn put_greeting(&mut self, own: u32) -> Result<(), Memory>
        requires { (2 ≤ own) × (own ≤ 3) }
        ensures { OnOk result (self.new ≡ self.old ++ written (message.Hello own)) }
    {
        self.put(Hello::announce(own))
    }

    /// Appends an exit code.
    pub(crate) fn put_code(&mut self, code: i32) -> Result<(), Memory>
        ensures { OnOk result (self.new ≡ self.old ++ written (message.ExitCode code)) }
    {
        self.put(Message::ExitCode { code })
    }

    // Owns the message, so that its one end is here.
    fn put(&mut self, message: Message) -> Result<(), Memory>
        requires { Fits message }
        ensures ok { OnOk result (self.new ≡ self.old ++ written message) }
        ensures err { OnErr result (self.new ≡ self.old) }
    {
        self.put_lent(&message)
    }

    fn put_lent(&mut self, message: &Message) -> Result<(), Memory>
        requires { Fits message.now }
        ensures ok { OnOk result (self.new ≡ self.old ++ written message.now) }
        ensures err { OnErr result (self.new ≡ self.old) }
    {
        self.begin_anew()?;
        encode(message, &mut self.bytes)
    }

    // Begins a new list if all bytes have gone.
    fn begin_anew(&mut self) -> Result<(), Memory>
        ensures { self.new ≡ self.old }
    {
        if self.gone == self.bytes.len() {
            self.bytes.clear();
            self.gone = 0;
            self.bytes.reserve(SHORT_CALL)?;
        }
        Ok(())
    }
}
