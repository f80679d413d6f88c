//! The two sides of a call on their page, and their turns.
ghost use Rattle.std.specs.Prelude.{◌≡◌, ℕ, List, length, None, OnOk};
ghost use Rattle.vchan_protocol.specs.History.Core.{Core};
ghost use Rattle.service_gate.specs.Triple.{Triple};

use crate::page::{drain, write};
use qrexec_data::{Caller, Half, Serving};
use ring_words::Role;
use service_gate::Builtin;
use vchan_core::Plain;
use vchan_io::Memory;

/// The two sides of a call on one page: the caller on the server's end, as on a data page of two
/// domains. A turn of a side reads what came,
/// at most a buffer of it, and then sends what it has.
#[derive(Drop)]
pub(crate) struct Sides {
    pub(crate) page: Plain,
    pub(crate) caller: Caller,
    pub(crate) serving: Serving<Builtin>,
}

impl Sides {
    ghost use Rattle.session_drive.specs.Page.{Rests};
    ghost use Rattle.session_drive.specs.Sides.{CallerReads, CallerSends, CallerTurns, ServingReads, ServingSends, ServingTurns, Stands};

    /// A turn of the caller.
    pub(crate) fn turn_caller(&mut self, buffer: &mut [u8]) -> Result<(), Memory>
        requires rests { Rests self.old.page }
        requires buffer { length buffer.old ≡ 4096 }
        ensures rests { OnOk result (Rests self.new.page) }
        ensures turns { (input : List ℕ) (owed : List ℕ → Triple) (core : Core) → Stands input owed core self.old → self.old.caller.replies.outcome ≡ None
            → OnOk result (CallerTurns input owed core self.old self.new) }
    {
        self.read_replies(buffer)?;
        self.send_requests()
    }

    /// A turn of the side that serves.
    pub(crate) fn turn_serving(&mut self, buffer: &mut [u8]) -> Result<(), Memory>
        requires rests { Rests self.old.page }
        requires buffer { length buffer.old ≡ 4096 }
        ensures rests { OnOk result (Rests self.new.page) }
        ensures turns { (input : List ℕ) (owed : List ℕ → Triple) (core : Core) → Stands input owed core self.old
            → OnOk result (ServingTurns input owed core self.old self.new) }
    {
        self.read_requests(buffer)?;
        self.send_replies()
    }

    fn read_replies(&mut self, buffer: &mut [u8]) -> Result<(), Memory>
        requires rests { Rests self.old.page }
        requires buffer { length buffer.old ≡ 4096 }
        ensures rests { OnOk result (Rests self.new.page) }
        ensures reads { (input : List ℕ) (owed : List ℕ → Triple) (core : Core) → Stands input owed core self.old → self.old.caller.replies.outcome ≡ None
            → OnOk result (CallerReads input owed core self.old self.new) }
    {
        let count = drain(&mut self.page, Role::Server, buffer);
        if count == 0 {
            return Ok(());
        }
        self.caller.take(&buffer[..count])
    }

    fn send_requests(&mut self) -> Result<(), Memory>
        requires { Rests self.old.page }
        ensures rests { OnOk result (Rests self.new.page) }
        ensures sends { (input : List ℕ) (owed : List ℕ → Triple) (core : Core) → Stands input owed core self.old
            → OnOk result (CallerSends input owed core self.old self.new) }
    {
        let piece = self.caller.front()?;
        let count = write(&mut self.page, Role::Server, piece);
        self.caller.advance(count);
        Ok(())
    }

    fn read_requests(&mut self, buffer: &mut [u8]) -> Result<(), Memory>
        requires rests { Rests self.old.page }
        requires buffer { length buffer.old ≡ 4096 }
        ensures rests { OnOk result (Rests self.new.page) }
        ensures reads { (input : List ℕ) (owed : List ℕ → Triple) (core : Core) → Stands input owed core self.old
            → OnOk result (ServingReads input owed core self.old self.new) }
    {
        if self.serving.outcome().is_some() {
            return Ok(());
        }
        let count = drain(&mut self.page, Role::Client, buffer);
        if count == 0 {
            return Ok(());
        }
        self.serving.take(&buffer[..count])
    }

    fn send_replies(&mut self) -> Result<(), Memory>
        requires { Rests self.old.page }
        ensures rests { OnOk result (Rests self.new.page) }
        ensures sends { (input : List ℕ) (owed : List ℕ → Triple) (core : Core) → Stands input owed core self.old
            → OnOk result (ServingSends input owed core self.old self.new) }
    {
        let piece = self.serving.front()?;
        let count = write(&mut self.page, Role::Client, piece);
        self.serving.advance(count);
        Ok(())
    }
}
