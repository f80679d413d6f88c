ghost use Rattle.std.specs.Prelude.{◌≡◌, ◌≤◌, ◌<◌, ◌^◌, ◌++◌, ◌↔◌, ℕ, List, [], Ok, Some, None, IsSome, length, take, drop, IsOk, IfOk, OnOk, OnErr, true, false};
ghost use Rattle.std.specs.Option.{option_or};
ghost use Rattle.service_gate.specs.Triple.{Triple};

use crate::answering::Answering;
use crate::half::Half;
use crate::inbox::Inbox;
use crate::outcome::{Outcome, SessionFault};
use service_gate::Service;
use std::alloc::Global;
use std::marker::Model;
use vchan_io::Memory;

/// The side of a call that serves it: it reads the call's input, feeds it to a service, and sends
/// what the service gives.
#[derive(Drop)]
pub struct Serving<S: Service> {
    inbox: Inbox,
    answering: Answering<S>,
}

impl<S: Service> Model for Serving<S> {
    ghost use Rattle.qrexec_data.specs.ServingSide.{ServingState};

    ghost Value = { ServingState S };

    ghost view = { λ s. record { inbox = s.inbox; answering = s.answering } };
}

impl<S: Service> Serving<S> {
    ghost use Rattle.qrexec_data.specs.Reading.{IsByBytes};
    ghost use Rattle.qrexec_data.specs.ServingSide.{ServingStandsFor, ReadsInput, IsServing, HasServed, StillWaits};

    /// Returns a side that serves with this service, of this version, 2 or 3. A message of an
    /// output has at most `chunk` bytes, 1 to 65,536, and at most as many as the version allows
    /// that both sides go on with.
    ///
    /// # Errors
    ///
    /// `Memory` if memory runs out; the service is dropped then.
    pub fn new(alloc: Global, service: S, own: u32, chunk: u32) -> Result<Serving<S>, Memory>
        requires own { (2 ≤ own) × (own ≤ 3) }
        requires chunk { (0 < chunk) × (chunk ≤ 65536) }
        ensures asked { IfOk result (λ s. (s.answering.chunk ≡ chunk) × (s.answering.own ≡ own)) }
        ensures new { IfOk result (λ s. (s.inbox.got ≡ []) × (s.answering.outcome ≡ None) × ServingStandsFor S.owes (S.owes service) s []) }
    {
        Ok(Serving {
            inbox: Inbox::new(alloc),
            answering: Answering::new(alloc, service, own, chunk),
        })
    }

    // Reads all whole messages that are left, up to the first that decides.
    fn read_on(&mut self) -> Result<(), Memory>
        ensures got { self.new.inbox.got ≡ self.old.inbox.got }
        ensures same { (self.new.answering.own ≡ self.old.answering.own) × (self.new.answering.chunk ≡ self.old.answering.chunk) }
        ensures waits { OnOk result (StillWaits self.old.answering self.new.answering) }
        ensures read { (owed : List ℕ → Triple) (sent : List ℕ) → IsServing S.owes owed self.old sent →
            OnOk result (HasServed S.owes owed self.new sent) }
        ensures bytes { IsByBytes self.old.answering.outcome → IsByBytes self.new.answering.outcome }
    {
        loop {
            if !self.read_one()? {
                return Ok(());
            }
        }
    }

    // Reads the next message, and returns whether another may follow.
    fn read_one(&mut self) -> Result<bool, Memory>
        ensures got { self.new.inbox.got ≡ self.old.inbox.got }
        ensures same { (self.new.answering.own ≡ self.old.answering.own) × (self.new.answering.chunk ≡ self.old.answering.chunk) }
        ensures at { self.old.inbox.read < 2 ^ 64 }
        ensures nearer { result ≡ Ok true → (self.old.inbox.read < self.new.inbox.read) × (self.new.inbox.read ≤ length self.old.inbox.got) }
        ensures step { IfOk result (λ more. ReadsInput S.owes self.old self.new more) }
        ensures bytes { IsByBytes self.old.answering.outcome → IsByBytes self.new.answering.outcome }
    {
        let at = self.inbox.read();
        match self.inbox.front() {
            Ok(None) => Ok(false),
            Ok(Some(body)) => {
                let len = body.message_len();
                self.answering.hear(body, at as u64)?;
                self.inbox.pass(len);
                Ok(self.answering.outcome().is_none())
            }
            Err(fault) => {
                self.answering.fail(SessionFault::Frame(fault));
                Ok(false)
            }
        }
    }

    /// Returns all bytes that came while there was no outcome, without a copy, of a side that is
    /// done with.
    pub fn into_got(self) -> Vec<u8>
        ensures { result.items ≡ self.inbox.got }
    {
        let Serving { inbox, .. } = self;
        inbox.into_got()
    }
}

impl<S: Service> Half for Serving<S> {
    ghost use Rattle.std.specs.Borrow.{sem};
    ghost use Rattle.qrexec_data.specs.Reading.{IsByBytes};
    ghost use Rattle.qrexec_data.specs.Half.{IsSameHalf};
    ghost use Rattle.qrexec_data.specs.ServingSide.{ServingStandsFor, StillWaits, serving_half};

    ghost half = { serving_half S.owes };

    fn take(&mut self, piece: &[u8]) -> Result<(), Memory>
        ensures over { IsSome self.old.answering.outcome → IsOk result × (self.new ≡ self.old) }
        ensures got { self.old.answering.outcome ≡ None → OnOk result (self.new.inbox.got ≡ self.old.inbox.got ++ piece.now) }
        ensures no_memory { OnErr result (self.new.inbox.got ≡ self.old.inbox.got) }
        ensures same { IsSameHalf (serving_half S.owes) self.old self.new }
        ensures waits { OnOk result (StillWaits self.old.answering self.new.answering) }
        ensures stands { (owed : List ℕ → Triple) (sent : List ℕ) → ServingStandsFor S.owes owed self.old sent →
            OnOk result (ServingStandsFor S.owes owed self.new sent) }
        ensures bytes { IsByBytes self.old.answering.outcome → IsByBytes self.new.answering.outcome }
    {
        if self.answering.outcome().is_some() {
            return Ok(());
        }
        let before = self.inbox.got().len();
        self.inbox.take(piece)?;
        match self.read_on() {
            Ok(()) => Ok(()),
            Err(refused) => {
                self.inbox.cut(before);
                Err(refused)
            }
        }
    }

    /// There are no bytes if and only if there is an outcome, the other side's greeting hasn't been
    /// read yet, or all that the service gave has gone and its input hasn't ended.
    fn front(&mut self) -> Result<&[u8], Memory> {
        if self.answering.outcome().is_some() {
            return Ok(&[]);
        }
        self.answering.pack()?;
        Ok(self.answering.waiting())
    }

    /// After the last byte of the exit code the call is done.
    fn advance(&mut self, count: usize) {
        self.answering.advance(count);
    }

    fn closed(&mut self) {
        self.answering.end(Outcome::Closed);
    }

    fn gone(&mut self) {
        self.answering.end(Outcome::Gone);
    }

    fn outcome(&self) -> Option<Outcome> {
        self.answering.outcome()
    }

    fn got(&self) -> &[u8] {
        self.inbox.got()
    }
}
