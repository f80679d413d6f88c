ghost use Rattle.std.specs.Prelude.{◌≡◌, ◌≤◌, ◌<◌, ◌^◌, ◌++◌, ◌↔◌, ℕ, List, [], Some, None, IsSome, length, take, drop, Ok, IsOk, IfOk, OnOk, OnErr, true, false};
ghost use Rattle.std.specs.Option.{option_or};

use crate::half::Half;
use crate::inbox::Inbox;
use crate::outcome::{Outcome, SessionFault};
use crate::replies::Replies;
use crate::requests::Requests;
use std::alloc::Global;
use std::marker::Model;
use vchan_io::Memory;

/// The side of a call that made it: it sends the call's input, and reads the two outputs and the
/// exit code.
#[derive(Debug, Drop)]
pub struct Caller {
    inbox: Inbox,
    replies: Replies,
    requests: Requests,
}

impl Model for Caller {
    ghost use Rattle.qrexec_data.specs.CallerSide.{CallerState};

    ghost Value = { CallerState };

    ghost view = { λ c. record { inbox = c.inbox; replies = c.replies; requests = c.requests } };
}

impl Caller {
    ghost use Rattle.qrexec_data.specs.Seeing.{caller_sees};
    ghost use Rattle.qrexec_data.specs.CallerSide.{CallerStandsFor, ReadsReply, IsReading, HasRead};
    ghost use Rattle.qrexec_data.specs.Reading.{IsByBytes};

    /// Returns a caller with this input, of this version, 2 or 3. A message of its input has at
    /// most `chunk` bytes, 1 to 65,536, and at most as many as the version allows that both sides
    /// go on with.
    ///
    /// # Errors
    ///
    /// `Memory` if memory runs out; the input is dropped then.
    pub fn new(alloc: Global, stdin: Vec<u8>, own: u32, chunk: u32) -> Result<Caller, Memory>
        requires own { (2 ≤ own) × (own ≤ 3) }
        requires chunk { (0 < chunk) × (chunk ≤ 65536) }
        ensures asked { IfOk result (λ c. (c.requests.input ≡ stdin.items) × (c.requests.chunk ≡ chunk) × (c.replies.own ≡ own)) }
        ensures new { IfOk result (λ c. (c.inbox.got ≡ []) × (c.replies.outcome ≡ None) × CallerStandsFor c []) }
    {
        let requests = Requests::new(alloc, stdin, own, chunk)?;
        Ok(Caller {
            inbox: Inbox::new(alloc),
            replies: Replies::new(alloc, own),
            requests,
        })
    }

    // Reads all whole messages that are left, up to the first that decides.
    fn read_on(&mut self) -> Result<(), Memory>
        ensures got { self.new.inbox.got ≡ self.old.inbox.got }
        ensures same { (self.new.requests ≡ self.old.requests) × (self.new.replies.own ≡ self.old.replies.own) }
        ensures version { (v : ℕ) → self.old.replies.version ≡ Some v → self.new.replies.version ≡ Some v }
        ensures read { IsReading self.old → OnOk result (HasRead self.new) }
        ensures bytes { IsByBytes self.old.replies.outcome → IsByBytes self.new.replies.outcome }
    {
        loop {
            if !self.read_one()? {
                return Ok(());
            }
        }
    }

    // Reads the next message, and returns whether another may follow.
    fn read_one(&mut self) -> Result<bool, Memory>
        ensures got { self.new.inbox.got ≡ self.old.inbox.got }
        ensures same { (self.new.requests ≡ self.old.requests) × (self.new.replies.own ≡ self.old.replies.own) }
        ensures version { (v : ℕ) → self.old.replies.version ≡ Some v → self.new.replies.version ≡ Some v }
        ensures at { self.old.inbox.read < 2 ^ 64 }
        ensures nearer { result ≡ Ok true → (self.old.inbox.read < self.new.inbox.read) × (self.new.inbox.read ≤ length self.old.inbox.got) }
        ensures step { IfOk result (λ more. ReadsReply self.old self.new more) }
        ensures bytes { IsByBytes self.old.replies.outcome → IsByBytes self.new.replies.outcome }
    {
        let at = self.inbox.read();
        match self.inbox.front() {
            Ok(None) => Ok(false),
            Ok(Some(body)) => {
                let len = body.message_len();
                self.replies.hear(body, at as u64)?;
                self.inbox.pass(len);
                Ok(self.replies.outcome().is_none())
            }
            Err(fault) => {
                self.replies.fail(SessionFault::Frame(fault));
                Ok(false)
            }
        }
    }

    /// Returns the output that came before the message that decided.
    pub fn stdout(&self) -> &[u8]
        ensures is { result.now ≡ self.now.replies.stdout }
        ensures sees { (sent : List ℕ) → CallerStandsFor self.now sent → result.now ≡ (caller_sees self.now.inbox.got).stdout }
    {
        self.replies.stdout()
    }

    /// Returns the error output that came before the message that decided.
    pub fn stderr(&self) -> &[u8]
        ensures is { result.now ≡ self.now.replies.stderr }
        ensures sees { (sent : List ℕ) → CallerStandsFor self.now sent → result.now ≡ (caller_sees self.now.inbox.got).stderr }
    {
        self.replies.stderr()
    }

    /// Returns what is left of a caller that is done with, without a copy.
    pub fn into_parts(self) -> CallerParts
        ensures outputs { (result.stdout.items ≡ self.replies.stdout) × (result.stderr.items ≡ self.replies.stderr) }
        ensures got { result.got.items ≡ self.inbox.got }
    {
        let Caller { inbox, replies, .. } = self;
        let (stdout, stderr) = replies.into_outputs();
        CallerParts {
            stdout,
            stderr,
            got: inbox.into_got(),
        }
    }
}

impl Half for Caller {
    ghost use Rattle.std.specs.Borrow.{sem};
    ghost use Rattle.std.specs.Io.BufRead.{Rests};
    ghost use Rattle.qrexec_data.specs.contracts.caller.Caller.{the_row};
    ghost use Rattle.qrexec_data.specs.Reading.{IsByBytes};
    ghost use Rattle.qrexec_data.specs.Half.{IsSameHalf, Lends};
    ghost use Rattle.qrexec_data.specs.CallerSide.{CallerStandsFor, IsStill, caller_half};

    ghost half = { caller_half };

    fn take(&mut self, piece: &[u8]) -> Result<(), Memory>
        ensures over { IsSome self.old.replies.outcome → IsOk result × (self.new ≡ self.old) }
        ensures got { self.old.replies.outcome ≡ None → OnOk result (self.new.inbox.got ≡ self.old.inbox.got ++ piece.now) }
        ensures no_memory { OnErr result (self.new.inbox.got ≡ self.old.inbox.got) }
        ensures same { IsSameHalf caller_half self.old self.new }
        ensures kept { self.new.requests ≡ self.old.requests }
        ensures stands { (owed : caller_half.Owed) (sent : List ℕ) → CallerStandsFor self.old sent → OnOk result (CallerStandsFor self.new sent) }
        ensures bytes { IsByBytes self.old.replies.outcome → IsByBytes self.new.replies.outcome }
    {
        if self.replies.outcome().is_some() {
            return Ok(());
        }
        let before = self.inbox.got().len();
        self.inbox.take(piece)?;
        match self.read_on() {
            Ok(()) => Ok(()),
            Err(refused) => {
                self.inbox.cut(before);
                Err(refused)
            }
        }
    }

    /// There are no bytes if and only if there is an outcome, the whole stream has gone, or the
    /// greeting has gone and the other side's hasn't been read yet.
    fn front(&mut self) -> Result<&[u8], Memory>
        ensures* after { sem 𝓛 (Rests the_row self.entry (λ new. IfOk result (λ piece. Lends caller_half self.old new piece.now))) }
        ensures nothing { IfOk result (λ piece. (piece.now ≡ []) ↔ IsStill self.old) }
    {
        if self.replies.outcome().is_some() {
            return Ok(&[]);
        }
        let version = self.replies.version();
        self.requests.pack(version)?;
        Ok(self.requests.waiting())
    }

    fn advance(&mut self, count: usize) {
        self.requests.advance(count);
    }

    fn closed(&mut self) {
        self.replies.end(Outcome::Closed);
    }

    fn gone(&mut self) {
        self.replies.end(Outcome::Gone);
    }

    fn outcome(&self) -> Option<Outcome> {
        self.replies.outcome()
    }

    fn got(&self) -> &[u8] {
        self.inbox.got()
    }
}

/// The bytes that a caller has when it is done with.
#[derive(Debug, Drop)]
pub struct CallerParts {
    /// The output that came before the message that decided.
    pub stdout: Vec<u8>,
    /// The error output that came before the message that decided.
    pub stderr: Vec<u8>,
    /// All bytes that came while there was no outcome.
    pub got: Vec<u8>,
}
