//! What a caller reads.
ghost use Rattle.std.specs.Prelude.{◌≡◌, ◌≤◌, ℕ, Some, length, OnOk};
ghost use Rattle.std.specs.Option.{option_or};
ghost use Rattle.qrexec_frame.specs.Fronts.{made};
ghost use Rattle.qrexec_frame.specs.Kinds.{least_len};
ghost use Rattle.qrexec_data.specs.Replies.{no_replies, after_message, after_greeting, after_piece, faulted};
ghost use Rattle.qrexec_data.specs.Pieces.{Out, Err};
ghost use Rattle.qrexec_data.specs.Reading.{IsByBytes};
ghost use Rattle.qrexec_hello.specs.Greeting.{greeting};
ghost use Rattle.qrexec_data.specs.declared.outcome.SessionFault.TheVariants as fault;

use crate::outcome::{Outcome, SessionFault};
use qrexec_frame::{Body, Kind};
use qrexec_hello::Hello;
use std::alloc::Global;
use std::marker::Model;
use vchan_io::Memory;

/// What a caller keeps of the messages that it has read.
#[derive(Debug, Drop)]
pub(crate) struct Replies {
    own: u32,
    version: Option<u32>,
    stdout: Vec<u8>,
    stdout_ended: bool,
    stderr: Vec<u8>,
    stderr_ended: bool,
    outcome: Option<Outcome>,
}

impl Model for Replies {
    ghost use Rattle.std.specs.Prelude.{◌≤◌};
    ghost use Rattle.qrexec_data.specs.Replies.{RepliesState};

    ghost Value = { RepliesState };

    ghost view = { λ r. record {
      own = r.own;
      version = r.version;
      stdout = r.stdout.items;
      stdout_ended = r.stdout_ended;
      stderr = r.stderr.items;
      stderr_ended = r.stderr_ended;
      outcome = r.outcome;
    } };

    ghost invariant = { λ r. (2 ≤ r.own) × (r.own ≤ 3) };
}

impl Replies {
    /// Returns a caller of this version, 2 or 3, that has read nothing yet.
    pub(crate) fn new(alloc: Global, own: u32) -> Replies
        requires { (2 ≤ own) × (own ≤ 3) }
        ensures { result ≡ no_replies own }
    {
        Replies {
            own,
            version: None,
            stdout: Vec::new(alloc),
            stdout_ended: false,
            stderr: Vec::new(alloc),
            stderr_ended: false,
            outcome: None,
        }
    }

    /// Reads the message that begins at this offset.
    pub(crate) fn hear(&mut self, body: Body<'_>, at: u64) -> Result<(), Memory>
        requires { least_len body.kind ≤ length body.bytes.now }
        ensures ok { OnOk result (self.new ≡ after_message (made body.entry.kind body.entry.bytes.now) at self.old) }
        ensures own { self.new.own ≡ self.old.own }
        ensures version { (v : ℕ) → self.old.version ≡ Some v → self.new.version ≡ Some v }
        ensures bytes { IsByBytes self.old.outcome → IsByBytes self.new.outcome }
    {
        if self.version.is_none() {
            self.greet(body);
            return Ok(());
        }
        match body.kind {
            Kind::Stdout => self.hear_stdout(body.bytes, at),
            Kind::Stderr => self.hear_stderr(body.bytes, at),
            Kind::ExitCode => {
                let code = body.number().cast_signed();
                self.outcome = Some(Outcome::Done { code });
                Ok(())
            }
            kind => {
                let kind = kind.number();
                self.fail(SessionFault::WrongSide { at, kind });
                Ok(())
            }
        }
    }

    // Reads the first message, which must be a greeting.
    fn greet(&mut self, body: Body<'_>)
        requires { least_len body.kind ≤ length body.bytes.now }
        ensures after { self.new ≡ after_greeting (greeting self.old.own (made body.entry.kind body.entry.bytes.now)) self.old }
        ensures own { self.new.own ≡ self.old.own }
        ensures bytes { IsByBytes self.old.outcome → IsByBytes self.new.outcome }
    {
        let mut hello = Hello::start(self.own);
        match hello.took_body(body) {
            Ok(version) => self.version = Some(version),
            Err(fault) => self.outcome = Some(Outcome::Fault(SessionFault::Hello(fault))),
        }
    }

    fn hear_stdout(&mut self, bytes: &[u8], at: u64) -> Result<(), Memory>
        ensures ok { OnOk result (self.new ≡ after_piece Out bytes.now at 401 self.old) }
        ensures same { (self.new.own ≡ self.old.own) × (self.new.version ≡ self.old.version) }
        ensures bytes { IsByBytes self.old.outcome → IsByBytes self.new.outcome }
    {
        if self.stdout_ended {
            let kind = Kind::Stdout.number();
            self.fail(SessionFault::AfterEnd { at, kind });
            return Ok(());
        }
        self.stdout.extend_from_slice(bytes)?;
        self.stdout_ended = bytes.is_empty();
        Ok(())
    }

    fn hear_stderr(&mut self, bytes: &[u8], at: u64) -> Result<(), Memory>
        ensures ok { OnOk result (self.new ≡ after_piece Err bytes.now at 402 self.old) }
        ensures same { (self.new.own ≡ self.old.own) × (self.new.version ≡ self.old.version) }
        ensures bytes { IsByBytes self.old.outcome → IsByBytes self.new.outcome }
    {
        if self.stderr_ended {
            let kind = Kind::Stderr.number();
            self.fail(SessionFault::AfterEnd { at, kind });
            return Ok(());
        }
        self.stderr.extend_from_slice(bytes)?;
        self.stderr_ended = bytes.is_empty();
        Ok(())
    }

    /// Ends the call, because the bytes got are wrong.
    pub(crate) fn fail(&mut self, fault: SessionFault)
        ensures { self.new ≡ faulted fault self.old }
    {
        self.outcome = Some(Outcome::Fault(fault));
    }

    /// Sets the outcome of the call, if it has none yet.
    pub(crate) fn end(&mut self, outcome: Outcome)
        ensures { self.new ≡ record self.old { outcome = option_or self.old.outcome (Some outcome) } }
    {
        if self.outcome.is_none() {
            self.outcome = Some(outcome);
        }
    }

    pub(crate) fn version(&self) -> Option<u32>
        ensures { result ≡ self.now.version }
    {
        self.version
    }

    pub(crate) fn outcome(&self) -> Option<Outcome>
        ensures { result ≡ self.now.outcome }
    {
        self.outcome
    }

    pub(crate) fn stdout(&self) -> &[u8]
        ensures { result.now ≡ self.now.stdout }
    {
        &self.stdout
    }

    pub(crate) fn stderr(&self) -> &[u8]
        ensures { result.now ≡ self.now.stderr }
    {
        &self.stderr
    }

    /// Returns the two outputs.
    pub(crate) fn into_outputs(self) -> (Vec<u8>, Vec<u8>)
        ensures { (result.0.items ≡ self.stdout) × (result.1.items ≡ self.stderr) }
    {
        let Replies { stdout, stderr, .. } = self;
        (stdout, stderr)
    }
}
