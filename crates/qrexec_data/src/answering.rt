//! What a side that serves reads and sends.
ghost use Rattle.std.specs.Prelude.{◌≡◌, ◌≤◌, ◌<◌, ◌+◌, ◌-◌, ◌++◌, ℕ, [], Some, None, IsSome, false, length, drop, take, min, OnOk, vec_len};
ghost use Rattle.std.specs.Option.{option_or};
ghost use Rattle.qrexec_frame.specs.Fronts.{made};
ghost use Rattle.qrexec_frame.specs.Kinds.{least_len, IsData};
ghost use Rattle.qrexec_frame.specs.Messages.{written};
ghost use Rattle.qrexec_frame.specs.declared.message.Message.TheVariants as message;
ghost use Rattle.qrexec_hello.specs.Greeting.{greeting};
ghost use Rattle.qrexec_data.specs.Reading.{IsByBytes};
ghost use Rattle.qrexec_data.specs.Answering.{AnswersTo, FeedsOn, EndsOn, after_greeting, faulted, packed_next, packed_on, end_bytes, over_if, after_gone};

use crate::outcome::{Outcome, SessionFault};
use crate::unsent::{Unsent, most};
use qrexec_frame::{Body, Kind};
use qrexec_hello::Hello;
use service_gate::Service;
use std::alloc::Global;
use std::marker::Model;
use vchan_io::Memory;

/// A service, the bytes that it gave and that no message carries yet, and the messages that wait to
/// go. A message is packed only if no other waits.
#[derive(Drop)]
pub(crate) struct Answering<S: Service> {
    own: u32,
    chunk: usize,
    version: Option<u32>,
    service: S,
    code: Option<i32>,
    out: Vec<u8>,
    out_packed: usize,
    err: Vec<u8>,
    err_packed: usize,
    closed: bool,
    waiting: Unsent,
    outcome: Option<Outcome>,
}

impl<S: Service> Model for Answering<S> {
    ghost use Rattle.std.specs.Prelude.{◌≤◌, ◌<◌, length, drop};
    ghost use Rattle.qrexec_data.specs.Answering.{AnsweringState};

    ghost Value = { AnsweringState S };

    ghost view = { λ a. record {
      own = a.own;
      chunk = a.chunk;
      version = a.version;
      service = a.service;
      code = a.code;
      out = drop a.out_packed a.out.items;
      err = drop a.err_packed a.err.items;
      closed = a.closed;
      waiting = a.waiting;
      outcome = a.outcome;
    } };

    ghost invariant = { λ a. (2 ≤ a.own) × (a.own ≤ 3) × (0 < a.chunk) × (a.chunk ≤ 65536) × (a.out_packed ≤ length a.out.items) × (a.err_packed ≤ length a.err.items) };
}

impl<S: Service> Answering<S> {
    /// Returns a side of this version, 2 or 3, that has read nothing yet.
    pub(crate) fn new(alloc: Global, service: S, own: u32, chunk: u32) -> Answering<S>
        requires own { (2 ≤ own) × (own ≤ 3) }
        requires chunk { (0 < chunk) × (chunk ≤ 65536) }
        ensures { result ≡ record { own = own; chunk = chunk; version = None; service = service; code = None; out = []; err = []; closed = false; waiting = []; outcome = None } }
    {
        Answering {
            own,
            chunk: chunk as usize,
            version: None,
            service,
            code: None,
            out: Vec::new(alloc),
            out_packed: 0,
            err: Vec::new(alloc),
            err_packed: 0,
            closed: false,
            waiting: Unsent::new(alloc),
            outcome: None,
        }
    }

    /// Reads the message that begins at this offset.
    pub(crate) fn hear(&mut self, body: Body<'_>, at: u64) -> Result<(), Memory>
        requires { least_len body.kind ≤ length body.bytes.now }
        ensures ok { OnOk result (AnswersTo S.owes (made body.entry.kind body.entry.bytes.now) at self.old self.new) }
        ensures same { (self.new.own ≡ self.old.own) × (self.new.chunk ≡ self.old.chunk) }
        ensures bytes { IsByBytes self.old.outcome → IsByBytes self.new.outcome }
    {
        if self.version.is_none() {
            return self.greet(body);
        }
        match body.kind {
            Kind::Stdin => self.hear_input(body.bytes, at),
            kind => {
                let kind = kind.number();
                self.fail(SessionFault::WrongSide { at, kind });
                Ok(())
            }
        }
    }

    // Reads the first message, which must be a greeting, and greets.
    fn greet(&mut self, body: Body<'_>) -> Result<(), Memory>
        requires { least_len body.kind ≤ length body.bytes.now }
        ensures ok { OnOk result (self.new ≡ after_greeting (greeting self.old.own (made body.entry.kind body.entry.bytes.now)) self.old) }
        ensures same { (self.new.own ≡ self.old.own) × (self.new.chunk ≡ self.old.chunk) }
        ensures bytes { IsByBytes self.old.outcome → IsByBytes self.new.outcome }
    {
        let mut hello = Hello::start(self.own);
        match hello.took_body(body) {
            Ok(version) => {
                self.waiting.put_greeting(self.own)?;
                self.version = Some(version);
                Ok(())
            }
            Err(fault) => {
                self.fail(SessionFault::Hello(fault));
                Ok(())
            }
        }
    }

    // Reads a message of the input.
    fn hear_input(&mut self, bytes: &[u8], at: u64) -> Result<(), Memory>
        requires { IsSome self.old.version }
        ensures ok { OnOk result (AnswersTo S.owes (message.Stdin bytes.now) at self.old self.new) }
        ensures same { (self.new.own ≡ self.old.own) × (self.new.chunk ≡ self.old.chunk) }
        ensures bytes { IsByBytes self.old.outcome → IsByBytes self.new.outcome }
    {
        if self.code.is_some() {
            let kind = Kind::Stdin.number();
            self.fail(SessionFault::AfterEnd { at, kind });
            return Ok(());
        }
        if bytes.is_empty() {
            self.end_input()
        } else {
            self.feed(bytes)
        }
    }

    fn feed(&mut self, bytes: &[u8]) -> Result<(), Memory>
        ensures ok { OnOk result (FeedsOn S.owes bytes.now self.old self.new) }
        ensures same { (self.new.own ≡ self.old.own) × (self.new.chunk ≡ self.old.chunk) }
        ensures bytes { IsByBytes self.old.outcome → IsByBytes self.new.outcome }
    {
        self.service.feed(bytes, &mut self.out, &mut self.err)
    }

    fn end_input(&mut self) -> Result<(), Memory>
        ensures ok { OnOk result (EndsOn S.owes self.old self.new) }
        ensures same { (self.new.own ≡ self.old.own) × (self.new.chunk ≡ self.old.chunk) }
        ensures bytes { IsByBytes self.old.outcome → IsByBytes self.new.outcome }
    {
        let code = self.service.end(&mut self.out, &mut self.err)?;
        self.code = Some(code);
        Ok(())
    }

    /// Ends the call, because the bytes got are wrong.
    pub(crate) fn fail(&mut self, fault: SessionFault)
        ensures { self.new ≡ faulted fault self.old }
    {
        self.outcome = Some(Outcome::Fault(fault));
    }

    /// Sets the outcome of the call, if it has none yet.
    pub(crate) fn end(&mut self, outcome: Outcome)
        ensures { self.new ≡ record self.old { outcome = option_or self.old.outcome (Some outcome) } }
    {
        if self.outcome.is_none() {
            self.outcome = Some(outcome);
        }
    }

    /// Lays the next message of what the service gave, if none waits.
    pub(crate) fn pack(&mut self) -> Result<(), Memory>
        ensures { OnOk result (self.new ≡ packed_on self.old.version self.old) }
    {
        match self.version {
            Some(version) if self.waiting.is_empty() => self.pack_next(version),
            _ => Ok(()),
        }
    }

    fn pack_next(&mut self, version: u32) -> Result<(), Memory>
        ensures { OnOk result (self.new ≡ packed_next version self.old) }
    {
        let limit = self.chunk.min(most(version));
        if self.out_packed < self.out.len() {
            let output = &mut self.out;
            return pack_output(
                &mut self.waiting,
                Kind::Stdout,
                output,
                &mut self.out_packed,
                limit,
            );
        }
        if self.err_packed < self.err.len() {
            let output = &mut self.err;
            return pack_output(
                &mut self.waiting,
                Kind::Stderr,
                output,
                &mut self.err_packed,
                limit,
            );
        }
        match self.code {
            Some(code) if !self.closed => {
                pack_end(&mut self.waiting, code)?;
                self.closed = true;
                Ok(())
            }
            _ => Ok(()),
        }
    }

    /// Drops the first `count` of the bytes that wait, which have gone. After the very last byte
    /// the call is done.
    pub(crate) fn advance(&mut self, count: usize)
        requires { count ≤ length self.old.waiting }
        ensures { self.new ≡ after_gone count self.old }
    {
        self.waiting.advance(count);
        self.end_if_over();
    }

    fn end_if_over(&mut self)
        ensures { self.new ≡ over_if self.old }
    {
        if self.closed && self.waiting.is_empty() && self.outcome.is_none() {
            if let Some(code) = self.code {
                self.outcome = Some(Outcome::Done { code });
            }
        }
    }

    /// Borrows the bytes that wait.
    pub(crate) fn waiting(&self) -> &[u8]
        ensures { result.now ≡ self.now.waiting }
    {
        self.waiting.waiting()
    }

    pub(crate) fn outcome(&self) -> Option<Outcome>
        ensures { result ≡ self.now.outcome }
    {
        self.outcome
    }
}

// Puts the next bytes of an output, at most as many as a message may carry, in a message after
// those that wait.
fn pack_output(
    waiting: &mut Unsent,
    kind: Kind,
    output: &mut Vec<u8>,
    packed: &mut usize,
    limit: usize,
) -> Result<(), Memory>
    requires kind { IsData kind }
    requires within { packed.old ≤ vec_len output.old }
    requires limit { limit ≤ 65536 }
    ensures waiting { OnOk result (waiting.new ≡ waiting.old ++ written (made kind (take (min limit (length (drop packed.old output.old.items))) (drop packed.old output.old.items)))) }
    ensures output { OnOk result (drop packed.new output.new.items ≡ drop (min limit (length (drop packed.old output.old.items))) (drop packed.old output.old.items)) }
    ensures within { packed.new ≤ vec_len output.new }
{
    let len = limit.min(output.len() - *packed);
    waiting.put_data(kind, &output[*packed..*packed + len])?;
    *packed += len;
    if *packed == output.len() {
        output.clear();
        *packed = 0;
    }
    Ok(())
}

// Puts the ends of both outputs and the exit code after the messages that wait.
fn pack_end(waiting: &mut Unsent, code: i32) -> Result<(), Memory>
    ensures { OnOk result (waiting.new ≡ waiting.old ++ end_bytes code) }
{
    waiting.put_data(Kind::Stdout, &[])?;
    waiting.put_data(Kind::Stderr, &[])?;
    waiting.put_code(code)
}
