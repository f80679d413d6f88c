ghost use Rattle.std.specs.Prelude.{◌≡◌, ◌≤◌, true, false, length, IfOk};
ghost use Rattle.qrexec_frame.specs.Fronts.{made};
ghost use Rattle.qrexec_frame.specs.Kinds.{least_len};
ghost use Rattle.qrexec_hello.specs.Greeting.{greet, greeting};

use qrexec_frame::{Body, Kind, Message};
use std::marker::Model;

/// The lowest version that is supported.
const LOWEST: u32 = 2;

/// One side's greeting: its own version, 2 or 3, and whether it still waits for the other side's.
#[derive(Debug, Drop)]
pub struct Hello {
    own: u32,
    waiting: bool,
}

impl Model for Hello {
    ghost use Rattle.std.specs.Prelude.{◌≤◌};
    ghost use Rattle.qrexec_hello.specs.Side.{GreetingSide};

    ghost Value = { GreetingSide };

    ghost view = { λ h. record { own = h.own; waiting = h.waiting } };

    ghost invariant = { λ h. (2 ≤ h.own) × (h.own ≤ 3) };
}

/// Why the other side's greeting was refused.
#[derive(Clone, Copy, Debug, PartialEq, Eq)]
pub enum HelloFault {
    /// Its first message isn't a `MSG_HELLO`, but one of this type.
    NotHello { kind: u32 },
    /// Its version is below 2.
    Version { got: u32 },
}

impl Hello {
    /// Returns a side with this version, 2 or 3, that hasn't taken a greeting yet.
    pub fn start(own: u32) -> Hello
        requires { (2 ≤ own) × (own ≤ 3) }
        ensures { result ≡ record { own = own; waiting = true } }
    {
        Hello { own, waiting: true }
    }

    /// Returns the greeting with this version, 2 or 3.
    pub fn announce(own: u32) -> Message
        requires { (2 ≤ own) × (own ≤ 3) }
        ensures { result ≡ Message.Hello own }
    {
        Message::Hello { version: own }
    }

    /// Returns whether the other side's greeting hasn't been taken yet.
    pub fn waiting(&self) -> bool
        ensures { result ≡ self.now.waiting }
    {
        self.waiting
    }

    /// Takes the other side's first message, and returns the version that both go on with: the
    /// lower of the two, 2 or 3. It may be called only once, which `waiting` tests.
    ///
    /// # Errors
    ///
    /// `NotHello` if and only if the message isn't a `MSG_HELLO`; `Version` if and only if its
    /// version is below 2.
    pub fn took(&mut self, message: &Message) -> Result<u32, HelloFault>
        requires { self.old.waiting ≡ true }
        ensures greeting { result ≡ greeting self.old.own message.now }
        ensures spoken { IfOk result (λ version. (2 ≤ version) × (version ≤ 3)) }
        ensures spent { self.new ≡ record self.old { waiting = false } }
    {
        self.waiting = false;
        match message {
            Message::Hello { version } => self.answer(*version),
            _ => Err(HelloFault::NotHello {
                kind: message.kind(),
            }),
        }
    }

    /// Takes the other side's first message as `took` does, but borrowed.
    ///
    /// # Errors
    ///
    /// Those of `took`.
    pub fn took_body(&mut self, body: Body<'_>) -> Result<u32, HelloFault>
        requires waiting { self.old.waiting ≡ true }
        requires whole { least_len body.kind ≤ length body.bytes.now }
        ensures greeting { result ≡ greeting self.old.own (made body.entry.kind body.entry.bytes.now) }
        ensures spoken { IfOk result (λ version. (2 ≤ version) × (version ≤ 3)) }
        ensures spent { self.new ≡ record self.old { waiting = false } }
    {
        self.waiting = false;
        match body.kind {
            Kind::Hello => self.answer(body.number()),
            kind => Err(HelloFault::NotHello {
                kind: kind.number(),
            }),
        }
    }

    /// Returns the version that both go on with, if the other side has this one.
    fn answer(&self, version: u32) -> Result<u32, HelloFault>
        ensures greet { result ≡ greet self.now.own version }
        ensures spoken { IfOk result (λ version. (2 ≤ version) × (version ≤ 3)) }
    {
        if version < LOWEST {
            return Err(HelloFault::Version { got: version });
        }
        Ok(self.own.min(version))
    }
}
