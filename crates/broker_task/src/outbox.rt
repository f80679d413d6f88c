//! The outbox of a domain, and the messages in it.
ghost use Rattle.std.specs.Prelude.{◌≡◌, ◌<◌, ◌≤◌, ◌↔◌, IsTrue, ◌++◌, ◌∷◌, [], false, true, map, length, OnOk, IfSome, Some, None};
ghost use Rattle.std.specs.List.{remove};
ghost use Rattle.broker_task.specs.Letters.{IsAt, AreHeld, IsFirstReady, released, connects, is_meant};
ghost use Rattle.broker_task.specs.declared.outbox.Letter.{Letter as Put};

use qrexec_frame::Message;
use std::alloc::Global;
use std::collections::VecDeque;
use vchan_io::Memory;

/// The number of messages that fill an outbox. While an outbox has that many, its domain isn't read.
const FULL: usize = 64;

/// A message that waits for room on a control channel.
#[derive(Drop)]
pub(crate) struct Letter {
    pub(crate) message: Message,
    // Whether it waits for another message to be sent first.
    pub(crate) held: bool,
}

/// The messages that wait to be sent to a domain, in the order in which they were put there. A message that
/// is held lets those after it pass.
#[derive(Drop)]
pub(crate) struct Outbox {
    letters: VecDeque<Letter>,
}

impl Outbox {
    pub(crate) fn new(alloc: Global) -> Outbox
        ensures { result.letters.items ≡ [] }
    {
        Outbox {
            letters: VecDeque::new(alloc),
        }
    }

    pub(crate) fn is_empty(&self) -> bool
        ensures { IsTrue result ↔ (self.now.letters.items ≡ []) }
    {
        self.letters.is_empty()
    }

    /// Returns whether as many messages wait as keep the domain from being read.
    pub(crate) fn is_full(&self) -> bool
        ensures { IsTrue result ↔ FULL ≤ length self.now.letters.items }
    {
        self.letters.len() >= FULL
    }

    /// Puts a message after the others. It may be sent now, or is held.
    pub(crate) fn put(&mut self, message: Message, held: bool) -> Result<(), Memory>
        ensures { OnOk result (self.new.letters.items ≡ self.old.letters.items ++ record { message = message; held = held } ∷ []) }
    {
        self.letters.push_back(Letter { message, held })?;
        Ok(())
    }

    /// Lets the Connect of the call to this target at this port be sent.
    pub(crate) fn release_call(&mut self, target: u32, port: u32)
        ensures { self.new.letters.items ≡ map (released target (Some port)) self.old.letters.items }
    {
        release(self.letters.make_contiguous(), target, Some(port));
    }

    /// Lets the Connects of all calls to this target be sent.
    pub(crate) fn release_target(&mut self, target: u32)
        ensures { self.new.letters.items ≡ map (released target None) self.old.letters.items }
    {
        release(self.letters.make_contiguous(), target, None);
    }

    /// Returns the place of the first message that isn't held, or `None` if all are held.
    pub(crate) fn first_ready(&self) -> Option<usize>
        ensures none { (result ≡ None) ↔ AreHeld self.now.letters.items }
        ensures first { IfSome result (λ at. IsFirstReady self.now.letters.items at) }
    {
        for at in 0..self.letters.len() {
            if !self.letters[at].held {
                return Some(at);
            }
        }
        None
    }

    /// Returns the message at a place.
    pub(crate) fn message(&self, at: usize) -> &Message
        requires { at < length self.now.letters.items }
        ensures { (l : Put) → IsAt self.now.letters.items at l → result.now ≡ l.message }
    {
        &self.letters[at].message
    }

    /// Removes the message at a place and returns it.
    pub(crate) fn take(&mut self, at: usize) -> Message
        requires { at < length self.old.letters.items }
        ensures message { (l : Put) → IsAt self.old.letters.items at l → result ≡ l.message }
        ensures rest { self.new.letters.items ≡ remove self.old.letters.items at }
    {
        match self.letters.remove(at) {
            Some(letter) => letter.message,
            None => unreachable!(),
        }
    }

    /// Gives up all messages.
    pub(crate) fn clear(&mut self)
        ensures { self.new.letters.items ≡ [] }
    {
        self.letters.clear();
    }
}

// Lets the Connects to a target be sent, at this port or at any.
fn release(letters: &mut [Letter], target: u32, meant: Option<u32>)
    ensures { letters.new ≡ map (released target meant) letters.old }
{
    for letter in letters.iter_mut() {
        if connects(&letter.message, target, meant) {
            letter.held = false;
        }
    }
}

// Whether a message is the Connect of a call to this target, at this port or at any.
fn connects(message: &Message, target: u32, meant: Option<u32>) -> bool
    ensures { result ≡ connects target meant message.now }
{
    match message {
        Message::Connect { domain, port, .. } => *domain == target && is_meant(meant, *port),
        _ => false,
    }
}

fn is_meant(meant: Option<u32>, port: u32) -> bool
    ensures { result ≡ is_meant meant port }
{
    match meant {
        Some(meant) => port == meant,
        None => true,
    }
}
