//! A control port.
ghost use Rattle.std.specs.Prelude.{◌≡◌, ◌↔◌, ◌≤◌, ◌<◌, ◌++◌, ◌∷◌, [], ℕ, List, true, false, None, Some, Ok, OnOk, OnErr, IfOk, IfSome, IsSome, IsTrue, Result, is_ok, length};
ghost use Rattle.qrexec_frame.specs.Messages.{written, IsSpellable as Fits};
ghost use Rattle.qrexec_frame.specs.declared.message.Message.{Message as Said};
ghost use Rattle.ring_words.specs.declared.page.Role.TheVariants.{Client};
ghost use Rattle.vchan_protocol.specs.declared.call.EndState.TheVariants.{Fresh};
ghost use Rattle.vchan_lifecycle.specs.declared.BadOrders.{BadOrders as OtherOrders};
ghost use Rattle.vchan_lifecycle.specs.Lifecycle.{connect_told, connected_to, drained_to, drain_told, retired_view};
ghost use Rattle.vchan_rule.specs.Called.{most_asked};
ghost use Rattle.vchan_notify.specs.Notify.{asked_gone, HasFoundGone};
ghost use Rattle.vchan_packet.specs.Packet.{send_told, sent_to};
ghost use Rattle.vchan_packet.specs.declared.SendAnswer.TheVariants as answer;
ghost use Rattle.vchan_protocol.specs.declared.call.Answer.TheVariants.{Gone, Space};
ghost use Rattle.vchan_protocol.specs.declared.call.Call.TheVariants.{Connect, Drain, PeerGone, BufferSpace, Send};
ghost use Rattle.vchan_protocol.specs.Table.Calls.{Trace};
ghost use Rattle.vchan_protocol.specs.Answering.Causes.{Cause, ConnectCause, DrainCause, SendCause};
ghost use Rattle.vchan_protocol.specs.History.Core.{standing_of};
ghost use Rattle.vchan_protocol.specs.Answering.Loads.{loads_of};
ghost use Rattle.end_view.specs.AfterCall.{DrainSees};
ghost use Rattle.vchan_rule.specs.Seated.{view, last_view, IsOpen};
ghost use Rattle.vchan_rule.specs.Ends.{IsSameEnd};
ghost use Rattle.control_port.specs.Talking.{may_say, may_hear};
ghost use Rattle.control_port.specs.Port.{HasSaid, HasSaidMore, HasHeard, Hands, Greets, Takes, HasFewerLeft, OnlyHears, OnlySends};

use crate::moves::Moves;
use crate::talk::Talker;
use qrexec_data::SessionFault;
use qrexec_frame::{Channel, Decoder, Message, NextError, encode};
use qrexec_hello::Hello;
use std::alloc::Global;
use std::marker::Model;
use vchan_core::{Call, EndState};
use vchan_io::Memory;
use vchan_lifecycle::{BadOrders, DrainAnswer, connect, drain, retire};
use vchan_notify::{buffer_space, peer_gone};
use vchan_packet::{SendAnswer, send};
use vchan_rule::{End, Retired};

/// One side's end of a control channel, with the bytes that it has read and not handed out.
#[derive(Drop)]
pub struct ControlPort<'p> {
    end: End<'p>,
    talker: Talker,
    own: u32,
    greeted: bool,
    decoder: Decoder,
    version: Option<u32>,
    fault: Option<SessionFault>,
    // The spelling of the last message, kept so that its memory is used again.
    spelling: Vec<u8>,
    moves: Moves,
}

impl<'p> Model for ControlPort<'p> {
    ghost use Rattle.std.specs.Prelude.{◌≤◌};
    ghost use Rattle.control_port.specs.Port.{PortState};

    ghost Value = { PortState };

    ghost view = { λ p. record { end = p.end; talker = p.talker; own = p.own; greeted = p.greeted; decoder = p.decoder; version = p.version; fault = p.fault } };

    ghost invariant = { λ p. (2 ≤ p.own) × (p.own ≤ 3) };
}

impl<'p> ControlPort<'p> {
    /// Makes the port of a side with this version, 2 or 3, over an end that has moved nothing.
    pub fn new(alloc: Global, end: End<'p>, talker: Talker, own: u32) -> ControlPort<'p>
        requires own { (2 ≤ own) × (own ≤ 3) }
        requires unused { ((view end).sent ≡ []) × ((view end).got ≡ []) }
        ensures same { (result.end ≡ end.entry) × (result.talker ≡ talker) × (result.own ≡ own) }
        ensures new { (result.greeted ≡ false) × (result.version ≡ None) × (result.fault ≡ None) }
        ensures said { HasSaid result [] }
        ensures heard { HasHeard result [] }
    {
        ControlPort {
            end,
            talker,
            own,
            greeted: false,
            decoder: Decoder::new(alloc, Channel::Control),
            version: None,
            fault: None,
            spelling: Vec::new(alloc),
            moves: Moves::none(),
        }
    }

    /// Returns the version that both sides go on with, once the other side's greeting was read.
    pub fn version(&self) -> Option<u32>
        ensures { result ≡ self.now.version }
    {
        self.version
    }

    /// Returns what is wrong with the bytes that came, if something is.
    pub fn fault(&self) -> Option<SessionFault>
        ensures { result ≡ self.now.fault }
    {
        self.fault
    }

    /// Returns how often the port has moved something: a connect, bytes, the end. No contract relies on it. A
    /// task none of whose ports moved has nothing to do until another task's port has moved.
    pub fn moves(&self) -> u64 {
        self.moves.count()
    }

    /// Returns whether its own greeting was sent.
    pub fn greeted(&self) -> bool
        ensures { result ≡ self.now.greeted }
    {
        self.greeted
    }

    /// Connects the end of a client, which is open afterwards. Returns the error if and only if the two order
    /// words that it loaded aren't the page's orders; the client then stays fresh.
    pub fn connect(&mut self) -> Result<(), BadOrders>
        requires idle { (view self.old.end).idle ≡ true }
        requires fresh { (view self.old.end).state ≡ Fresh }
        requires client { (view self.old.end).role ≡ Client }
        ensures end { IsSameEnd self.old.end self.new.end }
        ensures view { view self.new.end ≡ connected_to (view self.old.end) (is_ok result) }
        ensures trail { Trace (standing_of self.old.end.side) Connect self.new.end.side.trail (connect_told result) }
        ensures cause { (other : Result (Unit {0}) OtherOrders) → (result ≡ other) ↔ ConnectCause (standing_of self.old.end.side) (loads_of (standing_of self.old.end.side) self.new.end.side.trail) (connect_told other) }
        ensures said { (said : List Said) → HasSaid self.old said → HasSaid self.new said }
        ensures heard { (heard : List Said) → HasHeard self.old heard → HasHeard self.new heard }
        ensures same { OnlySends self.old self.new }
    {
        self.moves.note(true);
        connect(&mut self.end)
    }

    /// Returns whether the other side is gone; the end has found it gone if and only if the answer is yes.
    /// It takes none of the bytes that have come.
    pub fn peer_gone(&mut self) -> bool
        requires open { IsOpen self.old.end }
        ensures end { IsSameEnd self.old.end self.new.end }
        ensures open { IsOpen self.new.end }
        ensures view { view self.new.end ≡ asked_gone (view self.old.end) result }
        ensures trail { Trace (standing_of self.old.end.side) PeerGone self.new.end.side.trail (Gone result) }
        ensures cause { Cause (standing_of self.old.end.side) PeerGone (loads_of (standing_of self.old.end.side) self.new.end.side.trail) (Gone result) }
        ensures noted { IsTrue result ↔ HasFoundGone self.new.end.side }
        ensures said { (said : List Said) → HasSaid self.old said → HasSaid self.new said }
        ensures heard { (heard : List Said) → HasHeard self.old heard → HasHeard self.new heard }
        ensures same { OnlySends self.old self.new }
    {
        peer_gone(&mut self.end)
    }

    /// Returns how many bytes there is room to send now. It asks for a signal when there is more room.
    pub fn room(&mut self) -> u32
        requires open { IsOpen self.old.end }
        ensures end { IsSameEnd self.old.end self.new.end }
        ensures open { IsOpen self.new.end }
        ensures view { view self.new.end ≡ view self.old.end }
        ensures trail { Trace (standing_of self.old.end.side) BufferSpace self.new.end.side.trail (Space result) }
        ensures cause { Cause (standing_of self.old.end.side) BufferSpace (loads_of (standing_of self.old.end.side) self.new.end.side.trail) (Space result) }
        ensures said { (said : List Said) → HasSaid self.old said → HasSaid self.new said }
        ensures heard { (heard : List Said) → HasHeard self.old heard → HasHeard self.new heard }
        ensures same { OnlySends self.old self.new }
    {
        buffer_space(&mut self.end)
    }

    /// Sends its own greeting, which is the first message. The greeting was sent if the answer is `Sent`.
    /// Each answer comes if and only if its cause is in what the call's events loaded. Returns `Memory` if
    /// memory runs out; nothing was changed then.
    #[inline(never)]
    pub fn greet(&mut self) -> Result<SendAnswer, Memory>
        requires open { IsOpen self.old.end }
        requires first { self.old.greeted ≡ false }
        ensures end { IsSameEnd self.old.end self.new.end }
        ensures open { IsOpen self.new.end }
        ensures greeted { IfOk result (λ sent. (sent ≡ answer.Sent → self.new.greeted ≡ true) × ((sent ≡ answer.Sent → ⊥) → self.new.greeted ≡ false)) }
        ensures view { IfOk result (λ sent. view self.new.end ≡ sent_to (view self.old.end) sent (written (Said.Hello self.old.own))) }
        ensures trail { IfOk result (λ sent. Trace (standing_of self.old.end.side) (Send (most_asked (written (Said.Hello self.old.own)))) self.new.end.side.trail (send_told (most_asked (written (Said.Hello self.old.own))) sent)) }
        ensures cause { IfOk result (λ sent. (other : SendAnswer) → (sent ≡ other) ↔ SendCause (standing_of self.old.end.side) (most_asked (written (Said.Hello self.old.own))) (loads_of (standing_of self.old.end.side) self.new.end.side.trail) (send_told (most_asked (written (Said.Hello self.old.own))) other)) }
        ensures kept { OnErr result (self.new ≡ self.old) }
        ensures said { (said : List Said) → HasSaid self.old said → HasSaid self.new said }
        ensures heard { (heard : List Said) → HasHeard self.old heard → HasHeard self.new heard }
        ensures same { (self.new.talker ≡ self.old.talker) × (self.new.own ≡ self.old.own) × (self.new.version ≡ self.old.version) × (self.new.fault ≡ self.old.fault) }
    {
        let hello = Hello::announce(self.own);
        let put = self.put(&hello);
        // In a call: dropped here, each kind of message would be an exit of its own in the proof.
        drop(hello);
        let answer = put?;
        if answer == SendAnswer::Sent {
            self.greeted = true;
        }
        Ok(answer)
    }

    /// Sends a message that this side may send, as one packet. The message was sent if the answer is `Sent`.
    /// Each answer comes if and only if its cause is in what the call's events loaded. Returns `Memory` if
    /// memory runs out; nothing was changed then.
    pub fn say(&mut self, message: &Message) -> Result<SendAnswer, Memory>
        requires open { IsOpen self.old.end }
        requires greeted { self.old.greeted ≡ true }
        requires fits { Fits message.now }
        requires may { may_say self.old.talker message.now ≡ true }
        ensures end { IsSameEnd self.old.end self.new.end }
        ensures open { IsOpen self.new.end }
        ensures said { (said : List Said) → HasSaid self.old said → IfOk result (λ sent. HasSaidMore self.new said message.now sent) }
        ensures view { IfOk result (λ sent. view self.new.end ≡ sent_to (view self.old.end) sent (written message.now)) }
        ensures trail { IfOk result (λ sent. Trace (standing_of self.old.end.side) (Send (most_asked (written message.now))) self.new.end.side.trail (send_told (most_asked (written message.now)) sent)) }
        ensures cause { IfOk result (λ sent. (other : SendAnswer) → (sent ≡ other) ↔ SendCause (standing_of self.old.end.side) (most_asked (written message.now)) (loads_of (standing_of self.old.end.side) self.new.end.side.trail) (send_told (most_asked (written message.now)) other)) }
        ensures kept { OnErr result (self.new ≡ self.old) }
        ensures heard { (heard : List Said) → HasHeard self.old heard → HasHeard self.new heard }
        ensures same { OnlySends self.old self.new }
    {
        self.put(message)
    }

    // Sends one message as one packet.
    fn put(&mut self, message: &Message) -> Result<SendAnswer, Memory>
        requires open { IsOpen self.old.end }
        requires fits { Fits message.now }
        ensures end { IsSameEnd self.old.end self.new.end }
        ensures open { IsOpen self.new.end }
        ensures view { IfOk result (λ sent. view self.new.end ≡ sent_to (view self.old.end) sent (written message.now)) }
        ensures trail { IfOk result (λ sent. Trace (standing_of self.old.end.side) (Send (most_asked (written message.now))) self.new.end.side.trail (send_told (most_asked (written message.now)) sent)) }
        ensures cause { IfOk result (λ sent. (other : SendAnswer) → (sent ≡ other) ↔ SendCause (standing_of self.old.end.side) (most_asked (written message.now)) (loads_of (standing_of self.old.end.side) self.new.end.side.trail) (send_told (most_asked (written message.now)) other)) }
        ensures kept { OnErr result (self.new ≡ self.old) }
        ensures got { (view self.new.end).got ≡ (view self.old.end).got }
        ensures same { OnlySends self.old self.new }
    {
        self.spelling.clear();
        encode(message, &mut self.spelling)?;
        let answer = send(&mut self.end, &self.spelling);
        self.moves.note(answer == SendAnswer::Sent);
        Ok(answer)
    }

    /// Takes what has come, or finds that no more will come. Each answer comes if and only if its cause is in
    /// what the call's events loaded. `next` hands out what was taken. Returns `Memory` if memory runs out;
    /// the end can still be retired then, and nothing is promised of the messages heard.
    pub fn drain(&mut self, buf: &mut [u8]) -> Result<DrainAnswer, Memory>
        requires open { IsOpen self.old.end }
        requires some { 0 < length buf.old }
        ensures end { IsSameEnd self.old.end self.new.end }
        ensures open { IsOpen self.new.end }
        ensures view { IfOk result (λ drained. view self.new.end ≡ drained_to (view self.old.end) drained buf.new self.new.end.side.saw) }
        ensures saw { IfOk result (λ drained. DrainSees (drain_told drained) self.old.end.side.saw self.new.end.side.saw) }
        ensures trail { IfOk result (λ drained. Trace (standing_of self.old.end.side) (Drain (most_asked buf.old)) self.new.end.side.trail (drain_told drained)) }
        ensures cause { IfOk result (λ drained. (other : DrainAnswer) → (drained ≡ other) ↔ DrainCause (standing_of self.old.end.side) (most_asked buf.old) (loads_of (standing_of self.old.end.side) self.new.end.side.trail) (drain_told other)) }
        ensures long { length buf.new ≡ length buf.old }
        ensures said { (said : List Said) → HasSaid self.old said → HasSaid self.new said }
        ensures heard { (heard : List Said) → HasHeard self.old heard → OnOk result (HasHeard self.new heard) }
        ensures same { (self.new.talker ≡ self.old.talker) × (self.new.own ≡ self.old.own) × (self.new.greeted ≡ self.old.greeted) × (self.new.version ≡ self.old.version) × (self.new.fault ≡ self.old.fault) }
    {
        match drain(&mut self.end, buf) {
            DrainAnswer::More { count } => {
                self.moves.note(true);
                self.decoder.feed(&buf[..count as usize])?;
                Ok(DrainAnswer::More { count })
            }
            DrainAnswer::NotYet { prod, cons } => Ok(DrainAnswer::NotYet { prod, cons }),
            DrainAnswer::AllRead => Ok(DrainAnswer::AllRead),
            DrainAnswer::PeerGone { prod, cons } => Ok(DrainAnswer::PeerGone { prod, cons }),
        }
    }

    /// Hands out the next message after the other side's greeting. Returns `None` if no whole message is left
    /// of what was taken, or if something is wrong with it; `fault` then tells what. The version stays once
    /// it is known. Returns `Memory` if memory runs out; the end can still be retired then, and nothing is
    /// promised of the messages heard.
    pub fn next(&mut self) -> Result<Option<Message>, Memory>
        requires fine { self.old.fault ≡ None }
        ensures hands { (heard : List Said) → HasHeard self.old heard → IfOk result (λ message. Hands self.new heard message) }
        ensures may { IfOk result (λ message. IfSome message (λ m. may_hear self.old.talker m ≡ true)) }
        ensures fits { IfOk result (λ message. IfSome message (λ m. Fits m)) }
        ensures fewer { IfOk result (λ message. IfSome message (λ m. HasFewerLeft self.old self.new)) }
        ensures version { IsSome self.old.version → self.new.version ≡ self.old.version }
        ensures only { OnlyHears self.old self.new }
    {
        if self.version.is_some() {
            return self.next_message();
        }
        if !self.take_greeting()? {
            return Ok(None);
        }
        self.next_message()
    }

    // Hands out the next message, once the greeting was taken.
    fn next_message(&mut self) -> Result<Option<Message>, Memory>
        requires fine { self.old.fault ≡ None }
        requires greeted { IsSome self.old.version }
        ensures hands { (heard : List Said) → HasHeard self.old heard → IfOk result (λ message. Hands self.new heard message) }
        ensures may { IfOk result (λ message. IfSome message (λ m. may_hear self.old.talker m ≡ true)) }
        ensures fits { IfOk result (λ message. IfSome message (λ m. Fits m)) }
        ensures fewer { IfOk result (λ message. IfSome message (λ m. HasFewerLeft self.old self.new)) }
        ensures version { self.new.version ≡ self.old.version }
        ensures only { OnlyHears self.old self.new }
    {
        let at = self.decoder.at();
        let message = match self.take()? {
            Some(message) => message,
            None => return Ok(None),
        };
        if self.talker.hears(&message) {
            return Ok(Some(message));
        }
        let kind = message.kind();
        // In a call, for the same reason as in `greet`.
        drop(message);
        self.fault = Some(SessionFault::WrongSide { at, kind });
        Ok(None)
    }

    // Takes the other side's greeting, which is its first message. Returns whether that message was a
    // greeting.
    #[inline(never)]
    fn take_greeting(&mut self) -> Result<bool, Memory>
        requires fine { self.old.fault ≡ None }
        requires first { self.old.version ≡ None }
        ensures greets { (heard : List Said) → HasHeard self.old heard → IfOk result (λ more. Greets self.new heard more) }
        ensures greeted { result ≡ Ok true → IsSome self.new.version × (self.new.fault ≡ None) }
        ensures fewer { result ≡ Ok true → HasFewerLeft self.old self.new }
        ensures only { OnlyHears self.old self.new }
    {
        let message = match self.take()? {
            Some(message) => message,
            None => return Ok(false),
        };
        let took = Hello::start(self.own).took(&message);
        // In a call, for the same reason as in `greet`.
        drop(message);
        match took {
            Ok(version) => {
                self.version = Some(version);
                Ok(true)
            }
            Err(fault) => {
                self.fault = Some(SessionFault::Hello(fault));
                Ok(false)
            }
        }
    }

    // Takes the next message of any type.
    fn take(&mut self) -> Result<Option<Message>, Memory>
        requires fine { self.old.fault ≡ None }
        ensures takes { (heard : List Said) → HasHeard self.old heard → IfOk result (λ message. Takes self.old self.new heard message) }
        ensures fine { (m : Said) → result ≡ Ok (Some m) → self.new.fault ≡ None }
        ensures fits { IfOk result (λ message. IfSome message (λ m. Fits m)) }
        ensures fewer { IfOk result (λ message. IfSome message (λ m. HasFewerLeft self.old self.new)) }
        ensures only { OnlyHears self.old self.new × (self.new.version ≡ self.old.version) }
    {
        match self.decoder.next() {
            Ok(message) => Ok(message),
            Err(NextError::Fault(fault)) => {
                self.fault = Some(SessionFault::Frame(fault));
                Ok(None)
            }
            Err(NextError::Memory) => Err(Memory),
        }
    }

    /// Returns where the end stands in its life.
    pub fn state(&self) -> EndState
        ensures { result ≡ (view self.now.end).state }
    {
        self.end.state()
    }

    /// Retires the end in its place, so that its peer learns of it now. What it has noted of its peer stays.
    /// `rest` gives the end back.
    pub fn hang_up(&mut self)
        requires idle { (view self.old.end).idle ≡ true }
        ensures end { IsSameEnd self.old.end self.new.end }
        ensures view { view self.new.end ≡ retired_view (view self.old.end) }
        ensures noted { self.new.end.side.notes ≡ self.old.end.side.notes }
        ensures said { (said : List Said) → HasSaid self.old said → HasSaid self.new said }
        ensures same { OnlySends self.old self.new }
    {
        self.moves.note(true);
        let _ = self.end.do_call(Call::Retire, &[], &mut []);
    }

    /// Gives back the end that was retired in its place.
    pub fn rest(self) -> Retired
        requires idle { (view self.end).idle ≡ true }
        requires retired { (view self.end).retired ≡ true }
        ensures end { last_view result ≡ view self.entry.end }
        ensures noted { result.side.notes ≡ self.entry.end.side.notes }
        ensures honest { (last_view result).turned ≡ false }
    {
        let ControlPort { end, .. } = self;
        end.rest()
    }

    /// Retires the end and gives it back.
    pub fn retire(self) -> Retired
        requires idle { (view self.end).idle ≡ true }
        ensures end { last_view result ≡ retired_view (view self.entry.end) }
        ensures honest { (last_view result).turned ≡ false }
    {
        let ControlPort { end, .. } = self;
        retire(end)
    }
}
