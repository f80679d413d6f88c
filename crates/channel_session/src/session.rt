//! A side of a call with the end of its channel.
ghost use Rattle.std.specs.Prelude.{◌≡◌, ◌<◌, not, None, IsSome, OnOk, IfOk, true, false, length};
ghost use Rattle.vchan_rule.specs.Seated.{view, last_view, IsOpen};
ghost use Rattle.vchan_rule.specs.Ends.{IsSameEnd};
ghost use Rattle.qrexec_data.specs.Half.{IsSameHalf};
ghost use Rattle.channel_session.specs.Session.{IsAtWork, StandsOn, IsRetired, Turns, Reads, Writes, IsDueOrPasses};
ghost use Rattle.channel_session.specs.Turning.{first_pace, HasSeenShut, KeepsShut};

use crate::pause::{Pause, Turned};
use qrexec_data::{Half, Outcome};
use std::marker::Model;
use vchan_io::Memory;
use vchan_lifecycle::{DrainAnswer, drain, retire};
use vchan_notify::take_event;
use vchan_rule::{End, Retired};
use vchan_stream::{WriteAnswer, write};

/// A side of a call, with the end of its data channel.
#[derive(Drop)]
pub struct Session<'p, S: Half> {
    pub(crate) half: S,
    pub(crate) end: End<'p>,
    // Whether the peer was found shut; nothing more is written then.
    peer_shut: bool,
    pause: Pause,
}

impl<'p, S: Half> Model for Session<'p, S> {
    ghost use Rattle.channel_session.specs.Session.{SessionAt};
    ghost use Rattle.channel_session.specs.Turning.{HasSeenShut};

    ghost Value = { SessionAt S };

    ghost view = { λ s. record { half = s.half; end = s.end; pace = record { peer_shut = s.peer_shut; quiet = s.pause.quiet; passed = s.pause.passed } } };

    ghost invariant = { λ s. HasSeenShut s.peer_shut s.end };
}

impl<'p, S: Half> Session<'p, S> {
    /// Returns a session of this side, whose bytes come from this end and go there.
    pub fn new(half: S, end: End<'p>) -> Session<'p, S>
        requires work { IsAtWork S.half half end }
        ensures { (result.half ≡ half) × (result.end ≡ end.entry) × (result.pace ≡ first_pace) }
    {
        Session {
            half,
            end,
            peer_shut: false,
            pause: Pause::none(),
        }
    }

    /// Makes one turn: takes what has come, and writes what goes out next. After a turn that moved
    /// nothing, turns are passed over while the peer hasn't signalled, up to seven.
    ///
    /// The turn moved something if and only if bytes came or went or the call is over. It was quiet if
    /// its drain found no byte and the peer there, and there was nothing to send, no room for it, or
    /// the peer was found shut. No turn takes back bytes that came or went before.
    ///
    /// # Errors
    ///
    /// `Memory` if memory runs out; the session is spent then, but its end can still be retired.
    pub fn turn(&mut self, buf: &mut [u8]) -> Result<Turned, Memory>
        requires work { IsAtWork S.half self.old.half self.old.end }
        requires undecided { S.half.outcome self.old.half ≡ None }
        requires some { 0 < length buf.old }
        ensures end { IsSameEnd self.old.end self.new.end }
        ensures open { IsOpen self.new.end }
        ensures long { length buf.new ≡ length buf.old }
        ensures same { OnOk result (IsSameHalf S.half self.old.half self.new.half) }
        ensures work { OnOk result (IsAtWork S.half self.new.half self.new.end) }
        ensures stands { (owed : S.half.Owed) → StandsOn S.half owed self.old.half self.old.end → OnOk result (StandsOn S.half owed self.new.half self.new.end) }
        ensures turned { IfOk result (λ turned. Turns S.half turned self.old self.new) }
        ensures shut { OnOk result (KeepsShut self.old.pace self.new.pace self.old.end self.new.end) }
        ensures seen { OnOk result (HasSeenShut self.new.pace.peer_shut self.new.end) }
    {
        if !self.is_due() {
            self.pause.pass();
            return Ok(Turned::Passed);
        }
        let came = self.read_on(buf)?;
        let went = self.write_on()?;
        Ok(self.pause.note(came, went))
    }

    // Whether a turn must be made.
    fn is_due(&mut self) -> bool
        requires work { IsAtWork S.half self.old.half self.old.end }
        requires undecided { S.half.outcome self.old.half ≡ None }
        ensures end { IsSameEnd self.old.end self.new.end }
        ensures same { (self.new.half ≡ self.old.half) × (self.new.pace ≡ self.old.pace) }
        ensures view { view self.new.end ≡ view self.old.end }
        ensures due { IsDueOrPasses result self.old.pace self.old.end self.new.end }
    {
        if self.pause.is_over() {
            return true;
        }
        take_event(&mut self.end)
    }

    // Takes what has come, or learns that no more comes. Returns whether it did either.
    // A function apart, so that a turn that is passed over doesn't pay for the room of its locals.
    #[inline(never)]
    fn read_on(&mut self, buf: &mut [u8]) -> Result<bool, Memory>
        requires work { IsAtWork S.half self.old.half self.old.end }
        requires undecided { S.half.outcome self.old.half ≡ None }
        requires some { 0 < length buf.old }
        ensures end { IsSameEnd self.old.end self.new.end }
        ensures open { IsOpen self.new.end }
        ensures long { length buf.new ≡ length buf.old }
        ensures same { OnOk result (IsSameHalf S.half self.old.half self.new.half) }
        ensures work { OnOk result (IsAtWork S.half self.new.half self.new.end) }
        ensures stands { (owed : S.half.Owed) → StandsOn S.half owed self.old.half self.old.end → OnOk result (StandsOn S.half owed self.new.half self.new.end) }
        ensures came { IfOk result (λ came. Reads S.half came self.old self.new) }
        ensures kept { OnOk result ((self.new.pace ≡ self.old.pace) × ((view self.new.end).sent ≡ (view self.old.end).sent)) }
    {
        match drain(&mut self.end, buf) {
            DrainAnswer::More { count } => self.half.take(&buf[..count as usize])?,
            DrainAnswer::NotYet { .. } => return Ok(false),
            DrainAnswer::AllRead => self.half.closed(),
            DrainAnswer::PeerGone { .. } => self.half.gone(),
        }
        Ok(true)
    }

    // Writes what goes out next, as much as has room, if nothing has decided yet and the peer isn't
    // shut. Returns whether any bytes went.
    #[inline(never)]
    fn write_on(&mut self) -> Result<bool, Memory>
        requires work { IsAtWork S.half self.old.half self.old.end }
        requires open { IsOpen self.old.end }
        ensures end { IsSameEnd self.old.end self.new.end }
        ensures open { IsOpen self.new.end }
        ensures same { OnOk result (IsSameHalf S.half self.old.half self.new.half) }
        ensures work { OnOk result (IsAtWork S.half self.new.half self.new.end) }
        ensures stands { (owed : S.half.Owed) → StandsOn S.half owed self.old.half self.old.end → OnOk result (StandsOn S.half owed self.new.half self.new.end) }
        ensures went { IfOk result (λ went. Writes S.half went self.old self.new) }
        ensures kept { OnOk result ((view self.new.end).got ≡ (view self.old.end).got) }
        ensures outcome { OnOk result (IsSome (S.half.outcome self.old.half) → IsSome (S.half.outcome self.new.half)) }
        ensures shut { OnOk result (KeepsShut self.old.pace self.new.pace self.old.end self.new.end) }
    {
        if self.peer_shut {
            return Ok(false);
        }
        if self.half.outcome().is_some() {
            return Ok(false);
        }
        let piece = self.half.front()?;
        if piece.is_empty() {
            return Ok(false);
        }
        match write(&mut self.end, piece) {
            WriteAnswer::Wrote { count } => {
                self.half.advance(count as usize);
                Ok(true)
            }
            WriteAnswer::Full { .. } => Ok(false),
            WriteAnswer::PeerClosed => {
                self.peer_shut = true;
                Ok(false)
            }
        }
    }

    /// Returns whether the last turn that was made moved something, or there was none yet. A worker
    /// that has nothing to do yields.
    pub fn moved(&self) -> bool
        ensures { result ≡ not self.now.pace.quiet }
    {
        self.pause.moved()
    }

    /// Returns how the call came out, or `None` if nothing has decided that yet.
    pub fn outcome(&self) -> Option<Outcome>
        ensures { result ≡ S.half.outcome self.now.half }
    {
        self.half.outcome()
    }

    /// Retires the end of a call that is given up.
    pub fn give_up(self) -> Retired
        requires idle { (view self.end).idle ≡ true }
        ensures end { IsRetired (view self.entry.end) (last_view result) }
        ensures honest { (last_view result).turned ≡ false }
    {
        let Session { end, .. } = self;
        retire(end)
    }
}
