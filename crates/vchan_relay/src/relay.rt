//! The relay.
ghost use Rattle.std.specs.Prelude.{◌≡◌, ◌≤◌, [], true, false, IfOk, IfErr, length};
ghost use Rattle.vchan_rule.specs.Seated.{view, last_view, IsOpen};
ghost use Rattle.vchan_rule.specs.Ends.{IsSameEnd};
ghost use Rattle.vchan_lifecycle.specs.Lifecycle.{shut, retired_view};
ghost use Rattle.vchan_relay.specs.Relay.{IsRelay};
ghost use Rattle.vchan_relay.specs.Joints.{IsJoint};
ghost use Rattle.vchan_relay.specs.Turns.{HasTurned, Leaves, ends_relay};

use crate::turn::RelayTurn;
use std::alloc::{AllocError, Global};
use std::marker::Model;
use std::snapshot::Snapshot;
use vchan_lifecycle::{DrainAnswer, close, drain, retire};
use vchan_rule::{End, Retired};
use vchan_stream::{WriteAnswer, write};

/// The end that a relay reads, the end that it writes, and room for the bytes between them.
#[derive(Drop)]
pub struct Relay<'p> {
    near: End<'p>,
    far: End<'p>,
    // The held bytes are those from `passed` up to `taken`.
    room: Vec<u8>,
    passed: usize,
    taken: usize,
    ended: bool,
}

impl<'p> Model for Relay<'p> {
    ghost use Rattle.std.specs.Prelude.{◌≡◌, ◌≤◌, length, slice_range};
    ghost use Rattle.vchan_relay.specs.Relay.{RelayState, IsRelay};

    ghost Value = { RelayState };

    ghost view = { λ r. record { near = r.near; far = r.far; held = slice_range r.room.items r.passed r.taken; room = length r.room.items; ended = r.ended } };

    ghost invariant = { λ r. (r.passed ≤ r.taken) × (r.taken ≤ length r.room.items) × (1 ≤ length r.room.items) × (length r.room.items ≤ 1048576) × IsRelay (record { near = r.near; far = r.far; held = slice_range r.room.items r.passed r.taken; room = length r.room.items; ended = r.ended }) };
}

/// The two ends that a relay had, the one that it read and the one that it wrote, after it has retired
/// them. Only [`Relay::retire`] makes one, so whoever has it knows that one relay stood between the two.
#[derive(Drop)]
pub struct Joint {
    near: Snapshot<Retired>,
    far: Snapshot<Retired>,
}

impl Model for Joint {
    ghost use Rattle.vchan_rule.specs.Seated.{last_view};
    ghost use Rattle.vchan_relay.specs.Joints.{JoinedEnds, IsJoint};

    ghost Value = { JoinedEnds };

    ghost view = { λ j. record { near = last_view j.near.value; far = last_view j.far.value } };

    ghost invariant = { λ j. IsJoint (record { near = last_view j.near.value; far = last_view j.far.value }) };
}

impl Joint {
    /// What was sent on the far end is a beginning of what was got on the near one.
    pub fn promise(&self)
        ensures { IsJoint self.now }
    {
        let _ = &self.near;
    }
}

/// Memory ran out for a relay's room. Both ends are as they were.
#[derive(Drop)]
pub struct RelayRefused<'p> {
    /// The end that the relay would have read.
    pub near: End<'p>,
    /// The end that it would have written.
    pub far: End<'p>,
}

/// Returns `count` bytes of room.
fn make_room(alloc: Global, count: u32) -> Result<Vec<u8>, AllocError>
    ensures { IfOk result (λ room. length room.items ≡ count) }
{
    let mut room = Vec::with_capacity(alloc, count as usize)?;
    room.resize(count as usize, 0)?;
    Ok(room)
}

impl<'p> Relay<'p> {
    /// Makes a relay that holds no byte, over two open ends: nothing was got on the near one and nothing sent
    /// on the far one. It holds at most `room` bytes, from 1 to 1,048,576.
    ///
    /// # Errors
    ///
    /// Returns `RelayRefused`, with both ends, if memory runs out.
    pub fn new(
        alloc: Global,
        near: End<'p>,
        far: End<'p>,
        room: u32,
    ) -> Result<Relay<'p>, RelayRefused<'p>>
        requires near { IsOpen near × ((view near).got ≡ []) }
        requires far { IsOpen far × ((view far).sent ≡ []) }
        requires room { (1 ≤ room) × (room ≤ 1048576) }
        ensures ok { IfOk result (λ relay. (relay.near ≡ near.entry) × (relay.far ≡ far.entry) × (relay.held ≡ []) × (relay.room ≡ room) × (relay.ended ≡ false)) }
        ensures refused { IfErr result (λ ends. (ends.near ≡ near.entry) × (ends.far ≡ far.entry)) }
    {
        match make_room(alloc, room) {
            Ok(room) => Ok(Relay {
                near,
                far,
                room,
                passed: 0,
                taken: 0,
                ended: false,
            }),
            Err(_) => Err(RelayRefused { near, far }),
        }
    }

    /// Returns whether it has ended. Both its ends are shut then.
    pub fn ended(&self) -> bool
        ensures { result ≡ self.now.ended }
    {
        self.ended
    }

    /// Returns how many bytes it holds.
    pub fn held(&self) -> u32
        ensures { result ≡ length self.now.held }
    {
        (self.taken - self.passed) as u32
    }

    /// Gives what holds of a relay whatever its peers do: what was got on the near channel is what was sent on
    /// the far one, followed by the held bytes.
    pub fn promise(&self)
        ensures { IsRelay self.now }
    {
        let _ = &self.ended;
    }

    /// Makes one turn: if no byte is held it drains the near end, and else it writes the held bytes to the far
    /// end. Returns the answer of the drain or the write. After `Ended`, `NearGone` and `FarClosed` both ends
    /// are shut, and the relay has ended.
    pub fn turn(&mut self) -> RelayTurn
        requires { self.old.ended ≡ false }
        ensures near { IsSameEnd self.old.near self.new.near }
        ensures far { IsSameEnd self.old.far self.new.far }
        ensures room { self.new.room ≡ self.old.room }
        ensures turned { HasTurned self.old result self.new }
        ensures leaves { Leaves result self.new }
        ensures ended { self.new.ended ≡ ends_relay result }
        ensures relay { IsRelay self.new }
    {
        if self.passed < self.taken {
            self.pass()
        } else {
            self.take()
        }
    }

    // Writes the held bytes to the far end.
    fn pass(&mut self) -> RelayTurn
        requires going { self.old.ended ≡ false }
        requires some { 1 ≤ length self.old.held }
        ensures near { IsSameEnd self.old.near self.new.near }
        ensures far { IsSameEnd self.old.far self.new.far }
        ensures room { self.new.room ≡ self.old.room }
        ensures turned { HasTurned self.old result self.new }
        ensures leaves { Leaves result self.new }
        ensures ended { self.new.ended ≡ ends_relay result }
    {
        let held = (self.taken - self.passed) as u32;
        match write(
            &mut self.far,
            &self.room.as_slice()[self.passed..self.taken],
        ) {
            WriteAnswer::Wrote { count } => {
                self.passed += count as usize;
                RelayTurn::Passed { count }
            }
            WriteAnswer::Full { prod, cons } => RelayTurn::Full { prod, cons },
            WriteAnswer::PeerClosed => self.end(RelayTurn::FarClosed { held }),
        }
    }

    // Drains the near end into the room.
    fn take(&mut self) -> RelayTurn
        requires going { self.old.ended ≡ false }
        requires none { self.old.held ≡ [] }
        ensures near { IsSameEnd self.old.near self.new.near }
        ensures far { IsSameEnd self.old.far self.new.far }
        ensures room { self.new.room ≡ self.old.room }
        ensures turned { HasTurned self.old result self.new }
        ensures leaves { Leaves result self.new }
        ensures ended { self.new.ended ≡ ends_relay result }
    {
        match drain(&mut self.near, self.room.as_mut_slice()) {
            DrainAnswer::More { count } => {
                self.passed = 0;
                self.taken = count as usize;
                RelayTurn::Took { count }
            }
            DrainAnswer::NotYet { prod, cons } => RelayTurn::NotYet { prod, cons },
            DrainAnswer::AllRead => self.end(RelayTurn::Ended),
            DrainAnswer::PeerGone { prod, cons } if prod == cons => self.end(RelayTurn::Ended),
            DrainAnswer::PeerGone { prod, cons } => self.end(RelayTurn::NearGone { prod, cons }),
        }
    }

    // Shuts both ends, and returns the answer of the turn that ends the relay.
    fn end(&mut self, turn: RelayTurn) -> RelayTurn
        requires { self.old.ended ≡ false }
        ensures near { IsSameEnd self.old.near self.new.near × (view self.new.near ≡ shut (view self.old.near)) }
        ensures far { IsSameEnd self.old.far self.new.far × (view self.new.far ≡ shut (view self.old.far)) }
        ensures same { (self.new.held ≡ self.old.held) × (self.new.room ≡ self.old.room) }
        ensures ended { self.new.ended ≡ true }
        ensures turn { result ≡ turn }
    {
        close(&mut self.near);
        close(&mut self.far);
        self.ended = true;
        turn
    }

    /// Retires both ends, the near one first, and tells which two they were. Bytes that are still held
    /// are lost.
    pub fn retire(self) -> (Retired, Retired, Joint)
        ensures near { last_view result.0 ≡ retired_view (view self.entry.near) }
        ensures far { last_view result.1 ≡ retired_view (view self.entry.far) }
        ensures honest { ((last_view result.0).turned ≡ false) × ((last_view result.1).turned ≡ false) }
        ensures joint { result.2 ≡ record { near = last_view result.0; far = last_view result.1 } }
    {
        let Self { near, far, .. } = self;
        let near = retire(near);
        let far = retire(far);
        let joint = Joint {
            near: Snapshot::of(&near),
            far: Snapshot::of(&far),
        };
        (near, far, joint)
    }
}
