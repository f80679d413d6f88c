//! The task that gets all bytes.
use crate::draining::{drain_behind, hand_back};
use crate::task::HopTask;
use std::marker::Model;
use task_pool::Turn;
use vchan_lifecycle::DrainAnswer;
use vchan_rule::End;

/// The server of the last page, with room for the bytes that it gets.
#[derive(Drop)]
pub(crate) struct Reader<'p> {
    end: End<'p>,
    room: Vec<u8>,
    count: usize,
    // Whether the last turn got bytes.
    moved: bool,
}

impl<'p> Model for Reader<'p> {
    ghost use Rattle.std.specs.Prelude.{◌≡◌, ◌<◌, length, take};
    ghost use Rattle.ring_words.specs.declared.page.Role.TheVariants.{Server};
    ghost use Rattle.vchan_rule.specs.Seated.{IsOpen};
    ghost use Rattle.vchan_relay.specs.States.{ReaderState};

    ghost Value = { ReaderState };

    ghost view = { λ r. record { end = r.end; room = length r.room.items } };

    ghost invariant = { λ r. IsOpen r.end × (r.end.side.role ≡ Server) × (r.count < length r.room.items) × (r.end.side.got ≡ take r.count r.room.items) };
}

impl<'p> Reader<'p> {
    ghost use Rattle.std.specs.Prelude.{◌≡◌, ◌<◌, [], length};
    ghost use Rattle.ring_words.specs.declared.page.Role.TheVariants.{Server};
    ghost use Rattle.task_pool.specs.Owes.{Pays};
    ghost use Rattle.vchan_rule.specs.Seated.{view, IsOpen};
    ghost use Rattle.vchan_relay.specs.Owes.{hop_owes};
    ghost use Rattle.vchan_relay.specs.Tasks.{HopTurns};

    /// Makes a reader that has got nothing, with this room.
    pub(crate) fn new(end: End<'p>, room: Vec<u8>) -> Reader<'p>
        requires open { IsOpen end }
        requires server { end.side.role ≡ Server }
        requires none { (view end).got ≡ [] }
        requires some { 0 < length room.items }
        ensures { result ≡ record { end = end.entry; room = length room.items } }
    {
        Reader {
            end,
            room,
            count: 0,
            moved: true,
        }
    }

    /// Returns whether the last turn got bytes, or there was none yet.
    pub(crate) fn moved(&self) -> bool {
        self.moved
    }

    /// Gets what waits. It retires when no more comes, or when the room is full.
    pub(crate) fn turn(self) -> Turn<HopTask<'p>>
        ensures pays { Pays hop_owes (HopTask.Reads self.entry) result }
        ensures turns { HopTurns (HopTask.Reads self.entry) result }
    {
        let Reader {
            mut end,
            mut room,
            count,
            ..
        } = self;
        match drain_behind(&mut end, room.as_mut_slice(), count) {
            DrainAnswer::More { count: more } => {
                let count = count + more as usize;
                if count == room.len() {
                    return Turn::Done(hand_back(end, room, count));
                }
                Turn::Again(HopTask::Reads(Reader {
                    end,
                    room,
                    count,
                    moved: true,
                }))
            }
            DrainAnswer::NotYet { prod: _, cons: _ } => Turn::Again(HopTask::Reads(Reader {
                end,
                room,
                count,
                moved: false,
            })),
            DrainAnswer::AllRead => Turn::Done(hand_back(end, room, count)),
            DrainAnswer::PeerGone { prod: _, cons: _ } => Turn::Done(hand_back(end, room, count)),
        }
    }
}
