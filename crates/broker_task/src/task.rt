//! The task of the broker.
ghost use Rattle.std.specs.Prelude.{◌≡◌, ◌≤◌, ◌<◌, ◌^◌, ℕ, [], length, map, vec_capacity, IfOk, IfErr};

use crate::ends::{daemons_of, give_up, retire_all};
use crate::switchboard::Switchboard;
use call_broker::Broker;
use std::alloc::Global;
use std::marker::Model;
use task_duties::{RetiredEnd, TaskTurn};
use vchan_io::Memory;
use vchan_rule::End;

/// The number of bytes taken from a control channel at once.
const CHUNK: usize = 4_096;

/// The broker of calls, with its ends of all control pages. Contracts see what the task was given, which no
/// turn changes, its journal, and its ends as they are now.
#[derive(Drop)]
pub struct BrokerTask<'p> {
    switchboard: Switchboard<'p>,
    // The bytes taken from a control channel at once.
    buf: Vec<u8>,
    // Room for all ends when they are retired, so that this takes no memory.
    retired: Vec<RetiredEnd>,
    // Whether the last turn moved anything.
    moved: bool,
}

impl<'p> Model for BrokerTask<'p> {
    ghost use Rattle.std.specs.Prelude.{◌≡◌, ◌≤◌, ◌<◌, [], length, vec_capacity};
    ghost use Rattle.broker_task.specs.Rounds.{IsReady};
    ghost use Rattle.broker_task.specs.Given.{BrokerState, state_of};

    ghost Value = { BrokerState };

    ghost view = { λ t. state_of t.switchboard };

    ghost invariant = { λ t. IsReady t.switchboard × (0 < length t.buf.items)
        × (t.retired.items ≡ []) × (length t.switchboard.daemons.items ≤ vec_capacity t.retired) };
}

/// A broker that is done.
#[derive(Drop)]
pub struct BrokerDone {
    /// The broker, with its journal.
    pub broker: Broker,
    /// Its ends of the control pages, in the order of the domains.
    pub ends: Vec<RetiredEnd>,
}

ghost use Rattle.std.specs.List.{AllByRecursion as Each};
ghost use Rattle.broker_task.specs.Lines.{IsLine};
ghost use Rattle.broker_task.specs.Rounds.{IsReady};
ghost use Rattle.broker_task.specs.Given.{given_now};
ghost use Rattle.broker_task.specs.Turns.{Pays, StandsAfter, TurnsEach, KeepsLines, Finishes};

impl<'p> BrokerTask<'p> {
    ghost use Rattle.call_broker.specs.Domains.{count_of};
    ghost use Rattle.vchan_rule.specs.Seated.{view};
    ghost use Rattle.task_duties.specs.TaskOwes.{NoMemory, TaskOwes, broker_given};
    ghost use Rattle.task_duties.specs.GivenEnds.{all_retired};
    ghost use Rattle.broker_task.specs.Replies.{HasShortNames};
    ghost use Rattle.broker_task.specs.Given.{IsNewClient, task_given};
    ghost use Rattle.broker_task.specs.Starting.{IsNewTask};

    /// Makes the task of a broker that has decided nothing yet. `awaited` has the number of awaited calls of
    /// each domain, and `controls` the broker's end of each domain's control page, both in the order of the
    /// domains.
    ///
    /// If memory runs out, it returns the ends as they were given, and drops the rest. There is no other
    /// error.
    pub fn new(
        alloc: Global,
        broker: Broker,
        awaited: Vec<u32>,
        controls: Vec<End<'p>>,
    ) -> Result<BrokerTask<'p>, Vec<End<'p>>>
        requires first { broker.journal ≡ [] }
        requires names { HasShortNames broker.hub }
        requires few { count_of broker.hub < 2 ^ 32 }
        requires awaited { length awaited.items ≡ count_of broker.hub }
        requires controls { length controls.items ≡ count_of broker.hub }
        requires unused { Each IsNewClient controls.items }
        ensures made { IfOk result (λ task. task_given task ≡ broker_given broker.hub awaited.items (map view controls.entry.items)) }
        ensures lines { IfOk result (λ task. length task.lines ≡ count_of broker.hub) }
        ensures new { IfOk result IsNewTask }
        ensures unmade { IfErr result (λ ends. ends ≡ controls.entry) }
    {
        let Ok(buf) = vec![in alloc; 0u8; CHUNK] else {
            // In a call, here and below: dropped here, each field of the broker would be a step of the proof.
            drop(broker);
            return Err(controls);
        };
        let Ok(retired) = Vec::with_capacity(alloc, controls.len()) else {
            drop(broker);
            return Err(controls);
        };
        let Ok(room) = Vec::with_capacity(alloc, controls.len()) else {
            drop(broker);
            return Err(controls);
        };
        let daemons = daemons_of(alloc, awaited.as_slice(), controls, room);
        Ok(BrokerTask {
            switchboard: Switchboard { broker, daemons },
            buf,
            retired,
            moved: true,
        })
    }

    /// Returns whether the last turn moved anything that another task may wait for, or whether there was no
    /// turn yet. No contract relies on it.
    pub fn moved(&self) -> bool {
        self.moved
    }

    /// Makes one turn, which is a round over all domains. Once all of them are settled or dropped, or if memory
    /// runs out, the ends retire and are given back, which takes no memory.
    ///
    /// After each turn every domain that must be dropped is dropped, and no other without a cause. No domain
    /// was greeted before it greeted. If a Connect was sent, the Exec of its call was sent too, or the target
    /// was dropped. A task that wants another turn isn't settled, and its port to each domain stands for what was
    /// said to it and, unless it was dropped, heard from it. Then each message for a domain that isn't dropped
    /// was sent or waits, and one that is held is the Connect of a call whose Exec still waits for its target,
    /// which isn't dropped.
    ///
    /// Of each domain that isn't dropped something was heard in the turn, or something said to it; or there was
    /// nothing to hear, and nothing that could be said: all that waits is held, or there was no room. Of no domain
    /// fewer bytes were heard or said than before, and one that was dropped stays so. Just the ends of those that
    /// were dropped are shut.
    pub fn turn(self) -> TaskTurn<BrokerTask<'p>, BrokerDone>
        ensures pays { Pays (task_given self.entry) result }
        ensures stands { StandsAfter result }
        ensures turns { TurnsEach self.entry.lines result }
    {
        let BrokerTask {
            mut switchboard,
            mut buf,
            retired,
            ..
        } = self;
        let before = switchboard.moves();
        match switchboard.round(buf.as_mut_slice()) {
            Ok(()) => {
                let moved = switchboard.moves() != before;
                after_round(switchboard, buf, retired, moved)
            }
            Err(Memory) => {
                let Switchboard { broker, daemons } = switchboard;
                drop(broker);
                let ends = give_up(daemons, retired);
                TaskTurn::NoMemory { ends }
            }
        }
    }

    /// Retires all ends, and gives them back in the order of the domains. It takes no memory.
    pub fn give_up(self) -> Vec<RetiredEnd>
        ensures { TaskOwes (task_given self.entry) (NoMemory (all_retired result.items)) }
    {
        let BrokerTask {
            switchboard,
            retired,
            ..
        } = self;
        let Switchboard { broker, daemons } = switchboard;
        drop(broker);
        give_up(daemons, retired)
    }
}

// The task after a round, which may have moved something.
fn after_round<'p>(
    switchboard: Switchboard<'p>,
    buf: Vec<u8>,
    retired: Vec<RetiredEnd>,
    moved: bool,
) -> TaskTurn<BrokerTask<'p>, BrokerDone>
    requires ready { IsReady switchboard }
    requires some { 0 < length buf.items }
    requires empty { retired.items ≡ [] }
    requires room { length switchboard.daemons.items ≤ vec_capacity retired }
    ensures pays { Pays (given_now switchboard.entry) result }
    ensures stands { StandsAfter result }
    ensures lines { KeepsLines switchboard.entry result }
{
    if switchboard.is_settled() {
        return finish(switchboard, retired);
    }
    TaskTurn::Again(BrokerTask {
        switchboard,
        buf,
        retired,
        moved,
    })
}

// Gives the broker and all ends back.
fn finish<'p>(
    switchboard: Switchboard<'p>,
    retired: Vec<RetiredEnd>,
) -> TaskTurn<BrokerTask<'p>, BrokerDone>
    requires lines { Each (λ x. IsLine x.domain x) switchboard.daemons.items }
    requires empty { retired.items ≡ [] }
    requires room { length switchboard.daemons.items ≤ vec_capacity retired }
    ensures { Finishes switchboard.entry result }
{
    let Switchboard { broker, daemons } = switchboard;
    let ends = retire_all(daemons, retired);
    TaskTurn::Done(BrokerDone { broker, ends })
}
