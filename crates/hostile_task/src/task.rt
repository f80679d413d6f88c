//! The task of a hostile domain.
ghost use Rattle.std.specs.Prelude.{◌≡◌, ◌≤◌, ◌+◌, ◌∷◌, [], length, vec_capacity, IfOk, IfErr};

use crate::carry_out::carry_out;
use crate::domain::HostileDomain;
use crate::pages::Pages;
use crate::progress::Progress;
use ring_words::WordName;
use scenario_file::Act;
use std::alloc::Global;
use std::marker::Model;
use task_duties::{DataEnd, PagePlace, RetiredEnd, TaskTurn, UnmadeEnds};
use vchan_io::Memory;
use vchan_rule::End;

/// A hostile domain that carries out its acts. Contracts see what it was given, which no turn changes,
/// its ends as they are, and how far it is with its acts.
#[derive(Drop)]
pub struct HostileTask<'p> {
    alloc: Global,
    domain: HostileDomain,
    pages: Pages<'p>,
    progress: Progress,
    // The bytes that the act under way sends; kept for the room of the list.
    spelled: Vec<u8>,
    // Room for all ends when they are retired, so that this takes no memory.
    retired: Vec<RetiredEnd>,
    // Whether the last turn made an event.
    moved: bool,
}

impl<'p> Model for HostileTask<'p> {
    ghost use Rattle.std.specs.Prelude.{◌≡◌, ◌≤◌, ◌+◌, [], length, vec_capacity};
    ghost use Rattle.hostile_task.specs.Plan.{HostileState, plan_of};
    ghost use Rattle.hostile_task.specs.Pages.{places_in, given_in, now_in};
    ghost use Rattle.hostile_task.specs.UnderWay.{IsUnderWay};

    ghost Value = { HostileState };

    ghost view = { λ t. record { plan = plan_of t.domain (places_in t.pages); ends = given_in t.pages; now = now_in t.pages; acts = t.progress.acts; turns = t.progress.turns } };

    ghost invariant = { λ t. IsUnderWay t.domain t.pages t.progress t.spelled.items
        × (t.retired.items ≡ []) × (length t.pages.payload.items + 1 ≤ vec_capacity t.retired) };
}

/// A hostile domain that has done all its acts.
#[derive(Drop)]
pub struct HostileDone {
    /// The number of the domain.
    pub domain: u32,
    /// Its ends, in the order in which they were given, the end of the control page first.
    pub ends: Vec<RetiredEnd>,
}

ghost use Rattle.hostile_task.specs.Finishing.{Finishes};

impl<'p> HostileTask<'p> {
    ghost use Rattle.vchan_rule.specs.Seated.{view};
    ghost use Rattle.task_duties.specs.declared.place.PagePlace.TheVariants.{Control};
    ghost use Rattle.task_duties.specs.TaskOwes.{Hostile, NoMemory, TaskOwes, all_ends, places_in};
    ghost use Rattle.task_duties.specs.GivenEnds.{all_given, all_retired};
    ghost use Rattle.hostile_task.specs.Plan.{plan_of, AreApart, IsControlOf, AreDataOf};
    ghost use Rattle.hostile_task.specs.Turns.{HasDone, Pays};

    /// Returns the task of a domain with these ends. They are turned over at once, and the producer
    /// index of the control page is read.
    ///
    /// # Errors
    ///
    /// The ends as they were given, if memory runs out; the domain is dropped then. There is no other
    /// error.
    pub fn new(
        alloc: Global,
        domain: HostileDomain,
        control: End<'p>,
        payload: Vec<DataEnd<'p>>,
    ) -> Result<HostileTask<'p>, UnmadeEnds<'p>>
        requires control { IsControlOf domain control }
        requires payload { AreDataOf domain payload.items }
        requires apart { AreApart (places_in (all_given payload.items)) }
        ensures plan { IfOk result (λ task. task.plan ≡ plan_of domain (Control domain.number ∷ places_in (all_given payload.entry.items))) }
        ensures ends { IfOk result (λ task. task.ends ≡ all_ends domain.number (view control.entry) (all_given payload.entry.items)) }
        ensures first { IfOk result (λ task. (task.acts ≡ 0) × (task.turns ≡ 0) × HasDone task) }
        ensures unmade { IfErr result (λ ends. (ends.control ≡ control.entry) × (ends.payload ≡ payload.entry)) }
    {
        let Ok(retired) = Vec::with_capacity(alloc, payload.len() + 1) else {
            return Err(UnmadeEnds { control, payload });
        };
        let Ok(room) = Vec::with_capacity(alloc, payload.len()) else {
            return Err(UnmadeEnds { control, payload });
        };
        let mut pages = Pages::turn(domain.number, control, payload, room);
        let own = (pages.control.end.load(WordName::RightProd) % 4_294_967_296) as u32;
        Ok(HostileTask {
            alloc,
            domain,
            pages,
            progress: Progress::start(own),
            spelled: Vec::new(alloc),
            retired,
            moved: true,
        })
    }

    /// Returns whether the last turn made an event that another task may wait for, or there was no
    /// turn yet. A turn of an act that rests makes none. No contract relies on it.
    pub fn moved(&self) -> bool {
        self.moved
    }

    /// Makes one turn: of the next act, or of a rest or a saying that goes on, or, after the last act,
    /// the turn that retires the ends. Each turn leaves fewer turns of the acts than there were. If memory
    /// runs out, the ends retire too; to retire them takes none.
    pub fn turn(self) -> TaskTurn<HostileTask<'p>, HostileDone>
        ensures { Pays self.entry result }
    {
        let HostileTask {
            alloc,
            domain,
            mut pages,
            mut progress,
            mut spelled,
            retired,
            ..
        } = self;
        if progress.acts == domain.acts.list().len() {
            return finish(domain.number, pages, retired);
        }
        let moved = !rests(&domain, progress.acts);
        match carry_out(alloc, &domain, &mut pages, &mut progress, &mut spelled) {
            Ok(()) => TaskTurn::Again(HostileTask {
                alloc,
                domain,
                pages,
                progress,
                spelled,
                retired,
                moved,
            }),
            Err(Memory) => {
                let ends = pages.retire(retired);
                TaskTurn::NoMemory { ends }
            }
        }
    }

    /// Retires all ends, and gives them back in the order in which they were given, the end of the control
    /// page first. It takes no memory.
    pub fn give_up(self) -> Vec<RetiredEnd>
        ensures { TaskOwes (Hostile self.entry.plan self.entry.ends) (NoMemory (all_retired result.items)) }
    {
        let HostileTask { pages, retired, .. } = self;
        pages.retire(retired)
    }
}

// Whether the act of this number rests.
fn rests(domain: &HostileDomain, number: usize) -> bool {
    matches!(domain.acts.list().get(number), Some(Act::Rest { .. }))
}

// Retires all ends.
fn finish<'p>(
    domain: u32,
    pages: Pages<'p>,
    retired: Vec<RetiredEnd>,
) -> TaskTurn<HostileTask<'p>, HostileDone>
    requires empty { retired.items ≡ [] }
    requires room { length pages.payload.items + 1 ≤ vec_capacity retired }
    ensures { Finishes domain pages.entry result }
{
    let ends = pages.retire(retired);
    TaskTurn::Done(HostileDone { domain, ends })
}
