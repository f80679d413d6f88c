//! The data pages of a run by their places.
ghost use Rattle.std.specs.Prelude.{◌≡◌, ◌<◌, ◌^◌, ◌++◌, ◌∷◌, [], List, length, map, IfOk, OnOk};
ghost use Rattle.task_duties.specs.declared.place.PagePlace.{PagePlace as Place};
ghost use Rattle.task_duties.specs.declared.place.PagePlace.TheVariants.{Payload};
ghost use Rattle.agent_slots.specs.Index.{end_at};
ghost use Rattle.run_laws.specs.ReadOff.{index_of};
ghost use Rattle.scenario_run.specs.Index.{AreNumbers, IsIndexOf};

use run_laws::SettledPage;
use std::alloc::{AllocError, Global};
use std::collections::HashMap;
use task_duties::PagePlace;

/// The number of the first data page at a place: by the domain that calls, the domain that is called, and the
/// port.
type Numbers = HashMap<(u32, u32, u32), u32>;

/// The data pages of a run by their places.
#[derive(Drop)]
pub(crate) struct PageIndex {
    numbers: Numbers,
    // How many pages there are.
    count: u32,
}

impl PageIndex {
    /// Makes the index of these pages.
    pub(crate) fn of(alloc: Global, pages: &[SettledPage]) -> Result<PageIndex, AllocError>
        requires few { length pages.now < 2 ^ 32 }
        ensures { IfOk result (λ index. IsIndexOf (map (λ p. p.place) pages.now) index) }
    {
        let mut numbers = HashMap::new(alloc);
        let mut count = 0;
        for page in pages {
            note(&mut numbers, page.place, count)?;
            count += 1;
        }
        Ok(PageIndex { numbers, count })
    }

    /// Returns the number of the first page at this place, counted from 0. It is the count of all pages if
    /// none lies there.
    pub(crate) fn number_at(&self, from: u32, to: u32, port: u32) -> u32
        ensures { (places : List Place) → IsIndexOf places self.now → result ≡ index_of (Payload from to port) places }
    {
        match first_at(&self.numbers, from, to, port) {
            Some(number) => number,
            None => self.count,
        }
    }
}

// Notes the number of the next page, if no page before it lies at its place.
fn note(numbers: &mut Numbers, place: PagePlace, number: u32) -> Result<(), AllocError>
    ensures { (places : List Place) → length places ≡ number → AreNumbers places numbers.old → OnOk result (AreNumbers (places ++ place ∷ []) numbers.new) }
{
    let PagePlace::Payload { from, to, port } = place else {
        return Ok(());
    };
    if first_at(numbers, from, to, port).is_none() {
        numbers.insert((from, to, port), number)?;
    }
    Ok(())
}

// The number that is noted for a place.
fn first_at(numbers: &Numbers, from: u32, to: u32, port: u32) -> Option<u32>
    ensures { result ≡ end_at numbers.now from to port }
{
    numbers.get(&(from, to, port)).copied()
}
