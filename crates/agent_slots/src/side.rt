//! How the page of an end in use was laid.
ghost use Rattle.std.specs.Prelude.{◌≡◌, true, false};
ghost use Rattle.ring_words.specs.declared.page.Role.TheVariants.{Server};
ghost use Rattle.end_view.specs.EndView.{IsUnused};
ghost use Rattle.vchan_rule.specs.Seated.{view, last_view};
ghost use Rattle.vchan_lifecycle.specs.Lifecycle.{retired_view};
ghost use Rattle.task_duties.specs.GivenEnds.{done_view, fresh_view, given_at, retired_at};
ghost use Rattle.agent_slots.specs.Slots.{held_at};
ghost use Rattle.agent_slots.specs.Sides.{HasLaid, IsSideOf, seen_under, is_late_unused, is_late_side, is_late_done};

use page_offer::{LaidPage, OpenClient, OpenServer, UnlaidServer};
use task_duties::{DataEnd, DoneEnd, PagePlace, RetiredEnd, UnusedEnd};
use vchan_lifecycle::retire;
use vchan_rule::{End, Retired};

/// What keeps the place of an end while it is in use: nothing if its page was laid before the first turn, and
/// otherwise the end's side of the page.
#[derive(Drop)]
pub(crate) enum PageSide {
    /// The page was laid before the first turn.
    Laid,
    /// The end is a server's, which has laid the page.
    Server(OpenServer),
    /// The end is a client's, to which the page was offered.
    Client(OpenClient),
}

impl PageSide {
    /// Whether the page is one that is laid when it is first used.
    pub(crate) fn is_late(&self) -> bool
        ensures { result ≡ is_late_side self.now }
    {
        match self {
            PageSide::Laid => false,
            PageSide::Server(_) | PageSide::Client(_) => true,
        }
    }

    /// Returns whether the page was offered to a client whose task was dropped. Nothing is promised of the
    /// answer.
    pub(crate) fn is_abandoned(&mut self) -> bool
        ensures { self.new ≡ self.old }
    {
        match self {
            PageSide::Server(side) => side.is_abandoned(),
            PageSide::Laid | PageSide::Client(_) => false,
        }
    }

    /// Returns the end after it was retired.
    pub(crate) fn finish(self, retired: Retired) -> DoneEnd
        requires { IsSideOf self (last_view retired) }
        ensures view { done_view result ≡ seen_under self (last_view retired) }
        ensures late { is_late_done result ≡ is_late_side self }
    {
        match self {
            PageSide::Laid => DoneEnd::Laid(retired),
            PageSide::Server(side) => DoneEnd::Server(side.finish(retired)),
            PageSide::Client(side) => DoneEnd::Client(side.finish(retired)),
        }
    }
}

/// Opens an unused end of a server whose page is laid. Returns the end and what keeps its place.
pub(crate) fn open_server<'p>(end: UnusedEnd<'p>, laid: Option<LaidPage>) -> (End<'p>, PageSide)
    requires unused { IsUnused (fresh_view end) × ((fresh_view end).role ≡ Server) }
    requires laid { HasLaid end laid }
    ensures unused { IsUnused (view result.0) × ((view result.0).role ≡ Server) }
    ensures seen { seen_under result.1 (view result.0) ≡ fresh_view end.entry }
    ensures side { IsSideOf result.1 (view result.0) }
    ensures late { is_late_side result.1 ≡ is_late_unused end.entry }
{
    match end {
        UnusedEnd::Laid(end) => (end, PageSide::Laid),
        UnusedEnd::Server(side) => open_laid(side, laid),
        UnusedEnd::Client(_) => unreachable!(),
    }
}

// Opens the end of a server that has laid its page.
fn open_laid<'p>(side: UnlaidServer<'p>, laid: Option<LaidPage>) -> (End<'p>, PageSide)
    requires { HasLaid (UnusedEnd.Server side) laid }
    ensures unused { IsUnused (view result.0) × ((view result.0).role ≡ Server) }
    ensures seen { seen_under result.1 (view result.0) ≡ fresh_view (UnusedEnd.Server side.entry) }
    ensures side { IsSideOf result.1 (view result.0) }
    ensures late { is_late_side result.1 ≡ true }
{
    let Some(laid) = laid else { unreachable!() };
    let (end, side) = side.open(laid);
    (end, PageSide::Server(side))
}

/// Retires a data end that no agent has, and that was never used.
pub fn retire_given(given: DataEnd) -> RetiredEnd
    requires { (given_at given).view.idle ≡ true }
    ensures held { held_at (retired_at result) ≡ held_at (given_at given.entry) }
    ensures honest { (retired_at result).view.turned ≡ false }
{
    let DataEnd {
        from,
        to,
        port,
        end,
    } = given;
    RetiredEnd {
        place: PagePlace::Payload { from, to, port },
        retired: retire_unused(end),
    }
}

/// Retires an end that was never used.
pub(crate) fn retire_unused(end: UnusedEnd) -> DoneEnd
    requires { (fresh_view end).idle ≡ true }
    ensures view { done_view result ≡ retired_view (fresh_view end.entry) }
    ensures honest { (done_view result).turned ≡ false }
{
    match end {
        UnusedEnd::Laid(end) => DoneEnd::Laid(retire(end)),
        UnusedEnd::Server(side) => DoneEnd::Server(side.finish()),
        UnusedEnd::Client(side) => DoneEnd::Client(side.finish()),
    }
}
