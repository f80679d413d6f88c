//! Laws of a page at each moment, whether its ends are honest or were turned, and of its end.
ghost use Rattle.vchan_protocol.specs.Rows.WorkedEnd.{EndIsAsWorked};
ghost use Rattle.vchan_protocol.specs.Always.Invariant.{OpeningHasInvariant, BeginKeepsInvariant, EventKeepsInvariant, CallKeepsInvariant, TurnKeepsInvariant, StrayKeepsInvariant, GoneIsSetOnce, GoneTellsRetired, EachRetiresOnce, EachHasInvariant, InvariantSettles};

/// The invariant of a page holds when the page is opened.
pub fn opening_has_invariant()
    ensures { OpeningHasInvariant }
{}

/// The invariant still holds when an honest end begins a call that it may begin.
pub fn begin_keeps_invariant()
    ensures { BeginKeepsInvariant }
{}

/// The invariant still holds after the next event of an honest end's call.
pub fn event_keeps_invariant()
    ensures { EventKeepsInvariant }
{}

/// The invariant still holds after a whole call of an honest end, during which the other end makes no event.
pub fn call_keeps_invariant()
    ensures { CallKeepsInvariant }
{}

/// The invariant still holds when an end is turned over to a hostile user.
pub fn turn_keeps_invariant()
    ensures { TurnKeepsInvariant }
{}

/// The invariant still holds after any event of a hostile user.
pub fn stray_keeps_invariant()
    ensures { StrayKeepsInvariant }
{}

/// Between honest ends a gone word is 1 after the event that stores to it, and every other event
/// leaves it as it is.
pub fn gone_is_set_once()
    ensures { GoneIsSetOnce }
{}

/// Between honest ends a gone word is 1 if and only if its end is retired, and otherwise 0; a retired end
/// is shut.
pub fn gone_tells_retired()
    ensures { GoneTellsRetired }
{}

/// An end is retired by its own store to its gone word, and stays retired. It may begin to retire again;
/// no begin, no turning and no event of a hostile user changes whether it is retired.
pub fn each_retires_once()
    ensures { EachRetiresOnce }
{}

/// The invariant holds whatever happens to a page, in whatever order the events of its ends come.
pub fn each_has_invariant()
    ensures { EachHasInvariant }
{}

/// The invariant implies what holds at the end of a page, and at each moment before.
pub fn invariant_settles()
    ensures { InvariantSettles }
{}

/// A worked row of how a stream ends: a byte that was written before the peer closed is still read, and
/// only then is all read.
pub fn worked_end()
    ensures { EndIsAsWorked }
{}
