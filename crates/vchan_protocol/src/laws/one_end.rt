//! What one end can know of a page that others write. Each of its steps changes its own part by that
//! part and one value taken, and keeps the invariant of the page, whatever its peer is.
ghost use Rattle.vchan_protocol.specs.OneEnd.OneEnd.{EachCoreIsBetween, EachStepIsOwn, EachStepKeeps};
ghost use Rattle.vchan_protocol.specs.OneEnd.OneEndLaw.{OwnAtOpening, BeginKeepsOwn, StepKeepsOwn, EachOwnIsLawful};

/// Each core state consists of the words, one of its ends and that end's peer.
pub fn each_core_is_between()
    ensures { EachCoreIsBetween }
{}

/// When an end begins a call, makes an event, is turned, or its hostile user makes an event, its peer
/// stays as it is. The end's own part then follows from that part before and one value: the word that an
/// event is on, and for a turn how much the peer has got.
pub fn each_step_is_own()
    ensures { EachStepIsOwn }
{}

/// Each of these steps keeps the invariant of the page.
pub fn each_step_keeps()
    ensures { EachStepKeeps }
{}

/// What an honest end can say of itself holds for an end that has done nothing yet.
pub fn own_at_opening()
    ensures { OwnAtOpening }
{}

/// It still holds when the end begins a call.
pub fn begin_keeps_own()
    ensures { BeginKeepsOwn }
{}

/// It still holds after the next event of the end's call, whatever value that takes.
pub fn step_keeps_own()
    ensures { StepKeepsOwn }
{}

/// It holds for each honest end of a page, whatever happens to the page.
pub fn each_own_is_lawful()
    ensures { EachOwnIsLawful }
{}
