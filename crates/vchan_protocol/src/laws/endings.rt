//! Laws of what an honest end notes of its peer's end, whatever the peer does.
ghost use Rattle.vchan_protocol.specs.OneEnd.EndingLaws.{StepKeepsNotes, AnswerIsNoted, EachEndingIsNoted, EachStoreTakesNothing};

/// `saw`, `ended` and `drained` of an end agree with one another after each event of its call, whatever
/// value the event takes.
pub fn step_keeps_notes()
    ensures { StepKeepsNotes }
{}

/// An answer that ends a stream is noted. After `AllRead` the end has seen its peer's end, has ended
/// and is drained. After `PeerGone` it has seen it and has ended, and is drained if the two indices are
/// equal.
pub fn answer_is_noted()
    ensures { AnswerIsNoted }
{}

/// Whatever happens on a page, `saw`, `ended` and `drained` of each of its ends agree: an end that has
/// ended has seen its peer's end, one that is drained has ended and seen it, and one that ended by
/// `AllRead` is drained.
pub fn each_ending_is_noted()
    ensures { EachEndingIsNoted }
{}

/// Whatever happens on a page, each plain store in the trail of an end took 0.
pub fn each_store_takes_nothing()
    ensures { EachStoreTakesNothing }
{}
