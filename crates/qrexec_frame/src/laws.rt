//! Laws of spellings and of streams of them. A law is a function with no body, whose contract states it.
ghost use Rattle.qrexec_frame.specs.Laws.{SpellingsStandApart, LongerStreams, WrittenBeginnings, WholeStreams};

/// No spelling is the beginning of another.
pub fn spellings_stand_apart()
    ensures { SpellingsStandApart }
{}

/// More bytes change no message and no fault that was read.
pub fn longer_streams()
    ensures { LongerStreams }
{}

/// A beginning of written messages reads without fault, as the first of these messages.
pub fn written_beginnings()
    ensures { WrittenBeginnings }
{}

/// If as many messages were read as were written, all the bytes came.
pub fn whole_streams()
    ensures { WholeStreams }
{}
