//! Laws of one end's call by its own events, whatever values these took, and so whatever its peer,
//! honest or hostile, does between them.
ghost use Rattle.vchan_protocol.specs.OneEnd.OneCall.{AnswersTellBytes, WayBegins, EachWayGoesOn, EachOverTells};

/// A whole call sends as many of the first bytes of its payload as its answer tells; these are all that
/// it stored. It gets all the bytes that it loaded; these are as many as its answer tells.
pub fn answers_tell_bytes()
    ensures { AnswersTellBytes }
{}

/// A call that begins is on its way.
pub fn way_begins()
    ensures { WayBegins }
{}

/// Whatever value the next event of a call takes, after it the call is on its way or over.
pub fn each_way_goes_on()
    ensures { EachWayGoesOn }
{}

/// The answer and the buffer tell what a call that is over has made of its end.
pub fn each_over_tells()
    ensures { EachOverTells }
{}
