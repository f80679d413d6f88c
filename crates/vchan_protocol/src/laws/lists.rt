//! Laws of whole calls, which an end makes while its peer makes no event.
ghost use Rattle.vchan_protocol.specs.Lists.ListLaw.{WholeCallsFollowLists, CallsInARowFollowLists, CallsFromTheOpeningFollowLists};

/// Between two honest ends each whole call is a call on lists. Its answer is the one that the lists of
/// sent and got bytes tell, it moves what they tell, and the bytes that it loads are the first ones that
/// waited.
pub fn whole_calls_follow_lists()
    ensures { WholeCallsFollowLists }
{}

/// Whole calls of both ends, one after the other in any order, are the calls on lists: they give the
/// answers that the lists tell, and change the lists as the calls on lists do.
pub fn calls_in_a_row_follow_lists()
    ensures { CallsInARowFollowLists }
{}

/// The same holds from the opening of a page on, when nothing was sent and nothing got.
pub fn calls_from_the_opening_follow_lists()
    ensures { CallsFromTheOpeningFollowLists }
{}
