//! Laws of a page whose ends may be turned over to a hostile user, who may make any event.
ghost use Rattle.vchan_protocol.specs.Hostile.TurnedLaws.{TurnedEventIsLawful, StrayIsLawful, EventGrowsLists, StrayKeepsLists, BytesLieAtCounts, EachTurnStands};

/// What holds of a page with turned ends still holds after the next event of an honest end, whatever its
/// peer has stored.
pub fn turned_event()
    ensures { TurnedEventIsLawful }
{}

/// It still holds after any event of a turned end's hostile user.
pub fn stray_event()
    ensures { StrayIsLawful }
{}

/// An event of an end leaves its peer as it is, and its own lists only grow.
pub fn event_grows_lists()
    ensures { EventGrowsLists }
{}

/// An event of a hostile user leaves the peer as it is, and the lists of a turned end stay the same.
pub fn stray_keeps_lists()
    ensures { StrayKeepsLists }
{}

/// Whatever its peer has stored, an honest end stores and loads ring bytes only at the places of its own
/// counts. The indices that it stores are its own counts, moved on by the bytes of its call.
pub fn bytes_lie_at_counts()
    ensures { BytesLieAtCounts }
{}

/// An end that is turned keeps what it sent and got, and `consumed` is then how much the reader of its
/// ring had got. Its hostile user's events change neither.
pub fn each_turn_stands()
    ensures { EachTurnStands }
{}
