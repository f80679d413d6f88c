//! Laws of every call, whatever values its events take. A law is a function with no body, whose
//! contract states it.
pub mod answers;
pub mod endings;
pub mod invariant;
pub mod lists;
pub mod one_call;
pub mod one_end;
pub mod signals;
pub mod turned;
pub mod worked;

ghost use Rattle.vchan_protocol.specs.Rows.WorkedRow.{RowIsAsWorked};
ghost use Rattle.vchan_protocol.specs.Table.CallLaws.{EachCallEnds, EachCallFits, EachCallMovesAtMost};
ghost use Rattle.vchan_protocol.specs.Honest.HonestLaws.{OpeningIsLawful, BeginIsLawful, EventIsLawful, CallIsLawful, ReachedIsLawful, CallIsReached};

/// A call of `n` bytes ends within `7 + min(n, size)` events, and a drain within `10 + min(n, size)`.
/// Here `size` is that of the ring through which the call moves bytes.
pub fn each_call_ends()
    ensures { EachCallEnds }
{}

/// Each event of a call is on a word that the page has, and the number of each byte that it moves
/// is below `min(n, size)`.
pub fn each_call_fits()
    ensures { EachCallFits }
{}

/// No call of `n` bytes moves more than `min(n, size)` bytes.
pub fn each_call_moves_at_most()
    ensures { EachCallMovesAtMost }
{}

/// A page is lawful when it is opened.
pub fn lawful_opening()
    ensures { OpeningIsLawful }
{}

/// An end of a lawful page that begins a call leaves the page lawful, while both ends are honest.
pub fn lawful_begin()
    ensures { BeginIsLawful }
{}

/// The next event of either end of a lawful page leaves the page lawful, while both are honest.
pub fn honest_step()
    ensures { EventIsLawful }
{}

/// A whole call of either end of a lawful page leaves the page lawful, while both are honest.
pub fn lawful_call()
    ensures { CallIsLawful }
{}

/// In whatever order two honest ends make their events, the page is lawful. So the reader of each ring
/// has got a prefix of what its writer sent.
pub fn honest_ends_are_lawful()
    ensures { ReachedIsLawful }
{}

/// A whole call is one way in which honest ends go on.
pub fn calls_are_reached()
    ensures { CallIsReached }
{}

/// A worked row of the laws' definitions: three bytes go through the left ring, across the end of
/// the indices and of the ring.
pub fn worked_row()
    ensures { RowIsAsWorked }
{}
