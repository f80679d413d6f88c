//! Laws of a broker's decisions, over all its journals. A law is a function with no body, whose
//! contract states it.
ghost use Rattle.call_broker.specs.Laws.{EachPairStandsAlone, OthersCountForNothing, DecidedByOwnEvents, StrangersChangeNothing, PortsApart, PortNamesPair, AcceptedCallsAreWell};
ghost use Rattle.call_broker.specs.Worked.{RowsAreAsWorked};

/// The entries of a pair in a journal are what the pair makes of its own events alone, in order.
pub fn each_pair_stands_alone()
    ensures { EachPairStandsAlone }
{}

/// Two journals that differ only in events of other pairs have the same entries of this pair: no
/// domain can change what is decided between two others.
pub fn others_count_for_nothing()
    ensures { OthersCountForNothing }
{}

/// Events that differ only in those of other pairs leave the next decision on this pair the same.
pub fn decided_by_own_events()
    ensures { DecidedByOwnEvents }
{}

/// An event of another pair, wherever it comes, leaves the next decision on this pair as it was.
pub fn strangers_change_nothing()
    ensures { StrangersChangeNothing }
{}

/// The accepted calls of a pair have different ports, from its first port on by steps of 2, and are
/// no more than the pair has pages. So no two calls have one page.
pub fn ports_apart()
    ensures { PortsApart }
{}

/// Two domains and a port name one ordered pair, whichever of the two is named first.
pub fn port_names_pair()
    ensures { PortNamesPair }
{}

/// Each accepted call is to the other domain that its cleaned target names, for a service that
/// exists.
pub fn accepted_calls_are_well()
    ensures { AcceptedCallsAreWell }
{}

/// Worked rows of the definitions: two domains and their calls, and a third domain's Terminated.
pub fn worked_rows()
    ensures { RowsAreAsWorked }
{}
