//! The laws, each the contract of a function with no body.
ghost use Rattle.ring_words.specs.declared.order.Orders.{Orders};
ghost use Rattle.standstill_laws.specs.Page.{PageStandsStill, StillPagesAreThere};
ghost use Rattle.standstill_laws.specs.Turns.{NoSessionStandsStill};
ghost use Rattle.standstill_laws.specs.Pace.{NoSessionRests};

/// If both ends of a page between honest ends drained it and found nothing, and no index changed since, then
/// each has got all that the other sent, and no room that a write, a send or a look lacked is still lacking. A
/// peer that was found shut, and whose live byte hasn't changed since, is shut.
pub fn page_stands_still()
    ensures { PageStandsStill }
{}

/// Such pages exist, whatever their orders: one that was just opened, by what a drain of it loads.
pub fn still_pages_are_there()
    ensures { (orders : Orders) → StillPagesAreThere orders }
{}

/// An open session between honest ends doesn't stand still: it isn't so that both its sides made quiet turns
/// and nothing changed since.
pub fn no_session_stands_still()
    ensures { NoSessionStandsStill }
{}

/// The two sides of an open session between honest ends don't both make eight turns in a row in which nothing moved, if
/// what their calls found in them was so at moments of the page. A side that made so many has an end across from it that
/// wasn't retired before.
pub fn no_session_rests()
    ensures { NoSessionRests }
{}
