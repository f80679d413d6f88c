//! Laws of signals. Between two honest ends none is lost: an end that asked to be woken, found nothing
//! and waits is woken as soon as there is something.
ghost use Rattle.vchan_protocol.specs.Signals.SignalLaw.{SignalsAtOpening, BeginKeepsSignals, EventKeepsSignals, CallKeepsSignals, NoSignalIsLost, WaitMissesNothing};

/// On a page on which nothing has happened yet, no signal is lost.
pub fn no_signal_lost_at_opening()
    ensures { SignalsAtOpening }
{}

/// An end that begins a call loses no signal.
pub fn begin_keeps_signals()
    ensures { BeginKeepsSignals }
{}

/// No event of an honest end loses a signal, for itself or for its peer.
pub fn event_keeps_signals()
    ensures { EventKeepsSignals }
{}

/// No whole call of an honest end loses a signal.
pub fn call_keeps_signals()
    ensures { CallKeepsSignals }
{}

/// Whatever calls two honest ends make, and in whatever order their events come, no signal is lost.
pub fn no_signal_is_lost()
    ensures { NoSignalIsLost }
{}

/// An end waits if it has asked and taken no event since, none is there to take, and its peer is between
/// two calls. While it waits its bit is set, and its peer's index and live byte are as it loaded them last.
pub fn wait_misses_nothing()
    ensures { WaitMissesNothing }
{}
