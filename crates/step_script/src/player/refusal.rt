//! Why a line of a script can't be carried out.
ghost use Rattle.std.specs.Prelude.{◌≡◌, ◌≢◌};
ghost use Rattle.step_script.specs.Parts.Refusals.{line_refusal};

use vchan_core::Refusal as CallRefusal;

/// Why an end couldn't do what a line says: the first of these that applies.
#[derive(Clone, Copy)]
pub(crate) enum LineRefusal {
    /// The end was turned over to a hostile user.
    Turned,
    /// The end is inside no call, or the client has already connected.
    Idle,
    /// The end is shut.
    Shut,
    /// The client hasn't connected yet.
    Unconnected,
}

/// Returns why an end that is inside no call can't begin one that a script names.
pub(crate) fn refusal_of_call(why: CallRefusal) -> LineRefusal
    requires between { why ≢ CallRefusal.Busy }
    requires some { why ≢ CallRefusal.NoBytes }
    ensures { result ≡ line_refusal why }
{
    match why {
        CallRefusal::Shut => LineRefusal::Shut,
        CallRefusal::Unconnected => LineRefusal::Unconnected,
        CallRefusal::Connected => LineRefusal::Idle,
        CallRefusal::Busy | CallRefusal::NoBytes => unreachable!(),
    }
}
