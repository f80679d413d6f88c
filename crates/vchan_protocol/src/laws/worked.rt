//! Worked rows, which check the definitions that the laws rest on.
ghost use Rattle.vchan_protocol.specs.Rows.WorkedAnswers.{AnswerIsAsWorked};
ghost use Rattle.vchan_protocol.specs.Rows.WorkedOneEnd.{OneEndIsAsWorked};
ghost use Rattle.vchan_protocol.specs.Rows.WorkedSignals.{SignalIsAsWorked};
ghost use Rattle.vchan_protocol.specs.Rows.WorkedTurn.{TurnIsAsWorked};

/// What a write, a read and two drains have loaded and moved.
pub fn worked_answer()
    ensures { AnswerIsAsWorked }
{}

/// An end's request stands, then a test of its bit is owed, and then the signal. A close owes a signal too.
pub fn worked_signal()
    ensures { SignalIsAsWorked }
{}

/// An end is turned after its reader got two of three bytes, and the reader reads on.
pub fn worked_turn()
    ensures { TurnIsAsWorked }
{}

/// What a write and a read make of their ends follows from each end's own events and answers alone.
pub fn worked_one_end()
    ensures { OneEndIsAsWorked }
{}
