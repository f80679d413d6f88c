//! Laws of what tasks owe. A law is a function with no body, whose contract states it.
ghost use Rattle.task_duties.specs.Worked.{RowsAreAsWorked};

/// Worked rows of the definitions: lines, what is heard, the limit of sixteen, what is served,
/// outboxes, and the trail of a hostile end.
pub fn rows_are_as_worked()
    ensures { RowsAreAsWorked }
{}
