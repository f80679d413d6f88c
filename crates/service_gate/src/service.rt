//! What a caller of a run may write of its own: a service, and the gate that a worker passes before each turn of
//! a task.
ghost use Rattle.std.specs.Prelude.{ℕ, List, [], OnOk, OnErr, IfOk};
ghost use Rattle.service_gate.specs.Triple.{Triple, Feeds, Ends, IsKept};

use vchan_io::Memory;

/// A service: bytes come in, bytes go out on stdout and stderr, and at the end there is an exit
/// code.
///
/// Its meaning is what it still owes: for each list of input bytes that may still come, the two
/// outputs and the code. So a service need not store the input that has passed. All that its calls
/// up to `end` append is what it owed at first for the whole input, however the input was cut.
/// Nothing is claimed of calls after `end`.
pub trait Service: Drop {
    ghost owes: { Self → List ℕ → Triple };

    /// Takes the next piece of the input, and appends to `out` and `err` what the service gives for
    /// it. If memory runs out, both are as they were, and as much is owed as before.
    fn feed(&mut self, piece: &[u8], out: &mut Vec<u8>, err: &mut Vec<u8>) -> Result<(), Memory>
        ensures ok { OnOk result (Feeds (owes self.old) (owes self.new) piece.now out.old.items out.new.items err.old.items err.new.items) }
        ensures no_memory { OnErr result (IsKept (owes self.old) (owes self.new) out.old.items out.new.items err.old.items err.new.items) };

    /// Takes the end of the input: appends what is still owed if no more input comes, and returns
    /// the exit code. If memory runs out, both outputs are as they were, and as much is owed as
    /// before.
    fn end(&mut self, out: &mut Vec<u8>, err: &mut Vec<u8>) -> Result<i32, Memory>
        ensures ok { IfOk result (λ code. Ends (owes self.old []) code out.old.items out.new.items err.old.items err.new.items) }
        ensures no_memory { OnErr result (IsKept (owes self.old) (owes self.new) out.old.items out.new.items err.old.items err.new.items) };
}

/// What a worker of a pool calls before each turn. A test's gate may hold its caller for a given
/// number of tries; no gate has a handle by which it could wait.
pub trait Gate: Sync {
    /// Tells that a worker is about to make a turn of the task at this place.
    fn enter(&self, task: u32);
}

/// A gate that holds no worker.
#[derive(Clone, Copy, Debug)]
pub struct OpenGate;

impl Gate for OpenGate {
    fn enter(&self, _task: u32) {}
}
