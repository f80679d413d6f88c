//! The progress of a task.

/// How far a hostile domain has come with its acts.
#[derive(Clone, Copy, Debug, PartialEq, Eq)]
pub struct Progress {
    /// How many acts are done.
    pub acts: usize,
    /// How many turns the act under way has taken.
    pub turns: u32,
    /// How many bytes of it were sent.
    pub said: usize,
    /// The domain's own producer index of its control channel. It is read from the page only once
    /// and kept in this field, so that no other domain moves it.
    pub own: u32,
}

impl Progress {
    ghost use Rattle.std.specs.Prelude.{◌≡◌, ◌+◌, ◌<◌, ◌^◌};
    ghost use Rattle.hostile_task.specs.Saying.{after_turn};

    /// Returns the progress of a domain that has done nothing yet, and found this producer index.
    pub fn start(own: u32) -> Progress
        ensures { result ≡ record { acts = 0; turns = 0; said = 0; own = own } }
    {
        Progress {
            acts: 0,
            turns: 0,
            said: 0,
            own,
        }
    }

    /// Counts one more turn of the act under way.
    pub fn rest(&mut self)
        requires { self.old.turns + 1 < 2 ^ 32 }
        ensures { self.new ≡ record self.old { turns = self.old.turns + 1 } }
    {
        self.turns += 1;
    }

    /// Ends a turn of the act under way: the next act follows if this one is over, else its next
    /// turn.
    pub fn end_turn(&mut self, over: bool)
        requires { self.old.acts + 1 < 2 ^ 64 }
        ensures { self.new ≡ after_turn over self.old }
    {
        if over {
            self.acts += 1;
            self.turns = 0;
            self.said = 0;
        }
    }
}
