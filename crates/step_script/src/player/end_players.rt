//! The two ends as a script plays them, each by its role.
ghost use Rattle.std.specs.Prelude.{◌≡◌, []};
ghost use Rattle.std.specs.Borrow.{sem};

use crate::player::end_player::EndPlayer;
use ring_words::Role;
use std::alloc::Global;

/// What is kept for the two ends.
#[derive(Drop)]
pub(crate) struct EndPlayers {
    server: EndPlayer,
    client: EndPlayer,
}

impl EndPlayers {
    ghost use Rattle.step_script.specs.Parts.EndPlayers.{LendsPlayer, player_of};

    /// Returns what is kept for two ends that have made no call yet.
    pub(crate) fn new(alloc: Global) -> EndPlayers
        ensures server { result.server.buffer.items ≡ [] }
        ensures client { result.client.buffer.items ≡ [] }
    {
        EndPlayers {
            server: EndPlayer::new(alloc),
            client: EndPlayer::new(alloc),
        }
    }

    /// Returns what is kept for an end, for its caller to change.
    #[inline(always)]
    pub(crate) fn of_mut(&mut self, who: Role) -> &mut EndPlayer
        ensures* writes_back { sem 𝓛 (LendsPlayer self.entry who result) }
        ensures value { result.now ≡ player_of self.old who }
    {
        match who {
            Role::Server => &mut self.server,
            Role::Client => &mut self.client,
        }
    }
}
