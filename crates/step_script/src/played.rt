//! What a script printed.
ghost use Rattle.std.specs.Prelude.{◌≡◌, IfOk};

use std::alloc::Global;
use std::marker::Model;
use vchan_io::Memory;

/// What a script printed. Contracts see it as its text.
#[derive(Drop)]
pub struct Played {
    text: Vec<u8>,
}

impl Model for Played {
    ghost use Rattle.std.specs.Prelude.{ℕ, List};

    ghost Value = { List ℕ };

    ghost view = { λ p. p.text.items };
}

impl Played {
    pub(crate) fn of(text: Vec<u8>) -> Played
        ensures { result ≡ text.items }
    {
        Played { text }
    }

    /// Returns the text: each output line, ended by a line feed. It takes no memory.
    pub fn into_text(self) -> Vec<u8>
        ensures { result.items ≡ self }
    {
        self.text
    }
}

/// Returns the text of what a script printed: each output line, ended by a line feed.
///
/// # Errors
///
/// [`Memory`] if memory runs out; no other.
pub fn text(alloc: Global, played: &Played) -> Result<Vec<u8>, Memory>
    ensures { IfOk result (λ bytes. bytes.items ≡ played.now) }
{
    Ok(Vec::from_slice(alloc, played.text.as_slice())?)
}
