//! The name of a service, as a word of a command.
ghost use Rattle.std.specs.Prelude.{◌≡◌, ◌≤◌, ℕ, List, IsSome, length};
ghost use Rattle.service_gate.specs.ServiceResult.{service};
ghost use Rattle.vchan_top.specs.Command.{service_name_of};

use service_gate::Builtin;
use std::marker::Model;

/// The most bytes of a name. No built-in service has a longer one.
const MOST: usize = 63;

/// The name of a built-in service. Contracts see its bytes.
#[derive(Drop)]
pub struct ServiceName {
    text: [u8; MOST],
    len: usize,
}

impl Model for ServiceName {
    ghost use Rattle.std.specs.Prelude.{ℕ, List, ◌≤◌, take, IsSome};
    ghost use Rattle.service_gate.specs.ServiceResult.{service};

    ghost Value = { List ℕ };

    ghost view = { λ n. take n.len n.text };

    ghost invariant = { λ n. (n.len ≤ 63) × ((input : List ℕ) → IsSome (service (take n.len n.text) input)) };
}

impl ServiceName {
    /// Returns the name in a word, if it names a built-in service.
    pub(crate) fn of(word: &[u8]) -> Option<ServiceName>
        ensures { result ≡ service_name_of word.now }
    {
        if word.len() > MOST {
            return None;
        }
        match Builtin::named(word) {
            Some(_) => Some(ServiceName::copied(word)),
            None => None,
        }
    }

    // The name in a word.
    fn copied(word: &[u8]) -> ServiceName
        requires few { length word.now ≤ 63 }
        requires named { (input : List ℕ) → IsSome (service word.now input) }
        ensures { result ≡ word.now }
    {
        let mut text = [0; MOST];
        text[..word.len()].copy_from_slice(word);
        ServiceName {
            text,
            len: word.len(),
        }
    }

    /// Returns the bytes of the name.
    pub(crate) fn bytes(&self) -> &[u8]
        ensures bytes { result.now ≡ self.now }
        ensures named { (input : List ℕ) → IsSome (service self.now input) }
    {
        &self.text[..self.len]
    }
}
