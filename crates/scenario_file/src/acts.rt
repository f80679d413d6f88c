//! What a hostile domain does.
ghost use Rattle.std.specs.Prelude.{◌≡◌};

use crate::spelled::SpelledBytes;
use qrexec_frame::Text;
use ring_words::WordName;
use std::marker::Model;

/// A page of a hostile domain that an act names.
#[derive(Debug, Drop)]
pub enum ActPage {
    /// Its control page.
    Control,
    /// A data page.
    Payload {
        /// The name of the domain at the page's other end.
        peer: Text,
        /// The page's port.
        port: u32,
    },
}

/// One thing that a hostile domain does.
#[derive(Debug, Drop)]
pub enum Act {
    /// Sends the greeting of version 3 on its control channel.
    Hello,
    /// Sends some bytes on its control channel.
    Say {
        /// The bytes.
        bytes: SpelledBytes,
    },
    /// Sends triggers, with the idents `h-1`, `h-2` and so on.
    Trigger {
        /// The target that each names.
        to: Text,
        /// The service that each asks for.
        service: Text,
        /// How many triggers, from 1 to 64.
        count: u32,
    },
    /// Sends that a call has ended.
    Terminate {
        /// The number of the domain that it names.
        domain: u32,
        /// The port that it names.
        port: u32,
    },
    /// Stores a value to a word of a page.
    Poke {
        /// The page.
        page: ActPage,
        /// The word; the place of a ring's byte may be any number.
        word: WordName,
        /// The value.
        value: u64,
    },
    /// Stores drawn values to drawn words of drawn pages.
    Scribble {
        /// Where the generator of numbers begins, at most 65,535.
        seed: u32,
        /// How many stores, from 1 to 65,536.
        count: u32,
    },
    /// Signals on each of its pages.
    Signal,
    /// Does nothing.
    Rest {
        /// For how many turns, from 1 to 65,536.
        turns: u32,
    },
}

/// The acts of a hostile domain, in order: at most 256, with the texts and numbers that an act may
/// have. Contracts see them as a list.
#[derive(Debug, Drop)]
pub struct Acts {
    list: Vec<Act>,
}

impl Model for Acts {
    ghost use Rattle.std.specs.Prelude.{List};
    ghost use Rattle.scenario_file.specs.declared.acts.Act.{Act};

    ghost Value = { List Act };

    ghost use Rattle.scenario_file.specs.Acts.{AreActs};

    ghost view = { λ a. a.list.items };

    ghost invariant = { λ a. AreActs a.list.items };
}

impl Acts {
    ghost use Rattle.scenario_file.specs.Acts.{AreActs};

    /// Returns the acts of a list.
    pub fn of(list: Vec<Act>) -> Acts
        requires { AreActs list.items }
        ensures { result ≡ list.items }
    {
        Acts { list }
    }

    /// Borrows the acts, in order.
    pub fn list(&self) -> &[Act]
        ensures list { result.now ≡ self.now }
        ensures fit { AreActs result.now }
    {
        self.list.as_slice()
    }
}
