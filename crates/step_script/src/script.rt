//! A script as it is played.
use ring_words::{Orders, Role, WordName};
use smallvec::SmallVec;
use std::marker::Model;
use vchan_core::{Call, EndState};

/// A script: how its page is opened, and the lines that are carried out on it, one after another.
/// Contracts see it as the list of its lines, the opening first.
#[derive(Drop)]
pub struct Script {
    pub(crate) opening: Opening,
    pub(crate) lines: Vec<ScriptLine>,
}

impl Model for Script {
    ghost use Rattle.std.specs.Prelude.{List, ◌∷◌};
    ghost use Rattle.step_script.specs.Language.Script.{StepLine, opens};

    ghost Value = { List StepLine };

    ghost use Rattle.step_script.specs.Parts.ScriptLines.{lines_seen, IsScript};

    ghost view = { λ s. opens s.opening ∷ lines_seen s.lines.items };

    ghost invariant = { λ s. IsScript s.opening s.lines.items };
}

/// How a page begins: the first line of a script, and its `start` line if it has one.
#[derive(Clone, Copy)]
pub struct Opening {
    /// The orders of the page's rings.
    pub orders: Orders,
    /// What the two order words hold, the left ring's first.
    pub said: (u16, u16),
    /// The client's state, fresh or open.
    pub state: EndState,
    /// The number at which all indices begin.
    pub start: u32,
}

/// A line after the opening that isn't skipped, with its byte string.
#[derive(Drop)]
pub(crate) struct ScriptLine {
    /// The line.
    pub(crate) line: Line,
    /// The bytes that its call writes or sends, none for any other line.
    pub(crate) payload: Payload,
}

/// What a line says, without the bytes that its call writes or sends. Only a write and a send have
/// such bytes, as many as the call names.
#[derive(Clone, Copy)]
pub(crate) enum Line {
    /// A whole call of one end.
    Call {
        /// The end that makes it.
        who: Role,
        /// What it calls.
        call: Call,
    },
    /// Begins a call of one end, which makes no event.
    Begin {
        /// The end that begins it.
        who: Role,
        /// What it calls.
        call: Call,
    },
    /// Makes some events of the call under way.
    Step {
        /// The end that makes them.
        who: Role,
        /// The most events, at least 1.
        most: u32,
    },
    /// Makes all events of the call under way that are left.
    Finish {
        /// The end that makes them.
        who: Role,
    },
    /// A store of a turned end.
    Poke {
        /// The end that was turned.
        who: Role,
        /// The word that is stored to.
        word: WordName,
        /// The value that it holds then.
        value: u64,
    },
    /// A signal of a turned end.
    Signal {
        /// The end that was turned.
        who: Role,
    },
    /// Prints the first 24 bytes of the page's image.
    Head,
    /// Prints the 4,096 bytes of the page's image.
    Image,
}

/// The bytes that a call writes or sends. Up to 16 lie in the line itself, since a script may have
/// many calls with a few bytes each.
pub(crate) type Payload = SmallVec<u8, 16>;
