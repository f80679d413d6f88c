//! The built-in services, and how each answers its input.
use crate::append::{append_count, append_first, append_in_turn, append_upper};
use crate::naming::state_named;
use crate::service::Service;
use vchan_io::Memory;

/// A built-in service, with what it remembers of its input. Only `named` makes one, so each is a
/// service that has a name.
#[derive(Clone, Copy, Debug, PartialEq, Eq)]
pub struct Builtin {
    state: State,
}

/// Which service it is, and what it remembers.
#[derive(Clone, Copy, Debug, PartialEq, Eq)]
pub(crate) enum State {
    /// `echo`: the input on stdout.
    Echo,
    /// `upper`: the input on stdout, with `a` to `z` as `A` to `Z`.
    Upper,
    /// `count`: the number of input bytes modulo 2^64, in decimal, and a line feed.
    Count {
        /// The bytes so far, modulo 2^64.
        taken: u64,
    },
    /// `first+N`: the first N bytes on stdout.
    First {
        /// How many of them may still come.
        left: u32,
    },
    /// `split`: the bytes in turn on stdout and stderr, from stdout on.
    Split {
        /// Whether the next byte goes to stderr.
        to_stderr: bool,
    },
    /// `exit+N`: no output, and the exit code N.
    Exit {
        /// The exit code.
        code: u8,
    },
}

impl Builtin {
    ghost use Rattle.std.specs.Prelude.{◌≡◌, ℕ, List, option_map};
    ghost use Rattle.service_gate.specs.ServiceResult.{service};
    ghost use Rattle.service_gate.specs.Owing.{builtin_owes};

    /// Returns the service that the text names, before any input. Returns `None` if and only if the
    /// text names none: it is none of the six names, or its number is out of range, or not in
    /// decimal digits without a leading zero.
    pub fn named(text: &[u8]) -> Option<Builtin>
        ensures { (input : List ℕ) → service text.now input ≡ option_map (λ b. builtin_owes b input) result }
    {
        let state = state_named(text)?;
        Some(Builtin { state })
    }
}

impl Service for Builtin {
    ghost use Rattle.service_gate.specs.Owing.{builtin_owes};

    ghost owes = { builtin_owes };

    fn feed(&mut self, piece: &[u8], out: &mut Vec<u8>, err: &mut Vec<u8>) -> Result<(), Memory> {
        match &mut self.state {
            State::Echo => out.extend_from_slice(piece)?,
            State::Upper => append_upper(piece, out)?,
            State::Count { taken } => *taken = taken.wrapping_add(piece.len() as u64),
            State::First { left } => *left = append_first(*left, piece, out)?,
            State::Split { to_stderr } => {
                if *to_stderr {
                    append_in_turn(piece, err, out)?;
                } else {
                    append_in_turn(piece, out, err)?;
                }
                *to_stderr = *to_stderr != (piece.len() % 2 == 1);
            }
            State::Exit { .. } => {}
        }
        Ok(())
    }

    fn end(&mut self, out: &mut Vec<u8>, _err: &mut Vec<u8>) -> Result<i32, Memory> {
        match self.state {
            State::Count { taken } => {
                append_count(taken, out)?;
                Ok(0)
            }
            State::Exit { code } => Ok(i32::from(code)),
            _ => Ok(0),
        }
    }
}
