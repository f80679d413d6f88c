//! Which built-in service a name asks for.
ghost use Rattle.std.specs.Prelude.{◌≡◌, ◌≤◌, ◌++◌, ℕ, true, List, length, map, take, codes, decimal, IfSome, Some, is_some, option_map};
ghost use Rattle.std.specs.Char.{to_ascii_uppercase};
ghost use Rattle.service_gate.specs.ServiceResult.{service, numbered_service, count_line, splits, exits, IsName, IsSmallCode};
ghost use Rattle.script_words.specs.Numbers.{number_of};
ghost use Rattle.service_gate.specs.Triple.{Triple, writes};
ghost use Rattle.service_gate.specs.Owing.{state_owes};

use crate::builtin::State;
use script_words::parse_number;

/// The greatest N of `first+N`.
const MOST_FIRST: u32 = 1_048_576;

/// The greatest N of `exit+N`.
const MOST_EXIT: u32 = 255;

/// Returns the service that the text names, before any input.
#[tactic(auto, unfolding(crate::specs::ServiceResult::service))]
pub(crate) fn state_named(text: &[u8]) -> Option<State>
    ensures { (input : List ℕ) → service text.now input ≡ option_map (λ s. state_owes s input) result }
{
    if text == b"echo".as_slice() {
        return Some(State::Echo);
    }
    if text == b"upper".as_slice() {
        return Some(State::Upper);
    }
    if text == b"count".as_slice() {
        return Some(State::Count { taken: 0 });
    }
    if text == b"split".as_slice() {
        return Some(State::Split { to_stderr: false });
    }
    numbered(text)
}

// The services whose names end in a number.
fn numbered(name: &[u8]) -> Option<State>
    ensures { (input : List ℕ) → numbered_service name.now input ≡ option_map (λ s. state_owes s input) result }
{
    if let Some(digits) = name.strip_prefix(b"first+") {
        let left = number_to(MOST_FIRST, digits)?;
        return Some(State::First { left });
    }
    let digits = name.strip_prefix(b"exit+")?;
    let code = number_to(MOST_EXIT, digits)?;
    Some(State::Exit { code: code as u8 })
}

// The number that the text spells, as `parse_number` reads it.
fn number_to(most: u32, text: &[u8]) -> Option<u32>
    ensures value { result ≡ number_of most text.now }
    ensures in_range { IfSome result (λ n. n ≤ most) }
{
    let number = parse_number(text, u64::from(most))?;
    Some(number as u32)
}

/// What each service does, name by name: each of the six kinds of name has its service, and any
/// other text has none.
#[tactic(auto, unfolding(crate::specs::ServiceResult::service))]
pub fn services_by_name()
    ensures echo { (input : List ℕ) → service (codes "echo") input ≡ Some (writes input) }
    ensures upper { (input : List ℕ) → service (codes "upper") input ≡ Some (writes (map to_ascii_uppercase input)) }
    ensures count { (input : List ℕ) → service (codes "count") input ≡ Some (writes (count_line (length input))) }
    ensures first { (n : ℕ) (input : List ℕ) → n ≤ 1048576 → service (codes "first+" ++ decimal n) input ≡ Some (writes (take n input)) }
    ensures split { (input : List ℕ) → service (codes "split") input ≡ Some (splits true input) }
    ensures exit { (n : ℕ) (input : List ℕ) → n ≤ 255 → service (codes "exit+" ++ decimal n) input ≡ Some (exits n) }
    ensures others { (name : List ℕ) (input : List ℕ) → ¬ IsName name → service name input ≡ None }
{}

/// What holds of every service: whether a name has one doesn't depend on the input, and its exit
/// code is 0 to 255.
#[tactic(auto, using(crate::proofs::EveryService::known_anyway, crate::proofs::EveryService::small_codes))]
pub fn every_service()
    ensures known { (name one other : List ℕ) → is_some (service name one) ≡ is_some (service name other) }
    ensures codes { (name input : List ℕ) (gives : Triple) → service name input ≡ Some gives → IsSmallCode gives.code }
{}
