//! The calls of one ordered pair of domains, as plain numbers: which call a broker accepts, and with which port.
ghost use Rattle.std.specs.Prelude.{◌⊎◌, ◌≡◌, ◌↔◌, ◌<◌, ◌≤◌, ◌==◌, not};
ghost use Rattle.call_broker.specs.Domains.{Domains, pages_of};
ghost use Rattle.call_broker.specs.Pair.{PairState, has, takes_call};
ghost use Rattle.qrexec_c.specs.Pairs.{StandsFor, TellsDecision, with_call};

use call_broker::port_after;

/// How many live calls a pair may have.
const MOST_LIVE: u32 = 16;

/// The greatest number of calls of a pair.
const MOST_CALLS: u32 = 65_536;

/// The calls from one domain to another.
#[repr(C)]
#[derive(Clone, Copy)]
pub struct Pair {
    /// The ports of the live calls, the oldest first.
    pub live: [u32; 16],
    /// How many live calls there are.
    pub live_count: u32,
    /// How many calls were accepted.
    pub calls: u32,
}

/// Decides on a call from a domain to another one, of a service that there is, and enters one that is accepted.
///
/// `pages` is how many calls the pair can have in all, and `dropped` isn't 0 if the target was dropped. Returns 1 if the
/// call is accepted, and tells its port. Else it returns the first cause: 2 if the target was dropped; 3, and how many
/// calls are live, if these are sixteen; 4, and the port that would come next, if all pages had their call; 0 if the
/// numbers are those of no pair. Nothing is entered then.
#[unsafe(no_mangle)]
#[tactic(auto, using(crate::proofs::PairLaws::enters, crate::proofs::PairLaws::count_is))]
pub extern "C" fn qrexec_pair_call(
    pair: &mut Pair,
    from: u32,
    to: u32,
    pages: u32,
    dropped: u32,
    told: &mut u32,
) -> u32
    ensures none { result ≡ 0 ↔ (16 < pair.old.live_count) ⊎ (65536 < pair.old.calls) }
    ensures same { (result ≡ 0) ⊎ (2 ≤ result) → pair.new ≡ pair.old }
    ensures decides { 1 ≤ result → (hub : Domains) (s : PairState) → StandsFor pair.old s → has to s.dropped ≡ not (dropped == 0) → pages_of hub from to ≡ pages →
        TellsDecision result told.new to (takes_call hub s from to) }
    ensures enters { result ≡ 1 → (s : PairState) → StandsFor pair.old s → StandsFor pair.new (with_call told.new s) }
{
    if pair.live_count > MOST_LIVE || pair.calls > MOST_CALLS {
        return 0;
    }
    if dropped != 0 {
        return 2;
    }
    if pair.live_count == MOST_LIVE {
        *told = MOST_LIVE;
        return 3;
    }
    let port = port_after(from, to, pair.calls);
    *told = port;
    if pair.calls >= pages {
        return 4;
    }
    pair.live[pair.live_count as usize] = port;
    pair.live_count += 1;
    pair.calls += 1;
    1
}
