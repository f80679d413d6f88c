//! The ports of the ordered pairs. A port names, with the two domains, which of them is the caller.
ghost use Rattle.std.specs.Prelude.{◌≡◌, ◌≤◌};
ghost use Rattle.call_broker.specs.Domains.{first_port, port_after};
ghost use Rattle.call_broker.specs.Pair.{Ordered, by_port};

/// The first port of a pair whose caller has the lower number: VCHAN_BASE_DATA_PORT in `qrexec.h`
/// of Qubes.
const FIRST_UP: u32 = 513;

/// The first port of a pair whose caller has the higher number.
const FIRST_DOWN: u32 = 514;

/// Returns the port that an ordered pair of domains gives out after this many calls, at most
/// 65,536.
pub fn port_after(from: u32, to: u32, calls: u32) -> u32
    requires { calls ≤ 65536 }
    ensures { result ≡ port_after from to calls }
{
    first_port(from, to) + 2 * calls
}

fn first_port(from: u32, to: u32) -> u32
    ensures { result ≡ first_port from to }
{
    if from < to { FIRST_UP } else { FIRST_DOWN }
}

/// Returns the caller and the server of a call between two domains that has this port.
pub(crate) fn pair_by_port(one: u32, other: u32, port: u32) -> (u32, u32)
    ensures { Ordered result.0 result.1 ≡ by_port one other port }
{
    let lower = one.min(other);
    let higher = one.max(other);
    if port % 2 == 1 {
        (lower, higher)
    } else {
        (higher, lower)
    }
}
