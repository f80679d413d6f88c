//! Worked rows: two domains and their calls, which `refusals` plays, all pairs of 32 domains, names that are
//! cleaned, and a Terminated by a third domain. Contracts say the rest.
ghost use Rattle.std.specs.Prelude.{◌≡◌, ◌≤◌, IfSome, IfOk, length};
ghost use Rattle.call_broker.specs.Domains.{count_of};

use crate::frames::{name_becomes, service_becomes, target_becomes, text};
use call_broker::{Broker, Cause, Decision, DomainEntry, Event};
use std::alloc::Global;
use std::process::Abort;
use std::test::Fail;
use vchan_io::Memory;

/// An event as a row has it.
#[derive(Clone, Copy)]
enum Told {
    /// A trigger: its sender, target and service.
    Asks(u32, &'static str, &'static str),
    /// A Terminated: its sender, the other domain and the port.
    Ends(u32, u32, u32),
    /// A domain that is dropped.
    Drops(u32),
}

macro_rules! refused {
    ($cause:expr) => {
        Decision::Refused { cause: $cause }
    };
}

macro_rules! accepted {
    ($to:expr, $port:expr) => {
        Decision::Accepted {
            to: $to,
            port: $port,
        }
    };
}

macro_rules! ended {
    ($from:expr, $to:expr, $port:expr) => {
        Decision::Ended {
            from: $from,
            to: $to,
            port: $port,
        }
    };
}

/// An event, and the decision on it.
type Row = (Told, Decision);

/// A broker of domains with these names, and this many pages for each ordered pair; or `None` if these are no
/// pages of so many domains.
pub(crate) fn broker_with(
    alloc: Global,
    names: &[&str],
    pages: &[u32],
) -> Result<Option<Broker>, Memory>
    ensures { IfOk result (λ made. IfSome made (λ broker. count_of broker.hub ≡ length names.now)) }
{
    if names.len() > 32
        || pages.len() != names.len() * names.len()
        || !pages.iter().all(|p| *p <= 65_536)
    {
        return Ok(None);
    }
    let mut domains = Vec::new(alloc);
    for name in names {
        domains.push(DomainEntry {
            name: text(alloc, name)?,
        })?;
    }
    let pages = Vec::from_slice(alloc, pages)?;
    Ok(Some(Broker::new(alloc, domains, pages)?))
}

/// The same where these are pages of so many domains.
fn broker_of(alloc: Global, names: &[&str], pages: &[u32]) -> Result<Broker, Fail>
    ensures { IfOk result (λ broker. count_of broker.hub ≡ length names.now) }
{
    match broker_with(alloc, names, pages)? {
        Some(broker) => Ok(broker),
        None => Err(Fail::from("other pages")),
    }
}

/// The number of a domain, if it is one.
fn in_range(number: u32, domains: u32) -> Option<u32>
    ensures { IfSome result (λ n. (1 ≤ n) × (n ≤ domains)) }
{
    if 1 <= number && number <= domains {
        Some(number)
    } else {
        None
    }
}

/// Tells the broker an event. Returns what it decides, or `None` if the event comes from no domain of it.
fn tell(
    alloc: Global,
    broker: &mut Broker,
    domains: u32,
    told: Told,
) -> Result<Option<Decision>, Memory>
    requires { count_of broker.old.hub ≡ domains }
    ensures { count_of broker.new.hub ≡ domains }
{
    let (Told::Asks(from, ..) | Told::Ends(from, ..) | Told::Drops(from)) = told;
    let Some(from) = in_range(from, domains) else {
        return Ok(None);
    };
    let decision = match told {
        Told::Asks(_, target, service) => {
            let target = text(alloc, target)?;
            let service = text(alloc, service)?;
            let ident = text(alloc, "call-1")?;
            broker.event(Event::Trigger {
                from,
                target,
                service,
                ident,
            })?
        }
        Told::Ends(_, other, port) => broker.event(Event::Terminated { from, other, port })?,
        Told::Drops(_) => broker.event(Event::Dropped { domain: from })?,
    };
    Ok(Some(decision))
}

/// How long the journal is, what was decided last, and how many calls are live each way between the first two
/// domains.
fn standing(broker: &Broker) -> (usize, Option<Decision>, u32, u32) {
    let journal = broker.journal();
    let last = journal.last().map(|entry| entry.decision);
    (journal.len(), last, broker.live(1, 2), broker.live(2, 1))
}

/// Tells the broker an event. If memory is refused, the broker must be as before, and is told the same event
/// again.
fn decided(
    rt: &(impl Abort + AllocGlobal),
    broker: &mut Broker,
    domains: u32,
    told: Told,
) -> Result<Option<Decision>, Memory>
    requires { count_of broker.old.hub ≡ domains }
    ensures { count_of broker.new.hub ≡ domains }
{
    let before = standing(broker);
    match tell(rt.alloc(), broker, domains, told) {
        Ok(decision) => Ok(decision),
        Err(Memory) => {
            assert!(rt; standing(broker) == before);
            tell(rt.alloc(), broker, domains, told)
        }
    }
}

/// Tells the broker each event, and checks what it decides.
fn check_rows(
    rt: &(impl Abort + AllocGlobal),
    broker: &mut Broker,
    domains: u32,
    rows: &[Row],
) -> Result<(), Memory>
    requires { count_of broker.old.hub ≡ domains }
    ensures { count_of broker.new.hub ≡ domains }
{
    for (at, (told, decision)) in rows.iter().enumerate() {
        let decided = decided(rt, broker, domains, *told)?;
        assert!(rt; decided == Some(*decision), "row {at}");
    }
    Ok(())
}

/// Domains `a` and `b` with 20 pages from `a` to `b` and one back, after sixteen calls from `a` to `b`.
const TWO_DOMAINS: &[Row] = &[
    (ASKS_B, refused!(Cause::PairFull { live: 16 })),
    (Told::Ends(2, 1, 513), ended!(1, 2, 513)),
    (Told::Ends(2, 1, 513), Decision::PassedOver),
    (ASKS_B, accepted!(2, 545)),
    (Told::Asks(2, "a", "echo"), accepted!(1, 514)),
    (Told::Ends(1, 2, 514), ended!(2, 1, 514)),
    (
        Told::Asks(2, "a", "echo"),
        refused!(Cause::PortsSpent { next: 516 }),
    ),
    (Told::Asks(1, "none", "none"), refused!(Cause::NoDomain)),
    (Told::Asks(1, "a", "none"), refused!(Cause::SameDomain)),
    (Told::Asks(1, "b", "none"), refused!(Cause::NoService)),
    (Told::Drops(2), Decision::PassedOver),
    (ASKS_B, refused!(Cause::TargetDropped)),
    (Told::Asks(2, "a", "echo"), Decision::PassedOver),
    (Told::Ends(1, 2, 545), Decision::PassedOver),
    (Told::Drops(2), Decision::PassedOver),
];

const ASKS_B: Told = Told::Asks(1, "b", "echo");

/// Sixteen calls from `a` to `b`, and then the rows. The caller owns the broker, so that it is dropped at one
/// place.
pub(crate) fn check_two_domains(
    rt: &(impl Abort + AllocGlobal),
    broker: &mut Broker,
) -> Result<(), Memory>
    requires { count_of broker.old.hub ≡ 2 }
{
    for call in 0..16 {
        let port = 513 + 2 * call;
        check_rows(rt, broker, 2, &[(ASKS_B, accepted!(2, port))])?;
    }
    assert!(rt; broker.live(1, 2) == 16);
    check_rows(rt, broker, 2, TWO_DOMAINS)?;
    assert!(rt; broker.live(1, 2) == 0);
    assert!(rt; broker.live(1, 3) == 0);
    assert!(rt; broker.name(2).bytes() == b"b".as_slice());
    assert!(rt; broker.journal().len() == 16 + TWO_DOMAINS.len());
    Ok(())
}

/// Domains `a`, `b` and `c` with one page for each ordered pair.
const STRANGER: &[Row] = &[
    (ASKS_B, accepted!(2, 513)),
    (Told::Ends(3, 1, 513), Decision::PassedOver),
    (Told::Ends(3, 2, 513), Decision::PassedOver),
];

fn check_stranger(rt: &(impl Abort + AllocGlobal), broker: &mut Broker) -> Result<(), Memory>
    requires { count_of broker.old.hub ≡ 3 }
{
    check_rows(rt, broker, 3, STRANGER)?;
    assert!(rt; broker.live(1, 2) == 1);
    Ok(())
}

#[test]
fn terminated_by_stranger(rt: HostRuntime) -> Result<(), Fail> {
    let mut broker = broker_of(rt.alloc(), &["a", "b", "c"], &[0, 1, 1, 1, 0, 1, 1, 1, 0])?;
    Ok(check_stranger(&rt, &mut broker)?)
}

/// Domains `a` and `b_` with one page for each ordered pair.
const CLEANED: &[Row] = &[
    (Told::Asks(1, "b$", "first 1"), refused!(Cause::NoService)),
    (Told::Asks(1, "b@", "echo"), refused!(Cause::NoDomain)),
    (Told::Asks(1, "b ", "first+1"), accepted!(2, 513)),
];

fn check_cleaned(rt: &(impl Abort + AllocGlobal)) -> Result<(), Fail> {
    let mut broker = broker_of(rt.alloc(), &["a", "b_"], &[0, 1, 1, 0])?;
    Ok(check_rows(rt, &mut broker, 2, CLEANED)?)
}

#[test]
fn cleaned_names(rt: HostRuntime) -> Result<(), Fail> {
    let alloc = rt.alloc();
    assert!(rt; name_becomes(alloc, "a b$", b"a_b_")?);
    assert!(rt; service_becomes(alloc, "echo a+b", b"echo_a+b")?);
    assert!(rt; target_becomes(alloc, "@x:y+z", b"@x:y_z")?);
    check_cleaned(&rt)
}

/// The names of 32 domains.
const NAMES: [&str; 32] = [
    "d1", "d2", "d3", "d4", "d5", "d6", "d7", "d8", "d9", "d10", "d11", "d12", "d13", "d14", "d15",
    "d16", "d17", "d18", "d19", "d20", "d21", "d22", "d23", "d24", "d25", "d26", "d27", "d28",
    "d29", "d30", "d31", "d32",
];

/// One call for each ordered pair of the 32 domains, which is to get its pair's first port or,
/// after this many rounds, a later one.
fn ask_all_pairs(
    rt: &(impl Abort + AllocGlobal),
    broker: &mut Broker,
    round: u32,
) -> Result<(), Memory>
    requires count { count_of broker.old.hub ≡ 32 }
    requires rounds { round ≤ 5 }
    ensures { count_of broker.new.hub ≡ 32 }
{
    for from in 1..33 {
        for to in 1..33 {
            if from == to {
                continue;
            }
            let first = if from < to { 513 } else { 514 };
            let asks = Told::Asks(from, NAMES[to as usize - 1], "echo");
            let decided = tell(rt.alloc(), broker, 32, asks)?;
            let wanted = accepted!(to, first + 2 * round);
            assert!(rt; decided == Some(wanted), "from {from} to {to}");
        }
    }
    Ok(())
}

/// Five rounds.
fn check_rounds(rt: &(impl Abort + AllocGlobal), broker: &mut Broker) -> Result<(), Memory>
    requires { count_of broker.old.hub ≡ 32 }
{
    for round in 0..5 {
        ask_all_pairs(rt, broker, round)?;
    }
    assert!(rt; broker.journal().len() == 4960);
    Ok(())
}

#[test]
fn all_pairs(rt: HostRuntime) -> Result<(), Fail> {
    let mut broker = broker_of(rt.alloc(), &NAMES, &[5; 1024])?;
    Ok(check_rounds(&rt, &mut broker)?)
}
