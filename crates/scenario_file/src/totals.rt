//! The totals of a scenario: the bytes of its inputs, and the words of its pages.
ghost use Rattle.std.specs.Prelude.{◌≡◌, ◌≤◌, ◌*◌, length, sum_by, count_by, IfOk, OnOk};
ghost use Rattle.std.specs.List.{All};
ghost use Rattle.ring_words.specs.Page.{word_count};
ghost use Rattle.scenario_file.specs.Readings.{Gives};
ghost use Rattle.scenario_file.specs.RingsSeen.{rings_seen};
ghost use Rattle.scenario_file.specs.Scenario.{data_pages, hostile_pages, lays_page, stdin_total, words_laid, CallFits, DomainFits};
ghost use Rattle.scenario_file.specs.Tables.{within_totals, written_with};

use crate::error::ScenarioKind;
use crate::lookup::place_named;
use crate::place::{CheckError, KeyPlace, Section};
use crate::rings::Rings;
use crate::scenario::{CallPlan, Domain};
use ring_words::{Layout, Orders};

/// The greatest number of bytes of all inputs.
const MOST_STDIN_TOTAL: u64 = 8_388_608;

/// The greatest number of words of all pages.
const MOST_WORDS: u64 = 16_777_216;

/// Checks that the inputs and the pages aren't too many.
#[tactic(auto, using(crate::proofs::TotalLaws::words_by_numbers))]
pub(crate) fn check_totals<'t>(
    rings: Rings,
    domains: &[Domain],
    calls: &[CallPlan],
) -> Result<(), CheckError<'t>>
    requires few_domains { length domains.now ≤ 32 }
    requires few_calls { length calls.now ≤ 4096 }
    requires domains_fit { All DomainFits domains.now }
    requires calls_fit { All (CallFits domains.now) calls.now }
    ensures totals { let scenario = written_with (rings_seen rings) domains.now calls.now in
        Gives (λ x. scenario) result (within_totals scenario) }
    ensures stdin { OnOk result (stdin_total calls.now ≤ 8388608) }
    ensures words { OnOk result (words_laid (word_count rings.control) (word_count rings.payload) domains.now calls.now ≤ 16777216) }
{
    if stdin_total(domains, calls) > MOST_STDIN_TOTAL {
        Err(CheckError::Bad(ScenarioKind::TooMany, KeyPlace::key(Section::Top, "stdin")))
    } else if words_laid(rings.control, rings.payload, domains, calls) > MOST_WORDS {
        Err(CheckError::Bad(ScenarioKind::TooMany, KeyPlace::key(Section::Top, "words")))
    } else {
        Ok(())
    }
}

/// Returns how many bytes all inputs have.
fn stdin_total(domains: &[Domain], calls: &[CallPlan]) -> u64
    requires few { length calls.now ≤ 4096 }
    requires fit { All (CallFits domains.now) calls.now }
    ensures { result ≡ stdin_total calls.now }
{
    let mut total = 0u64;
    for call in calls {
        total += stdin_len(domains, call) as u64;
    }
    total
}

/// Returns how many bytes a call's input has.
fn stdin_len(domains: &[Domain], call: &CallPlan) -> usize
    requires { CallFits domains.now call.now }
    ensures len { result ≡ length call.now.stdin }
    ensures within { result ≤ 1048576 }
{
    call.stdin.slice().len()
}

/// Returns how many words all pages have, with these orders.
fn words_laid(control: Orders, payload: Orders, domains: &[Domain], calls: &[CallPlan]) -> u64
    requires few_domains { length domains.now ≤ 32 }
    requires few_calls { length calls.now ≤ 4096 }
    requires fit { All DomainFits domains.now }
    ensures { result ≡ words_laid (word_count control) (word_count payload) domains.now calls.now }
{
    let pages = hostile_page_total(domains) + laid_pages(domains, calls);
    domains.len() as u64 * page_words(control) + pages * page_words(payload)
}

/// Returns how many words a page has.
fn page_words(orders: Orders) -> u64
    ensures words { result ≡ word_count orders }
    ensures within { result ≤ 2097166 }
{
    let _sizes = (orders.left.size(), orders.right.size());
    Layout::new(orders).count() as u64
}

/// Returns how many data pages all hostile domains have.
fn hostile_page_total(domains: &[Domain]) -> u64
    requires few { length domains.now ≤ 32 }
    requires fit { All DomainFits domains.now }
    ensures pages { result ≡ sum_by (hostile_pages (length domains.now)) domains.now }
    ensures within { result ≤ 32 * 992 }
{
    let mut total = 0;
    for domain in domains {
        total += hostile_pages(domains.len(), domain);
    }
    total
}

/// Returns how many data pages a domain among `count` domains has, if it is hostile.
#[tactic(auto, using(crate::proofs::TotalLaws::pages_within))]
fn hostile_pages(count: usize, domain: &Domain) -> u64
    requires few { count ≤ 32 }
    requires fits { DomainFits domain.now }
    ensures pages { result ≡ hostile_pages count domain.now }
    ensures within { result ≤ 992 }
{
    if domain.is_hostile() {
        u64::from(domain.ports) * (count as u64).saturating_sub(1)
    } else {
        0
    }
}

/// Returns how many data pages the calls have.
fn laid_pages(domains: &[Domain], calls: &[CallPlan]) -> u64
    requires few { length calls.now ≤ 4096 }
    ensures pages { result ≡ count_by (lays_page domains.now) calls.now }
    ensures within { result ≤ 4096 }
{
    let mut count = 0;
    for call in calls {
        if lays_page(domains, call) {
            count += 1;
        }
    }
    count
}

/// Returns whether a page is laid for a call: its target is another domain of the scenario.
fn lays_page(domains: &[Domain], call: &CallPlan) -> bool
    ensures { result ≡ lays_page domains.now call.now }
{
    match place_named(domains, call.to.bytes()) {
        Some(place) => place as u64 + 1 != u64::from(call.from),
        None => false,
    }
}
