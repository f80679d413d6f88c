//! A scenario without its hostile domains, and a scenario that is made from a number.
use scenario_file::{
    CallPlan, Line, LineResult, Scenario, generate, honest_lines, next_number, read,
    without_hostile,
};
use std::alloc::Global;
use std::process::Abort;
use std::test::Fail;

/// Two honest domains and a hostile one, a call between the two, and one that is refused.
const VISITED: &[u8] = br#"
[[domain]]
name = "work"
[[domain]]
name = "evil"
hostile = ["hello", "rest 3"]
[[domain]]
name = "mail"
[[call]]
from = "work"
to = "mail"
service = "upper"
stdin = "a"
[[call]]
from = "mail"
to = "evil"
service = "echo"
[[call]]
from = "mail"
to = "nobody"
service = "echo"
"#;

/// Whether the visited scenario without its hostile domain has two domains, and the lines of the
/// two calls that don't name it, with their numbers.
fn stands_without_the_hostile(alloc: Global) -> Result<bool, Fail> {
    let visited = read(alloc, VISITED)?;
    stands_alone(alloc, &visited)
}

/// The same of a scenario that is read. Each scenario, and the list of lines, is dropped at one place.
fn stands_alone(alloc: Global, visited: &Scenario) -> Result<bool, Fail> {
    let left = without_hostile(alloc, visited)?;
    has_its_lines(alloc, &left)
}

/// The same of the scenario without its hostile domain.
fn has_its_lines(alloc: Global, left: &Scenario) -> Result<bool, Fail> {
    let lines = honest_lines(alloc, left)?;
    Ok(left.domains.len() == 2 && lines.len() == 2 && lines[0].number == 1 && lines[1].number == 3)
}

#[test]
fn a_scenario_stands_without_its_hostile_domain(rt: HostRuntime) -> Result<(), Fail> {
    assert!(rt; stands_without_the_hostile(rt.alloc())?);
    Ok(())
}

/// The first numbers after 7, worked by hand.
const NUMBERS: [u32; 8] = [599, 44_999, 32_612, 21_105, 10_061, 33_742, 40_318, 9_222];

#[test]
fn a_number_gives_a_scenario(rt: HostRuntime) -> Result<(), Fail> {
    let mut number = 7;
    for next in NUMBERS {
        assert!(rt; number <= 65_536);
        number = next_number(number);
        assert!(rt; number == next);
    }
    assert!(rt; generate(rt.alloc(), 7, 2)?.calls.len() == 2);
    Ok(())
}

/// Whether a call goes from the domain of this number to the domain of this name, for the service,
/// with an input of this many bytes.
fn is_call(call: &CallPlan, from: u32, to: &[u8], service: &[u8], len: usize) -> bool {
    call.from == from
        && call.to.bytes() == to
        && call.service.bytes() == service
        && call.stdin.slice().len() == len
}

/// Whether a line is done with code 0, with these bytes at the beginning of standard output, and
/// with this many bytes on each stream.
fn is_done(line: &Line, begins: &[u8], stdout_len: usize, stderr_len: usize) -> bool {
    match &line.result {
        LineResult::Done {
            code,
            stdout,
            stderr,
        } => {
            *code == 0
                && stdout.slice().starts_with(begins)
                && stdout.slice().len() == stdout_len
                && stderr.slice().len() == stderr_len
        }
        LineResult::Refused { .. } => false,
    }
}

fn check_calls(rt: &impl Abort, calls: &[CallPlan]) {
    assert!(rt; calls.len() == 2);
    assert!(rt; is_call(&calls[0], 4, b"d3", b"count", 615));
    assert!(rt; is_call(&calls[1], 2, b"d3", b"split", 1_026));
}

fn check_lines(rt: &impl Abort, lines: &[Line]) {
    assert!(rt; lines.len() == 2);
    assert!(rt; is_done(&lines[0], b"615\n", 4, 0));
    assert!(rt; is_done(&lines[1], b"", 513, 513));
}

fn check_made(rt: &(impl Abort + AllocGlobal), made: &Scenario) -> Result<(), Fail> {
    check_calls(rt, made.calls.as_slice());
    let lines = honest_lines(rt.alloc(), made)?;
    check_lines(rt, lines.as_slice());
    Ok(())
}

#[test]
fn generated_calls_have_their_lines(rt: HostRuntime) -> Result<(), Fail> {
    let made = generate(rt.alloc(), 7, 2)?;
    check_made(&rt, &made)
}
