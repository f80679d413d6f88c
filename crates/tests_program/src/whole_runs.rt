//! That the workers of `run` run at once.
use crate::memory_runs::run_through;
use service_gate::Gate;
use std::alloc::Global;
use std::sync::Wait;
use std::sync::atomic::{AtomicBool, AtomicU64, Ordering};
use std::test::Fail;
use std::thread::Threads;
use std::time::Clock;
use std::{hint, thread};
use vchan_io::MemSink;

/// Six calls between three domains.
pub(crate) const SIX_CALLS: &[u8] = br#"
[[domain]]
name = "work"
[[domain]]
name = "vault"
[[domain]]
name = "mail"
[[call]]
from = "work"
to = "vault"
service = "echo"
stdin = "hello"
[[call]]
from = "vault"
to = "mail"
service = "upper"
stdin = "a"
[[call]]
from = "mail"
to = "work"
service = "count"
stdin_fill = 65536
[[call]]
from = "work"
to = "mail"
service = "split"
stdin = "abcde"
[[call]]
from = "vault"
to = "work"
service = "exit+7"
stdin_fill = 65537
[[call]]
from = "work"
to = "vault"
service = "echo"
"#;

const SIX_LINES: &[u8] = b"call 1 work vault echo done 0 68656c6c6f -\n\
    call 2 vault mail upper done 0 41 -\n\
    call 3 mail work count done 0 36353533360a -\n\
    call 4 work mail split done 0 616365 6264\n\
    call 5 vault work exit+7 done 7 - -\n\
    call 6 work vault echo done 0 - -\n\
    calls 6\n";

/// Runs the six calls. Returns the number with which the program ends, and its output.
fn run_six<G: Gate, R: Threads + Wait + Clock + Sync>(
    rt: &R,
    alloc: Global,
    workers: &str,
    gate: &G,
) -> Result<(u8, MemSink), Fail> {
    let input = Vec::from_slice(alloc, SIX_CALLS)?;
    run_through(rt, alloc, &["run", workers], input, gate)
}

/// The most tries for which a gate holds a task whose companions don't come.
const PATIENCE: u32 = 100_000_000;

/// Holds the first turn of each task of a set, given by the bits of their places, until all of the set have
/// entered.
#[derive(Drop)]
struct Together {
    set: u64,
    entered: AtomicU64,
    late: AtomicBool,
}

impl Together {
    fn of(set: u64) -> Together {
        Together {
            set,
            entered: AtomicU64::new(0),
            late: AtomicBool::new(false),
        }
    }
}

impl Gate for Together {
    fn enter(&self, task: u32) {
        let bit = 1u64 << (task % 64);
        let before = self.entered.fetch_or(bit, Ordering::SeqCst);
        if before & bit != 0 || self.set & bit == 0 {
            return;
        }
        for _ in 0..PATIENCE {
            if self.entered.load(Ordering::SeqCst) & self.set == self.set {
                return;
            }
            thread::yield_now();
        }
        self.late.store(true, Ordering::SeqCst);
    }
}

/// How often a gate that holds the one task that should be alone gives its processor away, and how many tries it
/// makes before each time. To give it away a million times would take minutes on a busy machine.
const SOLITUDE: u32 = 1_000;

const TRIES: u32 = 1_000;

/// Holds the first task that enters, and notes whether another one enters meanwhile.
#[derive(Drop)]
struct Alone {
    came: AtomicBool,
    holds: AtomicBool,
    met: AtomicBool,
}

impl Gate for Alone {
    fn enter(&self, _task: u32) {
        if self.holds.load(Ordering::SeqCst) {
            self.met.store(true, Ordering::SeqCst);
        }
        if self.came.swap(true, Ordering::SeqCst) {
            return;
        }
        self.holds.store(true, Ordering::SeqCst);
        for _ in 0..SOLITUDE {
            for _ in 0..TRIES {
                hint::spin_loop();
            }
            thread::yield_now();
        }
        self.holds.store(false, Ordering::SeqCst);
    }
}

/// Four tasks with two workers or four: the places 1 and 2, or all, are in a turn at once.
#[test]
fn two_domains_at_once(rt: HostRuntime) -> Result<(), Fail> {
    for (workers, set) in [("2", 0b0110), ("4", 0b1111)] {
        let gate = Together::of(set);
        let (code, out) = run_six(&rt, rt.alloc(), workers, &gate)?;
        assert!(rt; code == 0);
        assert!(rt; out.bytes() == SIX_LINES);
        assert!(rt;
            !gate.late.load(Ordering::SeqCst),
            "a task of {workers} workers waited in vain"
        );
    }
    Ok(())
}

/// One worker: no two tasks are in a turn at once.
#[test]
fn one_worker_takes_turns(rt: HostRuntime) -> Result<(), Fail> {
    let gate = Alone {
        came: AtomicBool::new(false),
        holds: AtomicBool::new(false),
        met: AtomicBool::new(false),
    };
    let (_, out) = run_six(&rt, rt.alloc(), "1", &gate)?;
    assert!(rt; out.bytes() == SIX_LINES);
    assert!(rt; !gate.met.load(Ordering::SeqCst), "two tasks met");
    Ok(())
}
