//! Pools of workers whose tasks count their turns, or wait for one another.
ghost use Rattle.std.specs.Prelude.{◌≡◌, ◌+◌, ◌<◌, ◌^◌, IfOk, vec_len};

use service_gate::{Gate, OpenGate};
use std::alloc::{AllocError, Global};
use std::sync::atomic::{AtomicBool, AtomicU64, Ordering};
use std::test::Fail;
use std::time::Duration;
use std::{hint, thread};
use task_pool::{PoolTask, Rounds, Turn, run_pool, run_rounds};

// A task of this many turns, which answers how many it made.
#[derive(Drop)]
struct Steps {
    made: u32,
    left: u32,
    ghost unfinished: { 0 < left },
    ghost fits: { made + left < 2 ^ 32 },
}

impl PoolTask for Steps {
    type Done = u32;

    ghost owes = { λ t done. done ≡ t.made + t.left };

    ghost turns = { λ _ _. Unit {0} };

    fn turn(self) -> Turn<Steps> {
        if self.left == 1 {
            return Turn::Done(self.made + 1);
        }
        Turn::Again(Steps {
            made: self.made + 1,
            left: self.left - 1,
        })
    }
}

// This many tasks, of which the one at place k needs k + 1 turns.
fn rising(alloc: Global, count: u32) -> Result<Vec<Steps>, AllocError>
    requires { count < 2 ^ 16 }
    ensures { IfOk result (λ v. vec_len v ≡ count) }
{
    let mut tasks = Vec::new(alloc);
    for place in 0..count {
        tasks.push(Steps {
            made: 0,
            left: place + 1,
        })?;
    }
    Ok(tasks)
}

// Counts the turns.
#[derive(Drop)]
struct Counted {
    turns: AtomicU64,
}

impl Gate for Counted {
    fn enter(&self, _task: u32) {
        self.turns.fetch_add(1, Ordering::SeqCst);
    }
}

#[test]
fn forty_tasks(rt: HostRuntime) -> Result<(), Fail> {
    for workers in [1, 3, 16] {
        let gate = Counted {
            turns: AtomicU64::new(0),
        };
        let dones = run_pool(&rt, rt.alloc(), rising(rt.alloc(), 40)?, workers, &gate)?;
        assert!(rt;
            gate.turns.load(Ordering::SeqCst) == 820,
            "with {workers} workers"
        );
        assert!(rt; dones.len() == 40, "with {workers} workers");
        for (place, done) in dones.iter().enumerate() {
            assert!(rt; *done as usize == place + 1, "with {workers} workers");
        }
    }
    let none = run_pool(&rt, rt.alloc(), rising(rt.alloc(), 0)?, 3, &OpenGate)?;
    assert!(rt; none.is_empty());
    Ok(())
}

// Five tasks of one to five turns, in so many rounds: how many turns they make in all.
#[test]
fn turns_in_rounds(rt: HostRuntime) -> Result<(), Fail> {
    for (rounds, turns) in [
        (0, 0),
        (1, 5),
        (2, 9),
        (4, 14),
        (5, 15),
        (4_294_967_295, 15),
    ] {
        let gate = Counted {
            turns: AtomicU64::new(0),
        };
        let come = run_rounds(rt.alloc(), rising(rt.alloc(), 5)?, rounds, &gate)?;
        assert!(rt;
            gate.turns.load(Ordering::SeqCst) == turns,
            "in {rounds} rounds"
        );
        match come {
            Rounds::AllDone(dones) => {
                assert!(rt; rounds >= 5, "in {rounds} rounds");
                assert!(rt; dones.as_slice() == [1, 2, 3, 4, 5].as_slice());
            }
            Rounds::WentOn => assert!(rt; rounds < 5, "in {rounds} rounds"),
        }
    }
    Ok(())
}

// How many tries a gate holds a task whose companions don't come.
const PATIENCE: u32 = 100_000_000;

// Holds the first turn of each task of a set, given by the bits of their places, until all of the
// set have entered.
#[derive(Drop)]
struct Together {
    set: u64,
    entered: AtomicU64,
    late: AtomicBool,
}

impl Together {
    fn of(set: u64) -> Together {
        Together {
            set,
            entered: AtomicU64::new(0),
            late: AtomicBool::new(false),
        }
    }
}

impl Gate for Together {
    fn enter(&self, task: u32) {
        let bit = 1u64 << (task % 64);
        let before = self.entered.fetch_or(bit, Ordering::SeqCst);
        if before & bit != 0 || self.set & bit == 0 {
            return;
        }
        for _ in 0..PATIENCE {
            if self.entered.load(Ordering::SeqCst) & self.set == self.set {
                return;
            }
            thread::yield_now();
        }
        self.late.store(true, Ordering::SeqCst);
    }
}

// Three tasks and two workers: the places 1 and 2 are in a turn at once.
#[test]
fn two_turns_at_once(rt: HostRuntime) -> Result<(), Fail> {
    let gate = Together::of(0b110);
    let dones = run_pool(&rt, rt.alloc(), rising(rt.alloc(), 3)?, 2, &gate)?;
    assert!(rt; dones.as_slice() == [1, 2, 3].as_slice());
    assert!(rt; !gate.late.load(Ordering::SeqCst), "a task waited in vain");
    Ok(())
}

// As many tasks as workers: all are in a turn at once.
#[test]
fn all_turns_at_once(rt: HostRuntime) -> Result<(), Fail> {
    for workers in [2u32, 3, 16] {
        let gate = Together::of((1 << workers) - 1);
        let dones = run_pool(
            &rt,
            rt.alloc(),
            rising(rt.alloc(), workers)?,
            workers,
            &gate,
        )?;
        assert!(rt; dones.len() == workers as usize);
        assert!(rt;
            !gate.late.load(Ordering::SeqCst),
            "a task of {workers} waited in vain"
        );
    }
    Ok(())
}

// How often a gate that holds the one task that should be alone gives its processor away, and how many tries it
// makes before each time. To give it away a million times would take minutes on a busy machine.
const SOLITUDE: u32 = 1_000;

const TRIES: u32 = 1_000;

// Holds the first task that enters, and tells whether another one enters meanwhile.
#[derive(Drop)]
struct Alone {
    came: AtomicBool,
    holds: AtomicBool,
    met: AtomicBool,
}

impl Gate for Alone {
    fn enter(&self, _task: u32) {
        if self.holds.load(Ordering::SeqCst) {
            self.met.store(true, Ordering::SeqCst);
        }
        if self.came.swap(true, Ordering::SeqCst) {
            return;
        }
        self.holds.store(true, Ordering::SeqCst);
        for _ in 0..SOLITUDE {
            for _ in 0..TRIES {
                hint::spin_loop();
            }
            thread::yield_now();
        }
        self.holds.store(false, Ordering::SeqCst);
    }
}

// Three tasks and one worker: no two are in a turn at once.
#[test]
fn one_turn_at_a_time(rt: HostRuntime) -> Result<(), Fail> {
    let gate = Alone {
        came: AtomicBool::new(false),
        holds: AtomicBool::new(false),
        met: AtomicBool::new(false),
    };
    let dones = run_pool(&rt, rt.alloc(), rising(rt.alloc(), 3)?, 1, &gate)?;
    assert!(rt; dones.as_slice() == [1, 2, 3].as_slice());
    assert!(rt; !gate.met.load(Ordering::SeqCst), "two tasks met");
    Ok(())
}

// How many turns a task makes whose companions don't come.
const MOST_TURNS: u32 = 1_000_000;

// A task that is done after each task of a set, given by the bits of their places, has had a turn.
// It gives up after `MOST_TURNS` turns, and answers whether all of them came.
#[derive(Drop)]
struct Awaiting<'a> {
    set: u64,
    own: u64,
    turned: &'a AtomicU64,
    made: u32,
}

impl PoolTask for Awaiting<'_> {
    type Done = bool;

    ghost owes = { λ _ _. Unit {0} };

    ghost turns = { λ _ _. Unit {0} };

    fn turn(mut self) -> Turn<Self> {
        let turned = self.turned.fetch_or(self.own, Ordering::SeqCst) | self.own;
        if turned == self.set {
            return Turn::Done(true);
        }
        if self.made >= MOST_TURNS {
            return Turn::Done(false);
        }
        self.made += 1;
        thread::yield_now();
        Turn::Again(self)
    }
}

// A worker gives its task back after each turn, so tasks that wait for each other all come to
// their end.
#[test]
fn tasks_that_wait_for_each_other(rt: HostRuntime) -> Result<(), Fail> {
    let alloc = rt.alloc();
    for workers in [1, 2] {
        let turned = AtomicU64::new(0);
        let task = |own: u64| Awaiting {
            set: 0b1_1111,
            own,
            turned: &turned,
            made: 0,
        };
        let tasks = Vec::from_array(alloc, [task(1), task(2), task(4), task(8), task(16)])?;
        let dones = run_pool(&rt, alloc, tasks, workers, &OpenGate)?;
        assert!(rt;
            dones.as_slice() == [true; 5].as_slice(),
            "with {workers} workers"
        );
    }
    Ok(())
}

// Wants tasks to enter in rounds: the places from 0 on, and then from 0 on again.
#[derive(Drop)]
struct InRounds {
    tasks: u64,
    entered: AtomicU64,
    missed: AtomicBool,
}

impl Gate for InRounds {
    fn enter(&self, task: u32) {
        let before = self.entered.fetch_add(1, Ordering::SeqCst);
        if self.tasks == 0 || before % self.tasks != u64::from(task) {
            self.missed.store(true, Ordering::SeqCst);
        }
    }
}

// One worker enters the gate once for each turn, for the task that it turns, and turns no task
// twice before the others.
#[test]
fn one_worker_turns_in_rounds(rt: HostRuntime) -> Result<(), Fail> {
    let gate = InRounds {
        tasks: 3,
        entered: AtomicU64::new(0),
        missed: AtomicBool::new(false),
    };
    let twice = || Steps { made: 0, left: 2 };
    let tasks = Vec::from_array(rt.alloc(), [twice(), twice(), twice()])?;
    let dones = run_pool(&rt, rt.alloc(), tasks, 1, &gate)?;
    assert!(rt; dones.as_slice() == [2, 2, 2].as_slice());
    assert!(rt; gate.entered.load(Ordering::SeqCst) == 6);
    assert!(rt;
        !gate.missed.load(Ordering::SeqCst),
        "a task entered out of its turn"
    );
    Ok(())
}

// For how many milliseconds one task stays inside its turn.
const HOLD: u64 = 200;

// How many turns each of the others may make meanwhile.
const MOST_WAITED: u32 = 300;

// A task that stays inside its one turn for a while, or one that waits for that; it answers how
// many turns it made until then.
#[derive(Drop)]
struct Held<'a> {
    rt: &'a HostRuntime,
    holds: bool,
    over: &'a AtomicBool,
    made: u32,
}

impl PoolTask for Held<'_> {
    type Done = u32;

    ghost owes = { λ _ _. Unit {0} };

    ghost turns = { λ _ _. Unit {0} };

    fn turn(mut self) -> Turn<Self> {
        if self.holds {
            thread::sleep(self.rt, Duration::from_millis(HOLD));
            self.over.store(true, Ordering::SeqCst);
            return Turn::Done(0);
        }
        if self.over.load(Ordering::SeqCst) || self.made >= MOST_TURNS {
            return Turn::Done(self.made);
        }
        self.made += 1;
        Turn::Again(self)
    }

    fn moved(&self) -> bool {
        false
    }
}

// While forty tasks wait for one that is inside a turn, the workers sleep.
#[test]
fn nobody_polls(rt: HostRuntime) -> Result<(), Fail> {
    let over = AtomicBool::new(false);
    let mut tasks = Vec::new(rt.alloc());
    for place in 0..41u32 {
        tasks.push(Held {
            rt: &rt,
            holds: place == 20,
            over: &over,
            made: 0,
        })?;
    }
    assert!(rt; tasks.len() == 41);
    let dones = run_pool(&rt, rt.alloc(), tasks, 4, &OpenGate)?;
    assert!(rt; dones.len() == 41);
    for (place, made) in dones.iter().enumerate() {
        assert!(rt;
            *made <= MOST_WAITED,
            "the task at {place} made {made} turns"
        );
    }
    Ok(())
}
