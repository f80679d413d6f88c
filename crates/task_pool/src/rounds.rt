//! Turns in rounds, by the calling thread alone.
ghost use Rattle.std.specs.Prelude.{◌≡◌, ◌<◌, ◌≤◌, ◌^◌, [], length, vec_len, vec_capacity, map, IfOk};
ghost use Rattle.std.specs.List.{AllByRecursion as Each, AllZip, list_any};
ghost use Rattle.task_pool.specs.Rounds.{Comes, IsOver, StandsOn, going, is_going, over};

use crate::task::{PoolTask, Turn};
use service_gate::Gate;
use std::alloc::{AllocError, Global};
use vchan_io::Memory;

/// How tasks came out that took turns in rounds.
#[derive(Drop)]
pub enum Rounds<D> {
    /// Every task is done. The list has what each gave, in the order of the tasks.
    AllDone(Vec<D>),
    /// After the last round a task wanted another turn.
    WentOn,
}

/// A task in its rounds, or what it gave.
#[derive(Drop)]
pub(crate) struct Seat<T: PoolTask> {
    task: Option<T>,
    done: Option<T::Done>,
}

/// Turns the tasks in rounds until all are done, or so many rounds were made. In a round each task that isn't
/// done makes one turn, in the order of the tasks, after `gate.enter` with its place.
///
/// It starts no thread and never waits, so it always returns.
///
/// # Errors
///
/// `Memory` if memory runs out; the tasks are dropped then. No other.
pub fn run_rounds<T: PoolTask, G: Gate>(
    alloc: Global,
    tasks: Vec<T>,
    rounds: u32,
    gate: &G,
) -> Result<Rounds<T::Done>, Memory>
    requires few_tasks { vec_len tasks < 2 ^ 32 }
    ensures { IfOk result (Comes T.owes T.turns rounds tasks.items) }
{
    let dones = Vec::with_capacity(alloc, tasks.len())?;
    let mut seats = seats_of(alloc, tasks)?;
    for _round in 0..rounds {
        if !some_going(seats.as_slice()) {
            return Ok(Rounds::AllDone(dones_of(seats, dones)));
        }
        make_round(seats.as_mut_slice(), gate);
    }
    if !some_going(seats.as_slice()) {
        return Ok(Rounds::AllDone(dones_of(seats, dones)));
    }
    Ok(Rounds::WentOn)
}

// Returns the tasks before the first round.
fn seats_of<T: PoolTask>(alloc: Global, tasks: Vec<T>) -> Result<Vec<Seat<T>>, AllocError>
    ensures { IfOk result (λ seats. seats.items ≡ map going tasks.items) }
{
    let mut seats = Vec::with_capacity(alloc, tasks.len())?;
    for task in tasks {
        seats.push_reserved(Seat {
            task: Some(task),
            done: None,
        });
    }
    Ok(seats)
}

// Makes one round.
fn make_round<T: PoolTask, G: Gate>(seats: &mut [Seat<T>], gate: &G)
    requires { length seats.old < 2 ^ 32 }
    ensures { AllZip (StandsOn T.owes T.turns) seats.old seats.new }
{
    for place in 0..seats.len() {
        seats[place].turn(place as u32, gate);
    }
}

impl<T: PoolTask> Seat<T> {
    // Makes a turn of the task, which has this place, unless it is done.
    fn turn<G: Gate>(&mut self, place: u32, gate: &G)
        ensures { StandsOn T.owes T.turns self.old self.new }
    {
        let Some(task) = self.task.take() else {
            return;
        };
        gate.enter(place);
        match task.turn() {
            Turn::Again(task) => self.task = Some(task),
            Turn::Done(done) => self.done = Some(done),
        }
    }
}

// Returns whether some task isn't done.
fn some_going<T: PoolTask>(seats: &[Seat<T>]) -> bool
    ensures { result ≡ list_any is_going seats.now }
{
    seats.iter().any(|seat| seat.task.is_some())
}

// Returns what the tasks gave, in the vector that was made for it.
fn dones_of<T: PoolTask>(seats: Vec<Seat<T>>, mut dones: Vec<T::Done>) -> Vec<T::Done>
    requires over { Each IsOver seats.items }
    requires none { dones.items ≡ [] }
    requires room { vec_len seats ≤ vec_capacity dones }
    ensures { seats.items ≡ map over result.items }
{
    for seat in seats {
        let Seat { task: _, done } = seat;
        match done {
            Some(done) => dones.push_reserved(done),
            None => unreachable!(),
        }
    }
    dones
}
