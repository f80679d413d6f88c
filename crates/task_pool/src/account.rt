//! The calling thread's account of a run: its pass, and the answers so far.
ghost use Rattle.std.specs.Prelude.{◌≡◌, ◌≤◌, ◌<◌, ◌+◌, ◌-◌, [], ◌++◌, length, vec_len, vec_capacity, IfOk, OnOk, All, Some, None, replicate, slice_set};
ghost use Rattle.std.specs.List.{AllByRecursion, AllZip};
ghost use Rattle.crossbeam_queue.specs.Passes.{view, IsPassOf, ruled_capacity};
ghost use Rattle.task_pool.specs.Holding.{all_parts};
ghost use Rattle.task_pool.specs.Results.{Keeps, Settled, IsWhole};

use crate::pool::MOST_WORKERS;
use crate::progress::Progress;
use crate::queue::{Parting, TaskPass, TaskQueue};
use crate::task::PoolTask;
use crate::turn::try_turn;
use crate::waiting::{Finished, Tried};
use crate::worker::{Worker, work};
use service_gate::Gate;
use std::alloc::{AllocError, Global};
use std::sync::Wait;
use std::thread;
use std::thread::Threads;

/// The calling thread's pass, with the answers of the places that it keeps.
#[derive(Drop)]
pub(crate) struct Account<T: PoolTask> {
    /// The pass that began with all parts.
    pub pass: TaskPass<T>,
    /// The answers, place by place.
    pub answers: Vec<Option<T::Done>>,
}

/// Returns this many answers, all still to come.
pub(crate) fn blank_answers<D: Drop>(
    alloc: Global,
    count: usize,
) -> Result<Vec<Option<D>>, AllocError>
    ensures { IfOk result (λ v. v.items ≡ replicate count None) }
{
    let mut answers = Vec::with_capacity(alloc, count)?;
    for _place in 0..count {
        answers.push_reserved(None);
    }
    Ok(answers)
}

// How many threads the machine runs at once, or the greatest number of workers where it doesn't tell.
fn processors<R: Threads>(rt: &R) -> u64 {
    match thread::available_parallelism(rt) {
        Ok(processors) => processors.get() as u64,
        Err(_) => u64::from(MOST_WORKERS),
    }
}

/// Enters a result at its place.
fn write_down<D: Drop>(answers: &mut Vec<Option<D>>, finished: Finished<D>)
    requires { finished.place < vec_len answers.old }
    ensures { answers.new.items ≡ slice_set answers.old.items finished.place (Some finished.done) }
{
    let Finished { place, done } = finished;
    answers[place as usize] = Some(done);
}

impl<T: PoolTask> Account<T> {
    /// Returns this many workers, each with a pass of its own and room for a result of each task.
    pub(crate) fn hire(
        &mut self,
        alloc: Global,
        queue: &TaskQueue<T>,
        workers: u32,
        count: usize,
    ) -> Result<Vec<Worker<T>>, AllocError>
        requires pass { IsPassOf queue.now self.old.pass }
        requires parts { (view self.old.pass).parts ≡ all_parts }
        requires few { workers ≤ MOST_WORKERS }
        requires count { length (view self.old.pass).enqueued ≤ count }
        ensures pass { OnOk result (IsPassOf queue.now self.new.pass) }
        ensures parts { IfOk result (λ hired. (view self.new.pass).parts + vec_len hired ≡ all_parts) }
        ensures few { IfOk result (λ hired. vec_len hired ≡ workers) }
        ensures rest { OnOk result (((view self.new.pass).enqueued ≡ (view self.old.pass).enqueued) × ((view self.new.pass).kept ≡ (view self.old.pass).kept) × (self.new.answers ≡ self.old.answers)) }
        ensures hired { IfOk result (λ hired. All (λ w. IsPassOf queue.now w.pass × Keeps T.owes (view self.old.pass).enqueued w.finished.items (view w.pass) × (length (view self.old.pass).enqueued ≤ vec_capacity w.finished)) hired.items) }
    {
        let mut hired = Vec::with_capacity(alloc, workers as usize)?;
        for _worker in 0..workers {
            let finished = Vec::with_capacity(alloc, count)?;
            let pass = queue.another::<Parting<T>>(&mut self.pass);
            hired.push_reserved(Worker { pass, finished });
        }
        Ok(hired)
    }

    /// Runs the workers, each in a thread of its own, until every task is done.
    pub(crate) fn employ<G: Gate, R: Threads + Wait + Sync>(
        &self,
        rt: &R,
        queue: &TaskQueue<T>,
        gate: &G,
        count: u64,
        workers: Vec<Worker<T>>,
    ) -> Result<Vec<Worker<T>>, AllocError>
        requires hired { All (λ w. IsPassOf queue.now w.pass × Keeps T.owes (view self.now.pass).enqueued w.finished.items (view w.pass) × (length (view self.now.pass).enqueued ≤ vec_capacity w.finished)) workers.items }
        requires queue { length (view self.now.pass).enqueued < ruled_capacity queue.now }
        ensures few { IfOk result (λ back. vec_len back ≡ vec_len workers) }
        ensures back { IfOk result (λ back. AllByRecursion (λ w. IsPassOf queue.now w.pass × Keeps T.owes (view self.now.pass).enqueued w.finished.items (view w.pass)) back.items) }
    {
        let progress = Progress::new(count, processors(rt));
        self.start(rt, queue, gate, &progress, workers)
    }

    // Starts the workers, who share this progress.
    fn start<G: Gate, R: Threads + Wait + Sync>(
        &self,
        rt: &R,
        queue: &TaskQueue<T>,
        gate: &G,
        progress: &Progress,
        workers: Vec<Worker<T>>,
    ) -> Result<Vec<Worker<T>>, AllocError>
        requires hired { All (λ w. IsPassOf queue.now w.pass × Keeps T.owes (view self.now.pass).enqueued w.finished.items (view w.pass) × (length (view self.now.pass).enqueued ≤ vec_capacity w.finished)) workers.items }
        requires queue { length (view self.now.pass).enqueued < ruled_capacity queue.now }
        ensures few { IfOk result (λ back. vec_len back ≡ vec_len workers) }
        ensures back { IfOk result (λ back. AllByRecursion (λ w. IsPassOf queue.now w.pass × Keeps T.owes (view self.now.pass).enqueued w.finished.items (view w.pass)) back.items) }
    {
        let turns = |worker: Worker<T>| -> Worker<T>
            requires { IsPassOf queue.now worker.pass × Keeps T.owes (view worker.pass).enqueued worker.finished.items (view worker.pass) × (length (view worker.pass).enqueued ≤ vec_capacity worker.finished) × (length (view worker.pass).enqueued < ruled_capacity queue.now) }
            ensures { IsPassOf queue.entry.now result.pass × Keeps T.owes (view worker.pass).enqueued result.finished.items (view result.pass) }
        { work(rt, queue, gate, progress, worker) };
        thread::map_vec(rt, workers, &turns)
    }

    /// Takes a worker's pass back, and enters its results.
    pub(crate) fn take_back(&mut self, queue: &TaskQueue<T>, worker: Worker<T>)
        requires pass { IsPassOf queue.now self.old.pass }
        requires part { 0 < (view self.old.pass).parts }
        requires settled { Settled T.owes (view self.old.pass).enqueued (view self.old.pass).kept self.old.answers.items }
        requires worker { IsPassOf queue.now worker.pass }
        requires keeps { Keeps T.owes (view self.old.pass).enqueued worker.finished.items (view worker.pass) }
        ensures pass { IsPassOf queue.now self.new.pass }
        ensures parts { (view self.new.pass).parts ≡ (view self.old.pass).parts + 1 }
        ensures enqueued { (view self.new.pass).enqueued ≡ (view self.old.pass).enqueued }
        ensures settled { Settled T.owes (view self.old.pass).enqueued (view self.new.pass).kept self.new.answers.items }
    {
        let Worker { pass, finished } = worker;
        queue.absorb::<Parting<T>>(&mut self.pass, pass);
        for result in finished {
            write_down(&mut self.answers, result);
        }
    }

    /// Takes all workers' passes back, and enters their results.
    pub(crate) fn take_all_back(&mut self, queue: &TaskQueue<T>, workers: Vec<Worker<T>>)
        requires pass { IsPassOf queue.now self.old.pass }
        requires part { 0 < (view self.old.pass).parts }
        requires settled { Settled T.owes (view self.old.pass).enqueued (view self.old.pass).kept self.old.answers.items }
        requires back { AllByRecursion (λ w. IsPassOf queue.now w.pass × Keeps T.owes (view self.old.pass).enqueued w.finished.items (view w.pass)) workers.items }
        ensures pass { IsPassOf queue.now self.new.pass }
        ensures parts { (view self.new.pass).parts ≡ (view self.old.pass).parts + vec_len workers }
        ensures enqueued { (view self.new.pass).enqueued ≡ (view self.old.pass).enqueued }
        ensures settled { Settled T.owes (view self.old.pass).enqueued (view self.new.pass).kept self.new.answers.items }
    {
        for worker in workers {
            self.take_back(queue, worker);
        }
    }

    /// Turns the tasks that are left in rounds, one turn each, until every task is done.
    pub(crate) fn finish<G: Gate, R: Wait>(&mut self, rt: &R, queue: &TaskQueue<T>, gate: &G)
        requires pass { IsPassOf queue.now self.old.pass }
        requires all { (view self.old.pass).parts ≡ all_parts }
        requires settled { Settled T.owes (view self.old.pass).enqueued (view self.old.pass).kept self.old.answers.items }
        requires queue { length (view self.old.pass).enqueued < ruled_capacity queue.now }
        ensures enqueued { (view self.new.pass).enqueued ≡ (view self.old.pass).enqueued }
        ensures whole { IsWhole (view self.old.pass).enqueued (view self.new.pass).kept }
        ensures settled { Settled T.owes (view self.old.pass).enqueued (view self.new.pass).kept self.new.answers.items }
    {
        for _ in rt.forever() {
            match try_turn(rt, queue, gate, &mut self.pass) {
                Tried::Idle => return,
                Tried::Again { moved: _ } => {}
                Tried::Over(finished) => write_down(&mut self.answers, finished),
            }
        }
        unreachable!()
    }

    /// Returns the answers in the order of the places, in the vector that was made for them.
    pub(crate) fn into_dones(self, mut dones: Vec<T::Done>) -> Vec<T::Done>
        requires settled { Settled T.owes (view self.pass).enqueued (view self.pass).kept self.answers.items }
        requires whole { IsWhole (view self.pass).enqueued (view self.pass).kept }
        requires none { dones.items ≡ [] }
        requires room { vec_len self.answers ≤ vec_capacity dones }
        ensures { AllZip T.owes (view self.pass).enqueued result.items }
    {
        for answer in self.answers {
            match answer {
                Some(done) => dones.push_reserved(done),
                None => unreachable!(),
            }
        }
        dones
    }
}
