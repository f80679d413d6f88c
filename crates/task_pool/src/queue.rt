//! The queue of waiting tasks, and the moves of a pass on it.
//!
//! A pass holds parts of the right to know every other pass. The calling thread begins with all
//! parts, enqueues the tasks, and cuts off a part for each worker.
ghost use Rattle.std.specs.Prelude.{◌≡◌, ◌+◌, ◌-◌, [], ◌++◌};
ghost use Rattle.task_pool.specs.Rule.{Holds, Takes, Enqueues, Gives, Counts, IsWithin};
ghost use Rattle.task_pool.specs.Holding.{all_parts, joined, unused};

use crate::task::PoolTask;
use crate::waiting::Waiting;
use crossbeam_queue::protocol::{Join, Lesson, Outcome, Protocol, Split};
use crossbeam_queue::{Pass, RuledArrayQueue};
use std::collections::LinkedList;
use std::marker::PhantomData;

/// What a pass of the queue knows. No value of it is made: it exists only in contracts.
pub(crate) struct Holding<T> {
    /// Its parts of the right to know every pass.
    pub parts: u64,
    /// The tasks as they were enqueued at first, in the order of their places.
    pub enqueued: LinkedList<T>,
    /// The places that it took and hasn't given back, with the tasks first enqueued there: those that
    /// are done, and the one under way.
    pub kept: LinkedList<(u32, T)>,
    /// All tasks that it took so far, each as it was then, with their places.
    pub taken: LinkedList<(u32, T)>,
    /// All tasks that it gave back so far, each as it was then, with their places.
    pub given: LinkedList<(u32, T)>,
}

/// The rule of the queue: each place either waits or is kept by one pass, once.
pub(crate) struct Law<T>(PhantomData<T>);

impl<T: PoolTask> Protocol<Waiting<T>, Holding<T>> for Law<T> {
    ghost holds = { Holds T.owes };

    ghost first = { unused all_parts [] };
}

/// A task is enqueued at the next place.
pub(crate) struct Enqueuing<T>(PhantomData<T>);

impl<T: PoolTask> Outcome<Waiting<T>, Holding<T>> for Enqueuing<T> {
    ghost then = { Enqueues };
}

impl<T: PoolTask> Lesson<Waiting<T>, Holding<T>> for Enqueuing<T> {
    ghost fact = { IsWithin };
}

/// A task is taken for a turn.
pub(crate) struct Taking<T>(PhantomData<T>);

impl<T: PoolTask> Outcome<Waiting<T>, Holding<T>> for Taking<T> {
    ghost then = { Takes T.owes };
}

impl<T: PoolTask> Lesson<Waiting<T>, Holding<T>> for Taking<T> {
    ghost fact = { Counts };
}

/// A task is given back after a turn.
pub(crate) struct Giving<T>(PhantomData<T>);

impl<T: PoolTask> Outcome<Waiting<T>, Holding<T>> for Giving<T> {
    ghost then = { Gives };
}

impl<T: PoolTask> Lesson<Waiting<T>, Holding<T>> for Giving<T> {
    ghost fact = { IsWithin };
}

/// A part is cut off for a worker, or a worker's pass comes back.
pub(crate) struct Parting<T>(PhantomData<T>);

impl<T: PoolTask> Split<Holding<T>> for Parting<T> {
    ghost left = { λ v. record v { parts = v.parts - 1 } };

    ghost right = { λ v. unused 1 v.enqueued };
}

impl<T: PoolTask> Join<Holding<T>> for Parting<T> {
    ghost both = { joined };

    ghost spent = { unused 0 [] };
}

/// The queue of the tasks that wait.
pub(crate) type TaskQueue<T> = RuledArrayQueue<Waiting<T>, Holding<T>, Law<T>>;

/// What a thread holds to use the queue.
pub(crate) type TaskPass<T> = Pass<Waiting<T>, Holding<T>>;
