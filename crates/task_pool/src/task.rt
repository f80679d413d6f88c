//! The tasks of the pool.
ghost use Rattle.task_pool.specs.Owes.{Pays};
ghost use Rattle.task_pool.specs.declared.task.Turn.{Turn};

/// A task that is run turn by turn. It moves between threads, and may be dropped if memory runs
/// out.
///
/// Its meaning is what it owes: which values its `Done` may have. `turns` tells what a turn found and did, by the
/// task before it and what it gives.
pub trait PoolTask: Sized + Send + Drop {
    /// What the task gives in the end.
    type Done: Send + Drop;

    ghost owes: { Self → Self.Done → Type 0 };

    ghost turns: { Self → Turn Self Self.Done → Type 0 };

    /// Makes one turn. A task that goes on owes nothing that it didn't owe before, and a task that
    /// is done gives what it owed.
    fn turn(self) -> Turn<Self>
        ensures pays { Pays owes self result }
        ensures turns { turns self result };

    /// Returns whether the last turn moved anything that another task may wait for. After a turn
    /// that moved nothing, the task is turned again when some other turn has moved something, or a
    /// while later. No promise rests on it.
    fn moved(&self) -> bool {
        true
    }
}

/// What a turn gives: the task, which goes on, or what it owed.
pub enum Turn<T: PoolTask> {
    /// The task wants another turn.
    Again(T),
    /// The task is done.
    Done(T::Done),
}
