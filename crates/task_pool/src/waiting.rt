//! A task on its way between workers, and what a task gave.

/// A task that waits for its next turn.
#[derive(Drop)]
pub(crate) struct Waiting<T> {
    /// Its place in the list of tasks.
    pub place: u32,
    /// The task.
    pub task: T,
}

/// What a task gave.
#[derive(Drop)]
pub(crate) struct Finished<D> {
    /// Its place in the list of tasks.
    pub place: u32,
    /// What it gave.
    pub done: D,
}

/// What came of a try to make a turn.
#[derive(Drop)]
pub(crate) enum Tried<D> {
    /// No task waited.
    Idle,
    /// A task made a turn, which moved something or nothing, and waits again.
    Again { moved: bool },
    /// A task made its last turn.
    Over(Finished<D>),
}
