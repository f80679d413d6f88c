//! What the tasks of a run do together in stated orders of turns, as tests.
//!
//! Contracts state what each task owes whatever the order, and not that a run ends: some runs of these tests
//! do end. Runs against hostile domains with one worker are played through the whole program.
#![tactic(auto)]

#[cfg(test)]
mod agents;
#[cfg(test)]
mod held_back;
#[cfg(test)]
mod in_order;
#[cfg(test)]
mod late;
#[cfg(test)]
mod reports;
#[cfg(test)]
mod runs;
