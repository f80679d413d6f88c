//! Relays, calls that wait, servers for one client after another, pools of tasks and hostile tasks, as
//! tests of their public calls.
//!
//! The tests stand in a crate of their own, since a crate with tests is proved twice.
#![tactic(auto)]

#[cfg(test)]
mod hostile;
#[cfg(test)]
mod pools;
#[cfg(test)]
mod relays;
#[cfg(test)]
mod servers;
#[cfg(test)]
mod waiting;
