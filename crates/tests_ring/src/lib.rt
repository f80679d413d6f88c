//! The numbers and the image of a page, and what two ends of one shared page do together: worked rows on
//! one thread, and two threads that move bytes through one ring.
//!
//! They stand in a crate of their own, since a row needs several crates of calls, and a crate with tests is
//! proved twice. Each row of two ends is a function of its own, which returns `None` if an answer isn't that
//! of the row, and whose contract states what it leaves in the lists of the page.
#![tactic(auto)]

#[cfg(test)]
mod images;
#[cfg(test)]
mod indices;
#[cfg(test)]
mod orders;
mod row;
#[cfg(test)]
mod rows;
#[cfg(test)]
mod tests;
#[cfg(test)]
mod threads;
#[cfg(test)]
mod whole;
#[cfg(test)]
mod words;

pub use row::Row;
