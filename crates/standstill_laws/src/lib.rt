//! The laws of a standstill: what holds of a page on which no call finds anything to do, and why no session is on one.
//!
//! It serves those who ask whether the two sides of a session can wait for each other for good. A law is a function
//! with no body, whose contract is the law. No law says that a thread gets a turn, or how long one takes.
#![tactic(auto)]

pub mod laws;
