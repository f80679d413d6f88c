//! Words and lemmas on lists, tests and results that the kit doesn't have.
//!
//! No crate calls it: its definitions stand in contracts, its lemmas in proofs.
#![tactic(auto)]
