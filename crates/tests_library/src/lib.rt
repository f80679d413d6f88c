//! What the libraries of messages, sessions, scripts and scenarios do on worked inputs, as tests of
//! their public calls.
//!
//! The tests stand in a crate of their own, since a crate with tests is proved twice. The errors
//! for a bad script, stream or scenario file are tested through the whole program.
#![tactic(auto)]

#[cfg(test)]
mod broker;
#[cfg(test)]
mod driven;
#[cfg(test)]
mod errors;
#[cfg(test)]
mod frames;
#[cfg(test)]
mod hello;
#[cfg(test)]
mod io;
#[cfg(test)]
mod refusals;
#[cfg(test)]
mod scenarios;
#[cfg(test)]
mod scripts;
#[cfg(test)]
mod services;
#[cfg(test)]
mod sessions;
#[cfg(test)]
mod words;
