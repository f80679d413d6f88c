//! Runs of the whole program over memory, for what no clause says: that as many workers turn tasks at once as it
//! was told, and that the pages of a run have the orders and the start of the file.
#![tactic(auto)]

#[cfg(test)]
mod memory_runs;
#[cfg(test)]
mod unusual_rings;
#[cfg(test)]
mod whole_runs;
