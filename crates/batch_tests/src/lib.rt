//! Tests of batches: the desk by one thread, both submitters at work with real threads, lists that are read or aren't, and whole
//! batches over devices in memory.
#![tactic(auto)]

#[cfg(test)]
mod batches;
#[cfg(test)]
mod desks;
#[cfg(test)]
mod lists;
