//! What scenario files can't show of contents, packets and runs: values that are made and not read, and runs that are lent
//! a source or a sink that fails.
//!
//! The crate has no contract, and nothing stands on it.
#![tactic(auto)]

#[cfg(test)]
mod contents;
#[cfg(test)]
mod raw_packets;
#[cfg(test)]
mod runs_that_fail;
