//! What scenario files can't show of envelopes and of the looker: the text of faults, and runs that are lent a source or a
//! sink that fails.
//!
//! A module a layer. The crate has no contract, and nothing stands on it.
#![tactic(auto)]

#[cfg(test)]
mod faults;
#[cfg(test)]
mod looks;
