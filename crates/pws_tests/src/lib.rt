//! What scenario files can't show of the layers of bytes, keys, places and votes: objects that fail, calls that no scenario
//! makes, with ample memory and their answers compared, and callers that know a trait alone.
//!
//! A module a layer. They stand here since a crate with tests of its own is proved twice. The crate has no contract, and
//! nothing stands on it.
#![tactic(auto)]

#[cfg(test)]
mod base;
#[cfg(test)]
mod places;
#[cfg(test)]
mod tags;
#[cfg(test)]
mod votes;
