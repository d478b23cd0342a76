//! How much a voter holds: bounds on what view changes, events and digests take, as laws over the definitions of
//! `pws_protocol`.
//!
//! `laws` has the statements, each as the contract of a function that does nothing; nothing else is here.
//!
//! # The order of reading
//!
//! | `specs/` | |
//! |---|---|
//! | `Tidy` | each event that is held by its digest is named, and that this is kept |
//! | `Asked` | that few events are asked for between two ticks |
//! | `Bounds` | how many bytes a voter holds at most, but for its evidence |
//!
//! Nothing else has to be believed; `proofs/` serve the prover alone: `Counting` has how many entries a map has whose keys
//! lie in a list, and what the sum over them is at most; `Named` has the digests that a voter names, and `Holding` what
//! each part of it holds; `Keeping` and `Asking` have what reactions keep.
#![tactic(auto)]

pub mod laws;
