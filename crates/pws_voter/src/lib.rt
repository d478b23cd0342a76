//! What a voter holds, and how it changes: the code of the rules in `pws_protocol`, step by step.
//!
//! A voter isn't whole here. What stands is its state, `states`, and the steps below, each with the contract that it does
//! what the rule of its name says; nothing puts them together to a reaction yet.
//!
//! - `states` has the state, made as that of a voter that has heard nothing, its readers, and the small steps: it votes,
//!   accepts a digest, holds a text. `parts` has what it is made of, `maps` and `texts` the maps in it: by the index of a
//!   replica, by place, and by digest.
//! - `inputs` has what a voter is given, `outs` what it puts out.
//! - In files named after the words of the rules: what is kept of a packet, row by row (`hearing`); which slot can be
//!   prepared or committed, and what that does (`preparing`, `committing`); the execution of an event (`executing`), the
//!   vote for a checkpoint (`checkpointing`)
//!   and the low mark (`lowering`); which view change counts (`gathered`).
//!
//! Definitions to believe, in the order of reading: `Windows`, `Shown`, `Ranges`. `Codes` serves proofs alone.
//!
//! The one contract: contracts see the state as the record `State` of the rules, field by field, and each step is the
//! word of the rules that has its name.
#![tactic(auto)]

mod checkpointing;
mod committing;
mod digests;
mod executing;
mod gathered;
mod hearing;
pub mod inputs;
mod lowering;
pub mod maps;
pub mod outs;
pub mod parts;
mod preparing;
pub mod states;
pub mod texts;
