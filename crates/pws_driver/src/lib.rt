//! The runner of scripts.
//!
//! - `runners` is the driver that runs a script, in a group of a layout (`programs`). It is one suspended script, which
//!   goes on from where it waits. Its acts are those of one run of the script from its start over the whole list of
//!   effects, which the definitions under `specs` give.
//! - `envelopes` is the trait by which a runner reads and makes messages.
//! - `laws` states what follows from the definition of runs.
//!
//! The definitions are in `specs/`, to be read in this order: `Envelopes`, `Services`, `Values`, `Keys`, `Moves`,
//! `Instructions`, `Takings`, `Zeros`, `Runs`, `Laws`. `Did` and `Places` are what private parts say of one another, and
//! the modules of `Lemmas` are for the proofs alone.
//!
//! The one contract: a `Runner` is a `Driver`, whose acts are `acts_of` its script.
#![tactic(auto)]

mod calls;
mod cores;
pub mod envelopes;
mod instructions;
mod keys;
pub mod laws;
mod machines;
mod moves;
pub mod programs;
pub mod runners;
mod takings;
mod texts;
mod untaken;
mod values;
