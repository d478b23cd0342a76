//! What a deterministic service is: effects come in, acts go out.
//!
//! - `acts` are what a service does, and `keys` name calls between two groups.
//! - `drivers` is the trait of a service that answers each effect with acts: what it has done so far is a function of
//!   its program and of the effects that it has taken, the acts on a prefix of the effects are a prefix of the acts on
//!   the whole, and its acts are lawful.
//! - `noting` lets the counters of effects note what a service calls and asks, `leading` leads a driver and the counters
//!   together, and `holders` holds both, as a replica does.
//! - `laws` states what follows from the rules of effects and acts.
//!
//! The definitions are in `specs/`, to be read in this order: `Effects`, `Keys`, `Lawful`, `Drivers`, `Noting`,
//! `Laws`, `Holders`.
//!
//! The one contract that the layers above rely on: the laws of `Driver`, which hold of every driver. No layer above
//! knows how a service is run.
#![tactic(auto)]

pub mod acts;
pub mod drivers;
pub mod holders;
pub mod keys;
pub mod laws;
pub mod leading;
pub mod noting;
