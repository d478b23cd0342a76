//! Why agreement holds, over what replicas say: views, places and digests, with no packet and no voter.
//!
//! - `laws` has the argument, from quorums to agreement in every run.
//! - `witnesses` has runs that exist, so that no law holds for want of one.
//! - `counterexamples` has rules that look as good, and the runs in which they lead to disagreement.
//!
//! The definitions are in `specs/`, to be read in this order: `Replicas`, `Statement`, `Contents`, `Statements`, `Voters`,
//! `Kept`, `Facts`, `Runs`, `Agreement`, `Witnesses`, `Counterexamples`. docs/PROTOCOL.md tells the argument in prose.
//!
//! The one contract: in every run of a group with at most `f` compromised replicas what is settled at a place is one
//! digest, through every list of view changes. The voter will be proved to take the steps that are defined here.
#![tactic(auto)]

pub mod counterexamples;
pub mod laws;
pub mod witnesses;
