//! Evidence: what the replicas of all groups said that concerns one group, which events it supports, and which of them a
//! primary may propose.
//!
//! - `stores` has `Evidence`, the store: of each replica the first statement about each request, call and ask, and the
//!   bodies of replies by their digests. Its calls are told in three more modules: `hearing` has `hear`, `supporting` has
//!   `supports` and `vouchers`, and `proposals` has `candidates`.
//! - `statements` has a statement as it is kept.
//! - `matters` tells what a content is evidence of, and whether that is inside.
//! - `copying` copies the maps of a store, and `holding` counts the bytes that they hold.
//! - `laws` has functions that do nothing, and whose contracts are laws; `Laws` and `Bounds` state them: that
//!   candidates are due, and how much settled evidence holds at most.
//!
//! What all of it means stands in `pws_protocol`: `Keys`, `Evidence`, `Support`, `Candidates`, in the order of reading.
//! `Stores`, `Counted` and `Proposed` serve proofs alone.
//!
//! The one contract that all above rely on: each call is one step or one question of the finite maps of `Evidence`,
//! whatever the store keeps inside, and want of memory changes nothing. A look-up is by key: `hear` and `candidates` don't
//! go through what is kept.
#![tactic(auto)]

mod copying;
mod hearing;
mod holding;
pub mod laws;
mod matters;
mod proposals;
pub mod statements;
pub mod stores;
mod supporting;
