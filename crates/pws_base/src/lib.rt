//! The ground that every other crate stands on: who the replicas are, bytes as lists, and the outside.
//!
//! - `shapes` names groups and replicas, and says how many a group has and needs (`GroupShape`, `Layout`). `replicas`
//!   tells a replica among others, other groups, and groups that are sound.
//! - `limits` has the bounds of numbers, texts, groups and windows, and `places` the places that are open at once.
//! - `bytes` and `lists` are the small owners over a `Vec` that contracts of all crates see as plain lists, and the
//!   copies that are equal to what was copied.
//! - `memory` is the want of memory, which every call that allocates may answer.
//! - `cursors` and `writers` read and write numbers and bytes, high byte first. `fields` reads the fields of a text,
//!   with the kind and the place of each refusal. `decimals` reads and writes decimal numbers, and `lines` cuts a text
//!   into its lines.
//! - `streams` are the traits over the outside, `Source` and `Sink`. Each counts its faults, and may tell the
//!   bytes that are still to come, or that it holds. `memory_streams` are sources and sinks for tests, whose
//!   failing calls are listed, and `standard` adapts the readers and writers of std. `whole` reads and writes
//!   whole texts over any of them.
//! - `laws` states what follows from the definitions alone.
//!
//! Definitions to believe, in the order of reading: `Limits`, `Shapes`, `Replicas`, `Counts`, `Sound`, `Places`,
//! `Texts`, `Decimals`, `Lines`, `Cursors`, `Fields`, `Streams`, `Whole`, `Calls`, `Laws`. `Padded` tells how a layout is
//! stored.
//!
//! The one contract that all above rely on: a call on the outside answers a fault only where that object's count of
//! faults rose, so a program that claims a fault which never came isn't proved.
#![tactic(auto)]

pub mod bytes;
pub mod cursors;
pub mod decimals;
pub mod fields;
pub mod laws;
pub mod limits;
pub mod lines;
pub mod lists;
pub mod memory;
pub mod memory_streams;
pub mod places;
pub mod replicas;
pub mod shapes;
pub mod standard;
pub mod streams;
pub mod whole;
pub mod writers;
