//! The maps of a voter: by place within the window above a low mark, and by digest.
//!
//! - `places` is a map by place: a ring of as many rows as the window has places, which takes its memory when it is
//!   made, and none afterwards.
//! - `digests` is a map by digest that has a bound. Rows are looked up by the digest, however many there are.
//!
//! Definitions to believe, in the order of reading: `PlaceMaps`, `DigestMaps`. `Rings` serves proofs alone.
//!
//! The one contract that all above rely on: each call is one step of a finite map, and what it answers is read off that
//! map. No contract speaks of rings or trees.
#![tactic(auto)]

pub mod digests;
pub mod places;
