//! Who said what: keys of pairs of replicas, and tags that show that a content came from one of the pair.
//!
//! - `codes` computes the HMAC with SHA-256 of RFC 2104.
//! - `pairs` names two replicas that share a key.
//! - `tables` holds the keys, seals contents for a group and checks tags (`KeyTable`).
//! - `laws` states what follows from the definitions alone.
//!
//! Definitions to believe, in the order of reading: `Hmac`, `Pairs`, `Tags`, `Keys`, `Laws`. A table is what `key_for`
//! tells of each two replicas; `from_seed` and `from_rows` say which function that is. `Steps` serves proofs alone.
//!
//! The one contract that all above rely on: `KeyTable::check` is true exactly where the tag is `tag_of` under the
//! key that the table has for sender and receiver. The rules of `pws_runs` speak of these keys and tags.
#![tactic(auto)]

pub mod codes;
pub mod laws;
mod members;
pub mod pairs;
pub mod tables;
