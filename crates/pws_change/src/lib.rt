//! What a new view keeps of the earlier ones.
//!
//! - `prepared` and `pre_prepared` are the sets `PSet` and `QSet`: what a replica prepared and pre-prepared in earlier
//!   views, as finite maps, with the rows that its view change holds.
//! - `valid` tells which view changes are valid. `heard` has one as it was heard, `Heard`, and as it is lent to whoever
//!   looks at it, `HeardRef`: no call copies a view change.
//! - `choices` has `choose`: what a list of view changes decides, a `Decision` (`decisions`). `counts` counts what the
//!   changes say of a place, and `search` finds the best checkpoint and the best entry among those that enough of them
//!   bear out.
//! - `agreements` has `agrees`: whether a new view is what the changes that it names decide.
//! - `laws` states what follows from the definitions alone.
//!
//! Definitions to believe, in the order of reading: `Rising`, `Valid`, `Changes`, `Choices`, `Best`, `Decisions`,
//! `Agreements`, `Sets`, `Laws`, `SendingLaws`, `SetLaws`. `Choices` states the choice as a relation, by counts over the
//! whole list, and `Decisions` as a function; of these two `Choices` is the one to believe, since `Laws` says that they
//! agree. `Searched` and `Rows` serve proofs alone.
//!
//! The one contract that all above rely on: of each list of view changes exactly one decision meets the definition of the
//! choice, a count over the whole list, and `choose` gives it. docs/PROTOCOL.md tells the rule in words.
#![tactic(auto)]

pub mod agreements;
pub mod choices;
mod counts;
pub mod decisions;
mod digests;
pub mod heard;
pub mod laws;
pub mod pre_prepared;
pub mod prepared;
mod search;
pub mod valid;
