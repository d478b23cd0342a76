//! Votes of replicas on the digest at a place, and books that keep them.
//!
//! - `kinds` names the kinds of votes and the answers to one.
//! - `books` is the trait `VoteBook`: a finite map from kind, place and voter to a digest, for one view.
//! - `list_book` is a book that is a plain list, which is searched.
//! - `mask_book` is a book that takes its memory when it is made: its votes take none. `tallies` has the votes of one kind
//!   at one place, as masks of voters.
//! - `laws` states what follows from the definition of a book alone.
//!
//! Definitions to believe, in the order of reading: `Votes`, `Laws`. `ListBooks`, `Masks` and `MaskBooks` serve proofs
//! alone.
//!
//! The one contract that all above rely on: each call of a `VoteBook` is one step of that finite map, whatever the
//! book keeps inside. The rules of `pws_protocol` speak of that map.
#![tactic(auto)]

pub mod books;
pub mod kinds;
pub mod laws;
pub mod list_book;
pub mod mask_book;
pub mod tallies;
