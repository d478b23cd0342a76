//! What bytes are, and why they are refused: answers of the readers, a line a text.
//!
//! - `words` reads the words of the program: a kind of text, and whether each line of the input is one.
//! - `answers` has the answer to one text of each kind.
//! - `envelopes` has those to texts of elements and envelopes.
//! - `lines` has the answers to a whole input.
//! - `statuses` has the statuses with which the program ends.
//! - `top` has `look_main`, the top call: words and streams in, a status out.
//! - `laws` has the laws that words and bytes have one outcome.
//!
//! The one contract is that of `look_main`: over a source that tells its bytes and a sink that tells what it holds,
//! status and text are those of the words and the bytes, by the definitions of the readers. The program
//! `pws_look_program` stands on it.
#![tactic(auto)]

mod answers;
mod envelopes;
pub mod laws;
mod lines;
pub mod statuses;
mod top;
mod words;

pub use top::look_main;
