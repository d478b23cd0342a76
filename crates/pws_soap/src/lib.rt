//! Envelopes and faults of SOAP 1.2, as trees and as texts.
//!
//! - `errors` tells why a tree is no envelope.
//! - `names` has the names that SOAP 1.2 and WS-Addressing 1.0 give, and `white` takes white space from round a text.
//! - `blocks` tells whom a header block is for, and whether it must be understood.
//! - `envelopes` has envelopes, and `opening` the envelope that a tree is.
//! - `faults` has faults, and the envelope round one.
//! - `reading` reads an envelope from a text, and `writing` writes its canonical text.
//! - `laws` has what holds of them all.
//!
//! The contract that all above rely on: `envelope_of` answers what the definition of that name, in specs/, gives for the
//! tree, each refusal exactly where it says, and `write_envelope` writes the canonical text of the root, `root_of`, of an
//! envelope. By the laws the root of what was read is read as the same envelope.
//!
//! On this layer stands `pws_addr`, the addressing headers.
#![tactic(auto)]

pub mod blocks;
pub mod envelopes;
pub mod errors;
pub mod faults;
pub mod laws;
pub mod names;
pub mod opening;
pub mod reading;
pub mod white;
pub mod writing;
