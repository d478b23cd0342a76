//! Addressing headers, and the envelopes that drivers make.
//!
//! - `headers` has the addressing of a message, and the names of its headers.
//! - `reading` reads the addressing of an envelope, and `putting` writes one into it.
//! - `replies` has the addressing of a reply.
//! - `identifiers` has the names of groups, calls and replies.
//! - `causes` tells why a driver answers with a fault, and which.
//! - `envelopes` writes the envelopes that drivers make: calls, replies and faults.
//! - `laws` has what holds of them all.
//!
//! The contract that all above rely on: `read_addressing` answers what the definition `addressing_of`, in specs/, gives for
//! the header blocks of an envelope, each refusal exactly where it says, `reply_of` is a function of the addressing alone,
//! and the texts of `call_text`, `reply_text` and `fault_text` are the canonical ones of the envelopes that specs/Envelopes
//! describes, and no longer than a body may be. By the laws what is put into an envelope is read there again, what was read
//! is read again from what is put for it, and the texts that one driver writes the other reads as they were meant.
//!
//! On this layer stands `pws_envelopes`, what envelopes mean to a service.
#![tactic(auto)]

pub mod causes;
pub mod envelopes;
pub mod headers;
pub mod identifiers;
pub mod laws;
pub mod putting;
pub mod reading;
pub mod replies;
