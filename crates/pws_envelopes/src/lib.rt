//! What the texts of envelopes mean to a service: SOAP 1.2 envelopes with WS-Addressing headers.
//!
//! - `soap` is the meaning by which a runner of scripts reads and makes messages.
//! - `fields` are the texts of a message.
//! - `runners` names the runner of scripts over these envelopes, whose acts are `soap_acts` of its script.
//!
//! The definitions are in `specs/`, to be read in this order: `Fields`, `SoapWords`, `Acts`. `Fits` is for the proofs
//! alone.
//!
//! The one contract that the layers above rely on: `SoapEnvelopes` keeps the laws of `pws_driver::envelopes::Envelopes`.
#![tactic(auto)]

mod fields;
pub mod runners;
pub mod soap;
