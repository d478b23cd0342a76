//! Texts in the place of envelopes.
//!
//! `plain` has `Plain`: what texts mean to a service where a message is its text. Cases of scripts and the measured
//! program `pws_driver_bench` are short with it, and need no XML.
#![tactic(auto)]

pub mod plain;
