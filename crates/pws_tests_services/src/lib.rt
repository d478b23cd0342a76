//! What scenario files can't show of services: a holder that knows the trait of drivers alone.
//!
//! The crate has no contract, and nothing stands on it.
#![tactic(auto)]

#[cfg(test)]
mod services;
