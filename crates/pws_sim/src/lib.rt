//! The simulator: from a schedule on a source to a report on a sink.
//!
//! - `replica` is the one replica of the first form: it keeps requests of one caller and pushes those that take
//!   effect, in the order of their numbers.
//! - `reports` prints the places of its event list.
//! - `top` has `sim_main`, the top call: words and streams in, a status out.
//!
//! The one contract is that of `sim_main`: over a source that tells its bytes and a sink that tells what it holds,
//! status and text are one function of the words and the bytes, `outcome`; and in the event list that it reports
//! each caller's request takes effect at most once, at one place. The program `pws_sim_program` stands on it.
#![tactic(auto)]

mod replica;
mod reports;
mod top;

pub use top::sim_main;
