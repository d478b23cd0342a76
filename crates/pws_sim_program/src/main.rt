//! The program `pws-sim`: `sim_main` over standard input and standard output, with the exit status that is its
//! answer.
//!
//! It has no contract of its own: it makes the real objects and hands them on. Nothing stands on it.
#![tactic(auto)]

use pws_arguments::{as_strs, given_words};
use pws_base::memory::Memory;
use pws_base::standard::{ReaderSource, WriterSink};
use pws_sched::statuses::Status;
use pws_sim::sim_main;
use std::process::ExitCode;

/// Runs the simulator with the words that the program was given on the standard streams.
fn run(rt: &HostRuntime) -> Result<Status, Memory> {
    let given = given_words(rt)?;
    let words = as_strs(rt.alloc(), &given)?;
    let mut source = ReaderSource::new(rt.stdin());
    let mut sink = WriterSink::new(rt.stdout());
    Ok(sim_main(rt.alloc(), &words, &mut source, &mut sink))
}

fn main(rt: HostRuntime) -> ExitCode {
    let status = run(&rt).unwrap_or(Status::Memory);
    ExitCode::from(status.code())
}
