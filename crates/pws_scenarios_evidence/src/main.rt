//! The cases of evidence: what is heard, what it supports, and what may be proposed, as the files in data/ have them.
//!
//! docs/SCENARIOS.md has the form of the files, and the steps of the layer. The program has no contract of its own, and
//! nothing stands on it.
#![tactic(auto)]

mod evidence;

use crate::evidence::Witness;
use pws_base::memory::Memory;
use pws_scenarios::layers::{Layer, StepError};
use pws_scenarios::reading::Step;
use pws_scenarios::running::run_files;
use std::alloc::Global;
use std::io;
use std::process::ExitCode;

/// The layer of this program.
#[derive(Drop)]
struct EvidenceLayer {
    witness: Witness,
}

impl Layer for EvidenceLayer {
    fn begin(_alloc: Global, name: &str) -> Result<Option<EvidenceLayer>, Memory> {
        Ok(match name {
            "evidence" => Some(EvidenceLayer {
                witness: Witness::new(),
            }),
            _ => None,
        })
    }

    fn step(
        &mut self,
        alloc: Global,
        step: &Step,
        answers: &mut Vec<String>,
    ) -> Result<(), StepError> {
        self.witness.step(alloc, &step.words, answers)
    }
}

fn main(rt: HostRuntime) -> io::Result<ExitCode> {
    run_files::<EvidenceLayer>(&rt)
}
