//! The cases of texts: elements and characters, trees, envelopes and their addressing, the messages that services make,
//! scripts, and the answers of the looker, as the files in data/ have them.
//!
//! docs/SCENARIOS.md has the form of the files, and the steps of each layer. The program has no contract of its own, and
//! nothing stands on it.
#![tactic(auto)]

mod elements;
mod envelopes;
mod looks;
mod messages;
mod names;
mod scripts;
mod trees;

use crate::elements::step_elements;
use crate::envelopes::Envelopes;
use crate::looks::step_look;
use crate::messages::Messages;
use crate::scripts::step_scripts;
use crate::trees::Trees;
use pws_base::memory::Memory;
use pws_scenarios::layers::{Layer, StepError};
use pws_scenarios::reading::Step;
use pws_scenarios::running::run_files;
use std::alloc::Global;
use std::io;
use std::process::ExitCode;

/// The layers of this program.
#[derive(Drop)]
enum Texts {
    Elements,
    Trees(Trees),
    Envelopes(Envelopes),
    Messages(Messages),
    Scripts,
    Look,
}

impl Layer for Texts {
    fn begin(alloc: Global, name: &str) -> Result<Option<Texts>, Memory> {
        Ok(match name {
            "elements" => Some(Texts::Elements),
            "trees" => Some(Texts::Trees(Trees::new(alloc))),
            "envelopes" => Some(Texts::Envelopes(Envelopes::new(alloc))),
            "messages" => Some(Texts::Messages(Messages::new())),
            "scripts" => Some(Texts::Scripts),
            "look" => Some(Texts::Look),
            _ => None,
        })
    }

    fn step(
        &mut self,
        alloc: Global,
        step: &Step,
        answers: &mut Vec<String>,
    ) -> Result<(), StepError> {
        match self {
            Texts::Elements => step_elements(alloc, step, answers),
            Texts::Trees(trees) => trees.step(alloc, step, answers),
            Texts::Envelopes(envelopes) => envelopes.step(alloc, step, answers),
            Texts::Messages(messages) => messages.step(alloc, step, answers),
            Texts::Scripts => step_scripts(alloc, step, answers),
            Texts::Look => step_look(alloc, step, answers),
        }
    }
}

fn main(rt: HostRuntime) -> io::Result<ExitCode> {
    run_files::<Texts>(&rt)
}
