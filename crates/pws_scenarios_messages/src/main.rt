//! The cases of messages and of what they are made of: events, effects, tags, packets, frames, votes, view changes, and
//! whole runs of the simulator, as the files in data/ have them.
//!
//! docs/SCENARIOS.md has the form of the files and the steps of each layer. A module a layer; `digests` and `rows` are
//! words that several have. The program has no contract of its own, and nothing stands on it.
#![tactic(auto)]

mod choices;
mod digests;
mod effects;
mod events;
mod frames;
mod lists;
mod packets;
mod prepared;
mod rows;
mod runs;
mod tags;
mod votes;

use crate::choices::Choices;
use crate::effects::Effects;
use crate::events::Events;
use crate::frames::Frames;
use crate::lists::Lists;
use crate::packets::Packets;
use crate::prepared::{PrePrepared, Prepared};
use crate::runs::Runs;
use crate::tags::Tags;
use crate::votes::Votes;
use pws_base::memory::Memory;
use pws_scenarios::layers::{Layer, StepError};
use pws_scenarios::reading::Step;
use pws_scenarios::running::run_files;
use std::alloc::Global;
use std::io;
use std::process::ExitCode;

/// The layers of this program.
#[derive(Drop)]
enum Messages {
    Events(Events),
    Lists(Lists),
    Effects(Effects),
    Tags(Tags),
    Packets(Packets),
    Frames(Frames),
    Votes(Votes),
    Prepared(Prepared),
    PrePrepared(PrePrepared),
    Choices(Choices),
    Runs(Runs),
}

impl Layer for Messages {
    fn begin(alloc: Global, name: &str) -> Result<Option<Messages>, Memory> {
        Ok(match name {
            "events" => Some(Messages::Events(Events)),
            "lists" => Some(Messages::Lists(Lists::new(alloc))),
            "effects" => Some(Messages::Effects(Effects::new())),
            "tags" => Some(Messages::Tags(Tags::new())),
            "packets" => Some(Messages::Packets(Packets)),
            "frames" => Some(Messages::Frames(Frames::new(alloc))),
            "votes" => Some(Messages::Votes(Votes::new(alloc))),
            "prepared" => Some(Messages::Prepared(Prepared::new(alloc))),
            "pre-prepared" => Some(Messages::PrePrepared(PrePrepared::new(alloc))),
            "choices" => Some(Messages::Choices(Choices::new(alloc))),
            "runs" => Some(Messages::Runs(Runs::new(alloc))),
            _ => None,
        })
    }

    fn step(
        &mut self,
        alloc: Global,
        step: &Step,
        answers: &mut Vec<String>,
    ) -> Result<(), StepError> {
        let words: &[&str] = &step.words;
        match self {
            Messages::Events(layer) => layer.step(alloc, words, answers),
            Messages::Lists(layer) => layer.step(alloc, words, answers),
            Messages::Effects(layer) => layer.step(alloc, words, answers),
            Messages::Tags(layer) => layer.step(alloc, words, answers),
            Messages::Packets(layer) => layer.step(alloc, words, answers),
            Messages::Frames(layer) => layer.step(alloc, words, answers),
            Messages::Votes(layer) => layer.step(alloc, words, answers),
            Messages::Prepared(layer) => layer.step(alloc, words, answers),
            Messages::PrePrepared(layer) => layer.step(alloc, words, answers),
            Messages::Choices(layer) => layer.step(alloc, words, answers),
            Messages::Runs(layer) => layer.step(alloc, step, answers),
        }
    }
}

fn main(rt: HostRuntime) -> io::Result<ExitCode> {
    run_files::<Messages>(&rt)
}
