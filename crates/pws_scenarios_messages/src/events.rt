//! The texts of events.

use pws_base::fields::FieldError;
use pws_base::lists::ExactCopy;
use pws_event::events::{Event, event_digest, write_event};
use pws_event::parsing::read_event;
use pws_scenarios::layers::StepError;
use pws_scenarios::words::{bytes_of, spelled};
use std::alloc::Global;

/// The name of an event's kind.
pub fn kind_of(event: &Event) -> &'static str {
    match event {
        Event::Null => "Null",
        Event::Request(_) => "Request",
        Event::Reply(_) => "Reply",
        Event::Abort(_) => "Abort",
        Event::Clock(_) => "Clock",
        Event::Random(_) => "Random",
    }
}

/// The event that a word spells.
pub fn event_of(alloc: Global, word: &str) -> Result<Event, StepError> {
    match read_event(alloc, &bytes_of(alloc, word)?) {
        Ok(event) => Ok(event),
        Err(FieldError::Fault(_)) => Err(StepError::Expected("the text of an event")),
        Err(FieldError::Memory) => Err(StepError::Memory),
    }
}

/// Reading of events, which keeps nothing between two steps.
#[derive(Drop)]
pub struct Events;

impl Events {
    /// Answers the kind and the digest of an event, and what its copy is written as where that is another text.
    fn answer(
        alloc: Global,
        event: &Event,
        text: &[u8],
        answers: &mut Vec<String>,
    ) -> Result<(), StepError> {
        let digest = spelled(alloc, &event_digest(alloc, event)?)?;
        answers.push(format!(in alloc; "{} {digest}", kind_of(event))?)?;
        let written = write_event(alloc, &event.copy(alloc)?)?;
        if written.as_slice() != text {
            let written = spelled(alloc, written.as_slice())?;
            answers.push(format!(in alloc; "written {written}")?)?;
        }
        Ok(())
    }

    /// Takes a step.
    pub fn step(
        &mut self,
        alloc: Global,
        words: &[&str],
        answers: &mut Vec<String>,
    ) -> Result<(), StepError> {
        let ["read", text] = words else {
            return Err(StepError::NoSuchStep);
        };
        let text = bytes_of(alloc, text)?;
        match read_event(alloc, &text) {
            Ok(event) => Events::answer(alloc, &event, &text, answers),
            Err(FieldError::Fault(fault)) => {
                Ok(answers.push(format!(in alloc; "at {}", fault.at)?)?)
            }
            Err(FieldError::Memory) => Err(StepError::Memory),
        }
    }
}
