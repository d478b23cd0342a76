//! Whole runs of the simulator: what it is given, its status and the text that it writes.

use pws_base::memory_streams::{MemorySink, MemorySource};
use pws_scenarios::layers::StepError;
use pws_scenarios::reading::Step;
use pws_scenarios::words::{bytes_of, spelled};
use pws_sim::sim_main;
use std::alloc::Global;
use std::str;

/// What a run is to be given.
#[derive(Drop)]
pub struct Runs {
    input: Vec<u8>,
}

/// Adds the lines of a text, and says so where the last one isn't ended by a line feed.
fn put_lines(alloc: Global, text: &str, answers: &mut Vec<String>) -> Result<(), StepError> {
    if text.is_empty() {
        return Ok(());
    }
    let ended = text.strip_suffix('\n');
    for line in ended.unwrap_or(text).split('\n') {
        answers.push(String::from_str(alloc, line)?)?;
    }
    if ended.is_none() {
        answers.push(format!(in alloc; "no line feed at the end")?)?;
    }
    Ok(())
}

impl Runs {
    /// No input yet.
    pub fn new(alloc: Global) -> Runs {
        Runs {
            input: Vec::new(alloc),
        }
    }

    /// Adds lines to the input, each with its line feed.
    fn add_lines(&mut self, text: &[&str]) -> Result<(), StepError> {
        for line in text {
            self.input.extend_from_slice(line.as_bytes())?;
            self.input.push(b'\n')?;
        }
        Ok(())
    }

    /// Adds lines to the input, with line feeds between them alone.
    fn add_part(&mut self, text: &[&str]) -> Result<(), StepError> {
        let mut first = true;
        for line in text {
            if !first {
                self.input.push(b'\n')?;
            }
            self.input.extend_from_slice(line.as_bytes())?;
            first = false;
        }
        Ok(())
    }

    /// Adds a line that says a content, given as bytes.
    fn add_say(
        &mut self,
        alloc: Global,
        from: &str,
        to: &str,
        content: &str,
    ) -> Result<(), StepError> {
        let digits = hex::encode(alloc, bytes_of(alloc, content)?.as_slice())?;
        let line = format!(in alloc; "say {from} {to} {digits}\n")?;
        Ok(self.input.extend_from_slice(line.as_bytes())?)
    }

    /// Runs the simulator with these words on the input, and adds its status and what it wrote.
    fn start(
        &mut self,
        alloc: Global,
        words: &[&str],
        answers: &mut Vec<String>,
    ) -> Result<(), StepError> {
        let input = self.input.as_slice().to_vec(alloc)?;
        let mut source = MemorySource::new(input, Vec::new(alloc));
        let mut sink = MemorySink::new(alloc, 100_000, Vec::new(alloc))?;
        let status = sim_main(alloc, words, &mut source, &mut sink);
        answers.push(format!(in alloc; "status {}", status.code())?)?;
        match str::from_utf8(sink.bytes()) {
            Ok(text) => put_lines(alloc, text, answers),
            Err(_) => Ok(answers.push(spelled(alloc, sink.bytes())?)?),
        }
    }

    /// Takes a step.
    pub fn step(
        &mut self,
        alloc: Global,
        step: &Step,
        answers: &mut Vec<String>,
    ) -> Result<(), StepError> {
        let words: &[&str] = &step.words;
        match words {
            ["lines"] => self.add_lines(&step.text),
            ["part"] => self.add_part(&step.text),
            ["bytes", bytes] => Ok(self.input.extend_from_slice(&bytes_of(alloc, bytes)?)?),
            ["say", from, to, content] => self.add_say(alloc, from, to, content),
            ["start", words @ ..] => self.start(alloc, words, answers),
            _ => Err(StepError::NoSuchStep),
        }
    }
}
