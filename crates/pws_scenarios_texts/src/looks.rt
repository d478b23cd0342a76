//! Runs of the looker.

use pws_base::memory_streams::{MemorySink, MemorySource};
use pws_look::look_main;
use pws_scenarios::layers::StepError;
use pws_scenarios::reading::Step;
use pws_scenarios::texts::{text_of, told};
use std::alloc::Global;

/// The room for what is written.
const ROOM: usize = 100000;

/// Adds an answer a line, and one more where the last line isn't ended.
fn tell_lines(alloc: Global, text: &[u8], answers: &mut Vec<String>) -> Result<(), StepError> {
    let Ok(text) = str::from_utf8(text) else {
        return Err(StepError::Expected("a text in UTF-8"));
    };
    for line in text.lines() {
        let answer = told(alloc, line.as_bytes())?;
        answers.push(answer)?;
    }
    if !text.is_empty() && !text.ends_with('\n') {
        let answer = format!(in alloc; "the last line is not ended")?;
        answers.push(answer)?;
    }
    Ok(())
}

/// Takes a step, `look` and words: an answer for each line that is written, and one for the status.
///
/// # Errors
///
/// Why the step wasn't taken.
pub fn step_look(alloc: Global, step: &Step, answers: &mut Vec<String>) -> Result<(), StepError> {
    let ["look", words @ ..] = step.words.as_slice() else {
        return Err(StepError::NoSuchStep);
    };
    let text = text_of(alloc, &step.text)?;
    let mut source = MemorySource::new(text, Vec::new(alloc));
    let mut sink = MemorySink::new(alloc, ROOM, Vec::new(alloc))?;
    let status = look_main(alloc, words, &mut source, &mut sink);
    tell_lines(alloc, sink.bytes(), answers)?;
    let answer = format!(in alloc; "status {status:?}")?;
    Ok(answers.push(answer)?)
}
