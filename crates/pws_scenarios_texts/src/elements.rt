//! Texts of elements, and the characters of names and texts.

use pws_base::lists::ExactCopy;
use pws_mark::errors::{MarkError, ReadError};
use pws_mark::reading::read_element;
use pws_mark::writing::write_element;
use pws_scenarios::layers::StepError;
use pws_scenarios::reading::Step;
use pws_scenarios::texts::{text_of, told};
use pws_scenarios::words::bytes_of;
use pws_tree::trees::Element;
use std::alloc::Global;

/// Adds the canonical text of an element, and one answer more where its copy has another.
pub fn tell_element(
    alloc: Global,
    element: &Element,
    answers: &mut Vec<String>,
) -> Result<(), StepError> {
    let text = write_element(alloc, element)?;
    let answer = told(alloc, &text)?;
    answers.push(answer)?;
    let copy = write_element(alloc, &element.copy(alloc)?)?;
    if copy.as_slice() != text.as_slice() {
        let answer = format!(in alloc; "the copy has another text")?;
        answers.push(answer)?;
    }
    Ok(())
}

/// Why a text is no element.
pub fn mark_told(alloc: Global, error: MarkError) -> Result<String, StepError> {
    Ok(format!(in alloc; "{:?} at {}", error.kind, error.at)?)
}

/// The canonical text of the element that is read, or why none is.
fn read(alloc: Global, text: &[u8], answers: &mut Vec<String>) -> Result<(), StepError> {
    match read_element(alloc, text) {
        Ok(element) => tell_element(alloc, &element, answers),
        Err(ReadError::Mark(error)) => {
            let answer = mark_told(alloc, error)?;
            Ok(answers.push(answer)?)
        }
        Err(ReadError::Memory) => Err(StepError::Memory),
    }
}

/// Adds a word where a character between two pieces makes the text of an element.
fn put_place(
    alloc: Global,
    places: &mut String,
    pieces: [&[u8]; 3],
    word: &str,
) -> Result<(), StepError> {
    let mut text = Vec::new(alloc);
    for piece in pieces {
        text.extend_from_slice(piece)?;
    }
    match read_element(alloc, &text) {
        Ok(_) => {
            if !places.is_empty() {
                places.push_str(" ")?;
            }
            Ok(places.push_str(word)?)
        }
        Err(ReadError::Mark(_)) => Ok(()),
        Err(ReadError::Memory) => Err(StepError::Memory),
    }
}

/// Where a character may stand: at the start of a name, further on in one, in a text.
fn places_of(alloc: Global, character: &[u8]) -> Result<String, StepError> {
    let mut places = String::new(alloc);
    put_place(alloc, &mut places, [b"<", character, b"/>"], "start")?;
    put_place(alloc, &mut places, [b"<a", character, b"/>"], "name")?;
    put_place(alloc, &mut places, [b"<a>", character, b"</a>"], "text")?;
    if places.is_empty() {
        places.push_str("nowhere")?;
    }
    Ok(places)
}

/// Takes a step.
///
/// # Errors
///
/// Why the step wasn't taken.
pub fn step_elements(
    alloc: Global,
    step: &Step,
    answers: &mut Vec<String>,
) -> Result<(), StepError> {
    match step.words.as_slice() {
        ["read"] => read(alloc, &text_of(alloc, &step.text)?, answers),
        ["character", bytes] => {
            let places = places_of(alloc, &bytes_of(alloc, bytes)?)?;
            Ok(answers.push(places)?)
        }
        _ => Err(StepError::NoSuchStep),
    }
}
