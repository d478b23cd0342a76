//! Texts of events from the words of a step.

use pws_scenarios::layers::StepError;
use pws_scenarios::reading::Step;
use pws_scenarios::texts::text_of;
use pws_scenarios::words::bytes_of;
use std::alloc::Global;

/// Adds a kind of event and a group.
fn put_kind(text: &mut Vec<u8>, kind: u8, group: &str) -> Result<(), StepError> {
    let group = group.parse::<u8>()?;
    text.push(kind)?;
    Ok(text.push(group)?)
}

/// Adds a number, high byte first.
fn put_number(text: &mut Vec<u8>, word: &str) -> Result<(), StepError> {
    let number = word.parse::<u32>()?;
    Ok(text.extend_from_slice(&number.to_be_bytes())?)
}

/// Adds a body, its length before it.
fn put_body(text: &mut Vec<u8>, body: &[u8]) -> Result<(), StepError> {
    let Ok(length) = u32::try_from(body.len()) else {
        return Err(StepError::Expected("a shorter text"));
    };
    text.extend_from_slice(&length.to_be_bytes())?;
    Ok(text.extend_from_slice(body)?)
}

/// Adds `INDEX:VALUE`, the index of a replica and a time.
fn put_reading(text: &mut Vec<u8>, word: &str) -> Result<(), StepError> {
    let Some((index, time)) = word.split_once(':') else {
        return Err(StepError::Expected("INDEX:TIME"));
    };
    let index = index.parse::<u8>()?;
    text.push(index)?;
    let time = time.parse::<u64>()?;
    Ok(text.extend_from_slice(&time.to_be_bytes())?)
}

/// Adds `INDEX:BYTES`, the index of a replica and its share of a seed.
fn put_share(alloc: Global, text: &mut Vec<u8>, word: &str) -> Result<(), StepError> {
    let Some((index, share)) = word.split_once(':') else {
        return Err(StepError::Expected("INDEX:BYTES"));
    };
    let index = index.parse::<u8>()?;
    text.push(index)?;
    let share = bytes_of(alloc, share)?;
    Ok(text.extend_from_slice(&share)?)
}

/// Adds how many words there are.
fn put_count(text: &mut Vec<u8>, words: &[&str]) -> Result<(), StepError> {
    let Ok(count) = u8::try_from(words.len()) else {
        return Err(StepError::Expected("fewer words"));
    };
    Ok(text.push(count)?)
}

/// Adds the text of the event that a step says. docs/FORMATS.md has the texts of events.
fn put_event(alloc: Global, text: &mut Vec<u8>, step: &Step) -> Result<(), StepError> {
    let body = text_of(alloc, &step.text)?;
    match step.words.as_slice() {
        ["null"] => Ok(text.push(0)?),
        ["request", caller, number, low] => {
            put_kind(text, 1, caller)?;
            put_number(text, number)?;
            put_number(text, low)?;
            put_body(text, &body)
        }
        ["reply", called, number] => {
            put_kind(text, 2, called)?;
            put_number(text, number)?;
            put_body(text, &body)
        }
        ["abort", called, number] => {
            put_kind(text, 3, called)?;
            put_number(text, number)
        }
        ["clock", ask, readings @ ..] => {
            text.push(4)?;
            put_number(text, ask)?;
            put_count(text, readings)?;
            for reading in readings {
                put_reading(text, reading)?;
            }
            Ok(())
        }
        ["random", ask, shares @ ..] => {
            text.push(5)?;
            put_number(text, ask)?;
            put_count(text, shares)?;
            for share in shares {
                put_share(alloc, text, share)?;
            }
            Ok(())
        }
        _ => Err(StepError::NoSuchStep),
    }
}

/// The text of the event that a step says, whatever is in its range.
///
/// # Errors
///
/// `NoSuchStep` where the first word is no kind of event, `Expected` where a word has another form, or `Memory`.
pub fn event_text(alloc: Global, step: &Step) -> Result<Vec<u8>, StepError> {
    let mut text = Vec::new(alloc);
    put_event(alloc, &mut text, step)?;
    Ok(text)
}
