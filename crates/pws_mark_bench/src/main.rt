//! The program that bench/envelopes.sh measures: it reads the text on standard input so many times as its word says, and
//! prints how many times that gave an element.
//!
//! It has no contract of its own, and nothing stands on it.
#![tactic(auto)]

use pws_base::standard::ReaderSource;
use pws_base::streams::{Got, Source};
use pws_mark::reading::read_element;
use std::env;
use std::process::ExitCode;

/// How many bytes are read at a time.
const CHUNK: usize = 65_536;

/// What standard input has; None where it fails, or memory is wanting.
fn text_given(rt: &HostRuntime) -> Option<Vec<u8>> {
    let mut source = ReaderSource::new(rt.stdin());
    let mut buffer = vec![in rt.alloc(); 0u8; CHUNK].ok()?;
    let mut text = Vec::new(rt.alloc());
    for _ in 0..u64::MAX {
        match source.read(&mut buffer) {
            Got::Read(count) => text.extend_from_slice(&buffer[..count]).ok()?,
            Got::End => return Some(text),
            Got::Failed => return None,
        }
    }
    None
}

/// How many of so many readings of a text give an element.
fn count(rt: &HostRuntime, text: &[u8], times: u32) -> u32 {
    let mut elements = 0u32;
    for _ in 0..times {
        if read_element(rt.alloc(), text).is_ok() {
            elements = elements.saturating_add(1);
        }
    }
    elements
}

/// The number that the program's first word tells.
fn times_given(rt: &HostRuntime) -> Option<u32> {
    let mut given = env::args(rt).ok()?.skip(1);
    let word = given.next()?;
    word.as_str().parse::<u32>().ok()
}

fn main(rt: HostRuntime) -> ExitCode {
    let Some(times) = times_given(&rt) else {
        return ExitCode::from(2);
    };
    let Some(text) = text_given(&rt) else {
        return ExitCode::from(1);
    };
    let elements = count(&rt, &text, times);
    match println!(rt; "elements {elements} of {times}") {
        Ok(()) => ExitCode::from(0),
        Err(_) => ExitCode::from(1),
    }
}
