//! Reading the text of an element.

ghost use Rattle.std.specs.Prelude.{◌≡◌, ◌+◌, ◌≤◌, length};
ghost use Rattle.pws_mark.specs.Reading.{Reads};
ghost use Rattle.pws_mark.specs.Taken.{Scans, Stops};

use crate::building::build;
use crate::errors::{MarkError, MarkKind, ReadError};
use crate::least::Least;
use crate::scan::Scan;
use crate::stopping::{Stand, note_stop, shared};
use pws_tree::trees::Element;
use std::alloc::Global;
use std::str;

/// The most bytes of a text.
const MOST_BYTES: usize = 32_768;

/// What refuses a text in which the reader stops at this place, where it shares so many bytes with one that goes on.
fn stopped(mut least: Least, stand: Stand, bytes: &[u8], at: usize, shared: usize) -> MarkError
    requires { at + shared ≤ 32768 }
    ensures { Stops least stand bytes.now at shared result }
{
    note_stop(&mut least, stand, bytes, at);
    least.note(MarkKind::Syntax, at + shared);
    match least.error() {
        Some(error) => error,
        None => unreachable!(),
    }
}

/// The reader behind all characters of a text.
fn scan_text(alloc: Global, text: &str) -> Result<Scan, ReadError>
    requires { length text.now ≤ 32768 }
    ensures { Scans text.now result }
{
    let mut scan = Scan::new(alloc)?;
    for c in text.chars() {
        let stand = scan.stand();
        let at = scan.at();
        if !scan.step(c)? {
            let count = shared(stand, c);
            let error = stopped(scan.into_least(), stand, text.as_bytes(), at, count);
            return Err(ReadError::Mark(error));
        }
    }
    Ok(scan)
}

/// What a text of characters stands for.
fn read_text(alloc: Global, text: &str) -> Result<Element, ReadError>
    requires { length text.now ≤ 32768 }
    ensures { Reads text.now result }
{
    let scan = scan_text(alloc, text)?;
    if !scan.is_whole() {
        let stand = scan.stand();
        let at = scan.at();
        let error = stopped(scan.into_least(), stand, text.as_bytes(), at, 0);
        return Err(ReadError::Mark(error));
    }
    let error = scan.error();
    let events = scan.into_events();
    match error {
        Some(error) => Err(ReadError::Mark(error)),
        None => Ok(build(alloc, events)?),
    }
}

/// The element that a text stands for.
///
/// The text is one of at most 32,768 bytes, in the grammar of XML 1.0 and Namespaces in XML 1.0, without a document type
/// and without processing instructions.
///
/// # Errors
///
/// The refusal with the least place, and of these the first in the order of `MarkKind`: `Size` where the text is longer,
/// else `Utf8` where its bytes aren't UTF-8, else what refuses its characters. `Memory` for want of memory.
pub fn read_element(alloc: Global, text: &[u8]) -> Result<Element, ReadError>
    ensures { Reads text.now result }
{
    if text.len() > MOST_BYTES {
        return Err(ReadError::Mark(MarkError {
            kind: MarkKind::Size,
            at: MOST_BYTES,
        }));
    }
    match str::from_utf8(text) {
        Ok(text) => read_text(alloc, text),
        Err(error) => Err(ReadError::Mark(MarkError {
            kind: MarkKind::Utf8,
            at: error.valid_up_to(),
        })),
    }
}
