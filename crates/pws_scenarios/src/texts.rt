//! Lines of text in steps, and text in answers.

use crate::layers::StepError;
use crate::words::bytes_of;
use std::alloc::{AllocError, Global};

/// From so many equal pieces on, one after another, an answer has them as `{HEX*N}`.
const LONG_RUN: usize = 16;

/// The sizes of pieces whose repetition an answer shortens.
const SIZES: [usize; 5] = [1, 2, 3, 4, 5];

/// Adds a line, in which `{BYTES}` stands for these bytes.
fn put_line(alloc: Global, text: &mut Vec<u8>, line: &str) -> Result<(), StepError> {
    let mut parts = line.split('{');
    text.extend_from_slice(parts.next().unwrap_or("").as_bytes())?;
    for part in parts {
        let Some((word, rest)) = part.split_once('}') else {
            return Err(StepError::Expected("`}` behind the bytes of a text"));
        };
        text.extend_from_slice(&bytes_of(alloc, word)?)?;
        text.extend_from_slice(rest.as_bytes())?;
    }
    Ok(())
}

/// The bytes of the lines of text of a step, parted by line feeds. In a line `{BYTES}` stands for these bytes, which are
/// spelled as in words, and all else for itself.
///
/// # Errors
///
/// `Expected` where bytes have another form, or `Memory`.
pub fn text_of(alloc: Global, lines: &[&str]) -> Result<Vec<u8>, StepError> {
    let mut text = Vec::new(alloc);
    for (i, line) in lines.iter().enumerate() {
        if i > 0 {
            text.push(b'\n')?;
        }
        put_line(alloc, &mut text, line)?;
    }
    Ok(text)
}

/// How often a piece stands at the front, one after another.
fn times_at_front(bytes: &[u8], piece: &[u8]) -> usize {
    let mut rest = bytes;
    let mut times = 0usize;
    for _ in 0..bytes.len() {
        if !rest.starts_with(piece) {
            break;
        }
        rest = rest.get(piece.len()..).unwrap_or(&[]);
        times = times.saturating_add(1);
    }
    times
}

/// The least piece that stands at the front often enough to be shortened, and how often.
fn run_at_front(bytes: &[u8]) -> Option<(&[u8], usize)> {
    for size in SIZES {
        let piece = bytes.get(..size)?;
        let times = times_at_front(bytes, piece);
        if times >= LONG_RUN {
            return Some((piece, times));
        }
    }
    None
}

/// An answer in the making.
#[derive(Drop)]
struct Telling {
    text: String,
    /// Whether bytes stand between braces that aren't closed.
    open: bool,
}

impl Telling {
    fn close(&mut self) -> Result<(), AllocError> {
        if self.open {
            self.text.push_str("}")?;
        }
        self.open = false;
        Ok(())
    }

    /// Adds a byte: as it stands where it is a printable character of ASCII other than `{`.
    fn put_byte(&mut self, alloc: Global, byte: u8) -> Result<(), AllocError> {
        if b' ' <= byte && byte <= b'~' && byte != b'{' {
            self.close()?;
            return self.text.push(char::from(byte));
        }
        if !self.open {
            self.text.push_str("{")?;
        }
        self.open = true;
        self.text
            .push_str(format!(in alloc; "{byte:02x}")?.as_str())
    }

    fn put_run(&mut self, alloc: Global, piece: &[u8], times: usize) -> Result<(), AllocError> {
        self.close()?;
        self.text.push_str("{")?;
        for byte in piece {
            self.text
                .push_str(format!(in alloc; "{byte:02x}")?.as_str())?;
        }
        self.text
            .push_str(format!(in alloc; "*{times}}}")?.as_str())
    }
}

/// A text as an answer has it. Printable characters of ASCII but `{` stand for themselves, all other bytes as `{HEX}`; and
/// where the same one to five bytes stand sixteen times or more one after another, they are `{HEX*N}`.
///
/// # Errors
///
/// `Memory` only.
pub fn told(alloc: Global, bytes: &[u8]) -> Result<String, StepError> {
    let mut telling = Telling {
        text: String::new(alloc),
        open: false,
    };
    let mut rest = bytes;
    for _ in 0..bytes.len() {
        let Some((first, behind)) = rest.split_first() else {
            break;
        };
        match run_at_front(rest) {
            Some((piece, times)) => {
                telling.put_run(alloc, piece, times)?;
                rest = rest.get(piece.len().saturating_mul(times)..).unwrap_or(&[]);
            }
            None => {
                telling.put_byte(alloc, *first)?;
                rest = behind;
            }
        }
    }
    telling.close()?;
    Ok(telling.text)
}
