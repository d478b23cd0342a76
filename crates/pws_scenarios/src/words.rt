//! What words and answers are made of.

use crate::layers::StepError;
use hex::FromHex;
use pws_base::shapes::{GroupShape, Layout, ReplicaId};
use std::alloc::{AllocError, Global};

/// From so many equal bytes on an answer has them as `XX*N`.
const LONG_RUN: usize = 16;

fn is_lower_hex(digits: &str) -> bool {
    digits
        .bytes()
        .all(|c| (b'0' <= c && c <= b'9') || (b'a' <= c && c <= b'f'))
}

/// Adds the bytes of a piece, `HEX` or `HEX*N`.
fn put_piece(alloc: Global, bytes: &mut Vec<u8>, piece: &str) -> Result<(), StepError> {
    let (digits, times) = match piece.split_once('*') {
        Some((digits, times)) => (digits, times.parse::<u32>()?),
        None => (piece, 1),
    };
    if digits.is_empty() || !is_lower_hex(digits) {
        return Err(StepError::Expected("bytes in lower-case hexadecimal"));
    }
    let once = hex::decode(alloc, digits)?;
    for _ in 0..times {
        bytes.extend_from_slice(&once)?;
    }
    Ok(())
}

/// The bytes that a word spells: `-` is none, `HEX*N` is these bytes N times, and pieces are joined by `+`.
///
/// # Errors
///
/// `Expected` where the word has another form, or `Memory`.
pub fn bytes_of(alloc: Global, word: &str) -> Result<Vec<u8>, StepError> {
    let mut bytes = Vec::new(alloc);
    if word != "-" {
        for piece in word.split('+') {
            put_piece(alloc, &mut bytes, piece)?;
        }
    }
    Ok(bytes)
}

/// The 32 bytes of a digest, a key or a tag, as 64 digits.
///
/// # Errors
///
/// `Expected` where the word has another form.
pub fn array_of(word: &str) -> Result<[u8; 32], StepError> {
    if !is_lower_hex(word) {
        return Err(StepError::Expected("64 digits in lower-case hexadecimal"));
    }
    Ok(<[u8; 32] as FromHex>::from_hex(word)?)
}

/// Adds so many equal bytes, behind others that were a long run where `apart` says so.
fn put_run(
    alloc: Global,
    text: &mut String,
    byte: u8,
    run: usize,
    apart: bool,
) -> Result<(), AllocError> {
    if (apart || run >= LONG_RUN) && !text.is_empty() {
        text.push_str("+")?;
    }
    let digits = format!(in alloc; "{byte:02x}")?;
    if run >= LONG_RUN {
        let times = format!(in alloc; "{digits}*{run}")?;
        return text.push_str(times.as_str());
    }
    for _ in 0..run {
        text.push_str(digits.as_str())?;
    }
    Ok(())
}

/// Bytes as an answer has them: as in words, where sixteen or more equal bytes one after another stand as `XX*N`, and
/// all others as plain digits.
///
/// # Errors
///
/// `Memory` only.
pub fn spelled(alloc: Global, bytes: &[u8]) -> Result<String, StepError> {
    let mut text = String::new(alloc);
    let mut apart = false;
    let mut run = 0usize;
    for (i, byte) in bytes.iter().enumerate() {
        run = run.saturating_add(1);
        if bytes.get(i.saturating_add(1)) != Some(byte) {
            put_run(alloc, &mut text, *byte, run, apart)?;
            apart = run >= LONG_RUN;
            run = 0;
        }
    }
    if text.is_empty() {
        text.push_str("-")?;
    }
    Ok(text)
}

/// The replica that a word names, as `GROUP.INDEX`.
///
/// # Errors
///
/// `Expected` where the word has another form.
pub fn replica_of(word: &str) -> Result<ReplicaId, StepError> {
    let (group, index) = word
        .split_once('.')
        .ok_or(StepError::Expected("a replica, GROUP.INDEX"))?;
    Ok(ReplicaId {
        group: group.parse::<u8>()?,
        index: index.parse::<u8>()?,
    })
}

/// The shape of a group that bears so many compromised replicas.
///
/// # Errors
///
/// `Expected` where the word is no number from 0 to 3.
pub fn shape_of(word: &str) -> Result<GroupShape, StepError> {
    GroupShape::new(word.parse::<u8>()?).map_err(|_| StepError::Expected("0, 1, 2 or 3"))
}

/// The layout whose groups bear so many compromised replicas.
///
/// # Errors
///
/// `Expected` where there is no group or above 16 or a word is no number from 0 to 3, or `Memory`.
pub fn layout_of(alloc: Global, words: &[&str]) -> Result<Layout, StepError> {
    let mut shapes = Vec::new(alloc);
    for word in words {
        match shape_of(word) {
            Ok(shape) => shapes.push(shape)?,
            Err(error) => return Err(error),
        }
    }
    Layout::new(&shapes).map_err(|_| StepError::Expected("one to sixteen groups"))
}
