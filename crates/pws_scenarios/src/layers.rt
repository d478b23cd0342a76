//! What a layer does with the steps of its cases.

use crate::reading::Step;
use hex::FromHexError;
use pws_base::memory::Memory;
use std::alloc::{AllocError, AllocFailed, Global};
use std::num::ParseIntError;
use thiserror::Error;

/// Why a step wasn't taken. Each is a failure of the case.
#[derive(Clone, Copy, Debug, PartialEq, Eq, Error)]
pub enum StepError {
    /// The layer has no step of these words.
    #[error("no such step")]
    NoSuchStep,
    /// A word doesn't say what it should.
    #[error("expected {0}")]
    Expected(&'static str),
    /// There was no memory.
    #[error("out of memory")]
    Memory,
}

impl From<Memory> for StepError {
    fn from(_error: Memory) -> StepError {
        StepError::Memory
    }
}

impl From<AllocError> for StepError {
    fn from(_error: AllocError) -> StepError {
        StepError::Memory
    }
}

impl<T: Drop> From<AllocFailed<T>> for StepError {
    fn from(_error: AllocFailed<T>) -> StepError {
        StepError::Memory
    }
}

impl From<ParseIntError> for StepError {
    fn from(_error: ParseIntError) -> StepError {
        StepError::Expected("a number in its range")
    }
}

impl From<FromHexError> for StepError {
    fn from(error: FromHexError) -> StepError {
        match error {
            FromHexError::OutOfMemory => StepError::Memory,
            _ => StepError::Expected("bytes in hexadecimal"),
        }
    }
}

/// The layers of a program, each a state that takes the steps of a case one after another.
pub trait Layer: Drop {
    /// The layer of this name as each case finds it, or nothing where there is no such layer.
    ///
    /// # Errors
    ///
    /// `Memory` only.
    fn begin(alloc: Global, name: &str) -> Result<Option<Self>, Memory>;

    /// Takes a step, and adds a line for each of its answers.
    ///
    /// # Errors
    ///
    /// Why the step wasn't taken.
    fn step(
        &mut self,
        alloc: Global,
        step: &Step,
        answers: &mut Vec<String>,
    ) -> Result<(), StepError>;
}
