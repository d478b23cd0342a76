//! The first difference between the answers expected and those given.

use crate::reading::{Answer, Step};
use std::alloc::{AllocError, Global};

/// Where a case first goes otherwise than expected, and how.
#[derive(Drop)]
pub struct Difference {
    /// The line of the answer expected, or of the step where it has no such answer.
    pub line: usize,
    /// What was expected and what came.
    pub told: String,
}

/// The difference at an answer, if there is one.
fn at_answer(
    alloc: Global,
    answer: &Answer,
    got: Option<&String>,
) -> Result<Option<Difference>, AllocError> {
    let expected = answer.text;
    let told = match got {
        Some(got) if got.as_str() == expected => return Ok(None),
        Some(got) => format!(in alloc; "expected `{expected}` got `{got}`")?,
        None => format!(in alloc; "expected `{expected}` got no more")?,
    };
    let line = answer.line;
    Ok(Some(Difference { line, told }))
}

/// The first answer given that differs from the one expected, that is missing, or that is one too many.
///
/// # Errors
///
/// Want of memory only.
pub fn first_difference(
    alloc: Global,
    step: &Step,
    answers: &[String],
) -> Result<Option<Difference>, AllocError> {
    for (i, answer) in step.answers.iter().enumerate() {
        let difference = at_answer(alloc, answer, answers.get(i))?;
        if difference.is_some() {
            return Ok(difference);
        }
    }
    match answers.get(step.answers.len()) {
        Some(got) => Ok(Some(Difference {
            line: step.line,
            told: format!(in alloc; "expected no more got `{got}`")?,
        })),
        None => Ok(None),
    }
}
