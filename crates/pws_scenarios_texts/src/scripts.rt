//! Texts of scripts.

use pws_base::lists::ExactCopy;
use pws_scenarios::layers::StepError;
use pws_scenarios::reading::Step;
use pws_scenarios::texts::text_of;
use pws_script::faults::{ReadScriptError, ScriptError};
use pws_script::instructions::{Instruction, Literal};
use pws_script::scripts::Script;
use std::alloc::Global;

fn is_literal_copied(alloc: Global, literal: &Literal) -> Result<bool, StepError> {
    let text = match literal {
        Literal::Text(text) => text.copy(alloc)? == *text,
        Literal::Number(_) => true,
    };
    Ok(text && literal.copy(alloc)? == *literal)
}

/// Whether copies of an instruction and of its operands are equal to them.
fn is_copied(alloc: Global, instruction: &Instruction) -> Result<bool, StepError> {
    let parts = match instruction {
        Instruction::Set { literal, .. } => is_literal_copied(alloc, literal)?,
        Instruction::Field { name, .. } => name.copy(alloc)? == *name,
        Instruction::AwaitAny { calls, .. } => calls.copy(alloc)? == *calls,
        _ => true,
    };
    Ok(parts && instruction.copy(alloc)? == *instruction)
}

/// Whether a script prints this text, and all copies are equal.
fn is_whole(alloc: Global, script: &Script, text: &[u8]) -> Result<bool, StepError> {
    for instruction in script.instructions() {
        if !is_copied(alloc, instruction)? {
            return Ok(false);
        }
    }
    let copy = script.copy(alloc)?;
    let copied = copy.instructions() == script.instructions();
    Ok(copied && script.print(alloc)?.as_slice() == text)
}

/// How many instructions a script has, or the line and the kind of its refusal; and one answer more where it prints another
/// text or its copy differs.
fn read(alloc: Global, text: &[u8], answers: &mut Vec<String>) -> Result<(), StepError> {
    match Script::read(alloc, text) {
        Ok(script) => {
            let answer = format!(in alloc; "ok {}", script.instructions().len())?;
            answers.push(answer)?;
            if !is_whole(alloc, &script, text)? {
                let answer = format!(in alloc; "another text is printed, or a copy differs")?;
                answers.push(answer)?;
            }
            Ok(())
        }
        Err(ReadScriptError::Script(ScriptError { line, kind })) => {
            let answer = format!(in alloc; "line {line} {kind:?}")?;
            Ok(answers.push(answer)?)
        }
        Err(ReadScriptError::Memory) => Err(StepError::Memory),
    }
}

/// Takes a step.
///
/// # Errors
///
/// Why the step wasn't taken.
pub fn step_scripts(
    alloc: Global,
    step: &Step,
    answers: &mut Vec<String>,
) -> Result<(), StepError> {
    let mut text = text_of(alloc, &step.text)?;
    match step.words.as_slice() {
        ["read"] => {
            if !step.text.is_empty() {
                text.push(b'\n')?;
            }
        }
        ["read", "unended"] => {}
        _ => return Err(StepError::NoSuchStep),
    }
    read(alloc, &text, answers)
}
