//! What a service does, as answers.

use pws_scenarios::layers::StepError;
use pws_scenarios::texts::told;
use pws_service::acts::Act;
use std::alloc::Global;

/// An act as an answer.
fn act_told(alloc: Global, act: &Act) -> Result<String, StepError> {
    Ok(match act {
        Act::Call {
            called,
            number,
            low,
            body,
            timeout,
        } => {
            let body = told(alloc, body.as_slice())?;
            format!(in alloc; "call {called} {number} {low} {timeout} {body}")?
        }
        Act::Reply {
            caller,
            number,
            body,
        } => {
            let body = told(alloc, body.as_slice())?;
            format!(in alloc; "reply {caller} {number} {body}")?
        }
        Act::AskClock { ask } => format!(in alloc; "clock {ask}")?,
        Act::AskRandom { ask } => format!(in alloc; "random {ask}")?,
        Act::Halted => format!(in alloc; "halted")?,
    })
}

/// Acts as answers.
pub fn acts_told(alloc: Global, acts: &[Act]) -> Result<Vec<String>, StepError> {
    let mut answers = Vec::new(alloc);
    for act in acts {
        let answer = act_told(alloc, act)?;
        answers.push(answer)?;
    }
    Ok(answers)
}
