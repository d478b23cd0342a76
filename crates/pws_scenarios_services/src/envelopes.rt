//! Single texts of envelopes that services make.

use pws_base::bytes::Bytes;
use pws_driver::envelopes::Envelopes;
use pws_envelopes::soap::SoapEnvelopes;
use pws_scenarios::layers::StepError;
use pws_scenarios::reading::Step;
use pws_scenarios::texts::{text_of, told};
use pws_service::keys::Key;
use pws_tree::characters::is_xml_text;
use pws_tree::xml_texts::XmlText;
use std::alloc::Global;

fn key_of(group: &str, number: &str) -> Result<Key, StepError> {
    Ok(Key {
        group: group.parse::<u8>()?,
        number: number.parse::<u32>()?,
    })
}

fn answer(alloc: Global, text: Option<Bytes>, answers: &mut Vec<String>) -> Result<(), StepError> {
    let answer = match text {
        Some(text) => told(alloc, text.as_slice())?,
        None => format!(in alloc; "none")?,
    };
    Ok(answers.push(answer)?)
}

/// Takes a step.
///
/// # Errors
///
/// Why the step wasn't taken.
pub fn step_envelopes(
    alloc: Global,
    step: &Step,
    answers: &mut Vec<String>,
) -> Result<(), StepError> {
    let text = text_of(alloc, &step.text)?;
    match step.words.as_slice() {
        ["call", me, called, number] => {
            let key = key_of(called, number)?;
            let me = me.parse::<u8>()?;
            match str::from_utf8(&text) {
                Ok(text) if is_xml_text(text) => {
                    let text = XmlText::from_str(alloc, text)?;
                    let call = SoapEnvelopes::call_text(alloc, me, key, &text)?;
                    answer(alloc, call, answers)
                }
                _ => Err(StepError::Expected("a text of XML characters")),
            }
        }
        ["refusal", me, caller, number] => {
            let key = key_of(caller, number)?;
            let me = me.parse::<u8>()?;
            let refusal = SoapEnvelopes::refusal_of(alloc, me, key, &text)?;
            answer(alloc, refusal, answers)
        }
        _ => Err(StepError::NoSuchStep),
    }
}
