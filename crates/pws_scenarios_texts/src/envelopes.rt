//! Envelopes and their addressing.

use crate::elements::mark_told;
use crate::names::name_told;
use crate::trees::Trees;
use pws_addr::headers::Addressing;
use pws_addr::putting::put_addressing;
use pws_addr::reading::{AddrError, read_addressing};
use pws_addr::replies::reply_of;
use pws_base::lists::ExactCopy;
use pws_scenarios::layers::StepError;
use pws_scenarios::reading::Step;
use pws_scenarios::texts::{text_of, told};
use pws_soap::envelopes::Envelope;
use pws_soap::errors::SoapError;
use pws_soap::opening::envelope_of;
use pws_soap::reading::read_envelope;
use pws_soap::writing::write_envelope;
use pws_tree::xml_texts::XmlText;
use std::alloc::Global;

/// The tree that is being built, and the envelope that was taken last, with its addressing.
#[derive(Drop)]
pub struct Envelopes {
    trees: Trees,
    envelope: Option<Envelope>,
    addressing: Option<Addressing>,
}

/// Adds a word and a value.
fn put_line(
    alloc: Global,
    answers: &mut Vec<String>,
    word: &str,
    value: &XmlText,
) -> Result<(), StepError> {
    let value = told(alloc, value.as_str().as_bytes())?;
    let answer = format!(in alloc; "{word} {value}")?;
    Ok(answers.push(answer)?)
}

/// Adds a value, where there is one.
fn put_value(
    alloc: Global,
    answers: &mut Vec<String>,
    word: &str,
    value: &Option<XmlText>,
) -> Result<(), StepError> {
    match value {
        Some(value) => put_line(alloc, answers, word, value),
        None => Ok(()),
    }
}

/// The values of an addressing, a line each.
fn addressing_told(alloc: Global, addressing: &Addressing) -> Result<Vec<String>, StepError> {
    let mut answers = Vec::new(alloc);
    put_line(alloc, &mut answers, "to", &addressing.to)?;
    put_line(alloc, &mut answers, "action", &addressing.action)?;
    put_value(alloc, &mut answers, "message-id", &addressing.message_id)?;
    for relation in addressing.relates_to.as_slice() {
        put_line(alloc, &mut answers, "relates-to", &relation.id)?;
        put_line(alloc, &mut answers, "relation", &relation.kind)?;
    }
    put_value(alloc, &mut answers, "reply-to", &addressing.reply_to)?;
    put_value(alloc, &mut answers, "from", &addressing.from)?;
    put_value(alloc, &mut answers, "fault-to", &addressing.fault_to)?;
    Ok(answers)
}

/// Why there is no envelope.
fn soap_told(alloc: Global, error: &SoapError) -> Result<String, StepError> {
    Ok(match error {
        SoapError::Mark(error) => {
            let mark = mark_told(alloc, *error)?;
            format!(in alloc; "Mark {mark}")?
        }
        SoapError::NotEnvelope => format!(in alloc; "NotEnvelope")?,
        SoapError::Version => format!(in alloc; "Version")?,
        SoapError::Order => format!(in alloc; "Order")?,
        SoapError::MustUnderstand(name) => name_told(alloc, "MustUnderstand", name)?,
        SoapError::Memory => return Err(StepError::Memory),
    })
}

/// Why there is no readable addressing.
fn addr_told(alloc: Global, error: &AddrError) -> Result<String, StepError> {
    match error {
        AddrError::Cardinality(name) => Ok(name_told(alloc, "Cardinality", name)?),
        AddrError::Required => Ok(format!(in alloc; "Required")?),
        AddrError::Invalid(name) => Ok(name_told(alloc, "Invalid", name)?),
        AddrError::Memory => Err(StepError::Memory),
    }
}

/// Adds the text of an envelope without header blocks into which a copy of an addressing was put, and one answer more
/// where that addressing isn't read there.
fn put(alloc: Global, addressing: &Addressing, answers: &mut Vec<String>) -> Result<(), StepError> {
    let Ok(mut envelope) = Envelope::make(Vec::new(alloc), Vec::new(alloc)) else {
        return Err(StepError::Expected("an empty envelope"));
    };
    put_addressing(alloc, &mut envelope, &addressing.copy(alloc)?)?;
    let text = write_envelope(alloc, &envelope)?;
    let answer = told(alloc, &text)?;
    answers.push(answer)?;
    let again = match read_addressing(alloc, &envelope) {
        Ok(again) => addressing_told(alloc, &again)? == addressing_told(alloc, addressing)?,
        Err(_) => false,
    };
    if !again {
        let answer = format!(in alloc; "another addressing is read there")?;
        answers.push(answer)?;
    }
    Ok(())
}

impl Envelopes {
    /// No envelope.
    pub fn new(alloc: Global) -> Envelopes {
        Envelopes {
            trees: Trees::new(alloc),
            envelope: None,
            addressing: None,
        }
    }

    /// Takes what was read: the canonical text, or why there is no envelope.
    fn take(
        &mut self,
        alloc: Global,
        read: Result<Envelope, SoapError>,
        answers: &mut Vec<String>,
    ) -> Result<(), StepError> {
        self.addressing = None;
        match read {
            Ok(envelope) => {
                let text = write_envelope(alloc, &envelope)?;
                let answer = told(alloc, &text)?;
                answers.push(answer)?;
                self.envelope = Some(envelope);
            }
            Err(error) => {
                let answer = soap_told(alloc, &error)?;
                answers.push(answer)?;
                self.envelope = None;
            }
        }
        Ok(())
    }

    /// Reads the addressing of the envelope.
    fn read_addressing(
        &mut self,
        alloc: Global,
        answers: &mut Vec<String>,
    ) -> Result<(), StepError> {
        let Some(envelope) = &self.envelope else {
            return Err(StepError::Expected("an envelope before it"));
        };
        match read_addressing(alloc, envelope) {
            Ok(addressing) => {
                *answers = addressing_told(alloc, &addressing)?;
                self.addressing = Some(addressing);
                Ok(())
            }
            Err(error) => {
                let answer = addr_told(alloc, &error)?;
                Ok(answers.push(answer)?)
            }
        }
    }

    /// Puts the addressing, or that of its reply, into an empty envelope.
    fn put(
        &self,
        alloc: Global,
        is_reply: bool,
        answers: &mut Vec<String>,
    ) -> Result<(), StepError> {
        match &self.addressing {
            Some(addressing) if is_reply => { put(alloc, &reply_of(alloc, addressing)?, answers) }
            Some(addressing) => put(alloc, addressing, answers),
            None => Err(StepError::Expected("an addressing before it")),
        }
    }

    /// Takes a step.
    ///
    /// # Errors
    ///
    /// Why the step wasn't taken.
    pub fn step(
        &mut self,
        alloc: Global,
        step: &Step,
        answers: &mut Vec<String>,
    ) -> Result<(), StepError> {
        match step.words.as_slice() {
            ["envelope"] => match self.trees.take_tree() {
                Some(tree) => self.take(alloc, envelope_of(alloc, tree), answers),
                None => Err(StepError::Expected("a tree before it")),
            },
            ["read"] => {
                let text = text_of(alloc, &step.text)?;
                self.take(alloc, read_envelope(alloc, &text), answers)
            }
            ["addressing"] => self.read_addressing(alloc, answers),
            ["put"] => self.put(alloc, false, answers),
            ["put", "reply"] => self.put(alloc, true, answers),
            _ => self.trees.step(alloc, step, answers),
        }
    }
}
