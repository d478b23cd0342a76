//! The messages that services make.

use pws_addr::causes::{Cause, Request, request_of};
use pws_addr::envelopes::{bare_fault_text, call_text, fault_text, reply_text};
use pws_addr::headers::Addressing;
use pws_base::lists::Sequence;
use pws_base::memory::Memory;
use pws_scenarios::layers::StepError;
use pws_scenarios::reading::Step;
use pws_scenarios::texts::{text_of, told};
use pws_soap::reading::read_envelope;
use pws_tree::characters::is_xml_text;
use pws_tree::xml_texts::XmlText;
use std::alloc::Global;

/// The causes of faults, by their names.
const CAUSES: [(&str, Cause); 9] = [
    ("BadVersion", Cause::BadVersion),
    ("NotUnderstood", Cause::NotUnderstood),
    ("BadEnvelope", Cause::BadEnvelope),
    ("NoAction", Cause::NoAction),
    ("BadAddressing", Cause::BadAddressing),
    ("Halted", Cause::Halted),
    ("ReplyTooLong", Cause::ReplyTooLong),
    ("TimedOut", Cause::TimedOut),
    ("UnreadableReply", Cause::UnreadableReply),
];

/// The addressing of the request that is answered, if it has one.
#[derive(Drop)]
pub struct Messages {
    addressing: Option<Addressing>,
}

/// These bytes as a text, if they are one of XML characters.
fn xml_in(alloc: Global, bytes: &[u8]) -> Result<Option<XmlText>, Memory> {
    match str::from_utf8(bytes) {
        Ok(text) if is_xml_text(text) => Ok(Some(XmlText::from_str(alloc, text)?)),
        _ => Ok(None),
    }
}

fn cause_of(word: &str) -> Result<Cause, StepError> {
    for (name, cause) in CAUSES {
        if name == word {
            return Ok(cause);
        }
    }
    Err(StepError::Expected("a cause"))
}

/// The name of a cause.
fn name_of(wanted: Cause) -> &'static str {
    for (name, cause) in CAUSES {
        if cause == wanted {
            return name;
        }
    }
    "?"
}

/// What a request with this body says.
fn request(alloc: Global, body: &[u8], answers: &mut Vec<String>) -> Result<(), StepError> {
    let answer = match request_of(alloc, &read_envelope(alloc, body))? {
        Request::Readable(_) => format!(in alloc; "readable")?,
        Request::Refused(cause) => String::from_str(alloc, name_of(cause))?,
    };
    Ok(answers.push(answer)?)
}

impl Messages {
    /// No addressing.
    pub fn new() -> Messages {
        Messages { addressing: None }
    }

    /// Gives a value to a header of the addressing. The first one is To, and Action is empty until it has one.
    fn set(&mut self, alloc: Global, header: &str, value: XmlText) -> Result<(), StepError> {
        if header == "to" {
            self.addressing = Some(Addressing {
                to: value,
                action: XmlText::new(alloc),
                message_id: None,
                relates_to: Sequence::new(alloc),
                reply_to: None,
                from: None,
                fault_to: None,
            });
            return Ok(());
        }
        let Some(addressing) = &mut self.addressing else {
            return Err(StepError::Expected("`header to` before it"));
        };
        match header {
            "action" => addressing.action = value,
            "message-id" => addressing.message_id = Some(value),
            "reply-to" => addressing.reply_to = Some(value),
            _ => return Err(StepError::Expected("a header")),
        }
        Ok(())
    }

    /// Takes a step.
    ///
    /// # Errors
    ///
    /// Why the step wasn't taken.
    pub fn step(
        &mut self,
        alloc: Global,
        step: &Step,
        answers: &mut Vec<String>,
    ) -> Result<(), StepError> {
        let given = text_of(alloc, &step.text)?;
        if let ["request"] = step.words.as_slice() {
            return request(alloc, &given, answers);
        }
        let Some(text) = xml_in(alloc, &given)? else {
            return Err(StepError::Expected("a text of XML characters"));
        };
        let message = match step.words.as_slice() {
            ["header", name] => return self.set(alloc, name, text),
            ["call", me, called, number] => {
                let (me, called) = (me.parse::<u8>()?, called.parse::<u8>()?);
                let number = number.parse::<u32>()?;
                call_text(alloc, me, called, number, &text)?
            }
            ["reply", me, caller, number] => {
                let (me, caller) = (me.parse::<u8>()?, caller.parse::<u8>()?);
                let number = number.parse::<u32>()?;
                let addressing = self.addressing.as_ref();
                Some(reply_text(alloc, me, caller, number, addressing, &text)?)
            }
            ["fault", me, caller, number, cause] => {
                let (me, caller) = (me.parse::<u8>()?, caller.parse::<u8>()?);
                let (number, cause) = (number.parse::<u32>()?, cause_of(cause)?);
                let addressing = self.addressing.as_ref();
                Some(fault_text(alloc, me, caller, number, addressing, cause)?)
            }
            ["bare-fault", cause] => Some(bare_fault_text(alloc, cause_of(cause)?)?),
            _ => return Err(StepError::NoSuchStep),
        };
        let answer = match message {
            Some(message) => told(alloc, message.as_slice())?,
            None => format!(in alloc; "too long")?,
        };
        Ok(answers.push(answer)?)
    }
}
