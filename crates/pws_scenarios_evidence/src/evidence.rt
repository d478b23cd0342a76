//! What a replica hears of others.

use pws_base::fields::FieldError;
use pws_base::shapes::ReplicaId;
use pws_event::effects::{Effect, Taken};
use pws_event::events::{Event, write_event};
use pws_event::parsing::read_event;
use pws_event::readings::Sort;
use pws_evidence::stores::Evidence;
use pws_msg::errors::PacketReadError;
use pws_msg::packet_reading::read_packet;
use pws_msg::packets::Packet;
use pws_scenarios::layers::StepError;
use pws_scenarios::words::{bytes_of, layout_of, replica_of, spelled};
use pws_votes::kinds::Vote;
use std::alloc::Global;

/// The evidence of a group, and what took effect in it, once the case has named the group.
#[derive(Drop)]
pub struct Witness {
    evidence: Option<Evidence>,
    asked: Option<Effect>,
}

/// The event that a word spells.
fn event_of(alloc: Global, word: &str) -> Result<Event, StepError> {
    match read_event(alloc, &bytes_of(alloc, word)?) {
        Ok(event) => Ok(event),
        Err(FieldError::Fault(_)) => Err(StepError::Expected("the text of an event")),
        Err(FieldError::Memory) => Err(StepError::Memory),
    }
}

/// A packet of a sender with this content, and with an empty body where it is a reply.
fn packet_of(alloc: Global, sender: ReplicaId, content: &[u8]) -> Result<Packet, StepError> {
    let Ok(length) = u32::try_from(content.len()) else {
        return Err(StepError::Expected("the text of a content"));
    };
    let length = length.to_be_bytes();
    let mut text = b"PWS\x01".to_vec(alloc)?;
    text.push(sender.group)?;
    text.push(sender.index)?;
    text.push(0)?;
    text.extend_from_slice(length.as_slice())?;
    text.extend_from_slice(content)?;
    text.push(0)?;
    if content.first().copied() == Some(2) {
        text.extend_from_slice(b"\x01\x00\x00\x00\x00".as_slice())?;
    } else {
        text.push(0)?;
    }
    text.push(0)?;
    match read_packet(alloc, &text) {
        Ok(packet) => Ok(packet),
        Err(PacketReadError::Refused(_)) => Err(StepError::Expected("the text of a content")),
        Err(PacketReadError::Memory) => Err(StepError::Memory),
    }
}

/// Notes the next call.
fn call(effect: &mut Effect, called: u8, number: u32) -> Result<(), StepError> {
    if !effect.can_call(called, number) {
        return Err(StepError::Expected("the next call to another group"));
    }
    effect.call(called, number);
    Ok(())
}

/// Notes the next ask.
fn ask(effect: &mut Effect, sort: &str) -> Result<(), StepError> {
    if effect.waiting_ask().is_some() {
        return Err(StepError::Expected("no ask while one waits"));
    }
    match sort {
        "clock" => effect.ask(Sort::Clock),
        "random" => effect.ask(Sort::Random),
        _ => return Err(StepError::Expected("`clock` or `random`")),
    }
    Ok(())
}

/// Takes an event.
fn take(effect: &mut Effect, event: &Event) -> &'static str {
    match effect.take(event) {
        Taken::Taken => "taken",
        Taken::Void => "void",
    }
}

/// Hears a content with a body.
fn hear(
    alloc: Global,
    evidence: &mut Evidence,
    asked: &Effect,
    sender: ReplicaId,
    content: &[u8],
    body: &[u8],
) -> Result<&'static str, StepError> {
    let packet = packet_of(alloc, sender, content)?;
    if body.len() > 32768 {
        return Err(StepError::Expected("a body of at most 32,768 bytes"));
    }
    let answer = evidence.hear(alloc, sender, packet.content(), body, asked)?;
    Ok(match answer {
        Vote::Kept => "kept",
        Vote::Outside => "outside",
        Vote::Already => "already",
    })
}

/// The senders counted for an event, or `-`.
fn vouchers_of(alloc: Global, evidence: &Evidence, event: &Event) -> Result<String, StepError> {
    let mut text = String::new(alloc);
    for replica in evidence.vouchers(alloc, event)?.iter() {
        let space = if text.is_empty() { "" } else { " " };
        let word = format!(in alloc; "{space}{}.{}", replica.group, replica.index)?;
        text.push_str(word.as_str())?;
    }
    if text.is_empty() {
        text.push_str("-")?;
    }
    Ok(text)
}

/// Adds the candidates, a line each, or `-`.
fn put_candidates(
    alloc: Global,
    evidence: &Evidence,
    asked: &Effect,
    answers: &mut Vec<String>,
) -> Result<(), StepError> {
    let events = evidence.candidates(alloc, asked)?;
    for event in events.iter() {
        let text = write_event(alloc, event)?;
        answers.push(spelled(alloc, text.as_slice())?)?;
    }
    if events.is_empty() {
        answers.push(format!(in alloc; "-")?)?;
    }
    Ok(())
}

impl Witness {
    /// No group yet.
    pub fn new() -> Witness {
        Witness {
            evidence: None,
            asked: None,
        }
    }

    /// Begins anew, as a replica of this layout.
    fn begin(&mut self, alloc: Global, me: &str, shapes: &[&str]) -> Result<(), StepError> {
        let me = replica_of(me)?;
        match layout_of(alloc, shapes) {
            Ok(layout) if layout.has(me) && me.group < layout.groups() => {
                self.evidence = Some(Evidence::new(alloc, me.group, &layout));
                self.asked = Some(Effect::new(me.group, &layout));
                Ok(())
            }
            Ok(_) => Err(StepError::Expected("a replica of the layout")),
            Err(error) => Err(error),
        }
    }

    /// Takes a step.
    pub fn step(
        &mut self,
        alloc: Global,
        words: &[&str],
        answers: &mut Vec<String>,
    ) -> Result<(), StepError> {
        if let ["replica", me, "of", shapes @ ..] = words {
            return self.begin(alloc, me, shapes);
        }
        let Some(evidence) = self.evidence.as_mut() else {
            return Err(StepError::Expected("`replica` before it"));
        };
        let Some(asked) = self.asked.as_mut() else {
            return Err(StepError::Expected("`replica` before it"));
        };
        match words {
            ["call", called, number] => call(asked, called.parse::<u8>()?, number.parse::<u32>()?),
            ["ask", sort] => ask(asked, sort),
            ["take", event] => {
                let answer = take(asked, &event_of(alloc, event)?);
                Ok(answers.push(format!(in alloc; "{answer}")?)?)
            }
            ["settle"] => {
                evidence.settle(asked);
                Ok(())
            }
            ["hear", sender, content, body] => {
                let (content, body) = (bytes_of(alloc, content)?, bytes_of(alloc, body)?);
                let answer = hear(alloc, evidence, asked, replica_of(sender)?, &content, &body)?;
                Ok(answers.push(format!(in alloc; "{answer}")?)?)
            }
            ["supports", event] => {
                let answer = if evidence.supports(&event_of(alloc, event)?) {
                    "yes"
                } else {
                    "no"
                };
                Ok(answers.push(format!(in alloc; "{answer}")?)?)
            }
            ["vouchers", event] => {
                Ok(answers.push(vouchers_of(alloc, evidence, &event_of(alloc, event)?)?)?)
            }
            ["candidates"] => put_candidates(alloc, evidence, asked, answers),
            _ => Err(StepError::NoSuchStep),
        }
    }
}
