//! Which events take effect.

use crate::events::event_of;
use pws_base::lists::ExactCopy;
use pws_event::effects::{Effect, Taken};
use pws_event::events::Event;
use pws_event::readings::Sort;
use pws_scenarios::layers::StepError;
use pws_scenarios::words::layout_of;
use std::alloc::Global;

/// What took effect in a group of a layout, once the case has named both.
#[derive(Drop)]
pub struct Effects {
    effect: Option<Effect>,
    groups: u8,
}

/// A reader of numbers by group.
#[derive(Clone, Copy)]
enum Reader {
    Last,
    LowIn,
    LowOut,
}

fn value_of(effect: &Effect, reader: Reader, group: u8) -> u32 {
    match reader {
        Reader::Last => effect.last(group),
        Reader::LowIn => effect.low_in(group),
        Reader::LowOut => effect.low_out(group),
    }
}

/// The values of a reader for the groups from 0 on, and for the number after the last group.
fn values_of(
    alloc: Global,
    effect: &Effect,
    reader: Reader,
    groups: u8,
) -> Result<String, StepError> {
    let mut text = format!(in alloc; "{}", value_of(effect, reader, 0))?;
    for group in 1..=groups {
        let value = format!(in alloc; ",{}", value_of(effect, reader, group))?;
        text.push_str(value.as_str())?;
    }
    Ok(text)
}

/// The calls with numbers up to 40 that wait, rising, or `-`.
fn waits_of(alloc: Global, effect: &Effect, groups: u8) -> Result<String, StepError> {
    let mut text = String::new(alloc);
    for group in 0..groups {
        for number in 1..=40u32 {
            if effect.waits(group, number) {
                let comma = if text.is_empty() { "" } else { "," };
                let call = format!(in alloc; "{comma}{group}.{number}")?;
                text.push_str(call.as_str())?;
            }
        }
    }
    if text.is_empty() {
        text.push_str("-")?;
    }
    Ok(text)
}

fn ask_of(alloc: Global, effect: &Effect) -> Result<String, StepError> {
    Ok(match effect.waiting_ask() {
        Some((number, Sort::Clock)) => format!(in alloc; "{number}:clock")?,
        Some((number, Sort::Random)) => format!(in alloc; "{number}:random")?,
        None => format!(in alloc; "-")?,
    })
}

/// The line that tells every reader.
fn readers_of(alloc: Global, effect: &Effect, groups: u8) -> Result<String, StepError> {
    let last = values_of(alloc, effect, Reader::Last, groups)?;
    let low_in = values_of(alloc, effect, Reader::LowIn, groups)?;
    let low_out = values_of(alloc, effect, Reader::LowOut, groups)?;
    let waits = waits_of(alloc, effect, groups)?;
    let ask = ask_of(alloc, effect)?;
    let (answered, clock) = (effect.answered_asks(), effect.clock());
    Ok(format!(in alloc;
        "last={last} low_in={low_in} low_out={low_out} waits={waits} ask={ask} answered={answered} clock={clock}"
    )?)
}

/// Notes the next call.
fn call(effect: &mut Effect, called: u8, number: u32) -> Result<(), StepError> {
    if !effect.can_call(called, number) {
        return Err(StepError::Expected("the next call to another group"));
    }
    effect.call(called, number);
    Ok(())
}

/// Notes the next ask.
fn ask(effect: &mut Effect, sort: &str) -> Result<(), StepError> {
    if effect.waiting_ask().is_some() {
        return Err(StepError::Expected("no ask while one waits"));
    }
    match sort {
        "clock" => effect.ask(Sort::Clock),
        "random" => effect.ask(Sort::Random),
        _ => return Err(StepError::Expected("`clock` or `random`")),
    }
    Ok(())
}

/// Whether a request would take effect.
fn would_take(effect: &Effect, event: &Event) -> Result<&'static str, StepError> {
    match event {
        Event::Request(request) if effect.would_take(request) => Ok("taken"),
        Event::Request(_) => Ok("void"),
        _ => Err(StepError::Expected("a request")),
    }
}

fn take(effect: &mut Effect, event: &Event) -> &'static str {
    match effect.take(event) {
        Taken::Taken => "taken",
        Taken::Void => "void",
    }
}

impl Effects {
    /// No group yet.
    pub fn new() -> Effects {
        Effects {
            effect: None,
            groups: 0,
        }
    }

    /// Begins anew, as this group of this layout.
    fn begin(&mut self, alloc: Global, me: &str, shapes: &[&str]) -> Result<(), StepError> {
        let me = me.parse::<u8>()?;
        match layout_of(alloc, shapes) {
            Ok(layout) if me < layout.groups() => {
                self.effect = Some(Effect::new(me, &layout));
                self.groups = layout.groups();
                Ok(())
            }
            Ok(_) => Err(StepError::Expected("a group of the layout")),
            Err(error) => Err(error),
        }
    }

    /// Takes a step.
    pub fn step(
        &mut self,
        alloc: Global,
        words: &[&str],
        answers: &mut Vec<String>,
    ) -> Result<(), StepError> {
        if let ["group", me, "of", shapes @ ..] = words {
            return self.begin(alloc, me, shapes);
        }
        let groups = self.groups;
        let Some(effect) = self.effect.as_mut() else {
            return Err(StepError::Expected("`group` before it"));
        };
        match words {
            ["call", called, number] => call(effect, called.parse::<u8>()?, number.parse::<u32>()?),
            ["ask", sort] => ask(effect, sort),
            ["would", text] => {
                let answer = would_take(effect, &event_of(alloc, text)?)?;
                Ok(answers.push(format!(in alloc; "{answer}")?)?)
            }
            ["take", text] => {
                let answer = take(effect, &event_of(alloc, text)?);
                Ok(answers.push(format!(in alloc; "{answer}")?)?)
            }
            ["show"] => { Ok(answers.push(readers_of(alloc, &effect.copy(alloc)?, groups)?)?) }
            _ => Err(StepError::NoSuchStep),
        }
    }
}
