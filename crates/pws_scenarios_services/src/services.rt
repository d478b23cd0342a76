//! Scripts with effects.

ghost use Rattle.std.specs.Prelude.{◌≡◌, true};

use crate::acts::acts_told;
use crate::events::event_text;
use pws_base::shapes::{GroupId, Layout};
use pws_driver::envelopes::Envelopes;
use pws_driver::runners::Runner;
use pws_event::events::Event;
use pws_event::parsing::read_event;
use pws_scenarios::layers::StepError;
use pws_scenarios::reading::Step;
use pws_scenarios::texts::text_of;
use pws_scenarios::words::layout_of;
use pws_script::scripts::Script;
use pws_service::drivers::Driver;
use std::alloc::Global;

/// A runner that was started, and a copy of it that takes the same effects.
#[derive(Drop)]
struct Started<E> {
    runner: Runner<E>,
    copy: Runner<E>,
    ghost started: { runner.started ≡ true },
    ghost copy_started: { copy.started ≡ true },
}

/// The service of a group: a script and the runner that it was given to.
#[derive(Drop)]
pub struct Service<E> {
    group: Option<(GroupId, Layout)>,
    script: Option<Script>,
    started: Option<Started<E>>,
}

impl<E: Envelopes> Service<E> {
    /// A service that has neither a group nor a script.
    pub fn new() -> Service<E> {
        Service {
            group: None,
            script: None,
            started: None,
        }
    }

    /// Starts the script in its group.
    fn start(&mut self, alloc: Global, answers: &mut Vec<String>) -> Result<(), StepError> {
        let (Some((me, layout)), Some(script)) = (self.group, self.script.take()) else {
            return Err(StepError::Expected("a group and a script before it"));
        };
        if me >= layout.groups() {
            return Err(StepError::Expected("a group of the layout"));
        }
        let mut runner: Runner<E> = Runner::new(alloc, script, me, &layout)?;
        let acts = runner.start(alloc)?;
        *answers = acts_told(alloc, &acts)?;
        let copy = runner.copy(alloc)?;
        self.started = Some(Started { runner, copy });
        Ok(())
    }

    /// Takes an effect. A copy that gives other acts is told in one answer more, and a service that is stopped.
    fn take(
        &mut self,
        alloc: Global,
        event: &Event,
        answers: &mut Vec<String>,
    ) -> Result<(), StepError> {
        let Some(started) = &mut self.started else {
            return Err(StepError::Expected("`start` before it"));
        };
        let acts = started.runner.take(alloc, event)?;
        let again = started.copy.take(alloc, event)?;
        *answers = acts_told(alloc, &acts)?;
        if acts_told(alloc, &again)? != *answers {
            let answer = format!(in alloc; "the copy gives other acts")?;
            answers.push(answer)?;
        }
        if started.runner.is_stopped() {
            let answer = format!(in alloc; "stopped")?;
            answers.push(answer)?;
        }
        Ok(())
    }

    /// Takes a step.
    ///
    /// # Errors
    ///
    /// Why the step wasn't taken.
    pub fn step(
        &mut self,
        alloc: Global,
        step: &Step,
        answers: &mut Vec<String>,
    ) -> Result<(), StepError> {
        match step.words.as_slice() {
            ["group", me, "of", shapes @ ..] => {
                let me = me.parse::<u8>()?;
                match layout_of(alloc, shapes) {
                    Ok(layout) => self.group = Some((me, layout)),
                    Err(error) => return Err(error),
                }
                Ok(())
            }
            ["script"] => {
                let mut text = text_of(alloc, &step.text)?;
                text.push(b'\n')?;
                match Script::read(alloc, &text) {
                    Ok(script) => self.script = Some(script),
                    Err(_) => return Err(StepError::Expected("a script")),
                }
                Ok(())
            }
            ["start"] => self.start(alloc, answers),
            _ => match read_event(alloc, &event_text(alloc, step)?) {
                Ok(event) => self.take(alloc, &event, answers),
                Err(_) => Err(StepError::Expected("an event")),
            },
        }
    }
}
