//! Which effect a script takes next, and what it does with it.

ghost use Rattle.std.specs.Prelude.{◌≡◌, ◌++◌, IfOk, OnOk};
ghost use Rattle.pws_driver.specs.declared.cores.Mode.TheVariants as mode;
ghost use Rattle.pws_driver.specs.Services.{service_of};
ghost use Rattle.pws_driver.specs.Moves.{quiet};
ghost use Rattle.pws_service.specs.Keys.{request_key, reply_key, abort_key};
ghost use Rattle.pws_service.specs.Lawful.{is_clock, is_random};
ghost use Rattle.pws_driver.specs.Takings.{among_answers, wanted_by, wants, is_ready, hand, request_taken, take_request, answer_of, take_answer, take_by, take_clock, take_seed, when_halted, takes};
ghost use Rattle.pws_driver.specs.Did.{DidMove};

use crate::cores::{Answers, BUDGET, Core, Mode, Wait};
use crate::envelopes::Envelopes;
use crate::programs::Program;
use crate::values::Value;
use pws_base::bytes::Bytes;
use pws_base::memory::Memory;
use pws_event::answers::{Abort, Reply};
use pws_event::events::Event;
use pws_event::requests::Request;
use pws_event::times::{agreed_seed, agreed_time};
use pws_script::operands::Register;
use pws_service::acts::Act;
use pws_service::keys::Key;
use rand_chacha::ChaCha20Rng;
use rand_core::SeedableRng;
use std::alloc::Global;
use std::mem::replace;

/// The call that a request is.
fn request_key(request: &Request) -> Key
    ensures { result ≡ request_key request.now }
{
    Key {
        group: request.caller(),
        number: request.number(),
    }
}

/// The call that a reply answers.
fn reply_key(reply: &Reply) -> Key
    ensures { result ≡ reply_key reply.now }
{
    Key {
        group: reply.called(),
        number: reply.number(),
    }
}

/// The call that is aborted.
fn abort_key(abort: &Abort) -> Key
    ensures { result ≡ abort_key abort.now }
{
    Key {
        group: abort.called(),
        number: abort.number(),
    }
}

/// The message of a reply with this body.
fn answer_of<E: Envelopes>(alloc: Global, program: &Program, body: &[u8]) -> Result<Bytes, Memory>
    ensures { IfOk result (λ m. m ≡ answer_of (service_of E.words program.now) body.now) }
{
    if E::is_readable(alloc, body)? {
        return Bytes::from_slice(alloc, body);
    }
    E::unreadable(alloc)
}

/// Answers each request of a halted script.
fn refuse<E: Envelopes>(
    alloc: Global,
    program: &Program,
    event: &Event,
    acts: &mut Vec<Act>,
) -> Result<(), Memory>
    ensures { OnOk result (acts.new.items ≡ acts.old.items ++ when_halted (service_of E.words program.now) event.now) }
{
    if let Event::Request(request) = event {
        let key = request_key(request);
        let body = E::halted_text(alloc, program.me, key, request.body())?;
        acts.push(Act::Reply {
            caller: key.group,
            number: key.number,
            body,
        })?;
    }
    Ok(())
}

impl Answers {
    /// Whether the answer of this call is among them.
    fn have(&self, key: Key) -> bool
        ensures { result ≡ among_answers self.now key }
    {
        match self {
            Answers::Any => true,
            Answers::Of(keys) => keys.has(key),
        }
    }
}

impl Wait {
    /// Whether it takes the event.
    fn wants(&self, event: &Event) -> bool
        ensures { result ≡ wanted_by self.now event.now }
    {
        match event {
            Event::Request(_) => self.requests,
            Event::Reply(reply) => self.answers.have(reply_key(reply)),
            Event::Abort(abort) => self.answers.have(abort_key(abort)),
            Event::Null | Event::Clock(_) | Event::Random(_) => false,
        }
    }
}

fn answers_clock(asks: u32, event: &Event) -> bool
    ensures { result ≡ is_clock asks event.now }
{
    match event {
        Event::Clock(clock) => clock.ask() == asks,
        _ => false,
    }
}

fn answers_random(asks: u32, event: &Event) -> bool
    ensures { result ≡ is_random asks event.now }
{
    match event {
        Event::Random(random) => random.ask() == asks,
        _ => false,
    }
}

impl Core {
    /// Whether an instruction comes next.
    #[tactic(auto, unfolding(crate::specs::Takings::is_ready))]
    pub(crate) fn is_ready(&self) -> bool
        ensures { result ≡ is_ready self.now }
    {
        matches!(self.mode, Mode::Ready)
    }

    /// Whether the script takes the event next.
    #[tactic(auto, unfolding(crate::specs::Takings::wants))]
    pub(crate) fn wants(&self, event: &Event) -> bool
        ensures { result ≡ wants self.now event.now }
    {
        match &self.mode {
            Mode::Ready => false,
            Mode::Waiting(wait) => wait.wants(event),
            Mode::AskingClock(_) => answers_clock(self.asks, event),
            Mode::AskingSeed => answers_random(self.asks, event),
            Mode::Halted => true,
        }
    }

    /// Puts what was taken.
    fn hand(&mut self, wait: &Wait, value: Value, message: Bytes)
        ensures { self.new ≡ hand wait.now self.old value message }
    {
        if let Some(r) = wait.key {
            self.registers.put(r, value);
        }
        self.registers.put(wait.message, Value::Message(message));
    }

    /// Takes a request, or answers it with the fault that refuses it.
    fn take_request<E: Envelopes>(
        &mut self,
        alloc: Global,
        program: &Program,
        wait: Wait,
        request: &Request,
        acts: &mut Vec<Act>,
    ) -> Result<(), Memory>
        requires { self.old.mode ≡ mode.Ready }
        ensures { OnOk result (DidMove (take_request (service_of E.words program.now) wait (record self.old { mode = mode.Waiting wait }) request.now) self.new acts.old.items acts.new.items) }
    {
        self.left = BUDGET;
        let key = request_key(request);
        let body = request.body();
        match E::refusal_of(alloc, program.me, key, body)? {
            Some(fault) => {
                self.wait_on(wait);
                acts.push(Act::Reply {
                    caller: key.group,
                    number: key.number,
                    body: fault,
                })?;
            }
            None => {
                self.open_requests.push(key)?;
                let message = Bytes::from_slice(alloc, body)?;
                let value = Value::Request {
                    key,
                    message: Bytes::from_slice(alloc, body)?,
                };
                self.hand(&wait, value, message);
            }
        }
        Ok(())
    }

    /// Takes the answer of a call.
    fn take_answer(&mut self, wait: Wait, key: Key, message: Bytes)
        requires { self.old.mode ≡ mode.Ready }
        ensures { quiet self.new ≡ take_answer wait (record self.old { mode = mode.Waiting wait }) key message }
    {
        self.left = BUDGET;
        self.pending.remove(key);
        self.hand(&wait, Value::Call(key), message);
    }

    /// Still waits after a refused request.
    fn wait_on(&mut self, wait: Wait)
        ensures { self.new ≡ record self.old { mode = mode.Waiting wait } }
    {
        self.mode = Mode::Waiting(wait);
    }

    /// Takes an event by a wait.
    fn take_by<E: Envelopes>(
        &mut self,
        alloc: Global,
        program: &Program,
        wait: Wait,
        event: &Event,
        acts: &mut Vec<Act>,
    ) -> Result<(), Memory>
        requires { self.old.mode ≡ mode.Ready }
        ensures { OnOk result (DidMove (take_by (service_of E.words program.now) wait (record self.old { mode = mode.Waiting wait }) event.now) self.new acts.old.items acts.new.items) }
    {
        match event {
            Event::Null | Event::Clock(_) | Event::Random(_) => {
                self.mode = Mode::Waiting(wait);
                Ok(())
            }
            Event::Request(request) => {
                self.take_request::<E>(alloc, program, wait, request, acts)
            }
            Event::Reply(reply) => {
                let message = answer_of::<E>(alloc, program, reply.body())?;
                self.take_answer(wait, reply_key(reply), message);
                Ok(())
            }
            Event::Abort(abort) => {
                let message = E::timed_out(alloc)?;
                self.take_answer(wait, abort_key(abort), message);
                Ok(())
            }
        }
    }

    /// Takes the agreed time, in a group that bears f compromised replicas.
    fn take_clock(&mut self, f: u8, into: Register, event: &Event)
        requires { self.old.mode ≡ mode.Ready }
        ensures { quiet self.new ≡ take_clock f into (record self.old { mode = mode.AskingClock into }) event.now }
    {
        match event {
            Event::Clock(clock) => {
                self.left = BUDGET;
                self.clock = self.clock.max(agreed_time(f, clock.readings()));
                self.registers.put(into, Value::Number(self.clock));
            }
            _ => self.mode = Mode::AskingClock(into),
        }
    }

    /// Takes the agreed seed.
    fn take_seed(&mut self, event: &Event)
        requires { self.old.mode ≡ mode.Ready }
        ensures { quiet self.new ≡ take_seed (record self.old { mode = mode.AskingSeed }) event.now }
    {
        match event {
            Event::Random(random) => {
                let seed = agreed_seed(random.shares());
                self.left = BUDGET;
                self.stream = Some(ChaCha20Rng::from_seed(seed));
            }
            _ => self.mode = Mode::AskingSeed,
        }
    }

    /// Takes the event; its acts go to the end of the list.
    ///
    /// # Errors
    ///
    /// `Memory` only.
    #[tactic(auto, unfolding(crate::specs::Takings::takes))]
    pub(crate) fn take<E: Envelopes>(
        &mut self,
        alloc: Global,
        program: &Program,
        event: &Event,
        acts: &mut Vec<Act>,
    ) -> Result<(), Memory>
        ensures { OnOk result (DidMove (takes (service_of E.words program.now) self.old event.now) self.new acts.old.items acts.new.items) }
    {
        match replace(&mut self.mode, Mode::Ready) {
            Mode::Ready => Ok(()),
            Mode::Waiting(wait) => self.take_by::<E>(alloc, program, wait, event, acts),
            Mode::AskingClock(into) => {
                self.take_clock(program.faults(), into, event);
                Ok(())
            }
            Mode::AskingSeed => {
                self.take_seed(event);
                Ok(())
            }
            Mode::Halted => {
                self.mode = Mode::Halted;
                refuse::<E>(alloc, program, event, acts)
            }
        }
    }
}
