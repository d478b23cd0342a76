//! Instructions that call, wait and reply.

ghost use Rattle.std.specs.Prelude.{◌≡◌, IfOk};
ghost use Rattle.pws_driver.specs.Services.{service_of};
ghost use Rattle.pws_driver.specs.Instructions.{low_of, call_by, receive_by, next_by, await_calls, await_by, calls_in, await_any_by, reply_by};
ghost use Rattle.pws_driver.specs.Did.{Did};

use crate::cores::{Answers, Core, Mode, Wait};
use crate::envelopes::Envelopes;
use crate::instructions::Done;
use crate::keys::Keys;
use crate::programs::Program;
use crate::values::Value;
use pws_base::limits::{CALL_WINDOW, MAX_NUMBER};
use pws_base::memory::Memory;
use pws_base::shapes::{GroupId, Number};
use pws_script::operands::{Calls, Group, Register};
use pws_service::acts::Act;
use pws_service::keys::Key;
use std::alloc::Global;

impl Core {
    /// Waits for a request.
    pub(crate) fn receive(&mut self, alloc: Global, request: Register, message: Register) -> Done
        ensures { Did result self.old self.new (receive_by self.old request message) }
    {
        self.mode = Mode::Waiting(Wait {
            requests: true,
            answers: Answers::Of(Keys::new(alloc)),
            key: Some(request),
            message,
        });
        Done::Quiet
    }

    /// Waits for a request or an answer.
    pub(crate) fn next(&mut self, source: Register, message: Register) -> Done
        ensures { Did result self.old self.new (next_by self.old source message) }
    {
        self.mode = Mode::Waiting(Wait {
            requests: true,
            answers: Answers::Any,
            key: Some(source),
            message,
        });
        Done::Quiet
    }

    /// The least number of a call to the group whose answer the script hasn't taken, or this number.
    fn low(&self, group: GroupId, number: Number) -> Number
        ensures { result ≡ low_of self.now group number }
    {
        match self.pending.first_of_group(group) {
            Some(key) => key.number,
            None => number,
        }
    }

    /// Calls a group with a text.
    pub(crate) fn call<E: Envelopes>(
        &mut self,
        alloc: Global,
        program: &Program,
        into: Register,
        group: Group,
        text: Register,
        timeout: u32,
    ) -> Result<Done, Memory>
        ensures { IfOk result (λ d. Did d self.old self.new (call_by (service_of E.words program.now) self.old into group text timeout)) }
    {
        let group = group.number();
        if group >= program.layout.groups() || group == program.me {
            return Ok(Done::Fault);
        }
        let called = self.called[group as usize];
        if called >= MAX_NUMBER {
            return Ok(Done::Fault);
        }
        let number = called + 1;
        let low = self.low(group, number);
        if number as u64 >= low as u64 + CALL_WINDOW as u64 {
            return Ok(Done::Fault);
        }
        let key = Key { group, number };
        let Some(text) = self.registers.get(text).text() else {
            return Ok(Done::Fault);
        };
        let Some(body) = E::call_text(alloc, program.me, key, text)? else {
            return Ok(Done::Fault);
        };
        self.called[group as usize] = number;
        self.pending.push(key)?;
        self.registers.put(into, Value::Call(key));
        Ok(Done::Acted(Act::Call {
            called: group,
            number,
            low,
            body,
            timeout,
        }))
    }

    /// Waits for an answer of one of these calls.
    fn await_calls(&mut self, key: Option<Register>, message: Register, calls: Keys) -> Done
        ensures { Did result self.old self.new (await_calls self.old key message calls) }
    {
        if calls.is_empty() || calls.any_outside(&self.pending) {
            return Done::Fault;
        }
        self.mode = Mode::Waiting(Wait {
            requests: false,
            answers: Answers::Of(calls),
            key,
            message,
        });
        Done::Quiet
    }

    /// Waits for the answer of a call.
    pub(crate) fn await_one(
        &mut self,
        alloc: Global,
        message: Register,
        call: Register,
    ) -> Result<Done, Memory>
        ensures { IfOk result (λ d. Did d self.old self.new (await_by self.old message call)) }
    {
        let Some(key) = self.registers.get(call).call() else {
            return Ok(Done::Fault);
        };
        let mut calls = Keys::new(alloc);
        calls.push(key)?;
        Ok(self.await_calls(None, message, calls))
    }

    /// The calls that these registers hold.
    fn calls_among(&self, alloc: Global, among: &Calls) -> Result<Keys, Memory>
        ensures { IfOk result (λ ks. ks ≡ calls_in self.now among.now) }
    {
        let mut calls = Keys::new(alloc);
        let registers = among.as_slice();
        for r in registers {
            calls.push_some(self.registers.get(*r).call())?;
        }
        Ok(calls)
    }

    /// Waits for the first answer of several calls.
    pub(crate) fn await_any(
        &mut self,
        alloc: Global,
        call: Register,
        message: Register,
        among: &Calls,
    ) -> Result<Done, Memory>
        ensures { IfOk result (λ d. Did d self.old self.new (await_any_by self.old call message among.now)) }
    {
        let calls = self.calls_among(alloc, among)?;
        Ok(self.await_calls(Some(call), message, calls))
    }

    /// Replies to a request with a text.
    pub(crate) fn reply<E: Envelopes>(
        &mut self,
        alloc: Global,
        program: &Program,
        request: Register,
        text: Register,
    ) -> Result<Done, Memory>
        ensures { IfOk result (λ d. Did d self.old self.new (reply_by (service_of E.words program.now) self.old request text)) }
    {
        let Some((key, message)) = self.registers.get(request).request() else {
            return Ok(Done::Fault);
        };
        let Some(text) = self.registers.get(text).text() else {
            return Ok(Done::Fault);
        };
        if !self.open_requests.has(key) {
            return Ok(Done::Fault);
        }
        let body = E::reply_text(alloc, program.me, key, message.as_slice(), text)?;
        self.open_requests.remove(key);
        Ok(Done::Acted(Act::Reply {
            caller: key.group,
            number: key.number,
            body,
        }))
    }
}
