//! One instruction.

ghost use Rattle.std.specs.Prelude.{◌≡◌, ◌<◌, ◌++◌, ◌∷◌, [], ℕ, length, IfOk, OnOk, Option, List};
ghost use Rattle.std.specs.Option.{unwrap_or};
ghost use Rattle.pws_driver.specs.declared.cores.Core.{Core};
ghost use Rattle.pws_driver.specs.Services.{service_of};
ghost use Rattle.pws_driver.specs.Moves.{Moved, halted, held};
ghost use Rattle.pws_driver.specs.Instructions.{set_by, add_by, sub_by, less_by, same_by, join_by, field_by, jump_by, clock_by, seed_by, draw_of, after_word, draw_by};
ghost use Rattle.pws_driver.specs.Values.{number_of, same_number, same_text, same_call, same_request, same_message, same_value};
ghost use Rattle.pws_driver.specs.Did.{Did};

use crate::cores::{Core, Mode};
use crate::envelopes::Envelopes;
use crate::programs::Program;
use crate::texts::{joined, literal_text};
use crate::values::{MAX_TEXT, Value, digits_or_text};
use pws_base::bytes::Bytes;
use pws_base::limits::MAX_NUMBER;
use pws_base::lists::ExactCopy;
use pws_base::memory::Memory;
use pws_script::instructions::Literal;
use pws_script::operands::{Name, Register};
use pws_service::acts::Act;
use pws_service::keys::{Key, same_key};
use pws_tree::xml_texts::XmlText;
use rand_chacha::ChaCha20Rng;
use rand_core::utils::NextWord;
use std::alloc::Global;

/// How many values a word of the stream has.
const WORDS: u64 = 4_294_967_296;

/// What an instruction came to.
#[derive(Debug, Drop)]
pub(crate) enum Done {
    /// The script halts.
    Fault,
    /// No act.
    Quiet,
    /// One act.
    Acted(Act),
}

/// Whether the value is this number.
fn is_number(value: &Value, n: u64) -> bool
    ensures { result ≡ same_number n value.now }
{
    match value {
        Value::Number(other) => n == *other,
        _ => false,
    }
}

/// Whether the value is this text.
fn is_text(value: &Value, text: &XmlText) -> bool
    ensures { result ≡ same_text text.now value.now }
{
    match value {
        Value::Text(other) => text.as_str() == other.as_str(),
        _ => false,
    }
}

/// Whether the value is this call.
fn is_call(value: &Value, key: Key) -> bool
    ensures { result ≡ same_call key value.now }
{
    match value {
        Value::Call(other) => same_key(key, *other),
        _ => false,
    }
}

/// Whether the value is this request.
fn is_request(value: &Value, key: Key) -> bool
    ensures { result ≡ same_request key value.now }
{
    match value {
        Value::Request { key: other, .. } => same_key(key, *other),
        _ => false,
    }
}

/// Whether the value is the same message.
fn is_message<E: Envelopes>(alloc: Global, value: &Value, message: &Bytes) -> Result<bool, Memory>
    ensures { IfOk result (λ b. b ≡ same_message E.words.same_message message.now value.now) }
{
    match value {
        Value::Message(other) => E::same_message(alloc, message.as_slice(), other.as_slice()),
        _ => Ok(false),
    }
}

/// Whether both are of one kind and equal.
fn is_same<E: Envelopes>(alloc: Global, left: &Value, right: &Value) -> Result<bool, Memory>
    ensures { IfOk result (λ b. b ≡ same_value E.words.same_message left.now right.now) }
{
    match left {
        Value::Number(n) => Ok(is_number(right, *n)),
        Value::Text(text) => Ok(is_text(right, text)),
        Value::Call(key) => Ok(is_call(right, *key)),
        Value::Request { key, .. } => Ok(is_request(right, *key)),
        Value::Message(message) => is_message::<E>(alloc, right, message),
    }
}

/// A number below the bound from two words of the stream.
fn draw(stream: &mut ChaCha20Rng, bound: u64) -> u64
    requires { 0 < bound }
    ensures number { result ≡ draw_of stream.old bound }
    ensures after { stream.new ≡ after_word (after_word stream.old) }
{
    let low = stream.next_word() as u64;
    let high = stream.next_word() as u64;
    (low + high * WORDS) % bound
}

impl Core {
    /// Puts a literal.
    pub(crate) fn set(
        &mut self,
        alloc: Global,
        into: Register,
        literal: &Literal,
    ) -> Result<Done, Memory>
        ensures { IfOk result (λ d. Did d self.old self.new (set_by self.old into literal.now)) }
    {
        let value = match literal {
            Literal::Number(n) => Value::Number(*n),
            Literal::Text(text) => Value::Text(literal_text(alloc, text)?),
        };
        self.registers.put(into, value);
        Ok(Done::Quiet)
    }

    /// Adds numbers.
    pub(crate) fn add(&mut self, into: Register, left: Register, right: Register) -> Done
        ensures { Did result self.old self.new (add_by self.old into left right) }
    {
        let (Some(x), Some(y)) = (
            self.registers.get(left).number(),
            self.registers.get(right).number(),
        ) else {
            return Done::Fault;
        };
        match x.checked_add(y) {
            Some(sum) => {
                self.registers.put(into, Value::Number(sum));
                Done::Quiet
            }
            None => Done::Fault,
        }
    }

    /// Subtracts numbers.
    pub(crate) fn sub(&mut self, into: Register, left: Register, right: Register) -> Done
        ensures { Did result self.old self.new (sub_by self.old into left right) }
    {
        let (Some(x), Some(y)) = (
            self.registers.get(left).number(),
            self.registers.get(right).number(),
        ) else {
            return Done::Fault;
        };
        if x < y {
            return Done::Fault;
        }
        self.registers.put(into, Value::Number(x - y));
        Done::Quiet
    }

    /// Puts whether one number is below another.
    pub(crate) fn less(&mut self, into: Register, left: Register, right: Register) -> Done
        ensures { Did result self.old self.new (less_by self.old into left right) }
    {
        let (Some(x), Some(y)) = (
            self.registers.get(left).number(),
            self.registers.get(right).number(),
        ) else {
            return Done::Fault;
        };
        self.registers.put(into, Value::Number(u64::from(x < y)));
        Done::Quiet
    }

    /// Puts whether two values are one kind and equal.
    pub(crate) fn same<E: Envelopes>(
        &mut self,
        alloc: Global,
        program: &Program,
        into: Register,
        left: Register,
        right: Register,
    ) -> Result<Done, Memory>
        ensures { IfOk result (λ d. Did d self.old self.new (same_by (service_of E.words program.now) self.old into left right)) }
    {
        let same = is_same::<E>(alloc, self.registers.get(left), self.registers.get(right))?;
        self.registers.put(into, Value::Number(u64::from(same)));
        Ok(Done::Quiet)
    }

    /// Joins texts.
    pub(crate) fn join(
        &mut self,
        alloc: Global,
        into: Register,
        left: Register,
        right: Register,
    ) -> Result<Done, Memory>
        ensures { IfOk result (λ d. Did d self.old self.new (join_by self.old into left right)) }
    {
        let first = digits_or_text(alloc, self.registers.get(left))?;
        let second = digits_or_text(alloc, self.registers.get(right))?;
        let (Some(first), Some(second)) = (first, second) else {
            return Ok(Done::Fault);
        };
        let text = joined(alloc, &first, &second)?;
        if text.as_str().len() > MAX_TEXT {
            return Ok(Done::Fault);
        }
        self.registers.put(into, Value::Text(text));
        Ok(Done::Quiet)
    }

    /// Puts the text of an element of a message.
    pub(crate) fn field<E: Envelopes>(
        &mut self,
        alloc: Global,
        program: &Program,
        into: Register,
        message: Register,
        name: &Name,
    ) -> Result<Done, Memory>
        ensures { IfOk result (λ d. Did d self.old self.new (field_by (service_of E.words program.now) self.old into message name.now)) }
    {
        let Some(message) = self.registers.get(message).message() else {
            return Ok(Done::Fault);
        };
        let text = E::field_text(alloc, message.as_slice(), name.as_slice())?;
        if text.as_str().len() > MAX_TEXT {
            return Ok(Done::Fault);
        }
        self.registers.put(into, Value::Text(text));
        Ok(Done::Quiet)
    }

    /// Goes to a line unless the number is 0.
    pub(crate) fn jump(&mut self, line: u32, unless_zero: Register) -> Done
        ensures { Did result self.old self.new (jump_by self.old line unless_zero) }
    {
        let Some(n) = self.registers.get(unless_zero).number() else {
            return Done::Fault;
        };
        if n != 0 {
            self.line = (line as usize).saturating_sub(1);
        }
        Done::Quiet
    }

    /// Asks for the agreed time and waits.
    pub(crate) fn ask_clock(&mut self, into: Register) -> Done
        ensures { Did result self.old self.new (clock_by self.old into) }
    {
        if self.asks >= MAX_NUMBER {
            return Done::Fault;
        }
        self.asks += 1;
        self.mode = Mode::AskingClock(into);
        Done::Acted(Act::AskClock { ask: self.asks })
    }

    /// Asks for the agreed seed and waits.
    pub(crate) fn ask_seed(&mut self) -> Done
        ensures { Did result self.old self.new (seed_by self.old) }
    {
        if self.asks >= MAX_NUMBER {
            return Done::Fault;
        }
        self.asks += 1;
        self.mode = Mode::AskingSeed;
        Done::Acted(Act::AskRandom { ask: self.asks })
    }

    /// Draws a number below another.
    pub(crate) fn draw(&mut self, into: Register, bound: Register) -> Done
        ensures { Did result self.old self.new (draw_by self.old into bound) }
    {
        let Some(bound) = self.registers.get(bound).number() else {
            return Done::Fault;
        };
        if bound == 0 {
            return Done::Fault;
        }
        let Some(stream) = &mut self.stream else {
            return Done::Fault;
        };
        let n = draw(stream, bound);
        self.registers.put(into, Value::Number(n));
        Done::Quiet
    }
}
