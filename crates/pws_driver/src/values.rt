//! What registers hold.

ghost use Rattle.std.specs.Prelude.{◌≡◌, ◌<◌, ◌∷◌, [], length, slice_index_or, slice_set, IfOk};
ghost use Rattle.std.specs.Option.{option_map};
ghost use Rattle.pws_driver.specs.Values.{number_of, text_of, digits_or_text_of, call_of, request_of, message_of};

use crate::texts::digits;
use pws_base::bytes::Bytes;
use pws_base::lists::ExactCopy;
use pws_base::memory::Memory;
use pws_script::operands::Register;
use pws_service::keys::Key;
use pws_tree::xml_texts::XmlText;
use std::alloc::Global;
use std::marker::Model;

/// The longest text in a register, in bytes.
pub(crate) const MAX_TEXT: usize = 16_384;

/// What a register holds.
#[derive(Clone, Debug, Drop)]
pub(crate) enum Value {
    /// A number.
    Number(u64),
    /// A text of XML characters, of at most `MAX_TEXT` bytes.
    Text(XmlText),
    /// A call to another group.
    Call(Key),
    /// A request of another group, and its message, which a reply refers to.
    Request { key: Key, message: Bytes },
    /// A message: the text of an envelope.
    Message(Bytes),
}

impl ExactCopy for Value {
    fn copy(&self, _alloc: Global) -> Result<Value, Memory> {
        Ok(self.clone()?)
    }
}

/// The 32 registers.
#[derive(Drop)]
pub(crate) struct Registers {
    /// What each of them holds.
    values: Vec<Value>,
}

impl Model for Registers {
    ghost use Rattle.std.specs.Prelude.{List, ◌≡◌, length};
    ghost use Rattle.pws_driver.specs.declared.values.Value.{Value as Held};

    ghost Value = { List Held };

    ghost view = { λ r. r.values.items };

    ghost invariant = { λ r. length r.values.items ≡ 32 };
}

impl Value {
    /// The number, if it is one.
    pub fn number(&self) -> Option<u64>
        ensures { result ≡ number_of self.now }
    {
        match self {
            Value::Number(n) => Some(*n),
            _ => None,
        }
    }

    /// The text, if it is one.
    pub fn text(&self) -> Option<&XmlText>
        ensures { option_map (λ t. t.now) result ≡ text_of self.now }
    {
        match self {
            Value::Text(text) => Some(text),
            _ => None,
        }
    }

    /// The call, if it is one.
    pub fn call(&self) -> Option<Key>
        ensures { result ≡ call_of self.now }
    {
        match self {
            Value::Call(key) => Some(*key),
            _ => None,
        }
    }

    /// The request and its message, if it is one.
    pub fn request(&self) -> Option<(Key, &Bytes)>
        ensures { option_map (λ r. (r.0, r.1.now)) result ≡ request_of self.now }
    {
        match self {
            Value::Request { key, message } => Some((*key, message)),
            _ => None,
        }
    }

    /// The message, if it is one.
    pub fn message(&self) -> Option<&Bytes>
        ensures { option_map (λ m. m.now) result ≡ message_of self.now }
    {
        match self {
            Value::Message(message) => Some(message),
            _ => None,
        }
    }
}

/// The text, or the digits of the number, if it is one of them.
///
/// # Errors
///
/// `Memory` only.
pub(crate) fn digits_or_text(alloc: Global, value: &Value) -> Result<Option<XmlText>, Memory>
    ensures { IfOk result (λ t. t ≡ digits_or_text_of value.now) }
{
    match value {
        Value::Number(n) => Ok(Some(digits(alloc, *n)?)),
        Value::Text(text) => Ok(Some(text.copy(alloc)?)),
        _ => Ok(None),
    }
}

impl Registers {
    ghost use Rattle.pws_driver.specs.Zeros.{zeros};

    /// The number 0 in each.
    ///
    /// # Errors
    ///
    /// `Memory` only.
    #[tactic(auto, unfolding(crate::specs::Zeros::zeros))]
    pub fn new(alloc: Global) -> Result<Registers, Memory>
        ensures { IfOk result (λ r. r ≡ zeros) }
    {
        let mut values = Vec::new(alloc);
        for _ in 0..32u32 {
            values.push(Value::Number(0))?;
        }
        Ok(Registers { values })
    }

    /// What a register holds.
    pub fn get(&self, r: Register) -> &Value
        ensures { result.now ≡ slice_index_or self.now r (Value.Number 0) }
    {
        &self.values[r.index() as usize]
    }

    /// Puts a value into a register.
    pub fn put(&mut self, r: Register, value: Value)
        ensures { self.new ≡ slice_set self.old r value }
    {
        self.values[r.index() as usize] = value;
    }
}

impl ExactCopy for Registers {
    fn copy(&self, alloc: Global) -> Result<Registers, Memory> {
        let mut values = Vec::new(alloc);
        for value in self.values.iter() {
            values.push(value.copy(alloc)?)?;
        }
        Ok(Registers { values })
    }
}
