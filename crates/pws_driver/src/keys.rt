//! Lists of calls.

ghost use Rattle.std.specs.Prelude.{◌≡◌, ◌==◌, ℕ, [], ◌∷◌, ◌++◌, not, nat_lt, length, Option, IfOk, OnOk};
ghost use Rattle.std.specs.List.{find, list_any, cons_option};
ghost use Rattle.std.specs.Option.{option_map};
ghost use Rattle.pws_service.specs.Keys.{same_key};
ghost use Rattle.pws_driver.specs.Keys.{has_key, without};

use pws_base::lists::ExactCopy;
use pws_base::memory::Memory;
use pws_base::shapes::GroupId;
use pws_service::keys::{Key, same_key};
use std::alloc::Global;
use std::marker::Model;

/// Calls, in order.
#[derive(Debug, Drop)]
pub(crate) struct Keys {
    /// The calls, the first one first.
    items: Vec<Key>,
}

impl Model for Keys {
    ghost use Rattle.std.specs.Prelude.{List};
    ghost use Rattle.pws_service.specs.declared.keys.Key.{Key};

    ghost Value = { List Key };

    ghost view = { λ k. k.items.items };
}

impl Keys {
    /// No calls.
    pub fn new(alloc: Global) -> Keys
        ensures { result ≡ [] }
    {
        Keys {
            items: Vec::new(alloc),
        }
    }

    /// Adds a call at the end.
    ///
    /// # Errors
    ///
    /// `Memory` only.
    pub fn push(&mut self, key: Key) -> Result<(), Memory>
        ensures { OnOk result (self.new ≡ self.old ++ key ∷ []) }
    {
        self.items.push(key)?;
        Ok(())
    }

    /// Adds the call, if there is one, at the end.
    ///
    /// # Errors
    ///
    /// `Memory` only.
    pub fn push_some(&mut self, key: Option<Key>) -> Result<(), Memory>
        ensures { OnOk result (self.new ≡ self.old ++ cons_option key []) }
    {
        match key {
            Some(key) => self.push(key),
            None => Ok(()),
        }
    }

    /// Whether the call is among these.
    pub fn has(&self, key: Key) -> bool
        ensures { result ≡ has_key self.now key }
    {
        self.items.iter().any(|k| same_key(key, *k))
    }

    /// Whether there is no call.
    pub fn is_empty(&self) -> bool
        ensures { result ≡ not (nat_lt 0 (length self.now)) }
    {
        self.items.is_empty()
    }

    /// Whether one of these isn't among the others.
    pub fn any_outside(&self, others: &Keys) -> bool
        ensures { result ≡ list_any (λ k. not (has_key others.now k)) self.now }
    {
        self.items.iter().any(|k| !others.has(*k))
    }

    fn found(&self, group: GroupId) -> Option<&Key>
        ensures { option_map (λ k. k.now) result ≡ find (λ k. k.group == group) self.now }
    {
        self.items.iter().find(|k| k.group == group)
    }

    /// The first of them with this group.
    pub fn first_of_group(&self, group: GroupId) -> Option<Key>
        ensures { result ≡ find (λ k. k.group == group) self.now }
    {
        match self.found(group) {
            Some(key) => Some(*key),
            None => None,
        }
    }

    /// Takes the call out, if it is among them.
    pub fn remove(&mut self, key: Key)
        ensures { self.new ≡ without key self.old }
    {
        self.items.retain(|k| !same_key(key, *k));
    }
}

impl ExactCopy for Keys {
    fn copy(&self, alloc: Global) -> Result<Keys, Memory> {
        Ok(Keys {
            items: self.items.as_slice().to_vec(alloc)?,
        })
    }
}
