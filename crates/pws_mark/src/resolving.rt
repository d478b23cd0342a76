//! Names as bound.

ghost use Rattle.std.specs.Prelude.{◌≡◌, ◌++◌, [], ◌∷◌, option_map, unwrap_or, not, is_none, Some, None, OnOk, IfOk};
ghost use Rattle.pws_mark.specs.Bindings.{space_at, is_bound, named, written_local, element_name, attribute_name};
ghost use Rattle.pws_mark.specs.Faults.{is_value_name, is_wrong_name};
ghost use Rattle.pws_mark.specs.Meaning.{no_name, name_of};
ghost use Rattle.pws_mark.specs.Noted.{read_name};
ghost use Rattle.pws_mark.specs.States.{bound_at};

use crate::names::{
    has_colon, has_two_colons, prefix_declared, text_of, written_local, written_prefix,
};
use crate::scopes::{Opens, Scope};
use pws_base::lists::ExactCopy;
use pws_base::memory::Memory;
use pws_tree::lawful::is_value;
use pws_tree::texts::{Name, Text};
use std::alloc::Global;
use std::marker::Model;

/// What the prefixes are bound to inside of a tag, which contracts see as a list, the innermost declaration first.
#[derive(Drop)]
pub struct Inside<'a> {
    pub scope: &'a Scope,
    pub opens: &'a Opens,
}

impl<'a> Model for Inside<'a> {
    ghost use Rattle.std.specs.Prelude.{◌++◌};
    ghost use Rattle.pws_mark.specs.Bindings.{Bindings};
    ghost use Rattle.pws_mark.specs.States.{bound_at};

    ghost Value = { Bindings };

    ghost view = { λ i. i.scope.now ++ bound_at i.opens.now };
}

/// The name in this namespace of what is behind the prefix of a name.
fn named(alloc: Global, name: &[char], space: Text) -> Result<Option<Name>, Memory>
    ensures { IfOk result (λ n. n ≡ Some (named (written_local name.now) space)) }
{
    let local = text_of(alloc, written_local(name))?;
    Ok(Some(Name { space, local }))
}

impl<'a> Inside<'a> {
    /// The namespace of a prefix.
    #[tactic(auto, using(crate::proofs::Opened::space_around))]
    fn space_at(&self, prefix: &[char]) -> Option<&'a Option<Text>>
        ensures { option_map (λ b. b.now) result ≡ space_at self.now prefix.now }
    {
        match self.scope.space_at(prefix) {
            Some(space) => Some(space),
            None => self.opens.space_at(prefix),
        }
    }

    /// Whether a prefix is bound.
    pub fn is_bound(&self, prefix: &[char]) -> bool
        ensures { result ≡ is_bound self.now prefix.now }
    {
        prefix.is_empty() || self.space_at(prefix).is_some()
    }

    /// Whether a name has two colons, or a prefix that isn't bound.
    pub fn is_wrong_name(&self, name: &[char]) -> bool
        ensures { result ≡ is_wrong_name self.now name.now }
    {
        has_two_colons(name) || !self.is_bound(written_prefix(name))
    }

    /// The name of an element.
    ///
    /// # Errors
    ///
    /// `Memory` only.
    pub fn element_name(&self, alloc: Global, name: &[char]) -> Result<Option<Name>, Memory>
        ensures { IfOk result (λ n. n ≡ element_name self.now name.now) }
    {
        let prefix = written_prefix(name);
        match self.space_at(prefix) {
            Some(Some(space)) => named(alloc, name, space.copy(alloc)?),
            Some(None) => Ok(None),
            None if prefix.is_empty() => named(alloc, name, Text::new(alloc)),
            None => Ok(None),
        }
    }

    /// The name of an attribute.
    ///
    /// # Errors
    ///
    /// `Memory` only.
    pub fn attribute_name(&self, alloc: Global, name: &[char]) -> Result<Option<Name>, Memory>
        ensures { IfOk result (λ n. n ≡ attribute_name self.now name.now) }
    {
        if has_colon(name) {
            return self.element_name(alloc, name);
        }
        let local = text_of(alloc, name)?;
        Ok(Some(Name {
            space: Text::new(alloc),
            local,
        }))
    }

    /// The name of an attribute that isn't a declaration.
    ///
    /// # Errors
    ///
    /// `Memory` only.
    pub fn read_name(&self, alloc: Global, name: &[char]) -> Result<Option<Name>, Memory>
        ensures { IfOk result (λ n. n ≡ read_name self.now name.now) }
    {
        if prefix_declared(name).is_some() {
            return Ok(None);
        }
        self.attribute_name(alloc, name)
    }
}

/// Whether this is the name of `Value` in the envelope namespace.
pub fn is_value_name(name: &Option<Name>) -> bool
    ensures { result ≡ is_value_name name.now }
{
    match name {
        Some(name) => is_value(name),
        None => false,
    }
}

/// The name, or an empty one.
#[tactic(auto, unfolding(crate::specs::Meaning::name_of))]
pub fn or_no_name(alloc: Global, name: Option<Name>) -> Name
    ensures { result ≡ unwrap_or name no_name }
{
    match name {
        Some(name) => name,
        None => Name {
            space: Text::new(alloc),
            local: Text::new(alloc),
        },
    }
}
