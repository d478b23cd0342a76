//! The namespaces that a tree uses, in order of first use.

ghost use Rattle.std.specs.Prelude.{◌≡◌, [], length, position, fold, option_map, slice_get, OnOk, IfOk};
ghost use Rattle.std.specs.Str.{bytes_eq};
ghost use Rattle.pws_tree.specs.Trees.{NoNode};
ghost use Rattle.pws_tree.specs.Nodes.{node_then};
ghost use Rattle.pws_mark.specs.Canonical.{needs_prefix, with_space, tag_uses, uses, tree_uses, spaces_of};

use indexmap::IndexSet;
use pws_base::memory::Memory;
use pws_tree::spaces::XML_SPACE;
use pws_tree::trees::{Element, Node};
use std::alloc::Global;
use std::marker::Model;

/// The namespaces that need a prefix, which contracts see as their list in order of first use.
#[derive(Drop)]
pub struct Spaces<'a> {
    used: IndexSet<&'a str>,
}

impl<'a> Model for Spaces<'a> {
    ghost use Rattle.std.specs.Prelude.{ℕ, List, map};

    ghost Value = { List (List ℕ) };

    ghost view = { λ s. map (λ b. b.now) s.used.keys };
}

/// Whether names in this namespace are written with a prefix that has to be declared.
#[tactic(auto, unfolding(crate::specs::Canonical::xml_space))]
fn needs_prefix(space: &str) -> bool
    ensures { result ≡ needs_prefix space.now }
{
    space != "" && space != XML_SPACE
}

impl<'a> Spaces<'a> {
    /// No namespaces.
    fn new(alloc: Global) -> Spaces<'a>
        ensures { result ≡ [] }
    {
        Spaces {
            used: IndexSet::new(alloc),
        }
    }

    /// Notes the use of a namespace.
    fn note(&mut self, space: &'a str) -> Result<(), Memory>
        ensures { OnOk result (self.new ≡ with_space self.old space.now) }
    {
        if needs_prefix(space) {
            self.used.insert(space)?;
        }
        Ok(())
    }

    /// The place of a namespace in the list.
    pub fn place(&self, space: &str) -> Option<usize>
        ensures { result ≡ position (bytes_eq space.now) self.now }
    {
        self.used.get_index_of(space)
    }

    /// The namespace at a place of the list.
    pub fn get(&self, place: usize) -> Option<&'a str>
        ensures { option_map (λ b. b.now) result ≡ slice_get self.now place }
    {
        self.used.get_index(place).copied()
    }

    /// How many namespaces there are.
    pub fn len(&self) -> usize
        ensures { result ≡ length self.now }
    {
        self.used.len()
    }

    /// Notes the namespaces of a tag.
    fn note_tag(&mut self, element: &'a Element) -> Result<(), Memory>
        ensures { OnOk result (self.new ≡ fold with_space self.old (tag_uses element.now.name element.now.attrs)) }
    {
        self.note(element.name().space.as_str())?;
        for attr in element.attrs() {
            self.note(attr.name.space.as_str())?;
        }
        Ok(())
    }

    /// Notes the namespaces of an element and of what it contains.
    #[cycle(noting)]
    fn note_element(&mut self, element: &'a Element) -> Result<(), Memory>
        ensures { OnOk result (self.new ≡ fold with_space self.old (tree_uses element.now)) }
    {
        self.note_tag(element)?;
        for child in element.children() {
            self.note_child(child)?;
        }
        Ok(())
    }

    /// Notes the namespaces of a child.
    #[cycle(noting)]
    fn note_child(&mut self, child: &'a Node) -> Result<(), Memory>
        ensures { OnOk result (self.new ≡ fold with_space self.old (uses (node_then child.now NoNode))) }
    {
        match child {
            Node::Element(element) => self.note_element(element),
            Node::Text(_) => Ok(()),
            Node::Qualified(name) => self.note(name.space.as_str()),
        }
    }

    /// The namespaces that a tree uses and that need a prefix.
    ///
    /// # Errors
    ///
    /// `Memory` only.
    pub fn of_tree(alloc: Global, element: &'a Element) -> Result<Spaces<'a>, Memory>
        ensures { IfOk result (λ spaces. spaces ≡ spaces_of element.now) }
    {
        let mut spaces = Spaces::new(alloc);
        spaces.note_element(element)?;
        Ok(spaces)
    }
}
