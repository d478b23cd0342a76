//! Elements and what they contain.

use crate::lawful::{are_lawful_parts, levels};
use crate::texts::{Attr, Name, Text, copy_attrs};
use pws_base::lists::ExactCopy;
use pws_base::memory::Memory;
use std::alloc::Global;
use std::marker::Model;
use thiserror::Error;

/// An element, which contracts see as a `Tree`.
///
/// It is lawful: its names are, no two attributes have one name, no text is empty or stands beside another, all
/// characters are XML characters, it is at most 64 levels deep, and a qualified name is the one child of each
/// `Value` in the envelope namespace and of no other element. Its attributes are kept in the order of their names.
#[cycle(tree)]
#[derive(Drop)]
pub struct Element {
    name: Name,
    /// In the order of their names.
    attrs: Vec<Attr>,
    children: Vec<Node>,
    /// The levels of the tree, 1 without child elements, so that a parent's are known at once.
    depth: u8,
}

/// What an element contains.
#[cycle(tree)]
#[derive(Drop)]
pub enum Node {
    Element(Element),
    Text(Text),
    Qualified(Name),
}

impl Model for Element {
    ghost use Rattle.pws_tree.specs.Trees.{Tree, coded_tree};

    ghost Value = { Tree };

    ghost coded = { coded_tree };

    ghost use Rattle.std.specs.Prelude.{◌≡◌, IsTrue};
    ghost use Rattle.pws_tree.specs.Nodes.{nodes_of, tree_size};
    ghost use Rattle.pws_tree.specs.Lawful.{is_lawful, tree_depth};

    ghost view = { λ a. record { name = a.name; attrs = a.attrs.items; children = nodes_of a.children.items } };

    ghost invariant = { λ a. IsTrue (is_lawful (record { name = a.name; attrs = a.attrs.items; children = nodes_of a.children.items })) × (a.depth ≡ tree_depth (record { name = a.name; attrs = a.attrs.items; children = nodes_of a.children.items })) };

    ghost size = { tree_size };

    ghost use Rattle.std.proofs.Common.{arith};
    ghost use Rattle.pws_tree.specs.TreeFalls.{size_falls};

    ghost size_decreases = { λ a h. omega (arith, size_falls a.children.items) };
}

/// The parts make no lawful element.
#[derive(Clone, Copy, Debug, PartialEq, Eq, Error)]
#[error("no lawful element has these parts")]
pub struct BadTree;

ghost use Rattle.std.specs.Prelude.{◌≡◌, ◌≤◌, ◌↔◌, IsTrue};
ghost use Rattle.pws_tree.specs.Lawful.{is_lawful, tree_depth};
ghost use Rattle.pws_tree.specs.Nodes.{nodes_of};
ghost use Rattle.pws_tree.specs.Made.{Makes, IsMadeOf, CanMake};

impl Element {
    /// The element of these parts; the order of the attributes doesn't count.
    ///
    /// # Errors
    ///
    /// `BadTree` exactly where no lawful element has these parts.
    pub fn make(name: Name, mut attrs: Vec<Attr>, children: Vec<Node>) -> Result<Element, BadTree>
        ensures { Makes name attrs.items children.items result }
    {
        attrs.sort_unstable();
        let depth = levels(children.as_slice()) + 1;
        if depth > 64 {
            return Err(BadTree);
        }
        if !are_lawful_parts(&name, attrs.as_slice(), children.as_slice()) {
            return Err(BadTree);
        }
        Ok(Element {
            name,
            attrs,
            children,
            depth,
        })
    }

    /// The element of these parts, which make a lawful one, with the attributes in the order of their names.
    pub fn of_lawful(name: Name, attrs: Vec<Attr>, children: Vec<Node>) -> Element
        requires { IsTrue (is_lawful (record { name = name; attrs = attrs.items; children = nodes_of children.items })) }
        ensures { result ≡ record { name = name; attrs = attrs.items; children = nodes_of children.items } }
    {
        let depth = levels(children.as_slice()) + 1;
        Element {
            name,
            attrs,
            children,
            depth,
        }
    }

    /// The element of these parts, of which there is a lawful one: they aren't looked at, as `make` does. The order of the
    /// attributes doesn't count.
    pub fn of_parts(name: Name, attrs: Vec<Attr>, children: Vec<Node>) -> Element
        requires { CanMake name attrs.items children.items }
        ensures made { IsMadeOf name attrs.items children.items result }
        ensures lawful { IsTrue (is_lawful result) }
    {
        let mut sorted = attrs;
        sorted.sort_unstable();
        Element::of_lawful(name, sorted, children)
    }

    /// Its name.
    pub fn name(&self) -> &Name
        ensures { result.now ≡ self.now.name }
    {
        &self.name
    }

    /// Its attributes, rising by namespace and then by local name, both by bytes.
    pub fn attrs(&self) -> &[Attr]
        ensures { result.now ≡ self.now.attrs }
    {
        self.attrs.as_slice()
    }

    /// Its children.
    pub fn children(&self) -> &[Node]
        ensures { nodes_of result.now ≡ self.now.children }
    {
        self.children.as_slice()
    }

    /// Its children, which aren't copied.
    pub fn into_children(self) -> Vec<Node>
        ensures { nodes_of result.items ≡ self.children }
    {
        let Element { children, .. } = self;
        children
    }

    /// How many levels of elements it has, itself included: 1 to 64.
    pub fn depth(&self) -> u8
        ensures value { result ≡ tree_depth self.now }
        ensures few { result ≤ 64 }
        ensures lawful { IsTrue (is_lawful self.now) }
    {
        self.depth
    }
}

impl ExactCopy for Element {
    #[cycle(copying)]
    fn copy(&self, alloc: Global) -> Result<Element, Memory> {
        let mut children = Vec::new(alloc);
        for child in &self.children {
            children.push(child.copy(alloc)?)?;
        }
        Ok(Element {
            name: self.name.copy(alloc)?,
            attrs: copy_attrs(alloc, self.attrs.as_slice())?,
            children,
            depth: self.depth,
        })
    }
}

impl ExactCopy for Node {
    #[cycle(copying)]
    fn copy(&self, alloc: Global) -> Result<Node, Memory> {
        match self {
            Node::Element(element) => Ok(Node::Element(element.copy(alloc)?)),
            Node::Text(text) => Ok(Node::Text(text.copy(alloc)?)),
            Node::Qualified(name) => Ok(Node::Qualified(name.copy(alloc)?)),
        }
    }
}

/// Whether two lists of attributes are the same.
fn same_attrs(attrs: &[Attr], others: &[Attr]) -> bool
    ensures { IsTrue result ↔ (attrs.now ≡ others.now) }
{
    attrs == others
}

impl Element {
    /// Whether the names and the attributes of two elements are the same.
    fn same_tag(&self, other: &Element) -> bool
        ensures { IsTrue result ↔ ((self.now.name ≡ other.now.name) × (self.now.attrs ≡ other.now.attrs)) }
    {
        self.name == other.name && same_attrs(self.attrs.as_slice(), other.attrs.as_slice())
    }

    /// Whether two elements are the same tree; the order in which attributes were given doesn't count.
    #[cycle(comparing)]
    pub fn same(&self, other: &Element) -> bool
        ensures { IsTrue result ↔ (self.now ≡ other.now) }
    {
        if !self.same_tag(other) {
            return false;
        }
        let children = self.children.as_slice();
        let others = other.children.as_slice();
        if children.len() != others.len() {
            return false;
        }
        for i in 0..children.len() {
            if !children[i].same(&others[i]) {
                return false;
            }
        }
        true
    }
}

impl Node {
    /// Whether two children are the same.
    #[cycle(comparing)]
    pub fn same(&self, other: &Node) -> bool
        ensures { IsTrue result ↔ (self.now ≡ other.now) }
    {
        match (self, other) {
            (Node::Element(element), Node::Element(another)) => element.same(another),
            (Node::Text(text), Node::Text(another)) => *text == *another,
            (Node::Qualified(name), Node::Qualified(another)) => *name == *another,
            _ => false,
        }
    }
}
