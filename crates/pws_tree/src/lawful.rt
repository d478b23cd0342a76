//! Which names, attributes and children a lawful element may have.

ghost use Rattle.std.specs.Prelude.{◌≡◌, ◌≤◌, not, ◌&&◌};
ghost use Rattle.std.specs.List.{list_all};
ghost use Rattle.pws_tree.specs.Names.{is_lawful_name, is_declaration, is_lawful_attr, ascend, is_value};
ghost use Rattle.pws_tree.specs.Lawful.{starts_with_text, has_qualified, is_one_qualified, fits_name, levels, is_lawful_tag, are_lawful};
ghost use Rattle.pws_tree.specs.Nodes.{node_then, nodes_of};
ghost use Rattle.pws_tree.specs.Trees.{NoNode};

use crate::characters::{is_local_name, is_xml_text};
use crate::spaces::{ENVELOPE_SPACE, XMLNS_SPACE};
use crate::texts::{Attr, Name};
use crate::trees::Node;

/// Whether a name may be that of an element, or a qualified name.
#[tactic(auto, unfolding(crate::specs::Names::xmlns_space))]
pub fn is_lawful_name(name: &Name) -> bool
    ensures { result ≡ is_lawful_name name.now }
{
    is_local_name(name.local.as_str())
        && is_xml_text(name.space.as_str())
        && name.space.as_str() != XMLNS_SPACE
}

/// Whether an attribute of this name would declare the default namespace.
#[tactic(auto, unfolding(crate::specs::Names::xmlns_word))]
fn is_declaration(name: &Name) -> bool
    ensures { result ≡ is_declaration name.now }
{
    name.space.as_str() == "" && name.local.as_str() == "xmlns"
}

/// Whether this may be an attribute.
fn is_lawful_attr(attr: &Attr) -> bool
    ensures { result ≡ is_lawful_attr attr.now }
{
    is_lawful_name(&attr.name) && !is_declaration(&attr.name) && is_xml_text(attr.value.as_str())
}

/// Whether all these may be attributes.
pub fn are_lawful_attrs(attrs: &[Attr]) -> bool
    ensures { result ≡ list_all is_lawful_attr attrs.now }
{
    attrs.iter().all(is_lawful_attr)
}

/// Whether the name of each attribute is below that of the next.
pub fn ascend(attrs: &[Attr]) -> bool
    ensures { result ≡ ascend attrs.now }
{
    let mut rest = attrs;
    while let [first, second, ..] = rest {
        if first.name >= second.name {
            return false;
        }
        rest = &rest[1..];
    }
    true
}

/// Whether this is the name of `Value` in the envelope namespace, whose content is a qualified name.
#[tactic(auto, unfolding(crate::specs::Names::envelope_space, crate::specs::Names::value_word))]
pub fn is_value(name: &Name) -> bool
    ensures { result ≡ is_value name.now }
{
    name.space.as_str() == ENVELOPE_SPACE && name.local.as_str() == "Value"
}

/// Whether content fits an element's name: a qualified name is the one child of `Value`, and of no other element.
pub fn fits_name(name: &Name, children: &[Node]) -> bool
    ensures { result ≡ fits_name name.now (nodes_of children.now) }
{
    if is_value(name) {
        is_one_qualified(children)
    } else {
        !has_qualified(children)
    }
}

fn is_one_qualified(children: &[Node]) -> bool
    ensures { result ≡ is_one_qualified (nodes_of children.now) }
{
    children.len() == 1 && has_qualified(children)
}

/// Whether a qualified name is among these children.
pub fn has_qualified(children: &[Node]) -> bool
    ensures { result ≡ has_qualified (nodes_of children.now) }
{
    for child in children {
        if let Node::Qualified(_) = child {
            return true;
        }
    }
    false
}

/// How many levels of elements a child has, at most 64.
fn child_levels(child: &Node) -> u8
    ensures value { result ≡ levels (node_then child.now NoNode) }
    ensures few { result ≤ 64 }
{
    match child {
        Node::Element(element) => element.depth(),
        Node::Text(_) | Node::Qualified(_) => 0,
    }
}

/// How many levels of elements these children have, at most 64.
pub fn levels(children: &[Node]) -> u8
    ensures value { result ≡ levels (nodes_of children.now) }
    ensures few { result ≤ 64 }
{
    let mut most = 0;
    for child in children {
        most = most.max(child_levels(child));
    }
    most
}

/// Whether an element may have this as its only child, but for the rule on qualified names.
fn is_lawful_child(child: &Node) -> bool
    ensures { result ≡ are_lawful (node_then child.now NoNode) }
{
    match child {
        Node::Element(element) => element.depth() > 0,
        Node::Text(text) => !text.is_empty() && is_xml_text(text.as_str()),
        Node::Qualified(name) => is_lawful_name(name),
    }
}

fn is_text(child: &Node) -> bool
    ensures { result ≡ starts_with_text (node_then child.now NoNode) }
{
    match child {
        Node::Element(_) | Node::Qualified(_) => false,
        Node::Text(_) => true,
    }
}

/// Whether a child may come next, behind a text or not.
fn may_follow(after_text: bool, child: &Node) -> bool
    ensures { result ≡ (not (after_text && starts_with_text (node_then child.now NoNode)) && are_lawful (node_then child.now NoNode)) }
{
    !(after_text && is_text(child)) && is_lawful_child(child)
}

/// Whether an element may have these children, but for the rule on qualified names and the depth.
pub fn are_lawful(children: &[Node]) -> bool
    ensures { result ≡ are_lawful (nodes_of children.now) }
{
    let mut after_text = false;
    for child in children {
        if !may_follow(after_text, child) {
            return false;
        }
        after_text = is_text(child);
    }
    true
}

/// Whether a tag may have this name and these attributes, and the children fit it and one another.
pub fn are_lawful_parts(name: &Name, attrs: &[Attr], children: &[Node]) -> bool
    ensures { result ≡ (is_lawful_tag name.now attrs.now (nodes_of children.now) && are_lawful (nodes_of children.now)) }
{
    is_lawful_tag(name, attrs, children) && are_lawful(children)
}

fn is_lawful_tag(name: &Name, attrs: &[Attr], children: &[Node]) -> bool
    ensures { result ≡ is_lawful_tag name.now attrs.now (nodes_of children.now) }
{
    is_lawful_name(name) && are_lawful_attrs(attrs) && ascend(attrs) && fits_name(name, children)
}
