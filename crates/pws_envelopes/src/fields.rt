//! The texts of a message.

ghost use Rattle.std.specs.Prelude.{◌≡◌, ◌++◌, IfOk, OnOk, IsTrue};
ghost use Rattle.std.specs.Option.{option_copied};
ghost use Rattle.pws_tree.specs.Lawful.{are_lawful};
ghost use Rattle.pws_tree.specs.Nodes.{nodes_of, node_then};
ghost use Rattle.pws_tree.specs.Trees.{NoNode};
ghost use Rattle.pws_envelopes.specs.Fields.{texts_within, first_element, first_named, field_of};

use pws_base::memory::Memory;
use pws_tree::trees::{Element, Node};
use pws_tree::xml_texts::XmlText;
use std::alloc::Global;

/// The first element among these.
fn first_element(nodes: &[Node]) -> Option<&Element>
    ensures { option_copied result ≡ first_element (nodes_of nodes.now) }
{
    for node in nodes {
        if let Node::Element(element) = node {
            return Some(element);
        }
    }
    None
}

/// The element, if it has this local name.
fn named<'a>(node: &'a Node, name: &[u8]) -> Option<&'a Element>
    ensures { option_copied result ≡ first_named name.now (node_then node.now NoNode) }
{
    match node {
        Node::Element(element) if element.name().local.as_str().as_bytes() == name => {
            Some(element)
        }
        _ => None,
    }
}

/// The first element of this local name among these.
fn first_named<'a>(nodes: &'a [Node], name: &[u8]) -> Option<&'a Element>
    ensures { option_copied result ≡ first_named name.now (nodes_of nodes.now) }
{
    for node in nodes {
        if let Some(element) = named(node, name) {
            return Some(element);
        }
    }
    None
}

/// Adds the texts within an element.
#[cycle(gathering)]
fn put_texts(text: &mut XmlText, element: &Element) -> Result<(), Memory>
    ensures { OnOk result (text.new ≡ text.old ++ texts_within element.now.children) }
{
    let _depth = element.depth(); // shows: the element is lawful
    for child in element.children() {
        put_child(text, child)?;
    }
    Ok(())
}

/// Adds a text, a name, or the texts within an element.
#[cycle(gathering)]
#[tactic(auto, using(crate::proofs::FieldTexts::text_xml, crate::proofs::FieldTexts::name_xml))]
fn put_child(text: &mut XmlText, child: &Node) -> Result<(), Memory>
    requires { IsTrue (are_lawful (node_then child.now NoNode)) }
    ensures { OnOk result (text.new ≡ text.old ++ texts_within (node_then child.now NoNode)) }
{
    match child {
        Node::Text(inner) => text.push_str(inner.as_str()),
        Node::Qualified(name) => text.push_str(name.local.as_str()),
        Node::Element(element) => put_texts(text, element),
    }
}

/// The texts within the first child of this local name of the first element of a body, joined; the empty text without
/// one.
///
/// # Errors
///
/// `Memory` only.
pub(crate) fn field_of(alloc: Global, body: &[Node], name: &[u8]) -> Result<XmlText, Memory>
    ensures { IfOk result (λ t. t ≡ field_of (nodes_of body.now) name.now) }
{
    let mut text = XmlText::new(alloc);
    if let Some(first) = first_element(body) {
        if let Some(child) = first_named(first.children(), name) {
            put_texts(&mut text, child)?;
        }
    }
    Ok(text)
}
