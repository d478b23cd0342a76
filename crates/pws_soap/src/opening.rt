//! The envelope that a tree is.

ghost use Rattle.std.specs.Prelude.{◌≡◌, ◌++◌, IfOk, OnOk, option_map};
ghost use Rattle.std.specs.Option.{is_some, option_copied};
ghost use Rattle.std.specs.List.{list_all, find};
ghost use Rattle.std.specs.Str.{bytes_eq};
ghost use Rattle.pws_tree.specs.Names.{envelope_space};
ghost use Rattle.pws_tree.specs.Nodes.{node_then, nodes_of};
ghost use Rattle.pws_tree.specs.Trees.{NoNode};
ghost use Rattle.pws_soap.specs.Names.{envelope_word};
ghost use Rattle.pws_soap.specs.Blocks.{is_well_marked, is_not_understood};
ghost use Rattle.pws_soap.specs.Envelopes.{elements, are_texts_white, parts_of, blocks_then, in_order, understood, envelope_of, Answers};
ghost use Rattle.pws_soap.specs.Opened.{parts_seen, envelope_seen};

use crate::blocks::{is_not_understood, is_well_marked};
use crate::envelopes::Envelope;
use crate::errors::SoapError;
use crate::names::is_soap_name;
use crate::white::is_all_white;
use pws_base::lists::ExactCopy;
use pws_base::memory::Memory;
use pws_tree::spaces::ENVELOPE_SPACE;
use pws_tree::texts::Name;
use pws_tree::trees::{Element, Node};
use std::alloc::Global;

/// What a Header and a Body contain.
struct Parts {
    header: Vec<Node>,
    body: Vec<Node>,
}

/// The header blocks of an envelope, and what its body contains.
struct Opened {
    headers: Vec<Element>,
    body: Vec<Node>,
}

/// Adds a child to these elements, where it is one.
fn keep_element(found: &mut Vec<Element>, child: Node) -> Result<(), Memory>
    ensures { OnOk result (found.new.items ≡ found.old.items ++ elements (node_then child NoNode)) }
{
    match child {
        Node::Element(element) => found.push(element)?,
        Node::Text(_) | Node::Qualified(_) => {}
    }
    Ok(())
}

/// The elements among children.
fn elements_of(alloc: Global, children: Vec<Node>) -> Result<Vec<Element>, Memory>
    ensures { IfOk result (λ found. found.items ≡ elements (nodes_of children.items)) }
{
    let mut found = Vec::new(alloc);
    for child in children {
        keep_element(&mut found, child)?;
    }
    Ok(found)
}

/// Whether a child is no text, or a text of white space.
fn is_text_white(child: &Node) -> bool
    ensures { result ≡ are_texts_white (node_then child.now NoNode) }
{
    match child {
        Node::Text(text) => is_all_white(text.as_str()),
        Node::Element(_) | Node::Qualified(_) => true,
    }
}

/// Whether no text among children has other than white space.
fn are_texts_white(children: &[Node]) -> bool
    ensures { result ≡ are_texts_white (nodes_of children.now) }
{
    for child in children {
        if !is_text_white(child) {
            return false;
        }
    }
    true
}

/// Whether elements are an optional Header and one Body.
#[tactic(auto, unfolding(crate::specs::Names::header_word, crate::specs::Names::body_word))]
fn are_parts(elements: &[Element]) -> bool
    ensures { result ≡ is_some (parts_of elements.now) }
{
    match elements {
        [body] => is_soap_name("Body", body.name()),
        [header, body] => {
            is_soap_name("Header", header.name()) && is_soap_name("Body", body.name())
        }
        _ => false,
    }
}

/// What the Header and the Body contain, where these elements are an optional Header and one Body.
fn parts_of(alloc: Global, mut elements: Vec<Element>) -> Option<Parts>
    ensures { option_map parts_seen result ≡ parts_of elements.items }
{
    if !are_parts(elements.as_slice()) {
        return None;
    }
    let body = elements.pop()?.into_children();
    match elements.pop() {
        Some(header) => Some(Parts {
            header: header.into_children(),
            body,
        }),
        None => Some(Parts {
            header: Vec::new(alloc),
            body,
        }),
    }
}

/// Whether the marks of all these header blocks are truth values.
fn are_well_marked(headers: &[Element]) -> bool
    ensures { result ≡ list_all is_well_marked headers.now }
{
    headers.iter().all(is_well_marked)
}

/// The header blocks and the body, where the header blocks are in order.
fn blocks_of(alloc: Global, parts: Parts) -> Result<Option<Opened>, Memory>
    ensures { IfOk result (λ found. option_map envelope_seen found ≡ blocks_then (parts_seen parts)) }
{
    let Parts { header, body } = parts;
    if !are_texts_white(header.as_slice()) {
        return Ok(None);
    }
    let headers = elements_of(alloc, header)?;
    if !are_well_marked(headers.as_slice()) {
        return Ok(None);
    }
    Ok(Some(Opened { headers, body }))
}

/// What stands in an envelope with these children, where they are in order.
fn in_order(alloc: Global, children: Vec<Node>) -> Result<Option<Opened>, Memory>
    ensures { IfOk result (λ found. option_map envelope_seen found ≡ in_order (nodes_of children.items)) }
{
    if !are_texts_white(children.as_slice()) {
        return Ok(None);
    }
    match parts_of(alloc, elements_of(alloc, children)?) {
        Some(parts) => blocks_of(alloc, parts),
        None => Ok(None),
    }
}

/// The first of these header blocks that isn't understood.
fn first_not_understood(headers: &[Element]) -> Option<&Element>
    ensures { option_copied result ≡ find is_not_understood headers.now }
{
    headers.iter().find(|block| is_not_understood(block))
}

/// The envelope that a root is, whatever its name.
fn judged(alloc: Global, root: Element) -> Result<Envelope, SoapError>
    ensures { Answers (understood (in_order root.children)) result }
{
    // shows: an element is lawful
    let _levels = root.depth();
    let Some(Opened { headers, body }) = in_order(alloc, root.into_children())? else {
        return Err(SoapError::Order);
    };
    if let Some(block) = first_not_understood(headers.as_slice()) {
        return Err(SoapError::MustUnderstand(block.name().copy(alloc)?));
    }
    Ok(Envelope::of_lawful(headers, body))
}

/// Whether the local part of a name is `Envelope`.
#[tactic(auto, unfolding(crate::specs::Names::envelope_word))]
fn is_envelope_word(name: &Name) -> bool
    ensures { result ≡ bytes_eq name.now.local envelope_word }
{
    name.local.as_str() == "Envelope"
}

/// Whether a name is in the envelope namespace.
#[tactic(auto, unfolding(pws_tree::specs::Names::envelope_space))]
fn is_envelope_space(name: &Name) -> bool
    ensures { result ≡ bytes_eq name.now.space envelope_space }
{
    name.space.as_str() == ENVELOPE_SPACE
}

/// The envelope that a tree is: SOAP 1.2 Part 1, sections 5.1 to 5.3. The attributes of Envelope, Header and Body, and the
/// white space between their children, aren't kept.
///
/// # Errors
///
/// The first of these that applies, besides `Memory`: `NotEnvelope` where the root's local name isn't `Envelope`;
/// `Version` where its namespace is another; `Order` where its elements aren't an optional Header and one Body, in this
/// order, or a text that isn't white space stands in the Envelope or the Header, or the `mustUnderstand` of a header block
/// isn't `true`, `false`, `1` or `0`; `MustUnderstand` with the name of the first header block that is for this node, must
/// be understood, and isn't an addressing header.
pub fn envelope_of(alloc: Global, root: Element) -> Result<Envelope, SoapError>
    ensures { Answers (envelope_of root) result }
{
    if !is_envelope_word(root.name()) {
        return Err(SoapError::NotEnvelope);
    }
    if !is_envelope_space(root.name()) {
        return Err(SoapError::Version);
    }
    judged(alloc, root)
}
