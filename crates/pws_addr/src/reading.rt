//! Reading the addressing of an envelope.

ghost use Rattle.std.specs.Prelude.{◌≡◌, ◌++◌, filter, find, unwrap_or, IfOk, OnOk, IfSome, IsTrue};
ghost use Rattle.std.specs.List.{filter_map, list_any};
ghost use Rattle.std.specs.Option.{option_copied, option_to_list, ForSome};
ghost use Rattle.pws_tree.specs.Characters.{is_xml_text};
ghost use Rattle.pws_tree.specs.Nodes.{node_then, nodes_of};
ghost use Rattle.pws_tree.specs.Trees.{NoNode};
ghost use Rattle.pws_soap.specs.Envelopes.{elements};
ghost use Rattle.pws_addr.specs.Reading.{is_block, some_text, only_text, text_said, is_address, only_of, address_said, said, is_relationship, kind_said, relation_said, first_said, all_said, single_headers, all_headers, is_twice, is_invalid, valid, required, addressing_of, Answers};

use crate::headers::{
    ALL_HEADERS, ANONYMOUS, Addressing, Header, REPLY_RELATION, Relation, SINGLE_HEADERS,
};
use pws_base::lists::{ExactCopy, Sequence};
use pws_base::memory::Memory;
use pws_soap::blocks::is_for_node;
use pws_soap::envelopes::Envelope;
use pws_soap::names::ADDRESSING_SPACE;
use pws_soap::white::trim;
use pws_tree::texts::{Attr, Name, Text};
use pws_tree::trees::{Element, Node};
use pws_tree::xml_texts::XmlText;
use std::alloc::Global;
use thiserror::Error;

/// Why an envelope has no readable addressing.
#[derive(Debug, Drop, PartialEq, Error)]
pub enum AddrError {
    /// The header of this name stands twice.
    #[error("an addressing header stands twice")]
    Cardinality(Name),
    /// There is no Action.
    #[error("no action")]
    Required,
    /// A header of this name doesn't say what it is to say.
    #[error("an addressing header is invalid")]
    Invalid(Name),
    /// There was no memory.
    #[error("out of memory")]
    Memory,
}

impl ExactCopy for AddrError {
    fn copy(&self, alloc: Global) -> Result<AddrError, Memory> {
        match self {
            AddrError::Cardinality(name) => Ok(AddrError::Cardinality(name.copy(alloc)?)),
            AddrError::Required => Ok(AddrError::Required),
            AddrError::Invalid(name) => Ok(AddrError::Invalid(name.copy(alloc)?)),
            AddrError::Memory => Ok(AddrError::Memory),
        }
    }
}

impl From<Memory> for AddrError {
    ghost use Rattle.std.specs.Prelude.{◌≡◌};
    ghost use Rattle.pws_addr.specs.declared.reading.AddrError.TheVariants as addr_error;

    ghost from_gives = { λ _ e. e ≡ addr_error.Memory };

    fn from(_error: Memory) -> AddrError {
        AddrError::Memory
    }
}

/// Whether a header block is this header, for this node.
#[tactic(auto, unfolding(pws_soap::specs::Names::addressing_space))]
fn is_block(header: Header, block: &Element) -> bool
    ensures { result ≡ is_block header block.now }
{
    is_for_node(block)
        && block.name().space.as_str() == ADDRESSING_SPACE
        && block.name().local.as_str() == header.local()
}

/// The text, where there is a character.
fn some_text(text: &str) -> Option<&str>
    ensures value { option_copied result ≡ some_text text.now }
    ensures lawful { IsTrue (is_xml_text text.now) → IfSome result (λ some. IsTrue (is_xml_text some.now)) }
{
    if text.is_empty() { None } else { Some(text) }
}

/// The text that is the only child.
fn only_text(children: &[Node]) -> Option<&Text>
    ensures { option_copied result ≡ only_text (nodes_of children.now) }
{
    if children.len() != 1 {
        return None;
    }
    match &children[0] {
        Node::Text(text) => Some(text),
        Node::Element(_) | Node::Qualified(_) => None,
    }
}

/// What an element says whose content is one text with more than white space: that text without the white space round it.
fn text_said(element: &Element) -> Option<&str>
    ensures value { option_copied result ≡ text_said element.now.children }
    ensures lawful { IfSome result (λ text. IsTrue (is_xml_text text.now)) }
{
    // shows: an element is lawful
    let _lawful = element.depth();
    let text = only_text(element.children())?;
    some_text(trim(text.as_str()))
}

/// Whether this is an `Address`.
#[tactic(auto, unfolding(pws_soap::specs::Names::addressing_space, crate::specs::Blocks::address_word))]
fn is_address(element: &Element) -> bool
    ensures { result ≡ is_address element.now }
{
    element.name().space.as_str() == ADDRESSING_SPACE && element.name().local.as_str() == "Address"
}

/// The child itself, where it is an `Address`.
fn address_in(child: &Node) -> Option<&Element>
    ensures { option_to_list (option_copied result) ≡ filter is_address (elements (node_then child.now NoNode)) }
{
    match child {
        Node::Element(element) => if is_address(element) {
            Some(element)
        } else {
            None
        },
        Node::Text(_) | Node::Qualified(_) => None,
    }
}

/// The one `Address` among children, None where there is none or more.
fn only_address(children: &[Node]) -> Option<&Element>
    ensures { option_copied result ≡ only_of (filter is_address (elements (nodes_of children.now))) }
{
    let mut found = None;
    for child in children {
        if let Some(address) = address_in(child) {
            if found.is_some() {
                return None;
            }
            found = Some(address);
        }
    }
    found
}

/// What the one `Address` in an element says.
fn address_said(block: &Element) -> Option<&str>
    ensures value { option_copied result ≡ address_said block.now.children }
    ensures lawful { IfSome result (λ text. IsTrue (is_xml_text text.now)) }
{
    text_said(only_address(block.children())?)
}

/// What a header block says.
fn said(header: Header, block: &Element) -> Option<&str>
    ensures value { option_copied result ≡ said header block.now }
    ensures lawful { IfSome result (λ text. IsTrue (is_xml_text text.now)) }
{
    if header.holds_address() {
        address_said(block)
    } else {
        text_said(block)
    }
}

/// The first of these headers.
fn first_block(header: Header, headers: &[Element]) -> Option<&Element>
    ensures { option_copied result ≡ find (is_block header) headers.now }
{
    headers.iter().find(|block| is_block(header, block))
}

/// What the first of these headers says.
fn first_said(header: Header, headers: &[Element]) -> Option<&str>
    ensures value { option_copied result ≡ first_said header headers.now }
    ensures lawful { IfSome result (λ text. IsTrue (is_xml_text text.now)) }
{
    match first_block(header, headers) {
        Some(block) => said(header, block),
        None => None,
    }
}

/// Whether an attribute is the relation of a `RelatesTo`.
#[tactic(auto, unfolding(crate::specs::Blocks::relationship_word))]
fn is_relationship(attr: &Attr) -> bool
    ensures { result ≡ is_relationship attr.now }
{
    attr.name.space.as_str() == "" && attr.name.local.as_str() == "RelationshipType"
}

/// The attribute that tells the relation of a `RelatesTo`.
fn relationship(attrs: &[Attr]) -> Option<&Attr>
    ensures { option_copied result ≡ find is_relationship attrs.now }
{
    attrs.iter().find(|attr| is_relationship(attr))
}

/// The relation that a `RelatesTo` tells.
#[tactic(auto, unfolding(crate::specs::Headers::reply_relation))]
fn kind_said(block: &Element) -> &str
    ensures value { result.now ≡ kind_said block.now.attrs }
    ensures lawful { IsTrue (is_xml_text result.now) }
{
    // shows: an element is lawful
    let _lawful = block.depth();
    match relationship(block.attrs()) {
        Some(attr) => attr.value.as_str(),
        None => REPLY_RELATION,
    }
}

/// What a `RelatesTo` says.
fn relation_said(alloc: Global, block: &Element) -> Result<Option<Relation>, Memory>
    ensures { IfOk result (λ relation. relation ≡ relation_said block.now) }
{
    match said(Header::RelatesTo, block) {
        Some(id) => Ok(Some(Relation {
            kind: XmlText::from_str(alloc, kind_said(block))?,
            id: XmlText::from_str(alloc, id)?,
        })),
        None => Ok(None),
    }
}

/// Adds a relation, where there is one.
fn push_relation(
    relations: &mut Sequence<Relation>,
    relation: Option<Relation>,
) -> Result<(), Memory>
    ensures { OnOk result (relations.new ≡ relations.old ++ option_to_list relation) }
{
    if let Some(relation) = relation {
        relations.push(relation)?;
    }
    Ok(())
}

/// What each `RelatesTo` says.
fn relations_said(alloc: Global, headers: &[Element]) -> Result<Sequence<Relation>, Memory>
    ensures { IfOk result (λ relations. relations ≡ filter_map relation_said (filter (is_block Header.RelatesTo) headers.now)) }
{
    let mut relations = Sequence::new(alloc);
    for block in headers {
        if is_block(Header::RelatesTo, block) {
            push_relation(&mut relations, relation_said(alloc, block)?)?;
        }
    }
    Ok(relations)
}

/// Whether a header stands twice.
fn is_twice(header: Header, headers: &[Element]) -> bool
    ensures { result ≡ is_twice headers.now header }
{
    let mut seen = false;
    for block in headers {
        if is_block(header, block) {
            if seen {
                return true;
            }
            seen = true;
        }
    }
    false
}

/// Whether one of these headers says nothing.
fn is_invalid(header: Header, headers: &[Element]) -> bool
    ensures { result ≡ is_invalid headers.now header }
{
    headers.iter().any(|block| is_block(header, block) && said(header, block).is_none())
}

/// The first header that stands twice.
fn first_twice(headers: &[Element]) -> Option<Header>
    ensures { result ≡ find (is_twice headers.now) single_headers }
{
    SINGLE_HEADERS
        .iter()
        .copied()
        .find(|header| is_twice(*header, headers))
}

/// The first header that says nothing.
fn first_invalid(headers: &[Element]) -> Option<Header>
    ensures { result ≡ find (is_invalid headers.now) all_headers }
{
    ALL_HEADERS
        .iter()
        .copied()
        .find(|header| is_invalid(*header, headers))
}

/// Whether there is an Action.
fn has_action(headers: &[Element]) -> bool
    ensures { result ≡ list_any (is_block Header.Action) headers.now }
{
    headers.iter().any(|block| is_block(Header::Action, block))
}

/// A copy of what a header says.
fn text_of(alloc: Global, said: Option<&str>) -> Result<Option<XmlText>, Memory>
    requires { ForSome said (λ text. IsTrue (is_xml_text text.now)) }
    ensures { IfOk result (λ text. text ≡ option_copied said.entry) }
{
    match said {
        Some(text) => Ok(Some(XmlText::from_str(alloc, text)?)),
        None => Ok(None),
    }
}

/// What a header says, or else this text.
fn text_or<'a>(said: Option<&'a str>, default: &'a str) -> &'a str
    requires said { ForSome said (λ text. IsTrue (is_xml_text text.now)) }
    requires default { IsTrue (is_xml_text default.now) }
    ensures value { result.now ≡ unwrap_or (option_copied said.entry) default.now }
    ensures lawful { IsTrue (is_xml_text result.now) }
{
    match said {
        Some(text) => text,
        None => default,
    }
}

/// What these headers say, of which none stands twice and none says nothing.
#[tactic(auto, unfolding(crate::specs::Headers::anonymous))]
fn all_said(alloc: Global, headers: &[Element]) -> Result<Addressing, Memory>
    ensures { IfOk result (λ a. a ≡ all_said headers.now) }
{
    let to = text_or(first_said(Header::To, headers), ANONYMOUS);
    let action = text_or(first_said(Header::Action, headers), "");
    Ok(Addressing {
        to: XmlText::from_str(alloc, to)?,
        action: XmlText::from_str(alloc, action)?,
        message_id: text_of(alloc, first_said(Header::MessageId, headers))?,
        relates_to: relations_said(alloc, headers)?,
        reply_to: text_of(alloc, first_said(Header::ReplyTo, headers))?,
        from: text_of(alloc, first_said(Header::From, headers))?,
        fault_to: text_of(alloc, first_said(Header::FaultTo, headers))?,
    })
}

/// The addressing of headers of which none stands twice, with an Action among them.
fn valid(alloc: Global, headers: &[Element]) -> Result<Addressing, AddrError>
    ensures { Answers (valid headers.now (find (is_invalid headers.now) all_headers)) result }
{
    match first_invalid(headers) {
        Some(header) => Err(AddrError::Invalid(header.name(alloc)?)),
        None => Ok(all_said(alloc, headers)?),
    }
}

/// The addressing of headers of which none stands twice.
fn required(alloc: Global, headers: &[Element]) -> Result<Addressing, AddrError>
    ensures { Answers (required headers.now) result }
{
    if has_action(headers) {
        valid(alloc, headers)
    } else {
        Err(AddrError::Required)
    }
}

/// The addressing of an envelope: WS-Addressing 1.0 Core, section 3, and SOAP Binding, section 3. The header blocks for this
/// node alone count, and the white space round a text doesn't. Where To is absent, the address is the anonymous one.
///
/// # Errors
///
/// The first of these that applies, besides `Memory`: `Cardinality` with the first of To, From, ReplyTo, FaultTo, Action and
/// MessageID that stands twice; `Required` where there is no Action; `Invalid` with the first of these names and RelatesTo of
/// which a block isn't one text with more than white space, or for From, ReplyTo and FaultTo has not one child `Address`
/// with such a text.
#[tactic(auto, unfolding(crate::specs::Reading::addressing_of))]
pub fn read_addressing(alloc: Global, envelope: &Envelope) -> Result<Addressing, AddrError>
    ensures { Answers (addressing_of envelope.now.headers) result }
{
    let headers = envelope.headers();
    match first_twice(headers) {
        Some(header) => Err(AddrError::Cardinality(header.name(alloc)?)),
        None => required(alloc, headers),
    }
}
