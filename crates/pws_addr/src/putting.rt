//! Writing an addressing into an envelope.

ghost use Rattle.std.specs.Prelude.{◌≡◌, ◌++◌, [], map, IfOk, OnOk, OnErr, IsTrue};
ghost use Rattle.std.specs.Option.{option_to_list};
ghost use Rattle.std.specs.List.{list_all};
ghost use Rattle.pws_tree.specs.Names.{is_lawful_attr, ascend};
ghost use Rattle.pws_tree.specs.Nodes.{nodes_of};
ghost use Rattle.pws_soap.specs.Faults.{text_nodes};
ghost use Rattle.pws_soap.specs.Made.{with_headers};
ghost use Rattle.pws_addr.specs.Blocks.{address_tree, content_of, block_of, plain_block, relationship, kind_attrs, relation_block, blocks_of};

use crate::headers::{Addressing, Header, REPLY_RELATION, Relation, addressing_name};
use pws_base::memory::Memory;
use pws_soap::envelopes::Envelope;
use pws_tree::texts::{Attr, Name, Text};
use pws_tree::trees::{Element, Node};
use pws_tree::xml_texts::XmlText;
use std::alloc::Global;

/// A text as the content of an element, which has no child where there is no character.
///
/// # Errors
///
/// `Memory` only.
pub(crate) fn text_nodes(alloc: Global, text: &str) -> Result<Vec<Node>, Memory>
    ensures { IfOk result (λ nodes. nodes_of nodes.items ≡ text_nodes text.now) }
{
    if text.is_empty() {
        return Ok(Vec::new(alloc));
    }
    let text = Text::from_str(alloc, text)?;
    Ok(vec![in alloc; Node::Text(text)]?)
}

/// An `Address` with this text.
#[tactic(auto, unfolding(crate::specs::Blocks::address_word))]
fn address_element(alloc: Global, text: &XmlText) -> Result<Element, Memory>
    ensures { IfOk result (λ t. t ≡ address_tree text.now) }
{
    let name = addressing_name(alloc, "Address")?;
    let children = text_nodes(alloc, text.as_str())?;
    Ok(Element::of_lawful(name, Vec::new(alloc), children))
}

/// The content of a header that says this text.
fn content_of(alloc: Global, header: Header, text: &XmlText) -> Result<Vec<Node>, Memory>
    ensures { IfOk result (λ nodes. nodes_of nodes.items ≡ content_of header text.now) }
{
    if header.holds_address() {
        let address = address_element(alloc, text)?;
        Ok(vec![in alloc; Node::Element(address)]?)
    } else {
        text_nodes(alloc, text.as_str())
    }
}

/// The header block that says this text.
fn block_of(
    alloc: Global,
    header: Header,
    attrs: Vec<Attr>,
    text: &XmlText,
) -> Result<Element, Memory>
    requires lawful { IsTrue (list_all is_lawful_attr attrs.items) }
    requires sorted { IsTrue (ascend attrs.items) }
    ensures { IfOk result (λ t. t ≡ block_of header attrs.items text.now) }
{
    // shows: the text has XML characters alone
    let _lawful = text.as_str();
    let name = header.name(alloc)?;
    let children = content_of(alloc, header, text)?;
    Ok(Element::of_lawful(name, attrs, children))
}

/// The header block that says this text, without attributes.
fn plain_block(alloc: Global, header: Header, text: &XmlText) -> Result<Element, Memory>
    ensures { IfOk result (λ t. t ≡ plain_block header text.now) }
{
    block_of(alloc, header, Vec::new(alloc), text)
}

/// The attribute that tells a relation.
#[tactic(auto, unfolding(crate::specs::Blocks::relationship_word))]
fn relationship(alloc: Global, kind: &XmlText) -> Result<Attr, Memory>
    ensures { IfOk result (λ a. a ≡ relationship kind.now) }
{
    Ok(Attr {
        name: Name {
            space: Text::new(alloc),
            local: Text::from_str(alloc, "RelationshipType")?,
        },
        value: Text::from_str(alloc, kind.as_str())?,
    })
}

/// The attributes of a `RelatesTo` of this relation.
#[tactic(auto, unfolding(crate::specs::Headers::reply_relation))]
fn kind_attrs(alloc: Global, kind: &XmlText) -> Result<Vec<Attr>, Memory>
    ensures value { IfOk result (λ attrs. attrs.items ≡ kind_attrs kind.now) }
    ensures lawful { IfOk result (λ attrs. IsTrue (list_all is_lawful_attr attrs.items)) }
    ensures sorted { IfOk result (λ attrs. IsTrue (ascend attrs.items)) }
{
    if kind.as_str() == REPLY_RELATION {
        return Ok(Vec::new(alloc));
    }
    let attr = relationship(alloc, kind)?;
    Ok(vec![in alloc; attr]?)
}

/// The header block of a relation.
fn relation_block(alloc: Global, relation: &Relation) -> Result<Element, Memory>
    ensures { IfOk result (λ t. t ≡ relation_block relation.now) }
{
    let attrs = kind_attrs(alloc, &relation.kind)?;
    block_of(alloc, Header::RelatesTo, attrs, &relation.id)
}

/// Adds the header block of a text, where there is one.
fn push_text(
    alloc: Global,
    blocks: &mut Vec<Element>,
    header: Header,
    text: &Option<XmlText>,
) -> Result<(), Memory>
    ensures { OnOk result (blocks.new.items ≡ blocks.old.items ++ map (plain_block header) (option_to_list text.now)) }
{
    if let Some(text) = text {
        blocks.push(plain_block(alloc, header, text)?)?;
    }
    Ok(())
}

/// Adds the header blocks of relations.
fn push_relations(
    alloc: Global,
    blocks: &mut Vec<Element>,
    relations: &[Relation],
) -> Result<(), Memory>
    ensures { OnOk result (blocks.new.items ≡ blocks.old.items ++ map relation_block relations.now) }
{
    for relation in relations {
        blocks.push(relation_block(alloc, relation)?)?;
    }
    Ok(())
}

/// The header blocks of an addressing.
fn blocks_of(alloc: Global, addressing: &Addressing) -> Result<Vec<Element>, Memory>
    ensures { IfOk result (λ blocks. blocks.items ≡ blocks_of addressing.now) }
{
    let to = plain_block(alloc, Header::To, &addressing.to)?;
    let action = plain_block(alloc, Header::Action, &addressing.action)?;
    let mut blocks = vec![in alloc; to, action]?;
    push_text(
        alloc,
        &mut blocks,
        Header::MessageId,
        &addressing.message_id,
    )?;
    push_relations(alloc, &mut blocks, addressing.relates_to.as_slice())?;
    push_text(alloc, &mut blocks, Header::ReplyTo, &addressing.reply_to)?;
    push_text(alloc, &mut blocks, Header::From, &addressing.from)?;
    push_text(alloc, &mut blocks, Header::FaultTo, &addressing.fault_to)?;
    Ok(blocks)
}

/// Adds the header blocks of an addressing behind those that an envelope has: To, Action, MessageID, RelatesTo, ReplyTo,
/// From and FaultTo in this order, those that are there. The type of a relation is written only where it isn't that of a
/// reply.
///
/// # Errors
///
/// `Memory` only; nothing is added then.
pub fn put_addressing(
    alloc: Global,
    envelope: &mut Envelope,
    addressing: &Addressing,
) -> Result<(), Memory>
    ensures ok { OnOk result (envelope.new ≡ with_headers envelope.old (blocks_of addressing.now)) }
    ensures err { OnErr result (envelope.new ≡ envelope.old) }
{
    let blocks = blocks_of(alloc, addressing)?;
    envelope.append_headers(blocks)
}
