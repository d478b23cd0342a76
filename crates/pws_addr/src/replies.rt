//! The addressing of a reply.

ghost use Rattle.std.specs.Prelude.{◌≡◌, map, IfOk};
ghost use Rattle.std.specs.Option.{option_to_list};
ghost use Rattle.pws_addr.specs.Headers.{anonymous, reply_relation};
ghost use Rattle.pws_addr.specs.Replies.{reply_action, in_reply, reply_of};

use crate::headers::{ANONYMOUS, Addressing, REPLY_RELATION, Relation};
use pws_base::lists::{ExactCopy, Sequence};
use pws_base::memory::Memory;
use pws_tree::xml_texts::XmlText;
use std::alloc::Global;

/// The anonymous address.
#[tactic(auto, unfolding(crate::specs::Headers::anonymous))]
pub(crate) fn anonymous(alloc: Global) -> Result<XmlText, Memory>
    ensures { IfOk result (λ t. t ≡ anonymous) }
{
    XmlText::from_str(alloc, ANONYMOUS)
}

/// The relation of a reply to the message of this identifier.
#[tactic(auto, unfolding(crate::specs::Headers::reply_relation))]
fn in_reply(alloc: Global, id: &XmlText) -> Result<Relation, Memory>
    ensures { IfOk result (λ r. r ≡ in_reply id.now) }
{
    Ok(Relation {
        kind: XmlText::from_str(alloc, REPLY_RELATION)?,
        id: id.copy(alloc)?,
    })
}

/// The relations of a reply to the message of this identifier, where it has one.
fn relations(alloc: Global, id: &Option<XmlText>) -> Result<Sequence<Relation>, Memory>
    ensures { IfOk result (λ relations. relations ≡ map in_reply (option_to_list id.now)) }
{
    let mut relations = Sequence::new(alloc);
    if let Some(id) = id {
        relations.push(in_reply(alloc, id)?)?;
    }
    Ok(relations)
}

/// The action of a reply.
#[tactic(auto, unfolding(crate::specs::Replies::reply_action))]
pub(crate) fn reply_action(alloc: Global) -> Result<XmlText, Memory>
    ensures { IfOk result (λ t. t ≡ reply_action) }
{
    XmlText::from_str(alloc, "urn:pws:reply")
}

/// The addressing of the reply to a message with this addressing, still without an identifier: it goes to the address to
/// which replies go, or without one to the anonymous address, and relates to the message's identifier, where it has one
/// (WS-Addressing 1.0 Core, section 3.4).
///
/// # Errors
///
/// `Memory` only.
pub fn reply_of(alloc: Global, addressing: &Addressing) -> Result<Addressing, Memory>
    ensures { IfOk result (λ a. a ≡ reply_of addressing.now) }
{
    let to = match &addressing.reply_to {
        Some(address) => address.copy(alloc)?,
        None => anonymous(alloc)?,
    };
    Ok(Addressing {
        to,
        action: reply_action(alloc)?,
        message_id: None,
        relates_to: relations(alloc, &addressing.message_id)?,
        reply_to: None,
        from: None,
        fault_to: None,
    })
}
