//! The addressing of a message, and the names of its headers (WS-Addressing 1.0 Core, section 3).

ghost use Rattle.std.specs.Prelude.{◌≡◌, IfOk};
ghost use Rattle.pws_addr.specs.Blocks.{holds_address};
ghost use Rattle.pws_addr.specs.Headers.{addressing_name, header_local, header_name};

use pws_base::lists::{ExactCopy, Sequence};
use pws_base::memory::Memory;
use pws_soap::names::ADDRESSING_SPACE;
use pws_tree::texts::{Name, Text};
use pws_tree::xml_texts::XmlText;
use std::alloc::Global;

/// The address that names the sender's own connection.
pub const ANONYMOUS: &str = "http://www.w3.org/2005/08/addressing/anonymous";

/// The relation of a reply, which holds where no other is told.
pub const REPLY_RELATION: &str = "http://www.w3.org/2005/08/addressing/reply";

/// An addressing header.
#[derive(Clone, Copy, Debug, PartialEq, Eq)]
pub enum Header {
    To,
    From,
    ReplyTo,
    FaultTo,
    Action,
    MessageId,
    RelatesTo,
}

impl Header {
    /// The local part of its name.
    #[tactic(auto, unfolding(crate::specs::Headers::header_local))]
    pub fn local(self) -> &'static str
        ensures { result.now ≡ header_local self }
    {
        match self {
            Header::To => "To",
            Header::From => "From",
            Header::ReplyTo => "ReplyTo",
            Header::FaultTo => "FaultTo",
            Header::Action => "Action",
            Header::MessageId => "MessageID",
            Header::RelatesTo => "RelatesTo",
        }
    }

    /// Its name.
    ///
    /// # Errors
    ///
    /// `Memory` only.
    pub fn name(self, alloc: Global) -> Result<Name, Memory>
        ensures { IfOk result (λ n. n ≡ header_name self) }
    {
        addressing_name(alloc, self.local())
    }

    /// Whether it holds an endpoint reference, of which the address is the text of a child.
    pub fn holds_address(self) -> bool
        ensures { result ≡ holds_address self }
    {
        match self {
            Header::From | Header::ReplyTo | Header::FaultTo => true,
            Header::To | Header::Action | Header::MessageId | Header::RelatesTo => false,
        }
    }
}

/// The name of the addressing namespace with this local part.
///
/// # Errors
///
/// `Memory` only.
#[tactic(auto, unfolding(pws_soap::specs::Names::addressing_space))]
pub fn addressing_name(alloc: Global, local: &str) -> Result<Name, Memory>
    ensures { IfOk result (λ n. n ≡ addressing_name local.now) }
{
    Ok(Name {
        space: Text::from_str(alloc, ADDRESSING_SPACE)?,
        local: Text::from_str(alloc, local)?,
    })
}

/// The headers that stand once at most, in the order in which refusals are looked for.
pub const SINGLE_HEADERS: [Header; 6] = [
    Header::To,
    Header::From,
    Header::ReplyTo,
    Header::FaultTo,
    Header::Action,
    Header::MessageId,
];

/// All headers, in the order in which refusals are looked for.
pub const ALL_HEADERS: [Header; 7] = [
    Header::To,
    Header::From,
    Header::ReplyTo,
    Header::FaultTo,
    Header::Action,
    Header::MessageId,
    Header::RelatesTo,
];

/// How a message relates to another.
#[derive(Clone, Debug, Drop, PartialEq, Eq)]
pub struct Relation {
    /// The relation, as it stands: any text, maybe an empty one.
    pub kind: XmlText,
    /// The identifier of the other message.
    pub id: XmlText,
}

/// The addressing of a message. All its texts have only XML characters.
#[derive(Debug, Drop)]
pub struct Addressing {
    /// The address to which the message goes.
    pub to: XmlText,
    /// What the message is for.
    pub action: XmlText,
    /// The message's identifier.
    pub message_id: Option<XmlText>,
    /// The messages to which it relates, in order.
    pub relates_to: Sequence<Relation>,
    /// The address to which replies go.
    pub reply_to: Option<XmlText>,
    /// The address from which it comes.
    pub from: Option<XmlText>,
    /// The address to which faults go.
    pub fault_to: Option<XmlText>,
}

impl ExactCopy for Relation {
    fn copy(&self, alloc: Global) -> Result<Relation, Memory> {
        Ok(Relation {
            kind: self.kind.copy(alloc)?,
            id: self.id.copy(alloc)?,
        })
    }
}

/// A copy of a text, where there is one.
///
/// # Errors
///
/// `Memory` only.
fn copy_text(alloc: Global, text: &Option<XmlText>) -> Result<Option<XmlText>, Memory>
    ensures { IfOk result (λ t. t ≡ text.now) }
{
    match text {
        Some(text) => Ok(Some(text.copy(alloc)?)),
        None => Ok(None),
    }
}

impl ExactCopy for Addressing {
    fn copy(&self, alloc: Global) -> Result<Addressing, Memory> {
        Ok(Addressing {
            to: self.to.copy(alloc)?,
            action: self.action.copy(alloc)?,
            message_id: copy_text(alloc, &self.message_id)?,
            relates_to: self.relates_to.copy(alloc)?,
            reply_to: copy_text(alloc, &self.reply_to)?,
            from: copy_text(alloc, &self.from)?,
            fault_to: copy_text(alloc, &self.fault_to)?,
        })
    }
}

impl PartialEq for Addressing {
    ghost use Rattle.std.specs.Cmp.{partial_equiv_from_equiv};
    ghost use Rattle.pws_addr.specs.Equal.{same_addressing, same_equiv};

    ghost eq = { same_addressing };

    ghost laws = { partial_equiv_from_equiv same_equiv };

    fn eq(&self, other: &Addressing) -> bool {
        self.to == other.to
            && self.action == other.action
            && self.message_id == other.message_id
            && self.relates_to.as_slice() == other.relates_to.as_slice()
            && self.reply_to == other.reply_to
            && self.from == other.from
            && self.fault_to == other.fault_to
    }
}

impl Eq for Addressing {
    ghost use Rattle.pws_addr.specs.Equal.{same_equiv};

    ghost laws = { same_equiv };
}
