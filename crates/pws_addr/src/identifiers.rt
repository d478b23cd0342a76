//! The names of groups, calls and replies, as addresses and identifiers of messages.

ghost use Rattle.std.specs.Prelude.{◌≡◌, IfOk};
ghost use Rattle.pws_addr.specs.Identifiers.{group_address, call_id, reply_id};

use pws_base::memory::Memory;
use pws_base::shapes::{GroupId, Number};
use pws_tree::xml_texts::XmlText;
use std::alloc::Global;

/// The address of a group.
///
/// # Errors
///
/// `Memory` only.
#[tactic(auto, unfolding(crate::specs::Identifiers::group_word))]
pub fn group_address(alloc: Global, group: GroupId) -> Result<XmlText, Memory>
    ensures { IfOk result (λ t. t ≡ group_address group) }
{
    let text = format!(in alloc; "urn:pws:group:{group}")?;
    XmlText::from_str(alloc, text.as_str())
}

/// The identifier of the call with this number of a group to another.
///
/// # Errors
///
/// `Memory` only.
#[tactic(auto, unfolding(crate::specs::Identifiers::call_word))]
pub fn call_id(
    alloc: Global,
    caller: GroupId,
    called: GroupId,
    number: Number,
) -> Result<XmlText, Memory>
    ensures { IfOk result (λ t. t ≡ call_id caller called number) }
{
    let text = format!(in alloc; "urn:pws:call:{caller}:{called}:{number}")?;
    XmlText::from_str(alloc, text.as_str())
}

/// The identifier of the reply of a group to the call with this number of a caller.
///
/// # Errors
///
/// `Memory` only.
#[tactic(auto, unfolding(crate::specs::Identifiers::reply_word))]
pub fn reply_id(
    alloc: Global,
    called: GroupId,
    caller: GroupId,
    number: Number,
) -> Result<XmlText, Memory>
    ensures { IfOk result (λ t. t ≡ reply_id called caller number) }
{
    let text = format!(in alloc; "urn:pws:reply:{called}:{caller}:{number}")?;
    XmlText::from_str(alloc, text.as_str())
}
