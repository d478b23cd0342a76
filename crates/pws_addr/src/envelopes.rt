//! The envelopes that drivers make: calls, replies and faults.

ghost use Rattle.std.specs.Prelude.{◌≡◌, ◌≤◌, length, IfOk, IfSome, IsTrue};
ghost use Rattle.std.specs.Option.{option_copied};
ghost use Rattle.pws_tree.specs.Characters.{is_local_name};
ghost use Rattle.pws_mark.specs.Canonical.{canonical};
ghost use Rattle.pws_soap.specs.Envelopes.{root_of};
ghost use Rattle.pws_soap.specs.Faults.{text_nodes};
ghost use Rattle.pws_soap.specs.Made.{with_headers};
ghost use Rattle.pws_addr.specs.Blocks.{blocks_of};
ghost use Rattle.pws_addr.specs.Envelopes.{call_action, fault_action, text_local, service_name, service_tree, message_tree, envelope_text, fits, call_addressing, call_envelope_text, call_text, answer_to, reply_addressing, fault_addressing, fault_envelope_text, fault_text, reply_envelope_text, reply_text, bare_fault_text};

use crate::causes::{Cause, fault_of};
use crate::headers::Addressing;
use crate::identifiers::{call_id, group_address, reply_id};
use crate::putting::{put_addressing, text_nodes};
use crate::replies::{anonymous, reply_action, reply_of};
use pws_base::bytes::Bytes;
use pws_base::lists::Sequence;
use pws_base::memory::Memory;
use pws_base::shapes::{GroupId, Number};
use pws_soap::envelopes::Envelope;
use pws_soap::faults::fault_envelope;
use pws_soap::writing::write_envelope;
use pws_tree::texts::{Name, Text};
use pws_tree::trees::{Element, Node};
use pws_tree::xml_texts::XmlText;
use std::alloc::Global;

/// The namespace of the elements by which services talk, this project's own.
const SERVICE_SPACE: &str = "urn:pws";

/// The name of that namespace with this local part.
#[tactic(auto, unfolding(crate::specs::Envelopes::service_space))]
fn service_name(alloc: Global, local: &str) -> Result<Name, Memory>
    ensures { IfOk result (λ n. n ≡ service_name local.now) }
{
    Ok(Name {
        space: Text::from_str(alloc, SERVICE_SPACE)?,
        local: Text::from_str(alloc, local)?,
    })
}

/// A `text` with this text.
#[tactic(auto, unfolding(crate::specs::Envelopes::text_local))]
fn text_element(alloc: Global, text: &XmlText) -> Result<Element, Memory>
    ensures { IfOk result (λ t. t ≡ service_tree text_local (text_nodes text.now)) }
{
    let name = service_name(alloc, "text")?;
    let children = text_nodes(alloc, text.as_str())?;
    Ok(Element::of_lawful(name, Vec::new(alloc), children))
}

/// An element with one child `text`.
fn message_element(alloc: Global, local: &str, text: &XmlText) -> Result<Element, Memory>
    requires { IsTrue (is_local_name local.now) }
    ensures { IfOk result (λ t. t ≡ message_tree local.now text.now) }
{
    // shows: the text has XML characters alone
    let _lawful = text.as_str();
    let name = service_name(alloc, local)?;
    let inner = text_element(alloc, text)?;
    let children = vec![in alloc; Node::Element(inner)]?;
    Ok(Element::of_lawful(name, Vec::new(alloc), children))
}

/// The text of an envelope with this addressing behind its header blocks.
fn addressed_text(
    alloc: Global,
    mut envelope: Envelope,
    addressing: &Addressing,
) -> Result<Bytes, Memory>
    ensures { IfOk result (λ text. text ≡ canonical (root_of (with_headers envelope (blocks_of addressing.now)))) }
{
    put_addressing(alloc, &mut envelope, addressing)?;
    Ok(Bytes::from_vec(write_envelope(alloc, &envelope)?))
}

/// The text of an envelope with this addressing round a message.
fn message_text(
    alloc: Global,
    addressing: &Addressing,
    local: &str,
    text: &XmlText,
) -> Result<Bytes, Memory>
    requires { IsTrue (is_local_name local.now) }
    ensures { IfOk result (λ written. written ≡ envelope_text addressing.now (message_tree local.now text.now)) }
{
    let message = message_element(alloc, local, text)?;
    let envelope = Envelope::around(alloc, message)?;
    addressed_text(alloc, envelope, addressing)
}

/// Whether a text is no longer than a body may be.
fn fits(text: &Bytes) -> bool
    ensures { result ≡ fits text.now }
{
    text.len() <= 32768
}

/// The action of a call.
#[tactic(auto, unfolding(crate::specs::Envelopes::call_action))]
fn call_action(alloc: Global) -> Result<XmlText, Memory>
    ensures { IfOk result (λ t. t ≡ call_action) }
{
    XmlText::from_str(alloc, "urn:pws:call")
}

/// The action of a fault: WS-Addressing 1.0 SOAP Binding, section 6.
#[tactic(auto, unfolding(crate::specs::Envelopes::fault_action))]
fn fault_action(alloc: Global) -> Result<XmlText, Memory>
    ensures { IfOk result (λ t. t ≡ fault_action) }
{
    XmlText::from_str(alloc, "http://www.w3.org/2005/08/addressing/soap/fault")
}

/// The addressing of a call.
fn call_addressing(
    alloc: Global,
    me: GroupId,
    called: GroupId,
    number: Number,
) -> Result<Addressing, Memory>
    ensures { IfOk result (λ a. a ≡ call_addressing me called number) }
{
    Ok(Addressing {
        to: group_address(alloc, called)?,
        action: call_action(alloc)?,
        message_id: Some(call_id(alloc, me, called, number)?),
        relates_to: Sequence::new(alloc),
        reply_to: Some(group_address(alloc, me)?),
        from: None,
        fault_to: None,
    })
}

/// The text of the envelope of a call of the group `me`, with a text in its body. None exactly where it would be longer
/// than a body may be, 32,768 bytes.
///
/// # Errors
///
/// `Memory` only.
#[tactic(auto, unfolding(crate::specs::Envelopes::call_text, crate::specs::Envelopes::call_local))]
pub fn call_text(
    alloc: Global,
    me: GroupId,
    called: GroupId,
    number: Number,
    text: &XmlText,
) -> Result<Option<Bytes>, Memory>
    ensures value { IfOk result (λ written. written ≡ call_text me called number text.now) }
    ensures fits { IfOk result (λ written. IfSome written (λ body. length body ≤ 32768)) }
{
    let addressing = call_addressing(alloc, me, called, number)?;
    let written = message_text(alloc, &addressing, "call", text)?;
    if fits(&written) {
        Ok(Some(written))
    } else {
        Ok(None)
    }
}

/// Where an answer goes to a request with this addressing, or without readable addressing.
fn answer_to(alloc: Global, addressing: Option<&Addressing>) -> Result<Addressing, Memory>
    ensures { IfOk result (λ a. a ≡ answer_to (option_copied addressing.entry)) }
{
    match addressing {
        Some(addressing) => reply_of(alloc, addressing),
        None => Ok(Addressing {
            to: anonymous(alloc)?,
            action: reply_action(alloc)?,
            message_id: None,
            relates_to: Sequence::new(alloc),
            reply_to: None,
            from: None,
            fault_to: None,
        }),
    }
}

/// The addressing of the reply to a request.
fn reply_addressing(
    alloc: Global,
    me: GroupId,
    caller: GroupId,
    number: Number,
    addressing: Option<&Addressing>,
) -> Result<Addressing, Memory>
    ensures { IfOk result (λ a. a ≡ reply_addressing me caller number (option_copied addressing.entry)) }
{
    let answer = answer_to(alloc, addressing)?;
    Ok(Addressing {
        message_id: Some(reply_id(alloc, me, caller, number)?),
        ..answer
    })
}

/// The addressing of the fault that answers a request.
fn fault_addressing(
    alloc: Global,
    me: GroupId,
    caller: GroupId,
    number: Number,
    addressing: Option<&Addressing>,
) -> Result<Addressing, Memory>
    ensures { IfOk result (λ a. a ≡ fault_addressing me caller number (option_copied addressing.entry)) }
{
    let reply = reply_addressing(alloc, me, caller, number, addressing)?;
    Ok(Addressing {
        action: fault_action(alloc)?,
        ..reply
    })
}

/// The text of the fault that answers a request, however long it is.
fn fault_envelope_text(
    alloc: Global,
    me: GroupId,
    caller: GroupId,
    number: Number,
    addressing: Option<&Addressing>,
    cause: Cause,
) -> Result<Bytes, Memory>
    ensures { IfOk result (λ text. text ≡ fault_envelope_text me caller number (option_copied addressing.entry) cause) }
{
    let addressing = fault_addressing(alloc, me, caller, number, addressing)?;
    let fault = fault_of(alloc, cause)?;
    let envelope = fault_envelope(alloc, &fault)?;
    addressed_text(alloc, envelope, &addressing)
}

/// The text of the fault that answers a request, addressed as if the request had no addressing where it would be too long.
#[tactic(auto, unfolding(crate::specs::Envelopes::fault_text))]
fn fault_given(
    alloc: Global,
    me: GroupId,
    caller: GroupId,
    number: Number,
    addressing: Option<&Addressing>,
    cause: Cause,
) -> Result<Bytes, Memory>
    ensures { IfOk result (λ text. text ≡ fault_text me caller number (option_copied addressing.entry) cause) }
{
    let text = fault_envelope_text(alloc, me, caller, number, addressing, cause)?;
    if fits(&text) {
        return Ok(text);
    }
    fault_envelope_text(alloc, me, caller, number, None, cause)
}

/// The text of the fault by which the group `me` answers a caller's request with this addressing, or without readable
/// addressing. Where it would be longer than a body may be, 32,768 bytes, it is addressed as if the request had no
/// addressing.
///
/// # Errors
///
/// `Memory` only.
pub fn fault_text(
    alloc: Global,
    me: GroupId,
    caller: GroupId,
    number: Number,
    addressing: Option<&Addressing>,
    cause: Cause,
) -> Result<Bytes, Memory>
    ensures value { IfOk result (λ text. text ≡ fault_text me caller number (option_copied addressing.entry) cause) }
    ensures fits { IfOk result (λ text. length text ≤ 32768) }
{
    let text = fault_given(alloc, me, caller, number, addressing, cause)?;
    Ok(text)
}

/// The text of the envelope of a reply, however long it is.
#[tactic(auto, unfolding(crate::specs::Envelopes::reply_local))]
fn reply_envelope_text(
    alloc: Global,
    me: GroupId,
    caller: GroupId,
    number: Number,
    addressing: Option<&Addressing>,
    text: &XmlText,
) -> Result<Bytes, Memory>
    ensures { IfOk result (λ written. written ≡ reply_envelope_text me caller number (option_copied addressing.entry) text.now) }
{
    let addressing = reply_addressing(alloc, me, caller, number, addressing)?;
    message_text(alloc, &addressing, "reply", text)
}

/// The text of the reply to a request, or of the fault in its place where it would be too long.
#[tactic(auto, unfolding(crate::specs::Envelopes::reply_text))]
fn reply_given(
    alloc: Global,
    me: GroupId,
    caller: GroupId,
    number: Number,
    addressing: Option<&Addressing>,
    text: &XmlText,
) -> Result<Bytes, Memory>
    ensures { IfOk result (λ written. written ≡ reply_text me caller number (option_copied addressing.entry) text.now) }
{
    let written = reply_envelope_text(alloc, me, caller, number, addressing, text)?;
    if fits(&written) {
        return Ok(written);
    }
    fault_envelope_text(alloc, me, caller, number, None, Cause::ReplyTooLong)
}

/// The text of the reply of the group `me` to a caller's request with this addressing, or without readable addressing,
/// with a text in its body. Where it would be longer than a body may be, 32,768 bytes, it is the fault in its place,
/// addressed as if the request had no addressing.
///
/// # Errors
///
/// `Memory` only.
pub fn reply_text(
    alloc: Global,
    me: GroupId,
    caller: GroupId,
    number: Number,
    addressing: Option<&Addressing>,
    text: &XmlText,
) -> Result<Bytes, Memory>
    ensures value { IfOk result (λ written. written ≡ reply_text me caller number (option_copied addressing.entry) text.now) }
    ensures fits { IfOk result (λ written. length written ≤ 32768) }
{
    let written = reply_given(alloc, me, caller, number, addressing, text)?;
    Ok(written)
}

/// The text of a fault that answers no request.
#[tactic(auto, unfolding(crate::specs::Envelopes::bare_fault_text))]
fn bare_fault_given(alloc: Global, cause: Cause) -> Result<Bytes, Memory>
    ensures { IfOk result (λ text. text ≡ bare_fault_text cause) }
{
    let fault = fault_of(alloc, cause)?;
    let envelope = fault_envelope(alloc, &fault)?;
    Ok(Bytes::from_vec(write_envelope(alloc, &envelope)?))
}

/// The text of a fault that answers no request, without header blocks. It has at most 32,768 bytes.
///
/// # Errors
///
/// `Memory` only.
pub fn bare_fault_text(alloc: Global, cause: Cause) -> Result<Bytes, Memory>
    ensures value { IfOk result (λ text. text ≡ bare_fault_text cause) }
    ensures fits { IfOk result (λ text. length text ≤ 32768) }
{
    let text = bare_fault_given(alloc, cause)?;
    Ok(text)
}
