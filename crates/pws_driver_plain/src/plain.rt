//! Texts in the place of envelopes.

ghost use Rattle.std.specs.Prelude.{◌≡◌, drop, codes, IfOk};
ghost use Rattle.pws_driver_plain.specs.Plain.{is_fault, fitting, only_if, xml_of, field_of};

use pws_base::bytes::Bytes;
use pws_base::memory::Memory;
use pws_base::shapes::GroupId;
use pws_driver::envelopes::Envelopes;
use pws_service::keys::Key;
use pws_tree::characters::is_xml_text;
use pws_tree::xml_texts::XmlText;
use std::alloc::Global;

/// Texts in the place of envelopes: a message is its text, and one that begins with an exclamation mark is a fault.
#[derive(Clone, Copy, Debug)]
pub struct Plain;

fn is_fault(text: &[u8]) -> bool
    ensures { result ≡ is_fault text.now }
{
    !text.is_empty() && text[0] == b'!'
}

fn fitting(alloc: Global, text: &[u8]) -> Result<Option<Bytes>, Memory>
    ensures { IfOk result (λ t. t ≡ fitting text.now) }
{
    if text.len() <= 32768 {
        Ok(Some(Bytes::from_slice(alloc, text)?))
    } else {
        Ok(None)
    }
}

fn only_if(alloc: Global, some: bool, text: XmlText) -> XmlText
    ensures { result ≡ only_if some text }
{
    if some { text } else { XmlText::new(alloc) }
}

/// This text, if it has XML characters only.
fn xml_text_of(alloc: Global, text: &str) -> Result<XmlText, Memory>
    ensures { IfOk result (λ t. t ≡ xml_of text.now) }
{
    if is_xml_text(text) {
        XmlText::from_str(alloc, text)
    } else {
        Ok(XmlText::new(alloc))
    }
}

/// The text of these bytes, if they are one and it has XML characters only.
fn xml_of(alloc: Global, bytes: &[u8]) -> Result<XmlText, Memory>
    ensures { IfOk result (λ t. t ≡ xml_of bytes.now) }
{
    match str::from_utf8(bytes) {
        Ok(text) => xml_text_of(alloc, text),
        Err(_) => Ok(XmlText::new(alloc)),
    }
}

#[tactic(auto, using(crate::proofs::XmlTexts::receiver_xml))]
fn receiver(alloc: Global) -> Result<XmlText, Memory>
    ensures { IfOk result (λ t. t ≡ codes "Receiver") }
{
    XmlText::from_str(alloc, "Receiver")
}

fn rest(text: &[u8]) -> &[u8]
    ensures { result.now ≡ drop 1 text.now }
{
    if text.is_empty() { text } else { &text[1..] }
}

fn field_of(alloc: Global, message: &[u8], name: &[u8]) -> Result<XmlText, Memory>
    ensures { IfOk result (λ t. t ≡ field_of message.now name.now) }
{
    let fault = is_fault(message);
    if name == b"text".as_slice() {
        return Ok(only_if(alloc, !fault, xml_of(alloc, message)?));
    }
    if name == b"Reason".as_slice() {
        return Ok(only_if(alloc, fault, xml_of(alloc, rest(message))?));
    }
    if name == b"Code".as_slice() {
        return Ok(only_if(alloc, fault, receiver(alloc)?));
    }
    Ok(XmlText::new(alloc))
}

impl Envelopes for Plain {
    ghost use Rattle.pws_driver_plain.specs.Plain.{plain_words, plain_fit};

    ghost words = { plain_words };

    ghost fit = { plain_fit };

    fn call_text(
        alloc: Global,
        _me: GroupId,
        _key: Key,
        text: &XmlText,
    ) -> Result<Option<Bytes>, Memory> {
        fitting(alloc, text.as_str().as_bytes())
    }

    fn refusal_of(
        alloc: Global,
        _me: GroupId,
        _key: Key,
        body: &[u8],
    ) -> Result<Option<Bytes>, Memory> {
        if is_fault(body) {
            fitting(alloc, body)
        } else {
            Ok(None)
        }
    }

    fn reply_text(
        alloc: Global,
        _me: GroupId,
        _key: Key,
        _message: &[u8],
        text: &XmlText,
    ) -> Result<Bytes, Memory> {
        let text = text.as_str();
        if text.len() <= 32768 {
            Bytes::from_slice(alloc, text.as_bytes())
        } else {
            Bytes::from_slice(alloc, b"!reply too long")
        }
    }

    fn halted_text(alloc: Global, _me: GroupId, _key: Key, _body: &[u8]) -> Result<Bytes, Memory> {
        Bytes::from_slice(alloc, b"!service halted")
    }

    fn is_readable(_alloc: Global, body: &[u8]) -> Result<bool, Memory> {
        Ok(!is_fault(body))
    }

    fn unreadable(alloc: Global) -> Result<Bytes, Memory> {
        Bytes::from_slice(alloc, b"!unreadable reply")
    }

    fn timed_out(alloc: Global) -> Result<Bytes, Memory> {
        Bytes::from_slice(alloc, b"!timed out")
    }

    fn same_message(_alloc: Global, message: &[u8], other: &[u8]) -> Result<bool, Memory> {
        Ok(message == other)
    }

    fn field_text(alloc: Global, message: &[u8], name: &[u8]) -> Result<XmlText, Memory> {
        field_of(alloc, message, name)
    }
}
