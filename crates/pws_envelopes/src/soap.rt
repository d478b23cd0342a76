//! Envelopes of SOAP, with addressing headers.

ghost use Rattle.std.specs.Prelude.{◌≡◌, IfOk, is_some};
ghost use Rattle.pws_envelopes.specs.SoapWords.{envelope_at, written_of, same_text, IsRequestAt};

use crate::fields::field_of;
use pws_addr::causes::{Cause, Request, request_of};
use pws_addr::envelopes::{bare_fault_text, call_text, fault_text, reply_text};
use pws_base::bytes::Bytes;
use pws_base::memory::Memory;
use pws_base::shapes::GroupId;
use pws_driver::envelopes::Envelopes;
use pws_mark::laws::reading_gives_the_tree;
use pws_service::keys::Key;
use pws_soap::envelopes::Envelope;
use pws_soap::errors::SoapError;
use pws_soap::reading::read_envelope;
use pws_soap::writing::write_envelope;
use pws_tree::xml_texts::XmlText;
use std::alloc::Global;

/// Envelopes of SOAP 1.2 with headers of WS-Addressing 1.0.
#[derive(Clone, Copy, Debug)]
pub struct SoapEnvelopes;

/// The envelope that a text is, if it is one.
#[tactic(auto, using(crate::proofs::TextsRead::read_none))]
fn envelope_at(alloc: Global, text: &[u8]) -> Result<Option<Envelope>, Memory>
    ensures { IfOk result (λ e. e ≡ envelope_at text.now) }
{
    reading_gives_the_tree();
    match read_envelope(alloc, text) {
        Ok(envelope) => Ok(Some(envelope)),
        Err(SoapError::Memory) => Err(Memory),
        Err(_) => Ok(None),
    }
}

/// What a text says as a request.
#[tactic(auto, using(crate::proofs::TextsRead::request_read))]
fn request_at(alloc: Global, text: &[u8]) -> Result<Request, Memory>
    ensures { IfOk result (λ r. IsRequestAt text.now r) }
{
    reading_gives_the_tree();
    let read = read_envelope(alloc, text);
    request_of(alloc, &read)
}

/// The text by which an envelope is written, if there is one.
fn written(alloc: Global, envelope: &Option<Envelope>) -> Result<Option<Bytes>, Memory>
    ensures { IfOk result (λ t. t ≡ written_of envelope.now) }
{
    match envelope {
        Some(envelope) => Ok(Some(Bytes::from_vec(write_envelope(alloc, envelope)?))),
        None => Ok(None),
    }
}

/// Whether both are there and the same, or neither is there.
fn same_text(text: &Option<Bytes>, other: &Option<Bytes>) -> bool
    ensures { result ≡ same_text text.now other.now }
{
    match (text, other) {
        (Some(text), Some(other)) => text.as_slice() == other.as_slice(),
        (None, None) => true,
        _ => false,
    }
}

impl Envelopes for SoapEnvelopes {
    ghost use Rattle.pws_envelopes.specs.SoapWords.{soap_words};
    ghost use Rattle.pws_envelopes.specs.Fits.{soap_fits};

    ghost words = { soap_words };

    ghost fit = { soap_fits };

    fn call_text(
        alloc: Global,
        me: GroupId,
        key: Key,
        text: &XmlText,
    ) -> Result<Option<Bytes>, Memory> {
        call_text(alloc, me, key.group, key.number, text)
    }

    fn refusal_of(
        alloc: Global,
        me: GroupId,
        key: Key,
        body: &[u8],
    ) -> Result<Option<Bytes>, Memory> {
        match request_at(alloc, body)? {
            Request::Readable(_) => Ok(None),
            Request::Refused(cause) => {
                let fault = fault_text(alloc, me, key.group, key.number, None, cause)?;
                Ok(Some(fault))
            }
        }
    }

    fn reply_text(
        alloc: Global,
        me: GroupId,
        key: Key,
        message: &[u8],
        text: &XmlText,
    ) -> Result<Bytes, Memory> {
        match request_at(alloc, message)? {
            Request::Readable(addressing) => {
                reply_text(alloc, me, key.group, key.number, Some(&addressing), text)
            }
            Request::Refused(_) => reply_text(alloc, me, key.group, key.number, None, text),
        }
    }

    fn halted_text(alloc: Global, me: GroupId, key: Key, body: &[u8]) -> Result<Bytes, Memory> {
        match request_at(alloc, body)? {
            Request::Readable(addressing) => {
                fault_text(
                    alloc,
                    me,
                    key.group,
                    key.number,
                    Some(&addressing),
                    Cause::Halted,
                )
            }
            Request::Refused(_) => {
                fault_text(alloc, me, key.group, key.number, None, Cause::Halted)
            }
        }
    }

    fn is_readable(alloc: Global, body: &[u8]) -> Result<bool, Memory> {
        Ok(envelope_at(alloc, body)?.is_some())
    }

    fn unreadable(alloc: Global) -> Result<Bytes, Memory> {
        bare_fault_text(alloc, Cause::UnreadableReply)
    }

    fn timed_out(alloc: Global) -> Result<Bytes, Memory> {
        bare_fault_text(alloc, Cause::TimedOut)
    }

    fn same_message(alloc: Global, message: &[u8], other: &[u8]) -> Result<bool, Memory> {
        let message = written(alloc, &envelope_at(alloc, message)?)?;
        let other = written(alloc, &envelope_at(alloc, other)?)?;
        Ok(same_text(&message, &other))
    }

    fn field_text(alloc: Global, message: &[u8], name: &[u8]) -> Result<XmlText, Memory> {
        match envelope_at(alloc, message)? {
            Some(envelope) => field_of(alloc, envelope.body(), name),
            None => Ok(XmlText::new(alloc)),
        }
    }
}
