//! Why a driver answers with a fault, and which.

ghost use Rattle.std.specs.Prelude.{◌≡◌, IfOk, Ok, Err};
ghost use Rattle.pws_addr.specs.Causes.{fault_of, envelope_cause, addressing_cause};
ghost use Rattle.pws_addr.specs.Requests.{IsRefused, IsRequest};

use crate::headers::{Addressing, addressing_name};
use crate::reading::{AddrError, read_addressing};
use pws_base::lists::ExactCopy;
use pws_base::memory::Memory;
use pws_soap::envelopes::Envelope;
use pws_soap::errors::SoapError;
use pws_soap::faults::{Fault, FaultCode};
use pws_tree::texts::{Name, Text};
use std::alloc::Global;

/// Why a driver gives a fault.
#[derive(Clone, Copy, Debug, PartialEq, Eq)]
pub enum Cause {
    /// The request's root is no envelope of this version of SOAP.
    BadVersion,
    /// A header block of the request must be understood and isn't.
    NotUnderstood,
    /// The request is no text of an element, or the parts of its envelope are out of order.
    BadEnvelope,
    /// The request has no Action.
    NoAction,
    /// An addressing header of the request stands twice, or doesn't say what it is to say.
    BadAddressing,
    /// The service has halted.
    Halted,
    /// The reply would be longer than a body may be.
    ReplyTooLong,
    /// No reply came in time.
    TimedOut,
    /// A reply came that is no envelope.
    UnreadableReply,
}

/// What a request says to the driver that takes it.
#[derive(Debug, Drop)]
pub enum Request {
    /// It is an envelope with this addressing.
    Readable(Addressing),
    /// It is refused.
    Refused(Cause),
}

impl ExactCopy for Request {
    fn copy(&self, alloc: Global) -> Result<Request, Memory> {
        match self {
            Request::Readable(addressing) => Ok(Request::Readable(addressing.copy(alloc)?)),
            Request::Refused(cause) => Ok(Request::Refused(*cause)),
        }
    }
}

/// The code of the fault for a cause.
#[tactic(auto, unfolding(crate::specs::Causes::fault_of))]
fn code_of(cause: Cause) -> FaultCode
    ensures { result ≡ (fault_of cause).code }
{
    match cause {
        Cause::BadVersion => FaultCode::VersionMismatch,
        Cause::NotUnderstood => FaultCode::MustUnderstand,
        Cause::BadEnvelope | Cause::NoAction | Cause::BadAddressing => FaultCode::Sender,
        Cause::Halted | Cause::ReplyTooLong | Cause::TimedOut | Cause::UnreadableReply => {
            FaultCode::Receiver
        }
    }
}

/// The subcode of the fault for a cause.
#[tactic(auto, unfolding(crate::specs::Causes::fault_of, crate::specs::Causes::header_required, crate::specs::Causes::invalid_header))]
fn subcode_of(alloc: Global, cause: Cause) -> Result<Option<Name>, Memory>
    ensures { IfOk result (λ subcode. subcode ≡ (fault_of cause).subcode) }
{
    match cause {
        Cause::NoAction => Ok(Some(addressing_name(alloc, "MessageAddressingHeaderRequired")?)),
        Cause::BadAddressing => Ok(Some(addressing_name(alloc, "InvalidAddressingHeader")?)),
        Cause::BadVersion
        | Cause::NotUnderstood
        | Cause::BadEnvelope
        | Cause::Halted
        | Cause::ReplyTooLong
        | Cause::TimedOut
        | Cause::UnreadableReply => Ok(None),
    }
}

/// The reason of the fault for a cause.
#[tactic(auto, unfolding(crate::specs::Causes::fault_of))]
fn reason_of(cause: Cause) -> &'static str
    ensures { result.now ≡ (fault_of cause).reason }
{
    match cause {
        Cause::BadVersion => "bad version",
        Cause::NotUnderstood => "header not understood",
        Cause::BadEnvelope => "bad envelope",
        Cause::NoAction => "no action",
        Cause::BadAddressing => "bad addressing",
        Cause::Halted => "service halted",
        Cause::ReplyTooLong => "reply too long",
        Cause::TimedOut => "timed out",
        Cause::UnreadableReply => "unreadable reply",
    }
}

/// The fault for a cause.
///
/// # Errors
///
/// `Memory` only.
pub fn fault_of(alloc: Global, cause: Cause) -> Result<Fault, Memory>
    ensures { IfOk result (λ fault. fault ≡ fault_of cause) }
{
    let subcode = subcode_of(alloc, cause)?;
    let reason = Text::from_str(alloc, reason_of(cause))?;
    match Fault::make(code_of(cause), subcode, reason) {
        Ok(fault) => Ok(fault),
        Err(_) => unreachable!(),
    }
}

/// Why a text or a tree that is no envelope is refused, None where there was no memory.
pub fn envelope_cause(error: &SoapError) -> Option<Cause>
    ensures { result ≡ envelope_cause error.now }
{
    match error {
        SoapError::Mark(_) | SoapError::Order => Some(Cause::BadEnvelope),
        SoapError::NotEnvelope | SoapError::Version => Some(Cause::BadVersion),
        SoapError::MustUnderstand(_) => Some(Cause::NotUnderstood),
        SoapError::Memory => None,
    }
}

/// Why an envelope without readable addressing is refused, None where there was no memory.
pub fn addressing_cause(error: &AddrError) -> Option<Cause>
    ensures { result ≡ addressing_cause error.now }
{
    match error {
        AddrError::Cardinality(_) | AddrError::Invalid(_) => Some(Cause::BadAddressing),
        AddrError::Required => Some(Cause::NoAction),
        AddrError::Memory => None,
    }
}

/// What a request says whose addressing is refused.
fn refused(cause: Option<Cause>) -> Result<Request, Memory>
    ensures { IfOk result (λ request. IsRefused cause request) }
{
    match cause {
        Some(cause) => Ok(Request::Refused(cause)),
        None => Err(Memory),
    }
}

/// What an envelope says as a request.
fn request_in(alloc: Global, envelope: &Envelope) -> Result<Request, Memory>
    ensures { IfOk result (λ request. IsRequest (Ok envelope.now) request) }
{
    match read_addressing(alloc, envelope) {
        Ok(addressing) => Ok(Request::Readable(addressing)),
        Err(error) => refused(addressing_cause(&error)),
    }
}

/// What a request says, of which this was read.
///
/// # Errors
///
/// `Memory` only; also where there was none when the request was read.
pub fn request_of(alloc: Global, read: &Result<Envelope, SoapError>) -> Result<Request, Memory>
    ensures { IfOk result (λ request. IsRequest read.now request) }
{
    match read {
        Ok(envelope) => request_in(alloc, envelope),
        Err(error) => refused(envelope_cause(error)),
    }
}
