//! Envelopes round faults, which no scenario writes.

use pws_base::lists::ExactCopy;
use pws_soap::faults::{Fault, FaultCode, fault_envelope};
use pws_soap::names::ADDRESSING_SPACE;
use pws_soap::writing::write_envelope;
use pws_tree::texts::{Name, Text};
use std::alloc::Global;
use std::test::Fail;

/// The text of a fault without a subcode.
const PLAIN: &str =
    "<n0:Envelope xmlns:n0=\"http://www.w3.org/2003/05/soap-envelope\"><n0:Body><n0:Fault><n0:Code><n0:Value>n0:Sender</n0:Value></n0:Code><n0:Reason><n0:Text xml:lang=\"en\">bad envelope</n0:Text></n0:Reason></n0:Fault></n0:Body></n0:Envelope>";

/// The text of a fault with one.
const FINER: &str =
    "<n0:Envelope xmlns:n0=\"http://www.w3.org/2003/05/soap-envelope\" xmlns:n1=\"http://www.w3.org/2005/08/addressing\"><n0:Body><n0:Fault><n0:Code><n0:Value>n0:Sender</n0:Value><n0:Subcode><n0:Value>n1:InvalidAddressingHeader</n0:Value></n0:Subcode></n0:Code><n0:Reason><n0:Text xml:lang=\"en\">bad addressing</n0:Text></n0:Reason></n0:Fault></n0:Body></n0:Envelope>";

/// The subcode of an addressing that can't be read.
fn invalid_header(alloc: Global) -> Result<Name, Fail> {
    let space = Text::from_str(alloc, ADDRESSING_SPACE)?;
    let local = Text::from_str(alloc, "InvalidAddressingHeader")?;
    Ok(Name { space, local })
}

/// A fault of the sender.
fn fault(alloc: Global, subcode: Option<Name>, reason: &str) -> Result<Fault, Fail> {
    let reason = Text::from_str(alloc, reason)?;
    let fault = Fault::make(FaultCode::Sender, subcode, reason)?;
    Ok(fault)
}

/// The text of a copy of the envelope round a fault.
fn text_of(alloc: Global, fault: &Fault) -> Result<Vec<u8>, Fail> {
    let envelope = fault_envelope(alloc, fault)?;
    let copied = envelope.copy(alloc)?;
    let text = write_envelope(alloc, &copied)?;
    Ok(text)
}

#[test]
fn a_fault_is_written(rt: HostRuntime) -> Result<(), Fail> {
    let fault = fault(rt.alloc(), None, "bad envelope")?;
    let text = text_of(rt.alloc(), &fault)?;
    assert!(rt; text.as_slice() == PLAIN.as_bytes());
    Ok(())
}

#[test]
fn a_fault_with_a_subcode_is_written(rt: HostRuntime) -> Result<(), Fail> {
    let subcode = invalid_header(rt.alloc())?;
    let fault = fault(rt.alloc(), Some(subcode), "bad addressing")?;
    let text = text_of(rt.alloc(), &fault)?;
    assert!(rt; text.as_slice() == FINER.as_bytes());
    Ok(())
}
