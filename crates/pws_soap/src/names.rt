//! Names that SOAP 1.2 and WS-Addressing 1.0 give.

ghost use Rattle.std.specs.Prelude.{◌≡◌, IfOk};
ghost use Rattle.pws_soap.specs.Names.{soap_name, is_soap_name};
ghost use Rattle.pws_soap.specs.Blocks.{is_addressing_header};

use pws_base::memory::Memory;
use pws_tree::spaces::ENVELOPE_SPACE;
use pws_tree::texts::{Name, Text};
use std::alloc::Global;

/// The namespace of addressing headers: WS-Addressing 1.0 Core, section 1.2.
pub const ADDRESSING_SPACE: &str = "http://www.w3.org/2005/08/addressing";

/// Whether this is a name of the envelope namespace, with this local part.
#[tactic(auto, unfolding(pws_tree::specs::Names::envelope_space))]
pub fn is_soap_name(local: &str, name: &Name) -> bool
    ensures { result ≡ is_soap_name local.now name.now }
{
    name.space.as_str() == ENVELOPE_SPACE && name.local.as_str() == local
}

/// The name of the envelope namespace with this local part.
///
/// # Errors
///
/// `Memory` only.
#[tactic(auto, unfolding(pws_tree::specs::Names::envelope_space))]
pub fn soap_name(alloc: Global, local: &str) -> Result<Name, Memory>
    ensures { IfOk result (λ n. n ≡ soap_name local.now) }
{
    Ok(Name {
        space: Text::from_str(alloc, ENVELOPE_SPACE)?,
        local: Text::from_str(alloc, local)?,
    })
}

/// Whether this is the name of an addressing header: To, From, ReplyTo, FaultTo, Action, MessageID or RelatesTo.
#[tactic(auto, unfolding(crate::specs::Names::addressing_space, crate::specs::Names::addressing_words))]
pub fn is_addressing_header(name: &Name) -> bool
    ensures { result ≡ is_addressing_header name.now }
{
    name.space.as_str() == ADDRESSING_SPACE
        && matches!(
            name.local.as_str(),
            "To" | "From" | "ReplyTo" | "FaultTo" | "Action" | "MessageID" | "RelatesTo"
        )
}
