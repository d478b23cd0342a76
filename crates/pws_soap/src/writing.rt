//! The canonical text of an envelope.

ghost use Rattle.std.specs.Prelude.{◌≡◌, IfOk};
ghost use Rattle.pws_mark.specs.Canonical.{canonical};
ghost use Rattle.pws_soap.specs.Envelopes.{root_of};

use crate::envelopes::Envelope;
use pws_base::memory::Memory;
use pws_mark::writing::write_element;
use std::alloc::Global;

/// The canonical text of an envelope, in UTF-8: that of its root.
///
/// # Errors
///
/// `Memory` only.
pub fn write_envelope(alloc: Global, envelope: &Envelope) -> Result<Vec<u8>, Memory>
    ensures { IfOk result (λ text. text.items ≡ canonical (root_of envelope.now)) }
{
    let root = envelope.root(alloc)?;
    write_element(alloc, &root)
}
