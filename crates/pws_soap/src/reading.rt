//! Reading an envelope from a text.

ghost use Rattle.pws_soap.specs.Reading.{ReadsEnvelope, WrittenAreRead, NothingElseIsRead};

use crate::envelopes::Envelope;
use crate::errors::SoapError;
use crate::opening::envelope_of;
use pws_mark::errors::ReadError;
use pws_mark::laws::{canonical_may_be_read, reading_gives_the_tree};
use pws_mark::reading::read_element;
use std::alloc::Global;

/// The envelope that a text is.
///
/// # Errors
///
/// `Mark` where the text is refused as the text of an element, with what is refused and its place; else what
/// `envelope_of` answers for the tree that it stands for.
pub fn read_envelope(alloc: Global, text: &[u8]) -> Result<Envelope, SoapError>
    ensures { ReadsEnvelope text.now result }
{
    match read_element(alloc, text) {
        Ok(root) => envelope_of(alloc, root),
        Err(ReadError::Mark(error)) => Err(SoapError::Mark(error)),
        Err(ReadError::Memory) => Err(SoapError::Memory),
    }
}

/// Reading may answer the envelope whose text was written, where that has at most 32,768 bytes, its header blocks are
/// marked with truth values, and none is refused.
pub fn written_are_read()
    ensures { WrittenAreRead }
{
    canonical_may_be_read();
}

/// And it answers nothing else for that text, want of memory apart.
pub fn nothing_else_is_read()
    ensures { NothingElseIsRead }
{
    canonical_may_be_read();
    reading_gives_the_tree();
}
