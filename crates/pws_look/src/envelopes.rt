//! What is said of texts of elements and of envelopes.

ghost use Rattle.std.specs.Prelude.{◌≡◌, IfOk, Ok, Err, string_bytes};
ghost use Rattle.hex.specs.Hex.{encode_lower};
ghost use Rattle.pws_soap.specs.Reading.{IsTold};
ghost use Rattle.pws_tree.specs.Nodes.{nodes_of};
ghost use Rattle.pws_look.specs.Envelopes.{mark_word, mark_words, envelope_line, envelope_answer, EnvelopeAnswers, node_count, name_words, header_words, body_words, envelope_sizes, target_words, target, addressing_refusal, addressed_answer, soap_refusal, soap_answer, SoapAnswers, IsWanted};

use crate::answers::{Answer, good, refused};
use pws_addr::headers::Addressing;
use pws_addr::reading::{AddrError, read_addressing};
use pws_base::bytes::Bytes;
use pws_base::memory::Memory;
use pws_mark::errors::{MarkError, MarkKind, ReadError};
use pws_mark::reading::read_element;
use pws_mark::writing::write_element;
use pws_soap::envelopes::Envelope;
use pws_soap::errors::SoapError;
use pws_soap::reading::read_envelope;
use pws_tree::texts::Name;
use pws_tree::trees::{Element, Node};
use std::alloc::Global;

/// The word for what is wrong with a text.
fn mark_word(kind: MarkKind) -> &'static str
    ensures { result.now ≡ mark_word kind }
{
    match kind {
        MarkKind::Size => "Size",
        MarkKind::Utf8 => "Utf8",
        MarkKind::Doctype => "Doctype",
        MarkKind::Instruction => "Instruction",
        MarkKind::Depth => "Depth",
        MarkKind::Prefix => "Prefix",
        MarkKind::Twice => "Twice",
        MarkKind::Entity => "Entity",
        MarkKind::Syntax => "Syntax",
    }
}

/// What is wrong with a text, and where.
fn mark_words(alloc: Global, error: MarkError) -> Result<String, Memory>
    ensures { IfOk result (λ words. string_bytes words ≡ mark_words error) }
{
    let word = mark_word(error.kind);
    let at = error.at;
    Ok(format!(in alloc; "{word} at {at}")?)
}

/// The canonical text, in hexadecimal where each line of the input is a text.
fn envelope_line(alloc: Global, lines: bool, text: Vec<u8>) -> Result<Bytes, Memory>
    ensures { IfOk result (λ line. line ≡ envelope_line lines text.items) }
{
    if !lines {
        return Ok(Bytes::from_vec(text));
    }
    let digits = hex::encode(alloc, text.as_slice())?;
    let line = format!(in alloc; "ok {digits}")?;
    Ok(Bytes::from_vec(line.into_bytes()))
}

/// What is said of an element.
fn element_read(alloc: Global, lines: bool, element: &Element) -> Result<Answer, Memory>
    ensures { IfOk result (λ a. a ≡ envelope_answer lines (Ok element.now)) }
{
    let text = write_element(alloc, element)?;
    Ok(Answer {
        line: envelope_line(alloc, lines, text)?,
        good: true,
    })
}

/// What is said of a text that is no element.
fn element_refused(alloc: Global, lines: bool, error: MarkError) -> Result<Answer, Memory>
    ensures { IfOk result (λ a. a ≡ envelope_answer lines (Err error)) }
{
    Ok(refused(mark_words(alloc, error)?))
}

/// What is said of a text that is to be an element.
///
/// # Errors
///
/// `Memory` only.
pub fn envelope_answer(alloc: Global, lines: bool, text: &[u8]) -> Result<Answer, Memory>
    ensures { IfOk result (EnvelopeAnswers lines text.now) }
{
    match read_element(alloc, text) {
        Ok(element) => element_read(alloc, lines, &element),
        Err(ReadError::Mark(error)) => element_refused(alloc, lines, error),
        Err(ReadError::Memory) => Err(Memory),
    }
}

/// How many nodes there are.
#[tactic(auto, using(crate::proofs::Counted::nodes_count))]
fn node_count(nodes: &[Node]) -> usize
    ensures { result ≡ node_count (nodes_of nodes.now) }
{
    nodes.len()
}

/// A name with its namespace in braces.
fn name_words(alloc: Global, name: &Name) -> Result<String, Memory>
    ensures { IfOk result (λ words. string_bytes words ≡ name_words name.now) }
{
    let space = name.space.as_str();
    let local = name.local.as_str();
    Ok(format!(in alloc; "{{{space}}}{local}")?)
}

/// How many header blocks there are.
#[tactic(auto, unfolding(crate::specs::Envelopes::header_words))]
fn header_words(alloc: Global, headers: usize) -> Result<String, Memory>
    ensures { IfOk result (λ words. string_bytes words ≡ header_words headers) }
{
    Ok(format!(in alloc; "ok headers {headers}")?)
}

/// How many nodes the body has.
#[tactic(auto, unfolding(crate::specs::Envelopes::body_words))]
fn body_words(alloc: Global, body: usize) -> Result<String, Memory>
    ensures { IfOk result (λ words. string_bytes words ≡ body_words body) }
{
    Ok(format!(in alloc; " body {body}")?)
}

/// How much an envelope has.
#[tactic(auto, unfolding(crate::specs::Envelopes::envelope_sizes))]
fn envelope_sizes(alloc: Global, envelope: &Envelope) -> Result<String, Memory>
    ensures { IfOk result (λ words. string_bytes words ≡ envelope_sizes envelope.now) }
{
    let headers = header_words(alloc, envelope.headers().len())?;
    let body = body_words(alloc, node_count(envelope.body()))?;
    Ok(format!(in alloc; "{headers}{body}")?)
}

/// A text in hexadecimal.
fn hexadecimal(alloc: Global, text: &str) -> Result<String, Memory>
    ensures { IfOk result (λ words. string_bytes words ≡ encode_lower text.now) }
{
    Ok(hex::encode(alloc, text.as_bytes())?)
}

/// Where a message goes, and what it is for, both in hexadecimal.
#[tactic(auto, unfolding(crate::specs::Envelopes::target_words))]
fn target_words(alloc: Global, to: &str, action: &str) -> Result<String, Memory>
    ensures { IfOk result (λ words. string_bytes words ≡ target_words to.now action.now) }
{
    Ok(format!(in alloc; "to {to} action {action}")?)
}

/// Where a message goes, and what it is for.
fn target(alloc: Global, addressing: &Addressing) -> Result<String, Memory>
    ensures { IfOk result (λ words. string_bytes words ≡ target addressing.now) }
{
    let to = hexadecimal(alloc, addressing.to.as_str())?;
    let action = hexadecimal(alloc, addressing.action.as_str())?;
    target_words(alloc, to.as_str(), action.as_str())
}

/// Why there is no addressing.
fn addressing_refusal(alloc: Global, error: &AddrError) -> Result<String, Memory>
    ensures words { IfOk result (λ words. string_bytes words ≡ addressing_refusal error.now) }
    ensures wanted { IfOk result (λ words. IsWanted error.now) }
{
    match error {
        AddrError::Cardinality(name) => {
            let words = name_words(alloc, name)?;
            Ok(format!(in alloc; "Cardinality {words}")?)
        }
        AddrError::Required => Ok(format!(in alloc; "Required")?),
        AddrError::Invalid(name) => {
            let words = name_words(alloc, name)?;
            Ok(format!(in alloc; "Invalid {words}")?)
        }
        AddrError::Memory => Err(Memory),
    }
}

/// What is said of an envelope with this addressing.
fn addressed(alloc: Global, envelope: &Envelope, addressing: &Addressing) -> Result<Answer, Memory>
    ensures { IfOk result (λ a. a ≡ addressed_answer envelope.now (Ok addressing.now)) }
{
    let sizes = envelope_sizes(alloc, envelope)?;
    let target = target(alloc, addressing)?;
    Ok(good(format!(in alloc; "{sizes} {target}")?))
}

/// What is said of an envelope whose addressing is refused.
fn not_addressed(alloc: Global, envelope: &Envelope, error: &AddrError) -> Result<Answer, Memory>
    ensures answer { IfOk result (λ a. a ≡ addressed_answer envelope.now (Err error.now)) }
    ensures wanted { IfOk result (λ a. IsWanted error.now) }
{
    let sizes = envelope_sizes(alloc, envelope)?;
    let refusal = addressing_refusal(alloc, error)?;
    Ok(refused(format!(in alloc; "{sizes} {refusal}")?))
}

/// What is said of an envelope.
fn envelope_read(alloc: Global, envelope: &Envelope) -> Result<Answer, Memory>
    ensures { IfOk result (λ a. a ≡ soap_answer (Ok envelope.now)) }
{
    match read_addressing(alloc, envelope) {
        Ok(addressing) => addressed(alloc, envelope, &addressing),
        Err(error) => not_addressed(alloc, envelope, &error),
    }
}

/// Why there is no envelope.
fn soap_refusal(alloc: Global, error: &SoapError) -> Result<String, Memory>
    ensures words { IfOk result (λ words. string_bytes words ≡ soap_refusal error.now) }
    ensures told { IfOk result (λ words. IsTold (Err error.now)) }
{
    match error {
        SoapError::Mark(error) => {
            let words = mark_words(alloc, *error)?;
            Ok(format!(in alloc; "Mark {words}")?)
        }
        SoapError::NotEnvelope => Ok(format!(in alloc; "NotEnvelope")?),
        SoapError::Version => Ok(format!(in alloc; "Version")?),
        SoapError::Order => Ok(format!(in alloc; "Order")?),
        SoapError::MustUnderstand(name) => {
            let words = name_words(alloc, name)?;
            Ok(format!(in alloc; "MustUnderstand {words}")?)
        }
        SoapError::Memory => Err(Memory),
    }
}

/// What is said of a text that is no envelope.
fn envelope_refused(alloc: Global, error: &SoapError) -> Result<Answer, Memory>
    ensures answer { IfOk result (λ a. a ≡ soap_answer (Err error.now)) }
    ensures told { IfOk result (λ a. IsTold (Err error.now)) }
{
    Ok(refused(soap_refusal(alloc, error)?))
}

/// What is said of a text that is to be an envelope.
///
/// # Errors
///
/// `Memory` only.
pub fn soap_answer(alloc: Global, text: &[u8]) -> Result<Answer, Memory>
    ensures { IfOk result (SoapAnswers text.now) }
{
    match read_envelope(alloc, text) {
        Ok(envelope) => envelope_read(alloc, &envelope),
        Err(error) => envelope_refused(alloc, &error),
    }
}
