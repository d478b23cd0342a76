//! What is said of one text.

ghost use Rattle.std.specs.Prelude.{◌≡◌, IfOk, string_bytes};
ghost use Rattle.std.specs.Option.{option_copied};
ghost use Rattle.std.specs.Prelude.{Ok, Err};
ghost use Rattle.pws_event.specs.EventFields.{event_of};
ghost use Rattle.pws_event.specs.Words.{event_words};
ghost use Rattle.pws_msg.specs.PacketFields.{packet_of};
ghost use Rattle.pws_look.specs.Good.{good, refused};
ghost use Rattle.pws_look.specs.Answers.{Answers, event_line, event_answer, packet_answer, fault_word, script_word, body_words, statement_words, attached_words, packet_line, script_answer, ScriptAnswers};

use crate::envelopes::{envelope_answer, soap_answer};
use crate::words::Kind;
use pws_base::bytes::Bytes;
use pws_base::fields::FieldError;
use pws_base::memory::Memory;
use pws_base::shapes::{GroupId, ReplicaId};
use pws_event::events::{Event, event_digest};
use pws_event::parsing::read_event;
use pws_event::words::event_words;
use pws_msg::errors::{PacketFault, PacketReadError};
use pws_msg::packet_reading::read_packet;
use pws_msg::packets::Packet;
use pws_script::faults::{ReadScriptError, ScriptError, ScriptFault};
use pws_script::scripts::Script;
use std::alloc::Global;

/// One line without its end, and whether the text is what it was read as.
#[derive(Drop)]
pub struct Answer {
    pub line: Bytes,
    pub good: bool,
}

/// A good text.
pub fn good(line: String) -> Answer
    ensures { result ≡ good (string_bytes line) }
{
    Answer {
        line: Bytes::from_vec(line.into_bytes()),
        good: true,
    }
}

/// A refused text.
pub fn refused(line: String) -> Answer
    ensures { result ≡ refused (string_bytes line) }
{
    Answer {
        line: Bytes::from_vec(line.into_bytes()),
        good: false,
    }
}

/// What is said of an event.
fn event_line(alloc: Global, event: &Event) -> Result<String, Memory>
    ensures { IfOk result (λ line. string_bytes line ≡ event_line event.now) }
{
    let words = event_words(alloc, event)?;
    let digest = hex::encode(alloc, event_digest(alloc, event)?)?;
    Ok(format!(in alloc; "ok {words} {digest}")?)
}

/// What is said of a text that is to be an event.
fn event_answer(alloc: Global, text: &[u8]) -> Result<Answer, Memory>
    ensures { IfOk result (λ a. a ≡ event_answer (event_of text.now)) }
{
    match read_event(alloc, text) {
        Ok(event) => Ok(good(event_line(alloc, &event)?)),
        Err(FieldError::Fault(fault)) => {
            let at = fault.at;
            Ok(refused(format!(in alloc; "at {at}")?))
        }
        Err(FieldError::Memory) => Err(Memory),
    }
}

/// The length of a body, or a dash.
fn body_words(alloc: Global, body: Option<&Bytes>) -> Result<String, Memory>
    ensures { IfOk result (λ words. string_bytes words ≡ body_words (option_copied body.entry)) }
{
    match body {
        Some(body) => {
            let size = body.len();
            Ok(format!(in alloc; "{size}")?)
        }
        None => Ok(format!(in alloc; "-")?),
    }
}

/// Who says what to whom.
fn statement_words(
    alloc: Global,
    name: &str,
    sender: ReplicaId,
    receiver: GroupId,
) -> Result<String, Memory>
    ensures { IfOk result (λ words. string_bytes words ≡ statement_words name.now sender receiver) }
{
    let group = sender.group;
    let index = sender.index;
    Ok(format!(in alloc; "{name} {group}.{index} to {receiver}")?)
}

/// How much is attached.
fn attached_words(alloc: Global, tags: usize, body: &str, vouchers: usize) -> Result<String, Memory>
    ensures { IfOk result (λ words. string_bytes words ≡ attached_words tags body.now vouchers) }
{
    Ok(format!(in alloc; "tags {tags} body {body} vouchers {vouchers}")?)
}

/// What is said of a packet.
fn packet_line(alloc: Global, packet: &Packet) -> Result<String, Memory>
    ensures { IfOk result (λ line. string_bytes line ≡ packet_line packet.now) }
{
    let name = packet.content().kind().name();
    let statement = statement_words(alloc, name, packet.sender(), packet.receiver())?;
    let tags = packet.tags().len();
    let body = body_words(alloc, packet.body())?;
    let vouchers = packet.vouchers().len();
    let attached = attached_words(alloc, tags, body.as_str(), vouchers)?;
    Ok(format!(in alloc; "ok {statement} {attached}")?)
}

/// The word for what is wrong with a packet.
fn fault_word(fault: PacketFault) -> &'static str
    ensures { result.now ≡ fault_word fault }
{
    match fault {
        PacketFault::Long => "Long",
        PacketFault::Short => "Short",
        PacketFault::Magic => "Magic",
        PacketFault::Version => "Version",
        PacketFault::Kind => "Kind",
        PacketFault::Range => "Range",
        PacketFault::Rest => "Rest",
    }
}

/// What is said of a text that is to be a packet.
fn packet_answer(alloc: Global, text: &[u8]) -> Result<Answer, Memory>
    ensures { IfOk result (λ a. a ≡ packet_answer (packet_of text.now)) }
{
    match read_packet(alloc, text) {
        Ok(packet) => Ok(good(packet_line(alloc, &packet)?)),
        Err(PacketReadError::Refused(error)) => {
            let word = fault_word(error.kind);
            let at = error.at;
            Ok(refused(format!(in alloc; "{word} at {at}")?))
        }
        Err(PacketReadError::Memory) => Err(Memory),
    }
}

/// The word for what is wrong with a line of a script.
fn script_word(fault: ScriptFault) -> &'static str
    ensures { result.now ≡ script_word fault }
{
    match fault {
        ScriptFault::Long => "Long",
        ScriptFault::Text => "Text",
        ScriptFault::Word => "Word",
        ScriptFault::Count => "Count",
        ScriptFault::Register => "Register",
        ScriptFault::Number => "Number",
        ScriptFault::Target => "Target",
    }
}

/// What is said of a script that is refused.
fn script_refused(alloc: Global, error: ScriptError) -> Result<Answer, Memory>
    ensures { IfOk result (λ a. a ≡ script_answer (Err error)) }
{
    let line = error.line;
    let word = script_word(error.kind);
    Ok(refused(format!(in alloc; "line {line} {word}")?))
}

/// What is said of a script.
fn script_read(alloc: Global, script: &Script) -> Result<Answer, Memory>
    ensures { IfOk result (λ a. a ≡ script_answer (Ok script.now)) }
{
    let count = script.instructions().len();
    Ok(good(format!(in alloc; "ok {count}")?))
}

/// What is said of a text that is to be a script.
fn script_answer(alloc: Global, text: &[u8]) -> Result<Answer, Memory>
    ensures { IfOk result (ScriptAnswers text.now) }
{
    match Script::read(alloc, text) {
        Ok(script) => script_read(alloc, &script),
        Err(ReadScriptError::Script(error)) => script_refused(alloc, error),
        Err(ReadScriptError::Memory) => Err(Memory),
    }
}

/// What is said of a text that is to be of this kind, and that is a line of the input or all of it; docs/FORMATS.md has
/// the answers.
///
/// # Errors
///
/// `Memory` only.
pub fn answer_to(alloc: Global, lines: bool, kind: Kind, text: &[u8]) -> Result<Answer, Memory>
    ensures { IfOk result (Answers lines kind text.now) }
{
    match kind {
        Kind::Event => event_answer(alloc, text),
        Kind::Packet => packet_answer(alloc, text),
        Kind::Envelope => envelope_answer(alloc, lines, text),
        Kind::Soap => soap_answer(alloc, text),
        Kind::Script => script_answer(alloc, text),
    }
}
