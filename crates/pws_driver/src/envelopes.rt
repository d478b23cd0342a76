//! What the texts of envelopes mean to a service.

ghost use Rattle.std.specs.Prelude.{◌≡◌, IfOk};
ghost use Rattle.pws_driver.specs.Envelopes.{EnvelopeWords, TextsFit};

use pws_base::bytes::Bytes;
use pws_base::memory::Memory;
use pws_base::shapes::GroupId;
use pws_service::keys::Key;
use pws_tree::xml_texts::XmlText;
use std::alloc::Global;

/// What the texts of envelopes mean to a service, and the texts that it makes. A message is the text of an envelope.
///
/// Each call may answer `Memory`, and nothing else that its entry doesn't name.
pub trait Envelopes: Drop {
    /// The meaning of each call.
    ghost words: { EnvelopeWords };

    /// The text of a call of the group `me`, with a text in its body; the key names the called group. None where it would
    /// be longer than a body may be.
    fn call_text(
        alloc: Global,
        me: GroupId,
        key: Key,
        text: &XmlText,
    ) -> Result<Option<Bytes>, Memory>
        ensures { IfOk result (λ t. t ≡ words.call_text me key text.now) };

    /// The text of the fault that answers a request with this body to the group `me`, or None where the body is an
    /// envelope with readable addressing; the key names the caller.
    fn refusal_of(
        alloc: Global,
        me: GroupId,
        key: Key,
        body: &[u8],
    ) -> Result<Option<Bytes>, Memory>
        ensures { IfOk result (λ t. t ≡ words.refusal_of me key body.now) };

    /// The text of the reply of the group `me` to a request with this message, with a text in its body, or of the fault in
    /// its place where it would be longer than a body may be.
    fn reply_text(
        alloc: Global,
        me: GroupId,
        key: Key,
        message: &[u8],
        text: &XmlText,
    ) -> Result<Bytes, Memory>
        ensures { IfOk result (λ t. t ≡ words.reply_text me key message.now text.now) };

    /// The text of the fault by which a halted service answers a request with this body.
    fn halted_text(alloc: Global, me: GroupId, key: Key, body: &[u8]) -> Result<Bytes, Memory>
        ensures { IfOk result (λ t. t ≡ words.halted_text me key body.now) };

    /// Whether the body of a reply is an envelope.
    fn is_readable(alloc: Global, body: &[u8]) -> Result<bool, Memory>
        ensures { IfOk result (λ r. r ≡ words.is_readable body.now) };

    /// The message of a reply whose body is no envelope.
    fn unreadable(alloc: Global) -> Result<Bytes, Memory>
        ensures { IfOk result (λ t. t ≡ words.unreadable) };

    /// The message of an aborted call.
    fn timed_out(alloc: Global) -> Result<Bytes, Memory>
        ensures { IfOk result (λ t. t ≡ words.timed_out) };

    /// Whether two messages are the same tree.
    fn same_message(alloc: Global, message: &[u8], other: &[u8]) -> Result<bool, Memory>
        ensures { IfOk result (λ r. r ≡ words.same_message message.now other.now) };

    /// The texts within the first child of this name of the first element of a message's body, joined.
    fn field_text(alloc: Global, message: &[u8], name: &[u8]) -> Result<XmlText, Memory>
        ensures { IfOk result (λ t. t ≡ words.field_text message.now name.now) };

    /// What is made here fits into a body.
    ghost fit: { TextsFit words };
}
