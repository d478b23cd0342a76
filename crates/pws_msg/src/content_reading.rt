//! Reading contents.

ghost use Rattle.pws_base.specs.Fields.{Gives, GivesOrMemory, GivesWhole};
ghost use Rattle.std.specs.Prelude.{◌≡◌, IfOk};
ghost use Rattle.pws_msg.specs.Contents.{kind_of};
ghost use Rattle.pws_msg.specs.ContentFields.{fields_at, kind_field, content_of, wanted_at, content_of_kind};

use crate::contents::Content;
use crate::kinds::Kind;
use crate::reported::{take_new_view, take_view_change};
use crate::taking::{
    take_call_name, take_change_name, take_decided_event, take_own_reading, take_own_request,
    take_place_digest, take_place_vote, take_proposal, take_reply_note, take_wanted_place,
};
use pws_base::fields::{FaultKind, FieldError, FieldFault, FieldReader};
use pws_event::parsing::read_fields;
use std::alloc::Global;

/// Reads the byte of a kind.
#[tactic(auto, unfolding(crate::specs::ContentFields::kind_field))]
fn take_kind(fields: &mut FieldReader<'_>) -> Result<Kind, FieldFault>
    ensures { Gives (λ k. k) result fields.new (kind_field fields.old) }
{
    let unknown = fields.fault(FaultKind::Kind);
    let byte = fields.take_u8()?;
    match Kind::with_byte(byte) {
        Some(kind) => Ok(kind),
        None => Err(unknown),
    }
}

/// Reads the fields of a content of this kind.
#[tactic(auto, unfolding(crate::specs::ContentFields::fields_at))]
fn take_fields(
    alloc: Global,
    kind: Kind,
    fields: &mut FieldReader<'_>,
) -> Result<Content, FieldError>
    ensures read { GivesOrMemory (λ c. c) result fields.new (fields_at kind fields.old) }
    ensures kind { IfOk result (λ c. kind_of c ≡ kind) }
{
    match kind {
        Kind::Request => Ok(Content::Request(take_own_request(alloc, fields)?)),
        Kind::Reply => Ok(Content::Reply(take_reply_note(fields)?)),
        Kind::Part => Ok(Content::Part(take_reply_note(fields)?)),
        Kind::Expired => Ok(Content::Expired(take_call_name(fields)?)),
        Kind::Reading => Ok(Content::Reading(take_own_reading(fields)?)),
        Kind::PrePrepare => Ok(Content::PrePrepare(take_proposal(alloc, fields)?)),
        Kind::Prepare => Ok(Content::Prepare(take_place_vote(fields)?)),
        Kind::Commit => Ok(Content::Commit(take_place_vote(fields)?)),
        Kind::Checkpoint => Ok(Content::Checkpoint(take_place_digest(fields)?)),
        Kind::ViewChange => Ok(Content::ViewChange(take_view_change(alloc, fields)?)),
        Kind::Ack => Ok(Content::Ack(take_change_name(fields)?)),
        Kind::NewView => Ok(Content::NewView(take_new_view(alloc, fields)?)),
        Kind::Relay => Ok(Content::Relay(take_change_name(fields)?)),
        Kind::Fetch => Ok(Content::Fetch(take_wanted_place(fields)?)),
        Kind::Done => Ok(Content::Done(take_decided_event(alloc, fields)?)),
        Kind::Need => Ok(Content::Need(fields.take_digest()?)),
        Kind::Give => Ok(Content::Give(read_fields(alloc, fields)?)),
    }
}

/// Reads a content that ends where the bytes do.
#[tactic(auto, unfolding(crate::specs::ContentFields::content_of))]
pub fn take_content(alloc: Global, fields: &mut FieldReader<'_>) -> Result<Content, FieldError>
    ensures { GivesWhole (λ c. c) result (content_of fields.old) }
{
    let kind = take_kind(fields)?;
    let content = take_fields(alloc, kind, fields)?;
    fields.end()?;
    Ok(content)
}

/// Reads the fields of a content that is to be of this kind, with the byte of its kind.
#[tactic(auto, unfolding(crate::specs::ContentFields::wanted_at))]
fn take_wanted(
    alloc: Global,
    wanted: Kind,
    fields: &mut FieldReader<'_>,
) -> Result<Content, FieldError>
    ensures read { GivesOrMemory (λ c. c) result fields.new (wanted_at wanted fields.old) }
    ensures kind { IfOk result (λ c. kind_of c ≡ wanted) }
{
    let unknown = fields.fault(FaultKind::Kind);
    let byte = fields.take_u8()?;
    if byte == wanted.byte() {
        take_fields(alloc, wanted, fields)
    } else {
        Err(FieldError::Fault(unknown))
    }
}

/// Reads a content that is to be of this kind, and ends where the bytes do.
#[tactic(auto, unfolding(crate::specs::ContentFields::content_of_kind))]
pub fn take_content_of_kind(
    alloc: Global,
    wanted: Kind,
    fields: &mut FieldReader<'_>,
) -> Result<Content, FieldError>
    ensures read { GivesWhole (λ c. c) result (content_of_kind wanted fields.old) }
    ensures kind { IfOk result (λ c. kind_of c ≡ wanted) }
{
    let content = take_wanted(alloc, wanted, fields)?;
    fields.end()?;
    Ok(content)
}
