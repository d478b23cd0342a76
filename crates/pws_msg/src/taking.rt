//! Reading statements, field by field.

ghost use Rattle.pws_base.specs.Fields.{Gives, GivesOrMemory};
ghost use Rattle.pws_msg.specs.StatementFields.{reading_value_at, time_at, share_at, own_request_at, reply_note_at, call_name_at, own_reading_at, proposal_at, place_vote_at, place_digest_at, change_name_at, wanted_place_at, decided_event_at};

use crate::places::{ChangeName, DecidedEvent, PlaceDigest, PlaceVote, Proposal, WantedPlace};
use crate::readings::ReadingValue;
use crate::requests::{CallName, OwnReading, OwnRequest, ReplyNote};
use pws_base::bytes::Bytes;
use pws_base::fields::{FieldError, FieldFault, FieldReader};
use pws_event::parsing::read_fields;
use std::alloc::Global;

#[tactic(auto, unfolding(crate::specs::StatementFields::time_at))]
fn take_time(fields: &mut FieldReader<'_>) -> Result<ReadingValue, FieldFault>
    ensures { Gives (λ v. v) result fields.new (time_at fields.old) }
{
    let ms = fields.take_u64()?;
    Ok(ReadingValue::Time(ms))
}

#[tactic(auto, unfolding(crate::specs::StatementFields::share_at))]
fn take_share(fields: &mut FieldReader<'_>) -> Result<ReadingValue, FieldFault>
    ensures { Gives (λ v. v) result fields.new (share_at fields.old) }
{
    let share = fields.take_digest()?;
    Ok(ReadingValue::Share(share))
}

/// Reads a time or a share, after its sort.
#[tactic(auto, unfolding(crate::specs::StatementFields::reading_value_at))]
fn take_reading_value(fields: &mut FieldReader<'_>) -> Result<ReadingValue, FieldFault>
    ensures { Gives (λ v. v) result fields.new (reading_value_at fields.old) }
{
    let sort = fields.take_u8_within(0, 1)?;
    if sort == 0 {
        take_time(fields)
    } else {
        take_share(fields)
    }
}

/// Reads a request.
#[tactic(auto, unfolding(crate::specs::StatementFields::own_request_at), using(crate::proofs::Ranges::u8_range, crate::proofs::Ranges::u32_range))]
pub fn take_own_request(
    alloc: Global,
    fields: &mut FieldReader<'_>,
) -> Result<OwnRequest, FieldError>
    ensures { GivesOrMemory (λ r. r) result fields.new (own_request_at fields.old) }
{
    let number = fields.take_number()?;
    let low = fields.take_number()?;
    let body = Bytes::from_slice(alloc, fields.take_body()?)?;
    Ok(OwnRequest::new(number, low, body))
}

/// Reads a named reply.
#[tactic(auto, unfolding(crate::specs::StatementFields::reply_note_at), using(crate::proofs::Ranges::u8_range, crate::proofs::Ranges::u32_range))]
pub fn take_reply_note(fields: &mut FieldReader<'_>) -> Result<ReplyNote, FieldError>
    ensures { GivesOrMemory (λ r. r) result fields.new (reply_note_at fields.old) }
{
    let caller = fields.take_group()?;
    let number = fields.take_number()?;
    let digest = fields.take_digest()?;
    Ok(ReplyNote::new(caller, number, digest))
}

/// Reads a named call.
#[tactic(auto, unfolding(crate::specs::StatementFields::call_name_at), using(crate::proofs::Ranges::u8_range, crate::proofs::Ranges::u32_range))]
pub fn take_call_name(fields: &mut FieldReader<'_>) -> Result<CallName, FieldError>
    ensures { GivesOrMemory (λ n. n) result fields.new (call_name_at fields.old) }
{
    let called = fields.take_group()?;
    let number = fields.take_number()?;
    Ok(CallName::new(called, number))
}

/// Reads a reading.
#[tactic(auto, unfolding(crate::specs::StatementFields::own_reading_at), using(crate::proofs::Ranges::u8_range, crate::proofs::Ranges::u32_range))]
pub fn take_own_reading(fields: &mut FieldReader<'_>) -> Result<OwnReading, FieldError>
    ensures { GivesOrMemory (λ r. r) result fields.new (own_reading_at fields.old) }
{
    let ask = fields.take_number()?;
    let value = take_reading_value(fields)?;
    Ok(OwnReading::new(ask, value))
}

/// Reads a proposal.
#[tactic(auto, unfolding(crate::specs::StatementFields::proposal_at), using(crate::proofs::Ranges::u8_range, crate::proofs::Ranges::u32_range))]
pub fn take_proposal(alloc: Global, fields: &mut FieldReader<'_>) -> Result<Proposal, FieldError>
    ensures { GivesOrMemory (λ p. p) result fields.new (proposal_at fields.old) }
{
    let view = fields.take_view()?;
    let place = fields.take_number()?;
    let event = read_fields(alloc, fields)?;
    Ok(Proposal::new(view, place, event))
}

/// Reads a vote.
#[tactic(auto, unfolding(crate::specs::StatementFields::place_vote_at), using(crate::proofs::Ranges::u8_range, crate::proofs::Ranges::u32_range))]
pub fn take_place_vote(fields: &mut FieldReader<'_>) -> Result<PlaceVote, FieldError>
    ensures { GivesOrMemory (λ v. v) result fields.new (place_vote_at fields.old) }
{
    let view = fields.take_view()?;
    let place = fields.take_number()?;
    let digest = fields.take_digest()?;
    Ok(PlaceVote::new(view, place, digest))
}

/// Reads a place with its digest.
#[tactic(auto, unfolding(crate::specs::StatementFields::place_digest_at), using(crate::proofs::Ranges::u8_range, crate::proofs::Ranges::u32_range))]
pub fn take_place_digest(fields: &mut FieldReader<'_>) -> Result<PlaceDigest, FieldError>
    ensures { GivesOrMemory (λ d. d) result fields.new (place_digest_at fields.old) }
{
    let place = fields.take_number()?;
    let digest = fields.take_digest()?;
    Ok(PlaceDigest::new(place, digest))
}

/// Reads a named view change.
#[tactic(auto, unfolding(crate::specs::StatementFields::change_name_at), using(crate::proofs::Ranges::u8_range, crate::proofs::Ranges::u32_range))]
pub fn take_change_name(fields: &mut FieldReader<'_>) -> Result<ChangeName, FieldError>
    ensures { GivesOrMemory (λ n. n) result fields.new (change_name_at fields.old) }
{
    let view = fields.take_view()?;
    let index = fields.take_index()?;
    let digest = fields.take_digest()?;
    Ok(ChangeName::new(view, index, digest))
}

/// Reads a place.
#[tactic(auto, unfolding(crate::specs::StatementFields::wanted_place_at), using(crate::proofs::Ranges::u8_range, crate::proofs::Ranges::u32_range))]
pub fn take_wanted_place(fields: &mut FieldReader<'_>) -> Result<WantedPlace, FieldError>
    ensures { GivesOrMemory (λ w. w) result fields.new (wanted_place_at fields.old) }
{
    let place = fields.take_number()?;
    Ok(WantedPlace::new(place))
}

/// Reads a place with its event.
#[tactic(auto, unfolding(crate::specs::StatementFields::decided_event_at), using(crate::proofs::Ranges::u8_range, crate::proofs::Ranges::u32_range))]
pub fn take_decided_event(
    alloc: Global,
    fields: &mut FieldReader<'_>,
) -> Result<DecidedEvent, FieldError>
    ensures { GivesOrMemory (λ d. d) result fields.new (decided_event_at fields.old) }
{
    let place = fields.take_number()?;
    let event = read_fields(alloc, fields)?;
    Ok(DecidedEvent::new(place, event))
}
