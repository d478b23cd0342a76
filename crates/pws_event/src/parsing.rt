//! Reading the text of an event.

ghost use Rattle.std.specs.Prelude.{◌≡◌, ◌+◌, ◌<◌, ◌≤◌, ◌^◌, All, length, IfOk, IsTrue};
ghost use Rattle.pws_base.specs.Fields.{Gives, GivesOrMemory, GivesWhole};
ghost use Rattle.pws_event.specs.Readings.{is_count};
ghost use Rattle.pws_event.specs.EventFields.{request_at, reply_at, abort_at, count_field, reading_at, share_at, readings_at, shares_at, clock_at, random_at, kind_at, event_at, event_of};

use crate::answers::{Abort, Reply};
use crate::events::Event;
use crate::readings::{Clock, Random, Reading, Share};
use crate::requests::Request;
use pws_base::bytes::Bytes;
use pws_base::fields::{FaultKind, FieldError, FieldFault, FieldReader};
use pws_base::lists::Sequence;
use std::alloc::Global;

/// Why a text is no event: what is wrong, and the place of the first byte of the field that is, or of the first byte
/// left over.
pub type EventError = FieldFault;

#[tactic(auto, unfolding(crate::specs::EventFields::request_at))]
fn read_request(alloc: Global, fields: &mut FieldReader<'_>) -> Result<Event, FieldError>
    ensures { GivesOrMemory (λ e. e) result fields.new (request_at fields.old) }
{
    let caller = fields.take_group()?;
    let number = fields.take_number()?;
    let low = fields.take_number()?;
    let body = Bytes::from_slice(alloc, fields.take_body()?)?;
    Ok(Event::Request(Request::new(caller, number, low, body)))
}

#[tactic(auto, unfolding(crate::specs::EventFields::reply_at))]
fn read_reply(alloc: Global, fields: &mut FieldReader<'_>) -> Result<Event, FieldError>
    ensures { GivesOrMemory (λ e. e) result fields.new (reply_at fields.old) }
{
    let called = fields.take_group()?;
    let number = fields.take_number()?;
    let body = Bytes::from_slice(alloc, fields.take_body()?)?;
    Ok(Event::Reply(Reply::new(called, number, body)))
}

#[tactic(auto, unfolding(crate::specs::EventFields::abort_at))]
fn read_abort(fields: &mut FieldReader<'_>) -> Result<Event, FieldFault>
    ensures { Gives (λ e. e) result fields.new (abort_at fields.old) }
{
    let called = fields.take_group()?;
    let number = fields.take_number()?;
    Ok(Event::Abort(Abort::new(called, number)))
}

/// Whether there may be so many readings or shares.
fn is_count(n: u8) -> bool
    ensures { result ≡ is_count n }
{
    n == 1 || n == 3 || n == 5 || n == 7
}

/// Reads how many readings or shares follow.
fn read_count(fields: &mut FieldReader<'_>) -> Result<u8, FieldFault>
    ensures read { Gives (λ n. n) result fields.new (count_field fields.old) }
    ensures count { IfOk result (λ n. IsTrue (is_count n)) }
{
    let range = fields.fault(FaultKind::Range);
    let count = fields.take_u8()?;
    if is_count(count) {
        Ok(count)
    } else {
        Err(range)
    }
}

#[tactic(auto, unfolding(crate::specs::EventFields::reading_at))]
fn read_reading(fields: &mut FieldReader<'_>, least: u8) -> Result<Reading, FieldFault>
    ensures read { Gives (λ r. r) result fields.new (reading_at least fields.old) }
    ensures index { IfOk result (λ r. (least ≤ r.index) × (r.index ≤ 9)) }
    ensures time { IfOk result (λ r. r.ms < 2 ^ 64) }
{
    let index = fields.take_u8_within(least, 9)?;
    let ms = fields.take_u64()?;
    Ok(Reading { index, ms })
}

/// Reads so many readings, rising by index.
#[tactic(auto, using(crate::proofs::Rising::start, crate::proofs::Rising::more, crate::proofs::Rising::refused, crate::proofs::Rising::done))]
fn read_readings(
    alloc: Global,
    fields: &mut FieldReader<'_>,
    count: u8,
) -> Result<Sequence<Reading>, FieldError>
    ensures read { GivesOrMemory (λ rs. rs) result fields.new (readings_at count fields.old) }
    ensures times { IfOk result (λ rs. All (λ r. r.ms < 2 ^ 64) rs) }
{
    let mut readings = Sequence::new(alloc);
    let mut least = 0;
    for _ in 0..count {
        let reading = read_reading(fields, least)?;
        least = reading.index + 1;
        readings.push(reading)?;
    }
    Ok(readings)
}

#[tactic(auto, unfolding(crate::specs::EventFields::clock_at))]
fn read_clock(alloc: Global, fields: &mut FieldReader<'_>) -> Result<Event, FieldError>
    ensures { GivesOrMemory (λ e. e) result fields.new (clock_at fields.old) }
{
    let ask = fields.take_number()?;
    let count = read_count(fields)?;
    let readings = read_readings(alloc, fields, count)?;
    Ok(Event::Clock(Clock::new(ask, readings)))
}

#[tactic(auto, unfolding(crate::specs::EventFields::share_at))]
fn read_share(fields: &mut FieldReader<'_>, least: u8) -> Result<Share, FieldFault>
    ensures read { Gives (λ s. s) result fields.new (share_at least fields.old) }
    ensures index { IfOk result (λ s. (least ≤ s.index) × (s.index ≤ 9)) }
{
    let index = fields.take_u8_within(least, 9)?;
    let bytes = fields.take_digest()?;
    Ok(Share { index, bytes })
}

/// Reads so many shares, rising by index.
#[tactic(auto, using(crate::proofs::Rising::start, crate::proofs::Rising::more, crate::proofs::Rising::refused, crate::proofs::Rising::done))]
fn read_shares(
    alloc: Global,
    fields: &mut FieldReader<'_>,
    count: u8,
) -> Result<Sequence<Share>, FieldError>
    ensures read { GivesOrMemory (λ ss. ss) result fields.new (shares_at count fields.old) }
{
    let mut shares = Sequence::new(alloc);
    let mut least = 0;
    for _ in 0..count {
        let share = read_share(fields, least)?;
        least = share.index + 1;
        shares.push(share)?;
    }
    Ok(shares)
}

#[tactic(auto, unfolding(crate::specs::EventFields::random_at))]
fn read_random(alloc: Global, fields: &mut FieldReader<'_>) -> Result<Event, FieldError>
    ensures { GivesOrMemory (λ e. e) result fields.new (random_at fields.old) }
{
    let ask = fields.take_number()?;
    let count = read_count(fields)?;
    let shares = read_shares(alloc, fields, count)?;
    Ok(Event::Random(Random::new(ask, shares)))
}

/// Reads the fields of an event of this kind, whose kind byte is the byte before them.
#[tactic(auto, unfolding(crate::specs::EventFields::kind_at))]
fn read_kind(
    alloc: Global,
    kind: u8,
    unknown: FieldFault,
    fields: &mut FieldReader<'_>,
) -> Result<Event, FieldError>
    ensures { GivesOrMemory (λ e. e) result fields.new (kind_at kind unknown fields.old) }
{
    match kind {
        0 => Ok(Event::Null),
        1 => read_request(alloc, fields),
        2 => read_reply(alloc, fields),
        3 => Ok(read_abort(fields)?),
        4 => read_clock(alloc, fields),
        5 => read_random(alloc, fields),
        _ => Err(FieldError::Fault(unknown)),
    }
}

/// Reads an event, with its kind byte, from the front of what is left of a text.
///
/// # Errors
///
/// `Fault` as `read_event`, but for bytes that follow, and else `Memory` only. The reader then stands somewhere in what
/// was left.
#[tactic(auto, unfolding(crate::specs::EventFields::event_at))]
pub fn read_fields(alloc: Global, fields: &mut FieldReader<'_>) -> Result<Event, FieldError>
    ensures { GivesOrMemory (λ e. e) result fields.new (event_at fields.old) }
{
    let unknown = fields.fault(FaultKind::Kind);
    let kind = fields.take_u8()?;
    read_kind(alloc, kind, unknown, fields)
}

/// The event that a text spells, by the table of events in docs/FORMATS.md.
///
/// # Errors
///
/// `Fault` exactly where the text is no event, with what is wrong and where: `Kind` at 0 where no event has the first
/// byte's kind, `Short` or `Range` at the first byte of the first field that isn't whole or is out of range, and `Rest`
/// at the first byte left over; and else `Memory` only.
#[tactic(auto, unfolding(crate::specs::EventFields::event_of))]
pub fn read_event(alloc: Global, text: &[u8]) -> Result<Event, FieldError>
    ensures { GivesWhole (λ e. e) result (event_of text.now) }
{
    let mut fields = FieldReader::new(text);
    let event = read_fields(alloc, &mut fields)?;
    fields.end()?;
    Ok(event)
}
