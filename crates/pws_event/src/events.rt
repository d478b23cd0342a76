//! Events, their texts and their digests.

ghost use Rattle.std.specs.Prelude.{◌≡◌, ◌↔◌, ◌++◌, ◌≤◌, length, IfOk, OnOk, IsTrue};
ghost use Rattle.sha2.specs.Sha256.{sha256};
ghost use Rattle.std.specs.List.{flat_map};
ghost use Rattle.pws_event.specs.Events.{request_text, reply_text, abort_text, reading_text, clock_text, share_text, random_text, event_text, digest_of, IsEvent};
ghost use Rattle.pws_base.specs.Limits.{max_event};
ghost use Rattle.pws_event.specs.declared.events.Event.{Event};

use crate::answers::{Abort, Reply};
use crate::readings::{Clock, Random, Reading, Share};
use crate::requests::Request;
use pws_base::lists::ExactCopy;
use pws_base::memory::Memory;
use pws_base::shapes::Digest;
use pws_base::writers::Writer;
use sha2::{Digest as _, Sha256};
use std::alloc::Global;

/// What a group agrees on at one place.
#[derive(Debug, Drop, PartialEq, Eq)]
pub enum Event {
    /// Nothing: it keeps its place and changes nothing.
    Null,
    /// A request of another group.
    Request(Request),
    /// The reply of a called group.
    Reply(Reply),
    /// The end of a call that wasn't answered in time.
    Abort(Abort),
    /// Readings of the clock, which answer an ask for the time.
    Clock(Clock),
    /// Shares of a seed, which answer an ask for one.
    Random(Random),
}

impl Event {
    /// Whether two events are one.
    pub fn is_same(&self, other: &Event) -> bool
        ensures { IsTrue result ↔ (self.now ≡ other.now) }
    {
        match (self, other) {
            (Event::Null, Event::Null) => true,
            (Event::Request(request), Event::Request(second)) => request == second,
            (Event::Reply(reply), Event::Reply(second)) => reply == second,
            (Event::Abort(abort), Event::Abort(second)) => abort == second,
            (Event::Clock(clock), Event::Clock(second)) => clock == second,
            (Event::Random(random), Event::Random(second)) => random == second,
            _ => false,
        }
    }

    /// An event's fields are in range.
    pub fn lawful(&self)
        ensures { IsEvent self.now }
    {
        // shows: what an event holds is in range, by its type
        match self {
            Event::Null => {}
            Event::Request(request) => {
                let _caller = request.caller();
            }
            Event::Reply(reply) => {
                let _called = reply.called();
            }
            Event::Abort(abort) => {
                let _called = abort.called();
            }
            Event::Clock(clock) => {
                let _ask = clock.ask();
            }
            Event::Random(random) => {
                let _ask = random.ask();
            }
        }
    }
}

impl ExactCopy for Event {
    fn copy(&self, alloc: Global) -> Result<Event, Memory> {
        match self {
            Event::Null => Ok(Event::Null),
            Event::Request(request) => Ok(Event::Request(request.copy(alloc)?)),
            Event::Reply(reply) => Ok(Event::Reply(reply.copy(alloc)?)),
            Event::Abort(abort) => Ok(Event::Abort(abort.copy(alloc)?)),
            Event::Clock(clock) => Ok(Event::Clock(clock.copy(alloc)?)),
            Event::Random(random) => Ok(Event::Random(random.copy(alloc)?)),
        }
    }
}

/// Writes the text of a request.
fn put_request(text: &mut Writer, request: &Request) -> Result<(), Memory>
    ensures { OnOk result (text.new ≡ text.old ++ request_text request.now) }
{
    let body = request.body();
    text.put_u8(1)?;
    text.put_u8(request.caller())?;
    text.put_u32(request.number())?;
    text.put_u32(request.low())?;
    text.put_u32(body.len() as u32)?;
    text.put_bytes(body)
}

/// Writes the text of a reply.
fn put_reply(text: &mut Writer, reply: &Reply) -> Result<(), Memory>
    ensures { OnOk result (text.new ≡ text.old ++ reply_text reply.now) }
{
    let body = reply.body();
    text.put_u8(2)?;
    text.put_u8(reply.called())?;
    text.put_u32(reply.number())?;
    text.put_u32(body.len() as u32)?;
    text.put_bytes(body)
}

/// Writes the text of an abort.
fn put_abort(text: &mut Writer, abort: &Abort) -> Result<(), Memory>
    ensures { OnOk result (text.new ≡ text.old ++ abort_text abort.now) }
{
    text.put_u8(3)?;
    text.put_u8(abort.called())?;
    text.put_u32(abort.number())
}

/// Writes a reading.
fn put_reading(text: &mut Writer, reading: &Reading) -> Result<(), Memory>
    ensures { OnOk result (text.new ≡ text.old ++ reading_text reading.now) }
{
    text.put_u8(reading.index)?;
    text.put_u64(reading.ms)
}

/// Writes readings, one after the other.
fn put_readings(text: &mut Writer, readings: &[Reading]) -> Result<(), Memory>
    ensures { OnOk result (text.new ≡ text.old ++ flat_map reading_text readings.now) }
{
    for reading in readings.iter() {
        put_reading(text, reading)?;
    }
    Ok(())
}

/// Writes the text of readings of the clock.
fn put_clock(text: &mut Writer, clock: &Clock) -> Result<(), Memory>
    ensures { OnOk result (text.new ≡ text.old ++ clock_text clock.now) }
{
    let readings = clock.readings();
    text.put_u8(4)?;
    text.put_u32(clock.ask())?;
    text.put_u8(readings.len() as u8)?;
    put_readings(text, readings)
}

/// Writes a share.
fn put_share(text: &mut Writer, share: &Share) -> Result<(), Memory>
    ensures { OnOk result (text.new ≡ text.old ++ share_text share.now) }
{
    text.put_u8(share.index)?;
    text.put_bytes(share.bytes.as_slice())
}

/// Writes shares, one after the other.
fn put_shares(text: &mut Writer, shares: &[Share]) -> Result<(), Memory>
    ensures { OnOk result (text.new ≡ text.old ++ flat_map share_text shares.now) }
{
    for share in shares.iter() {
        put_share(text, share)?;
    }
    Ok(())
}

/// Writes the text of shares of a seed.
fn put_random(text: &mut Writer, random: &Random) -> Result<(), Memory>
    ensures { OnOk result (text.new ≡ text.old ++ random_text random.now) }
{
    let shares = random.shares();
    text.put_u8(5)?;
    text.put_u32(random.ask())?;
    text.put_u8(shares.len() as u8)?;
    put_shares(text, shares)
}

/// The text of an event, by the table of events in docs/FORMATS.md.
///
/// # Errors
///
/// `Memory` only.
pub fn write_event(alloc: Global, event: &Event) -> Result<Vec<u8>, Memory>
    ensures { IfOk result (λ text. text.items ≡ event_text event.now) }
{
    let mut text = Writer::new(alloc);
    match event {
        Event::Null => text.put_u8(0)?,
        Event::Request(request) => put_request(&mut text, request)?,
        Event::Reply(reply) => put_reply(&mut text, reply)?,
        Event::Abort(abort) => put_abort(&mut text, abort)?,
        Event::Clock(clock) => put_clock(&mut text, clock)?,
        Event::Random(random) => put_random(&mut text, random)?,
    }
    Ok(text.into_bytes().into_vec())
}

/// How many bytes the text of an event has, at most 32,782; it takes no memory.
#[tactic(auto, using(crate::proofs::Lengths::request_length, crate::proofs::Lengths::reply_length, crate::proofs::Lengths::abort_length, crate::proofs::Lengths::clock_length, crate::proofs::Lengths::random_length, crate::proofs::Lengths::event_small))]
pub fn event_length(event: &Event) -> usize
    ensures value { result ≡ length (event_text event.now) }
    ensures lawful { IsEvent event.now }
    ensures small { result ≤ max_event }
{
    event.lawful(); // shows: what the event holds is in range, by its type
    match event {
        Event::Null => 1,
        Event::Request(request) => 14 + request.body().len(),
        Event::Reply(reply) => 10 + reply.body().len(),
        Event::Abort(_) => 6,
        Event::Clock(clock) => 6 + 9 * clock.readings().len(),
        Event::Random(random) => 6 + 33 * random.shares().len(),
    }
}

/// The digest of an event: the SHA-256 of its text.
///
/// # Errors
///
/// `Memory` only.
pub fn event_digest(alloc: Global, event: &Event) -> Result<Digest, Memory>
    ensures { IfOk result (λ digest. digest ≡ digest_of event.now) }
{
    let text = write_event(alloc, event)?;
    Ok(Sha256::digest(text.as_slice()))
}
