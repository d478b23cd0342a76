//! The report of a run.

ghost use Rattle.std.specs.Prelude.{◌≡◌, IfOk, string_bytes};
ghost use Rattle.std.specs.Option.{option_copied};
ghost use Rattle.pws_sim.specs.Reports.{fate, what_of, place_line, report_of};

use pws_base::bytes::Bytes;
use pws_base::memory::Memory;
use pws_base::shapes::Place;
use pws_base::writers::Writer;
use pws_event::events::Event;
use pws_event::lists::EventList;
use pws_event::words::event_words;
use std::alloc::Global;

/// Whether an event took effect.
fn fate(event: &Event) -> &'static str
    ensures { result.now ≡ fate event.now }
{
    match event {
        Event::Request(_) => " taken",
        _ => " void",
    }
}

/// The words for what stands at a place, and whether it took effect.
fn what_of(alloc: Global, event: Option<&Event>) -> Result<String, Memory>
    ensures { IfOk result (λ words. string_bytes words ≡ what_of (option_copied event.entry)) }
{
    let Some(event) = event else {
        return Ok(format!(in alloc; "bare void")?);
    };
    let words = event_words(alloc, event)?;
    let fate = fate(event);
    Ok(format!(in alloc; "{words}{fate}")?)
}

/// The line for a place.
fn place_line(
    alloc: Global,
    place: Place,
    event: Option<&Event>,
    digest: &[u8],
) -> Result<String, Memory>
    ensures { IfOk result (λ line. string_bytes line ≡ place_line place (record { digest = digest.now; event = option_copied event.entry })) }
{
    let what = what_of(alloc, event)?;
    let digest = hex::encode(alloc, digest)?;
    Ok(format!(in alloc; "place {place} {what} {digest}\n")?)
}

/// The report on an event list, by docs/FORMATS.md.
///
/// # Errors
///
/// `Memory` only.
#[tactic(auto, using(crate::proofs::Lines::lines_more, crate::proofs::Lines::whole_lines))]
pub fn report_of(alloc: Global, events: &EventList) -> Result<Bytes, Memory>
    ensures { IfOk result (λ text. text ≡ report_of events.now) }
{
    let mut text = Writer::new(alloc);
    text.put_bytes(b"pws-first 1\n")?;
    for i in 0..events.len() {
        let place = i + 1;
        let Some(digest) = events.digest(place) else {
            unreachable!()
        };
        let line = place_line(alloc, place, events.get(place), &digest)?;
        text.put_bytes(line.as_bytes())?;
    }
    text.put_bytes(b"end\n")?;
    Ok(text.into_bytes())
}
