//! The words for events, in reports and elsewhere.

ghost use Rattle.std.specs.Prelude.{◌≡◌, IfOk, string_bytes};
ghost use Rattle.pws_event.specs.Words.{call_words, event_words};

use crate::events::Event;
use pws_base::memory::Memory;
use pws_base::shapes::{GroupId, Number};
use std::alloc::Global;

/// The words for a request, or for an answer to a call: the other group, and the number.
fn call_words(alloc: Global, kind: &str, group: GroupId, number: Number) -> Result<String, Memory>
    ensures { IfOk result (λ words. string_bytes words ≡ call_words kind.now group number) }
{
    Ok(format!(in alloc; "{kind} {group} {number}")?)
}

/// What an event is, by the words of reports in docs/FORMATS.md.
///
/// # Errors
///
/// `Memory` only.
pub fn event_words(alloc: Global, event: &Event) -> Result<String, Memory>
    ensures { IfOk result (λ words. string_bytes words ≡ event_words event.now) }
{
    match event {
        Event::Null => Ok(format!(in alloc; "null")?),
        Event::Request(request) => {
            call_words(alloc, "request", request.caller(), request.number())
        }
        Event::Reply(reply) => call_words(alloc, "reply", reply.called(), reply.number()),
        Event::Abort(abort) => call_words(alloc, "abort", abort.called(), abort.number()),
        Event::Clock(clock) => {
            let ask = clock.ask();
            Ok(format!(in alloc; "clock {ask}")?)
        }
        Event::Random(random) => {
            let ask = random.ask();
            Ok(format!(in alloc; "random {ask}")?)
        }
    }
}
