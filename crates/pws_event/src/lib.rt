//! What a group agrees on: events, their list, and which of them take effect.
//!
//! - `events` has an `Event`, its one text, the length of that text and its digest; `parsing` reads the text, and
//!   `words` prints what an event is. `requests`, `answers` and `readings` have what an event holds, whose fields are in
//!   range by their types.
//! - `lists` has the `EventList`: the events of a group, place by place, with their digests and their chain. It
//!   keeps texts up to a bound, and beyond it the digests alone.
//! - `effects` has `Effect`, a few counters that tell which events take effect; `times` has the time and the seed that
//!   a group agrees on.
//! - `laws` states what follows from the definitions alone.
//!
//! A replica uses them in a loop. It pushes the next event onto its list (`EventList::push`). Where the event was kept
//! whole it gives it to `Effect::take`; a bare place is passed by, as it never takes effect. Where the answer is `Taken`
//! the group's service takes the event too, and before the next event is taken each call and each ask that the service
//! makes is noted (`Effect::call`, `Effect::ask`). In between the readers of `Effect` tell what is open: the numbers that
//! a caller may use next, the calls that wait, the ask that waits, the agreed time.
//!
//! Definitions to believe, in the order of reading: `Requests`, `Answers`, `Readings`, `Events`, `EventFields`, `Words`,
//! `Times`, `Effects`, `Lists`, `Histories`, and of `Counters` the conditions of a call, `CanCall`; then what follows,
//! `TextLaws`, `Laws` and `Determined`. The rest of `Counters` tells how little of a past has to be kept, and `Slots` how
//! a list is stored; `Equal` is there for the laws of comparisons.
//!
//! The one contract: whether an event takes effect is a function of the events before it that did, and of what the
//! group's service called and asked. The rule is said over the whole list, from scratch; the counters answer by it,
//! whatever history they were led through. Every service and every vote above stands on this rule.
#![tactic(auto)]

pub mod answers;
pub mod effects;
pub mod events;
pub mod laws;
pub mod lists;
pub mod parsing;
pub mod readings;
pub mod requests;
pub mod times;
pub mod words;
