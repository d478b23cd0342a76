//! Laws of the texts of events, of the rule of effects, of the counters and of the agreed time: each is the contract of
//! a function that does nothing.

ghost use Rattle.pws_event.specs.Laws.{EffectsGrow, EffectsFollow, EventsAreLast, EffectsAreOnce, HistoriesGrow, AgreedTimeIsRanked, TimeIsBetween};
ghost use Rattle.pws_event.specs.Determined.{CountersAreDetermined, CountersAreOne};
ghost use Rattle.pws_event.specs.TextLaws.{TextsReadBack, TextsWriteBack, TextsDiffer};

/// The effects of a longer list of events begin with those of the shorter.
pub fn effects_grow()
    ensures { EffectsGrow }
{}

/// The effects on one place more are those before it, and its event where that was kept and takes effect.
pub fn effects_follow()
    ensures { EffectsFollow }
{}

/// At the last place stands what was placed there.
pub fn events_are_last()
    ensures { EventsAreLast }
{}

/// In every list of events a request, which its caller and its number name, takes effect at most once, at one place.
pub fn effects_are_once()
    ensures { EffectsAreOnce }
{}

/// Reading the text of an event gives the event.
pub fn texts_read_back()
    ensures { TextsReadBack }
{}

/// Bytes that read as an event are its text, and its fields are in range.
pub fn texts_write_back()
    ensures { TextsWriteBack }
{}

/// No two events have one text, so that each text is read by exactly one value.
pub fn texts_differ()
    ensures { TextsDiffer }
{}

/// What a history comes to after one more step is what it came to, and the step.
pub fn histories_grow()
    ensures { HistoriesGrow }
{}

/// Counters that are those of a past are determined by it.
pub fn counters_are_determined()
    ensures { CountersAreDetermined }
{}

/// Any two counters of one past are equal, in one group of one layout.
pub fn counters_are_one()
    ensures { CountersAreOne }
{}

/// Where there are readings, the agreed time is the one time at its rank, and is one of them.
pub fn agreed_time_is_ranked()
    ensures { AgreedTimeIsRanked }
{}

/// Among the readings of a quorum, of a group that has no more compromised replicas than it bears, a correct one is at
/// or below the agreed time, and a correct one at or above it.
pub fn time_is_between()
    ensures { TimeIsBetween }
{}
