//! Laws of effects and acts.

ghost use Rattle.pws_service.specs.Laws.{EffectsAreInTurn, TurnsGrow, NotesGrow, LawsSplit, CallsMayBeNoted, AsksMayBeNoted, ActsReachOthers};

/// The events of a list that take effect do so in turn.
pub fn effects_are_in_turn()
    ensures { EffectsAreInTurn }
{}

/// One event more that takes effect does so in turn.
pub fn turns_grow()
    ensures { TurnsGrow }
{}

/// What one act more adds to what was called and asked.
pub fn notes_grow()
    ensures { NotesGrow }
{}

/// Lawful acts are lawful part by part.
pub fn laws_split()
    ensures { LawsSplit }
{}

/// A call that is lawful after these acts may be noted by counters that have taken them.
pub fn calls_may_be_noted()
    ensures { CallsMayBeNoted }
{}

/// No ask waits where one more is lawful.
pub fn asks_may_be_noted()
    ensures { AsksMayBeNoted }
{}

/// Lawful calls and replies go to other groups of the layout.
pub fn acts_reach_others()
    ensures { ActsReachOthers }
{}
