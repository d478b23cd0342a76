//! Why the voter takes the steps of the safety argument: each law is the contract of a function that does nothing.

ghost use Rattle.pws_refine.specs.Alone.{AloneAsMoreIsSaid, AloneExecutesSupported, StartStandsAlone};
ghost use Rattle.pws_refine.specs.Laws.{ActionsKeep, ActionsKeepGroup, ActionsRefine, FitsIsReady, HearingKeeps, OwnChangeIsValid, ReactionsRefine, StandsAsMoreIsSaid, StartStands, TicksRepeat};

/// Each of the sixteen actions is one step of the voters of the safety argument, or none.
pub fn actions_refine()
    ensures { ActionsRefine }
{}

/// After each action all stands on which the next one rests: above all, what the voter holds as said by others can be
/// heard as theirs.
pub fn actions_keep()
    ensures { ActionsKeep }
{}

/// What a voter reports as it moves to a later view is valid.
pub fn own_change_is_valid()
    ensures { OwnChangeIsValid }
{}

/// The invariant of a group stands as one of its correct voters acts.
pub fn actions_keep_group()
    ensures { ActionsKeepGroup }
{}

/// What is kept of a packet that wasn't forged can be heard as its sender's; it says nothing, and is no step.
pub fn hearing_keeps()
    ensures { HearingKeeps }
{}

/// What a voter says again at a tick was said.
pub fn ticks_repeat()
    ensures { TicksRepeat }
{}

/// A whole reaction of a correct voter keeps the invariant of its group, and leaves all that the next one rests on.
pub fn reactions_refine()
    ensures { ReactionsRefine }
{}

/// All on which a voter's actions rest stands as others say more, and as more occurs.
pub fn stands_as_more_is_said()
    ensures { StandsAsMoreIsSaid }
{}

/// A voter that has heard nothing begins as those of the safety argument do, and all stands on which its actions rest.
pub fn start_stands()
    ensures { StartStands }
{}

/// A voter that fits is ready.
pub fn fits_is_ready()
    ensures { FitsIsReady }
{}

/// What a voter that is alone in its group executes is supported by what can be heard: so it is at the start, in each
/// reaction, and as others say more.
pub fn alone_executes_supported()
    ensures start { StartStandsAlone }
    ensures supported { AloneExecutesSupported }
    ensures more { AloneAsMoreIsSaid }
{}
