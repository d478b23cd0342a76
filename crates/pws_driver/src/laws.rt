//! Laws of runs from scratch.

ghost use Rattle.pws_driver.specs.Laws.{RunsEnd, RunsGoOn, ActsGrow, CallsAreLawful, RepliesAreLawful, AsksAreLawful};

/// Nothing more could be done at the end of a run.
pub fn runs_end()
    ensures { RunsEnd }
{}

/// The run on a longer list of effects goes on from where the run on the shorter one ended.
pub fn runs_go_on()
    ensures { RunsGoOn }
{}

/// The acts on a prefix of the effects are a prefix of the acts on the whole.
pub fn acts_grow()
    ensures { ActsGrow }
{}

/// The calls of a script are lawful on any effects.
pub fn calls_are_lawful()
    ensures { CallsAreLawful }
{}

/// The replies of a script are lawful where each effect took effect in turn.
pub fn replies_are_lawful()
    ensures { RepliesAreLawful }
{}

/// The asks of a script are lawful on any effects.
pub fn asks_are_lawful()
    ensures { AsksAreLawful }
{}
