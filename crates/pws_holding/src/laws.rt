//! How much a voter holds: each law is the contract of a function that does nothing.

ghost use Rattle.pws_holding.specs.Asked.{InputsAskForFew, ReactionsAskForFew, StartAsksForFew, TurnsAskForFew};
ghost use Rattle.pws_holding.specs.Bounds.{PartsAreSmall, VotersHoldLittle};
ghost use Rattle.pws_holding.specs.Tidy.{InputsKeepTidy, ReactionsKeepTidy, StartIsTidy, TurnsAreTidy};

/// Each event that a voter holds by its digest is named by a slot, a row of Q or the possible choice: of a voter that has
/// heard nothing, after each action of a reaction, and, where it was so before, after what an input brings before any
/// action and after the whole reaction.
pub fn texts_are_named()
    ensures start { StartIsTidy }
    ensures turn { TurnsAreTidy }
    ensures input { InputsKeepTidy }
    ensures reaction { ReactionsKeepTidy }
{}

/// Between two ticks a voter asks for the events of at most 1,024 digests: one that has heard nothing asked for none; and
/// where it was so before, it is so after each action that is done, after what an input brings before any action, and
/// after the whole reaction.
pub fn few_are_asked_for()
    ensures start { StartAsksForFew }
    ensures turn { TurnsAskForFew }
    ensures input { InputsAskForFew }
    ensures reaction { ReactionsAskForFew }
{}

/// A voter that fits and is tidy holds at most 20,737,829 bytes beside its evidence and the digests that it asked for since
/// the last tick; where these are few, at most 32 MiB beside its evidence.
pub fn voters_hold_little()
    ensures parts { PartsAreSmall }
    ensures whole { VotersHoldLittle }
{}
