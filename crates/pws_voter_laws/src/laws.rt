//! What holds of every voter: each law is the contract of a function that does nothing.

ghost use Rattle.pws_voter_laws.specs.Enabled.{DoneIsEnabled};
ghost use Rattle.pws_voter_laws.specs.Fitting.{ActionsKeepFits, InputsKeepFits, ReactionsKeepFits, SettlingKeepsFits, SettlingKeepsInputs, TurnsKeepFits};
ghost use Rattle.pws_voter_laws.specs.Rest.{ActionsAreFew, ActionsLeaveLess, ReactionsRest};
ghost use Rattle.pws_voter_laws.specs.Room.{ActionsHaveRoom, TicksHaveRoom};
ghost use Rattle.pws_voter_laws.specs.Staying.{ActionsLeaveTheVoter, ReactionsLeaveTheVoter};

/// What is done passes its own test.
pub fn done_is_enabled()
    ensures { DoneIsEnabled }
{}

/// A reaction ends: each action but the last leaves less to do, so that fewer than 1,000,001,000,000 are done; and the
/// function of the reaction, which has more turns than that, gives what the relation has.
pub fn reactions_rest()
    ensures less { ActionsLeaveLess }
    ensures few { ActionsAreFew }
    ensures met { ReactionsRest }
{}

/// What fits is kept. What fits before an action that is done fits after it, also once the texts that nothing names are
/// dropped. What fits still does once its evidence is settled, and may be given the same. And what fits before an input
/// fits after what it brings before any action, and after the whole reaction to it.
pub fn voters_fit()
    ensures settled { SettlingKeepsFits }
    ensures given { SettlingKeepsInputs }
    ensures action { ActionsKeepFits }
    ensures turn { TurnsKeepFits }
    ensures input { InputsKeepFits }
    ensures reaction { ReactionsKeepFits }
{}

/// Each action that is done has room, in a voter that fits.
pub fn actions_have_room()
    ensures { ActionsHaveRoom }
{}

/// What a tick says again has room, in a voter that fits.
pub fn ticks_have_room()
    ensures { TicksHaveRoom }
{}

/// Who a voter is stays as it is: its replica, and the group and the layout of its evidence.
pub fn voters_stay()
    ensures action { ActionsLeaveTheVoter }
    ensures reaction { ReactionsLeaveTheVoter }
{}
