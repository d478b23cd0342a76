//! Laws of the choice: each is the contract of a function that does nothing.

ghost use Rattle.pws_change.specs.SendingLaws.{AgreedMayBeSent, ValidMayBeSent};
ghost use Rattle.pws_change.specs.SetLaws.{NotedPrePrepared, NotedPrepared, PrePreparedRows, PreparedRows, RowsRise, SeenRows, TrimmedRows};
ghost use Rattle.pws_change.specs.Laws.{AgreesIsTested, ChoiceIsUnique, CoveredIsKept, DecisionIsChoice, HardlyLackedIsKept, ValidIsTested};

/// A list of view changes has at most one decision.
pub fn choice_is_unique()
    ensures { ChoiceIsUnique }
{}

/// Each list of view changes has a decision: the one that the function of the choice gives. So with
/// [`choice_is_unique`] it has exactly one.
pub fn decision_is_choice()
    ensures { DecisionIsChoice }
{}

/// The test of a view change decides whether it is valid.
pub fn valid_is_tested()
    ensures { ValidIsTested }
{}

/// The test of a new view decides whether it agrees with view changes.
pub fn agrees_is_tested()
    ensures { AgreesIsTested }
{}

/// The law of the choice, on which the safety of later views rests: where each quorum of the changes has one that
/// prepared a digest at a place in a view or later, that digest is chosen there, or one of a later view that f + 1
/// changes pre-prepared.
pub fn what_is_covered_is_kept()
    ensures covered { CoveredIsKept }
    ensures hardly_lacked { HardlyLackedIsKept }
{}

/// A valid view change is short enough to be sent, and so is a new view that agrees with view changes that were.
pub fn valid_may_be_sent()
    ensures change { ValidMayBeSent }
    ensures new_view { AgreedMayBeSent }
{}

/// The rows of a set are what it has at each place; they rise.
pub fn rows_are_sets()
    ensures prepared { PreparedRows }
    ensures pre_prepared { PrePreparedRows }
    ensures digests { SeenRows }
    ensures rise { RowsRise }
{}

/// What is a row after a digest was noted, and after the places up to a low mark were dropped.
pub fn rows_after_changes()
    ensures prepared { NotedPrepared }
    ensures pre_prepared { NotedPrePrepared }
    ensures trimmed { TrimmedRows }
{}
