//! What follows from the definitions alone: each law is the contract of a function that does nothing.

ghost use Rattle.pws_evidence.specs.Bounds.{EvidenceIsBounded, HearingKeepsSettled, SettlingSettles, StartIsSettled};
ghost use Rattle.pws_evidence.specs.Laws.{CandidatesAreDue};

/// Each candidate is supported, and would take effect.
pub fn candidates_are_due()
    ensures { CandidatesAreDue }
{}

/// Evidence that was heard of replicas of the layout, and settled, has at most 160 MiB.
pub fn evidence_is_bounded()
    ensures { EvidenceIsBounded }
{}

/// Evidence is settled before anything is heard; it stays so whatever replicas of the layout say; and once the group asked
/// more, or was answered, it is so again when it settles.
pub fn evidence_stays_settled()
    ensures start { StartIsSettled }
    ensures settled { SettlingSettles }
    ensures heard { HearingKeepsSettled }
{}
