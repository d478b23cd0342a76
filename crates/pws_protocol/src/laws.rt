//! What follows from the definitions alone: each law is the contract of a function that does nothing.

ghost use Rattle.pws_protocol.specs.Laws.{CandidatesAreSupported, EvidenceFits, EvidenceStaysFit, ExecutesInOrder, KeysAreOrdered, MoreIsSupported, ReactIsMet, ReactsInOneWay, StartFits, SupportIsHonest};

/// The keys of evidence are ordered, and only equal ones tie.
pub fn keys_are_ordered()
    ensures { KeysAreOrdered }
{}

/// The more is said, the more is supported.
pub fn more_is_supported()
    ensures { MoreIsSupported }
{}

/// What f + 1 replicas of a sound group say is said by a correct one: no replica is counted twice.
pub fn support_is_honest()
    ensures { SupportIsHonest }
{}

/// Each candidate is supported.
pub fn candidates_are_supported()
    ensures { CandidatesAreSupported }
{}

/// Each statement that a store of evidence keeps stands under its own sender and matter, and each body under its own
/// digest, from the start on.
pub fn evidence_fits()
    ensures { EvidenceFits }
{}

/// That stays so in a voter, whatever it is given.
pub fn evidence_stays_fit()
    ensures { EvidenceStaysFit }
{}

/// A voter that has heard nothing fits.
pub fn start_fits()
    ensures { StartFits }
{}

/// A voter reacts in one way; and the function of the reaction gives what the relation has, unless all its turns are used
/// up.
pub fn reacts_in_one_way()
    ensures one { ReactsInOneWay }
    ensures met { ReactIsMet }
{}

/// A reaction executes at most one event, at the next place; and a voter's place and chain go on by what it executes, and
/// by nothing else.
pub fn executes_in_order()
    ensures { ExecutesInOrder }
{}
