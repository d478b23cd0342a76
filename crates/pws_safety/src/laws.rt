//! Why agreement holds: each law is the contract of a function that does nothing.

ghost use Rattle.pws_safety.specs.Replicas.{QuorumsMeet, QuorumMeetsWeak, WeakHasCorrect, SendersAreDistinct};
ghost use Rattle.pws_safety.specs.Agreement.{FactsGiveAgreement, QuorumSettles, StepsKeep, StepsKeepSaid, SaidIsSent, RepeatsKeep, MoreIsKept, HadIsBehind, SettledIsBacked, SettledAsMoreIsSent, CommittedIsSettled, SlotsKeepTheChoice, KeptGivesFacts, RunsKeep, RunsAgree};

/// Any two quorums of a sound group share a correct replica; a quorum and any f + 1 replicas share one; and any f + 1
/// replicas have a correct one among them.
pub fn quorums_meet()
    ensures two { QuorumsMeet }
    ensures weak { QuorumMeetsWeak }
    ensures correct { WeakHasCorrect }
{}

/// A list of view changes whose senders rise counts distinct senders.
pub fn senders_are_distinct()
    ensures { SendersAreDistinct }
{}

/// From the facts on what was sent: what is settled at a place stays in every later view, two digests settled at a
/// place are one, and each digest for which a correct replica stands is that of a backed event.
pub fn facts_give_agreement()
    ensures { FactsGiveAgreement }
{}

/// What is settled is backed, and stays settled as more is sent.
pub fn settled_is_backed()
    ensures backed { SettledIsBacked }
    ensures later { SettledAsMoreIsSent }
{}

/// COMMITs as heard from a quorum settle their digest.
pub fn quorum_settles()
    ensures { QuorumSettles }
{}

/// Each step of a correct replica keeps the invariant of its group, whatever the compromised ones say; and so does
/// what is only sent again.
pub fn steps_keep()
    ensures step { StepsKeep }
    ensures repeats { RepeatsKeep }
{}

/// The same where the statements of a step are sent as it is taken, with their sender.
pub fn steps_keep_said()
    ensures step { StepsKeepSaid }
    ensures sender { SaidIsSent }
{}

/// The invariant stands as more view changes occur and more events are backed.
pub fn more_is_kept()
    ensures { MoreIsKept }
{}

/// The view changes that a NEW_VIEW names, as a replica has them, are those that their correct senders sent.
pub fn had_is_behind()
    ensures { HadIsBehind }
{}

/// What a correct replica committed is settled.
pub fn committed_is_settled()
    ensures { CommittedIsSettled }
{}

/// A slot of a correct replica at or below its floor has the digest that was chosen there.
pub fn slots_keep_the_choice()
    ensures { SlotsKeepTheChoice }
{}

/// The invariant gives the facts.
pub fn kept_gives_facts()
    ensures { KeptGivesFacts }
{}

/// Each run keeps the invariant: correct replicas step in any order, hear what they like of what was sent, any number
/// of times or never, and of compromised ones whatever these like.
pub fn runs_keep()
    ensures { RunsKeep }
{}

/// In each run agreement holds, through every list of view changes.
pub fn runs_agree()
    ensures { RunsAgree }
{}
