//! Rules that look as good, and lead to disagreement: each is the contract of a function that does nothing.

ghost use Rattle.pws_safety.specs.Counterexamples.{Misleads, QuorumOfTwoF, VotesTwice, ForgetsSlots, CheckpointFloor, ChoiceWithoutWitnesses};

/// Quorums of 2f replicas let a compromised primary have two digests committed.
pub fn quorum_of_two_f_misleads()
    ensures { Misleads QuorumOfTwoF }
{}

/// So does a replica that votes twice at a place of one view.
pub fn votes_twice_misleads()
    ensures { Misleads VotesTwice }
{}

/// Replicas that forget, as they move, what they prepared lose what was committed.
pub fn forgets_slots_misleads()
    ensures { Misleads ForgetsSlots }
{}

/// A floor that is the checkpoint alone lets a primary replace what was chosen where it couldn't accept it.
pub fn checkpoint_floor_misleads()
    ensures { Misleads CheckpointFloor }
{}

/// A choice without witnesses takes what one compromised replica claims.
pub fn choice_without_witnesses_misleads()
    ensures { Misleads ChoiceWithoutWitnesses }
{}
