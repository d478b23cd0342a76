//! Laws of what is said. The functions do nothing: their contracts are the laws.

ghost use Rattle.pws_look.specs.Outcomes.{OneOutcome, SomeOutcome};

/// Words and bytes have one outcome at most: two that the definitions allow are the same.
#[tactic(auto, using(crate::proofs::OneOutcome::one_outcome))]
pub fn one_outcome()
    ensures { OneOutcome }
{}

/// And they have one, whatever they are.
#[tactic(auto, using(crate::proofs::SomeOutcome::some_outcome))]
pub fn some_outcome()
    ensures { SomeOutcome }
{}
