//! Laws of the definitions of this crate: each is the contract of a function that does nothing.

ghost use Rattle.pws_base.specs.Laws.{NumbersAreDecimals, ReplicasAreOrdered};

/// A word is read as a number exactly where it is the decimal of this number.
pub fn numbers_are_decimals()
    ensures { NumbersAreDecimals }
{}

/// The order of replicas is total, and only a replica ties with itself.
pub fn replicas_are_ordered()
    ensures { ReplicasAreOrdered }
{}
