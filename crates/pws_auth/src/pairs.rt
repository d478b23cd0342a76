//! Two replicas that share a key.

ghost use Rattle.std.specs.Prelude.{◌≡◌};
ghost use Rattle.pws_auth.specs.Pairs.{pair_of};

use pws_base::shapes::ReplicaId;

/// Two replicas; `Pair::of` puts the lesser by group and index first.
#[derive(Clone, Copy, Debug, PartialEq, Eq, PartialOrd, Ord)]
pub struct Pair {
    /// The one of the lower group, or of the lower index where the groups are one.
    pub lesser: ReplicaId,
    /// The other one.
    pub greater: ReplicaId,
}

impl Pair {
    /// The pair of two replicas, whichever is named first.
    pub fn of(a: ReplicaId, b: ReplicaId) -> Pair
        ensures { result ≡ pair_of a b }
    {
        if b < a {
            Pair {
                lesser: b,
                greater: a,
            }
        } else {
            Pair {
                lesser: a,
                greater: b,
            }
        }
    }
}
