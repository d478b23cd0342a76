//! What statements are evidence of, and the keys under which evidence is kept.

use pws_base::shapes::{Digest, GroupId, Number, ReplicaId};

/// What a statement is evidence of.
#[derive(Clone, Copy, Debug, PartialEq, Eq, PartialOrd, Ord)]
pub enum Matter {
    /// A request of a caller.
    Requested { caller: GroupId, number: Number },
    /// A reply of a called group.
    Replied { called: GroupId, number: Number },
    /// The time of a call to a group is over.
    Expired { called: GroupId, number: Number },
    /// A reading for an ask.
    Read { ask: Number },
}

/// Whose statement it is, and what it is evidence of: a replica's first one is kept.
#[derive(Clone, Copy, Debug, PartialEq, Eq, PartialOrd, Ord)]
pub struct StatementKey {
    pub sender: ReplicaId,
    pub matter: Matter,
}

/// Of which reply of a called group a body is: the number of the call, and the body's digest.
#[derive(Clone, Copy, Debug, PartialEq, Eq, PartialOrd, Ord)]
pub struct BodyKey {
    pub called: GroupId,
    pub number: Number,
    pub digest: Digest,
}
