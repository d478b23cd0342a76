//! Replicas among others, and groups that are sound.

ghost use Rattle.std.specs.Prelude.{◌≡◌, ◌≤◌, ◌↔◌, IsTrue};
ghost use Rattle.pws_base.specs.Counts.{count_below};
ghost use Rattle.pws_base.specs.Replicas.{is_among, is_other};
ghost use Rattle.pws_base.specs.Sound.{is_compromised, is_sound, IsSound};

use crate::shapes::{GroupId, Layout, ReplicaId};

/// Whether a replica is among these.
pub fn is_among(members: &[ReplicaId], replica: ReplicaId) -> bool
    ensures { result ≡ is_among members.now replica }
{
    members.iter().any(|member| *member == replica)
}

/// How many of the first n replicas of a group are among the compromised ones.
fn count_compromised(compromised: &[ReplicaId], group: GroupId, n: u8) -> u8
    ensures value { result ≡ count_below n (is_compromised compromised.now group) }
    ensures few { result ≤ n }
{
    let mut count = 0;
    for index in 0..n {
        if is_among(compromised, ReplicaId { group, index }) {
            count += 1;
        }
    }
    count
}

impl Layout {
    /// Whether a group is another one than `me` of this layout.
    pub fn is_other(&self, me: GroupId, group: GroupId) -> bool
        ensures { result ≡ is_other me self.now group }
    {
        group < self.groups() && group != me
    }

    /// Whether a group is sound: it is one of the layout, and of its replicas at most as many are compromised as it
    /// bears.
    pub fn is_sound(&self, compromised: &[ReplicaId], group: GroupId) -> bool
        ensures value { result ≡ is_sound self.now compromised.now group }
        ensures meaning { IsTrue result ↔ IsSound self.now compromised.now group }
    {
        match self.shape(group) {
            Some(shape) => count_compromised(compromised, group, shape.n()) <= shape.f(),
            None => false,
        }
    }
}
