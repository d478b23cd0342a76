//! Groups of replicas: their sizes, and the names of their members.

ghost use Rattle.std.specs.Prelude.{◌≡◌, ℕ, ◌+◌, ◌*◌, ◌%◌, ◌<◌, ◌≤◌, ◌↔◌, [], length, All, IsOk, IfOk, IsTrue, OnSome, slice_get};
ghost use Rattle.std.specs.List.{AllPass};
ghost use Rattle.pws_base.specs.Shapes.{size_of_group, quorum_of, weak_of, primary_of, has_replica};

use crate::lists::ExactCopy;
use crate::memory::Memory;
use std::alloc::Global;
use std::marker::Model;
use thiserror::Error;

/// The number of a group, 0 to 15.
pub type GroupId = u8;

/// The number of a place in a list of events, 1 to 1,000,000; 0 where no place is meant.
pub type Place = u32;

/// The number of a view, 0 to 1,000,000.
pub type View = u32;

/// The number of a request or a call, 1 to 1,000,000; 0 where there is none yet.
pub type Number = u32;

/// A SHA-256 digest (FIPS 180-4).
pub type Digest = [u8; 32];

/// A tag of HMAC with SHA-256 (RFC 2104).
pub type Tag = [u8; 32];

/// A replica, by its group and its index within the group, 0 to 9.
#[derive(Clone, Copy, Debug, PartialEq, Eq, PartialOrd, Ord)]
pub struct ReplicaId {
    pub group: GroupId,
    pub index: u8,
}

/// A group was to bear more than 3 compromised replicas.
#[derive(Clone, Copy, Debug, PartialEq, Eq, Error)]
#[error("a group bears at most 3 compromised replicas")]
pub struct BadShape;

/// A group of `3f + 1` replicas, of which up to f may be compromised; f is 0 to 3.
///
/// Contracts see it as the number f.
#[derive(Clone, Copy, Debug, PartialEq, Eq)]
pub struct GroupShape {
    f: u8,
}

impl Model for GroupShape {
    ghost Value = { ℕ };

    ghost view = { λ s. s.f };

    ghost invariant = { λ s. s.f ≤ 3 };

    ghost inverse = { λ f. record { f = f } };
}

impl GroupShape {
    /// The shape of a group that bears f compromised replicas.
    ///
    /// # Errors
    ///
    /// `BadShape` exactly where f is above 3.
    pub fn new(f: u8) -> Result<GroupShape, BadShape>
        ensures ok { IsOk result ↔ (f ≤ 3) }
        ensures value { IfOk result (λ s. s ≡ f) }
    {
        if f <= 3 {
            Ok(GroupShape { f })
        } else {
            Err(BadShape)
        }
    }

    /// How many of its replicas may be compromised, f, so 0 to 3.
    pub fn f(&self) -> u8
        ensures value { result ≡ self.now }
        ensures few { result ≤ 3 }
    {
        self.f
    }

    /// How many replicas it has, 3f + 1, so 1 to 10.
    pub fn n(&self) -> u8
        ensures value { result ≡ size_of_group self.now }
        ensures few { result ≤ 10 }
    {
        3 * self.f + 1
    }

    /// How many replicas are a quorum, 2f + 1, so 1 to 7: any two quorums share a replica that isn't compromised.
    pub fn quorum(&self) -> u8
        ensures value { result ≡ quorum_of self.now }
        ensures few { result ≤ 7 }
    {
        2 * self.f + 1
    }

    /// How many replicas are a weak certificate, f + 1, so 1 to 4: one of them isn't compromised.
    pub fn weak(&self) -> u8
        ensures value { result ≡ weak_of self.now }
        ensures few { result ≤ 4 }
    {
        self.f + 1
    }

    /// The index of the primary of a view, the view modulo n, so 0 to 9.
    pub fn primary(&self, view: View) -> u8
        ensures value { result ≡ primary_of self.now view }
        ensures few { result ≤ 9 }
    {
        (view % u32::from(self.n())) as u8
    }
}

/// A layout was to have no group or more than 16.
#[derive(Clone, Copy, Debug, PartialEq, Eq, Error)]
#[error("a layout has 1 to 16 groups")]
pub struct BadLayout;

/// The shapes of groups 0, 1, 2 and so on, 1 to 16 of them.
///
/// Contracts see it as the list of the numbers f.
#[derive(Clone, Copy, Debug)]
pub struct Layout {
    faults: [u8; 16],
    groups: u8,
}

impl Model for Layout {
    ghost use Rattle.std.specs.Prelude.{ℕ, ◌-◌, ◌++◌, List, length, take, replicate};
    ghost use Rattle.pws_base.specs.Padded.{IsPadded, padded, padded_is};

    ghost Value = { List ℕ };

    ghost view = { λ l. take l.groups l.faults };

    ghost invariant = { λ l. IsPadded l.faults l.groups };

    ghost inverse = { λ fs. record { faults = padded fs; groups = length fs } };

    ghost inverse_ok = { λ l h. padded_is l.faults l.groups h (λ fs n. record { faults = fs; groups = n }) };
}

impl Layout {
    /// The layout of groups with these shapes, in order.
    ///
    /// # Errors
    ///
    /// `BadLayout` exactly where there is no shape or more than 16.
    pub fn new(shapes: &[GroupShape]) -> Result<Layout, BadLayout>
        ensures ok { IsOk result ↔ ((1 ≤ length shapes.now) × (length shapes.now ≤ 16)) }
        ensures value { IfOk result (λ l. l ≡ shapes.now) }
    {
        if shapes.is_empty() || shapes.len() > 16 {
            return Err(BadLayout);
        }
        let mut faults = [0; 16];
        for (i, shape) in shapes.iter().enumerate() {
            faults[i] = shape.f();
        }
        Ok(Layout {
            faults,
            groups: shapes.len() as u8,
        })
    }

    /// How many groups it has, 1 to 16.
    pub fn groups(&self) -> u8
        ensures value { result ≡ length self.now }
        ensures some { 1 ≤ result }
        ensures few { result ≤ 16 }
    {
        self.groups
    }

    /// The shape of a group, or None exactly where there is no group of this number.
    pub fn shape(&self, group: GroupId) -> Option<GroupShape>
        ensures value { result ≡ slice_get self.now group }
        ensures few { OnSome result (group ≤ 15) }
    {
        if group < self.groups {
            Some(GroupShape {
                f: self.faults[group as usize],
            })
        } else {
            None
        }
    }

    /// Whether it has this replica, whose group is then 0 to 15 and whose index 0 to 9.
    pub fn has(&self, replica: ReplicaId) -> bool
        ensures value { result ≡ has_replica self.now replica }
        ensures group { IsTrue result → replica.group ≤ 15 }
        ensures index { IsTrue result → replica.index ≤ 9 }
    {
        match self.shape(replica.group) {
            Some(shape) => replica.index < shape.n(),
            None => false,
        }
    }
}

impl ExactCopy for Layout {
    fn copy(&self, _alloc: Global) -> Result<Layout, Memory> {
        Ok(*self)
    }
}
