//! View changes as they were heard, and as they are lent to whoever looks at them.

ghost use Rattle.std.specs.Prelude.{◌≡◌, IfOk};

use pws_base::lists::ExactCopy;
use pws_base::memory::Memory;
use pws_base::shapes::{Digest, Place, View};
use pws_msg::changes::{Checkpoint, PRow, QRow, ViewChange};
use std::alloc::Global;
use std::marker::Model;

/// A view change, with its sender's index, 0 to 9, and the digest of its content.
#[derive(Drop)]
pub struct Heard {
    /// The index of its sender, 0 to 9.
    pub index: u8,
    /// The digest of its content.
    pub digest: Digest,
    /// The view change.
    pub change: ViewChange,
}

impl Heard {
    /// The same, lent.
    pub fn lend(&self) -> HeardRef<'_>
        ensures { result ≡ self.now }
    {
        HeardRef::new(self.index, self.digest, &self.change)
    }
}

impl ExactCopy for Heard {
    fn copy(&self, alloc: Global) -> Result<Heard, Memory> {
        Ok(Heard {
            index: self.index,
            digest: self.digest,
            change: self.change.copy(alloc)?,
        })
    }
}

/// A view change that is lent by whoever keeps it, with its sender's index and the digest of its content.
///
/// Contracts see it as a `Heard`.
#[derive(Drop)]
pub struct HeardRef<'a> {
    /// The index of its sender, 0 to 9.
    index: u8,
    /// The digest of its content.
    digest: Digest,
    /// The view change.
    change: &'a ViewChange,
}

impl<'a> Model for HeardRef<'a> {
    ghost use Rattle.pws_change.specs.declared.heard.Heard.{Heard};

    ghost Value = { Heard };

    ghost view = { λ h. record { index = h.index; digest = h.digest; change = h.change.now } };
}

impl<'a> HeardRef<'a> {
    /// A view change that is lent.
    pub fn new(index: u8, digest: Digest, change: &'a ViewChange) -> HeardRef<'a>
        ensures { result ≡ record { index = index; digest = digest; change = change.now } }
    {
        HeardRef {
            index,
            digest,
            change,
        }
    }

    /// The index of its sender.
    pub fn index(&self) -> u8
        ensures { result ≡ self.now.index }
    {
        self.index
    }

    /// The digest of its content.
    pub fn digest(&self) -> &Digest
        ensures { result.now ≡ self.now.digest }
    {
        &self.digest
    }

    /// The view change.
    pub fn change(&self) -> &'a ViewChange
        ensures { result.now ≡ self.now.change }
    {
        self.change
    }

    /// The view that its sender moves to.
    pub(crate) fn view(&self) -> View
        ensures { result ≡ self.now.change.view }
    {
        self.change.view
    }

    /// The low mark of its sender.
    pub(crate) fn low(&self) -> Place
        ensures { result ≡ self.now.change.low }
    {
        self.change.low
    }

    /// The checkpoints that its sender holds.
    pub(crate) fn checkpoints(&self) -> &'a [Checkpoint]
        ensures { result.now ≡ self.now.change.checkpoints }
    {
        self.change.checkpoints.as_slice()
    }

    /// What its sender prepared.
    pub(crate) fn prepared(&self) -> &'a [PRow]
        ensures { result.now ≡ self.now.change.prepared }
    {
        self.change.prepared.as_slice()
    }

    /// What its sender pre-prepared.
    pub(crate) fn pre_prepared(&self) -> &'a [QRow]
        ensures { result.now ≡ self.now.change.pre_prepared }
    {
        self.change.pre_prepared.as_slice()
    }
}

/// View changes, lent in their order.
///
/// # Errors
///
/// `Memory` only.
pub fn lend_all<'a>(alloc: Global, changes: &'a [Heard]) -> Result<Vec<HeardRef<'a>>, Memory>
    ensures { IfOk result (λ lent. lent.items ≡ changes.now) }
{
    let mut lent = Vec::new(alloc);
    for h in changes {
        lent.push(h.lend())?;
    }
    Ok(lent)
}
