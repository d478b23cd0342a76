//! View changes and new views, as plain records; docs/PROTOCOL.md tells what they are for.

ghost use Rattle.std.specs.Prelude.{◌≡◌, ◌↔◌, IsTrue};
ghost use Rattle.pws_msg.specs.Same.{same_q_row, same_view_change, same_choice, same_new_view};

use pws_base::lists::{ExactCopy, Sequence};
use pws_base::memory::Memory;
use pws_base::shapes::{Digest, Place, View};
use std::alloc::Global;

/// A checkpoint that a replica holds: a place from 0, and the digest that stands for all up to it.
#[derive(Clone, Copy, Debug, PartialEq, Eq)]
pub struct Checkpoint {
    pub place: Place,
    pub digest: Digest,
}

/// A row of the prepared set: the digest that was prepared at a place, and the latest view in which it was.
#[derive(Clone, Copy, Debug, PartialEq, Eq)]
pub struct PRow {
    pub place: Place,
    pub digest: Digest,
    pub view: View,
}

/// A digest that was pre-prepared, and the latest view in which it was.
#[derive(Clone, Copy, Debug, PartialEq, Eq)]
pub struct Seen {
    pub digest: Digest,
    pub view: View,
}

/// A row of the pre-prepared set: the digests that were pre-prepared at a place, 1 to 16 of them, rising.
#[derive(Drop)]
pub struct QRow {
    pub place: Place,
    pub digests: Sequence<Seen>,
}

/// What a replica reports as it moves to a view.
#[derive(Drop)]
pub struct ViewChange {
    /// The view that it moves to.
    pub view: View,
    /// Its low mark, from 0: it has a stable checkpoint there.
    pub low: Place,
    /// The checkpoints that it holds, 1 to 3, by rising place.
    pub checkpoints: Sequence<Checkpoint>,
    /// What it prepared, at most 32 rows, by rising place.
    pub prepared: Sequence<PRow>,
    /// What it pre-prepared, at most 32 rows, by rising place.
    pub pre_prepared: Sequence<QRow>,
}

/// What a new view keeps of the earlier ones.
#[derive(Drop)]
pub struct Choice {
    /// The place of the checkpoint, from 0.
    pub place: Place,
    /// The checkpoint's digest.
    pub digest: Digest,
    /// The digests at the places after the checkpoint, in order, at most 32.
    pub chosen: Sequence<Digest>,
}

/// A view change that a new view stands on: its sender's index, and the digest of its content.
#[derive(Clone, Copy, Debug, PartialEq, Eq)]
pub struct Named {
    pub index: u8,
    pub digest: Digest,
}

/// What the primary of a view says to start it.
#[derive(Drop)]
pub struct NewView {
    /// The view that it starts.
    pub view: View,
    /// The view changes that it stands on, 1 to 10, by rising index.
    pub named: Sequence<Named>,
    /// What the view keeps.
    pub choice: Choice,
}

/// Whether two rows of a pre-prepared set are the same in each field.
fn same_q_rows(one: &QRow, other: &QRow) -> bool
    ensures { result ≡ same_q_row one.now other.now }
{
    one.place == other.place && one.digests.as_slice() == other.digests.as_slice()
}

impl PartialEq for QRow {
    ghost use Rattle.std.specs.Cmp.{partial_equiv_from_equiv};
    ghost use Rattle.pws_msg.specs.Same.{same_q_row, q_row_equiv};

    ghost eq = { same_q_row };

    ghost laws = { partial_equiv_from_equiv q_row_equiv };

    #[tactic(auto, using(crate::proofs::SameExact::q_rows_equal))]
    fn eq(&self, other: &QRow) -> bool
        ensures value { result ≡ same_q_row self.now other.now }
        ensures equal { IsTrue result ↔ (self.now ≡ other.now) }
    {
        same_q_rows(self, other)
    }
}

impl Eq for QRow {
    ghost use Rattle.pws_msg.specs.Same.{q_row_equiv};

    ghost laws = { q_row_equiv };
}

/// Whether two view changes are the same in each field.
fn same_view_changes(one: &ViewChange, other: &ViewChange) -> bool
    ensures { result ≡ same_view_change one.now other.now }
{
    one.view == other.view
        && one.low == other.low
        && one.checkpoints.as_slice() == other.checkpoints.as_slice()
        && one.prepared.as_slice() == other.prepared.as_slice()
        && one.pre_prepared.as_slice() == other.pre_prepared.as_slice()
}

impl PartialEq for ViewChange {
    ghost use Rattle.std.specs.Cmp.{partial_equiv_from_equiv};
    ghost use Rattle.pws_msg.specs.Same.{same_view_change, view_change_equiv};

    ghost eq = { same_view_change };

    ghost laws = { partial_equiv_from_equiv view_change_equiv };

    fn eq(&self, other: &ViewChange) -> bool
        ensures value { result ≡ same_view_change self.now other.now }
        ensures equal { IsTrue result ↔ (self.now ≡ other.now) }
    {
        same_view_changes(self, other)
    }
}

impl Eq for ViewChange {
    ghost use Rattle.pws_msg.specs.Same.{view_change_equiv};

    ghost laws = { view_change_equiv };
}

/// Whether two choices are the same in each field.
fn same_choices(one: &Choice, other: &Choice) -> bool
    ensures { result ≡ same_choice one.now other.now }
{
    one.place == other.place
        && one.digest == other.digest
        && one.chosen.as_slice() == other.chosen.as_slice()
}

impl PartialEq for Choice {
    ghost use Rattle.std.specs.Cmp.{partial_equiv_from_equiv};
    ghost use Rattle.pws_msg.specs.Same.{same_choice, choice_equiv};

    ghost eq = { same_choice };

    ghost laws = { partial_equiv_from_equiv choice_equiv };

    #[tactic(auto, using(crate::proofs::SameExact::choices_equal))]
    fn eq(&self, other: &Choice) -> bool
        ensures value { result ≡ same_choice self.now other.now }
        ensures equal { IsTrue result ↔ (self.now ≡ other.now) }
    {
        same_choices(self, other)
    }
}

impl Eq for Choice {
    ghost use Rattle.pws_msg.specs.Same.{choice_equiv};

    ghost laws = { choice_equiv };
}

/// Whether two new views are the same in each field.
fn same_new_views(one: &NewView, other: &NewView) -> bool
    ensures { result ≡ same_new_view one.now other.now }
{
    one.view == other.view
        && one.named.as_slice() == other.named.as_slice()
        && one.choice == other.choice
}

impl PartialEq for NewView {
    ghost use Rattle.std.specs.Cmp.{partial_equiv_from_equiv};
    ghost use Rattle.pws_msg.specs.Same.{same_new_view, new_view_equiv};

    ghost eq = { same_new_view };

    ghost laws = { partial_equiv_from_equiv new_view_equiv };

    fn eq(&self, other: &NewView) -> bool
        ensures value { result ≡ same_new_view self.now other.now }
        ensures equal { IsTrue result ↔ (self.now ≡ other.now) }
    {
        same_new_views(self, other)
    }
}

impl Eq for NewView {
    ghost use Rattle.pws_msg.specs.Same.{new_view_equiv};

    ghost laws = { new_view_equiv };
}

impl ExactCopy for Checkpoint {
    fn copy(&self, _alloc: Global) -> Result<Checkpoint, Memory> {
        Ok(*self)
    }
}

impl ExactCopy for PRow {
    fn copy(&self, _alloc: Global) -> Result<PRow, Memory> {
        Ok(*self)
    }
}

impl ExactCopy for Seen {
    fn copy(&self, _alloc: Global) -> Result<Seen, Memory> {
        Ok(*self)
    }
}

impl ExactCopy for QRow {
    fn copy(&self, alloc: Global) -> Result<QRow, Memory> {
        Ok(QRow {
            place: self.place,
            digests: self.digests.copy(alloc)?,
        })
    }
}

impl ExactCopy for ViewChange {
    fn copy(&self, alloc: Global) -> Result<ViewChange, Memory> {
        Ok(ViewChange {
            view: self.view,
            low: self.low,
            checkpoints: self.checkpoints.copy(alloc)?,
            prepared: self.prepared.copy(alloc)?,
            pre_prepared: self.pre_prepared.copy(alloc)?,
        })
    }
}

impl ExactCopy for Choice {
    fn copy(&self, alloc: Global) -> Result<Choice, Memory> {
        Ok(Choice {
            place: self.place,
            digest: self.digest,
            chosen: self.chosen.copy(alloc)?,
        })
    }
}

impl ExactCopy for Named {
    fn copy(&self, _alloc: Global) -> Result<Named, Memory> {
        Ok(*self)
    }
}

impl ExactCopy for NewView {
    fn copy(&self, alloc: Global) -> Result<NewView, Memory> {
        Ok(NewView {
            view: self.view,
            named: self.named.copy(alloc)?,
            choice: self.choice.copy(alloc)?,
        })
    }
}
