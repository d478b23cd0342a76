//! View changes and new views that can be spelled.

ghost use Rattle.std.specs.Prelude.{◌≡◌, ◌++◌, OnOk};
ghost use Rattle.pws_base.specs.Fields.{GivesOrMemory};
ghost use Rattle.pws_msg.specs.Reported.{IsViewChange, IsNewView};
ghost use Rattle.pws_msg.specs.StatementFields.{view_change_at, new_view_at};
ghost use Rattle.pws_msg.specs.StatementTexts.{view_change_text, new_view_text};

use crate::changes::{Choice, NewView, ViewChange};
use crate::rows::{put_counted, take_counted};
use crate::wire::{MOST_CHECKPOINTS, MOST_CHOSEN, MOST_NAMED, MOST_ROWS};
use pws_base::fields::{FieldError, FieldReader};
use pws_base::lists::ExactCopy;
use pws_base::memory::Memory;
use pws_base::writers::Writer;
use std::alloc::Global;
use std::marker::Model;

/// A view change whose fields are in range, so that bytes spell it; whether it is valid isn't said.
///
/// The view, the low mark and the places of checkpoints are 0 to 1,000,000, the places of rows 1 to 1,000,000. There
/// are 1 to 3 checkpoints and at most 32 rows of each set, and a row of the second has 1 to 16 digests.
#[derive(Drop, PartialEq, Eq)]
pub struct LawfulViewChange {
    /// The view change.
    change: ViewChange,
}

impl Model for LawfulViewChange {
    ghost use Rattle.pws_msg.specs.declared.changes.ViewChange.{ViewChange};
    ghost use Rattle.pws_msg.specs.Reported.{IsViewChange};

    ghost Value = { ViewChange };

    ghost view = { λ c. c.change };

    ghost invariant = { λ c. IsViewChange c.change };

    ghost inverse = { λ c. record { change = c } };
}

impl LawfulViewChange {
    /// This view change, whose fields are to be in range.
    pub fn new(change: ViewChange) -> LawfulViewChange
        requires { IsViewChange change }
        ensures { result ≡ change }
    {
        LawfulViewChange { change }
    }

    /// The view change.
    pub fn change(&self) -> &ViewChange
        ensures value { result.now ≡ self.now }
        ensures lawful { IsViewChange self.now }
    {
        &self.change
    }

    /// The view change, which isn't copied.
    pub fn into_change(self) -> ViewChange
        ensures value { result ≡ self }
        ensures lawful { IsViewChange self }
    {
        let LawfulViewChange { change } = self;
        change
    }
}

impl ExactCopy for LawfulViewChange {
    fn copy(&self, alloc: Global) -> Result<LawfulViewChange, Memory> {
        Ok(LawfulViewChange {
            change: self.change.copy(alloc)?,
        })
    }
}

/// Reads a view change.
#[tactic(auto, unfolding(crate::specs::StatementFields::view_change_at), using(crate::proofs::Ranges::u32_range))]
pub(crate) fn take_view_change(
    alloc: Global,
    fields: &mut FieldReader<'_>,
) -> Result<LawfulViewChange, FieldError>
    ensures { GivesOrMemory (λ c. c) result fields.new (view_change_at fields.old) }
{
    let view = fields.take_view()?;
    let low = fields.take_view()?;
    let checkpoints = take_counted(alloc, fields, 1, MOST_CHECKPOINTS)?;
    let prepared = take_counted(alloc, fields, 0, MOST_ROWS)?;
    let pre_prepared = take_counted(alloc, fields, 0, MOST_ROWS)?;
    Ok(LawfulViewChange::new(ViewChange {
        view,
        low,
        checkpoints,
        prepared,
        pre_prepared,
    }))
}

/// Writes a view change.
pub(crate) fn put_view_change(text: &mut Writer, lawful: &LawfulViewChange) -> Result<(), Memory>
    ensures { OnOk result (text.new ≡ text.old ++ view_change_text lawful.now) }
{
    let change = lawful.change();
    text.put_u32(change.view)?;
    text.put_u32(change.low)?;
    put_counted(text, change.checkpoints.as_slice())?;
    put_counted(text, change.prepared.as_slice())?;
    put_counted(text, change.pre_prepared.as_slice())
}

/// A new view whose fields are in range, so that bytes spell it; whether it agrees with view changes isn't said.
///
/// The view and the place are 0 to 1,000,000. It names 1 to 10 view changes, by indices 0 to 9, and has at most 32
/// chosen digests.
#[derive(Drop, PartialEq, Eq)]
pub struct LawfulNewView {
    /// The new view.
    new_view: NewView,
}

impl Model for LawfulNewView {
    ghost use Rattle.pws_msg.specs.declared.changes.NewView.{NewView};
    ghost use Rattle.pws_msg.specs.Reported.{IsNewView};

    ghost Value = { NewView };

    ghost view = { λ v. v.new_view };

    ghost invariant = { λ v. IsNewView v.new_view };

    ghost inverse = { λ v. record { new_view = v } };
}

impl LawfulNewView {
    /// This new view, whose fields are to be in range.
    pub fn new(new_view: NewView) -> LawfulNewView
        requires { IsNewView new_view }
        ensures { result ≡ new_view }
    {
        LawfulNewView { new_view }
    }

    /// The new view.
    pub fn new_view(&self) -> &NewView
        ensures value { result.now ≡ self.now }
        ensures lawful { IsNewView self.now }
    {
        &self.new_view
    }

    /// The new view, which isn't copied.
    pub fn into_new_view(self) -> NewView
        ensures value { result ≡ self }
        ensures lawful { IsNewView self }
    {
        let LawfulNewView { new_view } = self;
        new_view
    }
}

impl ExactCopy for LawfulNewView {
    fn copy(&self, alloc: Global) -> Result<LawfulNewView, Memory> {
        Ok(LawfulNewView {
            new_view: self.new_view.copy(alloc)?,
        })
    }
}

/// Reads a new view.
#[tactic(auto, unfolding(crate::specs::StatementFields::new_view_at), using(crate::proofs::Ranges::u32_range))]
pub(crate) fn take_new_view(
    alloc: Global,
    fields: &mut FieldReader<'_>,
) -> Result<LawfulNewView, FieldError>
    ensures { GivesOrMemory (λ v. v) result fields.new (new_view_at fields.old) }
{
    let view = fields.take_view()?;
    let named = take_counted(alloc, fields, 1, MOST_NAMED)?;
    let place = fields.take_view()?;
    let digest = fields.take_digest()?;
    let chosen = take_counted(alloc, fields, 0, MOST_CHOSEN)?;
    Ok(LawfulNewView::new(NewView {
        view,
        named,
        choice: Choice {
            place,
            digest,
            chosen,
        },
    }))
}

/// Writes a new view.
pub(crate) fn put_new_view(text: &mut Writer, lawful: &LawfulNewView) -> Result<(), Memory>
    ensures { OnOk result (text.new ≡ text.old ++ new_view_text lawful.now) }
{
    let new_view = lawful.new_view();
    text.put_u32(new_view.view)?;
    put_counted(text, new_view.named.as_slice())?;
    text.put_u32(new_view.choice.place)?;
    text.put_bytes(new_view.choice.digest.as_slice())?;
    put_counted(text, new_view.choice.chosen.as_slice())
}
