//! Events by digest.

ghost use Rattle.std.specs.Prelude.{◌≡◌, ◌≤◌, ◌-◌, IfOk, OnOk};
ghost use Rattle.std.specs.List.{list_any, range_with_len};
ghost use Rattle.std.specs.Option.{option_copied};
ghost use Rattle.std.specs.Ordering.{nat_cmp};
ghost use Rattle.std.specs.Cmp.Lexicographic.{slice_cmp};
ghost use Rattle.std.specs.BTreeMap.{insert_entry};
ghost use Rattle.std.specs.FinMap.{get, empty, insert, retain_keys};
ghost use Rattle.pws_base.specs.Limits.{max_number};
ghost use Rattle.pws_change.specs.Sets.{has_digest};
ghost use Rattle.pws_protocol.specs.Gathered.{choice_names};
ghost use Rattle.pws_voter.specs.Windows.{is_slot_for, slots_have, rows_have, are_named};

use crate::digests::{is_among, is_same};
use crate::parts::Slot;
use pws_base::lists::ExactCopy;
use pws_base::memory::Memory;
use pws_base::shapes::{Digest, Place};
use pws_change::pre_prepared::QSet;
use pws_event::events::Event;
use pws_msg::changes::Choice;
use pws_places::places::Places;
use std::alloc::Global;
use std::collections::BTreeMap;
use std::marker::Model;

/// Events by their digests.
///
/// Contracts see it as a finite map.
#[derive(Drop)]
pub struct Texts {
    rows: BTreeMap<Digest, Event>,
}

impl Model for Texts {
    ghost use Rattle.std.specs.Coded.{coded_ℕ, coded_list};
    ghost use Rattle.std.specs.Ordering.{nat_cmp};
    ghost use Rattle.std.specs.Cmp.Lexicographic.{slice_cmp};
    ghost use Rattle.std.specs.FinMap.{FinMap, from_entries, code};
    ghost use Rattle.pws_event.specs.declared.events.Event.{Event};
    ghost use Rattle.pws_voter.specs.Codes.{event_code};

    ghost Value = { FinMap (slice_cmp nat_cmp) Event };

    ghost coded = { code (coded_list coded_ℕ) event_code };

    ghost view = { λ m. from_entries m.rows.entries };
}

/// Whether the slot at a place has a digest.
fn is_slot_for(slots: &Places<Slot>, digest: &Digest, place: Place) -> bool
    ensures { result ≡ is_slot_for slots.now.rows digest.now place }
{
    match slots.get(place) {
        Some(slot) => is_same(&slot.digest, digest),
        None => false,
    }
}

/// Whether some slot from one place to another has a digest.
fn any_slot_for(slots: &Places<Slot>, digest: &Digest, from: Place, to: Place) -> bool
    ensures { result ≡ list_any (λ p. is_slot_for slots.now.rows digest.now p) (range_with_len from (to - from)) }
{
    (from..to).any(|place| is_slot_for(slots, digest, place))
}

/// Whether some slot has a digest.
#[tactic(auto, using(crate::proofs::Places::window_is), unfolding(crate::specs::Windows::slots_have))]
pub(crate) fn slots_have(slots: &Places<Slot>, digest: &Digest) -> bool
    ensures { result ≡ slots_have slots.now.rows slots.now.low digest.now }
{
    let low = slots.low();
    any_slot_for(slots, digest, low + 1, low + 33)
}

/// Whether some row of Q from one place to another has a digest.
fn any_row_has(rows: &QSet, digest: &Digest, from: Place, to: Place) -> bool
    ensures { result ≡ list_any (λ p. has_digest rows.now p digest.now) (range_with_len from (to - from)) }
{
    (from..to).any(|place| rows.has(place, digest))
}

/// Whether some row of the window above a low mark has a digest.
#[tactic(auto, using(crate::proofs::Places::window_is), unfolding(crate::specs::Windows::rows_have))]
pub(crate) fn rows_have(rows: &QSet, low: Place, digest: &Digest) -> bool
    requires { low ≤ max_number }
    ensures { result ≡ rows_have rows.now low digest.now }
{
    any_row_has(rows, digest, low + 1, low + 33)
}

/// Whether a choice, if there is one, has a digest.
#[tactic(auto, unfolding(pws_protocol::specs::Gathered::choice_names))]
pub(crate) fn choice_has(choice: &Option<Choice>, digest: &Digest) -> bool
    ensures { result ≡ choice_names choice.now digest.now }
{
    match choice {
        Some(choice) => is_among(choice.chosen.as_slice(), digest),
        None => false,
    }
}

/// Whether a slot, a row of the slots' window or the choice names a digest.
fn is_named(
    slots: &Places<Slot>,
    pre_prepared: &QSet,
    choice: &Option<Choice>,
    digest: &Digest,
) -> bool
    ensures { result ≡ are_named slots.now.rows pre_prepared.now slots.now.low choice.now digest.now }
{
    slots_have(slots, digest)
        || (rows_have(pre_prepared, slots.low(), digest) || choice_has(choice, digest))
}

/// Puts an event into a map.
fn put_row(rows: &mut BTreeMap<Digest, Event>, digest: &Digest, event: Event) -> Result<(), Memory>
    ensures { OnOk result (rows.new.entries ≡ insert_entry (slice_cmp nat_cmp) rows.old.entries digest.now event) }
{
    let _before = rows.insert(*digest, event)?;
    Ok(())
}

/// A copy of a map.
fn copy_rows(
    alloc: Global,
    rows: &BTreeMap<Digest, Event>,
) -> Result<BTreeMap<Digest, Event>, Memory>
    ensures { IfOk result (λ copies. copies.entries ≡ rows.now.entries) }
{
    let mut copies = BTreeMap::new(alloc);
    let mut left = rows.iter();
    while let Some((digest, event)) = left.next_back() {
        put_row(&mut copies, digest, event.copy(alloc)?)?;
    }
    Ok(copies)
}

impl Texts {
    /// No events.
    pub fn new(alloc: Global) -> Texts
        ensures { result ≡ empty }
    {
        Texts {
            rows: BTreeMap::new(alloc),
        }
    }

    /// The event of a digest, where it is held.
    pub fn get(&self, digest: &Digest) -> Option<&Event>
        ensures { option_copied result ≡ get self.now digest.now }
    {
        self.rows.get(digest)
    }

    /// Holds an event under its digest.
    ///
    /// # Errors
    ///
    /// `Memory` only.
    pub fn put(&mut self, digest: &Digest, event: Event) -> Result<(), Memory>
        ensures { OnOk result (self.new ≡ insert self.old digest.now event) }
    {
        let _before = self.rows.insert(*digest, event)?;
        Ok(())
    }

    /// Drops the events that neither a slot nor a row of the slots' window nor the choice names.
    pub fn keep_named(&mut self, slots: &Places<Slot>, pre_prepared: &QSet, choice: &Option<Choice>)
        ensures { self.new ≡ retain_keys self.old (are_named slots.now.rows pre_prepared.now slots.now.low choice.now) }
    {
        self.rows.retain(|digest, _event| is_named(slots, pre_prepared, choice, digest));
    }
}

impl ExactCopy for Texts {
    fn copy(&self, alloc: Global) -> Result<Texts, Memory> {
        Ok(Texts {
            rows: copy_rows(alloc, &self.rows)?,
        })
    }
}
