//! What a list of view changes decides.

ghost use Rattle.std.specs.Prelude.{◌≡◌, ◌<◌, ◌≤◌, ℕ, max, IfOk, MatchOption};
ghost use Rattle.std.specs.List.{fold};
ghost use Rattle.pws_change.specs.Decisions.{decision_of};
ghost use Rattle.pws_change.specs.Choices.{IsStart, IsUndecidedAt, IsChosenAt, HasNoA, IsChoice, null_digest, highest_place, last_place};

use crate::counts::having_no_entry;
use crate::decisions::Decision;
use crate::heard::HeardRef;
use crate::search::{entry_at, start_of};
use pws_base::limits::PLACE_WINDOW;
use pws_base::lists::Sequence;
use pws_base::memory::Memory;
use pws_base::shapes::{Digest, GroupShape, Place};
use pws_msg::changes::{Checkpoint, Choice, PRow};
use sha2::{Digest as _, Sha256};
use std::alloc::Global;

/// The digest of Null, whose text is one byte, 0.
fn null_digest() -> Digest
    ensures { result ≡ null_digest }
{
    Sha256::digest([0u8].as_slice())
}

/// The highest of a place and those of rows.
fn highest_in(rows: &[PRow], place: Place) -> Place
    ensures { result ≡ fold (λ p r. max p r.place) place rows.now }
{
    let mut highest = place;
    for r in rows {
        highest = highest.max(r.place);
    }
    highest
}

/// The highest place that a prepared set names, or 0.
fn highest_place(changes: &[HeardRef<'_>]) -> Place
    ensures { result ≡ highest_place changes.now }
{
    let mut highest = 0;
    for h in changes {
        highest = highest_in(h.prepared(), highest);
    }
    highest
}

/// The last chosen place after a checkpoint, or the checkpoint's where none is chosen.
pub(crate) fn last_place(changes: &[HeardRef<'_>], start: Place) -> Place
    ensures value { result ≡ last_place start changes.now }
    ensures after { start ≤ result }
{
    start.max(highest_place(changes).min(start.saturating_add(PLACE_WINDOW)))
}

/// Null's digest where B holds at a place.
fn null_at(changes: &[HeardRef<'_>], shape: GroupShape, place: Place) -> Option<Digest>
    requires { HasNoA shape changes.now place }
    ensures { MatchOption result (IsUndecidedAt shape changes.now place) (λ d. IsChosenAt shape changes.now place d) }
{
    if usize::from(shape.quorum()) <= having_no_entry(changes, place) {
        Some(null_digest())
    } else {
        None
    }
}

/// The digest that is chosen at a place, or None where it is undecided.
pub(crate) fn digest_at(changes: &[HeardRef<'_>], shape: GroupShape, place: Place) -> Option<Digest>
    ensures { MatchOption result (IsUndecidedAt shape changes.now place) (λ d. IsChosenAt shape changes.now place d) }
{
    match entry_at(changes, shape, place) {
        Some(r) => Some(r.digest),
        None => null_at(changes, shape, place),
    }
}

/// What is decided after a checkpoint.
fn choose_from(
    alloc: Global,
    changes: &[HeardRef<'_>],
    shape: GroupShape,
    start: &Checkpoint,
) -> Result<Decision, Memory>
    requires { IsStart shape changes.now start.now.place start.now.digest }
    ensures { IfOk result (IsChoice shape changes.now) }
{
    let mut chosen = Sequence::new(alloc);
    for place in start.place..last_place(changes, start.place) {
        match digest_at(changes, shape, place + 1) {
            Some(digest) => chosen.push(digest)?,
            None => return Ok(Decision::Undecided { place: place + 1 }),
        }
    }
    Ok(Decision::Chosen(Choice {
        place: start.place,
        digest: start.digest,
        chosen,
    }))
}

/// What is decided.
fn decide(alloc: Global, changes: &[HeardRef<'_>], shape: GroupShape) -> Result<Decision, Memory>
    ensures { IfOk result (IsChoice shape changes.now) }
{
    match start_of(changes, shape) {
        Some(start) => choose_from(alloc, changes, shape, &start),
        None => Ok(Decision::Undecided { place: 0 }),
    }
}

/// What is decided by a list of view changes for a view, whatever their order: what the view keeps, or that too few
/// agree. The changes are lent, and none is copied. The rule is in docs/PROTOCOL.md.
///
/// # Errors
///
/// `Memory` only.
#[tactic(auto, using(crate::proofs::Deciding::choice_is_decided))]
pub fn choose(
    alloc: Global,
    changes: &[HeardRef<'_>],
    shape: GroupShape,
) -> Result<Decision, Memory>
    ensures choice { IfOk result (IsChoice shape changes.now) }
    ensures value { IfOk result (λ d. d ≡ decision_of shape changes.now) }
{
    let decision = decide(alloc, changes, shape)?;
    Ok(decision)
}
