//! Whether a new view agrees with the view changes that it names.

ghost use Rattle.std.specs.Prelude.{◌≡◌, ◌==◌, ◌&&◌, ◌<◌, ◌≤◌, ◌-◌, ◌+◌, ◌^◌, ℕ, [], ◌↔◌, map, length, nat_lt, slice_index_or, IsTrue};
ghost use Rattle.std.specs.List.{list_all};
ghost use Rattle.std.specs.Str.{bytes_eq};
ghost use Rattle.pws_change.specs.Agreements.{Agrees, agrees_by, name_of};
ghost use Rattle.pws_change.specs.Rising.{rises};
ghost use Rattle.pws_change.specs.Choices.{IsStart, IsChosenAt, GivesChoice, last_of, last_place};

use crate::choices::{digest_at, last_place};
use crate::digests::is_same;
use crate::heard::HeardRef;
use crate::search::start_of;
use pws_base::shapes::{Digest, GroupShape, Place, View};
use pws_msg::changes::{Checkpoint, Choice, Named, NewView};

/// Whether a digest is the one that is chosen at a place.
fn is_chosen_at(changes: &[HeardRef<'_>], shape: GroupShape, place: Place, digest: &Digest) -> bool
    ensures { IsTrue result ↔ IsChosenAt shape changes.now place digest.now }
{
    match digest_at(changes, shape, place) {
        Some(d) => is_same(&d, digest),
        None => false,
    }
}

/// Whether digests are those that are chosen at the places after a checkpoint.
fn are_chosen(changes: &[HeardRef<'_>], shape: GroupShape, start: Place, chosen: &[Digest]) -> bool
    requires { start + length chosen.now < 2 ^ 32 }
    ensures { IsTrue result ↔ ((place : ℕ) → start < place → place ≤ start + length chosen.now → IsChosenAt shape changes.now place (slice_index_or chosen.now (place - (start + 1)) [])) }
{
    for (i, digest) in chosen.iter().enumerate() {
        if !is_chosen_at(changes, shape, start + 1 + i as u32, digest) {
            return false;
        }
    }
    true
}

/// Whether a choice starts from a checkpoint.
fn is_start(start: &Checkpoint, choice: &Choice) -> bool
    ensures { result ≡ (start.now.place == choice.now.place && bytes_eq start.now.digest choice.now.digest) }
{
    start.place == choice.place && is_same(&start.digest, &choice.digest)
}

/// Whether a choice ends at the last chosen place.
fn is_whole(changes: &[HeardRef<'_>], choice: &Choice) -> bool
    ensures whole { IsTrue result ↔ (last_of choice.now ≡ last_place choice.now.place changes.now) }
    ensures small { IsTrue result → last_of choice.now < 2 ^ 32 }
{
    let last = last_place(changes, choice.place);
    choice.chosen.len() == (last - choice.place) as usize
}

/// Whether a choice that is to start from a checkpoint is the one that a list of changes gives.
fn is_choice_from(
    changes: &[HeardRef<'_>],
    shape: GroupShape,
    start: &Checkpoint,
    choice: &Choice,
) -> bool
    requires { IsStart shape changes.now start.now.place start.now.digest }
    ensures { IsTrue result ↔ GivesChoice shape changes.now choice.now }
{
    if !is_start(start, choice) {
        return false;
    }
    if !is_whole(changes, choice) {
        return false;
    }
    are_chosen(changes, shape, choice.place, choice.chosen.as_slice())
}

/// Whether a choice is the one that a list of changes gives.
fn is_choice(changes: &[HeardRef<'_>], shape: GroupShape, choice: &Choice) -> bool
    ensures { IsTrue result ↔ GivesChoice shape changes.now choice.now }
{
    match start_of(changes, shape) {
        Some(start) => is_choice_from(changes, shape, &start, choice),
        None => false,
    }
}

/// Whether an index and a digest are those of a change.
fn is_name_of(named: &Named, h: &HeardRef<'_>) -> bool
    ensures { IsTrue result ↔ (named.now ≡ name_of h.now) }
{
    named.index == h.index() && is_same(&named.digest, h.digest())
}

/// Whether named pairs are those of the changes, in order.
fn are_names_of(named: &[Named], changes: &[HeardRef<'_>]) -> bool
    ensures { IsTrue result ↔ (named.now ≡ map name_of changes.now) }
{
    if named.len() != changes.len() {
        return false;
    }
    for (i, name) in named.iter().enumerate() {
        if !is_name_of(name, &changes[i]) {
            return false;
        }
    }
    true
}

/// Whether each change is for a view.
fn are_for(changes: &[HeardRef<'_>], view: View) -> bool
    ensures { result ≡ list_all (λ h. h.change.view == view) changes.now }
{
    changes.iter().all(|h| h.view() == view)
}

/// Whether the named pairs rise by index.
fn names_rise(named: &[Named]) -> bool
    ensures { result ≡ rises (λ a b. nat_lt a.index b.index) named.now }
{
    named.is_sorted_by(|a, b| a.index < b.index)
}

/// Whether a new view meets all of the conditions.
fn meets_all(new: &NewView, changes: &[HeardRef<'_>], shape: GroupShape) -> bool
    ensures { IsTrue result ↔ Agrees shape new.now changes.now }
{
    let named = new.named.as_slice();
    names_rise(named)
        && usize::from(shape.quorum()) <= named.len()
        && are_names_of(named, changes)
        && are_for(changes, new.view)
        && is_choice(changes, shape, &new.choice)
}

/// Whether a new view agrees with the view changes that it names: the named pairs rise by index, are a quorum or more,
/// and are those of these changes, in order; each change is for the view, and the choice is what they decide.
pub fn agrees(new: &NewView, changes: &[HeardRef<'_>], shape: GroupShape) -> bool
    ensures agrees { IsTrue result ↔ Agrees shape new.now changes.now }
    ensures value { result ≡ agrees_by shape new.now changes.now }
{
    meets_all(new, changes, shape)
}
