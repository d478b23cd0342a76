//! The best checkpoint, and the best entry at a place.

ghost use Rattle.std.specs.Prelude.{◌≡◌, ◌&&◌, not, ◌∷◌, [], ◌++◌, List, MatchOption, nat_le};
ghost use Rattle.std.specs.List.{count_by};
ghost use Rattle.pws_base.specs.Shapes.{quorum_of, weak_of};
ghost use Rattle.pws_msg.specs.declared.changes.Checkpoint.{Checkpoint as CheckpointValue};
ghost use Rattle.pws_msg.specs.declared.changes.PRow.{PRow as PRowValue};
ghost use Rattle.pws_change.specs.Best.{is_no_better, is_better, rank_of_checkpoint, may_start, rank_of_row, is_candidate};
ghost use Rattle.pws_change.specs.Searched.{IsBest, is_same_checkpoint, is_same_row};
ghost use Rattle.pws_change.specs.Changes.{allows_entry, is_witness};
ghost use Rattle.pws_change.specs.Choices.{IsStart, HasNoStart, IsBestEntry, HasNoA, prepared_rows};

use crate::counts::{allowing_entry, having_checkpoint, low_by, witnesses};
use crate::digests::is_at_most;
use crate::heard::HeardRef;
use pws_base::shapes::{Digest, GroupShape, Place};
use pws_msg::changes::{Checkpoint, PRow};

/// Whether a view may start from a checkpoint.
fn may_start(changes: &[HeardRef<'_>], shape: GroupShape, c: &Checkpoint) -> bool
    ensures { result ≡ may_start shape changes.now c.now }
{
    usize::from(shape.quorum()) <= low_by(changes, c.place)
        && usize::from(shape.weak()) <= having_checkpoint(changes, c.place, &c.digest)
}

/// Whether a number and a digest are better than others.
fn beats(number: u32, digest: &Digest, other: u32, other_digest: &Digest) -> bool
    ensures { result ≡ not (is_no_better (number, digest.now) (other, other_digest.now)) }
{
    !(number < other || (number == other && is_at_most(other_digest, digest)))
}

/// Whether a checkpoint is better than the best before it.
fn is_later(c: &Checkpoint, best: &Option<Checkpoint>) -> bool
    ensures { result ≡ is_better rank_of_checkpoint c.now best.now }
{
    match best {
        Some(b) => beats(c.place, &c.digest, b.place, &b.digest),
        None => true,
    }
}

/// Whether a checkpoint is better than the best before it, and a view may start from it.
fn takes_checkpoint(
    changes: &[HeardRef<'_>],
    shape: GroupShape,
    c: &Checkpoint,
    best: &Option<Checkpoint>,
) -> bool
    ensures { result ≡ (is_better rank_of_checkpoint c.now best.now && may_start shape changes.now c.now) }
{
    is_later(c, best) && may_start(changes, shape, c)
}

/// The best checkpoint, after one more.
fn better_checkpoint(
    changes: &[HeardRef<'_>],
    shape: GroupShape,
    c: &Checkpoint,
    best: Option<Checkpoint>,
) -> Option<Checkpoint>
    ensures { (seen : List CheckpointValue)
        → IsBest (may_start shape changes.now) rank_of_checkpoint is_same_checkpoint seen best
        → IsBest (may_start shape changes.now) rank_of_checkpoint is_same_checkpoint (seen ++ c.now ∷ []) result }
{
    if takes_checkpoint(changes, shape, c, &best) {
        Some(*c)
    } else {
        best
    }
}

/// The best checkpoint, after those of one change.
fn best_checkpoint(
    changes: &[HeardRef<'_>],
    shape: GroupShape,
    checkpoints: &[Checkpoint],
    best: Option<Checkpoint>,
) -> Option<Checkpoint>
    ensures { (seen : List CheckpointValue)
        → IsBest (may_start shape changes.now) rank_of_checkpoint is_same_checkpoint seen best
        → IsBest (may_start shape changes.now) rank_of_checkpoint is_same_checkpoint (seen ++ checkpoints.now) result }
{
    let mut found = best;
    for c in checkpoints {
        found = better_checkpoint(changes, shape, c, found);
    }
    found
}

/// The checkpoint that a view starts from.
pub(crate) fn start_of(changes: &[HeardRef<'_>], shape: GroupShape) -> Option<Checkpoint>
    ensures { MatchOption result (HasNoStart shape changes.now) (λ c. IsStart shape changes.now c.place c.digest) }
{
    let mut found = None;
    for h in changes {
        found = best_checkpoint(changes, shape, h.checkpoints(), found);
    }
    found
}

/// Whether a quorum of the changes allow a row's entry, and f + 1 are witnesses of it.
fn meets_a(changes: &[HeardRef<'_>], shape: GroupShape, place: Place, r: &PRow) -> bool
    ensures { result ≡ (nat_le (quorum_of shape) (count_by (allows_entry place r.now.digest r.now.view) changes.now) && nat_le (weak_of shape) (count_by (is_witness place r.now.digest r.now.view) changes.now)) }
{
    usize::from(shape.quorum()) <= allowing_entry(changes, place, &r.digest, r.view)
        && usize::from(shape.weak()) <= witnesses(changes, place, &r.digest, r.view)
}

/// Whether a row is an entry at the place that meets A.
fn is_candidate(changes: &[HeardRef<'_>], shape: GroupShape, place: Place, r: &PRow) -> bool
    ensures { result ≡ is_candidate shape changes.now place r.now }
{
    r.place == place && meets_a(changes, shape, place, r)
}

/// Whether a row is better than the best before it.
fn is_newer(r: &PRow, best: &Option<PRow>) -> bool
    ensures { result ≡ is_better rank_of_row r.now best.now }
{
    match best {
        Some(b) => beats(r.view, &r.digest, b.view, &b.digest),
        None => true,
    }
}

/// Whether a row is better than the best before it, and is an entry at the place that meets A.
fn takes_row(
    changes: &[HeardRef<'_>],
    shape: GroupShape,
    place: Place,
    r: &PRow,
    best: &Option<PRow>,
) -> bool
    ensures { result ≡ (is_better rank_of_row r.now best.now && is_candidate shape changes.now place r.now) }
{
    is_newer(r, best) && is_candidate(changes, shape, place, r)
}

/// The best entry at a place, after one more row.
fn better_entry(
    changes: &[HeardRef<'_>],
    shape: GroupShape,
    place: Place,
    r: &PRow,
    best: Option<PRow>,
) -> Option<PRow>
    ensures { (seen : List PRowValue)
        → IsBest (is_candidate shape changes.now place) rank_of_row is_same_row seen best
        → IsBest (is_candidate shape changes.now place) rank_of_row is_same_row (seen ++ r.now ∷ []) result }
{
    if takes_row(changes, shape, place, r, &best) {
        Some(*r)
    } else {
        best
    }
}

/// The best entry at a place, after the rows of one change.
fn best_entry(
    changes: &[HeardRef<'_>],
    shape: GroupShape,
    place: Place,
    rows: &[PRow],
    best: Option<PRow>,
) -> Option<PRow>
    ensures { (seen : List PRowValue)
        → IsBest (is_candidate shape changes.now place) rank_of_row is_same_row seen best
        → IsBest (is_candidate shape changes.now place) rank_of_row is_same_row (seen ++ rows.now) result }
{
    let mut found = best;
    for r in rows {
        found = better_entry(changes, shape, place, r, found);
    }
    found
}

/// The best entry at a place that meets A.
pub(crate) fn entry_at(changes: &[HeardRef<'_>], shape: GroupShape, place: Place) -> Option<PRow>
    ensures { MatchOption result (HasNoA shape changes.now place) (λ r. IsBestEntry shape changes.now place r.digest r.view) }
{
    let mut found = None;
    for h in changes {
        found = best_entry(changes, shape, place, h.prepared(), found);
    }
    found
}
