//! Which view changes are valid.

ghost use Rattle.std.specs.Prelude.{◌≡◌, ◌<◌, ◌≤◌, ◌↔◌, ◌&&◌, nat_lt, nat_le, length, IsTrue};
ghost use Rattle.std.specs.List.{list_all};
ghost use Rattle.pws_change.specs.Rising.{rises, is_digest_below};
ghost use Rattle.pws_change.specs.Valid.{begins_at, is_checkpoint_valid, are_checkpoints_valid, is_p_row_valid, are_p_rows_valid, are_digests_valid, is_q_row_valid, are_q_rows_valid, is_valid, IsValid};

use crate::digests::{is_below, is_same};
use pws_base::limits::{CHECKPOINT_DISTANCE, PLACE_WINDOW};
use pws_base::places::is_in_window;
use pws_base::shapes::{Place, View};
use pws_msg::changes::{Checkpoint, PRow, QRow, Seen, ViewChange};

/// Whether a checkpoint is valid in a change of this low mark.
fn is_checkpoint_valid(c: &Checkpoint, low: Place) -> bool
    ensures { result ≡ is_checkpoint_valid low c.now }
{
    c.place % CHECKPOINT_DISTANCE == 0
        && c.place <= low.saturating_add(PLACE_WINDOW)
        && (c.place != 0 || is_same(&c.digest, &[0; 32]))
}

/// Whether each checkpoint is valid.
fn are_each_valid(checkpoints: &[Checkpoint], low: Place) -> bool
    ensures { result ≡ list_all (is_checkpoint_valid low) checkpoints.now }
{
    checkpoints.iter().all(|c| is_checkpoint_valid(c, low))
}

/// Whether checkpoints rise by place.
fn checkpoints_rise(checkpoints: &[Checkpoint]) -> bool
    ensures { result ≡ rises (λ a b. nat_lt a.place b.place) checkpoints.now }
{
    checkpoints.is_sorted_by(|a, b| a.place < b.place)
}

/// Whether the first checkpoint is at a place.
fn begins_at(checkpoints: &[Checkpoint], low: Place) -> bool
    ensures { result ≡ begins_at low checkpoints.now }
{
    match checkpoints.first() {
        Some(c) => c.place == low,
        None => false,
    }
}

/// Whether checkpoints are valid, rise, and begin with the low mark.
fn are_checkpoints_valid(checkpoints: &[Checkpoint], low: Place) -> bool
    ensures { result ≡ are_checkpoints_valid low checkpoints.now }
{
    are_each_valid(checkpoints, low) && checkpoints_rise(checkpoints) && begins_at(checkpoints, low)
}

/// Whether a prepared row is valid.
fn is_p_row_valid(r: &PRow, low: Place, view: View) -> bool
    ensures { result ≡ is_p_row_valid low view r.now }
{
    is_in_window(low, r.place) && r.view < view
}

/// Whether each prepared row is valid.
fn are_p_rows_each_valid(rows: &[PRow], low: Place, view: View) -> bool
    ensures { result ≡ list_all (is_p_row_valid low view) rows.now }
{
    rows.iter().all(|r| is_p_row_valid(r, low, view))
}

/// Whether prepared rows rise by place.
fn p_rows_rise(rows: &[PRow]) -> bool
    ensures { result ≡ rises (λ a b. nat_lt a.place b.place) rows.now }
{
    rows.is_sorted_by(|a, b| a.place < b.place)
}

/// Whether prepared rows are valid, and rise.
fn are_p_rows_valid(rows: &[PRow], low: Place, view: View) -> bool
    ensures { result ≡ are_p_rows_valid low view rows.now }
{
    are_p_rows_each_valid(rows, low, view) && p_rows_rise(rows)
}

/// Whether digests rise.
fn digests_rise(digests: &[Seen]) -> bool
    ensures { result ≡ rises (λ a b. is_digest_below a.digest b.digest) digests.now }
{
    digests.is_sorted_by(|a, b| is_below(&a.digest, &b.digest))
}

/// Whether digests are of views before this one.
fn are_seen_before(digests: &[Seen], view: View) -> bool
    ensures { result ≡ list_all (λ s. nat_lt s.view view) digests.now }
{
    digests.iter().all(|s| s.view < view)
}

/// Whether the digests of a row are valid.
fn are_digests_valid(digests: &[Seen], view: View) -> bool
    ensures { result ≡ are_digests_valid view digests.now }
{
    1 <= digests.len()
        && digests.len() <= 16
        && are_seen_before(digests, view)
        && digests_rise(digests)
}

/// Whether a pre-prepared row is valid.
fn is_q_row_valid(r: &QRow, low: Place, view: View) -> bool
    ensures { result ≡ is_q_row_valid low view r.now }
{
    is_in_window(low, r.place) && are_digests_valid(r.digests.as_slice(), view)
}

/// Whether each pre-prepared row is valid.
fn are_q_rows_each_valid(rows: &[QRow], low: Place, view: View) -> bool
    ensures { result ≡ list_all (is_q_row_valid low view) rows.now }
{
    rows.iter().all(|r| is_q_row_valid(r, low, view))
}

/// Whether pre-prepared rows rise by place.
fn q_rows_rise(rows: &[QRow]) -> bool
    ensures { result ≡ rises (λ a b. nat_lt a.place b.place) rows.now }
{
    rows.is_sorted_by(|a, b| a.place < b.place)
}

/// Whether pre-prepared rows are valid, and rise.
fn are_q_rows_valid(rows: &[QRow], low: Place, view: View) -> bool
    ensures { result ≡ are_q_rows_valid low view rows.now }
{
    are_q_rows_each_valid(rows, low, view) && q_rows_rise(rows)
}

/// Whether a view change meets all of the conditions.
fn meets_all(change: &ViewChange) -> bool
    ensures { IsTrue result ↔ IsValid change.now }
{
    1 <= change.view
        && change.low % CHECKPOINT_DISTANCE == 0
        && are_checkpoints_valid(change.checkpoints.as_slice(), change.low)
        && are_p_rows_valid(change.prepared.as_slice(), change.low, change.view)
        && are_q_rows_valid(change.pre_prepared.as_slice(), change.low, change.view)
}

/// Whether a view change is valid: its view is at least 1; its low mark is a multiple of 16, and so are the places of its
/// checkpoints, which rise, begin with the low mark and end at most 32 places above it, and of which the one at 0 has 32
/// zeros; its rows rise by place within the 32 above the low mark; a pre-prepared row has 1 to 16 digests, rising; and
/// all views of rows are below its own.
pub fn valid(change: &ViewChange) -> bool
    ensures valid { IsTrue result ↔ IsValid change.now }
    ensures value { result ≡ is_valid change.now }
{
    meets_all(change)
}
