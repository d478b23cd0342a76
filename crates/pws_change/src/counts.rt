//! How many view changes say what of a place.

ghost use Rattle.std.specs.Prelude.{◌≡◌, ◌==◌, ◌&&◌, not, nat_lt, nat_le, count_by};
ghost use Rattle.std.specs.Str.{bytes_eq};
ghost use Rattle.std.specs.List.{list_any, list_all};
ghost use Rattle.pws_change.specs.Changes.{is_low_by, has_checkpoint, is_entry, has_entry, is_row_no_later, allows_entry, is_witness, has_no_entry};

use crate::digests::is_same;
use crate::heard::HeardRef;
use pws_base::shapes::{Digest, Place, View};
use pws_msg::changes::{Checkpoint, PRow, QRow, Seen};

/// Whether a checkpoint is this one.
fn is_checkpoint(c: &Checkpoint, place: Place, digest: &Digest) -> bool
    ensures { result ≡ (c.now.place == place && bytes_eq c.now.digest digest.now) }
{
    c.place == place && is_same(&c.digest, digest)
}

/// Whether a change has a checkpoint.
fn has_checkpoint(h: &HeardRef<'_>, place: Place, digest: &Digest) -> bool
    ensures { result ≡ has_checkpoint place digest.now h.now }
{
    h.checkpoints()
        .iter()
        .any(|c| is_checkpoint(c, place, digest))
}

/// How many changes have a checkpoint.
pub(crate) fn having_checkpoint(changes: &[HeardRef<'_>], place: Place, digest: &Digest) -> usize
    ensures { result ≡ count_by (has_checkpoint place digest.now) changes.now }
{
    changes
        .iter()
        .filter(|h| has_checkpoint(h, place, digest))
        .count()
}

/// How many changes have a low mark at or below a place.
pub(crate) fn low_by(changes: &[HeardRef<'_>], place: Place) -> usize
    ensures { result ≡ count_by (is_low_by place) changes.now }
{
    changes.iter().filter(|h| h.low() <= place).count()
}

/// Whether a row, if it is at the place, is of an earlier view than the entry, or is the entry itself.
fn is_row_no_later(r: &PRow, place: Place, digest: &Digest, view: View) -> bool
    ensures { result ≡ is_row_no_later place digest.now view r.now }
{
    r.place != place || r.view < view || (r.view == view && is_same(&r.digest, digest))
}

/// Whether each row is no later than the entry.
fn are_rows_no_later(rows: &[PRow], place: Place, digest: &Digest, view: View) -> bool
    ensures { result ≡ list_all (is_row_no_later place digest.now view) rows.now }
{
    rows.iter().all(|r| is_row_no_later(r, place, digest, view))
}

/// Whether a change with a low mark below the place has there no other entry that isn't of an earlier view.
fn allows_entry(h: &HeardRef<'_>, place: Place, digest: &Digest, view: View) -> bool
    ensures { result ≡ allows_entry place digest.now view h.now }
{
    h.low() < place && are_rows_no_later(h.prepared(), place, digest, view)
}

/// How many changes allow an entry.
pub(crate) fn allowing_entry(
    changes: &[HeardRef<'_>],
    place: Place,
    digest: &Digest,
    view: View,
) -> usize
    ensures { result ≡ count_by (allows_entry place digest.now view) changes.now }
{
    changes
        .iter()
        .filter(|h| allows_entry(h, place, digest, view))
        .count()
}

/// Whether a digest is this one, in this view or a later one.
fn is_seen(s: &Seen, digest: &Digest, view: View) -> bool
    ensures { result ≡ (bytes_eq s.now.digest digest.now && nat_le view s.now.view) }
{
    is_same(&s.digest, digest) && view <= s.view
}

/// Whether one of these is this digest, in this view or a later one.
fn is_among(digests: &[Seen], digest: &Digest, view: View) -> bool
    ensures { result ≡ list_any (λ s. bytes_eq s.digest digest.now && nat_le view s.view) digests.now }
{
    digests.iter().any(|s| is_seen(s, digest, view))
}

/// Whether a row at the place has a digest, in this view or a later one.
fn is_row_witness(q: &QRow, place: Place, digest: &Digest, view: View) -> bool
    ensures { result ≡ (q.now.place == place && list_any (λ s. bytes_eq s.digest digest.now && nat_le view s.view) q.now.digests) }
{
    q.place == place && is_among(q.digests.as_slice(), digest, view)
}

/// Whether a change pre-prepared a digest at a place, in this view or a later one.
fn is_witness(h: &HeardRef<'_>, place: Place, digest: &Digest, view: View) -> bool
    ensures { result ≡ is_witness place digest.now view h.now }
{
    h.pre_prepared()
        .iter()
        .any(|q| is_row_witness(q, place, digest, view))
}

/// How many changes are witnesses of an entry.
pub(crate) fn witnesses(
    changes: &[HeardRef<'_>],
    place: Place,
    digest: &Digest,
    view: View,
) -> usize
    ensures { result ≡ count_by (is_witness place digest.now view) changes.now }
{
    changes
        .iter()
        .filter(|h| is_witness(h, place, digest, view))
        .count()
}

/// Whether no row is at the place.
fn are_rows_elsewhere(rows: &[PRow], place: Place) -> bool
    ensures { result ≡ list_all (λ r. not (r.place == place)) rows.now }
{
    rows.iter().all(|r| r.place != place)
}

/// Whether a change with a low mark below the place has no entry there.
fn has_no_entry(h: &HeardRef<'_>, place: Place) -> bool
    ensures { result ≡ has_no_entry place h.now }
{
    h.low() < place && are_rows_elsewhere(h.prepared(), place)
}

/// How many changes have no entry at a place.
pub(crate) fn having_no_entry(changes: &[HeardRef<'_>], place: Place) -> usize
    ensures { result ≡ count_by (has_no_entry place) changes.now }
{
    changes.iter().filter(|h| has_no_entry(h, place)).count()
}
