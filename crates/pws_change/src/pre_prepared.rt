//! What a replica pre-prepared.

ghost use Rattle.std.specs.Prelude.{◌≡◌, ◌<◌, ◌≤◌, ◌==◌, ◌&&◌, ◌↔◌, ℕ, ◌∷◌, [], ◌++◌, map, find, filter, length, nat_lt, nat_le, not, false, Option, slice_index_or, IsTrue, OnOk, OnErr, IfOk, IfErr};
ghost use Rattle.std.specs.List.{list_any, slice_set, sum_by};
ghost use Rattle.std.specs.Ordering.{nat_cmp};
ghost use Rattle.std.specs.Option.{option_copied, option_map_or};
ghost use Rattle.std.specs.Str.{bytes_eq};
ghost use Rattle.std.specs.Cmp.Lexicographic.{slice_cmp};
ghost use Rattle.std.specs.FinMap.{empty, len};
ghost use Rattle.std.specs.FinMap.Entries.{put};
ghost use Rattle.pws_msg.specs.declared.changes.QRow.{QRow as QRowValue};
ghost use Rattle.pws_msg.specs.declared.changes.Seen.{Seen as SeenValue};
ghost use Rattle.pws_change.specs.Rows.{pre_prepared_in, seen_entry, q_entry, digests_in, is_row_full, row_has, IsFoundAt, IsMissingAt};
ghost use Rattle.pws_change.specs.Sets.{q_rows, row_at, has_digest, names_digest, count_of_digests, is_full, with_pre_prepared, trimmed, are_q_rows_lawful};

use crate::digests::is_same;
use pws_base::lists::{ExactCopy, Sequence, copy_all};
use pws_base::memory::Memory;
use pws_base::shapes::{Digest, Place, View};
use pws_msg::changes::{QRow, Seen};
use std::alloc::Global;
use std::cmp::Ordering;
use std::marker::Model;
use std::mem;
use thiserror::Error;

/// Why a digest wasn't noted.
#[derive(Clone, Copy, Debug, PartialEq, Eq, Error)]
pub enum NoteError {
    /// The row of the place has 16 other digests.
    #[error("the row has 16 other digests")]
    RowFull,
    /// There was no memory.
    #[error("out of memory")]
    Memory,
}

impl From<Memory> for NoteError {
    ghost use Rattle.pws_change.specs.declared.pre_prepared.NoteError.TheVariants as note;

    ghost from_gives = { λ _ e. e ≡ note.Memory };

    fn from(_error: Memory) -> NoteError {
        NoteError::Memory
    }
}

/// What a replica pre-prepared in earlier views: by place, up to 16 digests, each with the view in which it was last.
///
/// Contracts see it as a finite map from places to finite maps from digests to views.
#[derive(Drop)]
pub struct QSet {
    /// By rising place, each with 1 to 16 digests, rising.
    rows: Vec<QRow>,
}

impl Model for QSet {
    ghost use Rattle.std.specs.Prelude.{IsTrue};
    ghost use Rattle.pws_change.specs.Rows.{pre_prepared_in};
    ghost use Rattle.pws_change.specs.Sets.{PrePrepared, pre_prepared_code, are_q_rows_lawful};

    ghost Value = { PrePrepared };

    ghost coded = { pre_prepared_code };

    ghost view = { λ s. pre_prepared_in s.rows.items };

    ghost invariant = { λ s. IsTrue (are_q_rows_lawful s.rows.items) };
}

/// Where a digest is among those of a row, or where it belongs.
fn find_digest(digests: &[Seen], digest: &Digest) -> Result<usize, usize>
    ensures found { IfOk result (IsFoundAt (slice_cmp nat_cmp) (λ s. s.digest) digests.now digest.now) }
    ensures missing { IfErr result (IsMissingAt (slice_cmp nat_cmp) (λ s. s.digest) digests.now digest.now) }
{
    for (i, s) in digests.iter().enumerate() {
        match digest.as_slice().cmp(s.digest.as_slice()) {
            Ordering::Greater => {}
            Ordering::Equal => return Ok(i),
            Ordering::Less => return Err(i),
        }
    }
    Err(digests.len())
}

/// Sets the view of a digest, or adds it.
fn put_seen(digests: &mut Vec<Seen>, seen: Seen) -> Result<(), Memory>
    ensures ok { OnOk result (map seen_entry digests.new.items ≡ put (slice_cmp nat_cmp) seen.digest seen.view (map seen_entry digests.old.items)) }
    ensures err { OnErr result (digests.new.items ≡ digests.old.items) }
{
    match find_digest(digests, &seen.digest) {
        Ok(i) => {
            digests[i] = seen;
            Ok(())
        }
        Err(i) => {
            digests.insert(i, seen)?;
            Ok(())
        }
    }
}

/// The digests of a row with one more, or with a later view of one; and whether there was memory for it. Without, they
/// are the same.
fn put_digest(alloc: Global, row: &mut QRow, seen: Seen) -> Result<(), Memory>
    ensures ok { OnOk result (map seen_entry row.new.digests ≡ put (slice_cmp nat_cmp) seen.digest seen.view (map seen_entry row.old.digests)) }
    ensures place { row.new.place ≡ row.old.place }
    ensures err { OnErr result (row.new ≡ row.old) }
{
    let mut digests = mem::replace(&mut row.digests, Sequence::new(alloc)).into_vec();
    let answer = put_seen(&mut digests, seen);
    row.digests = Sequence::from_vec(digests);
    answer
}

/// A row of one digest.
fn new_row(alloc: Global, place: Place, seen: Seen) -> Result<QRow, Memory>
    ensures { IfOk result (λ r. r ≡ record { place = place; digests = seen ∷ [] }) }
{
    let mut digests = Sequence::new(alloc);
    digests.push(seen)?;
    Ok(QRow { place, digests })
}

/// Where the row of a place is, or where it belongs.
fn find_row(rows: &[QRow], place: Place) -> Result<usize, usize>
    ensures found { IfOk result (IsFoundAt nat_cmp (λ r. r.place) rows.now place) }
    ensures missing { IfErr result (IsMissingAt nat_cmp (λ r. r.place) rows.now place) }
{
    for (i, r) in rows.iter().enumerate() {
        match place.cmp(&r.place) {
            Ordering::Greater => {}
            Ordering::Equal => return Ok(i),
            Ordering::Less => return Err(i),
        }
    }
    Err(rows.len())
}

/// The row of a place.
fn row_at(rows: &[QRow], place: Place) -> Option<&QRow>
    ensures { option_copied result ≡ find (λ r. place == r.place) rows.now }
{
    rows.iter().find(|r| place == r.place)
}

/// Whether a digest is among those of a row.
fn has_digest(digests: &[Seen], digest: &Digest) -> bool
    ensures { result ≡ list_any (λ s. bytes_eq digest.now s.digest) digests.now }
{
    digests.iter().any(|s| is_same(digest, &s.digest))
}

/// Whether a row has 16 other digests.
fn is_row_full(row: &QRow, digest: &Digest) -> bool
    ensures { result ≡ is_row_full digest.now row.now }
{
    16 <= row.digests.len() && !has_digest(row.digests.as_slice(), digest)
}

/// How many digests the row of a place has.
fn digests_at(rows: &[QRow], place: Place) -> usize
    ensures { result ≡ option_map_or (λ r. length r.digests) (find (λ r. place == r.place) rows.now) 0 }
{
    match row_at(rows, place) {
        Some(row) => row.digests.len(),
        None => 0,
    }
}

/// Whether the row of a place has a digest.
fn has_at(rows: &[QRow], place: Place, digest: &Digest) -> bool
    ensures { result ≡ option_map_or (row_has digest.now) (find (λ r. place == r.place) rows.now) false }
{
    match row_at(rows, place) {
        Some(row) => has_digest(row.digests.as_slice(), digest),
        None => false,
    }
}

/// Whether some row has a digest.
fn is_named_in(rows: &[QRow], digest: &Digest) -> bool
    ensures { result ≡ list_any (row_has digest.now) rows.now }
{
    rows.iter()
        .any(|r| has_digest(r.digests.as_slice(), digest))
}

/// How many digests the rows have together.
fn count_in(rows: &[QRow]) -> usize
    requires { IsTrue (are_q_rows_lawful rows.now) }
    ensures { result ≡ sum_by (λ r. length r.digests) rows.now }
{
    let mut count = 0;
    for row in rows {
        count += row.digests.len();
    }
    count
}

/// Whether the row of a place has 16 other digests.
fn is_full_in(rows: &[QRow], place: Place, digest: &Digest) -> bool
    ensures { result ≡ option_map_or (is_row_full digest.now) (find (λ r. place == r.place) rows.now) false }
{
    match row_at(rows, place) {
        Some(row) => is_row_full(row, digest),
        None => false,
    }
}

/// Drops the rows up to a low mark.
fn keep_above(rows: &mut Vec<QRow>, low: Place)
    ensures { rows.new.items ≡ filter (λ r. nat_lt low r.place) rows.old.items }
{
    rows.retain(|r| low < r.place);
}

/// Notes a digest in the row of a place, which isn't full of others.
fn put_row(alloc: Global, rows: &mut Vec<QRow>, place: Place, seen: Seen) -> Result<(), Memory>
    requires lawful { IsTrue (are_q_rows_lawful rows.old.items) }
    requires room { option_map_or (is_row_full seen.digest) (find (λ r. place == r.place) rows.old.items) false ≡ false }
    ensures ok { OnOk result (pre_prepared_in rows.new.items ≡ with_pre_prepared (pre_prepared_in rows.old.items) place seen.digest seen.view) }
    ensures lawful { OnOk result (IsTrue (are_q_rows_lawful rows.new.items)) }
    ensures err { OnErr result (rows.new.items ≡ rows.old.items) }
{
    match find_row(rows, place) {
        Ok(i) => {
            put_digest(alloc, &mut rows[i], seen)?;
            Ok(())
        }
        Err(i) => {
            let row = new_row(alloc, place, seen)?;
            rows.insert(i, row)?;
            Ok(())
        }
    }
}

impl QSet {
    /// The empty set.
    #[tactic(auto, using(crate::proofs::Witnessed::none_kept))]
    pub fn new(alloc: Global) -> QSet
        ensures { result ≡ empty }
    {
        QSet {
            rows: Vec::new(alloc),
        }
    }

    /// Its rows, by rising place; each has 1 to 16 digests, rising.
    pub fn rows(&self) -> &[QRow]
        ensures value { result.now ≡ q_rows self.now }
        ensures lawful { IsTrue (are_q_rows_lawful result.now) }
    {
        self.rows.as_slice()
    }

    /// How many digests were pre-prepared at a place, 0 to 16.
    pub fn count_at(&self, place: Place) -> usize
        ensures value { result ≡ len (row_at self.now place) }
        ensures few { result ≤ 16 }
    {
        digests_at(&self.rows, place)
    }

    /// Whether a digest was pre-prepared at a place.
    pub fn has(&self, place: Place, digest: &Digest) -> bool
        ensures { result ≡ has_digest self.now place digest.now }
    {
        has_at(&self.rows, place, digest)
    }

    /// Whether a digest was pre-prepared at some place.
    pub fn names(&self, digest: &Digest) -> bool
        ensures { result ≡ names_digest self.now digest.now }
    {
        is_named_in(self.rows(), digest)
    }

    /// How many digests were pre-prepared, at all places together.
    pub fn count(&self) -> usize
        ensures { result ≡ count_of_digests self.now }
    {
        count_in(self.rows())
    }

    /// A copy of its rows, as a view change holds them.
    ///
    /// # Errors
    ///
    /// `Memory` only.
    pub fn to_rows(&self, alloc: Global) -> Result<Sequence<QRow>, Memory>
        ensures { IfOk result (λ rows. rows ≡ q_rows self.now) }
    {
        copy_all(alloc, self.rows())
    }

    /// Whether the row of a place has 16 digests other than this one.
    pub fn is_full(&self, place: Place, digest: &Digest) -> bool
        ensures { result ≡ is_full self.now place digest.now }
    {
        is_full_in(&self.rows, place, digest)
    }

    /// Notes that a digest was pre-prepared at a place in a view, which becomes the digest's view there.
    ///
    /// # Errors
    ///
    /// `RowFull` exactly where the row of the place has 16 other digests, and `Memory`; the set is unchanged then.
    pub fn note(
        &mut self,
        alloc: Global,
        place: Place,
        digest: &Digest,
        view: View,
    ) -> Result<(), NoteError>
        ensures ok { OnOk result (self.new ≡ with_pre_prepared self.old place digest.now view) }
        ensures full { (result ≡ Err NoteError.RowFull) ↔ IsTrue (is_full self.old place digest.now) }
        ensures err { OnErr result (self.new ≡ self.old) }
    {
        if is_full_in(&self.rows, place, digest) {
            return Err(NoteError::RowFull);
        }
        let seen = Seen {
            digest: *digest,
            view,
        };
        put_row(alloc, &mut self.rows, place, seen)?;
        Ok(())
    }

    /// Drops the places at or below a low mark.
    pub fn trim(&mut self, low: Place)
        ensures { self.new ≡ trimmed low self.old }
    {
        keep_above(&mut self.rows, low);
    }
}

impl ExactCopy for QSet {
    fn copy(&self, alloc: Global) -> Result<QSet, Memory> {
        Ok(QSet {
            rows: copy_all(alloc, &self.rows)?.into_vec(),
        })
    }
}
