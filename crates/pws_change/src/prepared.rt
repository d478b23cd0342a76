//! What a replica prepared.

ghost use Rattle.std.specs.Prelude.{◌≡◌, ◌<◌, ◌≤◌, ◌==◌, ℕ, ◌∷◌, [], ◌++◌, map, filter, length, nat_lt, nat_le, slice_index_or, IsTrue, OnOk, OnErr, IfOk, IfErr};
ghost use Rattle.std.specs.Ordering.{nat_cmp};
ghost use Rattle.std.specs.FinMap.{empty, len};
ghost use Rattle.std.specs.FinMap.Entries.{put};
ghost use Rattle.pws_msg.specs.declared.changes.PRow.{PRow as PRowValue};
ghost use Rattle.pws_change.specs.Rising.{rises};
ghost use Rattle.pws_change.specs.Rows.{p_entry, IsFoundAt, IsMissingAt};
ghost use Rattle.pws_change.specs.Sets.{p_rows, with_prepared, trimmed};

use pws_base::lists::{ExactCopy, Sequence, copy_all};
use pws_base::memory::Memory;
use pws_base::shapes::{Digest, Place, View};
use pws_msg::changes::PRow;
use std::alloc::Global;
use std::cmp::Ordering;
use std::marker::Model;

/// What a replica prepared in earlier views: a digest and a view by place, those that were noted last.
///
/// Contracts see it as a finite map.
#[derive(Drop)]
pub struct PSet {
    /// By rising place.
    rows: Vec<PRow>,
}

impl Model for PSet {
    ghost use Rattle.std.specs.Prelude.{nat_lt, IsTrue};
    ghost use Rattle.pws_change.specs.Rising.{rises};
    ghost use Rattle.pws_change.specs.Rows.{prepared_in};
    ghost use Rattle.pws_change.specs.Sets.{Prepared, prepared_code};

    ghost Value = { Prepared };

    ghost coded = { prepared_code };

    ghost view = { λ s. prepared_in s.rows.items };

    ghost invariant = { λ s. IsTrue (rises (λ a b. nat_lt a.place b.place) s.rows.items) };
}

/// Where the row of a place is, or where it belongs.
fn find_row(rows: &[PRow], place: Place) -> Result<usize, usize>
    ensures found { IfOk result (IsFoundAt nat_cmp (λ r. r.place) rows.now place) }
    ensures missing { IfErr result (IsMissingAt nat_cmp (λ r. r.place) rows.now place) }
{
    for (i, r) in rows.iter().enumerate() {
        match place.cmp(&r.place) {
            Ordering::Greater => {}
            Ordering::Equal => return Ok(i),
            Ordering::Less => return Err(i),
        }
    }
    Err(rows.len())
}

/// Replaces the row of a place, or adds it.
fn put_row(rows: &mut Vec<PRow>, row: PRow) -> Result<(), Memory>
    ensures ok { OnOk result (map p_entry rows.new.items ≡ put nat_cmp row.place (row.digest, row.view) (map p_entry rows.old.items)) }
    ensures err { OnErr result (rows.new.items ≡ rows.old.items) }
{
    match find_row(rows, row.place) {
        Ok(i) => {
            rows[i] = row;
            Ok(())
        }
        Err(i) => {
            rows.insert(i, row)?;
            Ok(())
        }
    }
}

/// Drops the rows up to a low mark.
fn keep_above(rows: &mut Vec<PRow>, low: Place)
    ensures { rows.new.items ≡ filter (λ r. nat_lt low r.place) rows.old.items }
{
    rows.retain(|r| low < r.place);
}

impl PSet {
    /// The empty set.
    #[tactic(auto, using(crate::proofs::Placed::none_kept))]
    pub fn new(alloc: Global) -> PSet
        ensures { result ≡ empty }
    {
        PSet {
            rows: Vec::new(alloc),
        }
    }

    /// Its rows, by rising place.
    pub fn rows(&self) -> &[PRow]
        ensures value { result.now ≡ p_rows self.now }
        ensures rising { IsTrue (rises (λ a b. nat_lt a.place b.place) result.now) }
    {
        self.rows.as_slice()
    }

    /// How many places it has.
    pub fn count(&self) -> usize
        ensures { result ≡ len self.now }
    {
        self.rows().len()
    }

    /// A copy of its rows, as a view change holds them.
    ///
    /// # Errors
    ///
    /// `Memory` only.
    pub fn to_rows(&self, alloc: Global) -> Result<Sequence<PRow>, Memory>
        ensures { IfOk result (λ rows. rows ≡ p_rows self.now) }
    {
        copy_all(alloc, self.rows())
    }

    /// Notes that a digest was prepared at a place in a view, in place of what was noted there.
    ///
    /// # Errors
    ///
    /// `Memory` only; the set is unchanged then.
    pub fn note(&mut self, place: Place, digest: &Digest, view: View) -> Result<(), Memory>
        ensures ok { OnOk result (self.new ≡ with_prepared self.old place digest.now view) }
        ensures err { OnErr result (self.new ≡ self.old) }
    {
        let row = PRow {
            place,
            digest: *digest,
            view,
        };
        put_row(&mut self.rows, row)?;
        Ok(())
    }

    /// Drops the places at or below a low mark.
    pub fn trim(&mut self, low: Place)
        ensures { self.new ≡ trimmed low self.old }
    {
        keep_above(&mut self.rows, low);
    }
}

impl ExactCopy for PSet {
    fn copy(&self, alloc: Global) -> Result<PSet, Memory> {
        Ok(PSet {
            rows: self.rows.to_vec(alloc)?,
        })
    }
}
