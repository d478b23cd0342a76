//! Finite maps: by the index of a replica, by place, and by digest.

ghost use Rattle.std.specs.Prelude.{◌≡◌, IfOk, OnOk, nat_le};
ghost use Rattle.std.specs.Option.{option_copied};
ghost use Rattle.std.specs.FinMap.{get, contains_key, empty, insert, retain_keys, entries, len};
ghost use Rattle.std.specs.FinSet as set;
ghost use Rattle.std.specs.Ordering.{nat_cmp};
ghost use Rattle.std.specs.BTreeMap.{insert_entry};

use crate::digests::is_among;
use pws_base::lists::ExactCopy;
use pws_base::memory::Memory;
use pws_base::shapes::{Digest, Place};
use std::alloc::Global;
use std::collections::BTreeMap;
use std::collections::btree_map::Iter;
use std::marker::Model;

/// A map by the index of a replica.
///
/// Contracts see it as a finite map.
#[derive(Drop)]
pub struct ByReplica<T> {
    rows: BTreeMap<u8, T>,
}

impl<T> Model for ByReplica<T> {
    ghost use Rattle.std.specs.Coded.{coded_ℕ};
    ghost use Rattle.std.specs.Ordering.{nat_cmp};
    ghost use Rattle.std.specs.FinMap.{FinMap, from_entries, code};

    ghost Value = { FinMap nat_cmp T };

    ghost coded = { code coded_ℕ T.code };

    ghost view = { λ m. from_entries m.rows.entries };
}

impl<T: Drop> ByReplica<T> {
    /// No rows.
    pub fn new(alloc: Global) -> ByReplica<T>
        ensures { result ≡ empty }
    {
        ByReplica {
            rows: BTreeMap::new(alloc),
        }
    }

    /// The row of a replica, where there is one.
    pub fn get(&self, index: u8) -> Option<&T>
        ensures { option_copied result ≡ get self.now index }
    {
        self.rows.get(&index)
    }

    /// Whether a replica has a row.
    pub fn has(&self, index: u8) -> bool
        ensures { result ≡ contains_key self.now index }
    {
        self.get(index).is_some()
    }

    /// Puts a row, in place of what was there.
    ///
    /// # Errors
    ///
    /// `Memory` only.
    pub fn put(&mut self, index: u8, row: T) -> Result<(), Memory>
        ensures { OnOk result (self.new ≡ insert self.old index row) }
    {
        let _before = self.rows.insert(index, row)?;
        Ok(())
    }

    /// Drops all rows.
    pub fn clear(&mut self)
        ensures { self.new ≡ empty }
    {
        self.rows.clear();
    }

    /// The rows with their indices, rising.
    pub fn iter(&self) -> Iter<'_, u8, T>
        ensures { result ≡ entries self.now }
    {
        self.rows.iter()
    }

    /// How many rows there are.
    pub fn count(&self) -> usize
        ensures { result ≡ len self.now }
    {
        self.rows.len()
    }
}

/// Puts a row into a map.
fn put_row<T: Drop>(rows: &mut BTreeMap<u8, T>, index: u8, row: T) -> Result<(), Memory>
    ensures { OnOk result (rows.new.entries ≡ insert_entry nat_cmp rows.old.entries index row) }
{
    let _before = rows.insert(index, row)?;
    Ok(())
}

/// A map with copies of the rows of another, each equal to that row.
fn copy_rows<T: ExactCopy>(alloc: Global, rows: &BTreeMap<u8, T>) -> Result<BTreeMap<u8, T>, Memory>
    ensures { IfOk result (λ copies. copies.entries ≡ rows.now.entries) }
{
    let mut copies = BTreeMap::new(alloc);
    let mut left = rows.iter();
    while let Some((index, row)) = left.next_back() {
        put_row(&mut copies, *index, row.copy(alloc)?)?;
    }
    Ok(copies)
}

impl<T: ExactCopy> ExactCopy for ByReplica<T> {
    fn copy(&self, alloc: Global) -> Result<ByReplica<T>, Memory> {
        Ok(ByReplica {
            rows: copy_rows(alloc, &self.rows)?,
        })
    }
}

/// Digests by place.
///
/// Contracts see it as a finite map.
#[derive(Drop)]
pub struct Chains {
    rows: BTreeMap<Place, Digest>,
}

impl Model for Chains {
    ghost use Rattle.std.specs.Prelude.{ℕ, List};
    ghost use Rattle.std.specs.Ordering.{nat_cmp};
    ghost use Rattle.std.specs.FinMap.{FinMap, from_entries};
    ghost use Rattle.pws_voter.specs.Codes.{digests_code};

    ghost Value = { FinMap nat_cmp (List ℕ) };

    ghost coded = { digests_code };

    ghost view = { λ m. from_entries m.rows.entries };
}

/// Puts a digest into a map.
fn put_digest(
    rows: &mut BTreeMap<Place, Digest>,
    place: Place,
    digest: &Digest,
) -> Result<(), Memory>
    ensures { OnOk result (rows.new.entries ≡ insert_entry nat_cmp rows.old.entries place digest.now) }
{
    let _before = rows.insert(place, *digest)?;
    Ok(())
}

/// A copy of a map.
fn copy_digests(
    alloc: Global,
    rows: &BTreeMap<Place, Digest>,
) -> Result<BTreeMap<Place, Digest>, Memory>
    ensures { IfOk result (λ copies. copies.entries ≡ rows.now.entries) }
{
    let mut copies = BTreeMap::new(alloc);
    let mut left = rows.iter();
    while let Some((place, digest)) = left.next_back() {
        put_digest(&mut copies, *place, digest)?;
    }
    Ok(copies)
}

impl Chains {
    /// No rows.
    pub fn new(alloc: Global) -> Chains
        ensures { result ≡ empty }
    {
        Chains {
            rows: BTreeMap::new(alloc),
        }
    }

    /// The digest at a place, where there is one.
    pub fn get(&self, place: Place) -> Option<&Digest>
        ensures { option_copied result ≡ get self.now place }
    {
        self.rows.get(&place)
    }

    /// Puts a digest at a place, in place of what was there.
    ///
    /// # Errors
    ///
    /// `Memory` only.
    pub fn put(&mut self, place: Place, digest: &Digest) -> Result<(), Memory>
        ensures { OnOk result (self.new ≡ insert self.old place digest.now) }
    {
        let _before = self.rows.insert(place, *digest)?;
        Ok(())
    }

    /// Drops the places below a low mark.
    pub fn keep_from(&mut self, low: Place)
        ensures { self.new ≡ retain_keys self.old (nat_le low) }
    {
        self.rows.retain(|place, _digest| low <= *place);
    }

    /// The digests with their places, rising.
    pub fn iter(&self) -> Iter<'_, Place, Digest>
        ensures { result ≡ entries self.now }
    {
        self.rows.iter()
    }

    /// How many places have a digest.
    pub fn count(&self) -> usize
        ensures { result ≡ len self.now }
    {
        self.rows.len()
    }
}

impl ExactCopy for Chains {
    fn copy(&self, alloc: Global) -> Result<Chains, Memory> {
        Ok(Chains {
            rows: copy_digests(alloc, &self.rows)?,
        })
    }
}

/// A set of digests.
///
/// Contracts see it as a finite set.
#[derive(Drop)]
pub struct DigestSet {
    /// The digests, each once, in the order in which they were added.
    keys: Vec<Digest>,
}

impl Model for DigestSet {
    ghost use Rattle.std.specs.Prelude.{◌≡◌, length};
    ghost use Rattle.std.specs.Ordering.{nat_cmp};
    ghost use Rattle.std.specs.Cmp.Lexicographic.{slice_cmp};
    ghost use Rattle.std.specs.FinSet.{FinSet, from_list, len};
    ghost use Rattle.pws_voter.specs.Codes.{needed_code};

    ghost Value = { FinSet (slice_cmp nat_cmp) };

    ghost coded = { needed_code };

    ghost view = { λ s. from_list s.keys.items };

    ghost invariant = { λ s. len (from_list {R = slice_cmp nat_cmp} s.keys.items) ≡ length s.keys.items };
}

impl DigestSet {
    /// No digests.
    #[tactic(auto, using(crate::proofs::Sets::none_counted))]
    pub fn new(alloc: Global) -> DigestSet
        ensures { result ≡ set.empty }
    {
        DigestSet {
            keys: Vec::new(alloc),
        }
    }

    /// Whether it has a digest.
    #[tactic(auto, using(crate::proofs::Sets::has_is))]
    pub fn has(&self, digest: &Digest) -> bool
        ensures { result ≡ set.contains self.now digest.now }
    {
        is_among(self.keys.as_slice(), digest)
    }

    /// Adds a digest.
    ///
    /// # Errors
    ///
    /// `Memory` only.
    #[tactic(auto, using(crate::proofs::Sets::there, crate::proofs::Sets::pushed, crate::proofs::Sets::counted))]
    pub fn put(&mut self, digest: &Digest) -> Result<(), Memory>
        ensures { OnOk result (self.new ≡ set.insert self.old digest.now) }
    {
        if self.has(digest) {
            return Ok(());
        }
        self.keys.push(*digest)?;
        Ok(())
    }

    /// How many digests it has.
    pub fn count(&self) -> usize
        ensures { result ≡ set.len self.now }
    {
        self.keys.len()
    }

    /// Drops all digests.
    #[tactic(auto, using(crate::proofs::Sets::none_counted))]
    pub fn clear(&mut self)
        ensures { self.new ≡ set.empty }
    {
        self.keys.clear();
    }
}

impl ExactCopy for DigestSet {
    fn copy(&self, alloc: Global) -> Result<DigestSet, Memory> {
        Ok(DigestSet {
            keys: self.keys.to_vec(alloc)?,
        })
    }
}
