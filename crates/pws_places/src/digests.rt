//! A map by digest that has a bound.

ghost use Rattle.std.specs.Prelude.{◌≡◌, ◌<◌, ◌≤◌, ℕ, List, Bool, length, IfOk, OnOk, OnErr};
ghost use Rattle.std.specs.Option.{option_copied};
ghost use Rattle.std.specs.FinMap.{get, contains_key, entries, len};
ghost use Rattle.std.specs.Ordering.{nat_cmp};
ghost use Rattle.std.specs.Cmp.Lexicographic.{slice_cmp};
ghost use Rattle.std.specs.BTreeMap.{insert_entry};
ghost use Rattle.pws_places.specs.DigestMaps.{no_digests, answer_to_put, after_put, with_other, without_digest, cleared, with_passing};

use pws_base::lists::ExactCopy;
use pws_base::memory::Memory;
use pws_base::shapes::Digest;
use std::alloc::Global;
use std::collections::{BTreeMap, btree_map};
use std::marker::Model;
use std::mem;

/// What was done with a row that was to be put at a digest.
#[derive(Clone, Copy, Debug, PartialEq, Eq)]
pub enum DigestPut {
    /// It stands there.
    Kept,
    /// The map has as many rows as it may; the row is dropped.
    Full,
    /// A row stands there already, and stays; the new one is dropped.
    Already,
}

/// A test of digests.
pub trait DigestTest {
    ghost passes: { Self → List ℕ → Bool };

    /// Whether a digest passes.
    fn passes(&self, digest: &Digest) -> bool
        ensures { result ≡ passes self.now digest.now };
}

/// A map by digest that has a bound: so many rows at most. A row is looked up, not searched for.
///
/// Contracts see it as a `DigestMap`: the bound and a finite map.
#[derive(Drop)]
pub struct Digests<T> {
    /// How many rows it may have.
    most: u32,
    /// The rows.
    rows: BTreeMap<Digest, T>,
}

impl<T> Model for Digests<T> {
    ghost use Rattle.std.specs.Prelude.{◌≤◌, length};
    ghost use Rattle.std.specs.FinMap.{from_entries};
    ghost use Rattle.pws_places.specs.DigestMaps.{DigestMap, digest_map_code};

    ghost Value = { DigestMap T };

    ghost coded = { digest_map_code T.code };

    ghost view = { λ m. record { most = m.most; rows = from_entries m.rows.entries } };

    ghost invariant = { λ m. length m.rows.entries ≤ m.most };
}

impl<T: Drop> Digests<T> {
    /// A map without digests, that may have so many rows.
    pub fn new(alloc: Global, most: u32) -> Digests<T>
        ensures { result ≡ no_digests most }
    {
        Digests {
            most,
            rows: BTreeMap::new(alloc),
        }
    }

    /// How many rows it may have.
    pub fn most(&self) -> u32
        ensures { result ≡ self.now.most }
    {
        self.most
    }

    /// How many rows it has.
    pub fn count(&self) -> usize
        ensures value { result ≡ len self.now.rows }
        ensures few { result ≤ self.now.most }
    {
        self.rows.len()
    }

    /// The row of a digest, where there is one.
    pub fn get(&self, digest: &Digest) -> Option<&T>
        ensures { option_copied result ≡ get self.now.rows digest.now }
    {
        self.rows.get(digest)
    }

    /// Whether a digest has a row.
    pub fn has(&self, digest: &Digest) -> bool
        ensures { result ≡ contains_key self.now.rows digest.now }
    {
        self.get(digest).is_some()
    }

    /// Puts a row at a digest, unless the digest has one (`Already`) or the map has as many as it may (`Full`).
    ///
    /// # Errors
    ///
    /// `Memory` only; the map is unchanged then.
    pub fn put(&mut self, digest: &Digest, row: T) -> Result<DigestPut, Memory>
        ensures answer { IfOk result (λ a. a ≡ answer_to_put self.old digest.now) }
        ensures ok { OnOk result (self.new ≡ after_put self.old digest.now row) }
        ensures err { OnErr result (self.new ≡ self.old) }
    {
        if self.has(digest) {
            return Ok(DigestPut::Already);
        }
        if self.count() >= self.most as usize {
            return Ok(DigestPut::Full);
        }
        let _before = self.rows.insert(*digest, row)?;
        Ok(DigestPut::Kept)
    }

    /// Puts a row in place of the one that a digest has, and gives that one; where it has none, all stays as it is, and
    /// the row is dropped. Takes no memory.
    pub fn replace(&mut self, digest: &Digest, row: T) -> Option<T>
        ensures value { result ≡ get self.old.rows digest.now }
        ensures map { self.new ≡ with_other self.old digest.now row }
    {
        match self.rows.get_mut(digest) {
            Some(kept) => Some(mem::replace(kept, row)),
            None => None,
        }
    }

    /// Takes the row of a digest away, and gives it, where there is one.
    pub fn remove(&mut self, digest: &Digest) -> Option<T>
        ensures value { result ≡ get self.old.rows digest.now }
        ensures map { self.new ≡ without_digest self.old digest.now }
    {
        self.rows.remove(digest)
    }

    /// Drops all rows.
    pub fn clear(&mut self)
        ensures { self.new ≡ cleared self.old }
    {
        self.rows.clear();
    }

    /// Keeps the rows of the digests that pass a test, and drops the others.
    pub fn retain<N: DigestTest>(&mut self, test: &N)
        ensures { self.new ≡ with_passing (N.passes test.now) self.old }
    {
        self.rows.retain(|digest, _row| test.passes(digest));
    }

    /// The rows with their digests, by rising digest.
    pub fn iter(&self) -> btree_map::Iter<'_, Digest, T>
        ensures { result ≡ entries self.now.rows }
    {
        self.rows.iter()
    }
}

/// Puts a row into a map.
fn put_row<T: Drop>(rows: &mut BTreeMap<Digest, T>, digest: &Digest, row: T) -> Result<(), Memory>
    ensures { OnOk result (rows.new.entries ≡ insert_entry (slice_cmp nat_cmp) rows.old.entries digest.now row) }
{
    let _before = rows.insert(*digest, row)?;
    Ok(())
}

/// A map with copies of the rows of another, each equal to that row.
fn copy_rows<T: ExactCopy>(
    alloc: Global,
    rows: &BTreeMap<Digest, T>,
) -> Result<BTreeMap<Digest, T>, Memory>
    ensures { IfOk result (λ copies. copies.entries ≡ rows.now.entries) }
{
    let mut copies = BTreeMap::new(alloc);
    let mut left = rows.iter();
    while let Some((digest, row)) = left.next_back() {
        put_row(&mut copies, digest, row.copy(alloc)?)?;
    }
    Ok(copies)
}

impl<T: ExactCopy> ExactCopy for Digests<T> {
    fn copy(&self, alloc: Global) -> Result<Digests<T>, Memory> {
        Ok(Digests {
            most: self.most,
            rows: copy_rows(alloc, &self.rows)?,
        })
    }
}
