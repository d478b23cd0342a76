//! A map by place, within the window above a low mark.

ghost use Rattle.std.specs.Prelude.{◌≡◌, ◌<◌, ◌≤◌, ◌+◌, ◌-◌, ℕ, ◌≢◌, None, length, slice_set, slice_index_or, is_some, IsTrue, IfOk};
ghost use Rattle.std.specs.List.{All};
ghost use Rattle.std.specs.Option.{option_copied, option_map};
ghost use Rattle.std.specs.FinMap.{get, contains_key, entries, len};
ghost use Rattle.pws_base.specs.Places.{is_in_window};
ghost use Rattle.pws_base.specs.Limits.{max_number, place_window};
ghost use Rattle.pws_places.specs.PlaceMaps.{no_places, answer_to_put, after_put, with_other, without_place, cleared, raised_to};
ghost use Rattle.pws_places.specs.Rings.{index_of, row_in, FindsFirst};

use pws_base::limits::PLACE_WINDOW;
use pws_base::lists::{ExactCopy, copy_all};
use pws_base::memory::Memory;
use pws_base::places::is_in_window;
use pws_base::shapes::Place;
use std::alloc::Global;
use std::marker::Model;
use std::mem;

/// What was done with a row that was to be put at a place.
#[derive(Clone, Copy, Debug, PartialEq, Eq)]
pub enum PlacePut {
    /// It stands there.
    Kept,
    /// The place is out of the window; the row is dropped.
    Outside,
    /// A row stands there already, and stays; the new one is dropped.
    Already,
}

/// A map by place, which has places of the window alone: the 32 places above its low mark.
///
/// Contracts see it as a `PlaceMap`: the low mark and a finite map.
#[derive(Drop)]
pub struct Places<T> {
    /// The low mark, 0 to 1,000,000.
    low: Place,
    /// The rows of the window: that of a place stands at its number modulo 32, and is free where nothing is kept there.
    ring: Vec<Option<T>>,
}

impl<T> Model for Places<T> {
    ghost use Rattle.pws_places.specs.PlaceMaps.{PlaceMap, place_map_code};
    ghost use Rattle.pws_places.specs.Rings.{rows_in, IsRing};

    ghost Value = { PlaceMap T };

    ghost coded = { place_map_code T.code };

    ghost view = { λ m. record { low = m.low; rows = rows_in m.low m.ring.items } };

    ghost invariant = { λ m. IsRing m.low m.ring.items };
}

/// The ring, all its rows free.
fn new_ring<T: Drop>(alloc: Global) -> Result<Vec<Option<T>>, Memory>
    ensures whole { IfOk result (λ ring. length ring.items ≡ place_window) }
    ensures free { IfOk result (λ ring. (i : ℕ) → slice_index_or ring.items i None ≡ None) }
{
    let mut ring = Vec::new(alloc);
    for _ in 0..PLACE_WINDOW {
        ring.push(None)?;
    }
    Ok(ring)
}

/// Where the row of a place is in the ring.
fn index_of(place: Place) -> usize
    ensures value { result ≡ index_of place }
    ensures inside { result < place_window }
{
    (place % PLACE_WINDOW) as usize
}

/// What stands in the row of a place.
fn row_of<T>(ring: &[Option<T>], place: Place) -> Option<&T>
    requires { length ring.now ≡ place_window }
    ensures { option_copied result ≡ row_in ring.now place }
{
    ring[index_of(place)].as_ref()
}

/// Puts something into the row of a place, or frees it.
fn set_row<T: Drop>(ring: &mut Vec<Option<T>>, place: Place, row: Option<T>)
    requires { length ring.old.items ≡ place_window }
    ensures { ring.new.items ≡ slice_set ring.old.items (index_of place) row }
{
    ring[index_of(place)] = row;
}

/// Puts something into the row of a place, or frees it, and gives what stood there.
fn swap_row<T: Drop>(ring: &mut Vec<Option<T>>, place: Place, row: Option<T>) -> Option<T>
    requires { length ring.old.items ≡ place_window }
    ensures value { result ≡ row_in ring.old.items place }
    ensures ring { ring.new.items ≡ slice_set ring.old.items (index_of place) row }
{
    mem::replace(&mut ring[index_of(place)], row)
}

/// Frees all rows.
fn free_all<T: Drop>(ring: &mut Vec<Option<T>>)
    requires { length ring.old.items ≡ place_window }
    ensures whole { length ring.new.items ≡ place_window }
    ensures free { (i : ℕ) → slice_index_or ring.new.items i None ≡ None }
{
    for place in 0..PLACE_WINDOW {
        set_row(ring, place, None);
    }
}

/// Frees the rows of the places above one low mark and up to another, which is less than a window higher.
fn free_between<T: Drop>(ring: &mut Vec<Option<T>>, low: Place, high: Place)
    requires whole { length ring.old.items ≡ place_window }
    requires rises { low ≤ high }
    requires near { high < low + place_window }
    requires small { high ≤ max_number }
    ensures whole { length ring.new.items ≡ place_window }
    ensures freed { (q : ℕ) → low < q → q ≤ high → row_in ring.new.items q ≡ None }
    ensures kept { (q : ℕ) → high < q → q ≤ low + place_window → row_in ring.new.items q ≡ row_in ring.old.items q }
{
    for place in low..high {
        set_row(ring, place + 1, None);
    }
}

impl<T: Drop> Places<T> {
    /// A map without places, of low mark 0, with the memory for all that it will ever have.
    ///
    /// # Errors
    ///
    /// `Memory` only.
    pub fn new(alloc: Global) -> Result<Places<T>, Memory>
        ensures { IfOk result (λ m. m ≡ no_places) }
    {
        Ok(Places {
            low: 0,
            ring: new_ring(alloc)?,
        })
    }

    /// The low mark, 0 to 1,000,000. What has a row is in the window above it.
    pub fn low(&self) -> Place
        ensures value { result ≡ self.now.low }
        ensures small { result ≤ max_number }
        ensures window { (place : ℕ) → IsTrue (contains_key self.now.rows place) → IsTrue (is_in_window self.now.low place) }
    {
        self.low
    }

    /// The row of a place, where there is one; the place is then in the window.
    pub fn get(&self, place: Place) -> Option<&T>
        ensures value { option_copied result ≡ get self.now.rows place }
        ensures inside { IsTrue (is_some result) → IsTrue (is_in_window self.now.low place) }
    {
        if !is_in_window(self.low, place) {
            return None;
        }
        row_of(&self.ring, place)
    }

    /// Whether a place has a row; it is then in the window.
    pub fn has(&self, place: Place) -> bool
        ensures value { result ≡ contains_key self.now.rows place }
        ensures inside { IsTrue result → IsTrue (is_in_window self.now.low place) }
    {
        self.get(place).is_some()
    }

    /// The rows with their places, by rising place.
    pub fn iter(&self) -> PlacesIter<'_, T>
        ensures rest { result ≡ entries self.now.rows }
        ensures inside { All (λ e. IsTrue (is_in_window self.now.low e.0)) result }
        ensures few { length result ≤ place_window }
    {
        // shows: rows stand in the window alone
        let _low = self.low;
        PlacesIter {
            places: self,
            passed: 0,
        }
    }

    /// How many places have a row, 0 to 32.
    pub fn count(&self) -> usize
        ensures value { result ≡ len self.now.rows }
        ensures few { result ≤ place_window }
    {
        let mut count = 0;
        for _row in self.iter() {
            count += 1;
        }
        count
    }

    /// Puts a row at a place, unless the place is out of the window (`Outside`) or has a row (`Already`). Takes no
    /// memory.
    pub fn put(&mut self, place: Place, row: T) -> PlacePut
        ensures answer { result ≡ answer_to_put self.old place }
        ensures map { self.new ≡ after_put self.old place row }
    {
        if !is_in_window(self.low, place) {
            return PlacePut::Outside;
        }
        if self.has(place) {
            return PlacePut::Already;
        }
        set_row(&mut self.ring, place, Some(row));
        PlacePut::Kept
    }

    /// Puts a row in place of the one that a place has, and gives that one; where it has none, all stays as it is, and
    /// the row is dropped. Takes no memory.
    pub fn replace(&mut self, place: Place, row: T) -> Option<T>
        ensures value { result ≡ get self.old.rows place }
        ensures map { self.new ≡ with_other self.old place row }
    {
        if !self.has(place) {
            return None;
        }
        swap_row(&mut self.ring, place, Some(row))
    }

    /// Takes the row of a place away, and gives it, where there is one.
    pub fn remove(&mut self, place: Place) -> Option<T>
        ensures value { result ≡ get self.old.rows place }
        ensures map { self.new ≡ without_place self.old place }
    {
        if !is_in_window(self.low, place) {
            return None;
        }
        swap_row(&mut self.ring, place, None)
    }

    /// Drops all rows; the low mark stays.
    pub fn clear(&mut self)
        ensures { self.new ≡ cleared self.old }
    {
        free_all(&mut self.ring);
    }

    /// Raises the low mark, which doesn't fall, and drops the rows of the places at or below it.
    pub fn raise_to(&mut self, low: Place)
        requires rises { self.old.low ≤ low }
        requires small { low ≤ max_number }
        ensures { self.new ≡ raised_to low self.old }
    {
        if low - self.low < PLACE_WINDOW {
            free_between(&mut self.ring, self.low, low);
        } else {
            free_all(&mut self.ring);
        }
        self.low = low;
    }
}

impl<T: ExactCopy> ExactCopy for Places<T> {
    fn copy(&self, alloc: Global) -> Result<Places<T>, Memory> {
        Ok(Places {
            low: self.low,
            ring: copy_all(alloc, &self.ring)?.into_vec(),
        })
    }
}

/// The rows of a map by place that are still to come, each with its place, by rising place.
///
/// Contracts see it as the list of these.
#[derive(Drop)]
pub struct PlacesIter<'a, T> {
    /// The map.
    places: &'a Places<T>,
    /// How many places of the window were passed.
    passed: u32,
}

impl<'a, T> Model for PlacesIter<'a, T> {
    ghost use Rattle.std.specs.Prelude.{ℕ, List, ◌≤◌};
    ghost use Rattle.std.specs.Coded.{coded_list, coded×, coded_ℕ};
    ghost use Rattle.std.specs.FinMap.{get};
    ghost use Rattle.pws_base.specs.Limits.{place_window};
    ghost use Rattle.pws_places.specs.Rings.{left_after};

    ghost Value = { List (ℕ × T) };

    ghost coded = { coded_list (coded× coded_ℕ T.code) };

    ghost view = { λ i. left_after (get i.places.now.rows) i.places.now.low i.passed };

    ghost invariant = { λ i. i.passed ≤ place_window };
}

/// The first row of a window after so many of its places, and how many places are before it.
fn first_after<T: Drop>(places: &Places<T>, passed: u32) -> Option<(u32, &T)>
    requires { passed ≤ place_window }
    ensures { FindsFirst (get places.now.rows) places.now.low passed (option_map (λ x. (x.0, x.1.now)) result) }
{
    let low = places.low();
    for before in passed..PLACE_WINDOW {
        match places.get(low + 1 + before) {
            Some(row) => return Some((before, row)),
            None => {}
        }
    }
    None
}

impl<'a, T: Drop> Iterator for PlacesIter<'a, T> {
    ghost use Rattle.std.specs.Prelude.{length};
    ghost use Rattle.std.specs.Iterator.{at_most};
    ghost use Rattle.std.specs.Map.Iter.{TakesFirst};

    type Item = (Place, &'a T);

    ghost next_gives = { TakesFirst (λ x. (x.0, x.1.now)) };

    ghost remaining = { λ s. at_most (length s) };

    fn next(&mut self) -> Option<(Place, &'a T)> {
        let (before, row) = first_after(self.places, self.passed)?;
        self.passed = before + 1;
        Some((self.places.low() + 1 + before, row))
    }
}
