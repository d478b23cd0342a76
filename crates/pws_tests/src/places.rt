//! Maps by place and by digest, as their callers use them.

ghost use Rattle.std.specs.Prelude.{◌≡◌};

use pws_base::lists::ExactCopy;
use pws_base::memory::Memory;
use pws_base::shapes::Digest;
use pws_places::digests::{DigestPut, DigestTest, Digests};
use pws_places::places::{PlacePut, Places};
use std::test::Fail;

/// Passes the digests that begin with a byte.
struct BeginsWith {
    byte: u8,
}

impl DigestTest for BeginsWith {
    ghost use Rattle.std.specs.Prelude.{◌==◌, slice_index};

    ghost passes = { λ t d. t.byte == slice_index d 0 };

    fn passes(&self, digest: &Digest) -> bool {
        self.byte == digest[0]
    }
}

/// Puts the places from 0 to 33; whether just those from 1 to 32 are kept.
fn fills_its_window(map: &mut Places<u32>) -> bool {
    let mut is_right = true;
    for place in 0..34 {
        let is_kept = map.put(place, place) == PlacePut::Kept;
        is_right = is_right && is_kept == (0 < place && place < 33);
    }
    is_right
}

/// Whether half of the places go when the low mark rises.
fn drops_the_lower_half(map: &mut Places<u32>) -> bool {
    if map.low() > 16 {
        return false;
    }
    map.raise_to(16);
    map.count() == 16 && map.get(16).is_none() && map.get(48).is_none()
}

/// Whether a place that came in is kept, and others are replaced and removed.
fn is_changed(map: &mut Places<u32>) -> bool {
    let is_kept = map.put(48, 48) == PlacePut::Kept;
    let is_there = map.put(17, 0) == PlacePut::Already;
    let is_replaced = map.replace(17, 170) == Some(17);
    is_kept && is_there && is_replaced && map.remove(18) == Some(18)
}

#[test]
fn a_window_moves_over_its_ring(rt: HostRuntime) -> Result<(), Fail> {
    let mut map: Places<u32> = Places::new(rt.alloc())?;
    assert!(rt; fills_its_window(&mut map));
    assert!(rt; drops_the_lower_half(&mut map));
    assert!(rt; is_changed(&mut map));
    Ok(())
}

/// Puts two places, the higher first.
fn puts_two(map: &mut Places<u32>) -> bool {
    let is_kept = map.put(32, 3) == PlacePut::Kept;
    map.put(1, 2) == PlacePut::Kept && is_kept
}

/// Whether the rows are the two, the lower place first.
fn has_two_rows(map: &Places<u32>) -> bool {
    let mut rows = map.iter();
    let is_first = rows.next() == Some((1, &2));
    let is_second = rows.next() == Some((32, &3));
    is_first && is_second && rows.next().is_none()
}

#[test]
fn rows_are_gone_through_by_place(rt: HostRuntime) -> Result<(), Fail> {
    let mut map: Places<u32> = Places::new(rt.alloc())?;
    assert!(rt; puts_two(&mut map));
    let copy = map.copy(rt.alloc())?;
    map.clear();
    assert!(rt; !map.has(1));
    assert!(rt; has_two_rows(&copy));
    Ok(())
}

/// Whether one digest is kept, and no second one.
fn keeps_one(map: &mut Digests<u32>) -> Result<bool, Memory> {
    let first = map.put(&[1; 32], 1)?;
    let again = map.put(&[1; 32], 3)?;
    let other = map.put(&[2; 32], 2)?;
    Ok(first == DigestPut::Kept && again == DigestPut::Already && other == DigestPut::Full)
}

/// Whether the digests that don't pass go, and the bound stays.
fn retains_none(map: &mut Digests<u32>) -> bool {
    map.retain(&BeginsWith { byte: 2 });
    map.count() == 0 && map.most() == 1
}

/// Whether the one row is there, and is removed.
fn gives_its_row(map: &mut Digests<u32>) -> bool {
    let is_there = map.iter().next() == Some((&[1; 32], &10));
    is_there && map.remove(&[1; 32]) == Some(10)
}

#[test]
fn digests_are_bounded(rt: HostRuntime) -> Result<(), Fail> {
    let mut map: Digests<u32> = Digests::new(rt.alloc(), 1);
    assert!(rt; keeps_one(&mut map)?);
    assert!(rt; map.replace(&[1; 32], 10) == Some(1));
    let mut copy = map.copy(rt.alloc())?;
    assert!(rt; retains_none(&mut map));
    assert!(rt; gives_its_row(&mut copy));
    map.clear();
    assert!(rt; !map.has(&[1; 32]));
    Ok(())
}
