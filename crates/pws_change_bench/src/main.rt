//! A program that decides lists of ten view changes, for bench/choice.sh to measure: `worst` or `plain`, and how many
//! times. It prints how many digests were chosen in all.
//!
//! In the worst case each change has rows at all 32 places, with a view of its own and so with an entry that is better
//! than all before it, and each pre-prepared row has 16 digests. In the plain case nothing was prepared. The program has
//! no contract of its own, and nothing stands on it.
#![tactic(auto)]

use pws_base::lists::Sequence;
use pws_base::shapes::{Digest, GroupShape};
use pws_change::choices::choose;
use pws_change::decisions::Decision;
use pws_change::heard::{Heard, HeardRef, lend_all};
use pws_msg::changes::{Checkpoint, PRow, QRow, Seen, ViewChange};
use std::alloc::Global;
use std::env;

/// The rows of a change of this index, at all 32 places.
fn prepared(alloc: Global, index: u8) -> anyhow::Result<Sequence<PRow>> {
    let mut rows = Sequence::new(alloc);
    for place in 1..33 {
        rows.push(PRow {
            place,
            digest: [index; 32],
            view: u32::from(index),
        })?;
    }
    Ok(rows)
}

/// Sixteen digests, rising, all of one view.
fn digests(alloc: Global) -> anyhow::Result<Sequence<Seen>> {
    let mut seen = Sequence::new(alloc);
    for byte in 0..16u8 {
        seen.push(Seen {
            digest: [byte; 32],
            view: 50,
        })?;
    }
    Ok(seen)
}

/// Rows of sixteen digests, at all 32 places.
fn pre_prepared(alloc: Global) -> anyhow::Result<Sequence<QRow>> {
    let mut rows = Sequence::new(alloc);
    for place in 1..33 {
        rows.push(QRow {
            place,
            digests: digests(alloc)?,
        })?;
    }
    Ok(rows)
}

/// The change of an index.
fn change(alloc: Global, index: u8, is_worst: bool) -> anyhow::Result<Heard> {
    let mut change = ViewChange {
        view: 100,
        low: 0,
        checkpoints: Sequence::new(alloc),
        prepared: Sequence::new(alloc),
        pre_prepared: Sequence::new(alloc),
    };
    change.checkpoints.push(Checkpoint {
        place: 0,
        digest: [0; 32],
    })?;
    if is_worst {
        change.prepared = prepared(alloc, index)?;
        change.pre_prepared = pre_prepared(alloc)?;
    }
    Ok(Heard {
        index,
        digest: [index; 32],
        change,
    })
}

/// How many digests a list of changes chooses.
fn chosen(alloc: Global, changes: &[HeardRef<'_>], shape: GroupShape) -> anyhow::Result<usize> {
    match choose(alloc, changes, shape)? {
        Decision::Chosen(choice) => Ok(choice.chosen.len()),
        Decision::Undecided { place: _ } => Ok(0),
    }
}

/// Decides so many times, and tells how many digests were chosen in all.
fn decide(alloc: Global, is_worst: bool, times: u32) -> anyhow::Result<usize> {
    let shape = GroupShape::new(3)?;
    let mut changes = Vec::new(alloc);
    for index in 0..10u8 {
        changes.push(change(alloc, index, is_worst)?)?;
    }
    let lent = lend_all(alloc, &changes)?;
    let mut total = 0usize;
    for _ in 0..times {
        total = total.saturating_add(chosen(alloc, &lent, shape)?);
    }
    Ok(total)
}

fn main(rt: HostRuntime) -> anyhow::Result<()> {
    let mut words = env::args(&rt)?.skip(1);
    let is_worst = match words.next() {
        Some(word) => word.as_str() == "worst",
        None => false,
    };
    let times = match words.next() {
        Some(word) => word.parse::<u32>()?,
        None => 1,
    };
    let total = decide(rt.alloc(), is_worst, times)?;
    println!(rt; "{total}")?;
    Ok(())
}
