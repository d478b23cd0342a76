//! The votes of one kind at one place.

ghost use Rattle.std.specs.Prelude.{◌≡◌, ◌<◌, ◌≤◌, ◌≢◌, ◌||◌, ℕ, ⊤, None, true, find, length, slice_index_or, IfSome};
ghost use Rattle.std.specs.Bool.{MatchBool};
ghost use Rattle.std.specs.List.{list_any};
ghost use Rattle.std.specs.Option.{option_copied};
ghost use Rattle.std.specs.FinMap.{empty, get, insert};
ghost use Rattle.pws_base.specs.Counts.{count_below};
ghost use Rattle.pws_votes.specs.Masks.{has_voter, free_row, said_in, is_for, is_said, IsTally, IsRowOf, IsRowFor};

use pws_base::lists::ExactCopy;
use pws_base::memory::Memory;
use pws_base::shapes::Digest;
use std::alloc::Global;
use std::marker::Model;

/// The votes for one digest: a mask of the voters, the bit of each at its index.
#[derive(Clone, Copy)]
struct MaskRow {
    digest: Digest,
    voters: u16,
}

/// The votes of one kind at one place: for each digest that has a vote, a mask of its voters.
///
/// Contracts see it as a finite map from voters to digests. It is made whole, and takes no memory.
#[derive(Drop)]
pub struct Tally {
    /// A row for each digest, at the index of the replica that was the first to vote for it; the others have no voters.
    rows: [MaskRow; 10],
}

impl Model for Tally {
    ghost use Rattle.pws_votes.specs.Masks.{Tallied, tallied_code, votes_at, IsTally};

    ghost Value = { Tallied };

    ghost coded = { tallied_code };

    ghost view = { λ t. votes_at t.rows };

    ghost invariant = { λ t. IsTally t.rows };
}

/// Whether a mask has a voter.
fn has_voter(mask: u16, voter: u8) -> bool
    ensures { result ≡ has_voter mask voter }
{
    voter < 16 && (mask >> voter) & 1 == 1
}

/// A mask with one voter more.
fn with_voter(mask: u16, voter: u8) -> u16
    requires { voter < 10 }
    ensures same { has_voter result voter ≡ true }
    ensures others { (q : ℕ) → q ≢ voter → has_voter result q ≡ has_voter mask q }
{
    mask | (1 << voter)
}

/// The row that has a voter.
fn row_of(rows: &[MaskRow], voter: u8) -> Option<&MaskRow>
    ensures { option_copied result ≡ find (λ r. has_voter r.voters voter) rows.now }
{
    rows.iter().find(|r| has_voter(r.voters, voter))
}

/// The digest that a voter voted for.
fn said_in(rows: &[MaskRow], voter: u8) -> Option<Digest>
    ensures { result ≡ said_in rows.now voter }
{
    match row_of(rows, voter) {
        Some(row) => Some(row.digest),
        None => None,
    }
}

/// Whether two digests are one.
fn is_same(a: &Digest, b: &Digest) -> bool
    ensures { MatchBool result (a.now ≡ b.now) ⊤ }
{
    a.as_slice() == b.as_slice()
}

/// Where the row of a digest is.
fn index_of(rows: &[MaskRow], digest: &Digest) -> Option<usize>
    requires { length rows.now ≡ 10 }
    ensures { IfSome result (λ i. IsRowOf rows.now i digest.now) }
{
    for i in 0..10u8 {
        let row = &rows[i as usize];
        if has_voter(row.voters, i) && is_same(&row.digest, digest) {
            return Some(i as usize);
        }
    }
    None
}

/// Where a vote goes, and what the row there is then.
fn row_for(rows: &[MaskRow], voter: u8, digest: &Digest) -> (usize, MaskRow)
    requires few { voter < 10 }
    requires tally { IsTally rows.now }
    requires none { said_in rows.now voter ≡ None }
    ensures { IsRowFor rows.now result.0 result.1 voter digest.now }
{
    match index_of(rows, digest) {
        Some(i) => {
            let voters = with_voter(rows[i].voters, voter);
            let row = MaskRow {
                digest: *digest,
                voters,
            };
            (i, row)
        }
        None => {
            let voters = with_voter(0, voter);
            let row = MaskRow {
                digest: *digest,
                voters,
            };
            (voter as usize, row)
        }
    }
}

/// A mask with the voters of a row, where it is that of a digest.
fn with_voters(mask: u16, row: &MaskRow, digest: &Digest) -> u16
    ensures { (v : ℕ) → has_voter result v ≡ (has_voter mask v || is_for digest.now v row.now) }
{
    if row.digest.as_slice() == digest.as_slice() {
        mask | row.voters
    } else {
        mask
    }
}

/// A mask with the voters of one of the rows, where it is that of a digest.
fn with_row(mask: u16, rows: &[MaskRow], i: usize, digest: &Digest) -> u16
    requires { i < length rows.now }
    ensures { (v : ℕ) → has_voter result v ≡ (has_voter mask v || is_for digest.now v (slice_index_or rows.now i free_row)) }
{
    with_voters(mask, &rows[i], digest)
}

/// The voters for a digest, as one mask.
fn mask_of(rows: &[MaskRow], digest: &Digest) -> u16
    ensures { (v : ℕ) → has_voter result v ≡ list_any (is_for digest.now v) rows.now }
{
    let mut mask = 0;
    for i in 0..rows.len() {
        mask = with_row(mask, rows, i, digest);
    }
    mask
}

/// How many of the voters below n a mask has.
fn count_voters(mask: u16, n: u8) -> u8
    ensures value { result ≡ count_below n (has_voter mask) }
    ensures few { result ≤ n }
{
    let mut count = 0;
    for voter in 0..n {
        if has_voter(mask, voter) {
            count += 1;
        }
    }
    count
}

impl Tally {
    /// No votes.
    pub fn new() -> Tally
        ensures { result ≡ empty }
    {
        let free = MaskRow {
            digest: [0; 32],
            voters: 0,
        };
        let rows = [free; 10];
        Tally { rows }
    }

    /// The digest that a voter voted for.
    pub fn get(&self, voter: u8) -> Option<Digest>
        requires { voter < 10 }
        ensures { result ≡ get self.now voter }
    {
        said_in(&self.rows, voter)
    }

    /// Adds the vote of a voter that has none. Takes no memory.
    pub fn add(&mut self, voter: u8, digest: &Digest)
        requires few { voter < 10 }
        requires none { get self.old voter ≡ None }
        ensures { self.new ≡ insert self.old voter digest.now }
    {
        let (i, row) = row_for(&self.rows, voter, digest);
        self.rows[i] = row;
    }

    /// How many of the voters below n voted for a digest.
    pub fn matching(&self, n: u8, digest: &Digest) -> u8
        requires { n ≤ 10 }
        ensures value { result ≡ count_below n (λ v. is_said self.now v digest.now) }
        ensures few { result ≤ n }
    {
        count_voters(mask_of(&self.rows, digest), n)
    }
}

impl ExactCopy for Tally {
    fn copy(&self, _alloc: Global) -> Result<Tally, Memory> {
        let rows = self.rows;
        Ok(Tally { rows })
    }
}
