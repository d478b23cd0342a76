//! A caller of a book of votes that knows the trait alone.

use pws_base::lists::ExactCopy;
use pws_base::memory::Memory;
use pws_base::shapes::{Digest, GroupShape, Place};
use pws_votes::books::VoteBook;
use pws_votes::kinds::{Vote, VoteKind};
use pws_votes::list_book::ListBook;
use pws_votes::mask_book::MaskBook;
use std::test::Fail;

/// Whatever the book, a replica that votes in the window has a vote.
fn votes_and_has<B: VoteBook>(
    book: &mut B,
    kind: VoteKind,
    place: Place,
    voter: u8,
    digest: &Digest,
) -> Result<bool, Memory> {
    let _answer = book.vote(kind, place, voter, digest)?;
    Ok(book.has(kind, place, voter))
}

#[test]
fn a_vote_is_there(rt: HostRuntime) -> Result<(), Fail> {
    let mut book = ListBook::new(rt.alloc(), GroupShape::new(1)?)?;
    assert!(rt; votes_and_has(&mut book, VoteKind::Commit, 32, 3, &[7; 32])?);
    Ok(())
}

/// The votes of a replica: one that disagrees with the others at place 5, if it is the last, and three more.
fn votes<B: VoteBook>(book: &mut B, voter: u8) -> Result<(), Memory> {
    let _answer = book.vote(VoteKind::Prepare, 5, voter, &[voter / 3; 32])?;
    let _answer = book.vote(VoteKind::Commit, 20, voter, &[8; 32])?;
    let _answer = book.vote(VoteKind::Checkpoint, 16, voter, &[9; 32])?;
    let _answer = book.vote(VoteKind::Checkpoint, 32, voter, &[9; 32])?;
    Ok(())
}

/// Whether the votes of four replicas are there, and three of them match at place 5.
fn four_vote<B: VoteBook>(book: &mut B) -> Result<bool, Memory> {
    for voter in 0..4 {
        votes(book, voter)?;
    }
    Ok(book.matching(VoteKind::Prepare, 5, &[0; 32]) == 3 && book.count() == 16)
}

/// Whether half of them go when the view is left, and half of the others when the low mark rises.
fn votes_go<B: VoteBook>(book: &mut B) -> bool {
    book.clear_view();
    if book.count() != 8 || book.low() > 16 {
        return false;
    }
    book.raise_low(16);
    book.count() == 4
}

#[test]
fn a_book_over_a_list(rt: HostRuntime) -> Result<(), Fail> {
    let mut book = ListBook::new(rt.alloc(), GroupShape::new(1)?)?;
    assert!(rt; four_vote(&mut book)?);
    assert!(rt; votes_go(&mut book));
    Ok(())
}

/// Whether votes are kept once, and in the window alone.
fn keeps_votes(book: &mut MaskBook) -> bool {
    let again = book.keep(VoteKind::Checkpoint, 32, 3, &[1; 32]);
    let last = book.keep(VoteKind::Prepare, 48, 0, &[1; 32]);
    let beyond = book.keep(VoteKind::Prepare, 49, 0, &[1; 32]);
    again == Vote::Already && last == Vote::Kept && beyond == Vote::Outside
}

#[test]
fn a_book_over_masks(rt: HostRuntime) -> Result<(), Fail> {
    let mut book = MaskBook::new(rt.alloc(), GroupShape::new(1)?)?;
    assert!(rt; four_vote(&mut book)?);
    assert!(rt; votes_go(&mut book));
    assert!(rt; keeps_votes(&mut book));
    let copy = book.copy(rt.alloc())?;
    assert!(rt; copy.has(VoteKind::Prepare, 48, 0) && copy.count() == 5);
    Ok(())
}
