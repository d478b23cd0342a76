//! Laws of books: each is the contract of a function that does nothing.

ghost use Rattle.pws_votes.specs.Laws.{KeysAreOrdered, VotesAboveTheMark, VotesAfterAVote, VotesAfterTheView};

/// The order of keys is total, and only a key ties with itself.
pub fn keys_are_ordered()
    ensures { KeysAreOrdered }
{}

/// Which votes a book has after one more, after the view was left, and after the low mark was raised.
pub fn votes_after_a_step()
    ensures vote { VotesAfterAVote }
    ensures view { VotesAfterTheView }
    ensures low { VotesAboveTheMark }
{}
