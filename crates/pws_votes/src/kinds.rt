//! The kinds of votes, and the answers to one.

/// What a vote says of the digest at a place.
#[derive(Clone, Copy, Debug, PartialEq, Eq)]
pub enum VoteKind {
    /// It was accepted in this view.
    Prepare,
    /// It was prepared in this view.
    Commit,
    /// It is the chain of all events up to the place.
    Checkpoint,
}

/// What was done with a vote, or with another statement of a replica.
#[derive(Clone, Copy, Debug, PartialEq, Eq)]
pub enum Vote {
    /// It is kept.
    Kept,
    /// The voter is no replica of the group, or the place is out of the window.
    Outside,
    /// The voter has a vote of this kind at this place.
    Already,
}
