//! The least of what is refused.

ghost use Rattle.std.specs.Prelude.{◌≡◌, [], ◌∷◌, ◌++◌, None};
ghost use Rattle.pws_mark.specs.Causes.{rank};
ghost use Rattle.pws_mark.specs.Least.{comes_before, lower, lowered};
ghost use Rattle.pws_mark.specs.Noted.{if_found};

use crate::errors::{MarkError, MarkKind};
use std::marker::Model;

/// The least of what was refused so far.
#[derive(Drop)]
pub struct Least {
    error: Option<MarkError>,
}

impl Model for Least {
    ghost use Rattle.std.specs.Prelude.{Option};
    ghost use Rattle.pws_mark.specs.declared.errors.MarkError.{MarkError};

    ghost Value = { Option MarkError };

    ghost view = { λ l. l.error };
}

/// Its place in the order of refusals at one place.
fn rank(kind: MarkKind) -> u8
    ensures { result ≡ rank kind }
{
    match kind {
        MarkKind::Size => 0,
        MarkKind::Utf8 => 1,
        MarkKind::Doctype => 2,
        MarkKind::Instruction => 3,
        MarkKind::Depth => 4,
        MarkKind::Prefix => 5,
        MarkKind::Twice => 6,
        MarkKind::Entity => 7,
        MarkKind::Syntax => 8,
    }
}

/// Whether this refusal comes before another.
fn comes_before(kind: MarkKind, at: usize, error: MarkError) -> bool
    ensures { result ≡ comes_before (kind, at) error }
{
    at < error.at || (at == error.at && rank(kind) < rank(error.kind))
}

impl Least {
    /// Nothing was refused.
    pub fn new() -> Least
        ensures { result ≡ None }
    {
        Least { error: None }
    }

    /// The least refusal.
    pub fn error(&self) -> Option<MarkError>
        ensures { result ≡ self.now }
    {
        self.error
    }

    /// One more refusal.
    pub fn note(&mut self, kind: MarkKind, at: usize)
        ensures { self.new ≡ lower self.old (kind, at) }
    {
        let lower = match self.error {
            Some(error) => comes_before(kind, at, error),
            None => true,
        };
        if lower {
            self.error = Some(MarkError { kind, at });
        }
    }

    /// One more refusal, where something is wrong.
    #[tactic(auto, unfolding(crate::specs::Least::lowered))]
    pub fn note_if(&mut self, wrong: bool, kind: MarkKind, at: usize)
        ensures { self.new ≡ lowered self.old (if_found wrong kind at) }
    {
        if wrong {
            self.note(kind, at);
        }
    }
}
