//! The lines of a text.

ghost use Rattle.std.specs.Prelude.{◌≡◌, ◌==◌, ◌∷◌, [], MatchOption, IfSome, true};
ghost use Rattle.std.specs.List.{position};
ghost use Rattle.pws_base.specs.Lines.{lines_of, is_line};

use std::marker::Model;

/// A line without its line feed, and whether it has one.
#[derive(Clone, Copy, Debug)]
pub struct TextLine<'a> {
    pub bytes: &'a [u8],
    pub ended: bool,
}

/// The place of the first line feed.
fn line_feed(text: &[u8]) -> Option<usize>
    ensures { result ≡ position (λ b. b == 10) text.now }
{
    text.iter().position(|b| *b == b'\n')
}

/// The lines of a text that remain.
#[derive(Drop)]
pub struct Lines<'a> {
    rest: &'a [u8],
}

impl<'a> Model for Lines<'a> {
    ghost use Rattle.std.specs.Prelude.{List};
    ghost use Rattle.pws_base.specs.Lines.{TextLine};

    ghost Value = { List TextLine };

    ghost use Rattle.pws_base.specs.Lines.{lines_of};

    ghost view = { λ l. lines_of l.rest.now };
}

impl<'a> Lines<'a> {
    /// The lines of this text.
    pub fn new(text: &'a [u8]) -> Lines<'a>
        ensures { result ≡ lines_of text.now }
    {
        Lines { rest: text }
    }

    /// The next line.
    pub fn next(&mut self) -> Option<TextLine<'a>>
        ensures next { MatchOption result (self.old ≡ []) (λ l. self.old ≡ record { bytes = l.bytes.now; ended = l.ended } ∷ self.new) }
        ensures line { IfSome result (λ l. is_line l.bytes.now ≡ true) }
    {
        if self.rest.is_empty() {
            return None;
        }
        match line_feed(self.rest) {
            Some(at) => {
                let bytes = &self.rest[..at];
                self.rest = &self.rest[at + 1..];
                Some(TextLine { bytes, ended: true })
            }
            None => {
                let bytes = self.rest;
                self.rest = &[];
                Some(TextLine {
                    bytes,
                    ended: false,
                })
            }
        }
    }
}
