//! Small numbers that a reader keeps: places in a text, and marks side by side.

ghost use Rattle.std.specs.Prelude.{◌≡◌, ◌+◌, ◌-◌, ◌≤◌, ◌==◌, length, encode_utf8, if◌then◌else◌};
ghost use Rattle.pws_mark.specs.Scan.{marks_after};

use std::marker::Model;

/// A place in a text: how many bytes stand before it, at most 32,768.
///
/// Contracts see it as that number.
#[derive(Clone, Copy)]
pub struct Place {
    at: usize,
}

impl Model for Place {
    ghost use Rattle.std.specs.Prelude.{ℕ, ◌≤◌};

    ghost Value = { ℕ };

    ghost view = { λ p. p.at };

    ghost invariant = { λ p. p.at ≤ 32768 };

    ghost inverse = { λ n. record { at = n } };
}

impl Place {
    /// The place behind so many bytes.
    pub fn new(at: usize) -> Place
        requires { at ≤ 32768 }
        ensures { result ≡ at }
    {
        Place { at }
    }

    /// How many bytes stand before it.
    pub fn get(self) -> usize
        ensures value { result ≡ self }
        ensures within { result ≤ 32768 }
    {
        self.at
    }

    /// The place behind a character that stands here.
    pub fn behind(self, c: char) -> Place
        requires { self + length (encode_utf8 c) ≤ 32768 }
        ensures { result ≡ self + length (encode_utf8 c) }
    {
        Place {
            at: self.at + c.len_utf8(),
        }
    }

    /// The place so many bytes before, or the start of the text.
    pub fn before(self, bytes: usize) -> Place
        ensures { result ≡ self - bytes }
    {
        Place {
            at: self.at.saturating_sub(bytes),
        }
    }
}

/// How many of two marks side by side stand somewhere: none, one or two.
///
/// Contracts see it as that number.
#[derive(Clone, Copy)]
pub struct Marks {
    count: u8,
}

impl Model for Marks {
    ghost use Rattle.std.specs.Prelude.{ℕ, ◌≤◌};

    ghost Value = { ℕ };

    ghost view = { λ m. m.count };

    ghost invariant = { λ m. m.count ≤ 2 };

    ghost inverse = { λ n. record { count = n } };
}

impl Marks {
    /// None.
    pub fn none() -> Marks
        ensures { result ≡ 0 }
    {
        Marks { count: 0 }
    }

    /// How many there are.
    pub fn get(self) -> u8
        ensures value { result ≡ self }
        ensures within { result ≤ 2 }
    {
        self.count
    }

    /// One more, where there aren't two.
    pub fn more(self) -> Marks
        ensures { result ≡ (if self == 2 then 2 else self + 1) }
    {
        if self.count == 2 {
            return self;
        }
        Marks {
            count: self.count + 1,
        }
    }

    /// How many stand there behind this character.
    pub fn after(self, mark: char, c: char) -> Marks
        ensures { result ≡ marks_after mark self c }
    {
        if c == mark {
            self.more()
        } else {
            Marks::none()
        }
    }
}
