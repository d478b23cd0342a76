//! The XML declaration, character by character.

ghost use Rattle.std.specs.Prelude.{◌≡◌, ◌<◌, ◌≤◌, length};
ghost use Rattle.std.specs.Bool.{OnTrue};
ghost use Rattle.pws_mark.specs.Tokens.{is_white, is_quote};
ghost use Rattle.pws_mark.specs.Scan.{part_word, literal_word, as_compared, part_behind, has_at, value_begins, gap_step, declaring_step};
ghost use Rattle.pws_mark.specs.declared.modes.Declaring.TheVariants as declaring;

use crate::modes::{Declaring, Literal, Part};

/// Whether a character is white space (XML 1.0 fifth edition, production 3).
pub fn is_white(c: char) -> bool
    ensures { result ≡ is_white c }
{
    c == ' ' || c == '\t' || c == '\n' || c == '\r'
}

/// Whether a character is a quote.
pub fn is_quote(c: char) -> bool
    ensures { result ≡ is_quote c }
{
    c == '"' || c == '\''
}

/// Whether this character stands at this place of a word.
pub fn has_at(word: &[char], place: usize, c: char) -> bool
    ensures value { result ≡ has_at word.now place c }
    ensures within { OnTrue result (place < length word.now) }
{
    match word.get(place) {
        Some(letter) => *letter == c,
        None => false,
    }
}

/// The name of a part.
#[tactic(auto, unfolding(crate::specs::Scan::part_word))]
fn part_word(part: Part) -> &'static [char]
    ensures value { result.now ≡ part_word part }
    ensures short { length result.now ≤ 10 }
{
    match part {
        Part::Version => &['v', 'e', 'r', 's', 'i', 'o', 'n'],
        Part::Encoding => &['e', 'n', 'c', 'o', 'd', 'i', 'n', 'g'],
        Part::Standalone => &['s', 't', 'a', 'n', 'd', 'a', 'l', 'o', 'n', 'e'],
        Part::End => &[],
    }
}

/// The characters of a value, letters in lower case.
#[tactic(auto, unfolding(crate::specs::Scan::literal_word))]
fn literal_word(literal: Literal) -> &'static [char]
    ensures value { result.now ≡ literal_word literal }
    ensures short { length result.now ≤ 10 }
{
    match literal {
        Literal::One => &['1', '.', '0'],
        Literal::Utf8 => &['u', 't', 'f', '-', '8'],
        Literal::Yes => &['y', 'e', 's'],
        Literal::No => &['n', 'o'],
    }
}

/// The character as it is compared with a value's.
fn as_compared(literal: Literal, c: char) -> char
    ensures { result ≡ as_compared literal c }
{
    match literal {
        Literal::Utf8 => c.to_ascii_lowercase(),
        Literal::One | Literal::Yes | Literal::No => c,
    }
}

/// What may come behind a value.
fn part_behind(literal: Literal) -> Part
    ensures { result ≡ part_behind literal }
{
    match literal {
        Literal::One => Part::Encoding,
        Literal::Utf8 => Part::Standalone,
        Literal::Yes | Literal::No => Part::End,
    }
}

/// Where a quote leads.
fn value_begins(part: Part, quote: char) -> Option<Declaring>
    ensures { result ≡ value_begins part quote }
{
    match part {
        Part::Version => Some(Declaring::Value(Literal::One, quote, 0)),
        Part::Encoding => Some(Declaring::Value(Literal::Utf8, quote, 0)),
        Part::Standalone => Some(Declaring::Choice(quote)),
        Part::End => None,
    }
}

/// What a character other than white space does before these parts.
fn gap_step(part: Part, spaced: bool, c: char) -> Option<Declaring>
    ensures { result ≡ gap_step part spaced c }
{
    match part {
        Part::Version if c == 'v' && spaced => Some(Declaring::Name(Part::Version, 1)),
        Part::Version => None,
        Part::Encoding if c == 'e' && spaced => Some(Declaring::Name(Part::Encoding, 1)),
        Part::Encoding | Part::Standalone if c == 's' && spaced => {
            Some(Declaring::Name(Part::Standalone, 1))
        }
        Part::Encoding | Part::Standalone | Part::End if c == '?' => Some(Declaring::End),
        Part::Encoding | Part::Standalone | Part::End => None,
    }
}

/// What a character behind `<?` does.
#[tactic(auto, unfolding(crate::specs::Scan::declaring_step))]
fn word_step(place: u8, c: char) -> Option<Option<Declaring>>
    ensures { result ≡ declaring_step (declaring.Word place) c }
{
    if has_at(&['x', 'm', 'l'], usize::from(place), c) {
        return Some(Some(Declaring::Word(place + 1)));
    }
    if place == 3 && is_white(c) {
        return Some(Some(Declaring::Gap(Part::Version, true)));
    }
    None
}

/// What a character between the parts does.
#[tactic(auto, unfolding(crate::specs::Scan::declaring_step))]
fn between_step(part: Part, spaced: bool, c: char) -> Option<Option<Declaring>>
    ensures { result ≡ declaring_step (declaring.Gap part spaced) c }
{
    if is_white(c) {
        return Some(Some(Declaring::Gap(part, true)));
    }
    gap_step(part, spaced, c).map(Some)
}

/// What a character in the name of a part does.
#[tactic(auto, unfolding(crate::specs::Scan::declaring_step))]
fn name_step(part: Part, place: u8, c: char) -> Option<Option<Declaring>>
    ensures { result ≡ declaring_step (declaring.Name part place) c }
{
    let word = part_word(part);
    if has_at(word, usize::from(place), c) {
        return Some(Some(Declaring::Name(part, place + 1)));
    }
    if usize::from(place) == word.len() && is_white(c) {
        return Some(Some(Declaring::BeforeEquals(part)));
    }
    if usize::from(place) == word.len() && c == '=' {
        return Some(Some(Declaring::AfterEquals(part)));
    }
    None
}

/// What a character behind the name of a part does.
#[tactic(auto, unfolding(crate::specs::Scan::declaring_step))]
fn before_equals_step(part: Part, c: char) -> Option<Option<Declaring>>
    ensures { result ≡ declaring_step (declaring.BeforeEquals part) c }
{
    if is_white(c) {
        return Some(Some(Declaring::BeforeEquals(part)));
    }
    if c == '=' {
        return Some(Some(Declaring::AfterEquals(part)));
    }
    None
}

/// What a character behind the `=` of a part does.
#[tactic(auto, unfolding(crate::specs::Scan::declaring_step))]
fn after_equals_step(part: Part, c: char) -> Option<Option<Declaring>>
    ensures { result ≡ declaring_step (declaring.AfterEquals part) c }
{
    if is_white(c) {
        return Some(Some(Declaring::AfterEquals(part)));
    }
    if is_quote(c) {
        return value_begins(part, c).map(Some);
    }
    None
}

/// What a character behind the quote of `standalone` does.
#[tactic(auto, unfolding(crate::specs::Scan::declaring_step))]
fn choice_step(quote: char, c: char) -> Option<Option<Declaring>>
    ensures { result ≡ declaring_step (declaring.Choice quote) c }
{
    if c == 'y' {
        return Some(Some(Declaring::Value(Literal::Yes, quote, 1)));
    }
    if c == 'n' {
        return Some(Some(Declaring::Value(Literal::No, quote, 1)));
    }
    None
}

/// What a character of a value does.
#[tactic(auto, unfolding(crate::specs::Scan::declaring_step))]
fn value_step(literal: Literal, quote: char, place: u8, c: char) -> Option<Option<Declaring>>
    ensures { result ≡ declaring_step (declaring.Value literal quote place) c }
{
    let word = literal_word(literal);
    if has_at(word, usize::from(place), as_compared(literal, c)) {
        return Some(Some(Declaring::Value(literal, quote, place + 1)));
    }
    if usize::from(place) == word.len() && c == quote {
        return Some(Some(Declaring::Gap(part_behind(literal), false)));
    }
    None
}

/// What a character behind the `?` at the end does.
#[tactic(auto, unfolding(crate::specs::Scan::declaring_step))]
fn end_step(c: char) -> Option<Option<Declaring>>
    ensures { result ≡ declaring_step declaring.End c }
{
    if c == '>' { Some(None) } else { None }
}

/// What a character does in a declaration: nothing where it doesn't fit, and no place in it where it ends.
pub fn declaring_step(declaring: Declaring, c: char) -> Option<Option<Declaring>>
    ensures { result ≡ declaring_step declaring c }
{
    match declaring {
        Declaring::Word(place) => word_step(place, c),
        Declaring::Gap(part, spaced) => between_step(part, spaced, c),
        Declaring::Name(part, place) => name_step(part, place, c),
        Declaring::BeforeEquals(part) => before_equals_step(part, c),
        Declaring::AfterEquals(part) => after_equals_step(part, c),
        Declaring::Choice(quote) => choice_step(quote, c),
        Declaring::Value(literal, quote, place) => value_step(literal, quote, place, c),
        Declaring::End => end_step(c),
    }
}
