//! The name that the content of `Value` is.

ghost use Rattle.std.specs.Prelude.{◌≡◌, ◌≤◌, length, not, drop, option_map, unwrap_or, [], take_while, if◌then◌else◌, IfOk, OnOk};
ghost use Rattle.std.specs.List.{list_all};
ghost use Rattle.pws_mark.specs.Bindings.{is_bound, written_prefix};
ghost use Rattle.pws_mark.specs.Faults.{first_place};
ghost use Rattle.pws_mark.specs.Least.{lowered};
ghost use Rattle.pws_mark.specs.Meaning.{name_of};
ghost use Rattle.pws_mark.specs.Noted.{if_found, content_finds};
ghost use Rattle.pws_mark.specs.States.{word_of};
ghost use Rattle.pws_mark.specs.Tokens.{is_white, is_name};
ghost use Rattle.pws_tree.specs.Characters.{is_name_start, is_name_char};
ghost use Rattle.pws_mark.specs.Values.{behind_white, first_word, letters, is_one_name};
ghost use Rattle.pws_mark.specs.declared.errors.MarkKind.TheVariants as kind;

use crate::declaring::is_white;
use crate::errors::MarkKind;
use crate::least::Least;
use crate::names::{has_two_colons, written_prefix};
use crate::resolving::{Inside, or_no_name};
use pws_base::lists::Sequence;
use pws_base::memory::Memory;
use pws_tree::characters::{is_name_char, is_name_start};
use pws_tree::texts::Name;
use std::alloc::Global;

/// These characters behind the white space that they begin with.
fn behind_white<'a>(chars: &'a [(char, usize)]) -> &'a [(char, usize)]
    ensures { result.now ≡ behind_white chars.now }
{
    for place in 0..chars.len() {
        if !is_white(chars[place].0) {
            return &chars[place..];
        }
    }
    &[]
}

/// How many characters stand before white space or the end.
fn word_length(chars: &[(char, usize)]) -> usize
    ensures value { result ≡ length (take_while (λ c. not (is_white c.0)) chars.now) }
    ensures within { result ≤ length chars.now }
{
    chars.iter().take_while(|c| !is_white(c.0)).count()
}

/// The characters before white space or the end, behind the white space that they begin with.
fn first_word<'a>(chars: &'a [(char, usize)]) -> &'a [(char, usize)]
    ensures { result.now ≡ first_word chars.now }
{
    let rest = behind_white(chars);
    &rest[..word_length(rest)]
}

/// The characters without their places.
fn letters(alloc: Global, chars: &[(char, usize)]) -> Result<Sequence<char>, Memory>
    ensures { IfOk result (λ l. l ≡ letters chars.now) }
{
    let letters = chars.iter().map(|c| c.0).collect(alloc)?;
    Ok(Sequence::from_vec(letters))
}

/// Whether a character may begin a part of a name, or go on in it.
fn is_letter(starts: bool, c: char) -> bool
    ensures { result ≡ (if starts then is_name_start c else is_name_char c) }
{
    if starts {
        is_name_start(c)
    } else {
        is_name_char(c)
    }
}

/// Whether characters are a name, or several that are joined by colons.
#[tactic(auto, unfolding(crate::specs::Tokens::is_name))]
fn is_name(name: &[char]) -> bool
    ensures { result ≡ is_name name.now }
{
    let mut starts = true;
    for c in name {
        if !starts && *c == ':' {
            starts = true;
        } else if is_letter(starts, *c) {
            starts = false;
        } else {
            return false;
        }
    }
    !starts
}

/// Whether all of these characters are white space.
fn are_white(chars: &[(char, usize)]) -> bool
    ensures { result ≡ list_all (λ c. is_white c.0) chars.now }
{
    chars.iter().all(|c| is_white(c.0))
}

/// Whether nothing but white space stands behind the first word.
fn ends_white(chars: &[(char, usize)]) -> bool
    ensures { result ≡ list_all (λ c. is_white c.0) (drop (length (first_word chars.now)) (behind_white chars.now)) }
{
    let rest = behind_white(chars);
    are_white(&rest[word_length(rest)..])
}

/// Whether characters are one qualified name, white space round it aside (Namespaces in XML 1.0, production 7).
fn is_one_name(alloc: Global, chars: &[(char, usize)]) -> Result<bool, Memory>
    ensures { IfOk result (λ b. b ≡ is_one_name chars.now) }
{
    let word = letters(alloc, first_word(chars))?;
    if !is_name(word.as_slice()) {
        return Ok(false);
    }
    if has_two_colons(word.as_slice()) {
        return Ok(false);
    }
    Ok(ends_white(chars))
}

/// The place of the first of these characters.
fn first_place(chars: &[(char, usize)]) -> usize
    ensures { result ≡ first_place chars.now }
{
    match chars.first() {
        Some(c) => c.1,
        None => 0,
    }
}

/// The one name among these characters.
fn word_of<'a>(
    alloc: Global,
    content: &'a Option<Sequence<(char, usize)>>,
) -> Result<Option<&'a [(char, usize)]>, Memory>
    ensures { IfOk result (λ w. option_map (λ b. b.now) w ≡ word_of content.now) }
{
    if let Some(chars) = content {
        if is_one_name(alloc, chars.as_slice())? {
            return Ok(Some(first_word(chars.as_slice())));
        }
    }
    Ok(None)
}

/// The name that is spelled by these characters; a prefix of it that isn't bound is noted.
#[tactic(auto, unfolding(crate::specs::Meaning::name_of))]
fn named_word(
    alloc: Global,
    least: &mut Least,
    inside: &Inside,
    word: &[(char, usize)],
) -> Result<Name, Memory>
    ensures name { IfOk result (λ n. n ≡ name_of inside.now (letters word.now)) }
    ensures least { OnOk result (least.new ≡ lowered least.old (if_found (not (is_bound inside.now (written_prefix (letters word.now)))) kind.Prefix (first_place word.now))) }
{
    let letters = letters(alloc, word)?;
    let bound = inside.is_bound(written_prefix(letters.as_slice()));
    least.note_if(!bound, MarkKind::Prefix, first_place(word));
    let name = inside.element_name(alloc, letters.as_slice())?;
    Ok(or_no_name(alloc, name))
}

/// The name that the content of `Value` is, inside of a tag whose `<` stands at this place; what is refused in it is
/// noted.
///
/// # Errors
///
/// `Memory` only.
#[tactic(auto, unfolding(crate::specs::Meaning::name_of, crate::specs::Least::lowered))]
pub fn qualified_name(
    alloc: Global,
    least: &mut Least,
    inside: &Inside,
    at: usize,
    content: &Option<Sequence<(char, usize)>>,
) -> Result<Name, Memory>
    ensures name { IfOk result (λ n. n ≡ name_of inside.now (letters (unwrap_or (word_of content.now) []))) }
    ensures least { OnOk result (least.new ≡ lowered least.old (content_finds inside.now at (word_of content.now))) }
{
    match word_of(alloc, content)? {
        Some(word) => named_word(alloc, least, inside, word),
        None => {
            least.note(MarkKind::Syntax, at);
            let name = inside.element_name(alloc, &[])?;
            Ok(or_no_name(alloc, name))
        }
    }
}
