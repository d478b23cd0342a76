//! What a character outside of tags does.

ghost use Rattle.std.specs.Prelude.{◌≡◌, ◌&&◌, ◌==◌, ◌∷◌, [], ◌-◌, if◌then◌else◌, false, option_map, Some, None, OnOk, IfOk};
ghost use Rattle.pws_mark.specs.Meaning.{char_text};
ghost use Rattle.pws_mark.specs.Noted.{depth_finds, reference_finds};
ghost use Rattle.pws_mark.specs.Scan.{start_step, head_opened_step, in_declaration, declaring_step, tag_begins, opened_step, bang_step, comment_step, section_word_step, text_bytes, content_step, either, in_text, reference_step, brackets_taken, section_step, region};
ghost use Rattle.pws_mark.specs.Scanning.{Goes, Notes};
ghost use Rattle.pws_mark.specs.States.{taken};
ghost use Rattle.pws_mark.specs.Tokens.{is_text_char, is_white};
ghost use Rattle.pws_mark.specs.declared.modes.Mode.TheVariants as mode;
ghost use Rattle.pws_mark.specs.declared.modes.ReferenceStep.TheVariants as stepped;
ghost use Rattle.pws_mark.specs.declared.modes.Region.TheVariants as region_is;

use crate::counts::{Marks, Place};
use crate::declaring::{declaring_step, has_at, is_white};
use crate::errors::MarkKind;
use crate::least::Least;
use crate::modes::{Declaring, Mode, ReadTag, Reference, ReferenceStep, Region};
use crate::outer::Outer;
use crate::references::reference_step;
use pws_base::lists::Sequence;
use pws_base::memory::Memory;
use pws_tree::characters::{is_name_start, is_xml_char};
use std::alloc::Global;

/// Content, with nothing before that counts.
pub fn in_content() -> Mode
    ensures { result ≡ mode.Content 0 false }
{
    Mode::Content(Marks::none(), false)
}

/// At the start of a text.
pub fn start_step(at: Place, marked: bool, c: char) -> Option<Mode>
    ensures { result ≡ start_step at marked c }
{
    if is_white(c) {
        return Some(in_content());
    }
    if c == '<' {
        return Some(Mode::HeadOpened(at));
    }
    if marked && c == '\u{FEFF}' {
        return Some(Mode::Start(false));
    }
    None
}

/// In the XML declaration.
pub fn declaration_step(declaring: Declaring, c: char) -> Option<Mode>
    ensures { result ≡ option_map in_declaration (declaring_step declaring c) }
{
    match declaring_step(declaring, c) {
        Some(Some(declaring)) => Some(Mode::Declaring(declaring)),
        Some(None) => Some(in_content()),
        None => None,
    }
}

/// A tag begins at this place.
fn tag_begins(alloc: Global, at: Place, c: char) -> Result<Option<Mode>, Memory>
    ensures { IfOk result (λ m. m ≡ Some (tag_begins at c)) }
{
    let mut name = Sequence::new(alloc);
    name.push(c)?;
    let tag = ReadTag {
        at,
        name,
        attributes: Sequence::new(alloc),
    };
    Ok(Some(Mode::TagName(tag, false)))
}

/// Behind a `<` that stands at this place.
fn opened_step(alloc: Global, region: Region, at: Place, c: char) -> Result<Option<Mode>, Memory>
    ensures { IfOk result (λ m. m ≡ opened_step region at c) }
{
    if region != Region::Behind && is_name_start(c) {
        return tag_begins(alloc, at, c);
    }
    if c == '!' {
        return Ok(Some(Mode::Bang));
    }
    if region == Region::Inside && c == '/' {
        return Ok(Some(Mode::EndName(0)));
    }
    Ok(None)
}

/// Behind a `<` at the start, which stands at this place.
fn head_opened_step(alloc: Global, at: Place, c: char) -> Result<Option<Mode>, Memory>
    ensures { IfOk result (λ m. m ≡ head_opened_step at c) }
{
    if c == '?' {
        return Ok(Some(Mode::Declaring(Declaring::Word(0))));
    }
    opened_step(alloc, Region::Before, at, c)
}

/// Notes a tag that begins too deep, where the character is taken.
fn note_depth(least: &mut Least, outer: &Outer, at: Place, c: char, mode: &Option<Mode>)
    ensures { Notes mode.now least.old (depth_finds outer.now at c) least.new }
{
    if mode.is_some() {
        least.note_if(
            is_name_start(c) && outer.is_deepest(),
            MarkKind::Depth,
            at.get(),
        );
    }
}

/// Behind a `<` at the start, which stands at this place; a tag that begins too deep is noted.
///
/// # Errors
///
/// `Memory` only.
pub fn head_begun_step(
    alloc: Global,
    outer: &Outer,
    least: &mut Least,
    at: Place,
    c: char,
) -> Result<Option<Mode>, Memory>
    ensures mode { IfOk result (λ m. m ≡ head_opened_step at c) }
    ensures notes { IfOk result (λ m. Notes m least.old (depth_finds outer.now at c) least.new) }
{
    let mode = head_opened_step(alloc, at, c)?;
    note_depth(least, outer, at, c, &mode);
    Ok(mode)
}

/// Behind a `<` that stands at this place; a tag that begins too deep is noted.
///
/// # Errors
///
/// `Memory` only.
pub fn begun_step(
    alloc: Global,
    outer: &Outer,
    least: &mut Least,
    at: Place,
    c: char,
) -> Result<Option<Mode>, Memory>
    ensures mode { IfOk result (λ m. m ≡ opened_step (region outer.now) at c) }
    ensures notes { IfOk result (λ m. Notes m least.old (depth_finds outer.now at c) least.new) }
{
    let mode = opened_step(alloc, outer.region(), at, c)?;
    note_depth(least, outer, at, c, &mode);
    Ok(mode)
}

/// Behind `<!`.
pub fn bang_step(region: Region, c: char) -> Option<Mode>
    ensures { result ≡ bang_step region c }
{
    if c == '-' {
        return Some(Mode::Dash);
    }
    if region == Region::Inside && c == '[' {
        return Some(Mode::SectionWord(0));
    }
    None
}

/// Behind `<!-`.
pub fn dash_step(c: char) -> Option<Mode>
    ensures { result ≡ (if c == 45 then Some (mode.Comment 0) else None) }
{
    if c == '-' {
        return Some(Mode::Comment(Marks::none()));
    }
    None
}

/// In a comment.
pub fn comment_step(dashes: Marks, c: char) -> Option<Mode>
    ensures { result ≡ comment_step dashes c }
{
    if dashes.get() == 2 {
        return if c == '>' { Some(in_content()) } else { None };
    }
    if is_xml_char(c) {
        return Some(Mode::Comment(dashes.after('-', c)));
    }
    None
}

/// Behind `<![` and so many characters of `CDATA[`.
#[tactic(auto, unfolding(crate::specs::Scan::section_word))]
pub fn section_word_step(place: u8, c: char) -> Option<Mode>
    ensures { result ≡ section_word_step place c }
{
    if has_at(&['C', 'D', 'A', 'T', 'A', '['], usize::from(place), c) {
        if place == 5 {
            return Some(Mode::Section(Marks::none(), false));
        }
        return Some(Mode::SectionWord(place + 1));
    }
    None
}

/// The character that a character of text is kept as, if it is kept (XML 1.0 fifth edition, section 2.11).
fn kept_char(after_return: bool, c: char) -> Option<char>
    ensures { char_text result ≡ text_bytes after_return c }
{
    if c == '\r' {
        return Some('\n');
    }
    if after_return && c == '\n' {
        return None;
    }
    Some(c)
}

/// Whether a character may stand in text (XML 1.0 fifth edition, production 14).
fn is_text_char(c: char) -> bool
    ensures { result ≡ is_text_char c }
{
    is_xml_char(c) && c != '<' && c != '&'
}

/// In content inside of the element, behind so many of `]]`.
fn text_step(
    outer: &mut Outer,
    at: Place,
    brackets: Marks,
    after_return: bool,
    c: char,
) -> Result<Option<Mode>, Memory>
    ensures { IfOk result (λ m. Goes (content_step region_is.Inside outer.old at brackets after_return c) m outer.new) }
{
    if is_text_char(c) && !(brackets.get() == 2 && c == '>') {
        outer.take(at.get(), Some(c), kept_char(after_return, c))?;
        return Ok(Some(Mode::Content(brackets.after(']', c), c == '\r')));
    }
    if c == '<' {
        return Ok(Some(Mode::Opened(at)));
    }
    if c == '&' {
        return Ok(Some(Mode::TextReference(at, Reference::Begun)));
    }
    Ok(None)
}

/// Outside of the element.
fn around_step(at: Place, c: char) -> Option<Mode>
    ensures { result ≡ (if is_white c then Some (mode.Content 0 false) else if c == 60 then Some (mode.Opened at) else None) }
{
    if is_white(c) {
        return Some(in_content());
    }
    if c == '<' {
        return Some(Mode::Opened(at));
    }
    None
}

/// In content, or outside of the element, behind so many of `]]`.
///
/// # Errors
///
/// `Memory` only.
pub fn content_step(
    outer: &mut Outer,
    at: Place,
    brackets: Marks,
    after_return: bool,
    c: char,
) -> Result<Option<Mode>, Memory>
    ensures { IfOk result (λ m. Goes (content_step (region outer.old) outer.old at brackets after_return c) m outer.new) }
{
    match outer.region() {
        Region::Inside => text_step(outer, at, brackets, after_return, c),
        Region::Before | Region::Behind => Ok(around_step(at, c)),
    }
}

/// A reference in content is complete, whose `&` stands at this place, and which stands for this character or for none.
fn text_reference(
    outer: &mut Outer,
    least: &mut Least,
    at: Place,
    c: Option<char>,
) -> Result<Option<Mode>, Memory>
    ensures goes { IfOk result (λ m. Goes (in_text outer.old at (stepped.Done c)) m outer.new) }
    ensures notes { IfOk result (λ m. Notes m least.old (reference_finds at (Some (stepped.Done c))) least.new) }
{
    outer.take(at.get(), c, c)?;
    least.note_if(c.is_none(), MarkKind::Entity, at.get());
    Ok(Some(in_content()))
}

/// In a reference in content, whose `&` stands at this place.
///
/// # Errors
///
/// `Memory` only.
#[tactic(auto, unfolding(crate::specs::Least::lowered))]
pub fn text_reference_step(
    alloc: Global,
    outer: &mut Outer,
    least: &mut Least,
    at: Place,
    reference: Reference,
    c: char,
) -> Result<Option<Mode>, Memory>
    ensures goes { IfOk result (λ m. Goes (either (reference_step reference c) (in_text outer.old at)) m outer.new) }
    ensures notes { IfOk result (λ m. Notes m least.old (reference_finds at (reference_step reference c)) least.new) }
{
    match reference_step(alloc, reference, c)? {
        Some(ReferenceStep::More(reference)) => Ok(Some(Mode::TextReference(at, reference))),
        Some(ReferenceStep::Done(c)) => text_reference(outer, least, at, c),
        None => Ok(None),
    }
}

/// A `]` of a section, so many bytes before this place, is text.
fn take_bracket(outer: &mut Outer, at: Place, before: usize) -> Result<(), Memory>
    ensures { OnOk result (outer.new ≡ taken outer.old (at - before) (Some 93) (93 ∷ [])) }
{
    outer.take(at.before(before).get(), Some(']'), Some(']'))
}

/// So many of `]]` that stand before this place are text, as the section goes on.
fn take_brackets(outer: &mut Outer, at: Place, brackets: Marks) -> Result<(), Memory>
    ensures { OnOk result (outer.new ≡ brackets_taken outer.old at brackets) }
{
    if brackets.get() == 2 {
        take_bracket(outer, at, 2)?;
    }
    if brackets.get() != 0 {
        take_bracket(outer, at, 1)?;
    }
    Ok(())
}

/// At a `]` in a CDATA section.
fn bracket_step(
    outer: &mut Outer,
    at: Place,
    brackets: Marks,
    after_return: bool,
) -> Result<Option<Mode>, Memory>
    ensures { IfOk result (λ m. Goes (section_step outer.old at brackets after_return 93) m outer.new) }
{
    if brackets.get() == 2 {
        take_bracket(outer, at, 2)?;
        return Ok(Some(Mode::Section(brackets, false)));
    }
    Ok(Some(Mode::Section(brackets.more(), after_return)))
}

/// In a CDATA section, behind so many of `]]`.
///
/// # Errors
///
/// `Memory` only.
pub fn section_step(
    outer: &mut Outer,
    at: Place,
    brackets: Marks,
    after_return: bool,
    c: char,
) -> Result<Option<Mode>, Memory>
    ensures { IfOk result (λ m. Goes (section_step outer.old at brackets after_return c) m outer.new) }
{
    if c == ']' {
        return bracket_step(outer, at, brackets, after_return);
    }
    if brackets.get() == 2 && c == '>' {
        return Ok(Some(in_content()));
    }
    if is_xml_char(c) {
        take_brackets(outer, at, brackets)?;
        let kept = kept_char(brackets.get() == 0 && after_return, c);
        outer.take(at.get(), Some(c), kept)?;
        return Ok(Some(Mode::Section(Marks::none(), c == '\r')));
    }
    Ok(None)
}
