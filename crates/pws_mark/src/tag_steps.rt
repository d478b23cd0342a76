//! Tags, character by character.

ghost use Rattle.std.specs.Prelude.{◌≡◌, ◌++◌, [], ◌∷◌, ◌==◌, if◌then◌else◌, Some, None, true, false, option_map, IfOk};
ghost use Rattle.pws_mark.specs.Noted.{start_finds, hollow_finds, end_finds, reference_finds};
ghost use Rattle.pws_mark.specs.Least.{lowered};
ghost use Rattle.pws_mark.specs.Tokens.{is_white};
ghost use Rattle.pws_mark.specs.Scan.{name_has, to, tag_step, tag_name_step, in_tag_step, attribute_name_step, before_equals_step, after_equals_step, value_step, in_value, reference_step, end_name_step, end_gap_step};
ghost use Rattle.pws_mark.specs.Scanning.{Goes, Notes, ended_in};
ghost use Rattle.pws_mark.specs.States.{started, hollowed};
ghost use Rattle.pws_mark.specs.declared.modes.Mode.TheVariants as mode;

use crate::counts::{Marks, Place};
use crate::declaring::{is_quote, is_white};
use crate::errors::MarkKind;
use crate::least::Least;
use crate::modes::{Mode, ReadName, ReadTag, ReadValue, Reference, ReferenceStep, Region};
use crate::outer::Outer;
use crate::references::reference_step;
use crate::values::{is_value_char, value_with, value_with_reference, with_attribute};
use pws_base::lists::Sequence;
use pws_base::memory::Memory;
use pws_tree::characters::{is_name_char, is_name_start};
use pws_tree::texts::Text;
use std::alloc::Global;

/// Behind a tag.
fn in_content() -> Option<Mode>
    ensures { result ≡ Some (mode.Content 0 false) }
{
    Some(Mode::Content(Marks::none(), false))
}

/// A start tag is complete.
fn start_tag(
    alloc: Global,
    outer: &mut Outer,
    least: &mut Least,
    tag: ReadTag,
) -> Result<Option<Mode>, Memory>
    ensures goes { IfOk result (λ m. Goes (to (started outer.old tag) (mode.Content 0 false)) m outer.new) }
    ensures notes { IfOk result (λ m. Notes m least.old (start_finds outer.old tag) least.new) }
{
    outer.start_tag(alloc, least, tag)?;
    Ok(in_content())
}

/// What a character behind the name of a tag, or an attribute, does.
fn tag_step(
    alloc: Global,
    outer: &mut Outer,
    least: &mut Least,
    tag: ReadTag,
    c: char,
) -> Result<Option<Mode>, Memory>
    ensures goes { IfOk result (λ m. Goes (tag_step outer.old tag c) m outer.new) }
    ensures notes { IfOk result (λ m. Notes m least.old (if c == 62 then start_finds outer.old tag else []) least.new) }
{
    if is_white(c) {
        return Ok(Some(Mode::InTag(tag, true)));
    }
    if c == '/' {
        return Ok(Some(Mode::Slash(tag)));
    }
    if c == '>' {
        return start_tag(alloc, outer, least, tag);
    }
    Ok(None)
}

/// A tag with one more character of its name, and whether the next one has to begin a part.
fn tag_with(tag: ReadTag, c: char, starts: bool) -> Result<Mode, Memory>
    ensures { IfOk result (λ m. m ≡ mode.TagName (record { at = tag.at; name = tag.name ++ c ∷ []; attributes = tag.attributes }) starts) }
{
    let ReadTag {
        at,
        mut name,
        attributes,
    } = tag;
    name.push(c)?;
    let tag = ReadTag {
        at,
        name,
        attributes,
    };
    Ok(Mode::TagName(tag, starts))
}

/// What a character does to the name of a tag.
///
/// # Errors
///
/// `Memory` only.
pub fn tag_name_step(
    alloc: Global,
    outer: &mut Outer,
    least: &mut Least,
    tag: ReadTag,
    starts: bool,
    c: char,
) -> Result<Option<Mode>, Memory>
    ensures goes { IfOk result (λ m. Goes (tag_name_step outer.old tag starts c) m outer.new) }
    ensures notes { IfOk result (λ m. Notes m least.old (if c == 62 then start_finds outer.old tag else []) least.new) }
{
    if starts {
        if is_name_start(c) {
            return Ok(Some(tag_with(tag, c, false)?));
        }
        return Ok(None);
    }
    if is_name_char(c) {
        return Ok(Some(tag_with(tag, c, false)?));
    }
    if c == ':' {
        return Ok(Some(tag_with(tag, c, true)?));
    }
    tag_step(alloc, outer, least, tag, c)
}

/// The name of an attribute begins with this character, at this place.
fn name_of_one(alloc: Global, at: Place, c: char) -> Result<ReadName, Memory>
    ensures { IfOk result (λ n. n ≡ record { at = at; name = c ∷ [] }) }
{
    let mut name = Sequence::new(alloc);
    name.push(c)?;
    Ok(ReadName { at, name })
}

/// What a character in a tag, behind its name, does.
///
/// # Errors
///
/// `Memory` only.
pub fn in_tag_step(
    alloc: Global,
    outer: &mut Outer,
    least: &mut Least,
    at: Place,
    tag: ReadTag,
    spaced: bool,
    c: char,
) -> Result<Option<Mode>, Memory>
    ensures goes { IfOk result (λ m. Goes (in_tag_step outer.old at tag spaced c) m outer.new) }
    ensures notes { IfOk result (λ m. Notes m least.old (if c == 62 then start_finds outer.old tag else []) least.new) }
{
    if spaced && is_name_start(c) {
        let name = name_of_one(alloc, at, c)?;
        return Ok(Some(Mode::AttributeName(tag, name, false)));
    }
    tag_step(alloc, outer, least, tag, c)
}

/// What a character behind the `/` of an empty tag does.
///
/// # Errors
///
/// `Memory` only.
pub fn slash_step(
    alloc: Global,
    outer: &mut Outer,
    least: &mut Least,
    tag: ReadTag,
    c: char,
) -> Result<Option<Mode>, Memory>
    ensures goes { IfOk result (λ m. Goes (if c == 62 then to (hollowed outer.old tag) (mode.Content 0 false) else None) m outer.new) }
    ensures notes { IfOk result (λ m. Notes m least.old (hollow_finds outer.old tag) least.new) }
{
    if c == '>' {
        outer.hollow_tag(alloc, least, tag)?;
        return Ok(in_content());
    }
    Ok(None)
}

/// The name of an attribute with one more character.
fn name_with(name: ReadName, c: char) -> Result<ReadName, Memory>
    ensures { IfOk result (λ n. n ≡ record { at = name.at; name = name.name ++ c ∷ [] }) }
{
    let ReadName { at, mut name } = name;
    name.push(c)?;
    Ok(ReadName { at, name })
}

/// What a character does to the name of an attribute, where it has to begin a part.
fn attribute_part_step(tag: ReadTag, name: ReadName, c: char) -> Result<Option<Mode>, Memory>
    ensures { IfOk result (λ m. m ≡ attribute_name_step tag name true c) }
{
    if is_name_start(c) {
        return Ok(Some(Mode::AttributeName(tag, name_with(name, c)?, false)));
    }
    Ok(None)
}

/// What a character does to the name of an attribute.
///
/// # Errors
///
/// `Memory` only.
pub fn attribute_name_step(
    tag: ReadTag,
    name: ReadName,
    starts: bool,
    c: char,
) -> Result<Option<Mode>, Memory>
    ensures { IfOk result (λ m. m ≡ attribute_name_step tag name starts c) }
{
    if starts {
        return attribute_part_step(tag, name, c);
    }
    if is_name_char(c) {
        return Ok(Some(Mode::AttributeName(tag, name_with(name, c)?, false)));
    }
    if c == ':' {
        return Ok(Some(Mode::AttributeName(tag, name_with(name, c)?, true)));
    }
    Ok(before_equals_step(tag, name, c))
}

/// What a character behind the name of an attribute does.
pub fn before_equals_step(tag: ReadTag, name: ReadName, c: char) -> Option<Mode>
    ensures { result ≡ before_equals_step tag name c }
{
    if is_white(c) {
        return Some(Mode::BeforeEquals(tag, name));
    }
    if c == '=' {
        return Some(Mode::AfterEquals(tag, name));
    }
    None
}

/// What a character behind the `=` of an attribute does.
pub fn after_equals_step(alloc: Global, tag: ReadTag, name: ReadName, c: char) -> Option<Mode>
    ensures { result ≡ after_equals_step tag name c }
{
    if is_white(c) {
        return Some(Mode::AfterEquals(tag, name));
    }
    if is_quote(c) {
        let value = ReadValue {
            quote: c,
            text: Some(Text::new(alloc)),
            after_return: false,
        };
        return Some(Mode::Value(tag, name, value));
    }
    None
}

/// What a character in the value of an attribute does, at this place.
///
/// # Errors
///
/// `Memory` only.
pub fn value_step(
    at: Place,
    tag: ReadTag,
    name: ReadName,
    value: ReadValue,
    c: char,
) -> Result<Option<Mode>, Memory>
    ensures { IfOk result (λ m. m ≡ value_step at tag name value c) }
{
    if is_value_char(value.quote, c) {
        return Ok(Some(Mode::Value(tag, name, value_with(value, c)?)));
    }
    if c == '&' {
        return Ok(Some(Mode::ValueReference(tag, name, value, at, Reference::Begun)));
    }
    if c == value.quote {
        return Ok(Some(Mode::InTag(with_attribute(tag, name, value)?, false)));
    }
    Ok(None)
}

/// Where a reference in a value leads.
fn in_value(
    tag: ReadTag,
    name: ReadName,
    value: ReadValue,
    place: Place,
    step: ReferenceStep,
) -> Result<Mode, Memory>
    ensures { IfOk result (λ m. m ≡ in_value tag name value place step) }
{
    match step {
        ReferenceStep::More(reference) => {
            Ok(Mode::ValueReference(tag, name, value, place, reference))
        }
        ReferenceStep::Done(c) => Ok(Mode::Value(tag, name, value_with_reference(value, c)?)),
    }
}

/// Notes a reference to no character, which begins at this place.
#[tactic(auto, unfolding(crate::specs::Least::lowered))]
pub fn note_reference(least: &mut Least, place: Place, step: &ReferenceStep)
    ensures { least.new ≡ lowered least.old (reference_finds place (Some step.now)) }
{
    match step {
        ReferenceStep::More(_) => {}
        ReferenceStep::Done(c) => least.note_if(c.is_none(), MarkKind::Entity, place.get()),
    }
}

/// What a character in a reference in the value of an attribute does.
///
/// # Errors
///
/// `Memory` only.
pub fn value_reference_step(
    alloc: Global,
    least: &mut Least,
    tag: ReadTag,
    name: ReadName,
    value: ReadValue,
    place: Place,
    reference: Reference,
    c: char,
) -> Result<Option<Mode>, Memory>
    ensures goes { IfOk result (λ m. m ≡ option_map (in_value tag name value place) (reference_step reference c)) }
    ensures notes { IfOk result (λ m. Notes m least.old (reference_finds place (reference_step reference c)) least.new) }
{
    match reference_step(alloc, reference, c)? {
        Some(step) => {
            note_reference(least, place, &step);
            Ok(Some(in_value(tag, name, value, place, step)?))
        }
        None => Ok(None),
    }
}

/// An end tag is complete.
fn end_tag(alloc: Global, outer: &mut Outer, least: &mut Least) -> Result<Option<Mode>, Memory>
    ensures goes { IfOk result (λ m. Goes (to (ended_in outer.old.opens outer.old) (mode.Content 0 false)) m outer.new) }
    ensures notes { IfOk result (λ m. Notes m least.old (end_finds outer.old.opens) least.new) }
{
    outer.end_tag(alloc, least)?;
    Ok(in_content())
}

/// What a character behind the name of an end tag does.
fn end_step(
    alloc: Global,
    outer: &mut Outer,
    least: &mut Least,
    c: char,
) -> Result<Option<Mode>, Memory>
    ensures goes { IfOk result (λ m. Goes (if is_white c then to outer.old mode.EndGap else if c == 62 then to (ended_in outer.old.opens outer.old) (mode.Content 0 false) else None) m outer.new) }
    ensures notes { IfOk result (λ m. Notes m least.old (if c == 62 then end_finds outer.old.opens else []) least.new) }
{
    if is_white(c) {
        return Ok(Some(Mode::EndGap));
    }
    if c == '>' {
        return end_tag(alloc, outer, least);
    }
    Ok(None)
}

/// What a character in an end tag does, behind so many characters of the name.
///
/// # Errors
///
/// `Memory` only.
pub fn end_name_step(
    alloc: Global,
    outer: &mut Outer,
    least: &mut Least,
    count: usize,
    c: char,
) -> Result<Option<Mode>, Memory>
    ensures goes { IfOk result (λ m. Goes (end_name_step outer.old outer.old.opens count c) m outer.new) }
    ensures notes { IfOk result (λ m. Notes m least.old (if name_has outer.old.opens count c then [] else if c == 62 then end_finds outer.old.opens else []) least.new) }
{
    if outer.has_at(count, c) {
        return Ok(Some(Mode::EndName(count + 1)));
    }
    if outer.name_ends(count) {
        return end_step(alloc, outer, least, c);
    }
    Ok(None)
}

/// What a character in the white space of an end tag does.
///
/// # Errors
///
/// `Memory` only.
pub fn end_gap_step(
    alloc: Global,
    outer: &mut Outer,
    least: &mut Least,
    c: char,
) -> Result<Option<Mode>, Memory>
    ensures goes { IfOk result (λ m. Goes (end_gap_step outer.old outer.old.opens c) m outer.new) }
    ensures notes { IfOk result (λ m. Notes m least.old (if c == 62 then end_finds outer.old.opens else []) least.new) }
{
    if outer.region() == Region::Inside {
        return end_step(alloc, outer, least, c);
    }
    Ok(None)
}
