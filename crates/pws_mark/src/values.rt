//! The value of an attribute, character by character.

ghost use Rattle.std.specs.Prelude.{◌≡◌, ◌++◌, [], ◌∷◌, option_map, encode_utf8, Some, IfOk};
ghost use Rattle.std.specs.Option.{option_and_then};
ghost use Rattle.pws_mark.specs.Meaning.{char_text};
ghost use Rattle.pws_mark.specs.Scan.{value_bytes, value_with, value_with_reference, with_attribute};
ghost use Rattle.pws_mark.specs.Tokens.{is_text_char, is_value_char};

use crate::modes::{ReadAttribute, ReadName, ReadTag, ReadValue};
use pws_base::memory::Memory;
use pws_tree::characters::is_xml_char;
use pws_tree::texts::Text;

/// Whether a character may stand in a value between these quotes (XML 1.0 fifth edition, production 10).
pub fn is_value_char(quote: char, c: char) -> bool
    ensures { result ≡ is_value_char quote c }
{
    is_xml_char(c) && c != '<' && c != '&' && c != quote
}

/// How a character of a value is kept (sections 2.11 and 3.3.3), where it is.
fn kept_char(after_return: bool, c: char) -> Option<char>
    ensures { char_text result ≡ value_bytes after_return c }
{
    if after_return && c == '\n' {
        return None;
    }
    if c == '\t' || c == '\n' || c == '\r' {
        return Some(' ');
    }
    Some(c)
}

/// A text with one more character, where it isn't missing.
fn text_with(text: Option<Text>, c: char) -> Result<Option<Text>, Memory>
    ensures { IfOk result (λ t. t ≡ option_map (λ t. t ++ encode_utf8 c) text) }
{
    match text {
        Some(text) => {
            let mut inner = text.into_string();
            inner.push(c)?;
            Ok(Some(Text::from_string(inner)))
        }
        None => Ok(None),
    }
}

/// A text with what is kept of a character.
fn text_behind(text: Option<Text>, after_return: bool, c: char) -> Result<Option<Text>, Memory>
    ensures { IfOk result (λ t. t ≡ option_map (λ t. t ++ value_bytes after_return c) text) }
{
    match kept_char(after_return, c) {
        Some(kept) => text_with(text, kept),
        None => Ok(text),
    }
}

/// A value with one more character.
///
/// # Errors
///
/// `Memory` only.
pub fn value_with(value: ReadValue, c: char) -> Result<ReadValue, Memory>
    ensures { IfOk result (λ v. v ≡ value_with value c) }
{
    let ReadValue {
        quote,
        text,
        after_return,
    } = value;
    Ok(ReadValue {
        quote,
        text: text_behind(text, after_return, c)?,
        after_return: c == '\r',
    })
}

/// A text with what a reference stands for, or nothing where that is nothing.
fn text_by_reference(text: Option<Text>, c: Option<char>) -> Result<Option<Text>, Memory>
    ensures { IfOk result (λ t. t ≡ option_and_then (λ x. option_map (λ t. t ++ encode_utf8 x) text) c) }
{
    match c {
        Some(c) => text_with(text, c),
        None => Ok(None),
    }
}

/// A value with what a reference stands for, or without it where that is nothing.
///
/// # Errors
///
/// `Memory` only.
pub fn value_with_reference(value: ReadValue, c: Option<char>) -> Result<ReadValue, Memory>
    ensures { IfOk result (λ v. v ≡ value_with_reference value c) }
{
    let ReadValue { quote, text, .. } = value;
    Ok(ReadValue {
        quote,
        text: text_by_reference(text, c)?,
        after_return: false,
    })
}

/// A tag with one more attribute.
///
/// # Errors
///
/// `Memory` only.
pub fn with_attribute(tag: ReadTag, name: ReadName, value: ReadValue) -> Result<ReadTag, Memory>
    ensures { IfOk result (λ t. t ≡ with_attribute tag name value) }
{
    let ReadTag {
        at,
        name: tag_name,
        mut attributes,
    } = tag;
    attributes.push(ReadAttribute {
        name: name.name,
        at: name.at,
        value: value.text,
    })?;
    Ok(ReadTag {
        at,
        name: tag_name,
        attributes,
    })
}
