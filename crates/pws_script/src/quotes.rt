//! Reading a text in double quotes.

ghost use Rattle.std.specs.Prelude.{◌≡◌, ◌≤◌, false, length};
ghost use Rattle.std.specs.List.{list_all};
ghost use Rattle.std.specs.Str.{chars};
ghost use Rattle.std.specs.String.{string_bytes};
ghost use Rattle.pws_script.specs.Reading.{unescaped, bytes_after, text_from, text_at};
ghost use Rattle.pws_script.specs.Steps.{Gives};
ghost use Rattle.pws_script.specs.Texts.{is_character, is_text};

use crate::faults::{LineError, ScriptFault};
use crate::operands::Text;
use std::alloc::Global;

/// Whether XML has this character.
fn is_character(c: char) -> bool
    ensures { result ≡ is_character c }
{
    matches!(c, '\t' | '\n' | '\r' | ' '..='\u{D7FF}' | '\u{E000}'..='\u{FFFD}' | '\u{10000}'..='\u{10FFFF}')
}

fn has_characters_only(text: &str) -> bool
    ensures { result ≡ list_all is_character (chars text.now) }
{
    text.chars().all(is_character)
}

/// Whether a literal can have this text.
fn is_text(text: &str) -> bool
    ensures { result ≡ is_text text.now }
{
    has_characters_only(text) && text.len() <= 4096
}

/// The byte that stands for itself or for a line feed after a backslash.
fn unescape(c: u8) -> Result<u8, ScriptFault>
    ensures { result ≡ unescaped c }
{
    match c {
        b'"' => Ok(b'"'),
        b'\\' => Ok(b'\\'),
        b'n' => Ok(b'\n'),
        _ => Err(ScriptFault::Text),
    }
}

/// The bytes after an opening quote, up to the closing quote that ends them.
fn unquote(alloc: Global, quoted: &[u8]) -> Result<Vec<u8>, LineError>
    ensures { Gives (λ v. v.items) result (bytes_after false quoted.now) }
{
    let mut bytes = Vec::new(alloc);
    let mut escaped = false;
    for (i, c) in quoted.iter().enumerate() {
        if escaped {
            bytes.push(unescape(*c)?)?;
            escaped = false;
        } else if *c == b'"' {
            if i + 1 == quoted.len() {
                return Ok(bytes);
            }
            return Err(LineError::Fault(ScriptFault::Text));
        } else if *c == b'\\' {
            escaped = true;
        } else {
            bytes.push(*c)?;
        }
    }
    Err(LineError::Fault(ScriptFault::Text))
}

/// This text, if a literal can have it.
fn lawful(text: String) -> Result<Text, ScriptFault>
    ensures { result ≡ text_from (string_bytes text) }
{
    if is_text(text.as_str()) {
        Ok(Text::new(text))
    } else {
        Err(ScriptFault::Text)
    }
}

/// The text of these bytes, if a literal can have it.
fn text_from(bytes: Vec<u8>) -> Result<Text, ScriptFault>
    ensures { result ≡ text_from bytes.items }
{
    match String::from_utf8(bytes) {
        Ok(text) => lawful(text),
        Err(_) => Err(ScriptFault::Text),
    }
}

/// The text of a literal that begins with a quote.
#[tactic(auto, unfolding(crate::specs::Reading::text_at))]
pub(crate) fn read_text(alloc: Global, literal: &[u8]) -> Result<Text, LineError>
    requires { 1 ≤ length literal.now }
    ensures { Gives (λ t. t) result (text_at literal.now) }
{
    let bytes = unquote(alloc, &literal[1..])?;
    Ok(text_from(bytes)?)
}
