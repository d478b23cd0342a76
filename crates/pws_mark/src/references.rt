//! References, character by character.

ghost use Rattle.std.specs.Prelude.{◌≡◌, true, false, ◌≤◌, [], ◌∷◌, ◌++◌, Some, IfOk, IsTrue};
ghost use Rattle.pws_mark.specs.Bindings.{char_at, entity_char};
ghost use Rattle.pws_mark.specs.Digits.{is_digit, is_hexadecimal, digit_number};
ghost use Rattle.pws_mark.specs.Scan.{number_step, reference_step};
ghost use Rattle.pws_mark.specs.declared.modes.Reference.TheVariants as reference;
ghost use Rattle.pws_mark.specs.declared.modes.ReferenceStep.TheVariants as stepped;

use crate::modes::{Reference, ReferenceStep};
use pws_base::lists::Sequence;
use pws_base::memory::Memory;
use pws_tree::characters::{is_name_char, is_name_start, is_xml_char};
use std::alloc::Global;

/// The character of a predefined entity (XML 1.0 fifth edition, section 4.6).
#[tactic(auto, unfolding(crate::specs::Bindings::entity_char))]
fn entity_char(name: &[char]) -> Option<char>
    ensures { result ≡ entity_char name.now }
{
    if name == ['a', 'm', 'p'].as_slice() {
        Some('&')
    } else if name == ['l', 't'].as_slice() {
        Some('<')
    } else if name == ['g', 't'].as_slice() {
        Some('>')
    } else if name == ['a', 'p', 'o', 's'].as_slice() {
        Some('\'')
    } else if name == ['q', 'u', 'o', 't'].as_slice() {
        Some('"')
    } else {
        None
    }
}

/// Whether a character is a decimal digit.
fn is_digit(c: char) -> bool
    ensures { result ≡ is_digit c }
{
    '0' <= c && c <= '9'
}

/// Whether a character is a hexadecimal digit.
fn is_hexadecimal(c: char) -> bool
    ensures { result ≡ is_hexadecimal c }
{
    is_digit(c) || ('A' <= c && c <= 'F') || ('a' <= c && c <= 'f')
}

/// What a digit stands for.
fn digit_number(c: char) -> u64
    requires { IsTrue (is_hexadecimal c) }
    ensures value { result ≡ digit_number c }
    ensures small { result ≤ 15 }
{
    let code = u64::from(c as u32);
    if code <= 57 {
        code - 48
    } else if code <= 70 {
        code - 55
    } else {
        code - 87
    }
}

/// The number with one more digit, in this base, at most 0x110000.
fn number_step(base: u64, number: u32, digit: char) -> u32
    requires base { base ≤ 16 }
    requires digit { IsTrue (is_hexadecimal digit) }
    ensures { result ≡ number_step base number digit }
{
    let next = u64::from(number) * base + digit_number(digit);
    if next >= 0x11_0000 {
        return 0x11_0000;
    }
    next as u32
}

/// The XML character of this number.
fn char_at(number: u32) -> Option<char>
    ensures { result ≡ char_at number }
{
    match char::from_u32(number) {
        Some(c) if is_xml_char(c) => Some(c),
        _ => None,
    }
}

/// An entity's name with one more character.
fn entity_with(
    mut name: Sequence<char>,
    c: char,
    starts: bool,
) -> Result<Option<ReferenceStep>, Memory>
    ensures { IfOk result (λ r. r ≡ Some (stepped.More (reference.Entity (name ++ c ∷ []) starts))) }
{
    name.push(c)?;
    Ok(Some(ReferenceStep::More(Reference::Entity(name, starts))))
}

/// What a character does to the name of an entity, where it has to begin a part.
#[tactic(auto, unfolding(crate::specs::Scan::reference_step))]
fn part_step(name: Sequence<char>, c: char) -> Result<Option<ReferenceStep>, Memory>
    ensures { IfOk result (λ r. r ≡ reference_step (reference.Entity name true) c) }
{
    if is_name_start(c) {
        return entity_with(name, c, false);
    }
    Ok(None)
}

/// What a character does to the name of an entity, where it need not begin a part.
#[tactic(auto, unfolding(crate::specs::Scan::reference_step))]
fn name_step(name: Sequence<char>, c: char) -> Result<Option<ReferenceStep>, Memory>
    ensures { IfOk result (λ r. r ≡ reference_step (reference.Entity name false) c) }
{
    if is_name_char(c) {
        return entity_with(name, c, false);
    }
    if c == ':' {
        return entity_with(name, c, true);
    }
    if c == ';' {
        return Ok(Some(ReferenceStep::Done(entity_char(name.as_slice()))));
    }
    Ok(None)
}

/// What a character does to a reference by a decimal number.
#[tactic(auto, unfolding(crate::specs::Scan::reference_step))]
fn decimal_step(number: u32, c: char) -> Option<ReferenceStep>
    ensures { result ≡ reference_step (reference.Decimal number) c }
{
    if is_digit(c) {
        let next = number_step(10, number, c);
        return Some(ReferenceStep::More(Reference::Decimal(next)));
    }
    if c == ';' {
        return Some(ReferenceStep::Done(char_at(number)));
    }
    None
}

/// What a character does to a reference by a hexadecimal number.
#[tactic(auto, unfolding(crate::specs::Scan::reference_step))]
fn hexadecimal_step(number: u32, c: char) -> Option<ReferenceStep>
    ensures { result ≡ reference_step (reference.Hexadecimal number) c }
{
    if is_hexadecimal(c) {
        let next = number_step(16, number, c);
        return Some(ReferenceStep::More(Reference::Hexadecimal(next)));
    }
    if c == ';' {
        return Some(ReferenceStep::Done(char_at(number)));
    }
    None
}

/// What a character behind `&` does.
#[tactic(auto, unfolding(crate::specs::Scan::reference_step))]
fn begun_step(alloc: Global, c: char) -> Result<Option<ReferenceStep>, Memory>
    ensures { IfOk result (λ r. r ≡ reference_step reference.Begun c) }
{
    if is_name_start(c) {
        return entity_with(Sequence::new(alloc), c, false);
    }
    if c == '#' {
        return Ok(Some(ReferenceStep::More(Reference::Number)));
    }
    Ok(None)
}

/// What a character behind `&#` does.
#[tactic(auto, unfolding(crate::specs::Scan::reference_step))]
fn number_begun_step(c: char) -> Option<ReferenceStep>
    ensures { result ≡ reference_step reference.Number c }
{
    if is_digit(c) {
        return decimal_step(0, c);
    }
    if c == 'x' {
        return Some(ReferenceStep::More(Reference::HexadecimalBegun));
    }
    None
}

/// What a character behind `&#x` does.
#[tactic(auto, unfolding(crate::specs::Scan::reference_step))]
fn hexadecimal_begun_step(c: char) -> Option<ReferenceStep>
    ensures { result ≡ reference_step reference.HexadecimalBegun c }
{
    if is_hexadecimal(c) {
        return hexadecimal_step(0, c);
    }
    None
}

/// What a character does to a reference.
///
/// # Errors
///
/// `Memory` only.
pub fn reference_step(
    alloc: Global,
    reference: Reference,
    c: char,
) -> Result<Option<ReferenceStep>, Memory>
    ensures { IfOk result (λ r. r ≡ reference_step reference c) }
{
    match reference {
        Reference::Begun => begun_step(alloc, c),
        Reference::Entity(name, true) => part_step(name, c),
        Reference::Entity(name, false) => name_step(name, c),
        Reference::Number => Ok(number_begun_step(c)),
        Reference::HexadecimalBegun => Ok(hexadecimal_begun_step(c)),
        Reference::Decimal(number) => Ok(decimal_step(number, c)),
        Reference::Hexadecimal(number) => Ok(hexadecimal_step(number, c)),
    }
}
