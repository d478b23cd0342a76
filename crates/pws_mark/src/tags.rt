//! What a complete tag declares, has and shows to be refused.

ghost use Rattle.std.specs.Prelude.{◌≡◌, ◌<◌, ◌≤◌, ◌+◌, ◌++◌, [], ◌∷◌, ◌&&◌, ◌||◌, length, option_map, unwrap_or, map, reverse, take, Some, None, get_or, slice_get, OnOk, IfOk};
ghost use Rattle.std.specs.List.{filter_map, list_any};
ghost use Rattle.std.specs.Str.{bytes_eq};
ghost use Rattle.pws_mark.specs.Bindings.{is_space, is_wrong_declaration, xmlns_word};
ghost use Rattle.pws_mark.specs.Seen.{attribute_finds, finds_behind, names_of};
ghost use Rattle.pws_mark.specs.Canonical.{xml_word, xml_space};
ghost use Rattle.pws_tree.specs.Names.{xmlns_space};
ghost use Rattle.pws_mark.specs.Least.{lowered};
ghost use Rattle.pws_mark.specs.Noted.{if_found, is_wrong_read, read_name, tag_finds};
ghost use Rattle.pws_mark.specs.Faults.{is_wrong_name};
ghost use Rattle.pws_mark.specs.declared.errors.MarkKind.TheVariants as kind;
ghost use Rattle.pws_mark.specs.Scopes.{own_bound};
ghost use Rattle.pws_mark.specs.States.{read_attr, read_attrs, prefix_declared};

use crate::errors::MarkKind;
use crate::least::Least;
use crate::modes::{ReadAttribute, ReadTag};
use crate::names::{has_two_colons, letters_of, prefix_declared};
use crate::resolving::{Inside, or_no_name};
use crate::scopes::Scope;
use crate::seen::Seen;
use pws_base::lists::{ExactCopy, Sequence};
use pws_base::memory::Memory;
use pws_tree::spaces::{XML_SPACE, XMLNS_SPACE};
use pws_tree::texts::{Attr, Name, Text};
use std::alloc::Global;

/// A copy of a namespace, if it is known.
fn copy_space(alloc: Global, space: &Option<Text>) -> Result<Option<Text>, Memory>
    ensures { IfOk result (λ s. s ≡ space.now) }
{
    match space {
        Some(space) => Ok(Some(space.copy(alloc)?)),
        None => Ok(None),
    }
}

/// Whether a prefix can't be bound.
#[tactic(auto, unfolding(crate::specs::Canonical::xml_word, crate::specs::Bindings::xmlns_word))]
fn is_fixed(prefix: &[char]) -> bool
    ensures { result ≡ (bytes_eq prefix.now xml_word || bytes_eq prefix.now xmlns_word) }
{
    prefix == ['x', 'm', 'l'].as_slice() || prefix == ['x', 'm', 'l', 'n', 's'].as_slice()
}

/// Adds what an attribute declares.
fn declare(
    alloc: Global,
    scope: &mut Sequence<(Sequence<char>, Option<Text>)>,
    attribute: &ReadAttribute,
) -> Result<(), Memory>
    ensures { OnOk result (scope.new ≡ scope.old ++ own_bound (attribute.now ∷ [])) }
{
    if let Some(prefix) = prefix_declared(attribute.name.as_slice()) {
        if !is_fixed(prefix) {
            let space = copy_space(alloc, &attribute.value)?;
            scope.push((letters_of(alloc, prefix)?, space))?;
        }
    }
    Ok(())
}

/// What attributes declare, in order.
///
/// # Errors
///
/// `Memory` only.
pub fn scope_of(alloc: Global, attributes: &[ReadAttribute]) -> Result<Scope, Memory>
    ensures { IfOk result (λ s. s ≡ own_bound attributes.now) }
{
    let mut scope = Sequence::new(alloc);
    for attribute in attributes {
        declare(alloc, &mut scope, attribute)?;
    }
    Scope::new(alloc, scope)
}

/// The value, or an empty one.
fn or_empty(alloc: Global, value: Option<Text>) -> Text
    ensures { result ≡ unwrap_or value [] }
{
    match value {
        Some(value) => value,
        None => Text::new(alloc),
    }
}

/// An attribute, where it isn't a declaration.
fn attr_of(
    alloc: Global,
    inside: &Inside,
    attribute: &ReadAttribute,
) -> Result<Option<Attr>, Memory>
    ensures { IfOk result (λ a. a ≡ read_attr inside.now attribute.now) }
{
    if prefix_declared(attribute.name.as_slice()).is_some() {
        return Ok(None);
    }
    let name = inside.attribute_name(alloc, attribute.name.as_slice())?;
    let value = copy_space(alloc, &attribute.value)?;
    Ok(Some(Attr {
        name: or_no_name(alloc, name),
        value: or_empty(alloc, value),
    }))
}

/// Adds an attribute, where it isn't a declaration.
#[tactic(auto, unfolding(crate::specs::States::read_attrs))]
fn add_attr(
    alloc: Global,
    inside: &Inside,
    attrs: &mut Sequence<Attr>,
    attribute: &ReadAttribute,
) -> Result<(), Memory>
    ensures { OnOk result (attrs.new ≡ attrs.old ++ read_attrs inside.now (attribute.now ∷ [])) }
{
    if let Some(attr) = attr_of(alloc, inside, attribute)? {
        attrs.push(attr)?;
    }
    Ok(())
}

/// The attributes of a tag, in the order of the text.
///
/// # Errors
///
/// `Memory` only.
#[tactic(auto, unfolding(crate::specs::States::read_attrs))]
pub fn attrs_of(
    alloc: Global,
    inside: &Inside,
    attributes: &[ReadAttribute],
) -> Result<Sequence<Attr>, Memory>
    ensures { IfOk result (λ a. a ≡ read_attrs inside.now attributes.now) }
{
    let mut attrs = Sequence::new(alloc);
    for attribute in attributes {
        add_attr(alloc, inside, &mut attrs, attribute)?;
    }
    Ok(attrs)
}

/// Whether a value is this namespace.
fn is_space(value: &Option<Text>, space: &str) -> bool
    ensures { result ≡ is_space value.now space.now }
{
    match value {
        Some(value) => value.as_str() == space,
        None => false,
    }
}

/// Whether a namespace can't be bound to other prefixes than its own.
#[tactic(auto, unfolding(crate::specs::Canonical::xml_space, pws_tree::specs::Names::xmlns_space))]
fn is_fixed_space(value: &Option<Text>) -> bool
    ensures { result ≡ (is_space value.now xml_space || is_space value.now xmlns_space) }
{
    is_space(value, XML_SPACE) || is_space(value, XMLNS_SPACE)
}

/// Whether a declaration is refused.
#[tactic(auto, unfolding(crate::specs::Canonical::xml_word, crate::specs::Canonical::xml_space, crate::specs::Bindings::xmlns_word))]
fn is_wrong_declaration(prefix: &[char], value: &Option<Text>) -> bool
    ensures { result ≡ is_wrong_declaration prefix.now value.now }
{
    if prefix == ['x', 'm', 'l', 'n', 's'].as_slice() {
        return true;
    }
    if prefix == ['x', 'm', 'l'].as_slice() {
        return !is_space(value, XML_SPACE);
    }
    if is_fixed_space(value) {
        return true;
    }
    !prefix.is_empty() && is_space(value, "")
}

/// Whether an attribute's name, or what it declares, is refused.
fn is_wrong(inside: &Inside, attribute: &ReadAttribute) -> bool
    ensures { result ≡ is_wrong_read inside.now attribute.now (prefix_declared attribute.now.name) }
{
    let name = attribute.name.as_slice();
    match prefix_declared(name) {
        Some(prefix) => has_two_colons(name) || is_wrong_declaration(prefix, &attribute.value),
        None => inside.is_wrong_name(name),
    }
}

/// The names of attributes as bound, which declarations don't have.
///
/// # Errors
///
/// `Memory` only.
fn read_names(
    alloc: Global,
    inside: &Inside,
    attributes: &[ReadAttribute],
) -> Result<Sequence<Option<Name>>, Memory>
    ensures { IfOk result (λ names. names ≡ map (λ a. read_name inside.now a.name) attributes.now) }
{
    let mut names = Sequence::new(alloc);
    for attribute in attributes {
        names.push(inside.read_name(alloc, attribute.name.as_slice())?)?;
    }
    Ok(names)
}

/// Notes what is refused in an attribute of this name as bound, behind others.
#[tactic(auto, unfolding(crate::specs::Least::lowered))]
fn note_attribute<'a>(
    least: &mut Least,
    inside: &Inside,
    seen: &mut Seen<'a>,
    attribute: &'a ReadAttribute,
    bound: &'a Option<Name>,
) -> Result<(), Memory>
    requires { bound.now ≡ read_name inside.now attribute.now.name }
    ensures least { OnOk result (least.new ≡ lowered least.old (attribute_finds inside.now seen.old attribute.now)) }
    ensures seen { OnOk result (seen.new ≡ names_of inside.now attribute.now ∷ seen.old) }
{
    let name = attribute.name.as_slice();
    let at = attribute.at.get();
    least.note_if(is_wrong(inside, attribute), MarkKind::Prefix, at);
    least.note_if(seen.has(name, bound), MarkKind::Twice, at);
    seen.push(name, bound)
}

/// Notes what is refused in attributes of these names as bound.
fn note_attributes(
    alloc: Global,
    least: &mut Least,
    inside: &Inside,
    attributes: &[ReadAttribute],
    names: &[Option<Name>],
) -> Result<(), Memory>
    requires { names.now ≡ map (λ a. read_name inside.now a.name) attributes.now }
    ensures { OnOk result (least.new ≡ lowered least.old (finds_behind inside.now [] attributes.now)) }
{
    let mut seen = Seen::new(alloc);
    for i in 0..attributes.len() {
        note_attribute(least, inside, &mut seen, &attributes[i], &names[i])?;
    }
    Ok(())
}

/// Notes a wrong name of a complete tag.
fn note_name(least: &mut Least, inside: &Inside, tag: &ReadTag)
    ensures { least.new ≡ lowered least.old (if_found (is_wrong_name inside.now tag.now.name) kind.Prefix (tag.now.at + 1)) }
{
    let wrong = inside.is_wrong_name(tag.name.as_slice());
    least.note_if(wrong, MarkKind::Prefix, tag.at.get() + 1);
}

/// Notes what is refused in a complete tag.
///
/// # Errors
///
/// `Memory` only.
pub fn note_tag(
    alloc: Global,
    least: &mut Least,
    inside: &Inside,
    tag: &ReadTag,
) -> Result<(), Memory>
    ensures { OnOk result (least.new ≡ lowered least.old (tag_finds inside.now tag.now)) }
{
    note_name(least, inside, tag);
    let attributes = tag.attributes.as_slice();
    let names = read_names(alloc, inside, attributes)?;
    note_attributes(alloc, least, inside, attributes, names.as_slice())?;
    Ok(())
}
