//! Writing the canonical text of a tree.

ghost use Rattle.std.specs.Prelude.{◌≡◌, ◌++◌, ◌∷◌, [], OnOk, IfOk, if◌then◌else◌};
ghost use Rattle.std.specs.List.{flat_map};
ghost use Rattle.pws_tree.specs.Trees.{NoNode};
ghost use Rattle.pws_tree.specs.Nodes.{node_then};
ghost use Rattle.std.specs.Fmt.{decimal};
ghost use Rattle.pws_mark.specs.Canonical.{declaration_text, text_byte, value_byte, value_text, prefix_text, name_text, attr_text, declarations_text, start_text, end_text, nodes_text, canonical};

use crate::spaces::Spaces;
use pws_base::memory::Memory;
use pws_base::writers::Writer;
use pws_tree::spaces::XML_SPACE;
use pws_tree::texts::{Attr, Name};
use pws_tree::trees::{Element, Node};
use std::alloc::Global;

/// Writes a byte of a text.
#[tactic(auto, unfolding(crate::specs::Canonical::text_byte))]
fn put_text_byte(out: &mut Writer, byte: u8) -> Result<(), Memory>
    ensures { OnOk result (out.new ≡ out.old ++ text_byte byte) }
{
    match byte {
        b'&' => out.put_bytes(b"&amp;"),
        b'<' => out.put_bytes(b"&lt;"),
        b'>' => out.put_bytes(b"&gt;"),
        b'\r' => out.put_bytes(b"&#13;"),
        _ => out.put_u8(byte),
    }
}

/// Writes a text.
fn put_text(out: &mut Writer, text: &str) -> Result<(), Memory>
    ensures { OnOk result (out.new ≡ out.old ++ flat_map text_byte text.now) }
{
    for byte in text.as_bytes() {
        put_text_byte(out, *byte)?;
    }
    Ok(())
}

/// Writes a byte of a value.
#[tactic(auto, unfolding(crate::specs::Canonical::value_byte))]
fn put_value_byte(out: &mut Writer, byte: u8) -> Result<(), Memory>
    ensures { OnOk result (out.new ≡ out.old ++ value_byte byte) }
{
    match byte {
        b'&' => out.put_bytes(b"&amp;"),
        b'<' => out.put_bytes(b"&lt;"),
        b'"' => out.put_bytes(b"&quot;"),
        b'\t' => out.put_bytes(b"&#9;"),
        b'\n' => out.put_bytes(b"&#10;"),
        b'\r' => out.put_bytes(b"&#13;"),
        _ => out.put_u8(byte),
    }
}

/// Writes the bytes of a value.
fn put_value_bytes(out: &mut Writer, value: &str) -> Result<(), Memory>
    ensures { OnOk result (out.new ≡ out.old ++ flat_map value_byte value.now) }
{
    for byte in value.as_bytes() {
        put_value_byte(out, *byte)?;
    }
    Ok(())
}

/// Writes `=` and a value in double quotes.
fn put_value(out: &mut Writer, value: &str) -> Result<(), Memory>
    ensures { OnOk result (out.new ≡ out.old ++ value_text value.now) }
{
    out.put_bytes(b"=\"")?;
    put_value_bytes(out, value)?;
    out.put_u8(b'"')
}

/// Writes a number.
fn put_number(alloc: Global, out: &mut Writer, number: usize) -> Result<(), Memory>
    ensures { OnOk result (out.new ≡ out.old ++ decimal number) }
{
    let digits = format!(in alloc; "{number}")?;
    out.put_bytes(digits.as_bytes())
}

/// Writes the prefix of a namespace.
#[tactic(auto, unfolding(crate::specs::Canonical::xml_space, crate::specs::Canonical::xml_word))]
fn put_prefix(
    alloc: Global,
    out: &mut Writer,
    spaces: &Spaces<'_>,
    space: &str,
) -> Result<(), Memory>
    ensures { OnOk result (out.new ≡ out.old ++ prefix_text spaces.now space.now) }
{
    if space == XML_SPACE {
        return out.put_bytes(b"xml");
    }
    out.put_u8(b'n')?;
    put_number(alloc, out, spaces.place(space).unwrap_or(0))
}

/// Writes a name.
fn put_name(alloc: Global, out: &mut Writer, spaces: &Spaces<'_>, name: &Name) -> Result<(), Memory>
    ensures { OnOk result (out.new ≡ out.old ++ name_text spaces.now name.now) }
{
    let local = name.local.as_str().as_bytes();
    if name.space.as_str() == "" {
        return out.put_bytes(local);
    }
    put_prefix(alloc, out, spaces, name.space.as_str())?;
    out.put_u8(b':')?;
    out.put_bytes(local)
}

/// Writes an attribute with the space before it.
fn put_attr(alloc: Global, out: &mut Writer, spaces: &Spaces<'_>, attr: &Attr) -> Result<(), Memory>
    ensures { OnOk result (out.new ≡ out.old ++ attr_text spaces.now attr.now) }
{
    out.put_u8(b' ')?;
    put_name(alloc, out, spaces, &attr.name)?;
    put_value(out, attr.value.as_str())
}

/// Writes attributes.
fn put_attrs(
    alloc: Global,
    out: &mut Writer,
    spaces: &Spaces<'_>,
    attrs: &[Attr],
) -> Result<(), Memory>
    ensures { OnOk result (out.new ≡ out.old ++ flat_map (attr_text spaces.now) attrs.now) }
{
    for attr in attrs {
        put_attr(alloc, out, spaces, attr)?;
    }
    Ok(())
}

/// Writes the declaration of a namespace.
#[tactic(auto, unfolding(crate::specs::Canonical::declaration_word))]
fn put_declaration(alloc: Global, out: &mut Writer, place: usize, space: &str) -> Result<(), Memory>
    ensures { OnOk result (out.new ≡ out.old ++ declaration_text (place, space.now)) }
{
    out.put_bytes(b" xmlns:n")?;
    put_number(alloc, out, place)?;
    put_value(out, space)
}

/// Writes the declarations of all namespaces.
fn put_declarations(alloc: Global, out: &mut Writer, spaces: &Spaces<'_>) -> Result<(), Memory>
    ensures { OnOk result (out.new ≡ out.old ++ declarations_text spaces.now) }
{
    for place in 0..spaces.len() {
        match spaces.get(place) {
            Some(space) => put_declaration(alloc, out, place, space)?,
            None => {}
        }
    }
    Ok(())
}

/// Writes `<` and a name.
fn put_open(alloc: Global, out: &mut Writer, spaces: &Spaces<'_>, name: &Name) -> Result<(), Memory>
    ensures { OnOk result (out.new ≡ out.old ++ 60 ∷ name_text spaces.now name.now) }
{
    out.put_u8(b'<')?;
    put_name(alloc, out, spaces, name)
}

/// Writes the start tag of an element inside.
fn put_start(
    alloc: Global,
    out: &mut Writer,
    spaces: &Spaces<'_>,
    element: &Element,
) -> Result<(), Memory>
    ensures { OnOk result (out.new ≡ out.old ++ start_text spaces.now [] element.now.name element.now.attrs) }
{
    put_open(alloc, out, spaces, element.name())?;
    put_attrs(alloc, out, spaces, element.attrs())?;
    out.put_u8(b'>')
}

/// Writes the start tag of the root, which has all declarations.
fn put_root_start(
    alloc: Global,
    out: &mut Writer,
    spaces: &Spaces<'_>,
    element: &Element,
) -> Result<(), Memory>
    ensures { OnOk result (out.new ≡ out.old ++ start_text spaces.now (declarations_text spaces.now) element.now.name element.now.attrs) }
{
    put_open(alloc, out, spaces, element.name())?;
    put_declarations(alloc, out, spaces)?;
    put_attrs(alloc, out, spaces, element.attrs())?;
    out.put_u8(b'>')
}

/// Writes an end tag.
fn put_end(alloc: Global, out: &mut Writer, spaces: &Spaces<'_>, name: &Name) -> Result<(), Memory>
    ensures { OnOk result (out.new ≡ out.old ++ end_text spaces.now name.now) }
{
    out.put_bytes(b"</")?;
    put_name(alloc, out, spaces, name)?;
    out.put_u8(b'>')
}

/// Writes what an element contains.
#[cycle(putting)]
fn put_children(
    alloc: Global,
    out: &mut Writer,
    spaces: &Spaces<'_>,
    element: &Element,
) -> Result<(), Memory>
    ensures { OnOk result (out.new ≡ out.old ++ nodes_text spaces.now element.now.children) }
{
    for child in element.children() {
        put_child(alloc, out, spaces, child)?;
    }
    Ok(())
}

/// Writes a child.
#[cycle(putting)]
fn put_child(
    alloc: Global,
    out: &mut Writer,
    spaces: &Spaces<'_>,
    child: &Node,
) -> Result<(), Memory>
    ensures { OnOk result (out.new ≡ out.old ++ nodes_text spaces.now (node_then child.now NoNode)) }
{
    match child {
        Node::Text(text) => put_text(out, text.as_str()),
        Node::Qualified(name) => put_name(alloc, out, spaces, name),
        Node::Element(element) => {
            put_start(alloc, out, spaces, element)?;
            put_children(alloc, out, spaces, element)?;
            put_end(alloc, out, spaces, element.name())
        }
    }
}

/// The canonical text of an element, in UTF-8.
///
/// # Errors
///
/// `Memory` only.
pub fn write_element(alloc: Global, element: &Element) -> Result<Vec<u8>, Memory>
    ensures { IfOk result (λ text. text.items ≡ canonical element.now) }
{
    let spaces = Spaces::of_tree(alloc, element)?;
    let mut out = Writer::new(alloc);
    put_root_start(alloc, &mut out, &spaces, element)?;
    put_children(alloc, &mut out, &spaces, element)?;
    put_end(alloc, &mut out, &spaces, element.name())?;
    Ok(out.into_bytes().into_vec())
}
