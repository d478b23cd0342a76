//! Names as written.

ghost use Rattle.std.specs.Prelude.{◌≡◌, ◌<◌, ◌==◌, not, length, IsTrue, option_map, encode_utf8_all, IfOk};
ghost use Rattle.std.specs.List.{prefix_len};
ghost use Rattle.pws_mark.specs.Bindings.{has_colon, written_prefix, written_local, has_two_colons};
ghost use Rattle.pws_mark.specs.States.{prefix_declared};

use pws_base::lists::Sequence;
use pws_base::memory::Memory;
use pws_tree::texts::Text;
use std::alloc::Global;

/// Whether a name has a colon.
pub fn has_colon(name: &[char]) -> bool
    ensures { result ≡ has_colon name.now }
{
    name.iter().any(|c| *c == ':')
}

/// How many characters stand before the first colon.
fn colon_place(name: &[char]) -> usize
    requires { IsTrue (has_colon name.now) }
    ensures place { result ≡ prefix_len (λ c. not (c == 58)) name.now }
    ensures within { result < length name.now }
{
    for place in 0..name.len() {
        if name[place] == ':' {
            return place;
        }
    }
    name.len()
}

/// The prefix of a name, which is empty where the name has no colon.
pub fn written_prefix<'a>(name: &'a [char]) -> &'a [char]
    ensures { result.now ≡ written_prefix name.now }
{
    if has_colon(name) {
        &name[..colon_place(name)]
    } else {
        &[]
    }
}

/// The name behind its prefix.
pub fn written_local<'a>(name: &'a [char]) -> &'a [char]
    ensures { result.now ≡ written_local name.now }
{
    if has_colon(name) {
        &name[colon_place(name) + 1..]
    } else {
        name
    }
}

/// Whether a name has more than one colon.
pub fn has_two_colons(name: &[char]) -> bool
    ensures { result ≡ has_two_colons name.now }
{
    has_colon(written_local(name))
}

/// The prefix that an attribute of this name declares; the empty one stands for the default namespace.
#[tactic(auto, unfolding(crate::specs::Bindings::xmlns_word))]
pub fn prefix_declared<'a>(name: &'a [char]) -> Option<&'a [char]>
    ensures { option_map (λ b. b.now) result ≡ prefix_declared name.now }
{
    let xmlns = ['x', 'm', 'l', 'n', 's'];
    if name == xmlns.as_slice() {
        return Some(&[]);
    }
    if has_colon(name) && written_prefix(name) == xmlns.as_slice() {
        return Some(written_local(name));
    }
    None
}

/// The text of these characters.
///
/// # Errors
///
/// `Memory` only.
pub fn text_of(alloc: Global, chars: &[char]) -> Result<Text, Memory>
    ensures { IfOk result (λ t. t ≡ encode_utf8_all chars.now) }
{
    let mut text = String::new(alloc);
    for c in chars {
        text.push(*c)?;
    }
    Ok(Text::from_string(text))
}

/// A list of these characters.
///
/// # Errors
///
/// `Memory` only.
pub fn letters_of(alloc: Global, chars: &[char]) -> Result<Sequence<char>, Memory>
    ensures { IfOk result (λ letters. letters ≡ chars.now) }
{
    let mut letters = Sequence::new(alloc);
    for c in chars {
        letters.push(*c)?;
    }
    Ok(letters)
}
