//! Header blocks: whom one is for, and whether it must be understood.

ghost use Rattle.std.specs.Prelude.{◌≡◌};
ghost use Rattle.std.specs.Option.{option_copied};
ghost use Rattle.pws_soap.specs.Blocks.{attribute_of, is_own_role, is_for_node, says_true, says_false, is_well_marked, must_be_understood, is_not_understood};

use crate::names::{is_addressing_header, is_soap_name};
use crate::white::trim;
use pws_tree::texts::Attr;
use pws_tree::trees::Element;

/// The role in which every receiver acts: SOAP 1.2 Part 1, section 2.2.
const NEXT_ROLE: &str = "http://www.w3.org/2003/05/soap-envelope/role/next";

/// The role in which the last receiver acts.
const ULTIMATE_ROLE: &str = "http://www.w3.org/2003/05/soap-envelope/role/ultimateReceiver";

/// The attribute of the envelope namespace with this local name.
fn attribute_of<'a>(word: &str, attrs: &'a [Attr]) -> Option<&'a Attr>
    ensures { option_copied result ≡ attribute_of word.now attrs.now }
{
    attrs.iter().find(|attr| is_soap_name(word, &attr.name))
}

/// Whether this node acts in a role.
#[tactic(auto, unfolding(crate::specs::Names::next_role, crate::specs::Names::ultimate_role))]
fn is_own_role(role: &str) -> bool
    ensures { result ≡ is_own_role role.now }
{
    let role = trim(role);
    role == NEXT_ROLE || role == ULTIMATE_ROLE
}

/// Whether a header block is for this node: it has no `role`, or that of the next or of the last receiver. White space
/// round a role doesn't count.
#[tactic(auto, unfolding(crate::specs::Names::role_word))]
pub fn is_for_node(block: &Element) -> bool
    ensures { result ≡ is_for_node block.now }
{
    match attribute_of("role", block.attrs()) {
        Some(role) => is_own_role(role.value.as_str()),
        None => true,
    }
}

fn says_true(value: &str) -> bool
    ensures { result ≡ says_true value.now }
{
    let value = trim(value);
    value == "true" || value == "1"
}

fn says_false(value: &str) -> bool
    ensures { result ≡ says_false value.now }
{
    let value = trim(value);
    value == "false" || value == "0"
}

/// Whether the `mustUnderstand` of a header block, where it has one, is a truth value.
#[tactic(auto, unfolding(crate::specs::Names::must_understand_word))]
pub fn is_well_marked(block: &Element) -> bool
    ensures { result ≡ is_well_marked block.now }
{
    match attribute_of("mustUnderstand", block.attrs()) {
        Some(demand) => says_true(demand.value.as_str()) || says_false(demand.value.as_str()),
        None => true,
    }
}

/// Whether a header block demands that the node that it is for understands it.
#[tactic(auto, unfolding(crate::specs::Names::must_understand_word))]
pub fn must_be_understood(block: &Element) -> bool
    ensures { result ≡ must_be_understood block.now }
{
    match attribute_of("mustUnderstand", block.attrs()) {
        Some(demand) => says_true(demand.value.as_str()),
        None => false,
    }
}

/// Whether a header block is for this node, must be understood, and is none of the addressing headers.
pub fn is_not_understood(block: &Element) -> bool
    ensures { result ≡ is_not_understood block.now }
{
    is_for_node(block) && must_be_understood(block) && !is_addressing_header(block.name())
}
