//! Texts that a script makes.

ghost use Rattle.std.specs.Prelude.{◌≡◌, ◌++◌, decimal, IfOk};

use itoa::Buffer;
use pws_base::lists::ExactCopy;
use pws_base::memory::Memory;
use pws_script::operands::Text;
use pws_tree::xml_texts::XmlText;
use std::alloc::Global;

/// The text of a literal.
#[tactic(auto, using(crate::proofs::XmlTexts::literal_xml))]
pub(crate) fn literal_text(alloc: Global, literal: &Text) -> Result<XmlText, Memory>
    ensures { IfOk result (λ t. t ≡ literal.now) }
{
    XmlText::from_str(alloc, literal.as_str())
}

/// The digits of a number.
#[tactic(auto, using(crate::proofs::XmlTexts::decimal_xml))]
pub(crate) fn digits(alloc: Global, n: u64) -> Result<XmlText, Memory>
    ensures { IfOk result (λ t. t ≡ decimal n) }
{
    let mut buffer = Buffer::new();
    XmlText::from_str(alloc, buffer.format(n))
}

/// Both texts, one after the other.
pub(crate) fn joined(alloc: Global, left: &XmlText, right: &XmlText) -> Result<XmlText, Memory>
    ensures { IfOk result (λ t. t ≡ left.now ++ right.now) }
{
    let mut text = left.copy(alloc)?;
    text.push_str(right.as_str())?;
    Ok(text)
}
