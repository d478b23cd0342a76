//! Faults, and the envelope round one.

ghost use Rattle.std.specs.Prelude.{◌≡◌, ◌↔◌, ◌&&◌, [], ◌∷◌, IfOk, IsTrue};
ghost use Rattle.std.specs.Option.{option_copied};
ghost use Rattle.pws_tree.specs.Nodes.{nodes_of};
ghost use Rattle.pws_soap.specs.Names.{soap_name};
ghost use Rattle.pws_tree.specs.Characters.{is_xml_text};
ghost use Rattle.pws_tree.specs.Names.{is_lawful_name};
ghost use Rattle.pws_soap.specs.Faults.{is_lawful_subcode, word_of, value_tree, subcode_tree, code_nodes, code_tree, text_nodes, language, text_tree, reason_tree, fault_tree, envelope_around};
ghost use Rattle.pws_soap.specs.MadeFaults.{MakesFault};

use crate::envelopes::{Envelope, soap_element};
use crate::names::soap_name;
use pws_base::lists::ExactCopy;
use pws_base::memory::Memory;
use pws_tree::characters::is_xml_text;
use pws_tree::lawful::is_lawful_name;
use pws_tree::spaces::XML_SPACE;
use pws_tree::texts::{Attr, Name, Text};
use pws_tree::trees::{Element, Node};
use std::alloc::Global;
use std::marker::Model;
use thiserror::Error;

/// The codes of faults: SOAP 1.2 Part 1, section 5.4.6.
#[derive(Clone, Copy, Debug, PartialEq, Eq)]
pub enum FaultCode {
    /// The sender's message can't be taken as it is.
    Sender,
    /// The receiver can't handle the message now.
    Receiver,
    /// The message is none of this version of SOAP.
    VersionMismatch,
    /// A header block must be understood and isn't.
    MustUnderstand,
    /// An encoding of data isn't supported. It is never made by this project.
    DataEncodingUnknown,
}

/// A fault: a code, maybe a subcode, and a reason in English. Contracts see it as a `Faulted`.
///
/// Its subcode is a lawful name, and its subcode and its reason have XML characters alone.
#[derive(Drop)]
pub struct Fault {
    code: FaultCode,
    subcode: Option<Name>,
    reason: Text,
}

impl Model for Fault {
    ghost use Rattle.pws_soap.specs.Faults.{Faulted, is_lawful_fault};

    ghost Value = { Faulted };

    ghost use Rattle.std.specs.Prelude.{IsTrue};

    ghost view = { λ f. record { code = f.code; subcode = f.subcode; reason = f.reason } };

    ghost invariant = { λ f. IsTrue (is_lawful_fault (record { code = f.code; subcode = f.subcode; reason = f.reason })) };
}

/// The parts make no fault.
#[derive(Clone, Copy, Debug, PartialEq, Eq, Error)]
#[error("no fault has these parts")]
pub struct BadFault;

/// Whether this may be a subcode.
fn is_lawful_subcode(subcode: &Option<Name>) -> bool
    ensures { result ≡ is_lawful_subcode subcode.now }
{
    match subcode {
        Some(name) => is_lawful_name(name),
        None => true,
    }
}

impl Fault {
    /// The fault of these parts.
    ///
    /// # Errors
    ///
    /// `BadFault` exactly where the subcode is no lawful name, or the reason has other than XML characters.
    pub fn make(code: FaultCode, subcode: Option<Name>, reason: Text) -> Result<Fault, BadFault>
        ensures { MakesFault (record { code = code; subcode = subcode; reason = reason }) result }
    {
        if is_lawful_subcode(&subcode) && is_xml_text(reason.as_str()) {
            Ok(Fault {
                code,
                subcode,
                reason,
            })
        } else {
            Err(BadFault)
        }
    }

    /// The code.
    pub fn code(&self) -> FaultCode
        ensures { result ≡ self.now.code }
    {
        self.code
    }

    /// The subcode, where there is one.
    pub fn subcode(&self) -> Option<&Name>
        ensures { option_copied result ≡ self.now.subcode }
    {
        self.subcode.as_ref()
    }

    /// The reason.
    pub fn reason(&self) -> &str
        ensures { result.now ≡ self.now.reason }
    {
        self.reason.as_str()
    }
}

impl ExactCopy for Fault {
    fn copy(&self, alloc: Global) -> Result<Fault, Memory> {
        let subcode = match &self.subcode {
            Some(name) => Some(name.copy(alloc)?),
            None => None,
        };
        Ok(Fault {
            code: self.code,
            subcode,
            reason: self.reason.copy(alloc)?,
        })
    }
}

/// The local name of a code.
#[tactic(auto, unfolding(crate::specs::Faults::word_of))]
fn word_of(code: FaultCode) -> &'static str
    ensures { result.now ≡ word_of code }
{
    match code {
        FaultCode::Sender => "Sender",
        FaultCode::Receiver => "Receiver",
        FaultCode::VersionMismatch => "VersionMismatch",
        FaultCode::MustUnderstand => "MustUnderstand",
        FaultCode::DataEncodingUnknown => "DataEncodingUnknown",
    }
}

/// A `Value` with a name.
#[tactic(auto, unfolding(pws_tree::specs::Names::value_word))]
fn value_element(alloc: Global, name: Name) -> Result<Element, Memory>
    requires { IsTrue (is_lawful_name name) }
    ensures { IfOk result (λ t. t ≡ value_tree name) }
{
    let children = vec![in alloc; Node::Qualified(name)]?;
    soap_element(alloc, "Value", children)
}

/// A `Subcode` with a name in its `Value`.
#[tactic(auto, unfolding(crate::specs::Names::subcode_word))]
fn subcode_element(alloc: Global, name: Name) -> Result<Element, Memory>
    requires { IsTrue (is_lawful_name name) }
    ensures { IfOk result (λ t. t ≡ subcode_tree name) }
{
    let value = value_element(alloc, name)?;
    let children = vec![in alloc; Node::Element(value)]?;
    soap_element(alloc, "Subcode", children)
}

/// The `Value` of a code.
fn code_value(alloc: Global, code: FaultCode) -> Result<Element, Memory>
    ensures { IfOk result (λ t. t ≡ value_tree (soap_name (word_of code))) }
{
    let name = soap_name(alloc, word_of(code))?;
    value_element(alloc, name)
}

/// What a `Code` contains: its `Value`, and behind it the `Subcode`, where there is one.
fn code_children(
    alloc: Global,
    code: FaultCode,
    subcode: &Option<Name>,
) -> Result<Vec<Node>, Memory>
    requires { IsTrue (is_lawful_subcode subcode.now) }
    ensures { IfOk result (λ nodes. nodes_of nodes.items ≡ code_nodes code subcode.now) }
{
    let value = code_value(alloc, code)?;
    match subcode {
        Some(name) => {
            let subcode = subcode_element(alloc, name.copy(alloc)?)?;
            Ok(vec![in alloc; Node::Element(value), Node::Element(subcode)]?)
        }
        None => Ok(vec![in alloc; Node::Element(value)]?),
    }
}

/// The `Code` of a fault.
#[tactic(auto, unfolding(crate::specs::Names::code_word))]
fn code_element(alloc: Global, code: FaultCode, subcode: &Option<Name>) -> Result<Element, Memory>
    requires { IsTrue (is_lawful_subcode subcode.now) }
    ensures { IfOk result (λ t. t ≡ code_tree code subcode.now) }
{
    let children = code_children(alloc, code, subcode)?;
    soap_element(alloc, "Code", children)
}

/// The attribute `xml:lang` for English: XML 1.0 fifth edition, section 2.12.
#[tactic(auto, unfolding(pws_mark::specs::Canonical::xml_space, crate::specs::Names::lang_word, crate::specs::Names::english))]
fn language(alloc: Global) -> Result<Attr, Memory>
    ensures { IfOk result (λ a. a ≡ language) }
{
    Ok(Attr {
        name: Name {
            space: Text::from_str(alloc, XML_SPACE)?,
            local: Text::from_str(alloc, "lang")?,
        },
        value: Text::from_str(alloc, "en")?,
    })
}

/// What the `Text` of a reason contains.
fn text_children(alloc: Global, reason: &Text) -> Result<Vec<Node>, Memory>
    ensures { IfOk result (λ nodes. nodes_of nodes.items ≡ text_nodes reason.now) }
{
    if reason.is_empty() {
        return Ok(Vec::new(alloc));
    }
    let text = reason.copy(alloc)?;
    Ok(vec![in alloc; Node::Text(text)]?)
}

/// The `Text` of a reason.
#[tactic(auto, unfolding(crate::specs::Names::text_word))]
fn text_element(alloc: Global, reason: &Text) -> Result<Element, Memory>
    requires { IsTrue (is_xml_text reason.now) }
    ensures { IfOk result (λ t. t ≡ text_tree reason.now) }
{
    let children = text_children(alloc, reason)?;
    let attrs = vec![in alloc; language(alloc)?]?;
    let name = soap_name(alloc, "Text")?;
    Ok(Element::of_lawful(name, attrs, children))
}

/// The `Reason` of a fault.
#[tactic(auto, unfolding(crate::specs::Names::reason_word))]
fn reason_element(alloc: Global, reason: &Text) -> Result<Element, Memory>
    requires { IsTrue (is_xml_text reason.now) }
    ensures { IfOk result (λ t. t ≡ reason_tree reason.now) }
{
    let text = text_element(alloc, reason)?;
    let children = vec![in alloc; Node::Element(text)]?;
    soap_element(alloc, "Reason", children)
}

/// The `Fault` element of a fault.
#[tactic(auto, unfolding(crate::specs::Names::fault_word))]
fn fault_element(alloc: Global, fault: &Fault) -> Result<Element, Memory>
    ensures { IfOk result (λ t. t ≡ fault_tree fault.now) }
{
    let code = code_element(alloc, fault.code, &fault.subcode)?;
    let reason = reason_element(alloc, &fault.reason)?;
    let children = vec![in alloc; Node::Element(code), Node::Element(reason)]?;
    soap_element(alloc, "Fault", children)
}

/// The envelope round a fault, without header blocks: SOAP 1.2 Part 1, section 5.4.
///
/// # Errors
///
/// `Memory` only.
pub fn fault_envelope(alloc: Global, fault: &Fault) -> Result<Envelope, Memory>
    ensures { IfOk result (λ e. e ≡ envelope_around (fault_tree fault.now)) }
{
    Envelope::around(alloc, fault_element(alloc, fault)?)
}
