//! Envelopes.

ghost use Rattle.std.specs.Prelude.{◌≡◌, IfOk, OnOk, OnErr, IsTrue};
ghost use Rattle.std.specs.List.{list_all};
ghost use Rattle.pws_tree.specs.Lawful.{is_lawful};
ghost use Rattle.pws_tree.specs.Nodes.{nodes_of};
ghost use Rattle.pws_soap.specs.Names.{envelope_word, header_word, body_word};
ghost use Rattle.pws_soap.specs.Envelopes.{soap_tree, nodes_of_trees, root_of};
ghost use Rattle.pws_soap.specs.Faults.{envelope_around};
ghost use Rattle.pws_soap.specs.Made.{MakesEnvelope, with_headers, has_few_levels, is_lawful_body};

use crate::names::soap_name;
use pws_base::lists::ExactCopy;
use pws_base::memory::Memory;
use pws_tree::lawful::{are_lawful, has_qualified, levels};
use pws_tree::trees::{BadTree, Element, Node};
use std::alloc::Global;
use std::marker::Model;

/// An envelope: header blocks, and what the body contains. Contracts see it as an `Enveloped`.
///
/// The root that is written for it, `root_of`, is a lawful tree: the header blocks and the body's elements have at most
/// 62 levels, and no text of the body is empty or stands beside another.
#[derive(Drop)]
pub struct Envelope {
    /// The header blocks, in their order.
    headers: Vec<Element>,
    /// What the body contains.
    body: Vec<Node>,
}

impl Model for Envelope {
    ghost use Rattle.pws_soap.specs.Envelopes.{Enveloped, root_of};
    ghost use Rattle.pws_soap.specs.Made.{coded_enveloped};

    ghost Value = { Enveloped };

    ghost coded = { coded_enveloped };

    ghost use Rattle.std.specs.Prelude.{IsTrue};
    ghost use Rattle.pws_tree.specs.Lawful.{is_lawful};
    ghost use Rattle.pws_tree.specs.Nodes.{nodes_of};

    ghost view = { λ e. record { headers = e.headers.items; body = nodes_of e.body.items } };

    ghost invariant = { λ e. IsTrue (is_lawful (root_of (record { headers = e.headers.items; body = nodes_of e.body.items }))) };
}

/// Copies of all these.
fn copies<T: ExactCopy>(alloc: Global, items: &[T]) -> Result<Vec<T>, Memory>
    ensures { IfOk result (λ copied. copied.items ≡ items.now) }
{
    let mut copied = Vec::new(alloc);
    for item in items {
        copied.push(item.copy(alloc)?)?;
    }
    Ok(copied)
}

/// An element of the envelope namespace without attributes; it is lawful.
///
/// # Errors
///
/// `Memory` only.
pub fn soap_element(alloc: Global, local: &str, children: Vec<Node>) -> Result<Element, Memory>
    requires { IsTrue (is_lawful (soap_tree local.now (nodes_of children.items))) }
    ensures { IfOk result (λ t. t ≡ soap_tree local.now (nodes_of children.items)) }
{
    let name = soap_name(alloc, local)?;
    Ok(Element::of_lawful(name, Vec::new(alloc), children))
}

/// These elements as children.
fn nodes_of_elements(alloc: Global, elements: Vec<Element>) -> Result<Vec<Node>, Memory>
    ensures { IfOk result (λ nodes. nodes_of nodes.items ≡ nodes_of_trees elements.items) }
{
    let mut nodes = Vec::with_capacity(alloc, elements.len())?;
    for element in elements {
        nodes.push(Node::Element(element))?;
    }
    Ok(nodes)
}

/// The Header of these header blocks.
#[tactic(auto, unfolding(crate::specs::Names::header_word))]
fn header_element(alloc: Global, headers: Vec<Element>) -> Result<Element, Memory>
    requires { IsTrue (is_lawful (soap_tree header_word (nodes_of_trees headers.items))) }
    ensures { IfOk result (λ t. t ≡ soap_tree header_word (nodes_of_trees headers.items)) }
{
    let children = nodes_of_elements(alloc, headers)?;
    soap_element(alloc, "Header", children)
}

/// The Body of this content.
#[tactic(auto, unfolding(crate::specs::Names::body_word))]
fn body_element(alloc: Global, body: Vec<Node>) -> Result<Element, Memory>
    requires { IsTrue (is_lawful (soap_tree body_word (nodes_of body.items))) }
    ensures { IfOk result (λ t. t ≡ soap_tree body_word (nodes_of body.items)) }
{
    soap_element(alloc, "Body", body)
}

/// The Envelope of these parts.
#[tactic(auto, unfolding(crate::specs::Names::envelope_word))]
fn envelope_element(alloc: Global, parts: Vec<Node>) -> Result<Element, Memory>
    requires { IsTrue (is_lawful (soap_tree envelope_word (nodes_of parts.items))) }
    ensures { IfOk result (λ t. t ≡ soap_tree envelope_word (nodes_of parts.items)) }
{
    soap_element(alloc, "Envelope", parts)
}

/// What an Envelope contains: a Header, where there are header blocks, and a Body.
fn root_children(alloc: Global, headers: Vec<Element>, body: Vec<Node>) -> Result<Vec<Node>, Memory>
    requires { IsTrue (is_lawful (root_of (record { headers = headers.items; body = nodes_of body.items }))) }
    ensures { IfOk result (λ nodes. nodes_of nodes.items ≡ (root_of (record { headers = headers.items; body = nodes_of body.items })).children) }
{
    let body = body_element(alloc, body)?;
    if headers.is_empty() {
        return Ok(vec![in alloc; Node::Element(body)]?);
    }
    let header = header_element(alloc, headers)?;
    Ok(vec![in alloc; Node::Element(header), Node::Element(body)]?)
}

/// All elements are lawful.
fn note_lawful(elements: &[Element])
    ensures { IsTrue (list_all is_lawful elements.now) }
{
    for element in elements {
        let _levels = element.depth(); // shows: the element is lawful
    }
}

/// Whether each of these header blocks has at most 62 levels.
fn are_few(headers: &[Element]) -> bool
    ensures { result ≡ list_all has_few_levels headers.now }
{
    headers.iter().all(|block| block.depth() <= 62)
}

/// Whether a body may contain this.
fn is_lawful_body(body: &[Node]) -> bool
    ensures { result ≡ is_lawful_body (nodes_of body.now) }
{
    are_lawful(body) && !has_qualified(body) && levels(body) <= 62
}

impl Envelope {
    /// The envelope of these header blocks and this body, whose root is lawful.
    pub fn of_lawful(headers: Vec<Element>, body: Vec<Node>) -> Envelope
        requires { IsTrue (is_lawful (root_of (record { headers = headers.items; body = nodes_of body.items }))) }
        ensures { result ≡ record { headers = headers.items; body = nodes_of body.items } }
    {
        Envelope { headers, body }
    }

    /// The envelope of these header blocks and this body.
    ///
    /// # Errors
    ///
    /// `BadTree` exactly where its root would be no lawful tree.
    pub fn make(headers: Vec<Element>, body: Vec<Node>) -> Result<Envelope, BadTree>
        ensures { MakesEnvelope headers.items (nodes_of body.items) result }
    {
        note_lawful(headers.as_slice());
        if are_few(headers.as_slice()) && is_lawful_body(body.as_slice()) {
            Ok(Envelope::of_lawful(headers, body))
        } else {
            Err(BadTree)
        }
    }

    /// The envelope around one element, without header blocks; the element has at most 62 levels.
    ///
    /// # Errors
    ///
    /// `Memory` only.
    pub fn around(alloc: Global, element: Element) -> Result<Envelope, Memory>
        requires { IsTrue (has_few_levels element) }
        ensures { IfOk result (λ e. e ≡ envelope_around element) }
    {
        // shows: an element is lawful
        let _levels = element.depth();
        let body = vec![in alloc; Node::Element(element)]?;
        Ok(Envelope::of_lawful(Vec::new(alloc), body))
    }

    /// The header blocks.
    pub fn headers(&self) -> &[Element]
        ensures { result.now ≡ self.now.headers }
    {
        self.headers.as_slice()
    }

    /// What the body contains.
    pub fn body(&self) -> &[Node]
        ensures { nodes_of result.now ≡ self.now.body }
    {
        self.body.as_slice()
    }

    /// Adds header blocks behind those that there are; they have at most 62 levels.
    ///
    /// # Errors
    ///
    /// `Memory` only; nothing is added then.
    pub fn append_headers(&mut self, mut headers: Vec<Element>) -> Result<(), Memory>
        requires { IsTrue (list_all has_few_levels headers.items) }
        ensures ok { OnOk result (self.new ≡ with_headers self.old headers.items) }
        ensures err { OnErr result (self.new ≡ self.old) }
    {
        note_lawful(headers.as_slice());
        self.headers.append(&mut headers)?;
        Ok(())
    }

    /// The root that is written for this envelope.
    ///
    /// # Errors
    ///
    /// `Memory` only.
    pub fn root(&self, alloc: Global) -> Result<Element, Memory>
        ensures { IfOk result (λ t. t ≡ root_of self.now) }
    {
        let copied = self.copy(alloc)?;
        copied.into_root(alloc)
    }

    /// The root that is written for this envelope, of the elements that it has.
    ///
    /// # Errors
    ///
    /// `Memory` only.
    pub fn into_root(self, alloc: Global) -> Result<Element, Memory>
        ensures { IfOk result (λ t. t ≡ root_of self) }
    {
        let Envelope { headers, body } = self;
        let children = root_children(alloc, headers, body)?;
        envelope_element(alloc, children)
    }
}

impl ExactCopy for Envelope {
    fn copy(&self, alloc: Global) -> Result<Envelope, Memory> {
        Ok(Envelope {
            headers: copies(alloc, self.headers.as_slice())?,
            body: copies(alloc, self.body.as_slice())?,
        })
    }
}
