//! Trees of elements: what the text of an envelope stands for.
//!
//! - `texts` has texts, names in namespaces, and attributes; `xml_texts` has texts of XML characters alone.
//! - `characters` tells which characters XML and its names have, and `lawful` which names, attributes and
//!   children an element may have.
//! - `spaces` has the namespaces that the rules name.
//! - `trees` has elements. `Element::make` finds out whether parts make one, and `of_lawful` makes one of parts that are
//!   known to; so each element that there is keeps the rules. `copy` gives an equal one, and `same` tells whether two are
//!   one tree.
//!
//! The one contract that all above rely on: an element is lawful. Contracts see it as a `Tree`, whose attributes
//! stand in the order of their names, since the order of attributes means nothing in XML; so two elements are the
//! same exactly where contracts see one value.
//!
//! On this layer stand `pws_mark`, the text of elements, and `pws_soap`, envelopes.
#![tactic(auto)]

pub mod characters;
pub mod lawful;
pub mod spaces;
pub mod texts;
pub mod trees;
pub mod xml_texts;
