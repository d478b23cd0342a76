//! The text of elements.
//!
//! - `errors` tells what is refused in a text, and where.
//! - `reading` reads a text as an element.
//! - `spaces` lists the namespaces that a tree uses, in order of first use.
//! - `writing` writes the canonical text of a tree.
//! - `laws` has what holds of canonical texts, and of what texts stand for.
//!
//! In specs/, `Documents` has the documents and their spelling, `Digits`, `Tokens`, `Grammar` and `Beginnings` tell which
//! are in the grammar, `Bindings`, `Values` and `Meaning` give the tree that a document stands for, `Faults` what is
//! refused in one, `Places` and `Causes` what refuses a text, `Reading` what reading answers, and `Canonical` the text
//! that is written.
//!
//! Reading takes one character after another (`scan`), outside of tags (`steps`, `declaring`, `references`) and in them
//! (`tag_steps`, `values`); `outer` keeps the open elements and what was read, `tags`, `seen`, `scopes` and `resolving`
//! have the attributes and the namespaces of a tag, `words` the names in `Value`, `least` the least refusal, `stopping`
//! what is refused where no character fits, and `building` the tree of what was read. Their definitions (`Scan`, `Noted`,
//! `States` and others) are for the proofs: by the private laws of `reader_laws` the reader takes each document whole,
//! what it read begins a document, and what refuses a text is what it finds in it.
//!
//! The contracts: `read_element` answers by `Reads`, the tree that the text stands for, or what comes first of all that
//! refuses it, with its place. `write_element` gives the canonical text, `canonical`, of the tree; by the laws it stands
//! for that tree, and no other tree has it. On this layer stands `pws_soap`, the envelopes.
#![tactic(auto)]

mod building;
mod counts;
mod declaring;
pub mod errors;
pub mod laws;
mod least;
mod modes;
mod names;
mod outer;
mod reader_laws;
pub mod reading;
mod references;
mod resolving;
mod scan;
mod scopes;
mod seen;
mod spaces;
mod steps;
mod stopping;
mod tag_steps;
mod tags;
mod values;
mod words;
pub mod writing;

ghost use Rattle.pws_mark.specs.Examples.{WorkedTexts};
ghost use Rattle.pws_mark.specs.Texts.{TextsReadBack, ValuesReadBack};
ghost use Rattle.pws_mark.specs.CharacterTable.{CharactersAgree};

/// The definitions agree with worked texts: some that stand for a tree, with the text that it is written as, and some
/// with a cause of refusal and its place.
pub fn worked_texts()
    ensures { WorkedTexts }
{}

/// A text that is written canonically is in the grammar, and stands for itself.
pub fn texts_read_back()
    ensures { TextsReadBack }
{}

/// A value that is written canonically may stand between double quotes, and stands for itself.
pub fn values_read_back()
    ensures { ValuesReadBack }
{}

/// The sets of characters agree with a table of characters at the ends of their ranges.
pub fn character_table()
    ensures { CharactersAgree }
{}
