//! Trees that are built step by step.

use crate::elements::tell_element;
use crate::names::Spaces;
use pws_base::memory::Memory;
use pws_scenarios::layers::StepError;
use pws_scenarios::reading::Step;
use pws_scenarios::texts::text_of;
use pws_tree::texts::{Attr, Name, Text};
use pws_tree::trees::{Element, Node};
use std::alloc::Global;

/// An element that isn't closed.
#[derive(Drop)]
struct Open {
    name: Name,
    attrs: Vec<Attr>,
    children: Vec<Node>,
}

/// The elements that aren't closed, the outermost first, and the last one that is in no other.
#[derive(Drop)]
pub struct Trees {
    spaces: Spaces,
    open: Vec<Open>,
    tree: Option<Element>,
}

/// These bytes as a text, if they are UTF-8.
fn text_in(alloc: Global, bytes: &[u8]) -> Result<Option<Text>, Memory> {
    match str::from_utf8(bytes) {
        Ok(text) => Ok(Some(Text::from_str(alloc, text)?)),
        Err(_) => Ok(None),
    }
}

impl Trees {
    /// No tree.
    pub fn new(alloc: Global) -> Trees {
        Trees {
            spaces: Spaces::new(alloc),
            open: Vec::new(alloc),
            tree: None,
        }
    }

    /// The element that was built, if there is one.
    pub fn take_tree(&mut self) -> Option<Element> {
        self.tree.take()
    }

    fn open(&mut self, alloc: Global, name: Name) -> Result<(), StepError> {
        let (attrs, children) = (Vec::new(alloc), Vec::new(alloc));
        Ok(
            self.open.push(Open {
                name,
                attrs,
                children,
            })?,
        )
    }

    fn add_attr(&mut self, attr: Attr) -> Result<(), StepError> {
        match self.open.last_mut() {
            Some(open) => Ok(open.attrs.push(attr)?),
            None => Err(StepError::Expected("an element that is open")),
        }
    }

    fn add_child(&mut self, child: Node) -> Result<(), StepError> {
        match self.open.last_mut() {
            Some(open) => Ok(open.children.push(child)?),
            None => Err(StepError::Expected("an element that is open")),
        }
    }

    /// Closes the element that was opened last.
    fn close(&mut self, alloc: Global, answers: &mut Vec<String>) -> Result<(), StepError> {
        let Some(last) = self.open.pop() else {
            return Err(StepError::Expected("an element that is open"));
        };
        let Open {
            name,
            attrs,
            children,
        } = last;
        let Ok(element) = Element::make(name, attrs, children) else {
            let answer = format!(in alloc; "no such element")?;
            return Ok(answers.push(answer)?);
        };
        if self.open.is_empty() {
            self.tree = Some(element);
            return Ok(());
        }
        self.add_child(Node::Element(element))
    }

    /// Takes a step with a name.
    fn step_named(
        &mut self,
        alloc: Global,
        step: &Step,
        word: &str,
        name: Name,
    ) -> Result<(), StepError> {
        match word {
            "open" => self.open(alloc, name),
            "qualified" => self.add_child(Node::Qualified(name)),
            "attribute" => match text_in(alloc, &text_of(alloc, &step.text)?)? {
                Some(value) => self.add_attr(Attr { name, value }),
                None => Err(StepError::Expected("a text in UTF-8")),
            },
            _ => Err(StepError::NoSuchStep),
        }
    }

    /// Takes a step.
    ///
    /// # Errors
    ///
    /// Why the step wasn't taken.
    pub fn step(
        &mut self,
        alloc: Global,
        step: &Step,
        answers: &mut Vec<String>,
    ) -> Result<(), StepError> {
        match step.words.as_slice() {
            ["space", prefix, uri] => Ok(self.spaces.add(alloc, prefix, uri)?),
            ["text"] => match text_in(alloc, &text_of(alloc, &step.text)?)? {
                Some(text) => self.add_child(Node::Text(text)),
                None => Err(StepError::Expected("a text in UTF-8")),
            },
            ["close"] => self.close(alloc, answers),
            ["element"] => match self.take_tree() {
                Some(tree) => tell_element(alloc, &tree, answers),
                None => Err(StepError::Expected("a tree before it")),
            },
            [word, name] => match self.spaces.name(alloc, name)? {
                Some(name) => self.step_named(alloc, step, word, name),
                None => Err(StepError::Expected("a prefix that `space` gives")),
            },
            _ => Err(StepError::NoSuchStep),
        }
    }
}
