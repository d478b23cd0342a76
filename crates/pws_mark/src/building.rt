//! The tree of what was read.

ghost use Rattle.std.specs.Prelude.{◌≡◌, ◌<◌, length, IfOk, OnOk, IsTrue};
ghost use Rattle.pws_tree.specs.Lawful.{is_lawful};
ghost use Rattle.pws_mark.specs.Frames.{frame_tree, MayTake, Takes, Adds, MayBuild};
ghost use Rattle.pws_mark.specs.ReaderLaws.{Builds};
ghost use Rattle.pws_mark.specs.declared.modes.Event.TheVariants as event;

use crate::modes::Event;
use pws_base::lists::Sequence;
use pws_base::memory::Memory;
use pws_tree::texts::{Attr, Name};
use pws_tree::trees::{Element, Node};
use std::alloc::Global;

/// An open element, and what it contains so far.
#[derive(Drop)]
pub struct Frame {
    name: Name,
    attrs: Sequence<Attr>,
    children: Sequence<Node>,
}

/// The open elements, the outermost first.
#[derive(Drop)]
struct Frames {
    frames: Vec<Frame>,
}

impl Frame {
    /// The element, which is lawful.
    fn into_element(self) -> Element
        requires { IsTrue (is_lawful (frame_tree self)) }
        ensures { result ≡ frame_tree self }
    {
        let Frame {
            name,
            attrs,
            children,
        } = self;
        Element::of_parts(name, attrs.into_vec(), children.into_vec())
    }
}

impl Frames {
    /// One more node of the innermost element.
    fn add(&mut self, node: Node) -> Result<(), Memory>
        requires { 0 < length self.old.frames.items }
        ensures { OnOk result (Adds self.old.frames.items node self.new.frames.items) }
    {
        let Some(frame) = self.frames.last_mut() else {
            unreachable!()
        };
        frame.children.push(node)?;
        Ok(())
    }

    /// The innermost element ends, and is given where it is the outermost one.
    fn close(&mut self) -> Result<Option<Element>, Memory>
        requires { MayTake self.old.frames.items event.Close }
        ensures { IfOk result (λ e. Takes self.old.frames.items event.Close e self.new.frames.items) }
    {
        let Some(frame) = self.frames.pop() else {
            unreachable!()
        };
        let element = frame.into_element();
        if self.frames.is_empty() {
            return Ok(Some(element));
        }
        self.add(Node::Element(element))?;
        Ok(None)
    }

    /// The next event; the outermost element is given where it ends.
    fn take(&mut self, alloc: Global, event: Event) -> Result<Option<Element>, Memory>
        requires { MayTake self.old.frames.items event }
        ensures { IfOk result (λ e. Takes self.old.frames.items event e self.new.frames.items) }
    {
        match event {
            Event::Open(name, attrs) => {
                self.frames.push(Frame {
                    name,
                    attrs,
                    children: Sequence::new(alloc),
                })?;
            }
            Event::Text(text) => self.add(Node::Text(text))?,
            Event::Qualified(name) => self.add(Node::Qualified(name))?,
            Event::Close => return self.close(),
        }
        Ok(None)
    }
}

/// The lawful tree that these events build.
///
/// # Errors
///
/// `Memory` only.
pub fn build(alloc: Global, events: Sequence<Event>) -> Result<Element, Memory>
    requires { MayBuild events }
    ensures { IfOk result (λ t. Builds events t) }
{
    let mut frames = Frames {
        frames: Vec::new(alloc),
    };
    for event in events.into_vec() {
        if let Some(element) = frames.take(alloc, event)? {
            return Ok(element);
        }
    }
    unreachable!()
}
