//! What is around a token: the open elements, and what was read.

ghost use Rattle.std.specs.Prelude.{◌≡◌, ◌&&◌, nat_le, ◌<◌, length, ◌++◌, [], ◌∷◌, OnOk, IfOk};
ghost use Rattle.std.specs.Bool.{OnTrue};
ghost use Rattle.std.specs.String.{string_bytes};
ghost use Rattle.pws_mark.specs.Least.{lowered};
ghost use Rattle.pws_mark.specs.Meaning.{char_text};
ghost use Rattle.pws_mark.specs.Noted.{tag_finds, start_finds, hollow_finds, end_finds, word_finds};
ghost use Rattle.pws_mark.specs.Scan.{region, outside};
ghost use Rattle.pws_mark.specs.Scanning.{ended_in};
ghost use Rattle.pws_mark.specs.Scopes.{Begins, IsOpened, name_has, name_ends};
ghost use Rattle.pws_mark.specs.States.{bound_at, is_empty, spoiled, read_bound, flushed, started, hollowed, taken, qualified_event};
ghost use Rattle.pws_mark.specs.Stopping.{name_char_at};
ghost use Rattle.pws_mark.specs.declared.modes.Event.TheVariants as event;

use crate::errors::MarkKind;
use crate::least::Least;
use crate::modes::{Event, ReadTag, Region};
use crate::resolving::{Inside, is_value_name, or_no_name};
use crate::scopes::{OpenElement, Opens, Scope};
use crate::tags::{attrs_of, note_tag, scope_of};
use crate::words::qualified_name;
use pws_base::lists::Sequence;
use pws_base::memory::Memory;
use pws_tree::texts::{Attr, Name, Text};
use std::alloc::Global;
use std::marker::Model;
use std::mem;

/// The open elements, whether the root is closed, what was read, and the text behind it.
#[derive(Drop)]
pub struct Outer {
    /// The open elements, with the namespaces of their prefixes.
    opens: Opens,
    /// Whether the root is closed.
    behind: bool,
    /// The tags and texts that were read, in their order.
    events: Sequence<Event>,
    /// The text since the last of these, which may go on.
    text: String,
}

impl Model for Outer {
    ghost use Rattle.std.specs.String.{string_bytes};
    ghost use Rattle.pws_mark.specs.States.{Outer};

    ghost Value = { Outer };

    ghost view = { λ o. record { opens = o.opens; behind = o.behind; events = o.events; text = string_bytes o.text } };
}

impl Outer {
    /// Nothing was read.
    ///
    /// # Errors
    ///
    /// `Memory` only.
    pub fn new(alloc: Global) -> Result<Outer, Memory>
        ensures { IfOk result (λ o. o ≡ outside) }
    {
        Ok(Outer {
            opens: Opens::new(alloc)?,
            behind: false,
            events: Sequence::new(alloc),
            text: String::new(alloc),
        })
    }

    /// Where the place stands to the element.
    pub fn region(&self) -> Region
        ensures { result ≡ region self.now }
    {
        if !self.opens.is_empty() {
            return Region::Inside;
        }
        if self.behind {
            return Region::Behind;
        }
        Region::Before
    }

    /// Whether the root is closed.
    pub fn is_closed(&self) -> bool
        ensures { result ≡ (is_empty self.now.opens && self.now.behind) }
    {
        self.opens.is_empty() && self.behind
    }

    /// Whether a tag that begins here is refused: 64 elements are open.
    pub fn is_deepest(&self) -> bool
        ensures { result ≡ nat_le 64 (length self.now.opens) }
    {
        self.opens.len() >= 64
    }

    /// Whether this character stands at this place of the innermost element's name.
    pub fn has_at(&self, place: usize, c: char) -> bool
        ensures value { result ≡ name_has self.now.opens place c }
        ensures within { OnTrue result (place < usize.MAX) }
    {
        self.opens.has_at(place, c)
    }

    /// Whether the innermost element's name has so many characters.
    pub fn name_ends(&self, place: usize) -> bool
        ensures { result ≡ name_ends self.now.opens place }
    {
        self.opens.name_ends(place)
    }

    /// The character at a place of the innermost element's name.
    pub fn name_char_at(&self, place: usize) -> Option<char>
        ensures { result ≡ name_char_at self.now.opens place }
    {
        self.opens.name_char_at(place)
    }

    /// What was read.
    pub fn into_events(self) -> Sequence<Event>
        ensures { result ≡ self.events }
    {
        let Outer { events, .. } = self;
        events
    }
}

/// What a complete tag begins.
#[derive(Drop)]
struct Begun {
    /// The prefixes that the tag declares.
    scope: Scope,
    /// The element's name, with its namespace.
    name: Name,
    /// Its attributes, in the order of the text.
    attrs: Sequence<Attr>,
    /// Whether the element is `Value` of the envelope namespace, whose content is a name.
    is_word: bool,
}

/// What a complete tag begins among these open elements; what is refused in it is noted.
#[tactic(auto, unfolding(crate::specs::States::read_bound, crate::specs::Meaning::name_of))]
fn begin(alloc: Global, least: &mut Least, opens: &Opens, tag: &ReadTag) -> Result<Begun, Memory>
    ensures begun { IfOk result (λ b. Begins b tag.now opens.now) }
    ensures least { OnOk result (least.new ≡ lowered least.old (tag_finds (read_bound tag.now.attributes (bound_at opens.now)) tag.now)) }
{
    let scope = scope_of(alloc, tag.attributes.as_slice())?;
    let inside = Inside {
        scope: &scope,
        opens,
    };
    note_tag(alloc, least, &inside, tag)?;
    let name = inside.element_name(alloc, tag.name.as_slice())?;
    let attrs = attrs_of(alloc, &inside, tag.attributes.as_slice())?;
    let is_word = is_value_name(&name);
    Ok(Begun {
        scope,
        name: or_no_name(alloc, name),
        attrs,
        is_word,
    })
}

/// An element that begins with this tag.
fn open_element(alloc: Global, tag: ReadTag, scope: Scope, is_word: bool) -> OpenElement
    ensures { IsOpened result tag scope is_word }
{
    OpenElement {
        name: tag.name,
        at: tag.at.get(),
        scope,
        word: if is_word {
            Some(Some(Sequence::new(alloc)))
        } else {
            None
        },
    }
}

/// The text so far is whole.
fn flush(alloc: Global, events: &mut Sequence<Event>, text: &mut String) -> Result<(), Memory>
    ensures events { OnOk result (events.new ≡ flushed events.old (string_bytes text.old)) }
    ensures text { OnOk result (string_bytes text.new ≡ []) }
{
    if !text.is_empty() {
        let text = mem::replace(text, String::new(alloc));
        events.push(Event::Text(Text::from_string(text)))?;
    }
    Ok(())
}

/// What a tag adds to what was read, behind the text so far.
fn add_open(
    alloc: Global,
    events: &mut Sequence<Event>,
    text: &mut String,
    name: Name,
    attrs: Sequence<Attr>,
) -> Result<(), Memory>
    ensures events { OnOk result (events.new ≡ flushed events.old (string_bytes text.old) ++ event.Open name attrs ∷ []) }
    ensures text { OnOk result (string_bytes text.new ≡ []) }
{
    flush(alloc, events, text)?;
    events.push(Event::Open(name, attrs))
}

/// Opens an element among others, of which the innermost can't be a name any more.
#[tactic(auto, using(crate::proofs::Outers::bound_spoiled))]
fn open_in(opens: &mut Opens, element: OpenElement) -> Result<(), Memory>
    ensures { OnOk result (opens.new ≡ record { name = element.name; at = element.at; bound = element.scope ++ bound_at opens.old; word = element.word } ∷ spoiled opens.old) }
{
    opens.spoil()?;
    opens.push(element)
}

/// What the end of an element adds to what was read; what is refused in the content of `Value` is noted.
#[tactic(auto, unfolding(crate::specs::Least::lowered))]
fn close(
    alloc: Global,
    least: &mut Least,
    events: &mut Sequence<Event>,
    inside: &Inside,
    element: &OpenElement,
) -> Result<(), Memory>
    ensures events { OnOk result (events.new ≡ events.old ++ (qualified_event inside.now element.now.word ++ event.Close ∷ [])) }
    ensures least { OnOk result (least.new ≡ lowered least.old (word_finds inside.now element.now.at element.now.word)) }
{
    if let Some(content) = &element.word {
        let name = qualified_name(alloc, least, inside, element.at, content)?;
        events.push(Event::Qualified(name))?;
    }
    events.push(Event::Close)
}

impl Outer {
    /// A character of content, or a reference to no character, at its place; it is text, as these characters.
    ///
    /// # Errors
    ///
    /// `Memory` only.
    pub fn take(&mut self, at: usize, c: Option<char>, text: Option<char>) -> Result<(), Memory>
        ensures { OnOk result (self.new ≡ taken self.old at c (char_text text)) }
    {
        if self.opens.is_word() {
            self.opens.keep(at, c)?;
            return Ok(());
        }
        if self.opens.is_empty() {
            return Ok(());
        }
        if let Some(c) = text {
            self.text.push(c)?;
        }
        Ok(())
    }

    /// A start tag is complete; what is refused in it is noted.
    ///
    /// # Errors
    ///
    /// `Memory` only.
    #[tactic(auto, unfolding(crate::specs::States::started, crate::specs::States::read_bound))]
    pub fn start_tag(
        &mut self,
        alloc: Global,
        least: &mut Least,
        tag: ReadTag,
    ) -> Result<(), Memory>
        ensures outer { OnOk result (self.new ≡ started self.old tag) }
        ensures least { OnOk result (least.new ≡ lowered least.old (start_finds self.old tag)) }
    {
        let begun = begin(alloc, least, &self.opens, &tag)?;
        add_open(
            alloc,
            &mut self.events,
            &mut self.text,
            begun.name,
            begun.attrs,
        )?;
        let element = open_element(alloc, tag, begun.scope, begun.is_word);
        open_in(&mut self.opens, element)
    }

    /// An empty tag is complete; what is refused in it is noted.
    ///
    /// # Errors
    ///
    /// `Memory` only.
    #[tactic(auto, unfolding(crate::specs::States::hollowed, crate::specs::States::read_bound, crate::specs::Least::lowered))]
    pub fn hollow_tag(
        &mut self,
        alloc: Global,
        least: &mut Least,
        tag: ReadTag,
    ) -> Result<(), Memory>
        ensures outer { OnOk result (self.new ≡ hollowed self.old tag) }
        ensures least { OnOk result (least.new ≡ lowered least.old (hollow_finds self.old tag)) }
    {
        let begun = begin(alloc, least, &self.opens, &tag)?;
        least.note_if(begun.is_word, MarkKind::Syntax, tag.at.get());
        add_open(
            alloc,
            &mut self.events,
            &mut self.text,
            begun.name,
            begun.attrs,
        )?;
        self.events.push(Event::Close)?;
        self.behind = self.opens.is_empty();
        self.opens.spoil()
    }

    /// An end tag is complete, where an element is open; what is refused in the content of `Value` is noted.
    ///
    /// # Errors
    ///
    /// `Memory` only.
    #[tactic(auto, unfolding(crate::specs::States::ended, crate::specs::Least::lowered))]
    pub fn end_tag(&mut self, alloc: Global, least: &mut Least) -> Result<(), Memory>
        ensures outer { OnOk result (self.new ≡ ended_in self.old.opens self.old) }
        ensures least { OnOk result (least.new ≡ lowered least.old (end_finds self.old.opens)) }
    {
        if let Some(element) = self.opens.pop() {
            flush(alloc, &mut self.events, &mut self.text)?;
            let inside = Inside {
                scope: &element.scope,
                opens: &self.opens,
            };
            close(alloc, least, &mut self.events, &inside, &element)?;
            self.behind = self.opens.is_empty();
        }
        Ok(())
    }
}
