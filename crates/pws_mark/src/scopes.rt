//! The open elements, and what the prefixes are bound to.

ghost use Rattle.std.specs.Prelude.{◌≡◌, ℕ, ◌<◌, List, if◌then◌else◌, ◌++◌, [], ◌∷◌, length, slice_get, option_map, not, is_none, Some, None, OnOk, IfOk};
ghost use Rattle.pws_mark.specs.Bindings.{space_at, is_bound, element_name, attribute_name, outermost};
ghost use Rattle.std.specs.Bool.{OnTrue};
ghost use Rattle.std.specs.Option.{is_some};
ghost use Rattle.pws_mark.specs.States.{bound_at, spoiled, is_empty, with_char};
ghost use Rattle.std.specs.Str.{bytes_eq};
ghost use Rattle.pws_mark.specs.Levels.{levels_at, declared_at, without_last, last_of};
ghost use Rattle.pws_mark.specs.Prefixes.{value_at, FindsFirst};
ghost use Rattle.pws_mark.specs.Stopping.{name_char_at};
ghost use Rattle.pws_mark.specs.Scopes.{opened, word_at, kept, Pops, inside_of, name_has, name_ends};

use crate::declaring::has_at;
use crate::names::letters_of;
use pws_base::lists::Sequence;
use pws_base::memory::Memory;
use pws_tree::spaces::XML_SPACE;
use pws_tree::texts::Text;
use std::alloc::Global;
use std::collections::BTreeMap;
use std::marker::Model;

/// The prefixes that a tag declares, each with its namespace, which is missing where it is unknown.
///
/// The places find the first declaration of a prefix in few steps.
#[derive(Drop)]
pub struct Scope {
    /// The declarations in the order of the text: a prefix, and its namespace.
    items: Sequence<(Sequence<char>, Option<Text>)>,
    /// The index of the first declaration of each prefix.
    places: BTreeMap<Vec<char>, usize>,
}

impl Model for Scope {
    ghost use Rattle.pws_mark.specs.Bindings.{Bindings};
    ghost use Rattle.pws_mark.specs.Prefixes.{FindsFirst};

    ghost Value = { Bindings };

    ghost view = { λ s. s.items };

    ghost invariant = { λ s. FindsFirst s.places s.items };
}

/// Puts a value at a prefix.
fn put<T: Drop>(
    alloc: Global,
    values: &mut BTreeMap<Vec<char>, T>,
    prefix: &[char],
    value: T,
) -> Result<(), Memory>
    ensures { OnOk result ((other : List ℕ) → value_at values.new other ≡ (if bytes_eq prefix.now other then Some value else value_at values.old other)) }
{
    let key = letters_of(alloc, prefix)?.into_vec();
    values.insert(key, value)?;
    Ok(())
}

/// The places of the first declarations of prefixes.
fn places_of(
    alloc: Global,
    items: &[(Sequence<char>, Option<Text>)],
) -> Result<BTreeMap<Vec<char>, usize>, Memory>
    ensures { IfOk result (λ places. FindsFirst places items.now) }
{
    let mut places = BTreeMap::new(alloc);
    let mut left = items.len();
    while left > 0 {
        left -= 1;
        put(alloc, &mut places, items[left].0.as_slice(), left)?;
    }
    Ok(places)
}

/// The namespace of the declaration at a place.
fn space_of<'a>(
    items: &'a [(Sequence<char>, Option<Text>)],
    place: usize,
) -> Option<&'a Option<Text>>
    ensures { option_map (λ b. b.now) result ≡ option_map (λ b. b.1) (slice_get items.now place) }
{
    match items.get(place) {
        Some(item) => Some(&item.1),
        None => None,
    }
}

impl Scope {
    /// These prefixes, in the order of their declarations.
    ///
    /// # Errors
    ///
    /// `Memory` only.
    pub fn new(
        alloc: Global,
        items: Sequence<(Sequence<char>, Option<Text>)>,
    ) -> Result<Scope, Memory>
        ensures { IfOk result (λ s. s ≡ items) }
    {
        let places = places_of(alloc, items.as_slice())?;
        Ok(Scope { items, places })
    }

    /// The prefixes, in the order of their declarations.
    fn as_slice(&self) -> &[(Sequence<char>, Option<Text>)]
        ensures { result.now ≡ self.now }
    {
        self.items.as_slice()
    }

    /// The namespace of a prefix, by its first declaration here.
    pub fn space_at(&self, prefix: &[char]) -> Option<&Option<Text>>
        ensures { option_map (λ b. b.now) result ≡ space_at self.now prefix.now }
    {
        match self.places.get(prefix) {
            Some(place) => space_of(self.items.as_slice(), *place),
            None => None,
        }
    }
}

/// An open element: its name, the place of its `<`, what its tag declares, and the characters of its content with
/// their places, where it is `Value`; these are missing where they can't be a name any more.
#[derive(Drop)]
pub struct OpenElement {
    pub name: Sequence<char>,
    pub at: usize,
    pub scope: Scope,
    pub word: Option<Option<Sequence<(char, usize)>>>,
}

/// The open elements, which contracts see as their list, the innermost first.
///
/// The levels of a prefix are those of the elements whose tags declare it, the outermost first, one for each
/// declaration.
#[derive(Drop)]
pub struct Opens {
    alloc: Global,
    /// The open elements, the outermost first.
    items: Vec<OpenElement>,
    /// For each prefix the indexes of the elements that declare it.
    levels: BTreeMap<Vec<char>, Vec<usize>>,
    /// The namespace of the prefix `xml`, which needs no declaration.
    xml: Option<Text>,
}

impl Model for Opens {
    ghost use Rattle.std.specs.Prelude.{◌≡◌, List, Some};
    ghost use Rattle.pws_mark.specs.States.{Open};
    ghost use Rattle.pws_mark.specs.Scopes.{opens_of};
    ghost use Rattle.pws_mark.specs.Levels.{FindsLevels};
    ghost use Rattle.pws_mark.specs.Canonical.{xml_space};

    ghost Value = { List Open };

    ghost view = { λ o. opens_of o.items.items };

    ghost invariant = { λ o. (o.xml ≡ Some xml_space) × FindsLevels o.levels o.items.items };
}

/// Takes the levels of a prefix away.
fn take_levels(
    alloc: Global,
    levels: &mut BTreeMap<Vec<char>, Vec<usize>>,
    prefix: &[char],
) -> Vec<usize>
    ensures taken { result.items ≡ levels_at levels.old prefix.now }
    ensures others { (other : List ℕ) → levels_at levels.new other ≡ (if bytes_eq prefix.now other then [] else levels_at levels.old other) }
{
    match levels.remove(prefix) {
        Some(stack) => stack,
        None => Vec::new(alloc),
    }
}

/// Adds a level of a prefix.
fn add_level(
    alloc: Global,
    levels: &mut BTreeMap<Vec<char>, Vec<usize>>,
    prefix: &[char],
    level: usize,
) -> Result<(), Memory>
    ensures { OnOk result ((other : List ℕ) → levels_at levels.new other ≡ (if bytes_eq prefix.now other then levels_at levels.old other ++ level ∷ [] else levels_at levels.old other)) }
{
    let mut stack = take_levels(alloc, levels, prefix);
    stack.push(level)?;
    put(alloc, levels, prefix, stack)?;
    Ok(())
}

/// Adds this level of what is declared.
fn add_levels(
    alloc: Global,
    levels: &mut BTreeMap<Vec<char>, Vec<usize>>,
    declared: &[(Sequence<char>, Option<Text>)],
    level: usize,
) -> Result<(), Memory>
    ensures { OnOk result ((prefix : List ℕ) → levels_at levels.new prefix ≡ levels_at levels.old prefix ++ declared_at level declared.now prefix) }
{
    for item in declared {
        add_level(alloc, levels, item.0.as_slice(), level)?;
    }
    Ok(())
}

/// Takes the last level of a prefix away.
fn drop_level(levels: &mut BTreeMap<Vec<char>, Vec<usize>>, prefix: &[char])
    ensures { (other : List ℕ) → levels_at levels.new other ≡ (if bytes_eq prefix.now other then without_last (levels_at levels.old other) else levels_at levels.old other) }
{
    if let Some(stack) = levels.get_mut(prefix) {
        let _last = stack.pop();
    }
}

/// Takes the last levels of what is declared away.
fn drop_levels(
    levels: &mut BTreeMap<Vec<char>, Vec<usize>>,
    declared: &[(Sequence<char>, Option<Text>)],
)
    ensures { (prefix rest : List ℕ) (level : ℕ) → levels_at levels.old prefix ≡ rest ++ declared_at level declared.now prefix → levels_at levels.new prefix ≡ rest }
{
    for item in declared {
        drop_level(levels, item.0.as_slice());
    }
}

/// The innermost level of a prefix.
fn level_of(levels: &BTreeMap<Vec<char>, Vec<usize>>, prefix: &[char]) -> Option<usize>
    ensures { result ≡ last_of (levels_at levels.now prefix.now) }
{
    match levels.get(prefix) {
        Some(stack) => stack.last().copied(),
        None => None,
    }
}

/// Adds an element and the levels of what its tag declares.
fn add_element(
    alloc: Global,
    items: &mut Vec<OpenElement>,
    levels: &mut BTreeMap<Vec<char>, Vec<usize>>,
    element: OpenElement,
) -> Result<(), Memory>
    ensures items { OnOk result (items.new.items ≡ items.old.items ++ element ∷ []) }
    ensures levels { OnOk result ((prefix : List ℕ) → levels_at levels.new prefix ≡ levels_at levels.old prefix ++ declared_at (length items.old.items) element.scope prefix) }
{
    add_levels(alloc, levels, element.scope.as_slice(), items.len())?;
    items.push(element)?;
    Ok(())
}

impl Opens {
    /// No open elements.
    ///
    /// # Errors
    ///
    /// `Memory` only.
    #[tactic(auto, unfolding(crate::specs::Canonical::xml_space))]
    pub fn new(alloc: Global) -> Result<Opens, Memory>
        ensures { IfOk result (λ o. o ≡ []) }
    {
        let xml = Some(Text::from_str(alloc, XML_SPACE)?);
        Ok(Opens {
            alloc,
            items: Vec::new(alloc),
            levels: BTreeMap::new(alloc),
            xml,
        })
    }

    /// Whether no element is open.
    #[tactic(auto, using(crate::proofs::Opened::empty_opens))]
    pub fn is_empty(&self) -> bool
        ensures { result ≡ is_empty self.now }
    {
        self.items.len() == 0
    }

    /// How many elements are open.
    #[tactic(auto, using(crate::proofs::Opened::length_opens))]
    pub fn len(&self) -> usize
        ensures { result ≡ length self.now }
    {
        self.items.len()
    }

    /// Opens an element.
    ///
    /// # Errors
    ///
    /// `Memory` only; no element is open then.
    pub fn push(&mut self, element: OpenElement) -> Result<(), Memory>
        ensures { OnOk result (self.new ≡ opened self.old element) }
    {
        match add_element(self.alloc, &mut self.items, &mut self.levels, element) {
            Ok(()) => Ok(()),
            Err(memory) => {
                self.items.clear();
                self.levels.clear();
                Err(memory)
            }
        }
    }

    /// The namespace of a prefix inside of the innermost element.
    pub fn space_at(&self, prefix: &[char]) -> Option<&Option<Text>>
        ensures { option_map (λ b. b.now) result ≡ space_at (bound_at self.now) prefix.now }
    {
        match level_of(&self.levels, prefix) {
            Some(level) => self.items[level].scope.space_at(prefix),
            None => self.outermost_at(prefix),
        }
    }

    /// The namespace of a prefix that is bound outside of all elements.
    #[tactic(auto, unfolding(crate::specs::Bindings::outermost, crate::specs::Canonical::xml_word))]
    fn outermost_at(&self, prefix: &[char]) -> Option<&Option<Text>>
        ensures { option_map (λ b. b.now) result ≡ space_at outermost prefix.now }
    {
        if ['x', 'm', 'l'].as_slice() == prefix {
            return Some(&self.xml);
        }
        None
    }
}

/// The content of `Value` with one more character, at its place, or with what is no character.
fn with_char(
    word: Option<Option<Sequence<(char, usize)>>>,
    at: usize,
    c: Option<char>,
) -> Result<Option<Option<Sequence<(char, usize)>>>, Memory>
    ensures { IfOk result (λ w. w ≡ with_char word at c) }
{
    match (word, c) {
        (Some(Some(mut chars)), Some(c)) => {
            chars.push((c, at))?;
            Ok(Some(Some(chars)))
        }
        (Some(_), _) => Ok(Some(None)),
        (None, _) => Ok(None),
    }
}

/// An element with one more character of its content, at its place, where it is `Value`.
fn kept_element(element: OpenElement, at: usize, c: Option<char>) -> Result<OpenElement, Memory>
    ensures { IfOk result (λ x. x ≡ record { name = element.name; at = element.at; scope = element.scope; word = with_char element.word at c }) }
{
    let OpenElement {
        name,
        at: place,
        scope,
        word,
    } = element;
    Ok(OpenElement {
        name,
        at: place,
        scope,
        word: with_char(word, at, c)?,
    })
}

/// Adds an element with one more character of its content.
fn add_kept(
    items: &mut Vec<OpenElement>,
    element: OpenElement,
    at: usize,
    c: Option<char>,
) -> Result<(), Memory>
    ensures { OnOk result (items.new.items ≡ items.old.items ++ record { name = element.name; at = element.at; scope = element.scope; word = with_char element.word at c } ∷ []) }
{
    items.push(kept_element(element, at, c)?)?;
    Ok(())
}

impl Opens {
    /// Takes the innermost element away.
    pub fn pop(&mut self) -> Option<OpenElement>
        ensures { Pops self.old result self.new }
    {
        match self.items.pop() {
            Some(element) => {
                drop_levels(&mut self.levels, element.scope.as_slice());
                Some(element)
            }
            None => None,
        }
    }

    /// Whether the innermost element is `Value`.
    pub fn is_word(&self) -> bool
        ensures { result ≡ is_some (word_at self.now) }
    {
        match self.items.last() {
            Some(element) => element.word.is_some(),
            None => false,
        }
    }

    /// The content of the innermost element can't be a name any more.
    ///
    /// # Errors
    ///
    /// `Memory` only; no element is open then.
    pub fn spoil(&mut self) -> Result<(), Memory>
        ensures { OnOk result (self.new ≡ spoiled self.old) }
    {
        self.keep(0, None)
    }

    /// A character of the innermost element, where it is `Value`.
    ///
    /// # Errors
    ///
    /// `Memory` only; no element is open then.
    pub fn keep(&mut self, at: usize, c: Option<char>) -> Result<(), Memory>
        ensures { OnOk result (self.new ≡ kept self.old at c) }
    {
        match self.items.pop() {
            Some(element) => match add_kept(&mut self.items, element, at, c) {
                Ok(()) => Ok(()),
                Err(memory) => {
                    self.items.clear();
                    self.levels.clear();
                    Err(memory)
                }
            },
            None => Ok(()),
        }
    }

    /// Whether this character stands at this place of the innermost element's name.
    pub fn has_at(&self, place: usize, c: char) -> bool
        ensures value { result ≡ name_has self.now place c }
        ensures within { OnTrue result (place < usize.MAX) }
    {
        match self.items.last() {
            Some(element) => has_at(element.name.as_slice(), place, c),
            None => false,
        }
    }

    /// Whether the innermost element's name has so many characters.
    pub fn name_ends(&self, place: usize) -> bool
        ensures { result ≡ name_ends self.now place }
    {
        match self.items.last() {
            Some(element) => element.name.len() == place,
            None => false,
        }
    }
}

/// The character at a place of a name.
fn letter_at(name: &[char], place: usize) -> Option<char>
    ensures { result ≡ slice_get name.now place }
{
    name.get(place).copied()
}

impl Opens {
    /// The character at a place of the innermost element's name.
    pub fn name_char_at(&self, place: usize) -> Option<char>
        ensures { result ≡ name_char_at self.now place }
    {
        match self.items.last() {
            Some(element) => letter_at(element.name.as_slice(), place),
            None => None,
        }
    }
}
