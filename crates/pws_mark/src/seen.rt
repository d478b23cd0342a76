//! The names of attributes that were seen in a tag.

ghost use Rattle.std.specs.Prelude.{◌≡◌, ℕ, List, [], ◌∷◌, ◌++◌, ◌||◌, map, Some, OnOk};
ghost use Rattle.std.specs.List.{list_any};
ghost use Rattle.std.specs.Str.{bytes_eq};
ghost use Rattle.pws_tree.specs.declared.texts.Name.{Name};
ghost use Rattle.pws_mark.specs.Bindings.{same_name};
ghost use Rattle.pws_mark.specs.Seen.{are_one, now_of, has_written, has_bound};

use pws_base::memory::Memory;
use pws_tree::texts::Name;
use std::alloc::Global;
use std::collections::BTreeSet;
use std::marker::Model;

/// Names of attributes, each as written and as bound, which contracts see as a list, the last one first.
///
/// The sets find a name in few steps.
#[derive(Drop)]
pub struct Seen<'a> {
    /// The names, as written and as bound, the first one first.
    items: Vec<(&'a [char], &'a Option<Name>)>,
    /// All names as written.
    written: BTreeSet<&'a [char]>,
    /// All names as bound: namespace and local part.
    bound: BTreeSet<(&'a str, &'a str)>,
}

impl<'a> Model for Seen<'a> {
    ghost use Rattle.std.specs.Prelude.{ℕ, List, Option, map};
    ghost use Rattle.pws_tree.specs.declared.texts.Name.{Name};
    ghost use Rattle.pws_mark.specs.Seen.{seen_of, now_of, FindsSeen};

    ghost Value = { List (List ℕ × Option Name) };

    ghost view = { λ s. seen_of (map now_of s.items.items) };

    ghost invariant = { λ s. FindsSeen s.written s.bound (seen_of (map now_of s.items.items)) };
}

/// Adds a name as written.
fn add_written<'a>(set: &mut BTreeSet<&'a [char]>, written: &'a [char]) -> Result<(), Memory>
    ensures { OnOk result ((name : List ℕ) → has_written set.new name ≡ (bytes_eq name written.now || has_written set.old name)) }
{
    set.insert(written)?;
    Ok(())
}

/// Adds a name as bound, if there is one.
fn add_bound<'a>(
    set: &mut BTreeSet<(&'a str, &'a str)>,
    bound: &'a Option<Name>,
) -> Result<(), Memory>
    ensures { OnOk result ((name : Name) → has_bound set.new name ≡ (same_name (Some name) bound.now || has_bound set.old name)) }
{
    if let Some(name) = bound {
        set.insert((name.local.as_str(), name.space.as_str()))?;
    }
    Ok(())
}

/// Adds a name to the list.
fn add_item<'a>(
    items: &mut Vec<(&'a [char], &'a Option<Name>)>,
    written: &'a [char],
    bound: &'a Option<Name>,
) -> Result<(), Memory>
    ensures { OnOk result (map now_of items.new.items ≡ map now_of items.old.items ++ (written.now, bound.now) ∷ []) }
{
    items.push((written, bound))?;
    Ok(())
}

/// Adds a name to the list and to the sets.
fn add<'a>(
    items: &mut Vec<(&'a [char], &'a Option<Name>)>,
    written_set: &mut BTreeSet<&'a [char]>,
    bound_set: &mut BTreeSet<(&'a str, &'a str)>,
    written: &'a [char],
    bound: &'a Option<Name>,
) -> Result<(), Memory>
    ensures items { OnOk result (map now_of items.new.items ≡ map now_of items.old.items ++ (written.now, bound.now) ∷ []) }
    ensures written { OnOk result ((name : List ℕ) → has_written written_set.new name ≡ (bytes_eq name written.now || has_written written_set.old name)) }
    ensures bound { OnOk result ((name : Name) → has_bound bound_set.new name ≡ (same_name (Some name) bound.now || has_bound bound_set.old name)) }
{
    add_written(written_set, written)?;
    add_bound(bound_set, bound)?;
    add_item(items, written, bound)
}

impl<'a> Seen<'a> {
    /// No names.
    pub fn new(alloc: Global) -> Seen<'a>
        ensures { result ≡ [] }
    {
        Seen {
            items: Vec::new(alloc),
            written: BTreeSet::new(alloc),
            bound: BTreeSet::new(alloc),
        }
    }

    /// Whether one of the names is this one, as written or as bound.
    pub fn has(&self, written: &'a [char], bound: &'a Option<Name>) -> bool
        ensures { result ≡ list_any (are_one (written.now, bound.now)) self.now }
    {
        if self.written.contains(written) {
            return true;
        }
        match bound {
            Some(name) => {
                let key = (name.local.as_str(), name.space.as_str());
                self.bound.contains(&key)
            }
            None => false,
        }
    }

    /// One more name.
    ///
    /// # Errors
    ///
    /// `Memory` only; no name is kept then.
    pub fn push(&mut self, written: &'a [char], bound: &'a Option<Name>) -> Result<(), Memory>
        ensures { OnOk result (self.new ≡ (written.now, bound.now) ∷ self.old) }
    {
        match add(
            &mut self.items,
            &mut self.written,
            &mut self.bound,
            written,
            bound,
        ) {
            Ok(()) => Ok(()),
            Err(memory) => {
                self.items.clear();
                self.written.clear();
                self.bound.clear();
                Err(memory)
            }
        }
    }
}
