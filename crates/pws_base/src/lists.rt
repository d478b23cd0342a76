//! Lists on the heap, and exact copies.

ghost use Rattle.std.specs.Prelude.{◌≡◌, ◌↔◌, [], ◌∷◌, ◌++◌, length, IfOk, OnOk, OnErr, IsTrue};

use crate::memory::Memory;
use std::alloc::Global;
use std::fmt;
use std::marker::Model;

/// A value of which a copy can be made that is equal to it.
pub trait ExactCopy: Drop {
    /// A value equal to this one.
    ///
    /// # Errors
    ///
    /// `Memory` only.
    fn copy(&self, alloc: Global) -> Result<Self, Memory>
        ensures { IfOk result (λ c. c ≡ self.now) };
}

/// A list on the heap, which contracts see as the list of its items.
#[derive(Drop)]
pub struct Sequence<T> {
    items: Vec<T>,
}

impl<T> Model for Sequence<T> {
    ghost use Rattle.std.specs.Prelude.{List};
    ghost use Rattle.std.specs.Coded.{coded_list};

    ghost Value = { List T };

    ghost coded = { coded_list T.code };

    ghost view = { λ s. s.items.items };
}

impl<T: Drop> Sequence<T> {
    /// No items.
    pub fn new(alloc: Global) -> Sequence<T>
        ensures { result ≡ [] }
    {
        Sequence {
            items: Vec::new(alloc),
        }
    }

    /// The items of a vector, which isn't copied.
    pub fn from_vec(items: Vec<T>) -> Sequence<T>
        ensures { result ≡ items.items }
    {
        Sequence { items }
    }

    /// The vector that holds the items.
    pub fn into_vec(self) -> Vec<T>
        ensures { result.items ≡ self }
    {
        let Sequence { items } = self;
        items
    }

    /// The items.
    pub fn as_slice(&self) -> &[T]
        ensures { result.now ≡ self.now }
    {
        self.items.as_slice()
    }

    /// How many items there are.
    pub fn len(&self) -> usize
        ensures { result ≡ length self.now }
    {
        self.items.len()
    }

    /// Whether there is no item.
    pub fn is_empty(&self) -> bool
        ensures { IsTrue result ↔ (self.now ≡ []) }
    {
        self.items.is_empty()
    }

    /// Adds an item at the end.
    ///
    /// # Errors
    ///
    /// `Memory` only; nothing is added then.
    pub fn push(&mut self, item: T) -> Result<(), Memory>
        ensures ok { OnOk result (self.new ≡ self.old ++ item ∷ []) }
        ensures err { OnErr result (self.new ≡ self.old) }
    {
        self.items.push(item)?;
        Ok(())
    }
}

/// A list of copies, each equal to an item of these.
///
/// # Errors
///
/// `Memory` only.
pub fn copy_all<T: ExactCopy>(alloc: Global, items: &[T]) -> Result<Sequence<T>, Memory>
    ensures { IfOk result (λ copies. copies ≡ items.now) }
{
    let mut copies = Vec::new(alloc);
    for item in items {
        copies.push(item.copy(alloc)?)?;
    }
    Ok(Sequence { items: copies })
}

impl<T: ExactCopy> ExactCopy for Sequence<T> {
    fn copy(&self, alloc: Global) -> Result<Sequence<T>, Memory> {
        copy_all(alloc, self.items.as_slice())
    }
}

impl<T: ExactCopy> ExactCopy for Option<T> {
    fn copy(&self, alloc: Global) -> Result<Option<T>, Memory> {
        match self {
            Some(value) => Ok(Some(value.copy(alloc)?)),
            None => Ok(None),
        }
    }
}

impl ExactCopy for [u8; 32] {
    fn copy(&self, _alloc: Global) -> Result<[u8; 32], Memory> {
        Ok(*self)
    }
}

impl ExactCopy for u32 {
    fn copy(&self, _alloc: Global) -> Result<u32, Memory> {
        Ok(*self)
    }
}

impl<A: Copy + Drop, B: Copy + Drop> ExactCopy for (A, B) {
    fn copy(&self, _alloc: Global) -> Result<(A, B), Memory> {
        Ok(*self)
    }
}

impl<T: fmt::Debug> fmt::Debug for Sequence<T> {
    fn fmt<W: fmt::Write>(&self, f: &mut fmt::Formatter<W>) -> fmt::Result {
        fmt::Debug::fmt(&self.items, f)
    }
}
