//! The name of a call between two groups.

ghost use Rattle.std.specs.Prelude.{◌≡◌};
ghost use Rattle.pws_service.specs.Keys.{same_key};

use pws_base::lists::ExactCopy;
use pws_base::memory::Memory;
use pws_base::shapes::{GroupId, Number};
use std::alloc::Global;

/// A call between two groups: the group at the other end, and the number among the calls of the caller to the called.
#[derive(Clone, Copy, Debug, PartialEq, Eq)]
pub struct Key {
    /// The group that is called, or that calls, 0 to 15.
    pub group: GroupId,
    /// The number, 1 to 1,000,000.
    pub number: Number,
}

impl ExactCopy for Key {
    fn copy(&self, _alloc: Global) -> Result<Key, Memory> {
        Ok(*self)
    }
}

/// Whether both are one call.
pub fn same_key(a: Key, b: Key) -> bool
    ensures { result ≡ same_key a b }
{
    a.group == b.group && a.number == b.number
}
