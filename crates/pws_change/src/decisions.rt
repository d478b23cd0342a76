//! What is decided by a list of view changes.

use pws_base::lists::ExactCopy;
use pws_base::memory::Memory;
use pws_base::shapes::Place;
use pws_msg::changes::Choice;
use std::alloc::Global;

/// What a list of view changes decides.
#[derive(Drop)]
pub enum Decision {
    /// What the new view keeps.
    Chosen(Choice),
    /// Nothing yet, since too few agree: on a checkpoint, where the place is 0, and else on this place, the first such.
    Undecided { place: Place },
}

impl ExactCopy for Decision {
    fn copy(&self, alloc: Global) -> Result<Decision, Memory> {
        match self {
            Decision::Chosen(choice) => Ok(Decision::Chosen(choice.copy(alloc)?)),
            Decision::Undecided { place } => Ok(Decision::Undecided { place: *place }),
        }
    }
}
