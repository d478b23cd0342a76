//! What a runner runs.

ghost use Rattle.std.specs.Prelude.{◌≡◌, ◌≤◌, length, slice_index};
ghost use Rattle.pws_base.specs.Limits.{max_groups};

use pws_base::lists::ExactCopy;
use pws_base::memory::Memory;
use pws_base::shapes::{GroupId, Layout};
use pws_script::scripts::Script;
use std::alloc::Global;

/// A script, and the group and the layout that it runs in.
#[derive(Drop)]
pub struct Program {
    /// The script.
    pub script: Script,
    /// The group.
    pub me: GroupId,
    /// The layout, which has this group.
    pub layout: Layout,
    ghost few: { length layout ≤ max_groups },
}

impl Program {
    /// How many compromised replicas the group bears.
    pub fn faults(&self) -> u8
        ensures { result ≡ slice_index self.now.layout self.now.me }
    {
        match self.layout.shape(self.me) {
            Some(shape) => shape.f(),
            None => 0,
        }
    }
}

impl ExactCopy for Program {
    fn copy(&self, alloc: Global) -> Result<Program, Memory> {
        Ok(Program {
            script: self.script.copy(alloc)?,
            me: self.me,
            layout: self.layout,
        })
    }
}
