//! The replicas of a layout, one after the other.

ghost use Rattle.std.specs.Prelude.{◌≡◌, ℕ, ◌==◌, ◌&&◌, ◌||◌, nat_lt, IfOk, OnOk};
ghost use Rattle.pws_base.specs.declared.shapes.ReplicaId.{ReplicaId};
ghost use Rattle.pws_base.specs.Shapes.{has_replica};
ghost use Rattle.pws_base.specs.Replicas.{is_among};

use pws_base::memory::Memory;
use pws_base::shapes::{GroupId, Layout, ReplicaId};
use std::alloc::Global;

/// Adds the first n replicas of a group.
fn add_group(members: &mut Vec<ReplicaId>, group: GroupId, n: u8) -> Result<(), Memory>
    ensures { OnOk result ((r : ReplicaId) → is_among members.new.items r ≡ is_among members.old.items r || (group == r.group && nat_lt r.index n)) }
{
    for index in 0..n {
        members.push(ReplicaId { group, index })?;
    }
    Ok(())
}

/// All replicas of a layout.
///
/// # Errors
///
/// `Memory` only.
pub(crate) fn members_of(alloc: Global, layout: &Layout) -> Result<Vec<ReplicaId>, Memory>
    ensures { IfOk result (λ members. (r : ReplicaId) → is_among members.items r ≡ has_replica layout.now r) }
{
    let mut members = Vec::new(alloc);
    for group in 0..layout.groups() {
        if let Some(shape) = layout.shape(group) {
            add_group(&mut members, group, shape.n())?;
        }
    }
    Ok(members)
}
