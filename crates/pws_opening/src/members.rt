//! A replica with its keys.

ghost use Rattle.std.specs.Prelude.{◌≡◌, ◌<◌, ◌≤◌, ◌&&◌, ◌↔◌, length, slice_get, slice_index, false, IsTrue, is_some, IfOk};
ghost use Rattle.std.specs.List.{list_all, range_with_len};
ghost use Rattle.std.specs.Option.{option_map_or};
ghost use Rattle.pws_base.specs.Shapes.{has_replica, size_of_group};
ghost use Rattle.pws_msg.specs.Packets.{IsSender};
ghost use Rattle.pws_auth.specs.Keys.{can_seal, is_tag, tags_for, SealsForAll};
ghost use Rattle.pws_msg.specs.Contents.{content_text};
ghost use Rattle.pws_runs.specs.Saying.{verifies};
ghost use Rattle.pws_opening.specs.Members.{IsMember, GivesMember};

use crate::errors::BadReplica;
use pws_auth::tables::KeyTable;
use pws_base::lists::{ExactCopy, Sequence};
use pws_base::memory::Memory;
use pws_base::shapes::{GroupId, GroupShape, Layout, ReplicaId, Tag};
use pws_msg::contents::{Content, content_bytes};
use std::alloc::Global;
use std::marker::Model;

/// A replica of a layout, with its key with each other replica.
///
/// Contracts see it as a `Member`.
#[derive(Drop)]
pub struct Member {
    /// Who it is.
    me: ReplicaId,
    /// The layout of the keys.
    layout: Layout,
    /// The shape of its group.
    shape: GroupShape,
    /// Its keys.
    keys: KeyTable,
}

impl Model for Member {
    ghost use Rattle.std.specs.Prelude.{◌≡◌, slice_index};
    ghost use Rattle.pws_opening.specs.Members.{Member, IsMember, member_code};

    ghost Value = { Member };

    ghost coded = { member_code };

    ghost view = { λ m. record { me = m.me; keys = m.keys } };

    ghost invariant = { λ m. IsMember (record { me = m.me; keys = m.keys }) × (m.layout ≡ m.keys.layout) × (m.shape ≡ slice_index m.keys.layout m.me.group) };
}

/// Whether a replica can seal for each group of the layout.
fn seals_for_all(layout: &Layout, me: ReplicaId, keys: &KeyTable) -> bool
    ensures { result ≡ list_all (can_seal keys.now me) (range_with_len 0 (length layout.now)) }
{
    (0..layout.groups()).all(|group| keys.can_seal(me, group))
}

/// Whether a replica is one of the layout, and has its key with each other one.
fn is_member(layout: &Layout, me: ReplicaId, keys: &KeyTable) -> bool
    requires { layout.now ≡ keys.now.layout }
    ensures { IsTrue result ↔ IsMember (record { me = me; keys = keys.now }) }
{
    layout.has(me) && seals_for_all(layout, me, keys)
}

/// The shape of a replica's group.
fn shape_of(layout: &Layout, me: ReplicaId) -> GroupShape
    requires { IsTrue (has_replica layout.now me) }
    ensures { result ≡ slice_index layout.now me.group }
{
    match layout.shape(me.group) {
        Some(shape) => shape,
        None => unreachable!(),
    }
}

impl Member {
    /// The replica `me` with its keys, whose layout this is.
    ///
    /// # Errors
    ///
    /// `BadReplica` exactly where it is no replica of the layout, or has no key with another one.
    pub fn new(me: ReplicaId, layout: &Layout, keys: KeyTable) -> Result<Member, BadReplica>
        requires { layout.now ≡ keys.layout }
        ensures { GivesMember me keys result }
    {
        if !is_member(layout, me, &keys) {
            return Err(BadReplica);
        }
        Ok(Member {
            me,
            layout: *layout,
            shape: shape_of(layout, me),
            keys,
        })
    }

    /// Who it is.
    pub fn me(&self) -> ReplicaId
        ensures value { result ≡ self.now.me }
        ensures lawful { IsMember self.now }
    {
        self.me
    }

    /// The layout.
    pub fn layout(&self) -> &Layout
        ensures value { result.now ≡ self.now.keys.layout }
        ensures lawful { IsMember self.now }
    {
        &self.layout
    }

    /// The shape of its group.
    pub fn shape(&self) -> GroupShape
        ensures value { result ≡ slice_index self.now.keys.layout self.now.me.group }
        ensures lawful { IsMember self.now }
    {
        self.shape
    }

    /// It is in range, and its group is one of the layout.
    pub(crate) fn in_range(&self)
        ensures sender { IsSender self.now.me }
        ensures group { self.now.me.group < length self.now.keys.layout }
        ensures groups { length self.now.keys.layout ≤ 16 }
    {
        // shows: the layout has it
        let _groups = self.layout.groups();
        let _known = self.layout.has(self.me);
        let _shape = self.layout.shape(self.me.group);
    }

    /// How many replicas its group has.
    pub(crate) fn n(&self) -> u8
        ensures value { result ≡ size_of_group (slice_index self.now.keys.layout self.now.me.group) }
        ensures few { result ≤ 10 }
    {
        self.shape.n()
    }

    /// Whether the tag at its index is the sender's for it over this content.
    fn is_sealed(
        &self,
        alloc: Global,
        sender: ReplicaId,
        content: &Content,
        tags: &[Tag],
    ) -> Result<bool, Memory>
        ensures { IfOk result (λ b. b ≡ option_map_or (is_tag self.now.keys sender self.now.me (content_text content.now)) (slice_get tags.now self.now.me.index) false) }
    {
        match tags.get(self.me.index as usize) {
            Some(tag) => {
                let text = content_bytes(alloc, content)?;
                Ok(self.keys.check(sender, self.me, text.as_slice(), tag))
            }
            None => Ok(false),
        }
    }

    /// Whether another replica of the layout says this to it: the tag at its index is that one's.
    ///
    /// # Errors
    ///
    /// `Memory` only.
    #[tactic(auto, unfolding(pws_runs::specs::Saying::verifies))]
    pub fn verifies(
        &self,
        alloc: Global,
        sender: ReplicaId,
        content: &Content,
        tags: &[Tag],
    ) -> Result<bool, Memory>
        ensures { IfOk result (λ b. b ≡ verifies self.now.keys self.now.me (record { sender = sender; content = content.now; tags = tags.now })) }
    {
        if !self.layout.has(sender) || sender == self.me {
            return Ok(false);
        }
        self.is_sealed(alloc, sender, content, tags)
    }

    /// Its tags over a content for the replicas of a group of the layout, rising by index.
    ///
    /// # Errors
    ///
    /// `Memory` only.
    pub fn seal(
        &self,
        alloc: Global,
        group: GroupId,
        content: &Content,
    ) -> Result<Sequence<Tag>, Memory>
        requires { group < length self.now.keys.layout }
        ensures value { IfOk result (λ tags. tags ≡ tags_for self.now.keys self.now.me (content_text content.now) group) }
        ensures few { IfOk result (λ tags. length tags ≤ 10) }
    {
        let text = content_bytes(alloc, content)?;
        self.keys.seal(alloc, self.me, text.as_slice(), group)
    }
}

impl ExactCopy for Member {
    fn copy(&self, alloc: Global) -> Result<Member, Memory> {
        Ok(Member {
            me: self.me,
            layout: self.layout,
            shape: self.shape,
            keys: self.keys.copy(alloc)?,
        })
    }
}
