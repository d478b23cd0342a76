//! Tables of the keys that pairs of replicas share.

ghost use Rattle.std.specs.Prelude.{◌≡◌, ◌≤◌, ◌↔◌, ℕ, List, length, IsTrue, IfOk, OnOk, is_some, slice_get};
ghost use Rattle.std.specs.Option.{option_copied};
ghost use Rattle.std.specs.FinMap.{insert, empty};
ghost use Rattle.std.specs.List.{list_all};
ghost use Rattle.sha2.specs.Sha256.{sha256};
ghost use Rattle.pws_base.specs.declared.shapes.ReplicaId.{ReplicaId};
ghost use Rattle.pws_base.specs.Shapes.{has_replica};
ghost use Rattle.pws_auth.specs.Tags.{tag_of, seed_key};
ghost use Rattle.pws_auth.specs.Pairs.{pair_of};
ghost use Rattle.pws_auth.specs.Keys.{key_for, has_key, has_keys, can_seal, tag_for, tags_for, is_tag, IsTable, IsTag, key_of_seed, GivesRows, SealsForAll};
ghost use Rattle.pws_auth.specs.Steps.{added_by_seed, is_free, AddsRow};

use crate::codes::hmac_of_pieces;
use crate::members::members_of;
use crate::pairs::Pair;
use pws_base::lists::{ExactCopy, Sequence};
use pws_base::memory::Memory;
use pws_base::shapes::{GroupId, GroupShape, Layout, ReplicaId, Tag};
use sha2::{Digest, Sha256};
use std::alloc::Global;
use std::collections::BTreeMap;
use std::marker::Model;
use thiserror::Error;

/// A key that two replicas share.
pub type Key = [u8; 32];

/// Why no table was made of rows.
#[derive(Clone, Copy, Debug, PartialEq, Eq, Error)]
pub enum KeysError {
    /// A row names me or no replica, one is named twice, or a replica other than me has no row.
    #[error("the rows aren't one for each other replica")]
    BadKeys,
    /// There was no memory.
    #[error("out of memory")]
    Memory,
}

impl From<Memory> for KeysError {
    ghost use Rattle.std.specs.Prelude.{◌≡◌};
    ghost use Rattle.pws_auth.specs.declared.tables.KeysError.TheVariants as keys_error;

    ghost from_gives = { λ _ e. e ≡ keys_error.Memory };

    fn from(_error: Memory) -> KeysError {
        KeysError::Memory
    }
}

/// The tag of a sender for a receiver over the content that has this digest, under the key that they share.
#[tactic(auto, unfolding(crate::specs::Tags::tag_of))]
fn tag_over(key: &Key, sender: ReplicaId, receiver: ReplicaId, digest: &[u8; 32]) -> Tag
    ensures { (content : List ℕ) → digest.now ≡ sha256 content → result ≡ tag_of key.now sender receiver content }
{
    let names = [sender.group, sender.index, receiver.group, receiver.index];
    hmac_of_pieces(key, &names, digest)
}

/// The key of a pair, made from a seed.
#[tactic(auto, unfolding(crate::specs::Tags::seed_key))]
fn seed_key(seed: &[u8; 32], pair: Pair) -> Key
    ensures { result ≡ seed_key seed.now pair }
{
    let names = [
        pair.lesser.group,
        pair.lesser.index,
        pair.greater.group,
        pair.greater.index,
    ];
    hmac_of_pieces(seed, b"pws key", &names)
}

/// The keys of pairs of replicas, with the layout of the groups.
///
/// Contracts see it as `Keys`; `key_for` tells the key of two replicas.
#[derive(Drop)]
pub struct KeyTable {
    /// The layout whose groups contents are sealed for.
    layout: Layout,
    /// The key of each pair that has one; no pair is of one replica twice.
    keys: BTreeMap<Pair, Key>,
}

impl Model for KeyTable {
    ghost use Rattle.std.specs.FinMap as map;
    ghost use Rattle.pws_auth.specs.Keys.{Keys, keys_code};

    ghost Value = { Keys };

    ghost coded = { keys_code };

    ghost view = { λ t. record { layout = t.layout; keys = map.from_entries t.keys.entries } };
}

impl KeyTable {
    /// A table without keys.
    fn empty(alloc: Global, layout: &Layout) -> KeyTable
        ensures layout { result.layout ≡ layout.now }
        ensures keys { result.keys ≡ empty }
    {
        KeyTable {
            layout: *layout,
            keys: BTreeMap::new(alloc),
        }
    }

    /// Gives a pair its key.
    fn put(&mut self, pair: Pair, key: Key) -> Result<(), Memory>
        ensures layout { self.new.layout ≡ self.old.layout }
        ensures keys { OnOk result (self.new.keys ≡ insert self.old.keys pair key) }
    {
        let _before = self.keys.insert(pair, key)?;
        Ok(())
    }

    /// Gives a replica and each of others the key of their pair that a seed makes.
    fn add_keys(
        &mut self,
        seed: &[u8; 32],
        member: ReplicaId,
        others: &[ReplicaId],
    ) -> Result<(), Memory>
        ensures layout { self.new.layout ≡ self.old.layout }
        ensures keys { OnOk result ((a b : ReplicaId) → key_for self.new a b ≡ added_by_seed seed.now member others.now a b (key_for self.old a b)) }
    {
        for other in others {
            let pair = Pair::of(member, *other);
            self.put(pair, seed_key(seed, pair))?;
        }
        Ok(())
    }

    /// The table of a layout in which each two replicas share the key that a seed makes.
    ///
    /// # Errors
    ///
    /// `Memory` only.
    pub fn from_seed(alloc: Global, layout: &Layout, seed: &[u8; 32]) -> Result<KeyTable, Memory>
        ensures layout { IfOk result (λ table. table.layout ≡ layout.now) }
        ensures keys { IfOk result (λ table. IsTable table (key_of_seed layout.now seed.now)) }
        ensures seals { IfOk result (λ table. (a : ReplicaId) → IsTrue (has_replica layout.now a) → SealsForAll table a) }
    {
        let members = members_of(alloc, layout)?;
        let mut table = KeyTable::empty(alloc, layout);
        for (i, member) in members.iter().enumerate() {
            table.add_keys(seed, *member, &members[..i])?;
        }
        Ok(table)
    }

    /// Whether a replica can be given a row: it is a replica other than me, and has none yet.
    fn is_free(&self, me: ReplicaId, replica: ReplicaId) -> bool
        ensures { result ≡ is_free self.now me replica }
    {
        self.layout.has(replica) && replica != me && self.key(me, replica).is_none()
    }

    /// Gives me and the replica of a row its key.
    fn add_row(&mut self, me: ReplicaId, replica: ReplicaId, key: Key) -> Result<(), KeysError>
        ensures layout { self.new.layout ≡ self.old.layout }
        ensures adds { AddsRow self.old self.new me replica key result }
    {
        if !self.is_free(me, replica) {
            return Err(KeysError::BadKeys);
        }
        self.put(Pair::of(me, replica), key)?;
        Ok(())
    }

    /// The table of one replica, from rows that name each other replica of the layout and the key with it.
    ///
    /// # Errors
    ///
    /// `BadKeys` exactly where a row names me or no replica, one is named twice, or a replica other than me has no
    /// row; `Memory`.
    pub fn from_rows(
        alloc: Global,
        layout: &Layout,
        me: ReplicaId,
        rows: &[(ReplicaId, Key)],
    ) -> Result<KeyTable, KeysError>
        ensures layout { IfOk result (λ table. table.layout ≡ layout.now) }
        ensures rows { GivesRows layout.now me rows.now result }
        ensures seals { IfOk result (λ table. SealsForAll table me) }
    {
        let mut table = KeyTable::empty(alloc, layout);
        for row in rows {
            table.add_row(me, row.0, row.1)?;
        }
        let members = members_of(alloc, layout)?;
        if table.has_all(me, &members) {
            Ok(table)
        } else {
            Err(KeysError::BadKeys)
        }
    }

    /// Whether a sender can seal for each of these replicas.
    fn has_all(&self, sender: ReplicaId, members: &[ReplicaId]) -> bool
        ensures { result ≡ list_all (λ r. has_key self.now sender r) members.now }
    {
        members.iter().all(|member| self.has_key(sender, *member))
    }

    /// The key of two replicas.
    fn key(&self, a: ReplicaId, b: ReplicaId) -> Option<&Key>
        ensures { option_copied result ≡ key_for self.now a b }
    {
        if a == b {
            return None;
        }
        self.keys.get(&Pair::of(a, b))
    }

    /// Whether a sender can seal for this replica: it shares a key with it, or is it.
    fn has_key(&self, sender: ReplicaId, replica: ReplicaId) -> bool
        ensures { result ≡ has_key self.now sender replica }
    {
        sender == replica || self.key(sender, replica).is_some()
    }

    /// The shape of a group of the layout.
    fn shape(&self, group: GroupId) -> Option<GroupShape>
        ensures { result ≡ slice_get self.now.layout group }
    {
        self.layout.shape(group)
    }

    /// Whether a sender can seal for each of the first n replicas of a group.
    fn has_keys(&self, sender: ReplicaId, group: GroupId, n: u8) -> bool
        ensures { result ≡ has_keys self.now sender group n }
    {
        (0..n).all(|index| self.has_key(sender, ReplicaId { group, index }))
    }

    /// Whether a sender can seal for a group: it is a group of the layout, and the table has the sender's key with
    /// each replica of it but itself.
    pub fn can_seal(&self, sender: ReplicaId, group: GroupId) -> bool
        ensures { result ≡ can_seal self.now sender group }
    {
        match self.shape(group) {
            Some(shape) => self.has_keys(sender, group, shape.n()),
            None => false,
        }
    }

    /// The tag of a sender for a replica over the content that has this digest; 32 zero bytes for itself.
    fn tag_for(&self, sender: ReplicaId, replica: ReplicaId, digest: &[u8; 32]) -> Tag
        requires { IsTrue (has_key self.now sender replica) }
        ensures { (content : List ℕ) → digest.now ≡ sha256 content → result ≡ tag_for self.now sender content replica }
    {
        if sender == replica {
            return [0; 32];
        }
        match self.key(sender, replica) {
            Some(key) => tag_over(key, sender, replica, digest),
            None => unreachable!(),
        }
    }

    /// The tags of a sender over a content for the replicas of a group, rising by index, at most ten. The sender's own
    /// place is 32 zero bytes.
    ///
    /// # Errors
    ///
    /// `Memory` only.
    pub fn seal(
        &self,
        alloc: Global,
        sender: ReplicaId,
        content: &[u8],
        group: GroupId,
    ) -> Result<Sequence<Tag>, Memory>
        requires { IsTrue (can_seal self.now sender group) }
        ensures value { IfOk result (λ tags. tags ≡ tags_for self.now sender content.now group) }
        ensures few { IfOk result (λ tags. length tags ≤ 10) }
    {
        let Some(shape) = self.shape(group) else {
            unreachable!()
        };
        let digest = Sha256::digest(content);
        let mut tags = Sequence::new(alloc);
        for index in 0..shape.n() {
            tags.push(self.tag_for(sender, ReplicaId { group, index }, &digest))?;
        }
        Ok(tags)
    }

    /// Whether a tag is that of the sender for the receiver over this content, under a key that the table has.
    ///
    /// It is false where the table has no such key, as where sender and receiver are one.
    pub fn check(&self, sender: ReplicaId, receiver: ReplicaId, content: &[u8], tag: &Tag) -> bool
        ensures value { result ≡ is_tag self.now sender receiver content.now tag.now }
        ensures meaning { IsTrue result ↔ IsTag self.now sender receiver content.now tag.now }
    {
        match self.key(sender, receiver) {
            Some(key) => tag_over(key, sender, receiver, &Sha256::digest(content)) == *tag,
            None => false,
        }
    }
}

impl ExactCopy for KeyTable {
    fn copy(&self, alloc: Global) -> Result<KeyTable, Memory> {
        Ok(KeyTable {
            layout: self.layout,
            keys: self.keys.clone()?,
        })
    }
}
