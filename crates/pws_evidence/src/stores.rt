//! The store of evidence.

ghost use Rattle.std.specs.Prelude.{◌≡◌, filter, ◌<◌, ◌≤◌, ◌^◌, length, IfOk, OnOk, OnErr, None, Some};
ghost use Rattle.std.specs.Option.{option_copied};
ghost use Rattle.std.specs.FinMap.{get, contains_key};
ghost use Rattle.sha2.specs.Sha256.{sha256};
ghost use Rattle.pws_protocol.specs.Evidence.{no_evidence, first_of, matter_of, is_inside, is_call_inside, settled, with_body, with_statement};
ghost use Rattle.pws_protocol.specs.Held.{evidence_held};
ghost use Rattle.pws_evidence.specs.Stores.{IsStore, IsNamed, without_statement};

use crate::copying::{copy_bodies, copy_statements};
use crate::holding::{bodies_held, statements_held};
use crate::matters::{is_call_inside, is_inside};
use crate::statements::Statement;
use pws_base::bytes::Bytes;
use pws_base::lists::ExactCopy;
use pws_base::memory::Memory;
use pws_base::shapes::{GroupId, Layout, ReplicaId};
use pws_event::effects::Effect;
use pws_protocol::keys::{BodyKey, Matter, StatementKey};
use std::alloc::Global;
use std::collections::BTreeMap;
use std::marker::Model;

/// What the replicas of all groups said that concerns one group, and the bodies of replies to it.
///
/// Contracts see it as `Evidence`: finite maps from senders and matters to first statements, and from called groups,
/// numbers and digests to bodies.
#[derive(Drop)]
pub struct Evidence {
    /// The group whose evidence it is.
    group: GroupId,
    /// All groups.
    layout: Layout,
    /// By sender and matter, the first statement of the sender about the matter.
    statements: BTreeMap<StatementKey, Statement>,
    /// By called group, number and digest, the body of a reply that has this digest.
    bodies: BTreeMap<BodyKey, Bytes>,
}

impl Model for Evidence {
    ghost use Rattle.std.specs.FinMap as map;
    ghost use Rattle.pws_protocol.specs.Evidence.{Evidence};
    ghost use Rattle.pws_evidence.specs.Stores.{evidence_code, IsStore};

    ghost Value = { Evidence };

    ghost coded = { evidence_code };

    ghost view = { λ e. record { group = e.group; layout = e.layout; statements = map.from_entries e.statements.entries; bodies = map.from_entries e.bodies.entries } };

    ghost invariant = { λ e. IsStore (record { group = e.group; layout = e.layout; statements = map.from_entries e.statements.entries; bodies = map.from_entries e.bodies.entries }) };
}

/// Drops the statements about what is no longer inside.
fn keep_statements(
    statements: &mut BTreeMap<StatementKey, Statement>,
    group: GroupId,
    layout: &Layout,
    asked: &Effect,
)
    ensures { statements.new.entries ≡ filter (λ e. is_inside (no_evidence group layout.now) asked.now e.0.matter) statements.old.entries }
{
    statements.retain(|key, _statement| is_inside(group, layout, asked, key.matter));
}

/// Drops the bodies of replies that are no longer inside.
fn keep_bodies(
    bodies: &mut BTreeMap<BodyKey, Bytes>,
    group: GroupId,
    layout: &Layout,
    asked: &Effect,
)
    ensures { bodies.new.entries ≡ filter (λ e. is_call_inside (no_evidence group layout.now) asked.now e.0.called e.0.number) bodies.old.entries }
{
    bodies.retain(|key, _body| is_call_inside(group, layout, asked, key.called, key.number));
}

impl Evidence {
    /// No evidence of a group, which is to be one of the layout.
    pub fn new(alloc: Global, group: GroupId, layout: &Layout) -> Evidence
        requires { group < length layout.now }
        ensures { result ≡ no_evidence group layout.now }
    {
        Evidence {
            group,
            layout: *layout,
            statements: BTreeMap::new(alloc),
            bodies: BTreeMap::new(alloc),
        }
    }

    /// The group whose evidence it is.
    pub fn group(&self) -> GroupId
        ensures value { result ≡ self.now.group }
        ensures lawful { IsStore self.now }
    {
        self.group
    }

    /// All groups.
    pub fn layout(&self) -> Layout
        ensures value { result ≡ self.now.layout }
        ensures lawful { IsStore self.now }
    {
        self.layout
    }

    /// The statement that is kept of a sender about a matter.
    pub fn first_of(&self, sender: ReplicaId, matter: Matter) -> Option<&Statement>
        ensures value { option_copied result ≡ first_of self.now sender matter }
        ensures lawful { IsStore self.now }
    {
        self.statements.get(&StatementKey { sender, matter })
    }

    /// The body that is held of a called group's reply to a call, by its digest.
    pub fn body(&self, key: &BodyKey) -> Option<&[u8]>
        ensures value { option_copied result ≡ get self.now.bodies key.now }
        ensures lawful { IsStore self.now }
    {
        match self.bodies.get(key) {
            Some(body) => Some(body.as_slice()),
            None => None,
        }
    }

    /// Whether a body is held.
    pub fn has_body(&self, key: &BodyKey) -> bool
        ensures { result ≡ contains_key self.now.bodies key.now }
    {
        self.bodies.contains_key(key)
    }

    /// How many bytes are held: of a statement its length, of a body its length and 32 for its digest. What replicas of the
    /// layout said, once it is settled, has at most 160 MiB.
    #[tactic(auto, unfolding(pws_protocol::specs::Held::evidence_held))]
    pub fn held(&self) -> u64
        requires { evidence_held self.now < 2 ^ 64 }
        ensures { result ≡ evidence_held self.now }
    {
        statements_held(&self.statements) + bodies_held(&self.bodies)
    }

    /// Drops what is no longer inside.
    pub fn settle(&mut self, asked: &Effect)
        ensures { self.new ≡ settled self.old asked.now }
    {
        keep_statements(&mut self.statements, self.group, &self.layout, asked);
        keep_bodies(&mut self.bodies, self.group, &self.layout, asked);
    }

    /// Keeps a statement under its key.
    pub(crate) fn put_statement(
        &mut self,
        key: StatementKey,
        statement: Statement,
    ) -> Result<(), Memory>
        requires { matter_of self.old.group key.sender statement ≡ Some key.matter }
        ensures ok { OnOk result (self.new ≡ with_statement self.old key statement) }
        ensures err { OnErr result (self.new ≡ self.old) }
    {
        // shows: the content's fields are in range
        statement.content().is_lawful();
        self.statements.insert(key, statement)?;
        Ok(())
    }

    /// Drops the statement under a key.
    fn take_back(&mut self, key: &StatementKey)
        ensures { self.new ≡ without_statement self.old key.now }
    {
        let _statement = self.statements.remove(key);
    }

    /// Holds a body under its key.
    pub(crate) fn put_body(
        &mut self,
        alloc: Global,
        key: BodyKey,
        body: &[u8],
    ) -> Result<(), Memory>
        requires short { length body.now ≤ 32768 }
        requires digest { sha256 body.now ≡ key.digest }
        ensures ok { OnOk result (self.new ≡ with_body self.old (Some key) body.now) }
        ensures err { OnErr result (self.new ≡ self.old) }
    {
        self.bodies.insert(key, Bytes::from_slice(alloc, body)?)?;
        Ok(())
    }

    /// Keeps a sender's first statement about a matter, and holds the body where there is a key for it; without memory for
    /// both it does neither.
    pub(crate) fn put_both(
        &mut self,
        alloc: Global,
        key: StatementKey,
        statement: Statement,
        new: Option<BodyKey>,
        body: &[u8],
    ) -> Result<(), Memory>
        requires matter { matter_of self.old.group key.sender statement ≡ Some key.matter }
        requires first { get self.old.statements key ≡ None }
        requires short { length body.now ≤ 32768 }
        requires digest { IsNamed new body.now }
        ensures ok { OnOk result (self.new ≡ with_body (with_statement self.old key statement) new body.now) }
        ensures err { OnErr result (self.new ≡ self.old) }
    {
        self.put_statement(key, statement)?;
        let Some(name) = new else {
            return Ok(());
        };
        match self.put_body(alloc, name, body) {
            Ok(()) => Ok(()),
            Err(error) => {
                self.take_back(&key);
                Err(error)
            }
        }
    }
}

impl ExactCopy for Evidence {
    fn copy(&self, alloc: Global) -> Result<Evidence, Memory> {
        Ok(Evidence {
            group: self.group,
            layout: self.layout,
            statements: copy_statements(alloc, &self.statements)?,
            bodies: copy_bodies(alloc, &self.bodies)?,
        })
    }
}
