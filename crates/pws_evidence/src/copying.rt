//! Copies of the maps of evidence.

ghost use Rattle.std.specs.Prelude.{◌≡◌, IfOk, OnOk};
ghost use Rattle.std.specs.BTreeMap.{insert_entry};
ghost use Rattle.pws_protocol.specs.Keys.{statement_cmp, body_cmp};

use crate::statements::Statement;
use pws_base::bytes::Bytes;
use pws_base::lists::ExactCopy;
use pws_base::memory::Memory;
use pws_protocol::keys::{BodyKey, StatementKey};
use std::alloc::Global;
use std::collections::BTreeMap;

/// Puts a statement into a map.
fn put_statement(
    statements: &mut BTreeMap<StatementKey, Statement>,
    key: StatementKey,
    statement: Statement,
) -> Result<(), Memory>
    ensures { OnOk result (statements.new.entries ≡ insert_entry statement_cmp statements.old.entries key statement) }
{
    let _before = statements.insert(key, statement)?;
    Ok(())
}

/// A map with copies of the statements of another.
pub(crate) fn copy_statements(
    alloc: Global,
    statements: &BTreeMap<StatementKey, Statement>,
) -> Result<BTreeMap<StatementKey, Statement>, Memory>
    ensures { IfOk result (λ copies. copies.entries ≡ statements.now.entries) }
{
    let mut copies = BTreeMap::new(alloc);
    let mut left = statements.iter();
    while let Some((key, statement)) = left.next_back() {
        put_statement(&mut copies, *key, statement.copy(alloc)?)?;
    }
    Ok(copies)
}

/// Puts a body into a map.
fn put_body(bodies: &mut BTreeMap<BodyKey, Bytes>, key: BodyKey, body: Bytes) -> Result<(), Memory>
    ensures { OnOk result (bodies.new.entries ≡ insert_entry body_cmp bodies.old.entries key body) }
{
    let _before = bodies.insert(key, body)?;
    Ok(())
}

/// A map with copies of the bodies of another.
pub(crate) fn copy_bodies(
    alloc: Global,
    bodies: &BTreeMap<BodyKey, Bytes>,
) -> Result<BTreeMap<BodyKey, Bytes>, Memory>
    ensures { IfOk result (λ copies. copies.entries ≡ bodies.now.entries) }
{
    let mut copies = BTreeMap::new(alloc);
    let mut left = bodies.iter();
    while let Some((key, body)) = left.next_back() {
        put_body(&mut copies, *key, body.copy(alloc)?)?;
    }
    Ok(copies)
}
