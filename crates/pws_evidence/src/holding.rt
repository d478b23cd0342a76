//! How many bytes are held.

ghost use Rattle.std.specs.Prelude.{◌≡◌, ◌<◌, ◌^◌, ◌+◌, length};
ghost use Rattle.std.specs.FinMap.{from_entries};
ghost use Rattle.pws_protocol.specs.Keys.{statement_cmp, body_cmp};
ghost use Rattle.pws_protocol.specs.Held.{over, content_size};

use crate::statements::Statement;
use pws_base::bytes::Bytes;
use pws_msg::content_lengths::content_length;
use pws_protocol::keys::{BodyKey, StatementKey};
use std::collections::BTreeMap;

/// How long a statement is.
fn statement_length(statement: &Statement) -> u64
    ensures { result ≡ content_size statement.now }
{
    content_length(statement.content()) as u64
}

/// How long all statements are.
pub(crate) fn statements_held(statements: &BTreeMap<StatementKey, Statement>) -> u64
    requires { over content_size (from_entries {R = statement_cmp} statements.now.entries) < 2 ^ 64 }
    ensures { result ≡ over content_size (from_entries {R = statement_cmp} statements.now.entries) }
{
    let mut total = 0u64;
    let mut left = statements.iter();
    while let Some((_key, statement)) = left.next_back() {
        total += statement_length(statement);
    }
    total
}

/// How long all bodies and their digests are.
pub(crate) fn bodies_held(bodies: &BTreeMap<BodyKey, Bytes>) -> u64
    requires { over (λ b. 32 + length b) (from_entries {R = body_cmp} bodies.now.entries) < 2 ^ 64 }
    ensures { result ≡ over (λ b. 32 + length b) (from_entries {R = body_cmp} bodies.now.entries) }
{
    let mut total = 0u64;
    let mut left = bodies.iter();
    while let Some((_key, body)) = left.next_back() {
        total += 32 + body.len() as u64;
    }
    total
}
