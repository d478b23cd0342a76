//! What is attached to the contents of each kind.

ghost use Rattle.std.specs.Prelude.{◌≡◌, ◌≤◌};
ghost use Rattle.pws_msg.specs.Rules.{rule_for};

use crate::kinds::Kind;
use crate::wire::MOST_VOUCHERS;

/// What a packet has attached: how many bodies, the kind of its vouchers where it may have any, and how many vouchers
/// at least and at most.
#[derive(Clone, Copy, Debug, PartialEq, Eq)]
pub struct AttachmentRule {
    /// How many bodies, 0 or 1.
    pub bodies: u8,
    /// The kind of each voucher.
    pub kind: Kind,
    /// The fewest vouchers.
    pub least: u8,
    /// The most vouchers, 0 to 10.
    pub most: u8,
}

/// The rule for contents of a kind: in a REPLY a body, and up to ten vouchers, each a REPLY; in a PART one voucher, a
/// REPLY; in a RELAY one, a VIEW_CHANGE; in all others nothing.
pub fn attachment_rule(kind: Kind) -> AttachmentRule
    ensures rule { result ≡ rule_for kind }
    ensures bodies { result.bodies ≤ 1 }
    ensures most { result.most ≤ 10 }
{
    let (bodies, vouchers, least, most) = match kind {
        Kind::Reply => (1, Kind::Reply, 0, MOST_VOUCHERS),
        Kind::Part => (0, Kind::Reply, 1, 1),
        Kind::Relay => (0, Kind::ViewChange, 1, 1),
        _ => (0, Kind::Reply, 0, 0),
    };
    AttachmentRule {
        bodies,
        kind: vouchers,
        least,
        most,
    }
}
