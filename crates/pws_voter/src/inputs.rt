//! What a voter is given.

use pws_base::bytes::Bytes;
use pws_base::lists::Sequence;
use pws_base::shapes::{ReplicaId, Tag};
use pws_msg::contents::Content;
use pws_msg::packets::Voucher;
use std::marker::Model;

/// A voucher, and whether its tag verified.
///
/// Contracts see it as a `Vouched`.
#[derive(Drop)]
pub struct Vouched {
    pub voucher: Voucher,
    pub is_verified: bool,
}

impl Model for Vouched {
    ghost use Rattle.pws_protocol.specs.Hearing.{Vouched};
    ghost use Rattle.pws_voter.specs.Codes.{vouched_code};

    ghost Value = { Vouched };

    ghost coded = { vouched_code };

    ghost view = { λ v. record { voucher = v.voucher; is_verified = v.is_verified } };
}

/// A packet of another replica that was opened.
///
/// Contracts see it as a `SaidFields`.
#[derive(Drop)]
pub struct Said {
    pub sender: ReplicaId,
    pub content: Content,
    /// Of a REPLY the body.
    pub body: Option<Bytes>,
    /// The tags of the packet, which are passed on as they came.
    pub tags: Sequence<Tag>,
    pub vouchers: Sequence<Vouched>,
}

impl Model for Said {
    ghost use Rattle.pws_protocol.specs.Hearing.{SaidFields};
    ghost use Rattle.pws_voter.specs.Codes.{said_code};

    ghost Value = { SaidFields };

    ghost coded = { said_code };

    ghost view = { λ x. record { sender = x.sender; content = x.content; body = x.body; tags = x.tags; vouchers = x.vouchers } };
}

/// What a voter is given.
#[derive(Drop)]
pub enum Input {
    /// A packet of another replica.
    Said(Said),
    /// The clock went on; with it come the own EXPIRED and READING that are said at this tick.
    Tick(Sequence<Content>),
    /// The event that was executed was carried out.
    Resume,
}
