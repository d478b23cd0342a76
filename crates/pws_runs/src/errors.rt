//! Why packets aren't opened, inputs aren't kept, and moves are refused.

use pws_msg::errors::PacketError;

/// Why a packet isn't opened; where several reasons hold, the first.
#[derive(Clone, Copy, Debug, PartialEq, Eq)]
pub enum OpenError {
    /// The bytes spell no packet.
    Packet(PacketError),
    /// The sender is no replica, the receiver isn't this group, the tags aren't as many as its replicas, or the sender's
    /// group doesn't say such a thing.
    Unknown,
    /// The sender is the replica itself.
    Own,
    /// The tag for this replica isn't the sender's.
    Tag,
    /// The body hasn't the digest that the statement tells.
    Body,
}

/// Why an input changed nothing.
#[derive(Clone, Copy, Debug, PartialEq, Eq)]
pub enum Ignored {
    /// The packet wasn't opened.
    Unopened(OpenError),
    /// It isn't among what is kept.
    Outside,
    /// Another such statement of that sender is kept.
    Already,
}

/// Why a move of a world is refused; where several reasons hold, the first.
#[derive(Clone, Copy, Debug, PartialEq, Eq)]
pub enum StepError {
    /// The receiver is no correct replica.
    NoReplica,
    /// No packet of this number was sent.
    NoPacket,
    /// The input says something as a correct replica that this one never said to the receiver's group.
    Forged,
    /// Two different texts of the world after the move have one digest.
    Collision,
    /// What was sent and digested would pass 512 MiB.
    PoolFull,
}
