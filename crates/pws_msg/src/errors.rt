//! Why bytes spell no packet.

ghost use Rattle.std.specs.Prelude.{◌≡◌};

use pws_base::fields::{FaultKind, FieldError, FieldFault};
use thiserror::Error;

/// What is wrong with a packet.
#[derive(Clone, Copy, Debug, PartialEq, Eq, Error)]
pub enum PacketFault {
    /// It has more than 98,304 bytes.
    #[error("too long")]
    Long,
    /// A field isn't whole within the packet, or within its content.
    #[error("not whole")]
    Short,
    /// It doesn't begin with the letters PWS.
    #[error("no packet")]
    Magic,
    /// It has another version.
    #[error("another version")]
    Version,
    /// No content has this kind, or a voucher isn't to have it here.
    #[error("unknown kind")]
    Kind,
    /// A field is out of its range.
    #[error("out of range")]
    Range,
    /// Bytes are left over, in a content or in the packet.
    #[error("bytes are left over")]
    Rest,
}

/// What is wrong with a packet, and the place: of the first byte of the field that is wrong, or of the first byte left
/// over, counted from 0.
#[derive(Clone, Copy, Debug, PartialEq, Eq, Error)]
#[error("{kind} at {at}")]
pub struct PacketError {
    pub kind: PacketFault,
    pub at: usize,
}

/// Why no packet was read.
#[derive(Clone, Copy, Debug, PartialEq, Eq, Error)]
pub enum PacketReadError {
    /// The bytes spell no packet.
    #[error("{0}")]
    Refused(PacketError),
    /// There was no memory.
    #[error("out of memory")]
    Memory,
}

impl From<FaultKind> for PacketFault {
    ghost use Rattle.std.specs.Prelude.{◌≡◌};
    ghost use Rattle.pws_msg.specs.PacketFaults.{packet_fault_of};

    ghost from_gives = { λ k f. f ≡ packet_fault_of k };

    fn from(kind: FaultKind) -> PacketFault {
        match kind {
            FaultKind::Kind => PacketFault::Kind,
            FaultKind::Short => PacketFault::Short,
            FaultKind::Range => PacketFault::Range,
            FaultKind::Rest => PacketFault::Rest,
        }
    }
}

impl From<FieldFault> for PacketError {
    ghost use Rattle.std.specs.Prelude.{◌≡◌};
    ghost use Rattle.pws_msg.specs.PacketFaults.{packet_error_of};

    ghost from_gives = { λ f e. e ≡ packet_error_of f };

    fn from(fault: FieldFault) -> PacketError {
        PacketError {
            kind: PacketFault::from(fault.kind),
            at: fault.at,
        }
    }
}

impl From<PacketError> for PacketReadError {
    ghost use Rattle.std.specs.Prelude.{◌≡◌};
    ghost use Rattle.pws_msg.specs.declared.errors.PacketReadError.{PacketReadError};

    ghost from_gives = { λ e r. r ≡ PacketReadError.Refused e };

    fn from(error: PacketError) -> PacketReadError {
        PacketReadError::Refused(error)
    }
}

impl From<FieldFault> for PacketReadError {
    ghost use Rattle.std.specs.Prelude.{◌≡◌};
    ghost use Rattle.pws_msg.specs.declared.errors.PacketReadError.{PacketReadError};
    ghost use Rattle.pws_msg.specs.PacketFaults.{packet_error_of};

    ghost from_gives = { λ f r. r ≡ PacketReadError.Refused (packet_error_of f) };

    fn from(fault: FieldFault) -> PacketReadError {
        PacketReadError::Refused(PacketError::from(fault))
    }
}

impl From<FieldError> for PacketReadError {
    ghost use Rattle.std.specs.Prelude.{◌≡◌};
    ghost use Rattle.pws_msg.specs.PacketFaults.{read_error_of};

    ghost from_gives = { λ f r. r ≡ read_error_of f };

    fn from(error: FieldError) -> PacketReadError {
        match error {
            FieldError::Fault(fault) => PacketReadError::from(fault),
            FieldError::Memory => PacketReadError::Memory,
        }
    }
}
