//! Why there is no member, and why bytes weren't opened.

use pws_base::memory::Memory;
use pws_msg::errors::PacketReadError;
use pws_runs::errors::OpenError;
use thiserror::Error;

/// It is no replica of the layout, or a key of it is missing.
#[derive(Clone, Copy, Debug, PartialEq, Eq, Error)]
#[error("no replica, or a key is missing")]
pub struct BadReplica;

/// Why bytes weren't opened.
#[derive(Clone, Copy, Debug, PartialEq, Eq)]
pub enum OpeningError {
    /// They aren't to be opened, for this reason.
    Refused(OpenError),
    /// There was no memory.
    Memory,
}

impl From<Memory> for OpeningError {
    ghost use Rattle.std.specs.Prelude.{◌≡◌};
    ghost use Rattle.pws_opening.specs.declared.errors.OpeningError.TheVariants as opening_error;

    ghost from_gives = { λ _ e. e ≡ opening_error.Memory };

    fn from(_error: Memory) -> OpeningError {
        OpeningError::Memory
    }
}

impl From<PacketReadError> for OpeningError {
    ghost use Rattle.std.specs.Prelude.{◌≡◌};
    ghost use Rattle.pws_opening.specs.Opened.{opening_error_of};

    ghost from_gives = { λ r e. e ≡ opening_error_of r };

    fn from(error: PacketReadError) -> OpeningError {
        match error {
            PacketReadError::Refused(why) => OpeningError::Refused(OpenError::Packet(why)),
            PacketReadError::Memory => OpeningError::Memory,
        }
    }
}
