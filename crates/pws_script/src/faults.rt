//! Why a text is no script.

ghost use Rattle.std.specs.Prelude.{◌≡◌};
ghost use Rattle.pws_script.specs.Steps.{fault_at};

use pws_base::memory::Memory;
use std::alloc::{AllocError, AllocFailed};
use thiserror::Error;

/// What is wrong with a line, in the order in which a line's faults are answered.
#[derive(Clone, Copy, Debug, PartialEq, Eq, Error)]
pub enum ScriptFault {
    /// The text has more than 1,000 lines; it stands at line 1,001.
    #[error("more than 1,000 lines")]
    Long,
    /// The line isn't UTF-8, or its text literal isn't one: without its closing quote, with an unknown escape, with a
    /// character that XML doesn't have, or of more than 4,096 bytes.
    #[error("not UTF-8, or a bad text literal")]
    Text,
    /// The first word is no instruction, or the line has no line feed.
    #[error("an unknown instruction, or no line feed")]
    Word,
    /// The instruction has too few or too many words, or an empty name; of an empty text it stands at line 1.
    #[error("too few or too many words")]
    Count,
    /// A word that is to be a register is none of `r0` to `r31`.
    #[error("not a register")]
    Register,
    /// A word that is to be a number is no decimal without leading zeros, or out of range: a number below 2^64, a
    /// group below 16, a timeout below 2^32.
    #[error("not a number in range")]
    Number,
    /// A jump goes to a line that the script doesn't have.
    #[error("a jump to no line")]
    Target,
}

/// The first line that isn't in the grammar, counted from 1, and what is wrong with it.
#[derive(Clone, Copy, Debug, PartialEq, Eq, Error)]
#[error("line {line}: {kind}")]
pub struct ScriptError {
    pub line: u32,
    pub kind: ScriptFault,
}

/// Why no script was read.
#[derive(Clone, Copy, Debug, PartialEq, Eq, Error)]
pub enum ReadScriptError {
    #[error("{0}")]
    Script(ScriptError),
    #[error("out of memory")]
    Memory,
}

/// Why no instruction was read.
#[derive(Clone, Copy, Debug, PartialEq, Eq)]
pub(crate) enum LineError {
    Fault(ScriptFault),
    Memory,
}

impl LineError {
    /// The same of the line of this number.
    pub fn at(self, number: u32) -> ReadScriptError
        ensures { result ≡ fault_at number self }
    {
        match self {
            LineError::Fault(kind) => ReadScriptError::Script(ScriptError { line: number, kind }),
            LineError::Memory => ReadScriptError::Memory,
        }
    }
}

impl<T: Drop> From<AllocFailed<T>> for ReadScriptError {
    ghost use Rattle.std.specs.Prelude.{◌≡◌};
    ghost use Rattle.pws_script.specs.declared.faults.ReadScriptError.TheVariants as read_error;

    ghost from_gives = { λ _ e. e ≡ read_error.Memory };

    fn from(_error: AllocFailed<T>) -> ReadScriptError {
        ReadScriptError::Memory
    }
}

impl From<ScriptFault> for LineError {
    ghost use Rattle.std.specs.Prelude.{◌≡◌};
    ghost use Rattle.pws_script.specs.declared.faults.LineError.TheVariants as line_error;

    ghost from_gives = { λ fault e. e ≡ line_error.Fault fault };

    fn from(fault: ScriptFault) -> LineError {
        LineError::Fault(fault)
    }
}

impl From<Memory> for LineError {
    ghost use Rattle.std.specs.Prelude.{◌≡◌};
    ghost use Rattle.pws_script.specs.declared.faults.LineError.TheVariants as line_error;

    ghost from_gives = { λ _ e. e ≡ line_error.Memory };

    fn from(_error: Memory) -> LineError {
        LineError::Memory
    }
}

impl From<AllocError> for LineError {
    ghost use Rattle.std.specs.Prelude.{◌≡◌};
    ghost use Rattle.pws_script.specs.declared.faults.LineError.TheVariants as line_error;

    ghost from_gives = { λ _ e. e ≡ line_error.Memory };

    fn from(_error: AllocError) -> LineError {
        LineError::Memory
    }
}

impl<T: Drop> From<AllocFailed<T>> for LineError {
    ghost use Rattle.std.specs.Prelude.{◌≡◌};
    ghost use Rattle.pws_script.specs.declared.faults.LineError.TheVariants as line_error;

    ghost from_gives = { λ _ e. e ≡ line_error.Memory };

    fn from(_error: AllocFailed<T>) -> LineError {
        LineError::Memory
    }
}
