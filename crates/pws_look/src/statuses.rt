//! The statuses with which the program ends.

ghost use Rattle.std.specs.Prelude.{◌≡◌};

/// How a run of `pws-look` ended.
#[derive(Clone, Copy, Debug, PartialEq, Eq)]
pub enum LookStatus {
    /// All texts were good.
    Good,
    /// Some text was refused, or a line isn't lower-case hexadecimal; the answers are printed all the same.
    Refused,
    /// The words aren't a kind, and then `--lines` or nothing.
    Usage,
    /// The input passes 64 MiB.
    Limit,
    /// The source failed.
    ReadFault,
    /// The sink failed.
    WriteFault,
    /// There was no memory.
    Memory,
}

impl LookStatus {
    ghost use Rattle.pws_look.specs.Statuses.{code_of};

    /// The exit status of a program that ends so.
    pub fn code(self) -> u8
        ensures { result ≡ code_of self }
    {
        match self {
            LookStatus::Good => 0,
            LookStatus::Refused => 1,
            LookStatus::Usage => 2,
            LookStatus::Limit => 5,
            LookStatus::ReadFault => 6,
            LookStatus::WriteFault => 7,
            LookStatus::Memory => 8,
        }
    }
}
