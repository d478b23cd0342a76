//! The statuses with which the simulator ends.

ghost use Rattle.std.specs.Prelude.{◌≡◌};

/// How a run of the simulator ended.
#[derive(Clone, Copy, Debug, PartialEq, Eq)]
pub enum Status {
    /// The schedule was replayed to its end.
    Done,
    /// The words aren't the one word `run`.
    Usage,
    /// The source failed.
    ReadFault,
    /// The sink failed.
    WriteFault,
    /// There was no memory.
    Memory,
    /// The words are `run`, and the input passes 64 MiB or isn't a schedule of the first form, the only one that is
    /// built yet.
    Unbuilt,
}

impl Status {
    ghost use Rattle.pws_sched.specs.Statuses.{code_of};

    /// The exit status of a program that ends so.
    pub fn code(self) -> u8
        ensures { result ≡ code_of self }
    {
        match self {
            Status::Done => 0,
            Status::Usage => 2,
            Status::ReadFault => 6,
            Status::WriteFault => 7,
            Status::Memory => 8,
            Status::Unbuilt => 9,
        }
    }
}
