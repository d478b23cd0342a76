//! The state of a script between two effects.

ghost use Rattle.std.specs.Prelude.{◌≡◌, IfOk};
ghost use Rattle.pws_driver.specs.Runs.{fresh_core};

use crate::keys::Keys;
use crate::values::Registers;
use pws_base::lists::ExactCopy;
use pws_base::memory::Memory;
use pws_script::operands::Register;
use rand_chacha::ChaCha20Rng;
use std::alloc::Global;

/// How many instructions a script may start between two effects that it takes.
pub(crate) const BUDGET: u32 = 10_000;

/// Which answers a wait takes: those of any call, or those of some.
#[derive(Debug, Drop)]
pub(crate) enum Answers {
    /// Of any call of the script.
    Any,
    /// Of these calls.
    Of(Keys),
}

/// A wait: what it takes, and where it puts what it took.
#[derive(Debug, Drop)]
pub(crate) struct Wait {
    /// Whether it takes requests.
    pub requests: bool,
    /// Which answers it takes.
    pub answers: Answers,
    /// The register of the call or request, if it is to be put.
    pub key: Option<Register>,
    /// The register of the message.
    pub message: Register,
}

/// What comes next.
#[derive(Debug, Drop)]
pub(crate) enum Mode {
    /// An instruction.
    Ready,
    /// A request or an answer for which the script waits.
    Waiting(Wait),
    /// The agreed time, for a register.
    AskingClock(Register),
    /// The agreed seed.
    AskingSeed,
    /// Nothing any more.
    Halted,
}

/// All that a script needs to go on but the effects that it hasn't taken.
#[derive(Drop)]
pub(crate) struct Core {
    /// What comes next.
    pub mode: Mode,
    /// How many lines stand before the next one.
    pub line: usize,
    /// How many instructions may be started before the next effect is taken.
    pub left: u32,
    /// The registers.
    pub registers: Registers,
    /// By group, the number of the last call.
    pub called: [u32; 16],
    /// The calls whose answers the script hasn't taken, in order.
    pub pending: Keys,
    /// The requests that were taken and not answered, in order.
    pub open_requests: Keys,
    /// The number of the last ask.
    pub asks: u32,
    /// The last agreed time, in milliseconds; 0 before the first.
    pub clock: u64,
    /// The stream of the last agreed seed.
    pub stream: Option<ChaCha20Rng>,
}

impl ExactCopy for Answers {
    fn copy(&self, alloc: Global) -> Result<Answers, Memory> {
        match self {
            Answers::Any => Ok(Answers::Any),
            Answers::Of(keys) => Ok(Answers::Of(keys.copy(alloc)?)),
        }
    }
}

impl ExactCopy for Wait {
    fn copy(&self, alloc: Global) -> Result<Wait, Memory> {
        Ok(Wait {
            requests: self.requests,
            answers: self.answers.copy(alloc)?,
            key: self.key,
            message: self.message,
        })
    }
}

impl ExactCopy for Mode {
    fn copy(&self, alloc: Global) -> Result<Mode, Memory> {
        match self {
            Mode::Ready => Ok(Mode::Ready),
            Mode::Waiting(wait) => Ok(Mode::Waiting(wait.copy(alloc)?)),
            Mode::AskingClock(into) => Ok(Mode::AskingClock(*into)),
            Mode::AskingSeed => Ok(Mode::AskingSeed),
            Mode::Halted => Ok(Mode::Halted),
        }
    }
}

/// A copy of a stream.
fn copy_stream(stream: &Option<ChaCha20Rng>) -> Result<Option<ChaCha20Rng>, Memory>
    ensures { IfOk result (λ c. c ≡ stream.now) }
{
    match stream {
        Some(stream) => Ok(Some(stream.clone()?)),
        None => Ok(None),
    }
}

impl Core {
    /// At the first line.
    ///
    /// # Errors
    ///
    /// `Memory` only.
    #[tactic(auto, unfolding(crate::specs::Runs::fresh_core))]
    pub fn new(alloc: Global) -> Result<Core, Memory>
        ensures { IfOk result (λ c. c ≡ fresh_core) }
    {
        Ok(Core {
            mode: Mode::Ready,
            line: 0,
            left: BUDGET,
            registers: Registers::new(alloc)?,
            called: [0; 16],
            pending: Keys::new(alloc),
            open_requests: Keys::new(alloc),
            asks: 0,
            clock: 0,
            stream: None,
        })
    }
}

impl ExactCopy for Core {
    fn copy(&self, alloc: Global) -> Result<Core, Memory> {
        Ok(Core {
            mode: self.mode.copy(alloc)?,
            line: self.line,
            left: self.left,
            registers: self.registers.copy(alloc)?,
            called: self.called,
            pending: self.pending.copy(alloc)?,
            open_requests: self.open_requests.copy(alloc)?,
            asks: self.asks,
            clock: self.clock,
            stream: copy_stream(&self.stream)?,
        })
    }
}
