//! What a service does.

use pws_base::bytes::Bytes;
use pws_base::lists::ExactCopy;
use pws_base::memory::Memory;
use pws_base::shapes::{GroupId, Number};
use std::alloc::Global;

/// One act of a driver.
#[derive(Clone, Debug, Drop)]
pub enum Act {
    /// Calls another group. The low number is the least number of a call to that group whose answer the service hasn't
    /// taken, this call included; the timeout is in milliseconds, 0 for none.
    Call {
        called: GroupId,
        number: Number,
        low: Number,
        body: Bytes,
        timeout: u32,
    },
    /// Answers a request of another group.
    Reply {
        caller: GroupId,
        number: Number,
        body: Bytes,
    },
    /// Asks the group for an agreed time.
    AskClock {
        ask: u32,
    },
    /// Asks the group for an agreed seed.
    AskRandom {
        ask: u32,
    },
    /// Says that the service goes no further.
    Halted,
}

impl ExactCopy for Act {
    fn copy(&self, _alloc: Global) -> Result<Act, Memory> {
        Ok(self.clone()?)
    }
}
