//! The instructions of a script.

use crate::operands::{Calls, Group, Name, Register, Text};
use pws_base::lists::ExactCopy;
use pws_base::memory::Memory;
use std::alloc::Global;

/// A value that stands in a script.
#[derive(Clone, Debug, Drop, PartialEq, Eq)]
pub enum Literal {
    Number(u64),
    Text(Text),
}

impl ExactCopy for Literal {
    fn copy(&self, _alloc: Global) -> Result<Literal, Memory> {
        Ok(self.clone()?)
    }
}

/// One line of a script. Lines are counted from 1.
#[derive(Clone, Debug, Drop, PartialEq, Eq)]
pub enum Instruction {
    /// `set rD VALUE` puts the literal.
    Set {
        target: Register,
        literal: Literal,
    },
    /// `add rD rA rB` adds numbers.
    Add {
        target: Register,
        left: Register,
        right: Register,
    },
    /// `sub rD rA rB` subtracts numbers.
    Sub {
        target: Register,
        left: Register,
        right: Register,
    },
    /// `less rD rA rB` puts 1 if the left number is below the right, else 0.
    Less {
        target: Register,
        left: Register,
        right: Register,
    },
    /// `same rD rA rB` puts 1 if both are one kind and equal, else 0.
    Same {
        target: Register,
        left: Register,
        right: Register,
    },
    /// `jump L rA` goes to a line if the number isn't 0.
    Jump {
        line: u32,
        test: Register,
    },
    /// `join rD rA rB` joins texts.
    Join {
        target: Register,
        left: Register,
        right: Register,
    },
    /// `field rD rM NAME` takes the texts of an element of a message.
    Field {
        target: Register,
        message: Register,
        name: Name,
    },
    /// `receive rD rM` takes the first untaken request.
    Receive {
        request: Register,
        message: Register,
    },
    /// `call rD G rT MS` calls a group with a text; a timeout of 0 is none.
    Call {
        target: Register,
        group: Group,
        text: Register,
        timeout: u32,
    },
    /// `await rD rC` takes the answer of a call.
    Await {
        message: Register,
        call: Register,
    },
    /// `awaitany rD rM rA ...` takes the first answer of several calls.
    AwaitAny {
        call: Register,
        message: Register,
        calls: Calls,
    },
    /// `next rD rM` takes the first untaken request or answer.
    Next {
        source: Register,
        message: Register,
    },
    /// `reply rR rT` replies to a request with a text.
    Reply {
        request: Register,
        text: Register,
    },
    /// `clock rD` asks for the agreed clock and waits.
    Clock {
        target: Register,
    },
    /// `seed` asks for the agreed seed and waits.
    Seed,
    /// `draw rD rN` draws a number below another.
    Draw {
        target: Register,
        modulus: Register,
    },
    /// `stop` halts.
    Stop,
}

impl ExactCopy for Instruction {
    fn copy(&self, _alloc: Global) -> Result<Instruction, Memory> {
        Ok(self.clone()?)
    }
}
