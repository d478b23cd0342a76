//! Sources and sinks over memory, for tests: the calls that fail are listed by their numbers.

use crate::lists::ExactCopy;
use crate::memory::Memory;
use crate::streams::{Got, Sink, Source, Took};
use std::alloc::Global;
use std::marker::Model;

/// How many calls were made, which are to fail, and how many did.
#[derive(Drop)]
struct Calls {
    failing: Vec<u32>,
    made: u64,
    faults: u64,
}

impl Model for Calls {
    ghost use Rattle.pws_base.specs.Calls.{CallCounts};

    ghost Value = { CallCounts };

    ghost view = { λ c. record { failing = c.failing.items; made = c.made; faults = c.faults } };
}

ghost use Rattle.std.specs.Prelude.{◌≡◌, ◌<◌, ◌-◌, [], Some, length, IfOk};
ghost use Rattle.pws_base.specs.Calls.{is_due, call_made, call_failed, calls_after, fresh_calls, read_of, left_after, write_of, held_after, writes_after};
ghost use Rattle.pws_base.specs.Streams.{Rose, FitsBuffer, ReadCause, TakesNext, FitsPiece, WriteCause, Holds};

impl Calls {
    fn new(failing: Vec<u32>) -> Calls
        ensures { result ≡ fresh_calls failing.items }
    {
        Calls {
            failing,
            made: 0,
            faults: 0,
        }
    }

    /// Counts a call, and says whether it is listed to fail.
    fn is_due(&mut self) -> bool
        ensures due { result ≡ is_due self.old }
        ensures made { self.new ≡ call_made self.old }
    {
        self.made = self.made.saturating_add(1);
        let number = self.made;
        self.failing
            .iter()
            .any(|listed| u64::from(*listed) == number)
    }

    /// Counts a fault.
    fn fail(&mut self)
        ensures failed { self.new ≡ call_failed self.old }
        ensures rose { Rose self.old.faults self.new.faults }
    {
        self.faults = self.faults.saturating_add(1);
    }
}

impl ExactCopy for Calls {
    fn copy(&self, alloc: Global) -> Result<Calls, Memory> {
        Ok(Calls {
            failing: self.failing.as_slice().to_vec(alloc)?,
            made: self.made,
            faults: self.faults,
        })
    }
}

/// A source over memory.
#[derive(Drop)]
pub struct MemorySource {
    bytes: Vec<u8>,
    at: usize,
    calls: Calls,
}

impl Model for MemorySource {
    ghost use Rattle.std.specs.Prelude.{◌≤◌, drop, vec_len};
    ghost use Rattle.pws_base.specs.Calls.{SourceState};

    ghost Value = { SourceState };

    ghost view = { λ s. record { left = drop s.at s.bytes.items; calls = s.calls } };

    ghost invariant = { λ s. s.at ≤ vec_len s.bytes };
}

impl MemorySource {
    /// A source of these bytes, which takes no memory, neither now nor when it is read. Its calls whose numbers, from
    /// 1, are in `failing` fail, and no others.
    pub fn new(bytes: Vec<u8>, failing: Vec<u32>) -> MemorySource
        ensures left { result.left ≡ bytes.items }
        ensures calls { result.calls ≡ fresh_calls failing.items }
    {
        MemorySource {
            bytes,
            at: 0,
            calls: Calls::new(failing),
        }
    }
}

impl Source for MemorySource {
    ghost left = { λ s. Some s.left };

    ghost faults = { λ s. s.calls.faults };

    fn read(&mut self, into: &mut [u8]) -> Got
        requires { 0 < length into.old }
        ensures fits { FitsBuffer result into.new }
        ensures next { TakesNext (Some self.old.left) (Some self.new.left) into.new result }
        ensures cause { ReadCause result self.old.calls.faults self.new.calls.faults }
        ensures answer { result ≡ read_of self.old (length into.old) }
        ensures left { self.new.left ≡ left_after self.old.left result }
        ensures calls { self.new.calls ≡ calls_after self.old.calls }
    {
        if self.calls.is_due() {
            self.calls.fail();
            return Got::Failed;
        }
        let left = self.bytes.len() - self.at;
        if left == 0 {
            return Got::End;
        }
        let count = left.min(into.len());
        into[..count].copy_from_slice(&self.bytes[self.at..self.at + count]);
        self.at += count;
        Got::Read(count)
    }
}

impl ExactCopy for MemorySource {
    fn copy(&self, alloc: Global) -> Result<MemorySource, Memory> {
        Ok(MemorySource {
            bytes: self.bytes.as_slice().to_vec(alloc)?,
            at: self.at,
            calls: self.calls.copy(alloc)?,
        })
    }
}

/// A sink over memory.
#[derive(Drop)]
pub struct MemorySink {
    bytes: Vec<u8>,
    room: usize,
    calls: Calls,
}

impl Model for MemorySink {
    ghost use Rattle.std.specs.Prelude.{◌≤◌, vec_len, vec_capacity};
    ghost use Rattle.pws_base.specs.Calls.{SinkState};

    ghost Value = { SinkState };

    ghost view = { λ s. record { held = s.bytes.items; room = s.room; calls = s.calls } };

    ghost invariant = { λ s. (vec_len s.bytes ≤ s.room) × (s.room ≤ vec_capacity s.bytes) };
}

impl MemorySink {
    /// A sink that can hold `room` bytes, for which it takes the memory now. Its calls whose numbers, from 1, are
    /// in `failing` fail, and those that find the room used up, and no others. A write takes no memory.
    ///
    /// # Errors
    ///
    /// `Memory` only.
    pub fn new(alloc: Global, room: usize, failing: Vec<u32>) -> Result<MemorySink, Memory>
        ensures { IfOk result (λ s. s ≡ record { held = []; room = room; calls = fresh_calls failing.items }) }
    {
        Ok(MemorySink {
            bytes: Vec::with_capacity(alloc, room)?,
            room,
            calls: Calls::new(failing),
        })
    }

    /// The bytes held.
    pub fn bytes(&self) -> &[u8]
        ensures { result.now ≡ self.now.held }
    {
        self.bytes.as_slice()
    }
}

impl Sink for MemorySink {
    ghost held = { λ s. Some s.held };

    ghost faults = { λ s. s.calls.faults };

    fn write(&mut self, from: &[u8]) -> Took
        requires { 0 < length from.now }
        ensures fits { FitsPiece result from.now }
        ensures grows { Holds (Some self.old.held) (Some self.new.held) from.now result }
        ensures cause { WriteCause result self.old.calls.faults self.new.calls.faults }
        ensures answer { result ≡ write_of self.old from.now }
        ensures held { self.new.held ≡ held_after self.old.held from.now result }
        ensures room { self.new.room ≡ self.old.room }
        ensures calls { self.new.calls ≡ writes_after self.old }
    {
        let room = self.room - self.bytes.len();
        if self.calls.is_due() || room == 0 {
            self.calls.fail();
            return Took::Failed;
        }
        let count = room.min(from.len());
        match self.bytes.extend_from_slice(&from[..count]) {
            Ok(()) => Took::Wrote(count),
            Err(_) => unreachable!(),
        }
    }
}

impl ExactCopy for MemorySink {
    fn copy(&self, alloc: Global) -> Result<MemorySink, Memory> {
        let mut bytes = Vec::with_capacity(alloc, self.room)?;
        bytes.extend_from_slice(self.bytes.as_slice())?;
        Ok(MemorySink {
            bytes,
            room: self.room,
            calls: self.calls.copy(alloc)?,
        })
    }
}
