//! What replicas read of the clock, or give as shares of a seed.

ghost use Rattle.std.specs.Prelude.{◌≡◌, ◌↔◌, IsTrue};
ghost use Rattle.pws_event.specs.Readings.{ClockFields, IsClock, RandomFields, IsRandom};

use pws_base::lists::{ExactCopy, Sequence};
use pws_base::memory::Memory;
use std::alloc::Global;
use std::marker::Model;

/// What is asked of the replicas of a group.
#[derive(Clone, Copy, Debug, PartialEq, Eq)]
pub enum Sort {
    /// The time, by readings of their clocks.
    Clock,
    /// A seed, by shares of it.
    Random,
}

/// What the replica of this index, 0 to 9, read of the clock, in milliseconds.
#[derive(Clone, Copy, Debug, PartialEq, Eq)]
pub struct Reading {
    pub index: u8,
    pub ms: u64,
}

/// The share of a seed that the replica of this index, 0 to 9, gives.
#[derive(Clone, Copy, Debug, PartialEq, Eq)]
pub struct Share {
    pub index: u8,
    pub bytes: [u8; 32],
}

impl ExactCopy for Reading {
    fn copy(&self, _alloc: Global) -> Result<Reading, Memory> {
        Ok(*self)
    }
}

impl ExactCopy for Share {
    fn copy(&self, _alloc: Global) -> Result<Share, Memory> {
        Ok(*self)
    }
}

/// The readings that answer an ask for the time.
///
/// The ask is 1 to 1,000,000. There are 1, 3, 5 or 7 readings, in the order of their replicas, each of another.
#[derive(Debug, Drop)]
pub struct Clock {
    ask: u32,
    readings: Sequence<Reading>,
}

impl Model for Clock {
    ghost use Rattle.pws_event.specs.Readings.{ClockFields, IsClock};

    ghost Value = { ClockFields };

    ghost view = { λ c. record { ask = c.ask; readings = c.readings } };

    ghost invariant = { λ c. IsClock (record { ask = c.ask; readings = c.readings }) };
}

impl Clock {
    /// An answer with these fields, which are to be in range.
    pub fn new(ask: u32, readings: Sequence<Reading>) -> Clock
        requires { IsClock (record { ask = ask; readings = readings }) }
        ensures { result ≡ record { ask = ask; readings = readings } }
    {
        Clock { ask, readings }
    }

    /// The ask that is answered, 1 to 1,000,000.
    pub fn ask(&self) -> u32
        ensures value { result ≡ self.now.ask }
        ensures lawful { IsClock self.now }
    {
        self.ask
    }

    /// The readings, which aren't copied.
    pub fn into_readings(self) -> Sequence<Reading>
        ensures value { result ≡ self.readings }
        ensures lawful { IsClock self }
    {
        let Clock { readings, .. } = self;
        readings
    }

    /// The readings, 1, 3, 5 or 7, rising by index.
    pub fn readings(&self) -> &[Reading]
        ensures value { result.now ≡ self.now.readings }
        ensures lawful { IsClock self.now }
    {
        self.readings.as_slice()
    }
}

impl ExactCopy for Clock {
    fn copy(&self, alloc: Global) -> Result<Clock, Memory> {
        Ok(Clock {
            ask: self.ask,
            readings: self.readings.copy(alloc)?,
        })
    }
}

impl PartialEq for Clock {
    ghost use Rattle.std.specs.Cmp.{partial_equiv_from_equiv};
    ghost use Rattle.pws_event.specs.Equal.{same_clock, clock_equiv};

    ghost eq = { same_clock };

    ghost laws = { partial_equiv_from_equiv clock_equiv };

    fn eq(&self, other: &Clock) -> bool
        ensures value { result ≡ same_clock self.now other.now }
        ensures same { IsTrue result ↔ (self.now ≡ other.now) }
    {
        self.ask == other.ask && self.readings.as_slice() == other.readings.as_slice()
    }
}

impl Eq for Clock {
    ghost use Rattle.pws_event.specs.Equal.{clock_equiv};

    ghost laws = { clock_equiv };
}

/// The shares that answer an ask for a seed.
///
/// The ask is 1 to 1,000,000. There are 1, 3, 5 or 7 shares, in the order of their replicas, each of another.
#[derive(Debug, Drop)]
pub struct Random {
    ask: u32,
    shares: Sequence<Share>,
}

impl Model for Random {
    ghost use Rattle.pws_event.specs.Readings.{RandomFields, IsRandom};

    ghost Value = { RandomFields };

    ghost view = { λ r. record { ask = r.ask; shares = r.shares } };

    ghost invariant = { λ r. IsRandom (record { ask = r.ask; shares = r.shares }) };
}

impl Random {
    /// An answer with these fields, which are to be in range.
    pub fn new(ask: u32, shares: Sequence<Share>) -> Random
        requires { IsRandom (record { ask = ask; shares = shares }) }
        ensures { result ≡ record { ask = ask; shares = shares } }
    {
        Random { ask, shares }
    }

    /// The ask that is answered, 1 to 1,000,000.
    pub fn ask(&self) -> u32
        ensures value { result ≡ self.now.ask }
        ensures lawful { IsRandom self.now }
    {
        self.ask
    }

    /// The shares, which aren't copied.
    pub fn into_shares(self) -> Sequence<Share>
        ensures value { result ≡ self.shares }
        ensures lawful { IsRandom self }
    {
        let Random { shares, .. } = self;
        shares
    }

    /// The shares, 1, 3, 5 or 7, rising by index.
    pub fn shares(&self) -> &[Share]
        ensures value { result.now ≡ self.now.shares }
        ensures lawful { IsRandom self.now }
    {
        self.shares.as_slice()
    }
}

impl ExactCopy for Random {
    fn copy(&self, alloc: Global) -> Result<Random, Memory> {
        Ok(Random {
            ask: self.ask,
            shares: self.shares.copy(alloc)?,
        })
    }
}

impl PartialEq for Random {
    ghost use Rattle.std.specs.Cmp.{partial_equiv_from_equiv};
    ghost use Rattle.pws_event.specs.Equal.{same_random, random_equiv};

    ghost eq = { same_random };

    ghost laws = { partial_equiv_from_equiv random_equiv };

    fn eq(&self, other: &Random) -> bool
        ensures value { result ≡ same_random self.now other.now }
        ensures same { IsTrue result ↔ (self.now ≡ other.now) }
    {
        self.ask == other.ask && self.shares.as_slice() == other.shares.as_slice()
    }
}

impl Eq for Random {
    ghost use Rattle.pws_event.specs.Equal.{random_equiv};

    ghost laws = { random_equiv };
}
