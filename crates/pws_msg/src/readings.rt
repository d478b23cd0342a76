//! What a replica gives where its group's service asks for the time or for a seed.

ghost use Rattle.pws_msg.specs.Statements.{IsReadingValue};

use pws_base::lists::ExactCopy;
use pws_base::memory::Memory;
use std::alloc::Global;

/// A time, or a share of a seed.
#[derive(Clone, Copy, Debug, PartialEq, Eq)]
pub enum ReadingValue {
    /// What the replica's clock shows, in milliseconds.
    Time(u64),
    /// 32 random bytes.
    Share([u8; 32]),
}

impl ReadingValue {
    /// It is in range, by its type.
    pub fn is_lawful(&self)
        ensures { IsReadingValue self.now }
    {
        match *self {
            ReadingValue::Time(ms) => is_time(ms),
            ReadingValue::Share(share) => is_share(share),
        }
    }
}

fn is_time(ms: u64)
    ensures { IsReadingValue (ReadingValue.Time ms) }
{}

fn is_share(share: [u8; 32])
    ensures { IsReadingValue (ReadingValue.Share share) }
{}

impl ExactCopy for ReadingValue {
    fn copy(&self, _alloc: Global) -> Result<ReadingValue, Memory> {
        Ok(*self)
    }
}
