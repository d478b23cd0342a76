//! The numbers of the wire, in one place: those of its version 1.

/// The version byte.
pub const VERSION: u8 = 1;

/// The longest content, in bytes: a PRE_PREPARE of the longest event.
pub const LONGEST_CONTENT: usize = 32_791;

/// The most tags of a statement, one for each replica of a group.
pub const MOST_TAGS: u8 = 10;

/// The most vouchers of a packet.
pub const MOST_VOUCHERS: u8 = 10;

/// The most checkpoints of a view change.
pub const MOST_CHECKPOINTS: u8 = 3;

/// The most rows of each set of a view change.
pub const MOST_ROWS: u8 = 32;

/// The most digests of a row.
pub const MOST_DIGESTS: u8 = 16;

/// The most view changes that a new view names.
pub const MOST_NAMED: u8 = 10;

/// The most digests that a new view chooses.
pub const MOST_CHOSEN: u8 = 32;
