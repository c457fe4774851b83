//! Limits of a feed.

/// The most octets of a line, its LF left out.
pub const LONGEST_LINE: usize = 8_300;

/// The most digits of a number.
pub const MOST_DIGITS: usize = 19;

/// The most changes of a batch.
pub const MOST_CHANGES: usize = 4_096;

/// How many octets a read of a feed may give.
pub const READ_SIZE: usize = 32_768;

/// The most reads of one run.
pub const MOST_TURNS: u64 = 1 << 48;

/// The most octets that the digits of one line can write.
pub const LONGEST_QUERY: usize = LONGEST_LINE / 2;
