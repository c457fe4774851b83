//! Limits of what goes through a port, and of notes.

/// The most octets of a datagram that is answered.
pub const LARGEST_DATAGRAM: usize = 4_096;

/// The most octets of a reply that is sent.
pub const LARGEST_REPLY: usize = 1_300;

/// The most notes that one run tells of.
pub const MOST_NOTES: usize = 65_536;
