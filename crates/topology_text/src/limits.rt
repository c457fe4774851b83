//! The limits of a topology file beside those of an instance.

/// How many prefixes all groups may have together.
pub const MOST_PREFIXES: usize = 262_144;

/// How many services a zone may have.
pub const MOST_SERVICES: usize = 64;

/// How many name servers a zone may have.
pub const MOST_NAME_SERVERS: usize = 4;

/// How many addresses of one family a pool may have.
pub const MOST_ADDRESSES: usize = 40;

/// How many octets a name of the zone may have on the wire.
pub const LONGEST_ZONE_NAME: usize = 64;

/// How many octets the name of a node or a group may have.
pub const LONGEST_ENTRY_NAME: usize = 32;

/// The highest number of seconds in a record (RFC 2181 section 8).
pub const MOST_SECONDS: u64 = 0x7fff_ffff;

/// How many keys a table has at most.
pub const MOST_KEYS: usize = 11;
