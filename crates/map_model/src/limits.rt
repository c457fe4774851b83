//! The limits of an instance.

/// How many groups an instance may have.
pub const MOST_GROUPS: usize = 65_536;

/// How many nodes the trees of an instance may have.
pub const MOST_NODES: usize = 8_192;

/// How many nodes a path may have, from a pool up to its root.
pub const LEVELS: usize = 8;

/// How many places a group's list may have.
pub const PLACES: usize = 16;

/// How many units a node may hold at most.
pub const MOST_CAPACITY: u64 = 1 << 48;

/// The limit of an offer that has none of its own: no demand is larger.
pub const NO_LIMIT: u32 = u32::MAX;
