//! The worked examples, with their good maps, each computed by hand.
use crate::build::World;

/// A node that is a pool.
pub const POOL: bool = true;

/// A node that is none.
pub const INNER: bool = false;

/// The example of README: the second group is turned away in part by its better pool, and then by the root.
pub const EXAMPLE: World = World {
    name: "two-level eviction",
    nodes: &[(15, None, INNER), (10, Some(0), POOL), (10, Some(0), POOL)],
    groups: &[(8, &[(1, 1), (2, 2)]), (8, &[(1, 3), (2, 4)])],
    lines: &[(0, 0, 8), (1, 0, 2), (1, 1, 5)],
    names: &[(1, 0, 1), (1, 1, 0)],
};

/// The pool refuses the second group while it is full, and is not full at the end.
pub const REFUSER_NO_LONGER_FULL: World = World {
    name: "refuser no longer full",
    nodes: &[(10, None, INNER), (6, Some(0), POOL), (10, Some(0), POOL)],
    groups: &[(6, &[(1, 5)]), (4, &[(1, 6)]), (8, &[(2, 1)])],
    lines: &[(0, 0, 2), (2, 0, 8)],
    names: &[(0, 0, 0), (1, 0, 0)],
};

/// The region holds one group whole and a part of the other.
pub const FULL_REGION: World = World {
    name: "full region",
    nodes: &[(10, None, INNER), (10, Some(0), POOL), (10, Some(0), POOL)],
    groups: &[(8, &[(1, 1)]), (8, &[(2, 2)])],
    lines: &[(0, 0, 8), (1, 0, 2)],
    names: &[(1, 0, 0)],
};

/// The worse of two good maps: each of the first two groups has its second choice, and is refused at its first.
pub const TWO_GOOD_MAPS: World = World {
    name: "two good maps",
    nodes: &[(1, None, POOL), (1, None, POOL), (5, None, POOL)],
    groups: &[
        (1, &[(0, 2), (1, 1)]),
        (1, &[(1, 2), (0, 1)]),
        (1, &[(2, 1)]),
    ],
    lines: &[(0, 1, 1), (1, 1, 1), (2, 0, 1)],
    names: &[(0, 0, 0), (1, 0, 1)],
};

/// A pool that holds nothing.
pub const EMPTY_POOL: World = World {
    name: "empty pool",
    nodes: &[(0, None, POOL)],
    groups: &[(1, &[(0, 1)])],
    lines: &[],
    names: &[(0, 0, 0)],
};
