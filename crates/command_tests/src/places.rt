//! `places` over files: how many units stand at each place, worked out by hand.
use crate::circles;
use crate::maps::TWO_GOOD_CHANGED;
use glb::Status;
use std::test::Fail;
use trial_runs::Held::{Bytes, Missing, Topology, Zeros};
use trial_runs::{EMPTY_POOL, GOOD_FLAT, NO_DEFAULT, NO_LONGER_FULL, REGION, Row, first_wrong};

const PLACES: &[Row] = &[
    (
        Topology(REGION),
        Missing,
        Status::Ok,
        "place 0 10\nplace 1 5\nunplaced 1\n",
        1,
    ),
    // The other good map of these has two units at place 0 and two at place 1.
    (
        Topology(TWO_GOOD_CHANGED),
        Missing,
        Status::Ok,
        "place 0 4\nplace 1 0\nunplaced 0\n",
        1,
    ),
    (
        Topology(NO_LONGER_FULL),
        Missing,
        Status::Ok,
        "place 0 10\nunplaced 8\n",
        1,
    ),
    (
        Topology(EMPTY_POOL),
        Missing,
        Status::Ok,
        "place 0 0\nunplaced 1\n",
        1,
    ),
    (
        Topology(circles::PAIR),
        Missing,
        Status::Ok,
        "place 0 1\nplace 1 8589934589\nunplaced 1\n",
        1,
    ),
    (
        Zeros(67_108_865),
        Missing,
        Status::Refused,
        "refused topology too long\n",
        1,
    ),
    (
        Topology(NO_DEFAULT),
        Missing,
        Status::Refused,
        "refused topology 14 no default at family 6\n",
        1,
    ),
    (Missing, Bytes(GOOD_FLAT), Status::SourceFault, "", 1),
];

#[test]
fn places(rt: HostRuntime) -> Result<(), Fail> {
    assert_eq!(rt; first_wrong(&rt, &["glb", "places", "t"], PLACES)?, None);
    Ok(())
}
