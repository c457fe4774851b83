//! The lines of a summary, and small worlds.
ghost use Rattle.std.specs.Prelude.{◌≤◌};

use big_run::{LINES, Summary, run_world};
use map_cell::{EmptyHistory, Naming};
use mapper::Totals;
use no_memory::NoMemory;
use std::alloc::Global;
use std::marker::Brand;
use std::sync::Wait;
use std::test::Fail;

const TEXTS: [&[u8]; LINES] = [
    b"large 64\n",
    b"nodes 10\n",
    b"maps 17\n",
    b"good 16\n",
    b"placed 0\n",
    b"unplaced 18446744073709551615\n",
    b"full 3\n",
    b"proposals 18446744073709551614\n",
    b"answered 60\n",
    b"servfail 4\n",
];

/// Whether the lines of a summary are these.
fn says(summary: &Summary, texts: &[&[u8]; LINES]) -> bool {
    let mut same = true;
    for i in 0..LINES {
        if summary.line(i).as_slice() != texts[i] {
            same = false;
        }
    }
    same
}

#[test]
fn lines(rt: HostRuntime) -> Result<(), Fail> {
    let summary = Summary {
        groups: 64,
        nodes: 10,
        maps: 17,
        good: 16,
        totals: Totals {
            placed: 0,
            unplaced: u64::MAX,
            full: 3,
        },
        proposals: u64::MAX - 1,
        answered: 60,
        servfail: 4,
    };
    assert!(rt; says(&summary, &TEXTS));
    Ok(())
}

/// A run over the world of so many groups.
fn world<R: Wait>(rt: &R, alloc: Global, groups: u32) -> Result<Summary, NoMemory>
    requires some { 1 ≤ groups }
    requires most { groups ≤ 16384 }
{
    run_world::<Brand, R>(rt, alloc, EmptyHistory::new(), groups)
}

/// Whether a run over a world has so many nodes, seventeen maps that are all good, and a reply for each group.
fn runs_well<R: Wait>(rt: &R, alloc: Global, groups: u32, nodes: u32) -> bool
    requires some { 1 ≤ groups }
    requires most { groups ≤ 16384 }
{
    match world(rt, alloc, groups) {
        Ok(summary) => {
            summary.groups == groups
                && summary.nodes == nodes
                && summary.maps == 17
                && summary.good == 17
                && summary.answered.checked_add(summary.servfail) == Some(u64::from(groups))
        }
        Err(_) => false,
    }
}

#[test]
fn small_worlds(rt: HostRuntime) -> Result<(), Fail> {
    assert!(rt; runs_well(&rt, rt.alloc(), 64, 10));
    assert!(rt; runs_well(&rt, rt.alloc(), 1, 5));
    Ok(())
}
