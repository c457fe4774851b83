//! Each feasible and stable map of the smallest worlds: the check says of the map from scratch that it is the group-best one, and of no other.
ghost use Rattle.std.specs.Prelude.{◌≡◌, true};
ghost use Rattle.map_model.specs.Allocation.{IsGood};

use super::is_good;
use crate::tests::every_change::{STRIDE, mapped};
use crate::tests::listed::next_right;
use crate::tests::smallest::{KINDS, Kind, Small};
use best_check::is_best;
use evict::State;
use map_model::{Instance, MapLines};
use no_memory::NoMemory;
use std::alloc::Global;
use std::test::Fail;

/// How many worlds of each kind are tried, with limits and without. With `u64::MAX` all are.
const EACH: u64 = 60;

/// How many maps were the best ones, and how many were others.
#[derive(Clone, Copy)]
struct Counts {
    best: u64,
    others: u64,
}

/// Whether the check says of a good map that it is the group-best one.
fn says_best(alloc: Global, instance: &Instance, map: &MapLines) -> Result<bool, NoMemory>
    requires { IsGood instance.now map.now.lines.items map.now.names.items }
{
    let state = State::of_map(alloc, instance, map)?;
    is_best(alloc, instance, &state)
}

/// The counts with one map more, where the check says of it what it has to.
fn judged(
    alloc: Global,
    instance: &Instance,
    best: &MapLines,
    map: &MapLines,
    counts: Counts,
) -> Result<Counts, Fail> {
    if !is_good(alloc, instance, map)? {
        return Err(Fail::from("a map is not good"));
    }
    let is_the_best = map == best;
    if says_best(alloc, instance, map)? != is_the_best {
        return Err(Fail::from("the check says something else"));
    }
    let Counts { best, others } = counts;
    Ok(Counts {
        best: best.saturating_add(u64::from(is_the_best)),
        others: others.saturating_add(u64::from(!is_the_best)),
    })
}

/// The counts with all maps of a world.
fn tried(alloc: Global, kind: &Kind, small: &Small, counts: Counts) -> Result<Counts, Fail> {
    let instance = kind.instance(alloc, small)?;
    let best = mapped(alloc, &instance)?;
    let mut counts = counts;
    let mut from: u64 = 0;
    for _ in 0..729usize {
        let next = next_right(alloc, kind, &small.places, small.numbers, from)?;
        let Some((number, map)) = next else {
            return Ok(counts);
        };
        counts = judged(alloc, &instance, &best, &map, counts)?;
        from = number.saturating_add(1);
    }
    Ok(counts)
}

/// The same of the world of a number, if there is one, with limits or without.
fn tried_number(
    alloc: Global,
    kind: &Kind,
    number: u64,
    is_limited: bool,
    counts: Counts,
) -> Result<Counts, Fail> {
    match kind.world(alloc, number, is_limited)? {
        Some(small) => tried(alloc, kind, &small, counts),
        None => Ok(counts),
    }
}

/// The same of the worlds of a kind.
fn tried_kind(alloc: Global, kind: &Kind, counts: Counts) -> Result<Counts, Fail> {
    let mut counts = counts;
    let worlds = kind.worlds().max(1);
    for i in 0..worlds.min(EACH) {
        let number = i.wrapping_mul(STRIDE) % worlds;
        counts = tried_number(alloc, kind, number, false, counts)?;
        counts = tried_number(alloc, kind, number, true, counts)?;
    }
    Ok(counts)
}

#[test]
fn says_best_of_the_map_from_scratch_alone(rt: HostRuntime) -> Result<(), Fail> {
    let mut counts = Counts { best: 0, others: 0 };
    for kind in KINDS {
        counts = tried_kind(rt.alloc(), &Kind::of(*kind), counts)?;
    }
    assert!(rt;
        counts.best > 1_000 && counts.others > 0,
        "{} best maps, {} others",
        counts.best,
        counts.others
    );
    Ok(())
}
