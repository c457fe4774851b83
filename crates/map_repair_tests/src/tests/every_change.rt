//! Each smallest world, mapped, and each single change of it, there and back, against the definitions.
use super::{changed, is_good, repaired};
use crate::tests::definitions::{
    Row, Side, is_kept, is_local, most_inside, moved, outside, reached, rows_of, spread,
};
use crate::tests::listed::{is_the_repaired, maps_at_most};
use crate::tests::smallest::{KINDS, Kind, Numbers, Small, back};
use deferred_accept::{finish, run};
use evict::State;
use map_model::{Change, Instance, MapLines, Proposals, Steps};
use no_memory::NoMemory;
use std::alloc::Global;
use std::test::Fail;

/// How many worlds of each kind are tried, with limits and without, spread over all of them. With `u64::MAX` all are: see bench/README.md.
const EACH: u64 = 20;

/// Prime, so that its multiples go through all numbers of a kind.
pub const STRIDE: u64 = 1_000_003;

/// A world with a good map.
#[derive(Drop)]
struct Standing {
    numbers: Numbers,
    instance: Instance,
    map: MapLines,
}

/// How many repairs there were, how many places of them stood outside the spread trees, and how many worlds had more than
/// one feasible and stable map.
#[derive(Clone, Copy)]
struct Tally {
    repairs: u64,
    outside: u64,
    several: u64,
}

impl Tally {
    const NONE: Tally = Tally {
        repairs: 0,
        outside: 0,
        several: 0,
    };

    fn and(self, more: Tally) -> Tally {
        Tally {
            repairs: self.repairs.saturating_add(more.repairs),
            outside: self.outside.saturating_add(more.outside),
            several: self.several.saturating_add(more.several),
        }
    }
}

/// The map of an instance from scratch.
pub fn mapped(alloc: Global, instance: &Instance) -> Result<MapLines, NoMemory> {
    let mut state = State::fresh(alloc, instance)?;
    let mut steps: Steps<Proposals> = Steps::new();
    run(alloc, instance, &mut state, &mut steps)?;
    finish(alloc, instance, state)
}

/// Whether a repair keeps what the definitions say, in that many proposals, with those in vain; how many places are outside its trees.
fn judged(rows: &[Row], reached: u8, proposals: u64) -> Option<u64> {
    let spread = spread(rows, reached);
    let kept = rows.iter().all(|row| is_kept(rows, reached, row));
    let local = rows.iter().all(|row| is_local(spread, row));
    if kept && local && proposals <= most_inside(rows, spread).saturating_mul(2) {
        Some(outside(rows, spread))
    } else {
        None
    }
}

/// What stands after a change, where its repair is as it should be.
fn stepped(
    alloc: Global,
    kind: &Kind,
    small: &Small,
    old: &Standing,
    change: Change,
) -> Result<(Standing, u64), Fail> {
    let numbers = old.numbers.changed(change);
    let instance = changed(alloc, &old.instance, &[change])?;
    let mut steps = Steps::new();
    let map = repaired(alloc, &old.instance, &old.map, &instance, &mut steps)?;
    if !is_good(alloc, &instance, &map)? {
        return Err(Fail::from("the repaired map is not good"));
    }
    let before = Side {
        numbers: old.numbers,
        map: &old.map,
    };
    let after = Side { numbers, map: &map };
    let rows = rows_of(alloc, &small.places, before, after)?;
    let reached = reached(&rows, moved(kind, &old.numbers, &numbers));
    if !is_the_repaired(kind, &small.places, before, after, reached) {
        return Err(Fail::from("another map is the repaired one"));
    }
    let outside = judged(&rows, reached, steps.count()).ok_or("the repaired map moves too much")?;
    Ok((
        Standing {
            numbers,
            instance,
            map,
        },
        outside,
    ))
}

/// A change and the one that leads back.
fn there_and_back(
    alloc: Global,
    kind: &Kind,
    small: &Small,
    old: &Standing,
    change: Change,
) -> Result<Tally, Fail> {
    let (new, there) = stepped(alloc, kind, small, old, change)?;
    let (_, again) = stepped(alloc, kind, small, &new, back(&old.numbers, change))?;
    Ok(Tally {
        repairs: 2,
        outside: there.saturating_add(again),
        several: 0,
    })
}

/// The map of a world from scratch, and all changes.
fn tried(alloc: Global, kind: &Kind, small: &Small) -> Result<Tally, Fail> {
    let instance = kind.instance(alloc, small)?;
    let map = mapped(alloc, &instance)?;
    let numbers = small.numbers;
    let maps = maps_at_most(kind, &small.places, numbers, &map.lines).ok_or(
        "another map places more",
    )?;
    let old = Standing {
        numbers,
        instance,
        map,
    };
    let mut tally = Tally {
        several: u64::from(maps > 1),
        ..Tally::NONE
    };
    for change in kind.changes(alloc, &numbers)?.as_slice() {
        tally = tally.and(there_and_back(alloc, kind, small, &old, *change)?);
    }
    Ok(tally)
}

/// All changes of the world of a number, if there is one, with limits or without.
fn tried_number(alloc: Global, kind: &Kind, number: u64, is_limited: bool) -> Result<Tally, Fail> {
    match kind.world(alloc, number, is_limited)? {
        Some(small) => tried(alloc, kind, &small),
        None => Ok(Tally::NONE),
    }
}

/// All changes of the worlds of a kind.
fn tried_kind(alloc: Global, kind: &Kind) -> Result<Tally, Fail> {
    let mut tally = Tally::NONE;
    let worlds = kind.worlds().max(1);
    for i in 0..worlds.min(EACH) {
        let number = i.wrapping_mul(STRIDE) % worlds;
        tally = tally.and(tried_number(alloc, kind, number, false)?);
        tally = tally.and(tried_number(alloc, kind, number, true)?);
    }
    Ok(tally)
}

#[test]
fn repairs_each_change_of_the_smallest_worlds(rt: HostRuntime) -> Result<(), Fail> {
    let mut tally = Tally::NONE;
    for kind in KINDS {
        tally = tally.and(tried_kind(rt.alloc(), &Kind::of(*kind))?);
    }
    assert!(rt;
        tally.repairs > 2_400 && tally.outside > 240 && tally.several > 0,
        "{} repairs, {} places outside, {} worlds with several maps",
        tally.repairs,
        tally.outside,
        tally.several
    );
    Ok(())
}
