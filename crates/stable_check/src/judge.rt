//! The verdict on a map, over room that is made once.

ghost use Rattle.std.specs.Prelude.{◌≡◌, ◌↔◌, ℕ, ◌*◌, ◌<◌, length, List, IfOk};
ghost use Rattle.map_model.specs.declared.lines.MapLine.{MapLine};
ghost use Rattle.map_model.specs.Allocation.{IsGood};
ghost use Rattle.stable_check.specs.declared.verdict.Verdict.TheVariants.{Good};
ghost use Rattle.stable_check.specs.Judgement.{Judges, RoomSize};

use crate::lines::first_bad_line;
use crate::scans::{
    first_bad_name, first_blocking, first_over_capacity, first_over_demand, first_over_limit,
};
use crate::tallies::{tally_groups, tally_loads, tally_places, tally_worst};
use crate::verdict::Verdict;
use map_model::{Instance, Key, MapLines, PLACES};
use no_memory::NoMemory;
use std::alloc::Global;
use std::marker::Model;

/// The room that a check of maps takes, for instances of one size.
#[derive(Debug, Drop)]
pub struct CheckRoom {
    totals: Vec<u64>,
    amounts: Vec<u64>,
    loads: Vec<u64>,
    worst: Vec<Option<Key>>,
}

impl Model for CheckRoom {
    ghost use Rattle.std.specs.Prelude.{◌≡◌, ◌*◌, length};
    ghost use Rattle.stable_check.specs.Judgement.{RoomSize};

    ghost Value = { RoomSize };

    ghost view = { λ r. record { groups = length r.totals.items; nodes = length r.loads.items } };

    ghost invariant = { λ r. (length r.amounts.items ≡ 16 * length r.totals.items)
        × (length r.worst.items ≡ length r.loads.items) };
}

impl CheckRoom {
    /// The room for checks of maps for this instance, and for each of as many groups and nodes.
    ///
    /// # Errors
    ///
    /// `NoMemory`.
    pub fn new(alloc: Global, instance: &Instance) -> Result<CheckRoom, NoMemory>
        ensures { IfOk result (λ r. r ≡ record
            { groups = length instance.now.groups; nodes = length instance.now.nodes }) }
    {
        let groups = instance.groups() as usize;
        let nodes = instance.nodes() as usize;
        Ok(CheckRoom {
            totals: vec![in alloc; 0; groups]?,
            amounts: vec![in alloc; 0; PLACES * groups]?,
            loads: vec![in alloc; 0; nodes]?,
            worst: vec![in alloc; None; nodes]?,
        })
    }
}

fn judge(
    instance: &Instance,
    map: &MapLines,
    totals: &mut [u64],
    amounts: &mut [u64],
    loads: &mut [u64],
    worst: &mut [Option<Key>],
) -> Verdict
    ghost held: { List MapLine }
    requires held { map.now.lines.items ≡ held }
    requires totals { length totals.old ≡ length instance.now.groups }
    requires amounts { length amounts.old ≡ 16 * length instance.now.groups }
    requires loads { length loads.old ≡ length instance.now.nodes }
    requires worst { length worst.old ≡ length instance.now.nodes }
    ensures { Judges instance.now map.now.lines.items map.now.names.items result }
{
    // tells the prover what the type keeps
    let _groups = instance.groups();
    let lines = map.lines.as_slice();
    let names = map.names.as_slice();
    if let Some(index) = first_bad_line(instance, lines) {
        return Verdict::BadLine { index };
    }
    tally_groups(lines, totals);
    if let Some(group) = first_over_demand(instance, totals) {
        return Verdict::OverDemand {
            group,
            placed: totals[group.0 as usize],
        };
    }
    tally_places(lines, amounts);
    if let Some(offer) = first_over_limit(instance, amounts) {
        return Verdict::OverLimit {
            group: offer.group,
            place: offer.place,
            amount: amounts[offer.group.0 as usize * PLACES + usize::from(offer.place)],
        };
    }
    tally_loads(instance, lines, loads);
    tally_worst(instance, lines, worst);
    if let Some(node) = first_over_capacity(instance, loads) {
        return Verdict::OverCapacity {
            node,
            load: loads[node.0 as usize],
        };
    }
    if let Some(offer) = first_blocking(instance, amounts, loads, worst) {
        return Verdict::Blocking {
            group: offer.group,
            place: offer.place,
        };
    }
    match first_bad_name(instance, names, amounts, loads, worst) {
        Some(index) => Verdict::BadName { index },
        None => Verdict::Good,
    }
}

/// Whether a map is good for an instance, or which fault it has first.
pub fn check(instance: &Instance, map: &MapLines, room: &mut CheckRoom) -> Verdict
    requires { room.old ≡ record {
      groups = length instance.now.groups;
      nodes = length
          instance.now.nodes;
    } }
    ensures judged { Judges instance.now map.now.lines.items map.now.names.items result }
    ensures good { (result ≡ Good) ↔ IsGood instance.now map.now.lines.items map.now.names.items }
    ensures room { room.new ≡ room.old }
{
    judge(
        instance,
        map,
        room.totals.as_mut_slice(),
        room.amounts.as_mut_slice(),
        room.loads.as_mut_slice(),
        room.worst.as_mut_slice(),
    )
}
