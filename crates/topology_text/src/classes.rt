//! Which units are classes, and the unit of each group for each service.
ghost use Rattle.std.specs.Prelude.{◌≡◌, ◌+◌, ◌≤◌, ◌<◌, ◌*◌, ℕ, length, All, AllPairs, IfOk, slice_index_or};
ghost use Rattle.topology_text.specs.Plan.{unit_among};
ghost use Rattle.topology_text.specs.Units.{AreUnits, HasFewServices};

use crate::limits::MOST_SERVICES;
use map_model::GroupId;
use std::alloc::{AllocError, Global};
use std::marker::Model;

/// The classes' numbers, by group and service: 0 where there is none, which is a group's number.
fn table(alloc: Global, groups: usize, pairs: &[(GroupId, u8)]) -> Result<Vec<u32>, AllocError>
    requires few { groups + length pairs.now ≤ 65536 }
    requires owned { All (λ e. e.0.0 < groups) pairs.now }
    requires served { All (λ e. e.1 < 64) pairs.now }
    requires once { AllPairs (λ a b. a.0.0 ≡ b.0.0 → a.1 ≡ b.1 → ⊥) pairs.now }
    ensures { IfOk result (λ v. AreUnits v.items (record { groups = groups; pairs = pairs.now })) }
{
    if pairs.is_empty() {
        return Ok(Vec::new(alloc));
    }
    let mut units = vec![in alloc; 0u32; groups * MOST_SERVICES]?;
    for (i, pair) in pairs.iter().enumerate() {
        let at = pair.0.0 as usize * MOST_SERVICES + pair.1 as usize;
        units[at] = (groups + i) as u32;
    }
    Ok(units)
}

/// The classes of a topology, and how many groups stand before them.
#[derive(Drop)]
pub struct Classes {
    groups: usize,
    pairs: Vec<(GroupId, u8)>,
    units: Vec<u32>,
    ghost units_are: { AreUnits units.items (record { groups = groups; pairs = pairs.items }) },
    ghost none_behind: { HasFewServices (record { groups = groups; pairs = pairs.items }) },
}

impl Model for Classes {
    ghost use Rattle.topology_text.specs.Plan.{Classes as ClassList};

    ghost Value = { ClassList };

    ghost view = { λ a. record { groups = a.groups; pairs = a.pairs.items } };
}

impl Classes {
    /// These classes behind so many groups.
    pub(crate) fn new(
        alloc: Global,
        groups: usize,
        pairs: Vec<(GroupId, u8)>,
    ) -> Result<Classes, AllocError>
        requires few { groups + length pairs.items ≤ 65536 }
        requires owned { All (λ e. e.0.0 < groups) pairs.items }
        requires served { All (λ e. e.1 < 64) pairs.items }
        requires once { AllPairs (λ a b. a.0.0 ≡ b.0.0 → a.1 ≡ b.1 → ⊥) pairs.items }
        ensures { IfOk result (λ c. c ≡ record { groups = groups; pairs = pairs.items }) }
    {
        let units = table(alloc, groups, pairs.as_slice())?;
        Ok(Classes {
            groups,
            pairs,
            units,
        })
    }

    /// The unit of a group for a service: its class for that service where there is one, else the group.
    pub(crate) fn unit_of(&self, group: GroupId, service: u8) -> GroupId
        ensures { result.0 ≡ unit_among self.now group.0 service }
    {
        let units = &self.units;
        if service as usize >= MOST_SERVICES {
            return group;
        }
        match units.get(group.0 as usize * MOST_SERVICES + service as usize) {
            Some(unit) if *unit != 0 => GroupId(*unit),
            _ => group,
        }
    }
}
