//! Which place of a group's list a draw falls on.
ghost use Rattle.std.specs.Prelude.{◌≡◌, ◌<◌, ◌≤◌, ◌^◌, ◌+◌, ◌↔◌, IsNone, IsSome, IfSome, length, sum, take};
ghost use Rattle.map_model.specs.Allocation.{placed};
ghost use Rattle.published_map.specs.Version.{IsVersion};
ghost use Rattle.answer_core.specs.Pick.{IsPicked, pick_of, slot_of};

use map_model::GroupId;
use published_map::MapVersion;

/// The slot of a draw among so many units.
fn slot(draw: u64, units: u32) -> u32
    ensures exact { result ≡ slot_of draw units }
    ensures within { 0 < units → result < units }
{
    ((u128::from(draw) * u128::from(units)) >> 64) as u32
}

/// The place whose interval holds the slot, where intervals of these lengths are laid end to end from 0.
fn place(amounts: &[u32], slot: u32) -> Option<u8>
    requires few { length amounts.now ≤ 16 }
    requires total { sum amounts.now < 2 ^ 32 }
    ensures found { slot < sum amounts.now → IsSome result }
    ensures there { IfSome result (λ k. k < length amounts.now) }
    ensures from { IfSome result (λ k. sum (take k amounts.now) ≤ slot) }
    ensures to { IfSome result (λ k. slot < sum (take (k + 1) amounts.now)) }
{
    let mut end = 0;
    for (k, amount) in amounts.iter().enumerate() {
        end += *amount;
        if slot < end {
            return Some(k as u8);
        }
    }
    None
}

fn total(amounts: &[u32]) -> u32
    requires { sum amounts.now < 2 ^ 32 }
    ensures { result ≡ sum amounts.now }
{
    amounts.iter().sum()
}

/// The place of the group's list on which a draw falls: the units that the map places of the group are laid end to end in the list's order, and the draw is scaled from 2^64 to their number. None exactly where nothing is placed.
pub fn pick(version: &MapVersion, group: GroupId, draw: u64) -> Option<u8>
    requires group { group.0 < length version.now.market.groups }
    requires version { IsVersion version.now }
    ensures exact { result ≡ pick_of version.now group.0 draw }
    ensures none { IsNone result ↔ (placed version.now.lines group.0 ≡ 0) }
    ensures picked { IfSome result (IsPicked version.now group.0 draw) }
{
    let amounts = version.amounts(group);
    place(&amounts, slot(draw, total(&amounts)))
}
