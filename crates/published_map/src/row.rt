//! The rows of a version.
ghost use Rattle.std.specs.Prelude.{◌≡◌, ◌<◌, ◌≤◌, ◌^◌, ◌==◌, if◌then◌else◌, map, sum_by};
ghost use Rattle.std.specs.List.{range_with_len};
ghost use Rattle.map_model.specs.declared.limits.TheConstants.{PLACES};

use arrayvec::ArrayVec;
use map_model::{By, PLACES};

/// What a map holds of one group: the demand for which it is made, the units at each place of the group's list that
/// has some, and what refuses at each place that is wanted, both by rising place.
#[derive(Clone, Drop)]
pub struct GroupRow {
    /// How many units the group asks for.
    pub demand: u32,
    /// Places of the group's list, from 0, and the units that are placed there, at least 1 in a map's form.
    pub amounts: ArrayVec<(u8, u32), PLACES>,
    /// Places of the group's list, from 0, and what refuses there.
    pub names: ArrayVec<(u8, By), PLACES>,
}

impl GroupRow {
    /// Takes over what another row holds. It takes no memory and never fails.
    pub fn copy_over(&mut self, from: &GroupRow)
        ensures { self.new ≡ from.now }
    {
        self.demand = from.demand;
        self.amounts.clear();
        let _ = self.amounts.try_extend_from_slice(from.amounts.as_slice());
        self.names.clear();
        let _ = self.names.try_extend_from_slice(from.names.as_slice());
    }
}

/// The units of a pair, if it is of that place.
fn units_in(pair: &(u8, u32), place: u8) -> u32
    ensures { result ≡ (if pair.now.0 == place then pair.now.1 else 0) }
{
    if pair.0 == place { pair.1 } else { 0 }
}

fn amount_in(own: &[(u8, u32)], place: u8) -> u32
    requires { sum_by (λ a. a.1) own.now < 2 ^ 32 }
    ensures { result ≡ sum_by (λ a. if a.0 == place then a.1 else 0) own.now }
{
    let mut units = 0;
    for pair in own {
        units += units_in(pair, place);
    }
    units
}

/// The units at the first places.
pub(crate) fn amounts(own: &[(u8, u32)], places: u8) -> ArrayVec<u32, PLACES>
    requires { (sum_by (λ a. a.1) own.now < 2 ^ 32) × (places ≤ PLACES) }
    ensures { result.items ≡ map (λ k. sum_by (λ a. if a.0 == k then a.1 else 0) own.now)
        (range_with_len 0 places) }
{
    let mut amounts = ArrayVec::new();
    for place in 0..places {
        amounts.push(amount_in(own, place));
    }
    amounts
}
