//! Putting and taking units, over the table of amounts and the queues.
ghost use Rattle.std.specs.Prelude.{◌≡◌, ◌==◌, true, ℕ, ◌+◌, ◌-◌, ◌<◌, ◌≤◌, ◌^◌, length, take, IfOk, OnOk, OnErr, slice_index, slice_set};
ghost use Rattle.map_model.specs.Market.{IsMarket};
ghost use Rattle.map_model.specs.Allocation.{AreLines, IsOffer, counts_at};
ghost use Rattle.std.specs.List.{list_any};
ghost use Rattle.offer_pool.specs.Seats.{seat_at};
ghost use Rattle.offer_pool.specs.Table.{amount_in, lines_in, place_at};
ghost use Rattle.offer_pool.specs.Filed.{IsHeld};

use crate::filing::{clean_all, place_at, push_all};
use crate::lists::Lists;
use crate::queue::{Queue, Seat};
use arrayvec::ArrayVec;
use map_model::{GroupId, LEVELS, MapLine, NodeId, Offer, PLACES, Units};
use no_memory::NoMemory;
use std::alloc::Global;

fn seat_of(lists: &Lists, offer: Offer) -> Seat
    requires { IsOffer lists.now offer.group.0 offer.place }
    ensures { result ≡ seat_at lists.now offer.group.0 offer.place }
{
    let key = lists.key(offer);
    Seat {
        score: key.score,
        group: key.group,
        pool: key.pool,
        place: offer.place,
    }
}

/// The nodes under which an offer stands.
fn nodes_above(lists: &Lists, offer: Offer) -> ArrayVec<NodeId, LEVELS>
    requires market { IsMarket lists.now }
    requires offer { IsOffer lists.now offer.group.0 offer.place }
    ensures among { (n : ℕ) → list_any (λ x. x.0 == n) result.items
        ≡ counts_at lists.now n offer.group.0 offer.place }
    ensures there { (n : ℕ) → list_any (λ x. x.0 == n) result.items ≡ true → n
        < length lists.now.nodes }
{
    lists.path(lists.pool_at(offer))
}

/// Files an offer that holds nothing, and gives it units. Where memory is wanted, a seat that was filed in vain is cleaned away where it is the worst, and else does no harm.
fn seat_units(
    lists: &Lists,
    amounts: &mut [u32],
    queues: &mut [Queue],
    offer: Offer,
    units: u32,
) -> Result<(), NoMemory>
    requires held { IsHeld lists.now amounts.old queues.old }
    requires offer { IsOffer lists.now offer.group.0 offer.place }
    requires none { amount_in amounts.old offer.group.0 offer.place ≡ 0 }
    requires some { 0 < units }
    ensures held { IsHeld lists.now amounts.new queues.new }
    ensures ok { OnOk result (amounts.new
        ≡ slice_set amounts.old (place_at offer.group.0 offer.place) units) }
    ensures err { OnErr result (amounts.new ≡ amounts.old) }
{
    let nodes = nodes_above(lists, offer);
    if push_all(queues, nodes.as_slice(), seat_of(lists, offer)).is_err() {
        clean_all(queues, nodes.as_slice(), amounts);
        return Err(NoMemory);
    }
    amounts[place_at(offer.group, offer.place)] = units;
    Ok(())
}

/// Adds units to an offer. Where memory is wanted the amounts stay.
pub fn put_units(
    lists: &Lists,
    amounts: &mut [u32],
    queues: &mut [Queue],
    offer: Offer,
    units: u32,
) -> Result<(), NoMemory>
    requires held { IsHeld lists.now amounts.old queues.old }
    requires offer { IsOffer lists.now offer.group.0 offer.place }
    requires room { amount_in amounts.old offer.group.0 offer.place + units < 2 ^ 32 }
    ensures held { IsHeld lists.now amounts.new queues.new }
    ensures ok { OnOk result (amounts.new
        ≡ slice_set amounts.old (place_at offer.group.0 offer.place)
        (amount_in amounts.old offer.group.0 offer.place + units)) }
    ensures err { OnErr result (amounts.new ≡ amounts.old) }
{
    let at = place_at(offer.group, offer.place);
    if units > 0 && amounts[at] == 0 {
        return seat_units(lists, amounts, queues, offer, units);
    }
    amounts[at] += units;
    Ok(())
}

/// Puts the lines of a map into an empty table.
pub fn put_lines(
    lists: &Lists,
    amounts: &mut [u32],
    queues: &mut [Queue],
    lines: &[MapLine],
) -> Result<(), NoMemory>
    requires held { IsHeld lists.now amounts.old queues.old }
    requires empty { (i : ℕ) → slice_index amounts.old i ≡ 0 }
    requires form { AreLines lists.now lines.now }
    ensures held { IsHeld lists.now amounts.new queues.new }
    ensures lines { OnOk result (lines_in amounts.new ≡ lines.now) }
{
    for line in lines {
        let units = line.amount;
        let offer = Offer {
            group: line.group,
            place: line.place,
        };
        put_units(lists, amounts, queues, offer, units)?;
    }
    Ok(())
}

/// Takes units of an offer.
pub fn take_units(
    lists: &Lists,
    amounts: &mut [u32],
    queues: &mut [Queue],
    offer: Offer,
    units: Units,
)
    requires held { IsHeld lists.now amounts.old queues.old }
    requires offer { IsOffer lists.now offer.group.0 offer.place }
    requires enough { units ≤ amount_in amounts.old offer.group.0 offer.place }
    ensures held { IsHeld lists.now amounts.new queues.new }
    ensures taken { amounts.new ≡ slice_set amounts.old (place_at offer.group.0 offer.place)
        (amount_in amounts.old offer.group.0 offer.place - units) }
{
    let at = place_at(offer.group, offer.place);
    amounts[at] -= units as u32;
    // While the offer holds something its seats are as live as before.
    if amounts[at] > 0 {
        return;
    }
    let above = nodes_above(lists, offer);
    clean_all(queues, above.as_slice(), amounts);
}

/// The lines of a table.
pub fn lines_of(alloc: Global, amounts: &[u32]) -> Result<Vec<MapLine>, NoMemory>
    requires { length amounts.now ≤ 2 ^ 20 }
    ensures { IfOk result (λ v. v.items ≡ lines_in amounts.now) }
{
    let mut lines = Vec::new(alloc);
    for (i, amount) in amounts.iter().enumerate() {
        if *amount > 0 {
            lines.push(MapLine {
                group: GroupId((i / PLACES) as u32),
                place: (i % PLACES) as u8,
                amount: *amount,
            })?;
        }
    }
    Ok(lines)
}
