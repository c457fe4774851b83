//! What repair keeps, by the definitions: every set of trees is tried, and the least closed one is what all have.
ghost use Rattle.std.specs.Prelude.{◌≡◌};

use crate::tests::smallest::{Kind, Numbers, Place};
use map_model::{By, MapLine, MapLines, NameLine};
use no_memory::NoMemory;
use std::alloc::Global;
use worlds::LIMIT;

/// Numbers, and a map that is good for them.
#[derive(Clone, Copy)]
pub struct Side<'a> {
    pub numbers: Numbers,
    pub map: &'a MapLines,
}

/// A place of a group's list before and after a repair.
#[derive(Clone, Copy)]
pub struct Row {
    group: u32,
    tree: u32,
    /// The group's units there, and those there and before it.
    held: u32,
    through: u32,
    is_wanted: bool,
    is_lowered: bool,
    is_raised: bool,
    /// The same of the repaired map.
    made: u32,
    made_through: u32,
    demand: u32,
    /// Whether the same limit or node refuses the place, or none does.
    is_named_alike: bool,
}

/// The units of a group at some places.
pub fn units(lines: &[MapLine], group: u32, from: u8, to: u8) -> u32 {
    let mut units: u32 = 0;
    for line in lines {
        if line.group.0 == group && from <= line.place && line.place <= to {
            units = units.saturating_add(line.amount);
        }
    }
    units
}

/// What refuses a place: its limit, or a node.
fn name_at(names: &[NameLine], group: u32, place: u8) -> Option<u32> {
    for name in names {
        if name.group.0 == group && name.place == place {
            return Some(match name.by {
                By::Limit => LIMIT,
                By::Node(node) => node.0,
            });
        }
    }
    None
}

fn row_of(place: &Place, old: Side<'_>, new: Side<'_>) -> Row {
    let Place {
        group,
        place,
        tree,
        ..
    } = *place;
    let through = units(&old.map.lines, group, 0, place);
    let (before, after) = (old.numbers.demand(group), new.numbers.demand(group));
    Row {
        group,
        tree,
        held: units(&old.map.lines, group, place, place),
        through,
        is_wanted: through < before,
        is_lowered: after < before,
        is_raised: before < after,
        made: units(&new.map.lines, group, place, place),
        made_through: units(&new.map.lines, group, 0, place),
        demand: after,
        is_named_alike: name_at(&old.map.names, group, place)
            == name_at(&new.map.names, group, place),
    }
}

/// All places before and after a repair.
pub fn rows_of(
    alloc: Global,
    places: &[Place],
    old: Side<'_>,
    new: Side<'_>,
) -> Result<Vec<Row>, NoMemory> {
    let mut rows = Vec::new(alloc);
    for place in places {
        rows.push(row_of(place, old, new))?;
    }
    Ok(rows)
}

/// Whether a tree is in a set, which has a bit for each root.
pub fn has(trees: u8, root: u32) -> bool {
    trees.checked_shr(root).unwrap_or(0) % 2 == 1
}

/// The trees in which a capacity differs.
pub fn moved(kind: &Kind, old: &Numbers, new: &Numbers) -> u8 {
    let mut trees: u8 = 0;
    for n in 0..3u32 {
        if old.capacity(n) != new.capacity(n) {
            trees |= 1u8.checked_shl(kind.root(n)).unwrap_or(0);
        }
    }
    trees
}

/// Whether a set that has the tree of one place has to have that of another: the group wants the one and has units at the other.
fn is_led_on(trees: u8, from: &Row, to: &Row) -> bool {
    from.group == to.group && from.is_wanted && to.held > 0 && has(trees, from.tree)
}

/// Whether a set of trees is closed under repair at one place.
fn is_closed_at(rows: &[Row], trees: u8, to: &Row) -> bool {
    has(trees, to.tree)
        || !(to.is_lowered && to.held > 0) && !rows.iter().any(|from| is_led_on(trees, from, to))
}

/// Whether a set of trees that has those of changed capacities is closed under repair.
fn is_closed_under_repair(rows: &[Row], moved: u8, trees: u8) -> bool {
    moved & !trees == 0 && rows.iter().all(|to| is_closed_at(rows, trees, to))
}

/// The reached trees.
pub fn reached(rows: &[Row], moved: u8) -> u8 {
    let mut least: u8 = 7;
    for trees in 0..8u8 {
        if is_closed_under_repair(rows, moved, trees) {
            least &= trees;
        }
    }
    least
}

/// Whether a set of trees has the tree of each place of a group, where it has that of one or the demand is raised.
fn is_spread_at(rows: &[Row], trees: u8, to: &Row) -> bool {
    let is_one = |from: &Row| from.group == to.group && has(trees, from.tree);
    has(trees, to.tree) || !to.is_raised && !rows.iter().any(is_one)
}

/// The spread trees.
pub fn spread(rows: &[Row], reached: u8) -> u8 {
    let mut least: u8 = 7;
    for trees in 0..8u8 {
        if reached & !trees == 0 && rows.iter().all(|to| is_spread_at(rows, trees, to)) {
            least &= trees;
        }
    }
    least
}

/// Whether a group has no old wanted place in a reached tree.
fn is_unreached(rows: &[Row], reached: u8, group: u32) -> bool {
    !rows.iter().any(|row| row.group == group && row.is_wanted && has(reached, row.tree))
}

/// Whether such a group is not moved up: up to each place that it wanted it has no more than before.
pub fn is_kept(rows: &[Row], reached: u8, row: &Row) -> bool {
    !row.is_wanted || !is_unreached(rows, reached, row.group) || row.made_through <= row.through
}

/// Whether a place outside the spread trees has the same units and the same name.
pub fn is_local(spread: u8, row: &Row) -> bool {
    has(spread, row.tree) || row.made == row.held && row.is_named_alike
}

/// How often groups with a pool in a spread tree may offer: once for each unit and once more, at each place.
pub fn most_inside(rows: &[Row], spread: u8) -> u64 {
    let mut most: u64 = 0;
    for row in rows {
        if has(spread, row.tree) {
            most = most.saturating_add(u64::from(row.demand) + 1);
        }
    }
    most
}

/// How many places lie outside the spread trees.
pub fn outside(rows: &[Row], spread: u8) -> u64 {
    let mut count: u64 = 0;
    for row in rows {
        if !has(spread, row.tree) {
            count = count.saturating_add(1);
        }
    }
    count
}
