//! Every map of a smallest world, by the definitions: which are feasible and stable, and which one a mapping or a repair gives.
ghost use Rattle.std.specs.Prelude.{◌<◌};

use crate::tests::definitions::{Side, has, units};
use crate::tests::smallest::{Digits, Kind, Numbers, Place};
use map_model::{By, GroupId, MapLine, MapLines, NameLine, NodeId};
use no_memory::NoMemory;
use std::alloc::Global;

/// The most places that such a world has: three groups at two pools, or two at three.
const MOST_PLACES: usize = 6;

/// The most units that a group asks for, and one.
const UNITS: u64 = 3;

/// Units at each place, in the order of the places; none beyond them.
type Amounts = [u32; MOST_PLACES];

/// Units at the places of a world, and its numbers.
#[derive(Clone, Copy)]
struct Held<'a> {
    kind: &'a Kind,
    places: &'a [Place],
    numbers: Numbers,
    amounts: Amounts,
}

/// The units of that number at each place.
fn amounts_of(number: u64) -> Amounts {
    let mut digits = Digits::of(number);
    [
        digits.take(UNITS) as u32,
        digits.take(UNITS) as u32,
        digits.take(UNITS) as u32,
        digits.take(UNITS) as u32,
        digits.take(UNITS) as u32,
        digits.take(UNITS) as u32,
    ]
}

/// How many numbers give units to these places alone.
fn count(places: &[Place]) -> u64 {
    let mut count: u64 = 1;
    for _ in 0..places.len() {
        count = count.saturating_mul(UNITS);
    }
    count
}

/// The units of a map at each place.
fn amounts_in(places: &[Place], lines: &[MapLine]) -> Amounts {
    let mut amounts: Amounts = [0; MOST_PLACES];
    for (amount, place) in amounts.iter_mut().zip(places) {
        *amount = units(lines, place.group, place.place, place.place);
    }
    amounts
}

/// Whether a node is a pool or stands over it.
fn is_over(kind: &Kind, node: u32, pool: u32) -> bool {
    let mut at = Some(pool);
    for _ in 0..3usize {
        if at == Some(node) {
            return true;
        }
        at = match at {
            Some(below) => kind.parent(below),
            None => None,
        };
    }
    false
}

impl<'a> Held<'a> {
    /// Other units at the same places.
    fn with(&self, number: u64) -> Held<'a> {
        Held {
            amounts: amounts_of(number),
            ..*self
        }
    }

    /// The units of a group at a place and at those before it.
    fn through(&self, group: u32, last: u8) -> u32 {
        let mut sum: u32 = 0;
        for (place, amount) in self.places.iter().zip(&self.amounts) {
            if place.group == group && place.place <= last {
                sum = sum.saturating_add(*amount);
            }
        }
        sum
    }

    /// The units of a group.
    fn placed(&self, group: u32) -> u32 {
        self.through(group, u8::MAX)
    }

    /// The units under a node.
    fn load(&self, node: u32) -> u64 {
        let mut sum: u64 = 0;
        for (place, amount) in self.places.iter().zip(&self.amounts) {
            if is_over(self.kind, node, place.pool) {
                sum = sum.saturating_add(u64::from(*amount));
            }
        }
        sum
    }

    /// Whether no node is over its capacity.
    fn fits(&self) -> bool {
        for node in 0..self.kind.size() {
            if self.load(node) > self.numbers.capacity(node) {
                return false;
            }
        }
        true
    }

    /// Whether something is held under a node that ranks lower than a place.
    fn has_worse(&self, node: u32, than: &Place) -> bool {
        for (place, amount) in self.places.iter().zip(&self.amounts) {
            if *amount > 0 && is_over(self.kind, node, place.pool) && place.key() > than.key() {
                return true;
            }
        }
        false
    }

    /// Whether a node refuses a place under it.
    fn is_refused_at(&self, node: u32, place: &Place) -> bool {
        self.load(node) == self.numbers.capacity(node) && !self.has_worse(node, place)
    }

    /// Whether some node refuses a place.
    fn is_turned_away(&self, place: &Place) -> bool {
        for node in 0..self.kind.size() {
            if is_over(self.kind, node, place.pool) && self.is_refused_at(node, place) {
                return true;
            }
        }
        false
    }

    /// What refuses a place: its limit, or else the node nearest to its pool that does.
    fn refuser(&self, place: &Place, amount: u32) -> By {
        if amount == place.limit {
            return By::Limit;
        }
        let mut at = place.pool;
        for _ in 0..3usize {
            if self.is_refused_at(at, place) {
                break;
            }
            at = self.kind.parent(at).unwrap_or(at);
        }
        By::Node(NodeId(at))
    }

    /// The map of these units, if they are those of a feasible and stable one.
    fn map(&self, alloc: Global) -> Result<MapLines, NoMemory> {
        let mut map = MapLines {
            lines: Vec::new(alloc),
            names: Vec::new(alloc),
        };
        for (place, amount) in self.places.iter().zip(&self.amounts) {
            let group = GroupId(place.group);
            if *amount > 0 {
                map.lines.push(MapLine {
                    group,
                    place: place.place,
                    amount: *amount,
                })?;
            }
            if self.through(place.group, place.place) < self.numbers.demand(place.group) {
                map.names.push(NameLine {
                    group,
                    place: place.place,
                    by: self.refuser(place, *amount),
                })?;
            }
        }
        Ok(map)
    }

    /// Whether no group has more than its demand, no place more than its limit, and no node more than its capacity.
    fn is_feasible(&self) -> bool {
        for (place, amount) in self.places.iter().zip(&self.amounts) {
            if *amount > place.limit
                || self.placed(place.group) > self.numbers.demand(place.group)
            {
                return false;
            }
        }
        self.fits()
    }

    /// Whether a place with so many units is refused by its limit or a node, or its group has all its demand there and before.
    fn is_content(&self, place: &Place, amount: u32) -> bool {
        amount == place.limit
            || self.through(place.group, place.place) >= self.numbers.demand(place.group)
            || self.is_turned_away(place)
    }

    /// Whether the units are those of a feasible and stable map.
    fn is_right(&self) -> bool {
        if !self.is_feasible() {
            return false;
        }
        for (place, amount) in self.places.iter().zip(&self.amounts) {
            if !self.is_content(place, *amount) {
                return false;
            }
        }
        true
    }

    /// Whether no group has more at its places up to any than in another map.
    fn is_at_most(&self, other: &Held<'_>) -> bool {
        for place in self.places {
            if self.through(place.group, place.place) > other.through(place.group, place.place) {
                return false;
            }
        }
        true
    }

    /// Whether no place has more than in other units.
    fn is_part(&self, of: &Held<'a>) -> bool {
        self.amounts
            .iter()
            .zip(&of.amounts)
            .all(|(ours, theirs)| ours <= theirs)
    }

    /// Whether a place that has less than before is behind all others of its group, whose demand is still met.
    fn is_trimmed_at(&self, place: &Place) -> bool {
        self.through(place.group, place.place) == self.placed(place.group)
            && self.placed(place.group) >= self.numbers.demand(place.group)
    }

    /// Whether the units are what is left of others where each group has at most its demand, and gave up units at its last
    /// places, no more than it had to.
    fn is_trimmed(&self, of: &Held<'a>) -> bool {
        if !self.is_part(of) {
            return false;
        }
        for ((place, ours), theirs) in self.places.iter().zip(&self.amounts).zip(&of.amounts) {
            if self.placed(place.group) > self.numbers.demand(place.group)
                || ours < theirs && !self.is_trimmed_at(place)
            {
                return false;
            }
        }
        true
    }

    /// Whether the units are what is left of others where no node is over its capacity, and a node refuses whoever has less.
    fn is_left(&self, of: &Held<'a>) -> bool {
        if !self.is_part(of) || !self.fits() {
            return false;
        }
        for ((place, ours), theirs) in self.places.iter().zip(&self.amounts).zip(&of.amounts) {
            if ours < theirs && !self.is_turned_away(place) {
                return false;
            }
        }
        true
    }

    /// What is left of these units, once they are trimmed.
    fn trimmed(&self) -> Option<Held<'a>> {
        if self.is_trimmed(self) {
            return Some(*self);
        }
        for number in 0..count(self.places) {
            let held = self.with(number);
            if held.is_trimmed(self) {
                return Some(held);
            }
        }
        None
    }

    /// What is left of these units, once no node is over its capacity.
    fn left(&self) -> Option<Held<'a>> {
        if self.is_left(self) {
            return Some(*self);
        }
        for number in 0..count(self.places) {
            let held = self.with(number);
            if held.is_left(self) {
                return Some(held);
            }
        }
        None
    }

    /// The first place of a group that it does not want, or that lies in one of these trees.
    fn back(&self, group: u32, trees: u8) -> u8 {
        for place in self.places {
            let is_wanted = self.through(group, place.place) < self.numbers.demand(group);
            if place.group == group && (!is_wanted || has(trees, place.tree)) {
                return place.place;
            }
        }
        u8::MAX
    }

    /// Whether no place before its group's first one of such trees has more than in other units.
    fn is_within(&self, held: &Held<'_>, old: &Held<'_>, trees: u8) -> bool {
        for ((place, ours), theirs) in self.places.iter().zip(&self.amounts).zip(&held.amounts) {
            if place.place < old.back(place.group, trees) && ours > theirs {
                return false;
            }
        }
        true
    }
}

/// The units of a map of a world.
fn units_in<'a>(
    kind: &'a Kind,
    places: &'a [Place],
    numbers: Numbers,
    lines: &[MapLine],
) -> Held<'a> {
    Held {
        kind,
        places,
        numbers,
        amounts: amounts_in(places, lines),
    }
}

/// The next feasible and stable map of a world, from a number on, with its own number.
pub fn next_right(
    alloc: Global,
    kind: &Kind,
    places: &[Place],
    numbers: Numbers,
    from: u64,
) -> Result<Option<(u64, MapLines)>, NoMemory> {
    let none = units_in(kind, places, numbers, &[]);
    for number in from..count(places) {
        let units = none.with(number);
        if units.is_right() {
            return Ok(Some((number, units.map(alloc)?)));
        }
    }
    Ok(None)
}

/// How many feasible and stable maps a world has, if a map is one of them and none places more of any group at its places
/// up to any.
pub fn maps_at_most(
    kind: &Kind,
    places: &[Place],
    numbers: Numbers,
    lines: &[MapLine],
) -> Option<u64> {
    let ours = Held {
        kind,
        places,
        numbers,
        amounts: amounts_in(places, lines),
    };
    let mut right: u64 = 0;
    for number in 0..count(places) {
        let theirs = ours.with(number);
        if theirs.is_right() {
            if !theirs.is_at_most(&ours) {
                return None;
            }
            right = right.saturating_add(1);
        }
    }
    if ours.is_right() { Some(right) } else { None }
}

/// Whether a map is the repaired one of an old map: of the feasible and stable maps that move no group up past what it is
/// left with before its first place of a reached tree, it places the most of each group at its places up to any.
pub fn is_the_repaired(
    kind: &Kind,
    places: &[Place],
    old: Side<'_>,
    new: Side<'_>,
    reached: u8,
) -> bool {
    let was = Held {
        kind,
        places,
        numbers: old.numbers,
        amounts: amounts_in(places, &old.map.lines),
    };
    let numbers = new.numbers;
    let asked = Held { numbers, ..was };
    let Some(trimmed) = asked.trimmed() else {
        return false;
    };
    let Some(left) = trimmed.left() else {
        return false;
    };
    let amounts = amounts_in(places, &new.map.lines);
    let made = Held { amounts, ..asked };
    for number in 0..count(places) {
        let other = asked.with(number);
        if other.is_right() && other.is_within(&left, &was, reached) && !other.is_at_most(&made) {
            return false;
        }
    }
    made.is_right() && made.is_within(&left, &was, reached)
}
