//! A plain program of cut, roll back and run over any world: what is held stands in one list, and each node and each
//! place is looked at anew at every step.
use map_model::MapLine;
use no_memory::NoMemory;
use std::alloc::Global;
use worlds::{GroupAt, LimitAt, NodeAt};

/// More steps than any of the worlds here needs.
const MANY: usize = 100_000;

/// Constant rows of a world; its capacities and demands stand in lists that change.
#[derive(Clone, Copy)]
pub struct Rows {
    pub nodes: &'static [NodeAt],
    pub groups: &'static [GroupAt],
    pub limits: &'static [LimitAt],
}

/// A place of a group's list.
#[derive(Clone, Copy)]
pub struct Spot {
    group: u32,
    place: u8,
    pool: u32,
    score: u32,
    limit: u32,
}

/// A world with its numbers.
#[derive(Clone, Copy)]
pub struct Sight<'a> {
    pub nodes: &'a [NodeAt],
    pub spots: &'a [Spot],
    pub capacities: &'a [u64],
    pub demands: &'a [u32],
}

/// The limit of a place; without a row it has none.
fn limit_at(limits: &[LimitAt], group: u32, place: u8) -> u32 {
    for &(of, at, limit) in limits {
        if of == group && at == place {
            return limit;
        }
    }
    u32::MAX
}

/// Adds the places of a group.
fn list_group(
    spots: &mut Vec<Spot>,
    group: u32,
    list: &[(u32, u32)],
    limits: &[LimitAt],
) -> Result<(), NoMemory> {
    let mut place: u8 = 0;
    for &(pool, score) in list {
        let limit = limit_at(limits, group, place);
        spots.push(Spot {
            group,
            place,
            pool,
            score,
            limit,
        })?;
        place = place.saturating_add(1);
    }
    Ok(())
}

/// All places of a world, group by group.
pub fn spots_of(alloc: Global, rows: Rows) -> Result<Vec<Spot>, NoMemory> {
    let mut spots = Vec::new(alloc);
    let mut group: u32 = 0;
    for &(_, list) in rows.groups {
        list_group(&mut spots, group, list, rows.limits)?;
        group = group.saturating_add(1);
    }
    Ok(spots)
}

fn at(amounts: &[u32], i: usize) -> u32 {
    amounts.get(i).copied().unwrap_or(0)
}

fn take(amounts: &mut [u32], i: usize, units: u32) {
    if let Some(amount) = amounts.get_mut(i) {
        *amount = amount.saturating_sub(units);
    }
}

fn give(amounts: &mut [u32], i: usize, units: u32) {
    if let Some(amount) = amounts.get_mut(i) {
        *amount = amount.saturating_add(units);
    }
}

fn pointer_of(pointers: &[u8], group: u32) -> u8 {
    pointers.get(group as usize).copied().unwrap_or(0)
}

/// Sends a group on to the next place, where it stands at this one.
fn pass(pointers: &mut [u8], spot: Spot) {
    if let Some(pointer) = pointers.get_mut(spot.group as usize) {
        if *pointer == spot.place {
            *pointer = pointer.saturating_add(1);
        }
    }
}

fn is_on(marks: &[bool], node: u32) -> bool {
    marks.get(node as usize).copied().unwrap_or(false)
}

fn mark(marks: &mut [bool], node: u32) {
    if let Some(is_marked) = marks.get_mut(node as usize) {
        *is_marked = true;
    }
}

impl Sight<'_> {
    /// How many nodes there are.
    fn size(&self) -> u32 {
        u32::try_from(self.nodes.len()).unwrap_or(0)
    }

    /// How many groups there are.
    fn groups(&self) -> u32 {
        u32::try_from(self.demands.len()).unwrap_or(0)
    }

    fn capacity(&self, node: u32) -> u64 {
        self.capacities.get(node as usize).copied().unwrap_or(0)
    }

    fn demand(&self, group: u32) -> u32 {
        self.demands.get(group as usize).copied().unwrap_or(0)
    }

    fn parent(&self, node: u32) -> Option<u32> {
        match self.nodes.get(node as usize) {
            Some(&(_, parent, _)) => parent,
            None => None,
        }
    }

    fn root(&self, node: u32) -> u32 {
        let mut root = node;
        for _ in 0..8usize {
            root = self.parent(root).unwrap_or(root);
        }
        root
    }

    /// Whether a node is a pool or stands over it.
    fn is_over(&self, node: u32, pool: u32) -> bool {
        let mut at = pool;
        for _ in 0..8usize {
            if at == node {
                return true;
            }
            at = self.parent(at).unwrap_or(at);
        }
        false
    }

    /// The units under a node.
    fn load(&self, amounts: &[u32], node: u32) -> u64 {
        let mut sum: u64 = 0;
        for (spot, amount) in self.spots.iter().zip(amounts) {
            if self.is_over(node, spot.pool) {
                sum = sum.saturating_add(u64::from(*amount));
            }
        }
        sum
    }

    /// The units of a group up to a place.
    fn through(&self, amounts: &[u32], group: u32, last: u8) -> u32 {
        let mut sum: u32 = 0;
        for (spot, amount) in self.spots.iter().zip(amounts) {
            if spot.group == group && spot.place <= last {
                sum = sum.saturating_add(*amount);
            }
        }
        sum
    }

    /// The number of a group's place.
    fn spot_at(&self, group: u32, place: u8) -> Option<usize> {
        self.spots
            .iter()
            .position(|spot| spot.group == group && spot.place == place)
    }

    /// The number of the held place under a node that is ranked lowest there.
    fn worst(&self, amounts: &[u32], node: u32) -> Option<usize> {
        let mut worst = None;
        let mut least = (0, 0, 0);
        for (i, spot) in self.spots.iter().enumerate() {
            let key = (spot.score, spot.group, spot.pool);
            if at(amounts, i) > 0 && self.is_over(node, spot.pool) && key >= least {
                worst = Some(i);
                least = key;
            }
        }
        worst
    }

    /// Units go from under a node until it is within its capacity, those ranked lowest first.
    fn relieve(&self, amounts: &mut [u32], pointers: &mut [u8], node: u32) {
        for _ in 0..=self.spots.len() {
            let over = self.load(amounts, node).saturating_sub(self.capacity(node));
            let Some(i) = self.worst(amounts, node) else {
                return;
            };
            if over == 0 {
                return;
            }
            let units = u64::from(at(amounts, i)).min(over) as u32;
            take(amounts, i, units);
            if let Some(spot) = self.spots.get(i) {
                pass(pointers, *spot);
            }
        }
    }

    /// Each group gives up what is over its demand, at its last places first.
    fn trim(&self, amounts: &mut [u32]) {
        for (i, spot) in self.spots.iter().enumerate().rev() {
            let over = self
                .through(amounts, spot.group, u8::MAX)
                .saturating_sub(self.demand(spot.group));
            take(amounts, i, over.min(at(amounts, i)));
        }
    }

    /// Each node gives up what is over its capacity, the lowest nodes first.
    fn cut(&self, amounts: &mut [u32]) {
        for n in (0..self.size()).rev() {
            self.relieve(amounts, &mut [], n);
        }
    }

    /// Whether a place has units of its group's demand behind it, or none.
    fn is_wanted(&self, amounts: &[u32], spot: &Spot) -> bool {
        self.through(amounts, spot.group, spot.place) < self.demand(spot.group)
    }

    /// Marks the trees in which a capacity or a lowered group's units stand.
    fn mark_changed(&self, new: &Sight<'_>, amounts: &[u32], marks: &mut [bool]) {
        for n in 0..self.size() {
            if self.capacity(n) != new.capacity(n) {
                mark(marks, self.root(n));
            }
        }
        for (spot, amount) in self.spots.iter().zip(amounts) {
            if *amount > 0 && new.demand(spot.group) < self.demand(spot.group) {
                mark(marks, self.root(spot.pool));
            }
        }
    }

    /// Whether a group wants a place in a marked tree.
    fn wants_marked(&self, amounts: &[u32], marks: &[bool], group: u32) -> bool {
        for spot in self.spots {
            if spot.group == group
                && is_on(marks, self.root(spot.pool))
                && self.is_wanted(amounts, spot)
            {
                return true;
            }
        }
        false
    }

    /// Marks the trees that are reached from marked ones.
    fn mark_reached(&self, amounts: &[u32], marks: &mut [bool]) {
        for _ in 0..self.nodes.len() {
            for (spot, amount) in self.spots.iter().zip(amounts) {
                if *amount > 0 && self.wants_marked(amounts, marks, spot.group) {
                    mark(marks, self.root(spot.pool));
                }
            }
        }
    }

    /// The first place of a group that it does not want, or that stands in a marked tree.
    fn back(&self, amounts: &[u32], marks: &[bool], group: u32) -> u8 {
        let mut place: u8 = 0;
        for spot in self.spots {
            if spot.group == group {
                if !self.is_wanted(amounts, spot) || is_on(marks, self.root(spot.pool)) {
                    return spot.place;
                }
                place = spot.place.saturating_add(1);
            }
        }
        place
    }

    /// The number of the place at which a group with free units offers next.
    fn waiting(&self, amounts: &[u32], pointers: &[u8]) -> Option<usize> {
        for group in 0..self.groups() {
            if self.through(amounts, group, u8::MAX) < self.demand(group) {
                let next = self.spot_at(group, pointer_of(pointers, group));
                if next.is_some() {
                    return next;
                }
            }
        }
        None
    }

    /// A group offers its free units at a place, as many as its limit lets; where that is full the group goes on.
    fn offer(&self, amounts: &mut [u32], pointers: &mut [u8], i: usize, spot: Spot) {
        let free = self
            .demand(spot.group)
            .saturating_sub(self.through(amounts, spot.group, u8::MAX));
        let units = free.min(spot.limit.saturating_sub(at(amounts, i)));
        if units == 0 {
            pass(pointers, spot);
            return;
        }
        give(amounts, i, units);
        for n in (0..self.size()).rev() {
            if self.is_over(n, spot.pool) {
                self.relieve(amounts, pointers, n);
            }
        }
    }

    /// Groups offer until none has free units and a place left.
    fn run(&self, amounts: &mut [u32], pointers: &mut [u8]) {
        for _ in 0..MANY {
            let Some(i) = self.waiting(amounts, pointers) else {
                return;
            };
            if let Some(spot) = self.spots.get(i) {
                self.offer(amounts, pointers, i, *spot);
            }
        }
    }

    /// Nothing is held past its group's pointer.
    fn drop_past(&self, amounts: &mut [u32], pointers: &[u8]) {
        for (spot, amount) in self.spots.iter().zip(amounts.iter_mut()) {
            if spot.place > pointer_of(pointers, spot.group) {
                *amount = 0;
            }
        }
    }

    /// The marks of the trees that new numbers reach.
    fn marks(
        &self,
        alloc: Global,
        new: &Sight<'_>,
        amounts: &[u32],
    ) -> Result<Vec<bool>, NoMemory> {
        let mut marks = vec![in alloc; false; self.nodes.len()]?;
        self.mark_changed(new, amounts, marks.as_mut_slice());
        self.mark_reached(amounts, marks.as_mut_slice());
        Ok(marks)
    }

    /// Where each group goes back to.
    fn backs(&self, alloc: Global, amounts: &[u32], marks: &[bool]) -> Result<Vec<u8>, NoMemory> {
        let mut pointers = Vec::new(alloc);
        for group in 0..self.groups() {
            pointers.push(self.back(amounts, marks, group))?;
        }
        Ok(pointers)
    }

    /// Changes what is held for new numbers: cut, rolled back and run.
    pub fn repair(
        &self,
        alloc: Global,
        new: &Sight<'_>,
        amounts: &mut [u32],
    ) -> Result<(), NoMemory> {
        let marks = self.marks(alloc, new, amounts)?;
        let mut pointers = self.backs(alloc, amounts, marks.as_slice())?;
        new.trim(amounts);
        new.cut(amounts);
        new.drop_past(amounts, pointers.as_slice());
        new.run(amounts, pointers.as_mut_slice());
        Ok(())
    }

    /// What is held from scratch.
    pub fn map(&self, alloc: Global, amounts: &mut [u32]) -> Result<(), NoMemory> {
        let mut pointers: Vec<u8> = vec![in alloc; 0; self.demands.len()]?;
        self.run(amounts, pointers.as_mut_slice());
        Ok(())
    }

    /// Whether these lines hold just that.
    pub fn is_held(&self, amounts: &[u32], lines: &[MapLine]) -> bool {
        let mut next: usize = 0;
        for (spot, amount) in self.spots.iter().zip(amounts) {
            if *amount > 0 {
                if !is_line(lines, next, spot, *amount) {
                    return false;
                }
                next = next.saturating_add(1);
            }
        }
        next == lines.len()
    }
}

/// Whether the line of a number is that of a place with so many units.
fn is_line(lines: &[MapLine], i: usize, spot: &Spot, amount: u32) -> bool {
    match lines.get(i) {
        Some(line) => {
            line.group.0 == spot.group && line.place == spot.place && line.amount == amount
        }
        None => false,
    }
}
