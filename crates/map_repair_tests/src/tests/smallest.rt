//! The smallest worlds by number: forests of up to three nodes, and up to three groups over their pools, without limits
//! and with limits of one to three units.
ghost use Rattle.std.specs.Prelude.{◌<◌};

use map_model::Change::{Capacity, Demand};
use map_model::{Change, Choice, ClientGroup, GroupId, Instance, NO_LIMIT, Node, NodeId};
use no_memory::NoMemory;
use std::alloc::Global;
use std::test::Fail;

/// A forest by the parent of each node, its pools, and how many groups ask there.
#[derive(Clone, Copy)]
pub struct Kind {
    parents: &'static [Option<u32>],
    pools: &'static [u32],
    groups: u32,
}

/// The parents, pools and groups of a kind.
pub type KindRow = (&'static [Option<u32>], &'static [u32], u32);

/// Each forest in which a parent stands first and the nodes without a child are the pools.
pub const KINDS: &[KindRow] = &[
    (&[None], &[0], 1),
    (&[None], &[0], 2),
    (&[None], &[0], 3),
    (&[None, None], &[0, 1], 2),
    (&[None, None], &[0, 1], 3),
    (&[None, Some(0)], &[1], 2),
    (&[None, Some(0)], &[1], 3),
    (&[None, Some(0), Some(1)], &[2], 2),
    (&[None, Some(0), Some(1)], &[2], 3),
    (&[None, Some(0), Some(0)], &[1, 2], 2),
    (&[None, Some(0), Some(0)], &[1, 2], 3),
    (&[None, Some(0), None], &[1, 2], 2),
    (&[None, Some(0), None], &[1, 2], 3),
    (&[None, None, Some(0)], &[1, 2], 2),
    (&[None, None, Some(0)], &[1, 2], 3),
    (&[None, None, Some(1)], &[0, 2], 2),
    (&[None, None, Some(1)], &[0, 2], 3),
    (&[None, None, None], &[0, 1, 2], 2),
];

/// Each list of pools: the first is of one pool, the first four are of two, and all are of three.
const LISTS: &[&[usize]] = &[
    &[0],
    &[1],
    &[0, 1],
    &[1, 0],
    &[2],
    &[0, 2],
    &[2, 0],
    &[1, 2],
    &[2, 1],
    &[0, 1, 2],
    &[0, 2, 1],
    &[1, 0, 2],
    &[1, 2, 0],
    &[2, 0, 1],
    &[2, 1, 0],
];

/// An odd number: its multiples tell limits by their upper halves.
const MIXED: u64 = 0x9E37_79B9_7F4A_7C15;

/// Capacities and demands, those beyond the nodes and groups of no account.
#[derive(Clone, Copy)]
pub struct Numbers {
    capacities: [u64; 3],
    demands: [u32; 3],
}

/// A place of a group's list.
#[derive(Clone, Copy)]
pub struct Place {
    pub group: u32,
    pub place: u8,
    pub pool: u32,
    score: u32,
    pub limit: u32,
    /// The root of the pool's tree.
    pub tree: u32,
}

/// A world.
#[derive(Drop)]
pub struct Small {
    pub places: Vec<Place>,
    pub numbers: Numbers,
}

impl Place {
    /// What offers are ranked by: the least is the best.
    pub fn key(&self) -> (u32, u32, u32) {
        (self.score, self.group, self.pool)
    }
}

impl Numbers {
    pub fn capacity(&self, node: u32) -> u64 {
        self.capacities.get(node as usize).copied().unwrap_or(0)
    }

    pub fn demand(&self, group: u32) -> u32 {
        self.demands.get(group as usize).copied().unwrap_or(0)
    }

    /// The numbers after a change.
    pub fn changed(&self, change: Change) -> Numbers {
        let mut numbers = *self;
        match change {
            Demand { group, demand } => {
                if let Some(old) = numbers.demands.get_mut(group.0 as usize) {
                    *old = demand;
                }
            }
            Capacity { node, capacity } => {
                if let Some(old) = numbers.capacities.get_mut(node.0 as usize) {
                    *old = capacity;
                }
            }
        }
        numbers
    }
}

/// The digits of a number.
#[derive(Drop)]
pub struct Digits {
    rest: u64,
}

impl Digits {
    pub fn of(rest: u64) -> Digits {
        Digits { rest }
    }

    /// The next digit, from the lowest on.
    pub fn take(&mut self, base: u64) -> u64
        requires { 0 < base }
        ensures { result < base }
    {
        let digit = self.rest % base;
        self.rest /= base;
        digit
    }

    /// The next digit where the thing of this number is there, and else 0.
    fn take_if(&mut self, is_there: bool, base: u64) -> u64
        requires { 0 < base }
        ensures { result < base }
    {
        if is_there { self.take(base) } else { 0 }
    }
}

/// A digit for the limit of each place of a world: 0 says that it has none of its own.
fn limits_of(number: u64, is_limited: bool) -> Digits {
    Digits::of(if is_limited {
        number.wrapping_mul(MIXED) / (1 << 32)
    } else {
        0
    })
}

fn limit_of(digit: u64) -> u32
    requires { digit < 4 }
{
    if digit == 0 { NO_LIMIT } else { digit as u32 }
}

impl Kind {
    pub fn of(row: KindRow) -> Kind {
        let (parents, pools, groups) = row;
        Kind {
            parents,
            pools,
            groups,
        }
    }

    /// How many lists of pools there are.
    fn lists(&self) -> u64
        ensures { 0 < result }
    {
        match self.pools.len() {
            1 => 1,
            2 => 4,
            _ => 15,
        }
    }

    /// How many ways there are to give each place of a list one of two scores.
    fn scores(&self) -> u64
        ensures { 0 < result }
    {
        match self.pools.len() {
            1 => 2,
            2 => 4,
            _ => 8,
        }
    }

    /// How many numbers its worlds have: of three capacities, two demands, the lists and their scores.
    pub fn worlds(&self) -> u64 {
        let mut count: u64 = 1;
        for _ in 0..self.parents.len() {
            count = count.saturating_mul(3);
        }
        for _ in 0..self.groups {
            count = count
                .saturating_mul(2)
                .saturating_mul(self.lists())
                .saturating_mul(self.scores());
        }
        count
    }

    /// How many nodes there are.
    pub fn size(&self) -> u32 {
        match self.parents.len() {
            1 => 1,
            2 => 2,
            _ => 3,
        }
    }

    pub fn parent(&self, node: u32) -> Option<u32> {
        self.parents.get(node as usize).copied().unwrap_or(None)
    }

    /// The root of a node's tree.
    pub fn root(&self, node: u32) -> u32 {
        let mut root = node;
        for _ in 0..3usize {
            root = self.parent(root).unwrap_or(root);
        }
        root
    }

    fn numbers(&self, digits: &mut Digits) -> Numbers {
        let nodes = self.parents.len();
        let groups = self.groups;
        Numbers {
            capacities: [
                digits.take_if(0 < nodes, 3),
                digits.take_if(1 < nodes, 3),
                digits.take_if(2 < nodes, 3),
            ],
            demands: [
                digits.take_if(0 < groups, 2) as u32 + 1,
                digits.take_if(1 < groups, 2) as u32 + 1,
                digits.take_if(2 < groups, 2) as u32 + 1,
            ],
        }
    }

    /// Gives a group a list, by two digits, and each place a limit, by one of others. Not where the scores go beyond the
    /// list, as those of another number.
    fn ask(
        &self,
        group: u32,
        digits: &mut Digits,
        limits: &mut Digits,
        places: &mut Vec<Place>,
    ) -> Result<bool, NoMemory> {
        let list = digits.take(self.lists());
        let mut scores = digits.take(self.scores());
        let mut place: u8 = 0;
        for which in *LISTS.get(list as usize).unwrap_or(&LISTS[0]) {
            let pool = self.pools.get(*which).copied().unwrap_or(0);
            let tree = self.root(pool);
            let score = (scores % 2) as u32;
            let limit = limit_of(limits.take(4));
            places.push(Place {
                group,
                place,
                pool,
                score,
                limit,
                tree,
            })?;
            place = place.saturating_add(1);
            scores /= 2;
        }
        Ok(scores == 0)
    }

    /// The world of that number, with limits or without; none where another number has the same.
    pub fn world(
        &self,
        alloc: Global,
        number: u64,
        is_limited: bool,
    ) -> Result<Option<Small>, NoMemory> {
        let mut digits = Digits::of(number);
        let mut limits = limits_of(number, is_limited);
        let numbers = self.numbers(&mut digits);
        let mut places = Vec::new(alloc);
        for group in 0..self.groups {
            if !self.ask(group, &mut digits, &mut limits, &mut places)? {
                return Ok(None);
            }
        }
        Ok(Some(Small { places, numbers }))
    }

    fn nodes(&self, alloc: Global, numbers: &Numbers) -> Result<Vec<Node>, NoMemory> {
        let mut nodes = Vec::new(alloc);
        for n in 0..self.size() {
            nodes.push(Node {
                capacity: numbers.capacity(n),
                parent: self.parent(n).map(NodeId),
                is_pool: self.pools.contains(&n),
            })?;
        }
        Ok(nodes)
    }

    /// The instance of a world.
    pub fn instance(&self, alloc: Global, small: &Small) -> Result<Instance, Fail> {
        let nodes = self.nodes(alloc, &small.numbers)?;
        let mut groups = Vec::new(alloc);
        for group in 0..self.groups {
            let choices = choices_of(alloc, &small.places, group)?;
            groups.push(ClientGroup::new(small.numbers.demand(group), choices))?;
        }
        Ok(Instance::try_from_rows(groups, nodes).ok_or("no instance")?)
    }

    /// Each change of one number within the bounds.
    pub fn changes(&self, alloc: Global, numbers: &Numbers) -> Result<Vec<Change>, NoMemory> {
        let mut changes = Vec::new(alloc);
        for n in 0..self.size() {
            for more in 1..3u64 {
                changes.push(Capacity {
                    node: NodeId(n),
                    capacity: numbers.capacity(n).saturating_add(more) % 3,
                })?;
            }
        }
        for g in 0..self.groups {
            changes.push(Demand {
                group: GroupId(g),
                demand: numbers.demand(g) % 2 + 1,
            })?;
        }
        Ok(changes)
    }
}

/// The list of a group.
fn choices_of(alloc: Global, places: &[Place], group: u32) -> Result<Vec<Choice>, NoMemory> {
    let mut choices = Vec::new(alloc);
    for place in places {
        if place.group == group {
            choices.push(Choice {
                pool: NodeId(place.pool),
                score: place.score,
                limit: place.limit,
            })?;
        }
    }
    Ok(choices)
}

/// The change that leads back to these numbers.
pub fn back(numbers: &Numbers, change: Change) -> Change {
    match change {
        Demand { group, .. } => Demand {
            group,
            demand: numbers.demand(group.0),
        },
        Capacity { node, .. } => Capacity {
            node,
            capacity: numbers.capacity(node.0),
        },
    }
}
