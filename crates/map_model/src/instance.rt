//! Instances: groups that ask pools, in trees of capacities.

ghost use Rattle.std.specs.Prelude.{◌≡◌, ◌↔◌, ◌<◌, ◌≤◌, ◌^◌, length, slice_set, map, IfOk, IfSome, IsSome};
ghost use Rattle.map_model.specs.Market.{Group, Market, IsMarket, IsSameShape, capacity_of, choice_at, choices_of, demand_of, group_at, key_of, limit_of, node_at, parent_of, path};
ghost use Rattle.map_model.specs.declared.limits.TheConstants.{MOST_CAPACITY};
ghost use Rattle.map_model.specs.Allocation.{IsOffer};

use crate::limits::LEVELS;
use crate::validity::is_market;
use arrayvec::ArrayVec;
use no_memory::NoMemory;
use std::marker::Model;

/// Whole units of traffic.
pub type Units = u64;

/// A client group, by its number from 0.
#[derive(Clone, Copy, Debug, Default, PartialEq, Eq, PartialOrd, Ord, Hash)]
pub struct GroupId(pub u32);

/// A node of a tree of capacities, by its number from 0.
#[derive(Clone, Copy, Debug, Default, PartialEq, Eq, PartialOrd, Ord, Hash)]
pub struct NodeId(pub u32);

/// An offer: a group at one place of its list.
#[derive(Clone, Copy, Debug, Default, PartialEq, Eq, PartialOrd, Ord, Hash)]
pub struct Offer {
    pub group: GroupId,
    /// The place of the group's list, from 0.
    pub place: u8,
}

/// The rank of an offer: keys are compared by score, then group, then pool, and lower is better.
#[derive(Clone, Copy, Debug, PartialEq, Eq, PartialOrd, Ord, Hash)]
pub struct Key {
    pub score: u32,
    pub group: GroupId,
    pub pool: NodeId,
}

/// One place of a group's list: a pool, the score of the group there, and how many of its units it
/// may hold there. Lower scores are better.
#[derive(Clone, Copy, Debug, Default, PartialEq, Eq)]
pub struct Choice {
    pub pool: NodeId,
    pub score: u32,
    /// How many units the offer may hold, at least 1 in an instance.
    pub limit: u32,
}

/// A node of a tree.
#[derive(Clone, Copy, Debug, PartialEq, Eq)]
pub struct Node {
    /// How many units it can hold, at most 2^48 in an instance.
    pub capacity: Units,
    /// The node right above it; a root has none.
    pub parent: Option<NodeId>,
    /// Whether it is a pool, which is never a parent in an instance.
    pub is_pool: bool,
}

/// A client group: its demand, and the pools that it asks, the best place first.
#[derive(Clone, Debug, Drop)]
pub struct ClientGroup {
    demand: u32,
    choices: Vec<Choice>,
}

impl Model for ClientGroup {
    ghost use Rattle.map_model.specs.Market.{Group};

    ghost Value = { Group };

    ghost view = { λ a. record { demand = a.demand; choices = a.choices.items } };
}

impl ClientGroup {
    /// A group of that demand and list.
    pub fn new(demand: u32, choices: Vec<Choice>) -> ClientGroup
        ensures { result ≡ record { demand = demand; choices = choices.items } }
    {
        ClientGroup { demand, choices }
    }

    /// How many units the group asks for.
    pub fn demand(&self) -> u32
        ensures { result ≡ self.now.demand }
    {
        self.demand
    }

    /// The group's list.
    pub fn choices(&self) -> &[Choice]
        ensures { result.now ≡ self.now.choices }
    {
        self.choices.as_slice()
    }

    /// Gives the group another demand. Its list stays.
    pub fn set_demand(&mut self, demand: u32)
        ensures { self.new ≡ record self.old { demand = demand } }
    {
        self.demand = demand;
    }
}

/// An instance: groups that ask pools, and the trees of capacities in which the pools stand.
#[derive(Clone, Debug, Drop)]
pub struct Instance {
    groups: Vec<ClientGroup>,
    nodes: Vec<Node>,
}

impl Model for Instance {
    ghost use Rattle.map_model.specs.Market.{Market, IsMarket};

    ghost Value = { Market };

    ghost view = { λ a. record { groups = a.groups.items; nodes = a.nodes.items } };

    ghost invariant = { λ a. IsMarket (record { groups = a.groups.items; nodes = a.nodes.items }) };
}

impl Instance {
    /// The instance of these rows.
    pub fn from_rows(groups: Vec<ClientGroup>, nodes: Vec<Node>) -> Instance
        requires { IsMarket (record { groups = groups.items; nodes = nodes.items }) }
        ensures { result ≡ record { groups = groups.items; nodes = nodes.items } }
    {
        Instance { groups, nodes }
    }

    /// The instance of these rows, where they are one: some exactly where the limits hold, parents
    /// have lower numbers and are no pools, no path has nine nodes, and each list has distinct pools.
    pub fn try_from_rows(groups: Vec<ClientGroup>, nodes: Vec<Node>) -> Option<Instance>
        ensures valid { IsSome result ↔ IsMarket
            (record { groups = groups.items; nodes = nodes.items }) }
        ensures value { IfSome result (λ instance. instance
            ≡ record { groups = groups.items; nodes = nodes.items }) }
    {
        if is_market(groups.as_slice(), nodes.as_slice()) {
            Some(Instance { groups, nodes })
        } else {
            None
        }
    }

    /// An equal instance.
    ///
    /// # Errors
    ///
    /// `NoMemory`.
    pub fn try_clone(&self) -> Result<Instance, NoMemory>
        ensures { IfOk result (λ instance. instance ≡ self.now) }
    {
        Ok(self.clone()?)
    }

    /// How many groups there are, at most 65,536.
    pub fn groups(&self) -> u32
        ensures count { result ≡ length self.now.groups }
        ensures market { IsMarket self.now }
    {
        self.groups.len() as u32
    }

    /// How many nodes there are, at most 8,192.
    pub fn nodes(&self) -> u32
        ensures count { result ≡ length self.now.nodes }
        ensures market { IsMarket self.now }
    {
        self.nodes.len() as u32
    }

    /// How many units a group asks for.
    pub fn demand(&self, group: GroupId) -> u32
        requires { group.0 < length self.now.groups }
        ensures { result ≡ demand_of self.now group.0 }
    {
        let row = &self.groups[group.0 as usize];
        row.demand()
    }

    /// How many units a node can hold.
    pub fn capacity(&self, node: NodeId) -> Units
        requires { node.0 < length self.now.nodes }
        ensures { result ≡ capacity_of self.now node.0 }
    {
        self.nodes[node.0 as usize].capacity
    }

    /// The node right above a node; a root has none.
    pub fn parent(&self, node: NodeId) -> Option<NodeId>
        requires { node.0 < length self.now.nodes }
        ensures { result ≡ parent_of self.now node.0 }
    {
        self.nodes[node.0 as usize].parent
    }

    /// A node, with all that it is.
    pub fn node(&self, node: NodeId) -> Node
        requires { node.0 < length self.now.nodes }
        ensures { result ≡ node_at self.now node.0 }
    {
        self.nodes[node.0 as usize]
    }

    /// The nodes from this one up to its root.
    pub fn path(&self, node: NodeId) -> ArrayVec<NodeId, LEVELS>
        requires { node.0 < length self.now.nodes }
        ensures { map (λ n. n.0) result.items ≡ path self.now node.0 }
    {
        // Tells the prover that this is an instance.
        let _count = self.nodes();
        let mut path = ArrayVec::new();
        let mut at = Some(node);
        for _step in 0..LEVELS {
            if let Some(node) = at {
                path.push(node);
                at = self.parent(node);
            }
        }
        path
    }

    /// How many places a group's list has, from 1 to 16.
    pub fn list_len(&self, group: GroupId) -> u8
        requires { group.0 < length self.now.groups }
        ensures { result ≡ length (choices_of self.now group.0) }
    {
        let row = &self.groups[group.0 as usize];
        row.choices().len() as u8
    }

    /// The pool of an offer.
    pub fn pool_at(&self, offer: Offer) -> NodeId
        requires { IsOffer self.now offer.group.0 offer.place }
        ensures { result ≡ (choice_at self.now offer.group.0 offer.place).pool }
    {
        let row = &self.groups[offer.group.0 as usize];
        row.choices()[offer.place as usize].pool
    }

    /// The key of an offer: the lower, the better.
    pub fn key(&self, offer: Offer) -> Key
        requires { IsOffer self.now offer.group.0 offer.place }
        ensures { result ≡ key_of self.now offer.group.0 offer.place }
    {
        let row = &self.groups[offer.group.0 as usize];
        let choice = row.choices()[offer.place as usize];
        Key {
            score: choice.score,
            group: offer.group,
            pool: choice.pool,
        }
    }

    /// How many units a group may hold at a place of its list: 1 to 2^32-1.
    pub fn limit(&self, group: GroupId, place: u8) -> u32
        requires { IsOffer self.now group.0 place }
        ensures { result ≡ limit_of self.now group.0 place }
    {
        let row = &self.groups[group.0 as usize];
        row.choices()[place as usize].limit
    }

    /// Gives a group another demand. All else stays.
    pub fn set_demand(&mut self, group: GroupId, demand: u32)
        requires group { group.0 < length self.old.groups }
        requires range { 1 ≤ demand }
        ensures changed { self.new ≡ record self.old {
          groups = slice_set self.old.groups group.0
              (record (group_at self.old group.0) { demand = demand });
        } }
        ensures shape { IsSameShape self.old self.new }
        ensures market { IsMarket self.new }
    {
        let row = &mut self.groups[group.0 as usize];
        row.set_demand(demand);
    }

    /// Gives a node another capacity. All else stays.
    pub fn set_capacity(&mut self, node: NodeId, capacity: Units)
        requires node { node.0 < length self.old.nodes }
        requires range { capacity ≤ MOST_CAPACITY }
        ensures changed { self.new ≡ record self.old {
          nodes = slice_set self.old.nodes node.0
              (record (node_at self.old node.0) { capacity = capacity });
        } }
        ensures shape { IsSameShape self.old self.new }
        ensures market { IsMarket self.new }
    {
        self.nodes[node.0 as usize].capacity = capacity;
    }
}
