//! A version in rows, which takes in a delta.
ghost use Rattle.std.specs.Prelude.{◌≡◌, ◌⊎◌, ◌<◌, ◌≤◌, ◌^◌, IfOk, IsTrue, All, Some, fold, length, nat_lt, sum};
ghost use Rattle.std.specs.List.{list_all};
ghost use Rattle.std.specs.Arc.{arc_value};
ghost use Rattle.map_model.specs.Market.{IsSameShape, capacity_of, choice_at, demand_of};
ghost use Rattle.map_model.specs.Allocation.{IsGood, IsMapForm, IsOffer, placed};
ghost use Rattle.topology_text.specs.Plan.{IsPlan, IsZone, addresses_of, unit_of};
ghost use Rattle.topology_text.specs.Hosts.{is_v4, is_v6};
ghost use Rattle.prefix_lookup.specs.Longest.{HasLongest, group_of};
ghost use Rattle.prefix_lookup.specs.Scope.{IsScope, scope_of};
ghost use Rattle.published_map.specs.Shared.{LooksUp, plan_of};
ghost use Rattle.published_map.specs.Version.{IsVersion, amounts_of};
ghost use Rattle.published_map.specs.Changes.{is_within, moved, put_node, put_row};
ghost use Rattle.published_map.specs.Rows.{capacities_of, rows_of};

use crate::delta::Delta;
use crate::parts::{Part, row, split};
use crate::row::{GroupRow, amounts};
use crate::shared::Shared;
use addr_text::Addr;
use arrayvec::ArrayVec;
use map_model::{GroupId, Instance, MapLines, NodeId, Offer, PLACES, Units};
use no_memory::NoMemory;
use std::alloc::Global;
use std::marker::Model;
use std::sync::Arc;
use topology_text::{Topology, Zone};

/// A published map: its serial, a row for each group and a capacity for each node, and what it shares with all
/// versions of its topology, from which its instance differs in demands and capacities alone.
///
/// The type does not keep that the map is good: `make` asks it, and whoever holds a version that deltas have
/// changed knows it of the version that it stands for.
#[derive(Drop)]
pub struct MapVersion {
    serial: u64,
    rows: Vec<GroupRow>,
    capacities: Vec<Units>,
    shared: Arc<Shared>,
}

impl Model for MapVersion {
    ghost use Rattle.published_map.specs.Version.{Version};
    ghost use Rattle.published_map.specs.Kept.{IsKept, version};

    ghost Value = { Version };

    ghost view = { version };

    ghost invariant = { IsKept };
}

/// Tells the prover what is always so of the topology. Nothing is done.
fn recall_plan(shared: &Arc<Shared>)
    ensures { IsPlan (plan_of (arc_value shared.now)) }
{
    let shared: &Shared = shared;
    let _ = shared.topology.instance();
}

fn rows_of(alloc: Global, instance: &Instance, map: &MapLines) -> Result<Vec<GroupRow>, NoMemory>
    requires { IsMapForm instance.now map.now.lines.items map.now.names.items }
    ensures { IfOk result (λ rows. rows.items
        ≡ rows_of instance.now map.now.lines.items map.now.names.items) }
{
    let mut rows = Vec::with_capacity(alloc, instance.groups() as usize)?;
    let mut rest = Part {
        lines: map.lines.as_slice(),
        names: map.names.as_slice(),
    };
    for number in 0..instance.groups() {
        let group = GroupId(number);
        let (own, behind) = split(rest, group);
        rows.push_reserved(row(instance.demand(group), own));
        rest = behind;
    }
    Ok(rows)
}

fn capacities_of(alloc: Global, instance: &Instance) -> Result<Vec<Units>, NoMemory>
    ensures { IfOk result (λ capacities. capacities.items ≡ capacities_of instance.now) }
{
    let mut capacities = Vec::with_capacity(alloc, instance.nodes() as usize)?;
    for number in 0..instance.nodes() {
        capacities.push_reserved(instance.capacity(NodeId(number)));
    }
    Ok(capacities)
}

fn groups_below(rows: &[(GroupId, GroupRow)], groups: usize) -> bool
    ensures { result ≡ list_all (λ r. nat_lt r.0.0 groups) rows.now }
{
    rows.iter().all(|r| (r.0.0 as usize) < groups)
}

/// Whether all these nodes are among so many.
fn nodes_below(nodes: &[(NodeId, Units)], count: usize) -> bool
    ensures { result ≡ list_all (λ n. nat_lt n.0.0 count) nodes.now }
{
    nodes.iter().all(|n| (n.0.0 as usize) < count)
}

impl MapVersion {
    /// The version of a map that is good for its instance.
    ///
    /// # Errors
    ///
    /// `NoMemory` where there was none for its rows and capacities.
    pub fn make(
        alloc: Global,
        serial: u64,
        instance: &Instance,
        map: &MapLines,
        shared: Arc<Shared>,
    ) -> Result<MapVersion, NoMemory>
        requires good { IsGood instance.now map.now.lines.items map.now.names.items }
        requires shape { IsSameShape (plan_of (arc_value shared)).market instance.now }
        requires lookup { LooksUp (arc_value shared) }
        ensures value { IfOk result (λ v. v
            ≡ record {
              serial = serial;
              market = instance.now;
              lines = map.now.lines.items;
              names =
                  map.now.names.items;
              plan = plan_of (arc_value shared);
            }) }
        ensures version { IfOk result IsVersion }
    {
        recall_plan(&shared);
        // tells the prover what the type keeps
        let _ = instance.groups();
        let rows = rows_of(alloc, instance, map)?;
        let capacities = capacities_of(alloc, instance)?;
        Ok(MapVersion {
            serial,
            rows,
            capacities,
            shared,
        })
    }

    /// An equal version.
    ///
    /// # Errors
    ///
    /// `NoMemory` where there was none for its rows and capacities.
    pub fn try_clone(&self) -> Result<MapVersion, NoMemory>
        ensures { IfOk result (λ v. v ≡ self.now) }
    {
        let rows = self.rows.clone()?;
        let capacities = self.capacities.clone()?;
        let shared = Arc::try_clone(&self.shared)?;
        Ok(MapVersion {
            serial: self.serial,
            rows,
            capacities,
            shared,
        })
    }

    /// Which version of the map it is, from 0.
    pub fn serial(&self) -> u64
        ensures { result ≡ self.now.serial }
    {
        self.serial
    }

    /// How many groups there are, classes counted among them.
    pub fn groups(&self) -> usize
        ensures { result ≡ length self.now.market.groups }
    {
        self.rows.len()
    }

    /// How many nodes there are.
    pub fn nodes(&self) -> usize
        ensures { result ≡ length self.now.market.nodes }
    {
        self.capacities.len()
    }

    /// How many units a group asks for.
    pub fn demand(&self, group: GroupId) -> u32
        requires { group.0 < length self.now.market.groups }
        ensures { result ≡ demand_of self.now.market group.0 }
    {
        self.rows[group.0 as usize].demand
    }

    /// How many units a node can hold.
    pub fn capacity(&self, node: NodeId) -> Units
        requires { node.0 < length self.now.market.nodes }
        ensures { result ≡ capacity_of self.now.market node.0 }
    {
        self.capacities[node.0 as usize]
    }

    /// The topology.
    pub fn topology(&self) -> &Topology
        ensures { result.now ≡ self.now.plan }
    {
        let shared: &Shared = &self.shared;
        &shared.topology
    }

    /// What it shares with the other versions of its topology.
    pub fn shared(&self) -> &Arc<Shared>
        ensures plan { plan_of (arc_value result.now) ≡ self.now.plan }
        ensures lookup { LooksUp (arc_value result.now) }
    {
        &self.shared
    }

    /// The zone of the topology.
    pub fn zone(&self) -> &Zone
        ensures zone { result.now ≡ self.now.plan.zone }
        ensures form { IsZone result.now }
    {
        let topology = self.topology();
        topology.zone()
    }

    /// The group of the longest prefix that holds the address, and the scope of the address: the least number of
    /// bits such that all addresses of the family that agree with this one in its first so many bits have the same
    /// longest prefix. It is one search.
    pub fn find_addr(&self, addr: Addr) -> (GroupId, u8)
        ensures group { group_of self.now.plan.prefixes addr ≡ Some result.0 }
        ensures longest { HasLongest self.now.plan.prefixes addr result.0 }
        ensures there { result.0.0 < length self.now.market.groups }
        ensures scope { result.1 ≡ scope_of self.now.plan.prefixes addr }
        ensures least { IsScope self.now.plan.prefixes addr result.1 }
    {
        recall_plan(&self.shared);
        let shared: &Shared = &self.shared;
        shared.lookup.find(addr)
    }

    /// The unit of a group for the service of that number: the class of that group and service where there is one,
    /// else the group itself, also for a number that no service has.
    pub fn unit_of(&self, group: GroupId, service: u8) -> GroupId
        requires group { group.0 < length self.now.market.groups }
        ensures unit { result.0 ≡ unit_of self.now.plan group.0 service }
        ensures there { result.0 < length self.now.market.groups }
    {
        let _ = &self.serial;
        self.topology().unit_of(group, service)
    }

    /// What the map places of a group at each place of its list, the first place first; 0 where it places nothing.
    pub fn amounts(&self, group: GroupId) -> ArrayVec<u32, PLACES>
        requires group { group.0 < length self.now.market.groups }
        requires version { IsVersion self.now }
        ensures amounts { result.items ≡ amounts_of self.now group.0 }
        ensures total { sum result.items ≡ placed self.now.lines group.0 }
        ensures fits { sum result.items < 2 ^ 32 }
    {
        let places = self.topology().instance().list_len(group);
        amounts(self.rows[group.0 as usize].amounts.as_slice(), places)
    }

    /// The pool at one place of a group's list.
    pub fn pool_at(&self, offer: Offer) -> NodeId
        requires offer { IsOffer self.now.market offer.group.0 offer.place }
        requires version { IsVersion self.now }
        ensures pool { result ≡ (choice_at self.now.market offer.group.0 offer.place).pool }
        ensures there { result.0 < length self.now.plan.market.nodes }
    {
        self.topology().instance().pool_at(offer)
    }

    /// The addresses of a pool for records of type A (`kind` is 1) or AAAA (28), in the topology's order: at most
    /// forty, all of the family of that type.
    pub fn addresses(&self, pool: NodeId, kind: u16) -> &[Addr]
        requires pool { pool.0 < length self.now.plan.market.nodes }
        requires kind { (kind ≡ 1) ⊎ (kind ≡ 28) }
        ensures addresses { result.now ≡ addresses_of self.now.plan pool.0 kind }
        ensures few { length result.now ≤ 40 }
        ensures v4 { kind ≡ 1 → All (λ a. IsTrue (is_v4 a)) result.now }
        ensures v6 { kind ≡ 28 → All (λ a. IsTrue (is_v6 a)) result.now }
    {
        let topology = self.topology();
        topology.addresses(pool, kind)
    }

    /// Gives a group another row. It takes no memory.
    fn put_row(&mut self, group: GroupId, row: &GroupRow)
        requires { group.0 < length self.old.market.groups }
        ensures put { self.new ≡ put_row self.old (group, row.now) }
        ensures groups { length self.new.market.groups ≡ length self.old.market.groups }
        ensures nodes { self.new.market.nodes ≡ self.old.market.nodes }
    {
        let own = &mut self.rows[group.0 as usize];
        own.copy_over(row);
    }

    /// Gives a node another capacity.
    fn put_node(&mut self, node: NodeId, capacity: Units)
        requires { node.0 < length self.old.market.nodes }
        ensures put { self.new ≡ put_node self.old (node, capacity) }
        ensures nodes { length self.new.market.nodes ≡ length self.old.market.nodes }
    {
        self.capacities[node.0 as usize] = capacity;
    }

    fn put_rows(&mut self, rows: &[(GroupId, GroupRow)])
        requires { IsTrue (list_all (λ r. nat_lt r.0.0 (length self.old.market.groups)) rows.now) }
        ensures put { self.new ≡ fold put_row self.old rows.now }
        ensures nodes { self.new.market.nodes ≡ self.old.market.nodes }
    {
        for row in rows {
            self.put_row(row.0, &row.1);
        }
    }

    fn put_nodes(&mut self, nodes: &[(NodeId, Units)])
        requires { IsTrue (list_all (λ n. nat_lt n.0.0 (length self.old.market.nodes)) nodes.now) }
        ensures { self.new ≡ fold put_node self.old nodes.now }
    {
        for node in nodes {
            self.put_node(node.0, node.1);
        }
    }

    /// Whether the delta names groups and nodes of this version alone.
    pub fn fits(&self, delta: &Delta) -> bool
        ensures { result ≡ is_within self.now delta.now }
    {
        let groups = groups_below(delta.groups.as_slice(), self.groups());
        let nodes = nodes_below(delta.nodes.as_slice(), self.nodes());
        groups && nodes
    }

    /// Takes in a delta, and the serial. It takes no memory and never fails.
    pub fn absorb(&mut self, delta: &Delta, serial: u64)
        requires { IsTrue (is_within self.old delta.now) }
        ensures { self.new ≡ moved self.old delta.now serial }
    {
        self.put_rows(delta.groups.as_slice());
        self.put_nodes(delta.nodes.as_slice());
        self.serial = serial;
    }
}
