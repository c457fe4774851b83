//! A topology as it was read.
ghost use Rattle.std.specs.Prelude.{◌≡◌, ◌⊎◌, ◌<◌, length, map, option_map, slice_index_or, []};
ghost use Rattle.topology_text.specs.Plan.{IsPlan, Plan, addresses_of, number_in, unit_of};

use crate::classes::Classes;
use crate::soa::SoaContent;
use addr_text::{Addr, Prefix};
use indexmap::IndexSet;
use map_model::{GroupId, Instance, NodeId};
use name_text::Name;
use std::marker::Model;

/// The type of a record with an IPv6 address (RFC 3596 section 2.1).
const AAAA: u16 = 28;

/// Names of the DNS, in the order of the file.
#[derive(Debug, Drop)]
pub struct Names {
    names: Vec<Name>,
}

impl Model for Names {
    ghost use Rattle.std.specs.Prelude.{List, ℕ};

    ghost Value = { List (List ℕ) };

    ghost view = { λ a. a.names.items };
}

impl Names {
    /// These names.
    pub fn new(names: Vec<Name>) -> Names
        ensures { result ≡ names.items }
    {
        Names { names }
    }

    /// The names in order.
    pub fn as_slice(&self) -> &[Name]
        ensures { result.now ≡ self.now }
    {
        self.names.as_slice()
    }

    /// The names as they were handed in.
    pub fn into_vec(self) -> Vec<Name>
        ensures { result.items ≡ self }
    {
        let Names { names } = self;
        names
    }
}

/// The zone: its apex, the numbers of its start of authority (RFC 1035, section 3.3.13), and the names in it.
#[derive(Debug, Drop)]
pub struct Zone {
    /// The name at the zone's top.
    pub apex: Name,
    /// The primary name server.
    pub mname: Name,
    /// The mailbox of who is responsible.
    pub rname: Name,
    /// The version of the zone.
    pub serial: u32,
    /// Seconds until a secondary looks for a new version.
    pub refresh: u32,
    /// Seconds until it tries again where that failed.
    pub retry: u32,
    /// Seconds after which it gives the zone up.
    pub expire: u32,
    /// Seconds for which the answer that something is not there may be kept, below 2^31.
    pub minimum: u32,
    /// Seconds for which an answer may be kept, below 2^31.
    pub ttl: u32,
    /// The name servers, one to four, none of them in the zone.
    pub ns: Names,
    /// The services, at most 64, each a name of one label.
    pub services: Names,
    /// The data of its SOA record, made once for all replies.
    pub soa: SoaContent,
}

/// The addresses of a node, none where it is no pool.
#[derive(Debug, Drop)]
pub struct Hosts {
    v4: Vec<Addr>,
    v6: Vec<Addr>,
}

impl Model for Hosts {
    ghost use Rattle.topology_text.specs.Hosts.{HostLists};

    ghost Value = { HostLists };

    ghost view = { λ a. record { v4 = a.v4.items; v6 = a.v6.items } };
}

impl Hosts {
    ghost use Rattle.topology_text.specs.Hosts.{addresses_at};

    /// Addresses of the two families.
    pub(crate) fn new(v4: Vec<Addr>, v6: Vec<Addr>) -> Hosts
        ensures { result ≡ record { v4 = v4.items; v6 = v6.items } }
    {
        Hosts { v4, v6 }
    }

    /// The addresses for records of that kind.
    pub(crate) fn of_kind(&self, kind: u16) -> &[Addr]
        ensures { result.now ≡ addresses_at self.now kind }
    {
        if kind == AAAA {
            self.v6.as_slice()
        } else {
            self.v4.as_slice()
        }
    }
}

/// All that a topology's file says: the instance, the zone, and the names, classes, addresses and prefixes. Classes are groups of the instance, with numbers behind those of the groups that the file has.
#[derive(Drop)]
pub struct Topology {
    instance: Instance,
    zone: Zone,
    node_names: IndexSet<Vec<u8>>,
    group_names: IndexSet<Vec<u8>>,
    classes: Classes,
    prefixes: Vec<(Prefix, GroupId)>,
    addresses: Vec<Hosts>,
}

impl Model for Topology {
    ghost use Rattle.topology_text.specs.Plan.{Plan, IsPlan};

    ghost Value = { Plan };

    ghost use Rattle.topology_text.specs.Kept.{plan};

    ghost view = { plan };

    ghost invariant = { λ a. IsPlan (plan a) };
}

/// The names of nodes, and of groups and the classes behind them, each by its number.
#[derive(Drop)]
pub(crate) struct NameTables {
    /// The nodes' names.
    pub(crate) nodes: IndexSet<Vec<u8>>,
    /// The groups' names, and behind them the classes'.
    pub(crate) groups: IndexSet<Vec<u8>>,
}

impl Topology {
    /// A topology of these parts, which fit together.
    pub(crate) fn from_parts(
        instance: Instance,
        zone: Zone,
        names: NameTables,
        classes: Classes,
        prefixes: Vec<(Prefix, GroupId)>,
        addresses: Vec<Hosts>,
    ) -> Topology
        requires { IsPlan (record {
          market = instance;
          zone = zone;
          node_names = map (λ v. v.items) names.nodes.keys;
          group_names = map (λ v. v.items) names.groups.keys;
          classes = classes;
          prefixes = prefixes.items;
          addresses = addresses.items;
        }) }
        ensures { result ≡ record {
          market = instance;
          zone = zone;
          node_names = map (λ v. v.items) names.nodes.keys;
          group_names = map (λ v. v.items) names.groups.keys;
          classes = classes;
          prefixes = prefixes.items;
          addresses = addresses.items;
        } }
    {
        let NameTables { nodes, groups } = names;
        Topology {
            instance,
            zone,
            node_names: nodes,
            group_names: groups,
            classes,
            prefixes,
            addresses,
        }
    }

    /// The groups, the classes behind them, the nodes, and their numbers.
    pub fn instance(&self) -> &Instance
        ensures instance { result.now ≡ self.now.market }
        ensures plan { IsPlan self.now }
    {
        &self.instance
    }

    /// The zone.
    pub fn zone(&self) -> &Zone
        ensures zone { result.now ≡ self.now.zone }
        ensures plan { IsPlan self.now }
    {
        &self.zone
    }

    /// Each prefix of the file in its order, with the group in whose list it stands.
    pub fn prefixes(&self) -> &[(Prefix, GroupId)]
        ensures prefixes { result.now ≡ self.now.prefixes }
        ensures plan { IsPlan self.now }
    {
        self.prefixes.as_slice()
    }

    /// The group or class of that name, whose octets and letter case are compared as they are.
    pub fn group_named(&self, name: &[u8]) -> Option<GroupId>
        ensures number { option_map (λ g. g.0) result ≡ number_in self.now.group_names name.now }
        ensures plan { IsPlan self.now }
    {
        let number = self.group_names.get_index_of(name)?;
        Some(GroupId(number as u32))
    }

    /// The node of that name, whose octets and letter case are compared as they are.
    pub fn node_named(&self, name: &[u8]) -> Option<NodeId>
        ensures number { option_map (λ n. n.0) result ≡ number_in self.now.node_names name.now }
        ensures plan { IsPlan self.now }
    {
        let number = self.node_names.get_index_of(name)?;
        Some(NodeId(number as u32))
    }

    /// The name of a group or class.
    pub fn group_name(&self, group: GroupId) -> &[u8]
        requires { group.0 < length self.now.market.groups }
        ensures name { result.now ≡ slice_index_or self.now.group_names group.0 [] }
        ensures plan { IsPlan self.now }
    {
        match self.group_names.get_index(group.0 as usize) {
            Some(name) => name.as_slice(),
            None => &[],
        }
    }

    /// The name of a node.
    pub fn node_name(&self, node: NodeId) -> &[u8]
        requires { node.0 < length self.now.market.nodes }
        ensures name { result.now ≡ slice_index_or self.now.node_names node.0 [] }
        ensures plan { IsPlan self.now }
    {
        match self.node_names.get_index(node.0 as usize) {
            Some(name) => name.as_slice(),
            None => &[],
        }
    }

    /// The unit of a group for the service of that number: the class of that group and service where there is one, else the group itself, also for a number that no service has. It takes one load.
    pub fn unit_of(&self, group: GroupId, service: u8) -> GroupId
        requires group { group.0 < length self.now.market.groups }
        ensures unit { result.0 ≡ unit_of self.now group.0 service }
        ensures there { result.0 < length self.now.market.groups }
        ensures plan { IsPlan self.now }
    {
        self.classes.unit_of(group, service)
    }

    /// The addresses of a node for records of type A (`kind` is 1) or AAAA (28), in the file's order.
    pub fn addresses(&self, node: NodeId, kind: u16) -> &[Addr]
        requires node { node.0 < length self.now.market.nodes }
        requires kind { (kind ≡ 1) ⊎ (kind ≡ 28) }
        ensures addresses { result.now ≡ addresses_of self.now node.0 kind }
        ensures plan { IsPlan self.now }
    {
        let hosts = &self.addresses[node.0 as usize];
        hosts.of_kind(kind)
    }
}
