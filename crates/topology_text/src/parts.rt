//! What a fault-free table says beside the instance.
ghost use Rattle.std.specs.Prelude.{◌≡◌, ◌++◌, OnOk, ◌<◌, ◌^◌, All, AllPairs, IfOk, IsTrue, is_some, length, map, option_and_then, option_map};
ghost use Rattle.std.specs.List.{filter_map};
ghost use Rattle.toml.specs.View.{table_view, view};
ghost use Rattle.topology_text.specs.Code.{entries};
ghost use Rattle.topology_text.specs.Names.{units_of, zone_text};
ghost use Rattle.topology_text.specs.Plan.{ArePrefixes};
ghost use Rattle.topology_text.specs.Texts.{zone_name};
ghost use Rattle.topology_text.specs.Topology.{IsSound, IsSoundZone, address_in, classes_of, hosts_of, items_in, name_of, owned, plan_of, zone_name_at, zone_number, zone_of};

use crate::build::{instance, items_in, natural};
use crate::classes::Classes;
use crate::names::{Entries, text_at};
use crate::pairs::pairs;
use crate::prefixes::PrefixAt;
use crate::schema::Key;
use crate::soa::{SoaContent, SoaNumbers};
use crate::texts::{v4_address, v6_address, zone_name};
use crate::topology::{Hosts, NameTables, Names, Topology, Zone};
use crate::visited::value_of;
use crate::zone::{wire_names, zone_items, zone_text};
use addr_text::{Addr, Prefix};
use indexmap::IndexSet;
use map_model::GroupId;
use name_text::Name;
use std::alloc::{AllocError, Global};
use toml::{Table, Value};

fn name_of(alloc: Global, entry: &Value) -> Result<Vec<u8>, AllocError>
    ensures { IfOk result (λ v. v.items ≡ name_of (view entry.now)) }
{
    match text_at(entry, Key::Name) {
        Some(text) => Vec::from_slice(alloc, text.as_bytes()),
        None => Ok(Vec::new(alloc)),
    }
}

/// Adds the names of entries, which differ from each other and from those before.
fn push_names(
    alloc: Global,
    names: &mut IndexSet<Vec<u8>>,
    entries: &[Value],
) -> Result<(), AllocError>
    requires { AllPairs (λ a b. a ≡ b → ⊥) (map (λ v. v.items) names.old.keys
        ++ map name_of (map view entries.now)) }
    ensures { OnOk result (map (λ v. v.items) names.new.keys ≡ map (λ v. v.items) names.old.keys
        ++ map name_of (map view entries.now)) }
{
    for entry in entries {
        let name = name_of(alloc, entry)?;
        names.insert_full(name)?;
    }
    Ok(())
}

/// The names of entries, which differ.
fn names(alloc: Global, entries: &[Value]) -> Result<IndexSet<Vec<u8>>, AllocError>
    requires { AllPairs (λ a b. a ≡ b → ⊥) (map name_of (map view entries.now)) }
    ensures { IfOk result (λ s. map (λ v. v.items) s.keys ≡ map name_of (map view entries.now)) }
{
    let mut names = IndexSet::new(alloc);
    push_names(alloc, &mut names, entries)?;
    Ok(names)
}

/// The names of groups and of the classes behind them.
fn unit_names(alloc: Global, index: &Entries<'_>) -> Result<IndexSet<Vec<u8>>, AllocError>
    requires { AllPairs (λ a b. a ≡ b → ⊥) (map name_of (units_of (entries index.now))) }
    ensures { IfOk result (λ s. map (λ v. v.items) s.keys
        ≡ map name_of (units_of (entries index.now))) }
{
    let mut names = names(alloc, index.groups())?;
    push_names(alloc, &mut names, index.classes())?;
    Ok(names)
}

/// The classes, and how many groups stand before them.
fn classes(alloc: Global, index: &Entries<'_>) -> Result<Classes, AllocError>
    requires { IsSound (entries index.now) }
    ensures { IfOk result (λ c. c ≡ classes_of (entries index.now)) }
{
    let pairs = pairs(alloc, index)?;
    Classes::new(alloc, index.groups().len(), pairs)
}

/// The address that an item of `a` or `aaaa` is.
fn address_in(key: Key, item: &Value) -> Option<Addr>
    ensures { result ≡ address_in key (view item.now) }
{
    match (key, item) {
        (Key::A, Value::String(text)) => v4_address(text.as_str()),
        (Key::Aaaa, Value::String(text)) => v6_address(text.as_str()),
        _ => None,
    }
}

/// The addresses in a list.
fn addresses(alloc: Global, key: Key, items: &[Value]) -> Result<Vec<Addr>, AllocError>
    ensures { IfOk result (λ v. v.items ≡ filter_map (address_in key) (map view items.now)) }
{
    let mut addresses = Vec::new(alloc);
    for item in items {
        if let Some(address) = address_in(key, item) {
            addresses.push(address)?;
        }
    }
    Ok(addresses)
}

fn hosts_of(alloc: Global, entry: &Value) -> Result<Hosts, AllocError>
    ensures { IfOk result (λ h. h ≡ hosts_of (view entry.now)) }
{
    let v4 = addresses(alloc, Key::A, items_in(entry, Key::A))?;
    let v6 = addresses(alloc, Key::Aaaa, items_in(entry, Key::Aaaa))?;
    Ok(Hosts::new(v4, v6))
}

/// The addresses of all entries.
fn all_hosts(alloc: Global, entries: &[Value]) -> Result<Vec<Hosts>, AllocError>
    ensures { IfOk result (λ v. v.items ≡ map hosts_of (map view entries.now)) }
{
    let mut hosts = Vec::new(alloc);
    for entry in entries {
        hosts.push(hosts_of(alloc, entry)?)?;
    }
    Ok(hosts)
}

fn owned(alloc: Global, prefixes: &[PrefixAt]) -> Result<Vec<(Prefix, GroupId)>, AllocError>
    requires { All (λ e. e.group < 2 ^ 32) prefixes.now }
    ensures { IfOk result (λ v. v.items ≡ map owned prefixes.now) }
{
    let mut owned = Vec::new(alloc);
    for entry in prefixes {
        owned.push((entry.prefix, GroupId(entry.group as u32)))?;
    }
    Ok(owned)
}

fn zone_name_at(zone: Option<&Table>, key: Key) -> Name
    requires { IsTrue (is_some (option_and_then zone_name
        (zone_text (option_map (λ t. table_view t.now) zone) key))) }
    ensures { result ≡ zone_name_at (option_map (λ t. table_view t.now) zone.entry) key }
{
    zone_text(zone, key)
        .and_then(|text| zone_name(text))
        .unwrap()
}

fn zone_number(zone: Option<&Table>, key: Key) -> u32
    requires { zone_number (option_map (λ t. table_view t.now) zone) key < 2 ^ 32 }
    ensures { result ≡ zone_number (option_map (λ t. table_view t.now) zone.entry) key }
{
    match zone {
        Some(table) => match value_of(table, key) {
            Some(value) => natural(value) as u32,
            None => 0,
        },
        None => 0,
    }
}

fn zone_of(alloc: Global, zone: Option<&Table>) -> Result<Zone, AllocError>
    requires { IsSoundZone (option_map (λ t. table_view t.now) zone) }
    ensures { IfOk result (λ z. z ≡ zone_of (option_map (λ t. table_view t.now) zone.entry)) }
{
    let ns = wire_names(alloc, Key::Ns, zone_items(zone, Key::Ns))?;
    let services = wire_names(alloc, Key::Services, zone_items(zone, Key::Services))?;
    let mname = zone_name_at(zone, Key::Mname);
    let rname = zone_name_at(zone, Key::Rname);
    let numbers = SoaNumbers {
        serial: zone_number(zone, Key::Serial),
        refresh: zone_number(zone, Key::Refresh),
        retry: zone_number(zone, Key::Retry),
        expire: zone_number(zone, Key::Expire),
        minimum: zone_number(zone, Key::Minimum),
    };
    let soa = SoaContent::new(&mname, &rname, numbers);
    Ok(Zone {
        apex: zone_name_at(zone, Key::Apex),
        mname,
        rname,
        serial: numbers.serial,
        refresh: numbers.refresh,
        retry: numbers.retry,
        expire: numbers.expire,
        minimum: numbers.minimum,
        ttl: zone_number(zone, Key::Ttl),
        ns,
        services,
        soa,
    })
}

/// All that a fault-free table says, whose prefixes these are.
pub fn topology(
    alloc: Global,
    index: &Entries<'_>,
    prefixes: &[PrefixAt],
) -> Result<Topology, AllocError>
    requires sound { IsSound (entries index.now) }
    requires prefixes { ArePrefixes (map owned prefixes.now) (length (entries index.now).groups) }
    ensures { IfOk result (λ t. t ≡ plan_of (entries index.now) prefixes.now) }
{
    let instance = instance(alloc, index)?;
    let zone = zone_of(alloc, index.zone())?;
    let node_names = names(alloc, index.nodes())?;
    let group_names = unit_names(alloc, index)?;
    let classes = classes(alloc, index)?;
    let owned = owned(alloc, prefixes)?;
    let hosts = all_hosts(alloc, index.nodes())?;
    let names = NameTables {
        nodes: node_names,
        groups: group_names,
    };
    Ok(Topology::from_parts(instance, zone, names, classes, owned, hosts))
}
