//! The prefixes of a topology's groups.
ghost use Rattle.std.specs.Prelude.{◌≡◌, ◌++◌, map, OnOk, IfOk};
ghost use Rattle.std.specs.List.{list_any};
ghost use Rattle.addr_text.specs.Addresses.{default_v4, default_v6};
ghost use Rattle.toml.specs.View.{table_view, view};
ghost use Rattle.topology_text.specs.Code.{visit};
ghost use Rattle.topology_text.specs.Prefixes.{all_prefixes, count_at, duplicate_prefixes, has_prefix, is_same_prefix, no_default, passing, place_of, prefix_in, prefixes_at, prefixes_from};
ghost use Rattle.topology_text.specs.Walk.{first, items_at};

use crate::limits::MOST_PREFIXES;
use crate::schema::{At, Key, Place, Spot};
use crate::visited::TableAt;
use addr_text::{Addr, Prefix, read_prefix};
use indexmap::IndexSet;
use std::alloc::{AllocError, Global};
use toml::Value;

/// A prefix, and where it stands: the number of its group, and of the item in the group's list.
#[derive(Clone, Copy, Debug, PartialEq, Eq)]
pub struct PrefixAt {
    pub prefix: Prefix,
    pub group: usize,
    pub item: usize,
}

/// The prefix that an item is.
pub fn prefix_in(item: &Value) -> Option<Prefix>
    ensures { result ≡ prefix_in (view item.now) }
{
    match item {
        Value::String(text) => read_prefix(text.as_str().as_bytes()),
        _ => None,
    }
}

/// Adds the prefixes of a group's list.
fn push_prefixes(
    prefixes: &mut Vec<PrefixAt>,
    group: usize,
    items: &[Value],
) -> Result<(), AllocError>
    ensures { OnOk result (prefixes.new.items ≡ prefixes.old.items
        ++ prefixes_from group 0 (map view items.now)) }
{
    for (i, item) in items.iter().enumerate() {
        if let Some(prefix) = prefix_in(item) {
            prefixes.push(PrefixAt {
                prefix,
                group,
                item: i,
            })?;
        }
    }
    Ok(())
}

/// Adds the prefixes of a table, if it is a group.
fn push_table(prefixes: &mut Vec<PrefixAt>, table: &TableAt<'_>) -> Result<(), AllocError>
    ensures { OnOk result (prefixes.new.items ≡ prefixes.old.items
        ++ prefixes_at table.now.spot (items_at (table_view table.now.table.now) Key.Prefixes)) }
{
    match table.spot {
        Spot::GroupTable(group) => { push_prefixes(prefixes, group, table.items(Key::Prefixes)) }
        _ => Ok(()),
    }
}

/// The prefixes of all groups, in the order of the file.
pub fn all_prefixes(alloc: Global, tables: &[TableAt<'_>]) -> Result<Vec<PrefixAt>, AllocError>
    ensures { IfOk result (λ v. v.items ≡ all_prefixes (map visit tables.now)) }
{
    let mut prefixes = Vec::new(alloc);
    for table in tables {
        push_table(&mut prefixes, table)?;
    }
    Ok(prefixes)
}

fn place_of(entry: PrefixAt) -> Place
    ensures { result ≡ place_of entry }
{
    Place {
        spot: Spot::GroupTable(entry.group),
        key: Some(Key::Prefixes),
        at: At::Item(entry.item),
    }
}

/// The first prefix that stands earlier too.
pub fn first_duplicate(alloc: Global, prefixes: &[PrefixAt]) -> Result<Option<Place>, AllocError>
    ensures { IfOk result (λ o. o ≡ first (duplicate_prefixes prefixes.now)) }
{
    let mut seen = IndexSet::new(alloc);
    for (i, entry) in prefixes.iter().enumerate() {
        let (_, is_new) = seen.insert_full(entry.prefix)?;
        if !is_new {
            return Ok(Some(place_of(*entry)));
        }
    }
    Ok(None)
}

fn has_prefix(prefixes: &[PrefixAt], prefix: Prefix) -> bool
    ensures { result ≡ has_prefix prefixes.now prefix }
{
    prefixes.iter().any(|entry| prefix == entry.prefix)
}

fn family(number: u8) -> Place
    ensures { result ≡ record { spot = Spot.Family number; key = None; at = At.Whole } }
{
    Place {
        spot: Spot::Family(number),
        key: None,
        at: At::Whole,
    }
}

/// The first family whose default prefix is in no group.
pub fn first_lacking(prefixes: &[PrefixAt]) -> Option<Place>
    ensures { result ≡ first (no_default prefixes.now) }
{
    let v4 = Prefix {
        addr: Addr::V4(0),
        len: 0,
    };
    let v6 = Prefix {
        addr: Addr::V6(0),
        len: 0,
    };
    if !has_prefix(prefixes, v4) {
        Some(family(4))
    } else if !has_prefix(prefixes, v6) {
        Some(family(6))
    } else {
        None
    }
}

/// How many prefixes a group's table has.
fn count_at(table: &TableAt<'_>) -> usize
    ensures { result ≡ count_at table.now.spot
        (items_at (table_view table.now.table.now) Key.Prefixes) }
{
    match table.spot {
        Spot::GroupTable(_) => table.items(Key::Prefixes).len(),
        _ => 0,
    }
}

/// The `prefixes` with which their total passes its limit.
pub fn first_passing(tables: &[TableAt<'_>]) -> Option<Place>
    ensures { result ≡ first (passing (map visit tables.now)) }
{
    let mut total = 0;
    for (i, table) in tables.iter().enumerate() {
        let count = count_at(table);
        if count > MOST_PREFIXES - total {
            return Some(Place {
                spot: table.spot,
                key: Some(Key::Prefixes),
                at: At::Whole,
            });
        }
        total += count;
    }
    None
}
