//! The walk over the tables of a document, in which faults of one number are ordered.
ghost use Rattle.std.specs.Prelude.{◌≡◌, ◌++◌, map, OnOk, IfOk, option_map};
ghost use Rattle.toml.specs.View.{view, table_view};
ghost use Rattle.topology_text.specs.Walk.{entries_from, entry_spot, value_at, visit_of, walk, zone_visits};
ghost use Rattle.topology_text.specs.Code.{visit};

use crate::schema::{Key, Spot};
use crate::visited::{TableAt, items_of, value_of};
use std::alloc::{AllocError, Global};
use toml::{Table, Value};

/// The place of an entry of `node`, `group` or `class`.
fn entry_spot(key: Key, index: usize) -> Spot
    ensures { result ≡ entry_spot key index }
{
    match key {
        Key::Node => Spot::NodeTable(index),
        Key::Class => Spot::ClassTable(index),
        _ => Spot::GroupTable(index),
    }
}

/// The value as a table on the walk, if it is one.
fn table_in(spot: Spot, value: &Value) -> Option<TableAt<'_>>
    ensures { option_map (λ t. visit t) result ≡ visit_of spot (view value.now) }
{
    match value {
        Value::Table(table) => Some(TableAt::new(spot, table)),
        _ => None,
    }
}

/// Adds the entries that are tables.
fn push_entries<'a>(
    tables: &mut Vec<TableAt<'a>>,
    key: Key,
    values: &'a [Value],
) -> Result<(), AllocError>
    ensures { OnOk result (map visit tables.new.items ≡ map visit tables.old.items
        ++ entries_from key 0 (map view values.now)) }
{
    for (i, value) in values.iter().enumerate() {
        let spot = entry_spot(key, i);
        if let Some(table) = table_in(spot, value) {
            tables.push(table)?;
        }
    }
    Ok(())
}

/// Adds the zone, if it is a table.
fn push_zone<'a>(tables: &mut Vec<TableAt<'a>>, top: &'a Table) -> Result<(), AllocError>
    ensures { OnOk result (map visit tables.new.items ≡ map visit tables.old.items
        ++ zone_visits (value_at (table_view top.now) Key.Zone)) }
{
    if let Some(value) = value_of(top, Key::Zone) {
        if let Some(table) = table_in(Spot::ZoneTable, value) {
            tables.push(table)?;
        }
    }
    Ok(())
}

/// The tables, in the order of the walk.
pub fn walk(alloc: Global, top: &Table) -> Result<Vec<TableAt<'_>>, AllocError>
    ensures { IfOk result (λ v. map visit v.items ≡ walk (table_view top.now)) }
{
    let mut tables = Vec::new(alloc);
    tables.push(TableAt::new(Spot::Top, top))?;
    push_zone(&mut tables, top)?;
    push_entries(&mut tables, Key::Node, items_of(top, Key::Node))?;
    push_entries(&mut tables, Key::Group, items_of(top, Key::Group))?;
    push_entries(&mut tables, Key::Class, items_of(top, Key::Class))?;
    Ok(tables)
}
