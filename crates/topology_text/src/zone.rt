//! The names of a topology's zone.
ghost use Rattle.std.specs.Prelude.{◌≡◌, ◌++◌, map, false, IfOk, Ok, Some, option_map};
ghost use Rattle.std.specs.Str.{str_to_ascii_lowercase};
ghost use Rattle.toml.specs.View.{table_view, view};
ghost use Rattle.topology_text.specs.Names.{folds_of, is_seen, name_in, names_in, repeats_in, zone_items, zone_text};
ghost use Rattle.topology_text.specs.Walk.{first, table_in, value_at};

use crate::names::text_of;
use crate::schema::{At, Key};
use crate::texts::{service_name, zone_name};
use crate::topology::Names;
use crate::visited::{items_of, value_of};
use indexmap::IndexSet;
use name_text::Name;
use std::alloc::{AllocError, Global};
use toml::{Table, Value};

/// The zone, if it is a table.
pub fn zone_table(top: &Table) -> Option<&Table>
    ensures { option_map (λ t. table_view t.now) result
        ≡ table_in (value_at (table_view top.now) Key.Zone) }
{
    match value_of(top, Key::Zone) {
        Some(value) => value.as_table(),
        None => None,
    }
}

/// The items at a key of the zone.
pub fn zone_items(zone: Option<&Table>, key: Key) -> &[Value]
    ensures { map view result.now ≡ zone_items (option_map (λ t. table_view t.now) zone.entry) key }
{
    match zone {
        Some(table) => items_of(table, key),
        None => &[],
    }
}

/// The text at a key of the zone.
pub fn zone_text(zone: Option<&Table>, key: Key) -> Option<&str>
    ensures { option_map (λ t. t.now) result
        ≡ zone_text (option_map (λ t. table_view t.now) zone.entry) key }
{
    match zone {
        Some(table) => text_of(table, key),
        None => None,
    }
}

/// The name that an item of `ns` or `services` stands for.
pub fn name_in(key: Key, item: &Value) -> Option<Name>
    ensures { result ≡ name_in key (view item.now) }
{
    match (key, item) {
        (Key::Ns, Value::String(text)) => zone_name(text.as_str()),
        (Key::Services, Value::String(text)) => service_name(text.as_str()),
        _ => None,
    }
}

/// A name as it is compared: with small letters.
fn folded(alloc: Global, name: &Name) -> Result<Vec<u8>, AllocError>
    ensures { IfOk result (λ v. v.items ≡ str_to_ascii_lowercase name.now) }
{
    name.wire().to_ascii_lowercase(alloc)
}

/// Whether a name is among those that were seen; where it is not, it is then.
fn is_repeat(
    alloc: Global,
    seen: &mut IndexSet<Vec<u8>>,
    name: Option<Name>,
) -> Result<bool, AllocError>
    ensures found { IfOk result (λ b. b ≡ is_seen (map (λ v. v.items) seen.old.keys) name) }
    ensures noted { result ≡ Ok false → map (λ v. v.items) seen.new.keys
        ≡ map (λ v. v.items) seen.old.keys ++ folds_of name }
{
    match name {
        Some(name) => {
            let (_, is_new) = seen.insert_full(folded(alloc, &name)?)?;
            Ok(!is_new)
        }
        None => Ok(false),
    }
}

/// The first item that stands for a name for which an earlier item stands.
pub fn first_repeat(alloc: Global, key: Key, items: &[Value]) -> Result<Option<At>, AllocError>
    ensures { IfOk result (λ o. o ≡ first (repeats_in key (map view items.now))) }
{
    let mut seen = IndexSet::new(alloc);
    for (i, item) in items.iter().enumerate() {
        if is_repeat(alloc, &mut seen, name_in(key, item))? {
            return Ok(Some(At::Item(i)));
        }
    }
    Ok(None)
}

/// The names in a list of the zone.
pub fn wire_names(alloc: Global, key: Key, items: &[Value]) -> Result<Names, AllocError>
    ensures { IfOk result (λ v. v ≡ names_in key (map view items.now)) }
{
    let mut names = Vec::new(alloc);
    for item in items {
        if let Some(name) = name_in(key, item) {
            names.push(name)?;
        }
    }
    Ok(Names::new(names))
}
