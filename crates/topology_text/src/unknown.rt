//! Keys that a table has beside its own.
ghost use Rattle.std.specs.Prelude.{◌≡◌, map, string_bytes};
ghost use Rattle.std.specs.List.{flat_map, list_all};
ghost use Rattle.std.specs.BTreeMap.{keys};
ghost use Rattle.topology_text.specs.Walk.{first};
ghost use Rattle.topology_text.specs.Code.{visit};
ghost use Rattle.topology_text.specs.Values.{is_key_of, unknown};

use crate::schema::{At, Place, Spot};
use crate::visited::TableAt;
use toml::Table;

fn is_key_of(spot: Spot, name: &str) -> bool
    ensures { result ≡ is_key_of spot name.now }
{
    spot.keys().iter().any(|key| key.text() == name)
}

fn has_only_keys(spot: Spot, table: &Table) -> bool
    ensures { result ≡ list_all (λ k. is_key_of spot (string_bytes k)) (keys table.now) }
{
    table.keys().all(|name| is_key_of(spot, name.as_str()))
}

fn unknown_in(table: &TableAt<'_>) -> Option<Place>
    ensures { result ≡ first (unknown (visit table.now)) }
{
    if has_only_keys(table.spot, table.table) {
        None
    } else {
        Some(Place {
            spot: table.spot,
            key: None,
            at: At::Whole,
        })
    }
}

/// The first table with an unknown key.
pub fn first_unknown(tables: &[TableAt<'_>]) -> Option<Place>
    ensures { result ≡ first (flat_map unknown (map visit tables.now)) }
{
    for table in tables {
        if let Some(place) = unknown_in(table) {
            return Some(place);
        }
    }
    None
}
