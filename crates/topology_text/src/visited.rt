//! A table on the walk, and the values at its keys, each looked up once.
ghost use Rattle.std.specs.Prelude.{◌≡◌, map, option_map, Some};
ghost use Rattle.toml.specs.View.{table_view, view};
ghost use Rattle.topology_text.specs.Names.{flag_in, text_in};
ghost use Rattle.topology_text.specs.Found.{found_at};
ghost use Rattle.topology_text.specs.Schema.{keys_of};
ghost use Rattle.topology_text.specs.Walk.{items_of_value, value_at};

use crate::limits::MOST_KEYS;
use crate::schema::{Key, Spot};
use arrayvec::ArrayVec;
use toml::{Table, Value};

/// The value at a key.
pub fn value_of<'a>(table: &'a Table, key: Key) -> Option<&'a Value>
    ensures value { option_map (λ v. view v.now) result ≡ value_at (table_view table.now) key }
    ensures found { option_map (λ v. v.now) result ≡ found_at table.now.entries key }
{
    table.get(key.text())
}

/// The items of an array.
pub fn items_of_value(value: &Value) -> &[Value]
    ensures { map view result.now ≡ items_of_value (Some (view value.now)) }
{
    match value {
        Value::Array(items) => items.as_slice(),
        _ => &[],
    }
}

/// The items of the array at a key.
pub fn items_of<'a>(table: &'a Table, key: Key) -> &'a [Value]
    ensures { map view result.now ≡ items_of_value (value_at (table_view table.now) key) }
{
    match value_of(table, key) {
        Some(value) => items_of_value(value),
        None => &[],
    }
}

/// The values at the keys that such a table has.
fn row_of<'a>(spot: Spot, table: &'a Table) -> ArrayVec<Option<&'a Value>, MOST_KEYS>
    ensures { map (option_map (λ v. v.now)) result.items
        ≡ map (found_at table.now.entries) (keys_of spot) }
{
    let mut row = ArrayVec::new();
    for key in spot.keys() {
        row.push(value_of(table, *key));
    }
    row
}

/// A table on the walk, where it stands, and the values at its keys.
#[derive(Drop)]
pub struct TableAt<'a> {
    pub spot: Spot,
    pub table: &'a Table,
    row: ArrayVec<Option<&'a Value>, MOST_KEYS>,
    ghost row_is: { ∥ map (option_map (λ v. v.now)) row.items
        ≡ map (found_at table.now.entries) (keys_of spot) ∥₁ },
}

impl<'a> TableAt<'a> {
    ghost use Rattle.topology_text.specs.Code.{visit};

    /// The table there.
    pub fn new(spot: Spot, table: &'a Table) -> TableAt<'a>
        ensures { visit result ≡ record { spot = spot; members = table_view table.now } }
    {
        TableAt {
            spot,
            table,
            row: row_of(spot, table),
        }
    }

    /// The value at a key.
    pub fn value(&self, key: Key) -> Option<&'a Value>
        ensures { option_map (λ v. view v.now) result
            ≡ value_at (table_view self.now.table.now) key }
    {
        let place = key.place(self.spot);
        match (self.spot.keys().get(place), self.row.as_slice().get(place)) {
            (Some(other), Some(value)) if *other == key => *value,
            _ => value_of(self.table, key),
        }
    }

    /// The items of the array at a key.
    pub fn items(&self, key: Key) -> &'a [Value]
        ensures { map view result.now ≡ items_of_value
            (value_at (table_view self.now.table.now) key) }
    {
        match self.value(key) {
            Some(value) => items_of_value(value),
            None => &[],
        }
    }

    /// The text at a key.
    pub fn text(&self, key: Key) -> Option<&'a str>
        ensures { option_map (λ t. t.now) result
            ≡ text_in (value_at (table_view self.now.table.now) key) }
    {
        match self.value(key) {
            Some(Value::String(text)) => Some(text.as_str()),
            _ => None,
        }
    }

    /// The boolean at a key, or false.
    pub fn flag(&self, key: Key) -> bool
        ensures { result ≡ flag_in (value_at (table_view self.now.table.now) key) }
    {
        match self.value(key) {
            Some(Value::Boolean(flag)) => *flag,
            _ => false,
        }
    }
}
