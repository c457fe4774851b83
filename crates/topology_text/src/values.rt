//! Rules that look at one value alone.
ghost use Rattle.std.specs.Prelude.{◌≡◌, ℕ, map, length, List, Bool, false, not, Option, option_map};
ghost use Rattle.toml.specs.Data.{Data};
ghost use Rattle.toml.specs.View.{table_view, view};
ghost use Rattle.topology_text.specs.Schema.{is_kind, is_item_kind, kind_of};
ghost use Rattle.topology_text.specs.Walk.{Visit, first, items_from, items_of_value, items_where, value_at};
ghost use Rattle.topology_text.specs.Code.{visit};
ghost use Rattle.topology_text.specs.Values.{are_many_units, failing, is_bad_address, is_bad_name, is_bad_prefix, is_in_range, is_out_of_range, is_over, is_within, limit_of, missing, too_many, whole_if, wrong_in, wrong_kind};

use crate::limits::{MOST_ADDRESSES, MOST_NAME_SERVERS, MOST_SECONDS, MOST_SERVICES};
use crate::rule::Rule;
use crate::schema::{At, Key, Kind};
use crate::texts::{is_name, service_name, v4_address, v6_address, zone_name};
use crate::visited::{TableAt, items_of_value};
use addr_text::read_prefix;
use map_model::{MOST_CAPACITY, MOST_GROUPS, MOST_NODES};
use toml::Value;

/// A test of one value, or of one item of an array.
pub trait Test {
    ghost use Rattle.topology_text.specs.declared.schema.Key.{Key};

    ghost fails: { Self → Key → Data → Bool };

    /// Whether the test looks at the values of a key: it fails nothing at another.
    fn reads(&self, key: Key) -> bool
        ensures { (d : Data) → result ≡ false → fails self.now key d ≡ false };

    fn is_bad(&self, key: Key, value: &Value) -> bool
        ensures { result ≡ fails self.now key (view value.now) };
}

fn first_item<T: Test>(test: &T, key: Key, items: &[Value]) -> Option<At>
    ensures { result ≡ first (items_where (T.fails test.now key) (map view items.now)) }
{
    for (i, item) in items.iter().enumerate() {
        if test.is_bad(key, item) {
            return Some(At::Item(i));
        }
    }
    None
}

fn first_failing<T: Test>(test: &T, key: Key, value: &Value) -> Option<At>
    ensures { result ≡ first (failing (T.fails test.now key) (Some (view value.now))) }
{
    match value {
        Value::Array(items) => first_item(test, key, items.as_slice()),
        value if test.is_bad(key, value) => Some(At::Whole),
        _ => None,
    }
}

/// A test as a rule.
#[derive(Drop)]
pub struct EachValue<T>(pub T);

impl<T: Test> Rule for EachValue<T> {
    ghost finds = { λ r v k. failing (T.fails r.0 k) (value_at v.members k) };

    fn first(&self, table: &TableAt<'_>, key: Key) -> Option<At> {
        if self.0.reads(key) {
            first_failing(&self.0, key, table.value(key)?)
        } else {
            None
        }
    }
}

/// A required key isn't there.
#[derive(Drop)]
pub struct MissingKey;

impl Rule for MissingKey {
    ghost finds = { λ _ v k. missing v k };

    fn first(&self, table: &TableAt<'_>, key: Key) -> Option<At> {
        if key.is_required() && table.value(key).is_none() {
            Some(At::Whole)
        } else {
            None
        }
    }
}

fn is_kind(kind: Kind, value: &Value) -> bool
    ensures { result ≡ is_kind kind (view value.now) }
{
    match (kind, value) {
        (Kind::Text, Value::String(_)) => true,
        (Kind::Integer, Value::Integer(_)) => true,
        (Kind::Flag, Value::Boolean(_)) => true,
        (Kind::Table, Value::Table(_)) => true,
        (Kind::Texts | Kind::Integers | Kind::Tables, Value::Array(_)) => true,
        _ => false,
    }
}

/// An item isn't of the kind that its key's list has.
#[derive(Drop)]
struct ItemKind;

impl Test for ItemKind {
    ghost fails = { λ _ k d. not (is_item_kind (kind_of k) d) };

    fn reads(&self, key: Key) -> bool {
        matches!(key.kind(), Kind::Texts | Kind::Integers | Kind::Tables)
    }

    fn is_bad(&self, key: Key, value: &Value) -> bool {
        match key.kind() {
            Kind::Texts => !is_kind(Kind::Text, value),
            Kind::Integers => !is_kind(Kind::Integer, value),
            Kind::Tables => !is_kind(Kind::Table, value),
            _ => false,
        }
    }
}

/// A value isn't of its kind, or an item isn't.
#[derive(Drop)]
pub struct WrongKind;

impl Rule for WrongKind {
    ghost finds = { λ _ v k. wrong_kind v k };

    fn first(&self, table: &TableAt<'_>, key: Key) -> Option<At> {
        let value = table.value(key)?;
        if is_kind(key.kind(), value) {
            first_item(&ItemKind, key, items_of_value(value))
        } else {
            Some(At::Whole)
        }
    }
}

/// A name is against its rule.
#[derive(Drop)]
pub struct BadName;

impl Test for BadName {
    ghost fails = { λ _ k d. is_bad_name k d };

    fn reads(&self, key: Key) -> bool {
        matches!(
            key,
            Key::Apex | Key::Mname | Key::Rname | Key::Ns | Key::Services | Key::Name
        )
    }

    fn is_bad(&self, key: Key, value: &Value) -> bool {
        match (key, value) {
            (Key::Apex | Key::Mname | Key::Rname | Key::Ns, Value::String(text)) => {
                zone_name(text.as_str()).is_none()
            }
            (Key::Services, Value::String(text)) => service_name(text.as_str()).is_none(),
            (Key::Name, Value::String(text)) => !is_name(text.as_str()),
            _ => false,
        }
    }
}

/// A number is at least the one and at most the other.
fn is_within(low: u64, high: u64, number: i64) -> bool
    ensures { result ≡ is_within low high number }
{
    match u64::try_from(number) {
        Ok(n) => low <= n && n <= high,
        Err(_) => false,
    }
}

fn is_in_range(key: Key, number: i64) -> bool
    ensures { result ≡ is_in_range key number }
{
    match key {
        Key::Serial | Key::Refresh | Key::Retry | Key::Expire | Key::Scores => {
            is_within(0, 0xffff_ffff, number)
        }
        Key::Demand | Key::Limits => is_within(1, 0xffff_ffff, number),
        Key::Minimum | Key::Ttl => is_within(0, MOST_SECONDS, number),
        Key::Capacity => is_within(0, MOST_CAPACITY, number),
        _ => true,
    }
}

/// A number is out of its range.
#[derive(Drop)]
pub struct OutOfRange;

impl Test for OutOfRange {
    ghost fails = { λ _ k d. is_out_of_range k d };

    fn reads(&self, key: Key) -> bool {
        matches!(key.kind(), Kind::Integer | Kind::Integers)
    }

    fn is_bad(&self, key: Key, value: &Value) -> bool {
        match value {
            Value::Integer(number) => !is_in_range(key, *number),
            _ => false,
        }
    }
}

/// A text is no address of its list's family.
#[derive(Drop)]
pub struct BadAddress;

impl Test for BadAddress {
    ghost fails = { λ _ k d. is_bad_address k d };

    fn reads(&self, key: Key) -> bool {
        matches!(key, Key::A | Key::Aaaa)
    }

    fn is_bad(&self, key: Key, value: &Value) -> bool {
        match (key, value) {
            (Key::A, Value::String(text)) => v4_address(text.as_str()).is_none(),
            (Key::Aaaa, Value::String(text)) => v6_address(text.as_str()).is_none(),
            _ => false,
        }
    }
}

/// A text is no prefix.
#[derive(Drop)]
pub struct BadPrefix;

impl Test for BadPrefix {
    ghost fails = { λ _ k d. is_bad_prefix k d };

    fn reads(&self, key: Key) -> bool {
        matches!(key, Key::Prefixes)
    }

    fn is_bad(&self, key: Key, value: &Value) -> bool {
        match (key, value) {
            (Key::Prefixes, Value::String(text)) => read_prefix(text.as_str().as_bytes()).is_none(),
            _ => false,
        }
    }
}

/// How many items the array at a key may have.
fn limit_of(key: Key) -> Option<usize>
    ensures { result ≡ limit_of key }
{
    match key {
        Key::Node => Some(MOST_NODES),
        Key::Group => Some(MOST_GROUPS),
        Key::Ns => Some(MOST_NAME_SERVERS),
        Key::Services => Some(MOST_SERVICES),
        Key::A | Key::Aaaa => Some(MOST_ADDRESSES),
        _ => None,
    }
}

/// Groups and classes together are past the groups' limit.
fn are_many_units(table: &TableAt<'_>) -> bool
    ensures { result ≡ are_many_units (table_view table.now.table.now) }
{
    let groups = table.items(Key::Group).len();
    let classes = table.items(Key::Class).len();
    groups > MOST_GROUPS || classes > MOST_GROUPS - groups
}

/// The array at a key is past the key's limit.
fn past_limit(table: &TableAt<'_>, key: Key) -> Option<At>
    ensures { result ≡ first (whole_if
        (is_over (limit_of key) (length (items_of_value
        (value_at (table_view table.now.table.now) key))))) }
{
    match limit_of(key) {
        Some(limit) if table.items(key).len() > limit => Some(At::Whole),
        _ => None,
    }
}

/// An array is past its limit; that of classes is over groups and classes together.
#[derive(Drop)]
pub struct TooMany;

impl Rule for TooMany {
    ghost finds = { λ _ v k. too_many v k };

    fn first(&self, table: &TableAt<'_>, key: Key) -> Option<At> {
        match key {
            Key::Class if are_many_units(table) => Some(At::Whole),
            Key::Class => None,
            _ => past_limit(table, key),
        }
    }
}
