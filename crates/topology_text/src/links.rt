//! Rules that look at names, and at what they lead to.
ghost use Rattle.std.specs.Prelude.{◌≡◌, ◌≤◌, ◌+◌, ◌∷◌, ◌||◌, ℕ, true, false, slice_index, slice_index_or, drop, map, length, option_map, Some, IsNone};
ghost use Rattle.std.specs.List.{list_any};
ghost use Rattle.std.specs.Str.{bytes_eq};
ghost use Rattle.toml.specs.View.{table_view, view};
ghost use Rattle.topology_text.specs.Code.{entries, flag_at, visit};
ghost use Rattle.topology_text.specs.Names.{ascend, count_at, duplicate_name, has_repeat, is_deep, is_deep_at, is_inside, is_misplaced, is_misshapen, is_other, is_pool_number, is_taken, is_under_apex, is_unknown_name, list_shape, misplaced_at, number_of, parent_of, parent_order, repeats_name, repeats_pair, text_in, texts_of, too_deep, units_of};
ghost use Rattle.topology_text.specs.Slots.{AreInSlots, slot_of};
ghost use Rattle.topology_text.specs.Values.{whole_if};
ghost use Rattle.topology_text.specs.Walk.{first, value_at};

use crate::names::Entries;
use crate::rule::Rule;
use crate::schema::{At, Key, Spot};
use crate::texts::zone_name;
use crate::values::Test;
use crate::visited::TableAt;
use map_model::{LEVELS, PLACES};
use name_text::{Name, under};
use toml::Value;

/// How many numbers texts may have by which those of a list are told apart.
const SLOTS: usize = 256;

/// The whole value, where it is bad.
fn whole_if(bad: bool) -> Option<At>
    ensures { result ≡ first (whole_if bad) }
{
    if bad { Some(At::Whole) } else { None }
}

/// The first of that name is another.
fn is_other(found: Option<usize>, number: usize) -> bool
    ensures { result ≡ is_other found number }
{
    match found {
        Some(first) => first != number,
        None => false,
    }
}

/// The class of that number among classes is another unit than number i.
fn is_other_class(found: Option<usize>, groups: usize, i: usize) -> bool
    ensures { result ≡ is_other (option_map (λ n. groups + n) found) i }
{
    match found {
        Some(first) => i < groups || i - groups != first,
        None => false,
    }
}

/// The first of that name is another unit than group number i.
fn is_taken_group(index: &Entries<'_>, i: usize, name: &str) -> bool
    ensures { result ≡ is_taken (units_of (entries index.now)) i (Some name.now) }
{
    match index.group_number(name) {
        Some(first) => first != i,
        None => is_other_class(index.class_number(name), index.groups().len(), i),
    }
}

/// The first of that name is another unit than class number i.
fn is_taken_class(index: &Entries<'_>, i: usize, name: &str) -> bool
    ensures { result ≡ is_taken (units_of (entries index.now)) (length (entries index.now).groups
        + i) (Some name.now) }
{
    match index.group_number(name) {
        Some(_) => true,
        None => is_other(index.class_number(name), i),
    }
}

/// The name is that of an earlier entry.
fn repeats_name(index: &Entries<'_>, spot: Spot, name: &str) -> bool
    ensures { result ≡ repeats_name (entries index.now) spot (Some name.now) }
{
    match spot {
        Spot::NodeTable(i) => is_other(index.node_number(name), i),
        Spot::GroupTable(i) => is_taken_group(index, i, name),
        Spot::ClassTable(i) => is_taken_class(index, i, name),
        _ => false,
    }
}

/// Whether such a class stands at a place of the walk, of the flags of all classes.
fn is_repeat_at(repeats: &[bool], spot: Spot) -> bool
    ensures { result ≡ flag_at repeats.now spot }
{
    match spot {
        Spot::ClassTable(i) => match repeats.get(i) {
            Some(flag) => *flag,
            None => false,
        },
        _ => false,
    }
}

/// The later of two entries, name servers or services of one name, and of two classes of one group and service, which are looked for before.
#[derive(Drop)]
pub struct DuplicateName<'a> {
    index: &'a Entries<'a>,
    repeats: &'a [bool],
    ghost repeats_are: { (i : ℕ) → slice_index_or repeats.now i false
        ≡ repeats_pair (entries index.now) i },
}

impl<'a> DuplicateName<'a> {
    /// The rule over these entries, with a flag for each class that repeats an earlier one's group and service.
    pub fn new(index: &'a Entries<'a>, repeats: &'a [bool]) -> DuplicateName<'a>
        requires { (i : ℕ) → slice_index_or repeats.now i false
            ≡ repeats_pair (entries index.now) i }
        ensures { result.index.now ≡ index.now }
    {
        DuplicateName { index, repeats }
    }
}

impl<'a> Rule for DuplicateName<'a> {
    ghost finds = { λ r v k. duplicate_name (entries r.index.now) v k };

    fn first(&self, table: &TableAt<'_>, key: Key) -> Option<At> {
        match key {
            Key::Name => {
                let name = table.text(Key::Name)?;
                whole_if(repeats_name(self.index, table.spot, name))
            }
            Key::Ns => self.index.ns_repeat(),
            Key::Services => self.index.services_repeat(),
            Key::Service => whole_if(is_repeat_at(self.repeats, table.spot)),
            _ => None,
        }
    }
}

fn is_pool_name(index: &Entries<'_>, name: &str) -> bool
    ensures { result ≡ is_pool_number (entries index.now).nodes
        (number_of (entries index.now).nodes name.now) }
{
    match index.node_number(name) {
        Some(node) => index.is_pool(node),
        None => false,
    }
}

/// A parent that is no node, a pool that is none, a class's group that is none, or its service that is none.
#[derive(Drop)]
pub struct UnknownName<'a>(pub &'a Entries<'a>);

impl<'a> Test for UnknownName<'a> {
    ghost fails = { λ r k d. is_unknown_name (entries r.0.now) k d };

    fn reads(&self, key: Key) -> bool {
        matches!(key, Key::Parent | Key::Pools | Key::Owner | Key::Service)
    }

    fn is_bad(&self, key: Key, value: &Value) -> bool {
        match (key, value) {
            (Key::Parent, Value::String(text)) => self.0.node_number(text.as_str()).is_none(),
            (Key::Pools, Value::String(text)) => !is_pool_name(self.0, text.as_str()),
            (Key::Owner, Value::String(text)) => self.0.group_number(text.as_str()).is_none(),
            (Key::Service, Value::String(text)) => self.0.service_number(text.as_str()).is_none(),
            _ => false,
        }
    }
}

/// The node's parent doesn't stand earlier, or is a pool.
fn is_misplaced(index: &Entries<'_>, node: usize) -> bool
    ensures { result ≡ is_misplaced (entries index.now).nodes node
        (parent_of (entries index.now).nodes node) }
{
    match index.parent(node) {
        Some(parent) => parent >= node || index.is_pool(parent),
        None => false,
    }
}

/// A parent that doesn't stand earlier, or is a pool.
#[derive(Drop)]
pub struct ParentOrder<'a>(pub &'a Entries<'a>);

impl<'a> Rule for ParentOrder<'a> {
    ghost finds = { λ r v k. parent_order (entries r.0.now) v k };

    fn first(&self, table: &TableAt<'_>, key: Key) -> Option<At> {
        match (key, table.spot) {
            (Key::Parent, Spot::NodeTable(i)) => whole_if(is_misplaced(self.0, i)),
            _ => None,
        }
    }
}

/// More than eight nodes stand on the path.
fn is_deep(index: &Entries<'_>, node: usize) -> bool
    ensures { result ≡ is_deep (entries index.now).nodes node }
{
    let mut at = Some(node);
    for _step in 0..LEVELS {
        match at {
            Some(n) => at = index.parent(n),
            None => return false,
        }
    }
    at.is_some()
}

/// A path of more than eight nodes.
#[derive(Drop)]
pub struct TooDeep<'a>(pub &'a Entries<'a>);

impl<'a> Rule for TooDeep<'a> {
    ghost finds = { λ r v k. too_deep (entries r.0.now) v k };

    fn first(&self, table: &TableAt<'_>, key: Key) -> Option<At> {
        match (key, table.spot) {
            (Key::Parent, Spot::NodeTable(i)) => whole_if(is_deep(self.0, i)),
            _ => None,
        }
    }
}

/// Two texts end alike, or are both empty, which is soon seen.
fn end_alike(one: &str, other: &str) -> bool
    ensures { bytes_eq one.now other.now ≡ true → result ≡ true }
{
    match (one.as_bytes().last(), other.as_bytes().last()) {
        (Some(end), Some(other_end)) => end == other_end,
        _ => true,
    }
}

/// Two texts are the same.
fn is_same_text(one: &str, other: &str) -> bool
    ensures { result ≡ bytes_eq one.now other.now }
{
    end_alike(one, other) && one == other
}

fn has_text(items: &[Value], text: &str) -> bool
    ensures { result ≡ list_any (bytes_eq text.now) (texts_of (map view items.now)) }
{
    for item in items {
        if let Some(other) = item.as_str() {
            if is_same_text(text, other) {
                return true;
            }
        }
    }
    false
}

/// The octet at a place of a text, or 0 behind its end.
fn octet_at(text: &str, place: usize) -> u8
    ensures { result ≡ slice_index text.now place }
{
    text.as_bytes().get(place).copied().unwrap_or(0)
}

/// A number below 256 for a text, by its last three octets: texts that are the same have the same.
#[tactic(auto, unfolding(crate::specs::Slots::slot_of))]
fn slot_of(text: &str) -> usize
    ensures { result ≡ slot_of text.now }
{
    let last = octet_at(text, text.len().saturating_sub(1)) as usize;
    let second = octet_at(text, text.len().saturating_sub(2)) as usize;
    let third = octet_at(text, text.len().saturating_sub(3)) as usize;
    (last + 16 * second + 7 * third) % SLOTS
}

/// Notes the number of a text. Whether a text with that number was noted before, or may have been.
fn is_noted(slots: &mut [bool], text: &str) -> bool
    ensures before { result ≡ slice_index_or slots.old (slot_of text.now) true }
    ensures noted { slice_index_or slots.new (slot_of text.now) true ≡ true }
    ensures kept { (slot : ℕ) → slice_index_or slots.old slot true ≡ true
        → slice_index_or slots.new slot true ≡ true }
{
    let slot = slot_of(text);
    if slot >= slots.len() {
        return true;
    }
    let before = slots[slot];
    slots[slot] = true;
    before
}

/// The text stands among later items, whose texts are noted; it is noted then, too.
fn stands_again(slots: &mut [bool], text: &str, later: &[Value]) -> bool
    requires { AreInSlots slots.old (texts_of (map view later.now)) }
    ensures found { result ≡ list_any (bytes_eq text.now) (texts_of (map view later.now)) }
    ensures noted { AreInSlots slots.new (text.now ∷ texts_of (map view later.now)) }
{
    if is_noted(slots, text) {
        has_text(later, text)
    } else {
        false
    }
}

/// The first item is a text that stands among the others, which are noted; it is noted then, too.
fn first_stands_again(slots: &mut [bool], items: &[Value]) -> bool
    requires some { 1 ≤ length items.now }
    requires noted { AreInSlots slots.old (texts_of (map view (drop 1 items.now))) }
    ensures found { has_repeat (texts_of (map view items.now))
        ≡ (result || has_repeat (texts_of (map view (drop 1 items.now)))) }
    ensures noted { AreInSlots slots.new (texts_of (map view items.now)) }
{
    match items[0].as_str() {
        Some(text) => stands_again(slots, text, &items[1..]),
        None => false,
    }
}

/// Some text stands twice among a few items.
fn has_repeat(items: &[Value]) -> bool
    ensures { result ≡ has_repeat (texts_of (map view items.now)) }
{
    let mut slots = [false; SLOTS];
    for done in 0..items.len() {
        if first_stands_again(&mut slots, &items[items.len() - 1 - done..]) {
            return true;
        }
    }
    false
}

/// The list at a key is against its shape.
fn is_misshapen(table: &TableAt<'_>, key: Key) -> bool
    ensures { result ≡ is_misshapen (table_view table.now.table.now) key }
{
    let count = table.items(key).len();
    match key {
        Key::Ns => table.value(key).is_some() && count == 0,
        Key::A | Key::Aaaa => count > 0 && !table.flag(Key::Pool),
        Key::Pools => {
            table.value(key).is_some()
                && (count == 0 || count > PLACES || has_repeat(table.items(key)))
        }
        Key::Scores | Key::Limits => {
            table.value(key).is_some() && count != table.items(Key::Pools).len()
        }
        _ => false,
    }
}

/// A list against its shape.
#[derive(Drop)]
pub struct ListShape;

impl Rule for ListShape {
    ghost finds = { λ _ v k. list_shape v k };

    fn first(&self, table: &TableAt<'_>, key: Key) -> Option<At> {
        whole_if(is_misshapen(table, key))
    }
}

/// The name is the apex, or under it.
fn is_under_apex(apex: Option<&Name>, name: Option<Name>) -> bool
    ensures { result ≡ is_under_apex (option_map (λ n. n.now) apex.entry) name }
{
    match (apex, name) {
        (Some(apex), Some(name)) => under(name.wire(), apex.wire()),
        _ => false,
    }
}

/// A name server that is the apex or stands under it.
#[derive(Drop)]
pub struct NsInside<'a>(pub &'a Entries<'a>);

impl<'a> Test for NsInside<'a> {
    ghost fails = { λ r k d. is_inside (entries r.0.now) k d };

    fn reads(&self, key: Key) -> bool {
        matches!(key, Key::Ns)
    }

    fn is_bad(&self, key: Key, value: &Value) -> bool {
        match (key, value) {
            (Key::Ns, Value::String(text)) => {
                is_under_apex(self.0.apex(), zone_name(text.as_str()))
            }
            _ => false,
        }
    }
}
