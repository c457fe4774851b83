//! Names of entries.
ghost use Rattle.std.specs.Prelude.{◌<◌, length, IfSome, ◌≡◌, ℕ, map, List, Option, option_map, option_and_then, IfOk, OnOk, if◌then◌else◌, Some, None, true, position};
ghost use Rattle.name_text.specs.Names.{is_same};
ghost use Rattle.std.specs.HashMap.{get_by};
ghost use Rattle.std.specs.Option.{option_or};
ghost use Rattle.std.specs.Str.{bytes_eq};
ghost use Rattle.toml.specs.Data.{Data};
ghost use Rattle.toml.specs.View.{table_view, view};
ghost use Rattle.topology_text.specs.Walk.{first, value_at};
ghost use Rattle.topology_text.specs.Guessed.{AreFirst};
ghost use Rattle.topology_text.specs.Texts.{zone_name};
ghost use Rattle.topology_text.specs.Names.{entries_of, entry_at, flag_in, is_pool, names_in, number_of, pair_of, parent_of, repeats_in, service_number, text_at, text_in, zone_items, zone_text};
ghost use Rattle.topology_text.specs.declared.schema.Key.TheVariants.{Apex, Ns, Services};

use crate::schema::{At, Key};
use crate::texts::{service_name, zone_name};
use crate::topology::Names;
use crate::visited::{items_of, value_of};
use crate::zone::{first_repeat, wire_names, zone_items, zone_table, zone_text};
use name_text::{Name, same_name};
use std::alloc::{AllocError, Global};
use std::collections::HashMap;
use toml::{Table, Value};

/// The text at a key of a table.
pub fn text_of(table: &Table, key: Key) -> Option<&str>
    ensures { option_map (λ t. t.now) result ≡ text_in (value_at (table_view table.now) key) }
{
    match value_of(table, key) {
        Some(Value::String(text)) => Some(text.as_str()),
        _ => None,
    }
}

/// The boolean at a key of a table, or false.
pub fn flag_of(table: &Table, key: Key) -> bool
    ensures { result ≡ flag_in (value_at (table_view table.now) key) }
{
    match value_of(table, key) {
        Some(Value::Boolean(flag)) => *flag,
        _ => false,
    }
}

/// The entry is a pool.
pub fn is_pool(entry: &Value) -> bool
    ensures { result ≡ is_pool (view entry.now) }
{
    match entry {
        Value::Table(table) => flag_of(table, Key::Pool),
        _ => false,
    }
}

/// The text at a key of an entry.
pub fn text_at(entry: &Value, key: Key) -> Option<&str>
    ensures { option_map (λ t. t.now) result ≡ text_at (view entry.now) key }
{
    match entry {
        Value::Table(table) => text_of(table, key),
        _ => None,
    }
}

/// Notes the number of a name that has none yet.
fn note_first<'a>(
    numbers: &mut HashMap<&'a str, usize>,
    name: &'a str,
    number: usize,
) -> Result<(), AllocError>
    ensures { OnOk result ((q : List ℕ) → get_by (λ k. bytes_eq q k.now) numbers.new
        ≡ option_or (get_by (λ k. bytes_eq q k.now) numbers.old) (if bytes_eq name.now q
        then Some number else None)) }
{
    if let None = numbers.get(name) {
        numbers.insert(name, number)?;
    }
    Ok(())
}

/// The first number of each name.
pub fn numbers_of(alloc: Global, entries: &[Value]) -> Result<HashMap<&str, usize>, AllocError>
    ensures { IfOk result (λ m. (q : List ℕ) → get_by (λ k. bytes_eq q k.now) m
        ≡ number_of (map view entries.now) q) }
{
    let mut numbers = HashMap::new(alloc);
    for (i, entry) in entries.iter().enumerate() {
        if let Some(name) = text_at(entry, Key::Name) {
            note_first(&mut numbers, name, i)?;
        }
    }
    Ok(numbers)
}

/// How many places there are for names that are found at once.
const GUESSES: usize = 16_384;

/// A name with its first number, at a place by the name's octets. Of several names of one place the last one is there.
type Guess<'a> = Option<(&'a str, usize)>;

fn place_of(name: &str) -> usize {
    let mut hash: u32 = 0x811c_9dc5;
    for octet in name.as_bytes() {
        hash = (hash ^ u32::from(*octet)).wrapping_mul(0x0100_0193);
    }
    (hash ^ (hash >> 15)) as usize % GUESSES
}

/// Two texts are the same.
fn are_alike(one: &str, other: &str) -> bool
    ensures { result ≡ true → one.now ≡ other.now }
{
    let (one, other) = (one.as_bytes(), other.as_bytes());
    if one.len() != other.len() {
        return false;
    }
    for i in 0..one.len() {
        if one[i] != other[i] {
            return false;
        }
    }
    true
}

/// No names.
fn no_guesses<'a>(alloc: Global) -> Result<Vec<Guess<'a>>, AllocError>
    ensures { IfOk result (λ v. (entries : List Data) → AreFirst entries v.items) }
{
    let mut guesses = Vec::new(alloc);
    for _place in 0..GUESSES {
        guesses.push(None)?;
    }
    Ok(guesses)
}

/// Puts a name with its first number at its place.
fn put_guess<'a>(guesses: &mut [Guess<'a>], name: &'a str, number: usize)
    ensures { (entries : List Data) → AreFirst entries guesses.old → number_of entries name.now
        ≡ Some number → AreFirst entries guesses.new }
{
    let place = place_of(name);
    if place < guesses.len() {
        guesses[place] = Some((name, number));
    }
}

/// Puts an entry's name with its first number at its place.
fn put_entry<'a>(guesses: &mut [Guess<'a>], numbers: &HashMap<&'a str, usize>, entry: &'a Value)
    ensures { (entries : List Data) → ((q : List ℕ) → get_by (λ k. bytes_eq q k.now) numbers.now
        ≡ number_of entries q) → AreFirst entries guesses.old → AreFirst entries guesses.new }
{
    if let Some(name) = text_at(entry, Key::Name) {
        if let Some(number) = numbers.get(name) {
            put_guess(guesses, name, *number);
        }
    }
}

/// The names of entries with their first numbers, each at its place.
fn guesses_of<'a>(
    alloc: Global,
    entries: &'a [Value],
    numbers: &HashMap<&'a str, usize>,
) -> Result<Vec<Guess<'a>>, AllocError>
    requires { (q : List ℕ) → get_by (λ k. bytes_eq q k.now) numbers.now
        ≡ number_of (map view entries.now) q }
    ensures { IfOk result (λ v. AreFirst (map view entries.now) v.items) }
{
    let mut guesses = no_guesses(alloc)?;
    for entry in entries {
        put_entry(guesses.as_mut_slice(), numbers, entry);
    }
    Ok(guesses)
}

/// The first number of a name, if the name is found at its place.
fn guessed(guesses: &[Guess<'_>], name: &str) -> Option<usize>
    ensures { (entries : List Data) → AreFirst entries guesses.now
        → IfSome result (λ n. number_of entries name.now ≡ Some n) }
{
    let guess = *guesses.get(place_of(name))?;
    let (other, number) = guess?;
    if are_alike(other, name) {
        Some(number)
    } else {
        None
    }
}

fn pools_of(alloc: Global, entries: &[Value]) -> Result<Vec<bool>, AllocError>
    ensures { IfOk result (λ pools. pools.items ≡ map is_pool (map view entries.now)) }
{
    let mut pools = Vec::with_capacity(alloc, entries.len())?;
    for entry in entries {
        pools.push(is_pool(entry))?;
    }
    Ok(pools)
}

/// The zone's top name, if there is one.
fn zone_apex(zone: Option<&Table>) -> Option<Name>
    ensures { result ≡ option_and_then zone_name
        (zone_text (option_map (λ t. table_view t.now) zone.entry) Key.Apex) }
{
    match zone_text(zone, Key::Apex) {
        Some(text) => zone_name(text),
        None => None,
    }
}

/// The first of some names that one is, whatever the case of letters.
fn place_among(names: &[Name], name: &[u8]) -> Option<usize>
    ensures { result ≡ position (is_same name.now) names.now }
{
    names.iter().position(|other| same_name(name, other.wire()))
}

/// The entries of a topology's three arrays and its zone, with their names.
#[derive(Drop)]
pub struct Entries<'a> {
    nodes: &'a [Value],
    groups: &'a [Value],
    classes: &'a [Value],
    zone: Option<&'a Table>,
    pools: Vec<bool>,
    node_numbers: HashMap<&'a str, usize>,
    /// Before a node's name is looked up there, it is looked for here, where that is quicker.
    guesses: Vec<Guess<'a>>,
    group_numbers: HashMap<&'a str, usize>,
    class_numbers: HashMap<&'a str, usize>,
    services: Names,
    apex: Option<Name>,
    ns_repeat: Option<At>,
    services_repeat: Option<At>,
    ghost pools_are: { pools.items ≡ map is_pool (map view nodes.now) },
    ghost nodes_are: { (q : List ℕ) → get_by (λ k. bytes_eq q k.now) node_numbers
        ≡ number_of (map view nodes.now) q },
    ghost guesses_are: { AreFirst (map view nodes.now) guesses.items },
    ghost groups_are: { (q : List ℕ) → get_by (λ k. bytes_eq q k.now) group_numbers
        ≡ number_of (map view groups.now) q },
    ghost classes_are: { (q : List ℕ) → get_by (λ k. bytes_eq q k.now) class_numbers
        ≡ number_of (map view classes.now) q },
    ghost names_are: { services ≡ names_in Services
        (zone_items (option_map (λ t. table_view t.now) zone) Services) },
    ghost apex_is: { apex ≡ option_and_then zone_name
        (zone_text (option_map (λ t. table_view t.now) zone) Apex) },
    ghost ns_are: { ns_repeat ≡ first (repeats_in Ns
        (zone_items (option_map (λ t. table_view t.now) zone) Ns)) },
    ghost services_are: { services_repeat
        ≡ first (repeats_in Services (zone_items (option_map (λ t. table_view t.now) zone)
        Services)) },
}

impl<'a> Entries<'a> {
    ghost use Rattle.topology_text.specs.Code.{entries};

    /// What stands in a table.
    pub fn new(alloc: Global, top: &'a Table) -> Result<Entries<'a>, AllocError>
        ensures { IfOk result (λ e. entries e ≡ entries_of (table_view top.now)) }
    {
        let nodes = items_of(top, Key::Node);
        let groups = items_of(top, Key::Group);
        let classes = items_of(top, Key::Class);
        let zone = zone_table(top);
        let pools = pools_of(alloc, nodes)?;
        let node_numbers = numbers_of(alloc, nodes)?;
        let guesses = guesses_of(alloc, nodes, &node_numbers)?;
        let group_numbers = numbers_of(alloc, groups)?;
        let class_numbers = numbers_of(alloc, classes)?;
        let services = wire_names(alloc, Key::Services, zone_items(zone, Key::Services))?;
        let ns_repeat = first_repeat(alloc, Key::Ns, zone_items(zone, Key::Ns))?;
        let services_repeat = first_repeat(alloc, Key::Services, zone_items(zone, Key::Services))?;
        Ok(Entries {
            nodes,
            groups,
            classes,
            zone,
            pools,
            node_numbers,
            guesses,
            group_numbers,
            class_numbers,
            services,
            apex: zone_apex(zone),
            ns_repeat,
            services_repeat,
        })
    }

    /// The first name server that stands earlier too.
    pub fn ns_repeat(&self) -> Option<At>
        ensures { result ≡ first (repeats_in Key.Ns (zone_items (entries self.now).zone Key.Ns)) }
    {
        self.ns_repeat
    }

    /// The first service that stands earlier too.
    pub fn services_repeat(&self) -> Option<At>
        ensures { result ≡ first (repeats_in Key.Services
            (zone_items (entries self.now).zone Key.Services)) }
    {
        self.services_repeat
    }

    /// The zone, if it is a table.
    pub fn zone(&self) -> Option<&Table>
        ensures { option_map (λ t. table_view t.now) result ≡ (entries self.now).zone }
    {
        self.zone
    }

    /// The zone's top name, if there is one.
    pub fn apex(&self) -> Option<&Name>
        ensures { option_map (λ n. n.now) result
            ≡ option_and_then zone_name (zone_text (entries self.now).zone Key.Apex) }
    {
        self.apex.as_ref()
    }

    /// The first node of that name.
    pub fn node_number(&self, name: &str) -> Option<usize>
        ensures number { result ≡ number_of (entries self.now).nodes name.now }
        ensures within { IfSome result (λ n. n < length (entries self.now).nodes) }
    {
        match guessed(self.guesses.as_slice(), name) {
            Some(number) => Some(number),
            None => self.node_numbers.get(name).copied(),
        }
    }

    /// The first group of that name.
    pub fn group_number(&self, name: &str) -> Option<usize>
        ensures { result ≡ number_of (entries self.now).groups name.now }
    {
        self.group_numbers.get(name).copied()
    }

    /// The first class of that name.
    pub fn class_number(&self, name: &str) -> Option<usize>
        ensures { result ≡ number_of (entries self.now).classes name.now }
    {
        self.class_numbers.get(name).copied()
    }

    /// The service whose label that is, whatever the case of letters.
    pub fn service_number(&self, text: &str) -> Option<usize>
        ensures { result ≡ service_number (entries self.now).zone text.now }
    {
        match service_name(text) {
            Some(name) => place_among(self.services.as_slice(), name.wire()),
            None => None,
        }
    }

    /// The numbers of the group and the service that a class names.
    pub fn pair_of(&self, entry: &Value) -> Option<(usize, usize)>
        ensures { result ≡ pair_of (entries self.now) (view entry.now) }
    {
        let owner = text_at(entry, Key::Owner)?;
        let service = text_at(entry, Key::Service)?;
        let group = self.group_number(owner)?;
        let service = self.service_number(service)?;
        Some((group, service))
    }

    /// That node is there, and is a pool.
    pub fn is_pool(&self, node: usize) -> bool
        ensures { result ≡ is_pool (entry_at (entries self.now).nodes node) }
    {
        match self.pools.get(node) {
            Some(flag) => *flag,
            None => false,
        }
    }

    /// The number of a node's parent.
    pub fn parent(&self, node: usize) -> Option<usize>
        ensures { result ≡ parent_of (entries self.now).nodes node }
    {
        let entry = self.nodes.get(node)?;
        let name = text_at(entry, Key::Parent)?;
        self.node_number(name)
    }

    /// The entries of `node`.
    pub fn nodes(&self) -> &[Value]
        ensures { result.now ≡ self.now.nodes.now }
    {
        self.nodes
    }

    /// The entries of `group`.
    pub fn groups(&self) -> &[Value]
        ensures { result.now ≡ self.now.groups.now }
    {
        self.groups
    }

    /// The entries of `class`.
    pub fn classes(&self) -> &[Value]
        ensures { result.now ≡ self.now.classes.now }
    {
        self.classes
    }
}
