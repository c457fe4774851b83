//! Reading a topology: the first of its seventeen faults, by number and then by the order of the walk, or what it says.
ghost use Rattle.std.specs.Prelude.{◌≡◌, ℕ, false, slice_index_or, ◌++◌, map, IfOk, IfErr, MatchResult};
ghost use Rattle.toml.specs.View.{table_view};
ghost use Rattle.topology_text.specs.Code.{entries, visit};
ghost use Rattle.topology_text.specs.Faults.{HasNoTable, checked, document, faults_on, list_faults, name_faults, reading, shape_faults, value_faults};
ghost use Rattle.topology_text.specs.Prefixes.{all_prefixes, duplicate_prefixes, no_default};
ghost use Rattle.topology_text.specs.Names.{duplicate_name, repeats_pair};
ghost use Rattle.topology_text.specs.Walk.{first, places_of};

use crate::fault::TopologyFault;
use crate::links::{DuplicateName, ListShape, NsInside, ParentOrder, TooDeep, UnknownName};
use crate::names::Entries;
use crate::pairs::repeated_pairs;
use crate::parts::topology;
use crate::prefixes::{PrefixAt, all_prefixes, first_duplicate, first_lacking, first_passing};
use crate::rule::first_by;
use crate::schema::Place;
use crate::topology::Topology;
use crate::unknown::first_unknown;
use crate::values::{
    BadAddress, BadName, BadPrefix, EachValue, MissingKey, OutOfRange, TooMany, WrongKind,
};
use crate::visited::TableAt;
use crate::walk::walk;
use std::alloc::Global;
use toml::Table;

fn check_shape(tables: &[TableAt<'_>]) -> Result<(), TopologyFault>
    ensures { result ≡ checked (shape_faults (map visit tables.now)) }
{
    if let Some(place) = first_by(&MissingKey, tables) {
        return Err(TopologyFault::MissingKey(place));
    }
    if let Some(place) = first_by(&WrongKind, tables) {
        return Err(TopologyFault::WrongKind(place));
    }
    if let Some(place) = first_unknown(tables) {
        return Err(TopologyFault::UnknownKey(place));
    }
    Ok(())
}

/// The first name, or service of a class, that stands earlier too.
fn first_repeated(index: &Entries<'_>, repeats: &[bool], tables: &[TableAt<'_>]) -> Option<Place>
    requires { (i : ℕ) → slice_index_or repeats.now i false ≡ repeats_pair (entries index.now) i }
    ensures { result ≡ first (places_of (duplicate_name (entries index.now))
        (map visit tables.now)) }
{
    first_by(&DuplicateName::new(index, repeats), tables)
}

/// Names, and what they lead to.
fn check_names(
    index: &Entries<'_>,
    repeats: &[bool],
    tables: &[TableAt<'_>],
) -> Result<(), TopologyFault>
    requires { (i : ℕ) → slice_index_or repeats.now i false ≡ repeats_pair (entries index.now) i }
    ensures { result ≡ checked (name_faults (entries index.now) (map visit tables.now)) }
{
    if let Some(place) = first_by(&EachValue(BadName), tables) {
        return Err(TopologyFault::BadName(place));
    }
    if let Some(place) = first_repeated(index, repeats, tables) {
        return Err(TopologyFault::DuplicateName(place));
    }
    if let Some(place) = first_by(&EachValue(UnknownName(index)), tables) {
        return Err(TopologyFault::UnknownName(place));
    }
    if let Some(place) = first_by(&ParentOrder(index), tables) {
        return Err(TopologyFault::ParentOrder(place));
    }
    if let Some(place) = first_by(&TooDeep(index), tables) {
        return Err(TopologyFault::TooDeep(place));
    }
    Ok(())
}

/// Numbers, addresses and prefixes, each by itself.
fn check_values(tables: &[TableAt<'_>]) -> Result<(), TopologyFault>
    ensures { result ≡ checked (value_faults (map visit tables.now)) }
{
    if let Some(place) = first_by(&EachValue(OutOfRange), tables) {
        return Err(TopologyFault::Range(place));
    }
    if let Some(place) = first_by(&EachValue(BadAddress), tables) {
        return Err(TopologyFault::BadAddress(place));
    }
    if let Some(place) = first_by(&EachValue(BadPrefix), tables) {
        return Err(TopologyFault::BadPrefix(place));
    }
    Ok(())
}

/// The prefixes beside one another; the first that stands earlier too was looked for.
fn check_prefixes(prefixes: &[PrefixAt], duplicate: Option<Place>) -> Result<(), TopologyFault>
    requires { duplicate ≡ first (duplicate_prefixes prefixes.now) }
    ensures { result ≡ checked (map TopologyFault.DuplicatePrefix (duplicate_prefixes prefixes.now)
        ++ map TopologyFault.NoDefault (no_default prefixes.now)) }
{
    if let Some(place) = duplicate {
        return Err(TopologyFault::DuplicatePrefix(place));
    }
    if let Some(place) = first_lacking(prefixes) {
        return Err(TopologyFault::NoDefault(place));
    }
    Ok(())
}

/// Lists, name servers and limits.
fn check_lists(index: &Entries<'_>, tables: &[TableAt<'_>]) -> Result<(), TopologyFault>
    ensures { result ≡ checked (list_faults (entries index.now) (map visit tables.now)) }
{
    if let Some(place) = first_by(&ListShape, tables) {
        return Err(TopologyFault::ListShape(place));
    }
    if let Some(place) = first_by(&EachValue(NsInside(index)), tables) {
        return Err(TopologyFault::NsInside(place));
    }
    if let Some(place) = first_by(&TooMany, tables) {
        return Err(TopologyFault::TooMany(place));
    }
    if let Some(place) = first_passing(tables) {
        return Err(TopologyFault::TooMany(place));
    }
    Ok(())
}

/// The first fault.
fn check(
    index: &Entries<'_>,
    repeats: &[bool],
    tables: &[TableAt<'_>],
    prefixes: &[PrefixAt],
    duplicate: Option<Place>,
) -> Result<(), TopologyFault>
    requires repeats { (i : ℕ) → slice_index_or repeats.now i false
        ≡ repeats_pair (entries index.now) i }
    requires prefixes { prefixes.now ≡ all_prefixes (map visit tables.now) }
    requires duplicate { duplicate ≡ first (duplicate_prefixes prefixes.now) }
    ensures { result ≡ checked (faults_on (entries index.now) (map visit tables.now)) }
{
    check_shape(tables)?;
    check_names(index, repeats, tables)?;
    check_values(tables)?;
    if let Err(fault) = check_prefixes(prefixes, duplicate) {
        return Err(fault);
    }
    check_lists(index, tables)
}

fn parse(alloc: Global, bytes: &[u8]) -> Result<Table, TopologyFault>
    ensures ok { IfOk result (λ t. document bytes.now ≡ Some (table_view t)) }
    ensures refused { IfErr result (λ e. HasNoTable bytes.now e) }
{
    let text = match std::str::from_utf8(bytes) {
        Ok(text) => text,
        Err(_) => return Err(TopologyFault::NotToml),
    };
    match toml::table_from_str(alloc, text) {
        Ok(table) => Ok(table),
        Err(e) => {
            if e.is_memory() {
                Err(TopologyFault::NoMemory)
            } else {
                Err(TopologyFault::NotToml)
            }
        }
    }
}

/// Reads a topology: what the bytes say, or their first fault.
///
/// # Errors
///
/// The first fault, with its place; `NoMemory`, which may come in the place of either.
pub fn read_topology(alloc: Global, bytes: &[u8]) -> Result<Topology, TopologyFault>
    ensures { MatchResult result (λ t. reading bytes.now
        ≡ Ok t) (λ e. ¬ (e ≡ TopologyFault.NoMemory) → reading bytes.now ≡ Err e) }
{
    let table = parse(alloc, bytes)?;
    let tables = walk(alloc, &table)?;
    let index = Entries::new(alloc, &table)?;
    let repeats = repeated_pairs(alloc, &index)?;
    let prefixes = all_prefixes(alloc, tables.as_slice())?;
    let duplicate = first_duplicate(alloc, prefixes.as_slice())?;
    if let Err(fault) = check(
        &index,
        repeats.as_slice(),
        tables.as_slice(),
        prefixes.as_slice(),
        duplicate,
    ) {
        return Err(fault);
    }
    Ok(topology(alloc, &index, prefixes.as_slice())?)
}
