//! The text of a map by the one before: pieces in which nothing changed are copied.
ghost use Rattle.std.specs.Prelude.{◌≡◌, ◌≤◌, ◌++◌, length, Decides, IfOk};
ghost use Rattle.std.specs.List.{flat_map};
ghost use Rattle.map_model.specs.Allocation.{IsMapForm};
ghost use Rattle.map_text.specs.Cutting.{AreCuts, AreCutsOf, IsTextOf, name_text, place_text};
ghost use Rattle.map_text.specs.Named.{AreNamed, AreOffers, HasWords};
ghost use Rattle.map_text.specs.Writing.{mapped, text_of_map};

use crate::cutting::{Cut, Cuts, Rows, cut_off};
use crate::lexicon::Lexicon;
use crate::write::{push_names, push_places};
use map_model::{MapLine, MapLines, NameLine};
use no_memory::NoMemory;
use std::alloc::Global;
use topology_text::Topology;

/// How many groups a piece has: where one of them changed, the rows of all of them are written.
const TOGETHER: u32 = 8;

/// The header, with its end.
const HEADER: usize = 10;

/// The last line, with its end.
const LAST: usize = 4;

/// The text of a map, and how it is cut.
#[derive(Drop)]
pub struct Written {
    pub text: Vec<u8>,
    pub cuts: Cuts,
}

fn same_lines(old: &[MapLine], new: &[MapLine]) -> bool
    ensures { Decides result (old.now ≡ new.now) }
{
    old == new
}

fn same_names(old: &[NameLine], new: &[NameLine]) -> bool
    ensures { Decides result (old.now ≡ new.now) }
{
    old == new
}

/// How many lines of groups below that number come first.
fn lines_below(lines: &[MapLine], group: u32) -> usize
    ensures { result ≤ length lines.now }
{
    lines.partition_point(|line| line.group.0 < group)
}

/// How many names of groups below that number come first.
fn names_below(names: &[NameLine], group: u32) -> usize
    ensures { result ≤ length names.now }
{
    names.partition_point(|name| name.group.0 < group)
}

/// The rows of lines: a copy of their old text, if the lines are the old ones.
fn push_lines(
    text: &mut Vec<u8>,
    topology: &Topology,
    lexicon: &Lexicon,
    old_text: &[u8],
    old: &[MapLine],
    lines: &[MapLine],
) -> Result<(), NoMemory>
    requires words { HasWords topology.now lexicon.now }
    requires old { old_text.now ≡ flat_map (place_text topology.now) old.now }
    requires offers { AreOffers topology.now.market lines.now }
    ensures { IfOk result (λ _. text.new.items ≡ text.old.items
        ++ flat_map (place_text topology.now) lines.now) }
{
    if same_lines(old, lines) {
        text.extend_from_slice(old_text)?;
        return Ok(());
    }
    push_places(text, topology, lexicon, lines)
}

/// The rows of names: a copy of their old text, if the names are the old ones.
fn push_named(
    text: &mut Vec<u8>,
    topology: &Topology,
    lexicon: &Lexicon,
    old_text: &[u8],
    old: &[NameLine],
    names: &[NameLine],
) -> Result<(), NoMemory>
    requires words { HasWords topology.now lexicon.now }
    requires old { old_text.now ≡ flat_map (name_text topology.now) old.now }
    requires named { AreNamed topology.now.market names.now }
    ensures { IfOk result (λ _. text.new.items ≡ text.old.items
        ++ flat_map (name_text topology.now) names.now) }
{
    if same_names(old, names) {
        text.extend_from_slice(old_text)?;
        return Ok(());
    }
    push_names(text, topology, lexicon, names)
}

/// The rows of what is placed, cut anew, over the old ones.
fn places_over(
    alloc: Global,
    text: &mut Vec<u8>,
    topology: &Topology,
    lexicon: &Lexicon,
    old: Rows<'_, MapLine>,
    lines: &[MapLine],
) -> Result<Vec<Cut>, NoMemory>
    requires words { HasWords topology.now lexicon.now }
    requires old { IsTextOf (place_text topology.now) old.text.now old.of.now old.cuts.now }
    requires offers { AreOffers topology.now.market lines.now }
    ensures text { IfOk result (λ _. text.new.items ≡ text.old.items
        ++ flat_map (place_text topology.now) lines.now) }
    ensures cuts { IfOk result (λ cuts. AreCuts (place_text topology.now) lines.now cuts.items) }
{
    let mut cuts = Vec::new(alloc);
    let mut left = old;
    let mut rest = lines;
    for piece in 0..topology.instance().groups() / TOGETHER {
        let (old_text, old_lines, left_behind) = cut_off(left);
        let rows = lines_below(rest, piece.saturating_add(1).saturating_mul(TOGETHER));
        let (own, behind) = rest.split_at(rows);
        let before = text.len();
        push_lines(text, topology, lexicon, old_text, old_lines, own)?;
        let octets = text.len() - before;
        cuts.push(Cut { rows, octets })?;
        left = left_behind;
        rest = behind;
    }
    let (old_text, old_lines, _left_behind) = cut_off(left);
    push_lines(text, topology, lexicon, old_text, old_lines, rest)?;
    Ok(cuts)
}

/// The rows of names, cut anew, over the old ones.
fn names_over(
    alloc: Global,
    text: &mut Vec<u8>,
    topology: &Topology,
    lexicon: &Lexicon,
    old: Rows<'_, NameLine>,
    names: &[NameLine],
) -> Result<Vec<Cut>, NoMemory>
    requires words { HasWords topology.now lexicon.now }
    requires old { IsTextOf (name_text topology.now) old.text.now old.of.now old.cuts.now }
    requires named { AreNamed topology.now.market names.now }
    ensures text { IfOk result (λ _. text.new.items ≡ text.old.items
        ++ flat_map (name_text topology.now) names.now) }
    ensures cuts { IfOk result (λ cuts. AreCuts (name_text topology.now) names.now cuts.items) }
{
    let mut cuts = Vec::new(alloc);
    let mut left = old;
    let mut rest = names;
    for piece in 0..topology.instance().groups() / TOGETHER {
        let (old_text, old_names, left_behind) = cut_off(left);
        let rows = names_below(rest, piece.saturating_add(1).saturating_mul(TOGETHER));
        let (own, behind) = rest.split_at(rows);
        let before = text.len();
        push_named(text, topology, lexicon, old_text, old_names, own)?;
        let octets = text.len() - before;
        cuts.push(Cut { rows, octets })?;
        left = left_behind;
        rest = behind;
    }
    let (old_text, old_names, _left_behind) = cut_off(left);
    push_named(text, topology, lexicon, old_text, old_names, rest)?;
    Ok(cuts)
}

/// The text of a map over old rows, with room for so many octets.
fn write_over(
    alloc: Global,
    topology: &Topology,
    places: Rows<'_, MapLine>,
    names: Rows<'_, NameLine>,
    map: &MapLines,
    room: usize,
) -> Result<Written, NoMemory>
    requires places { IsTextOf (place_text topology.now) places.text.now places.of.now
        places.cuts.now }
    requires names { IsTextOf (name_text topology.now) names.text.now names.of.now names.cuts.now }
    requires form { IsMapForm topology.now.market map.now.lines.items map.now.names.items }
    ensures text { IfOk result (λ w. w.text.items ≡ text_of_map topology.now (mapped map.now)) }
    ensures cuts { IfOk result (λ w. AreCutsOf topology.now (mapped map.now) w.cuts) }
{
    let lexicon = Lexicon::build(alloc, topology)?;
    let mut text = Vec::with_capacity(alloc, room)?;
    text.extend_from_slice(b"glb map 2\n")?;
    let of_places = places_over(
        alloc,
        &mut text,
        topology,
        &lexicon,
        places,
        map.lines.as_slice(),
    )?;
    let middle = text.len();
    let of_names = names_over(
        alloc,
        &mut text,
        topology,
        &lexicon,
        names,
        map.names.as_slice(),
    )?;
    text.extend_from_slice(b"end\n")?;
    Ok(Written {
        text,
        cuts: Cuts {
            places: of_places,
            names: of_names,
            middle,
        },
    })
}

/// The text of a first map over a topology, cut.
///
/// # Errors
///
/// `NoMemory`.
pub fn write_first(alloc: Global, topology: &Topology, map: &MapLines) -> Result<Written, NoMemory>
    requires { IsMapForm topology.now.market map.now.lines.items map.now.names.items }
    ensures text { IfOk result (λ w. w.text.items ≡ text_of_map topology.now (mapped map.now)) }
    ensures cuts { IfOk result (λ w. AreCutsOf topology.now (mapped map.now) w.cuts) }
{
    let places = Rows {
        text: &[],
        of: &[],
        cuts: &[],
    };
    let names = Rows {
        text: &[],
        of: &[],
        cuts: &[],
    };
    write_over(alloc, topology, places, names, map, 0)
}

/// The text of a map by that of another one, cut. Where both are the same, it is copied.
///
/// # Errors
///
/// `NoMemory`.
pub fn write_after(
    alloc: Global,
    topology: &Topology,
    old_text: &[u8],
    old_cuts: &Cuts,
    old: &MapLines,
    map: &MapLines,
) -> Result<Written, NoMemory>
    requires old { old_text.now ≡ text_of_map topology.now (mapped old.now) }
    requires old_cuts { AreCutsOf topology.now (mapped old.now) old_cuts.now }
    requires form { IsMapForm topology.now.market map.now.lines.items map.now.names.items }
    ensures text { IfOk result (λ w. w.text.items ≡ text_of_map topology.now (mapped map.now)) }
    ensures cuts { IfOk result (λ w. AreCutsOf topology.now (mapped map.now) w.cuts) }
{
    let (front, back) = old_text.split_at(old_cuts.middle);
    let (_header, of_places) = front.split_at(HEADER);
    let (of_names, _last) = back.split_at(back.len() - LAST);
    let places = Rows {
        text: of_places,
        of: old.lines.as_slice(),
        cuts: old_cuts.places.as_slice(),
    };
    let names = Rows {
        text: of_names,
        of: old.names.as_slice(),
        cuts: old_cuts.names.as_slice(),
    };
    let room = old_text.len().saturating_add(old_text.len() / 16);
    write_over(alloc, topology, places, names, map, room)
}
