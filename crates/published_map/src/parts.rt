//! A map, cut into what it has of each group.
ghost use Rattle.std.specs.Prelude.{◌≡◌, ◌==◌, ◌≤◌, length, map, take, drop};
ghost use Rattle.std.specs.List.{prefix_len};
ghost use Rattle.map_model.specs.declared.limits.TheConstants.{PLACES};

use crate::row::GroupRow;
use arrayvec::ArrayVec;
use map_model::{By, GroupId, MapLine, NameLine, PLACES};

/// Lines and names of a map that stand together.
#[derive(Clone, Copy)]
pub(crate) struct Part<'a> {
    pub lines: &'a [MapLine],
    pub names: &'a [NameLine],
}

fn leading_lines(lines: &[MapLine], group: GroupId) -> usize
    ensures { result ≡ prefix_len (λ l. l.group.0 == group.0) lines.now }
{
    lines.iter().take_while(|line| line.group == group).count()
}

/// How many names of that group come first.
fn leading_names(names: &[NameLine], group: GroupId) -> usize
    ensures { result ≡ prefix_len (λ l. l.group.0 == group.0) names.now }
{
    names.iter().take_while(|name| name.group == group).count()
}

/// What comes first of that group, and what is behind it.
pub(crate) fn split<'a>(part: Part<'a>, group: GroupId) -> (Part<'a>, Part<'a>)
    ensures lines { result.0.lines.now
        ≡ take (prefix_len (λ l. l.group.0 == group.0) part.entry.lines.now) part.entry.lines.now }
    ensures names { result.0.names.now
        ≡ take (prefix_len (λ l. l.group.0 == group.0) part.entry.names.now) part.entry.names.now }
    ensures lines_behind { result.1.lines.now
        ≡ drop (prefix_len (λ l. l.group.0 == group.0) part.entry.lines.now) part.entry.lines.now }
    ensures names_behind { result.1.names.now
        ≡ drop (prefix_len (λ l. l.group.0 == group.0) part.entry.names.now) part.entry.names.now }
{
    let (lines, lines_behind) = part.lines.split_at(leading_lines(part.lines, group));
    let (names, names_behind) = part.names.split_at(leading_names(part.names, group));
    let behind = Part {
        lines: lines_behind,
        names: names_behind,
    };
    (Part { lines, names }, behind)
}

fn amounts_of(lines: &[MapLine]) -> ArrayVec<(u8, u32), PLACES>
    requires { length lines.now ≤ PLACES }
    ensures { result.items ≡ map (λ l. (l.place, l.amount)) lines.now }
{
    let mut amounts = ArrayVec::new();
    for line in lines {
        amounts.push((line.place, line.amount));
    }
    amounts
}

/// What refuses, at the places of names.
fn named_of(names: &[NameLine]) -> ArrayVec<(u8, By), PLACES>
    requires { length names.now ≤ PLACES }
    ensures { result.items ≡ map (λ l. (l.place, l.by)) names.now }
{
    let mut named = ArrayVec::new();
    for name in names {
        named.push((name.place, name.by));
    }
    named
}

/// The row of a group with that demand, of which the map has that part.
pub(crate) fn row(demand: u32, own: Part<'_>) -> GroupRow
    requires lines { length own.lines.now ≤ PLACES }
    requires names { length own.names.now ≤ PLACES }
    ensures { result ≡ record {
      demand = demand;
      amounts = record
          { items = map (λ l. (l.place, l.amount)) own.entry.lines.now };
      names = record
          { items = map (λ l. (l.place, l.by)) own.entry.names.now };
    } }
{
    GroupRow {
        demand,
        amounts: amounts_of(own.lines),
        names: named_of(own.names),
    }
}
