//! A map file read.
ghost use Rattle.std.specs.Prelude.{◌≡◌, ◌+◌, ◌<◌, ◌≤◌, ◌^◌, None, Some, Ok, [], length, IfOk, IfErr, MatchResult, option_map, false, not, ◌&&◌, ◌||◌, ◌==◌};
ghost use Rattle.map_model.specs.Allocation.{IsMapForm, is_before, is_name_before};
ghost use Rattle.map_text.specs.Reading.{fault_of, is_bad, is_in_order, is_limit, is_unknown, map_of};
ghost use Rattle.map_text.specs.Reader.{kept, with_line};

use crate::line::{Version, read_line};
use crate::{Line, MapFault};
use map_model::{By, MapLine, MapLines, NameLine};
use no_memory::NoMemory;
use std::alloc::Global;
use text_parts::cut;
use topology_text::Topology;

/// The map of the lines so far.
#[derive(Drop)]
struct Reader {
    count: usize,
    map: MapLines,
    // Whether limits may refuse.
    takes_limits: bool,
    is_ended: bool,
}

fn is_before(a: MapLine, b: MapLine) -> bool
    ensures { result ≡ is_before a b }
{
    a.group < b.group || (a.group == b.group && a.place < b.place)
}

fn is_name_before(a: NameLine, b: NameLine) -> bool
    ensures { result ≡ is_name_before a b }
{
    a.group < b.group || (a.group == b.group && a.place < b.place)
}

fn is_limit(by: By) -> bool
    ensures { result ≡ is_limit by }
{
    match by {
        By::Limit => true,
        By::Node(_) => false,
    }
}

fn is_unknown(line: Line) -> bool
    ensures { result ≡ is_unknown line }
{
    match line {
        Line::Unknown | Line::UnknownLimit => true,
        _ => false,
    }
}

impl Reader {
    fn new(alloc: Global) -> Reader
        ensures { kept result ≡ record {
          count = 0;
          lines = [];
          names = [];
          takes_limits = false;
          is_ended = false;
        } }
    {
        Reader {
            count: 0,
            map: MapLines {
                lines: Vec::new(alloc),
                names: Vec::new(alloc),
            },
            takes_limits: false,
            is_ended: false,
        }
    }

    /// Whether a line that says or does not say of a limit that it refuses can't stand behind the header.
    fn is_misplaced(&self, is_of_limit: bool) -> bool
        ensures { result ≡ (self.now.is_ended || (self.now.count == 0)
            || (not self.now.takes_limits && is_of_limit)) }
    {
        self.is_ended || self.count == 0 || (!self.takes_limits && is_of_limit)
    }

    fn is_bad(&self, line: Line) -> bool
        ensures { result ≡ is_bad (kept self.now) line }
    {
        match line {
            Line::Bad => true,
            Line::Header(_) => self.is_ended || self.count != 0,
            Line::UnknownLimit => self.is_misplaced(true),
            Line::Named(named) => self.is_misplaced(is_limit(named.by)),
            _ => self.is_misplaced(false),
        }
    }

    fn is_in_order(&self, line: Line) -> bool
        ensures { result ≡ is_in_order (kept self.now) line }
    {
        match line {
            Line::Place(placed) => {
                let last = self.map.lines.as_slice().last();
                self.map.names.is_empty() && last.map_or(true, |last| is_before(*last, placed))
            }
            Line::Named(named) => {
                let last = self.map.names.as_slice().last();
                last.map_or(true, |last| is_name_before(*last, named))
            }
            _ => true,
        }
    }

    fn fault_of(&self, line: Line) -> Option<MapFault>
        requires { self.now.count + 1 < 2 ^ 64 }
        ensures { result ≡ fault_of (kept self.now) line }
    {
        let number = self.count + 1;
        if self.is_bad(line) {
            Some(MapFault::BadLine(number))
        } else if is_unknown(line) {
            Some(MapFault::UnknownName(number))
        } else if !self.is_in_order(line) {
            Some(MapFault::OrderBroken(number))
        } else {
            None
        }
    }

    fn add(&mut self, line: Line) -> Result<(), NoMemory>
        requires { self.old.count + 1 < 2 ^ 64 }
        ensures { IfOk result (λ _. kept self.new ≡ with_line (kept self.old) line) }
    {
        self.count += 1;
        match line {
            Line::Place(placed) => self.map.lines.push(placed)?,
            Line::Named(named) => self.map.names.push(named)?,
            Line::Header(Version::Second) => self.takes_limits = true,
            Line::End => self.is_ended = true,
            _ => {}
        }
        Ok(())
    }
}

impl Reader {
    fn take(&mut self, line: Line) -> Result<(), MapFault>
        requires { self.old.count + 1 < 2 ^ 64 }
        ensures { MatchResult result (λ _. (fault_of (kept self.old) line ≡ None)
            × (kept self.new ≡ with_line (kept self.old) line)) (λ e. ¬ (e ≡ MapFault.NoMemory)
            → fault_of (kept self.old) line ≡ Some e) }
    {
        if let Some(fault) = self.fault_of(line) {
            return Err(fault);
        }
        self.add(line)?;
        Ok(())
    }
}

/// The map that a text says over a topology, or the first fault of the text.
///
/// Lines are read in order. In the first one at fault `BadLine` comes before `UnknownName` before `OrderBroken`.
/// The fault is `Truncated` where no whole line has one and the text does not end with the LF of its `end` line.
///
/// # Errors
///
/// The first fault, its line numbered from 1; `NoMemory`.
pub fn read_map(alloc: Global, topology: &Topology, text: &[u8]) -> Result<MapLines, MapFault>
    ensures read { MatchResult result (λ m. map_of topology.now text.now
        ≡ Ok (record { lines = m.lines.items; names = m.names.items }))
        (λ e. ¬ (e ≡ MapFault.NoMemory) → map_of topology.now text.now ≡ Err e) }
    ensures form { IfOk result (λ m. IsMapForm topology.now.market m.lines.items m.names.items) }
{
    let mut reader = Reader::new(alloc);
    let mut rest = text;
    'lines: while let Some((line, behind)) = cut(rest, b'\n') {
        reader.take(read_line(topology, line))?;
        rest = behind;
    }
    if reader.is_ended && rest.is_empty() {
        Ok(reader.map)
    } else {
        Err(MapFault::Truncated)
    }
}
