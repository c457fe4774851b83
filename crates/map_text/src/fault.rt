//! What can be wrong with a map file.
ghost use Rattle.std.specs.Prelude.{Some};

use no_memory::NoMemory;
use std::error::Error;
use std::fmt;

/// The first fault of a map's text, or want of memory. Lines are numbered from 1.
#[derive(Clone, Copy, Debug, PartialEq, Eq)]
pub enum MapFault {
    /// The line is no line of a map's text where it stands.
    BadLine(usize),
    /// The line names a group, a pool or a node that is not there, or a pool that is not in the group's list.
    UnknownName(usize),
    /// The line does not stand above the one before it of its kind, or it places behind a name.
    OrderBroken(usize),
    /// The text ends before the end of its `end` line, or goes on behind that in an unfinished line.
    Truncated,
    /// There was no memory for the map. This says nothing of the text.
    NoMemory,
}

impl From<NoMemory> for MapFault {
    ghost use Rattle.std.specs.Prelude.{◌≡◌};
    ghost use Rattle.map_text.specs.declared.fault.MapFault.TheVariants as fault;

    ghost from_gives = { λ _ f. f ≡ fault.NoMemory };

    fn from(_: NoMemory) -> MapFault {
        MapFault::NoMemory
    }
}

impl fmt::Display for MapFault {
    ghost use Rattle.map_text.specs.Texts.{fault_text};

    ghost output = { λ fault. Some (fault_text fault) };

    fn fmt<W: fmt::Write>(&self, f: &mut fmt::Formatter<W>) -> fmt::Result {
        match self {
            MapFault::BadLine(line) => write!(f, "bad line at line {line}"),
            MapFault::UnknownName(line) => write!(f, "unknown name at line {line}"),
            MapFault::OrderBroken(line) => write!(f, "order at line {line}"),
            MapFault::Truncated => f.write_str("truncated"),
            MapFault::NoMemory => f.write_str("out of memory"),
        }
    }
}

impl Error for MapFault {}
