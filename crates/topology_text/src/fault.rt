//! The faults of a topology.
ghost use Rattle.std.specs.Prelude.{◌≡◌, Some};
ghost use Rattle.topology_text.specs.FaultTexts.{fault_text};

use crate::schema::Place;
use std::alloc::AllocError;
use std::error::Error;
use std::fmt;

/// The first fault of a topology, or want of memory.
///
/// A fault that comes earlier here comes before the later ones, wherever in the file they stand; of one kind the first in the order of the walk counts: the top table, the zone, the nodes, the groups, the classes; in a table its keys in their order, in a list its items in theirs.
#[derive(Clone, Copy, Debug, PartialEq, Eq)]
pub enum TopologyFault {
    /// The bytes are no TOML document.
    NotToml,
    /// A required key is not there.
    MissingKey(Place),
    /// A value, or an item of a list, is not of its kind.
    WrongKind(Place),
    /// A table has another key than its own; the place is the table.
    UnknownKey(Place),
    /// A name or a service against its rule.
    BadName(Place),
    /// The later of two nodes, of two among groups and classes, or of two name servers or services of one name, or of two classes of one group and service.
    DuplicateName(Place),
    /// A parent that is no node, a pool that is none, or a class's group or service that is none.
    UnknownName(Place),
    /// A parent that does not stand earlier, or is a pool.
    ParentOrder(Place),
    /// A node whose path has more than eight nodes.
    TooDeep(Place),
    /// A number out of its range.
    Range(Place),
    /// A text in `a` or `aaaa` that is no address of the family.
    BadAddress(Place),
    /// A text in `prefixes` that is no prefix.
    BadPrefix(Place),
    /// The later of two prefixes that are one.
    DuplicatePrefix(Place),
    /// No group has the prefix that holds all addresses of the family.
    NoDefault(Place),
    /// No name servers, addresses on a node that is no pool, no pools or over 16 or one of them twice, or not as many scores or limits as pools.
    ListShape(Place),
    /// A name server that is the apex or stands under it.
    NsInside(Place),
    /// Past a limit: nodes, groups, groups and classes together, name servers, services, addresses, or the prefixes of all groups.
    TooMany(Place),
    /// No memory was to be had.
    NoMemory,
}

impl From<AllocError> for TopologyFault {
    ghost use Rattle.topology_text.specs.declared.fault.TopologyFault.TheVariants.{NoMemory};

    ghost from_gives = { λ _ e. e ≡ NoMemory };

    fn from(_: AllocError) -> TopologyFault {
        TopologyFault::NoMemory
    }
}

impl fmt::Display for TopologyFault {
    ghost output = { λ fault. Some (fault_text fault) };

    fn fmt<W: fmt::Write>(&self, f: &mut fmt::Formatter<W>) -> fmt::Result {
        match self {
            TopologyFault::NotToml => f.write_str("1 not toml"),
            TopologyFault::MissingKey(place) => write!(f, "2 missing key at {place}"),
            TopologyFault::WrongKind(place) => write!(f, "3 wrong kind at {place}"),
            TopologyFault::UnknownKey(place) => write!(f, "4 unknown key at {place}"),
            TopologyFault::BadName(place) => write!(f, "5 bad name at {place}"),
            TopologyFault::DuplicateName(place) => write!(f, "6 duplicate name at {place}"),
            TopologyFault::UnknownName(place) => write!(f, "7 unknown name at {place}"),
            TopologyFault::ParentOrder(place) => write!(f, "8 parent order at {place}"),
            TopologyFault::TooDeep(place) => write!(f, "9 too deep at {place}"),
            TopologyFault::Range(place) => write!(f, "10 out of range at {place}"),
            TopologyFault::BadAddress(place) => write!(f, "11 bad address at {place}"),
            TopologyFault::BadPrefix(place) => write!(f, "12 bad prefix at {place}"),
            TopologyFault::DuplicatePrefix(place) => write!(f, "13 duplicate prefix at {place}"),
            TopologyFault::NoDefault(place) => write!(f, "14 no default at {place}"),
            TopologyFault::ListShape(place) => write!(f, "15 list shape at {place}"),
            TopologyFault::NsInside(place) => write!(f, "16 ns inside at {place}"),
            TopologyFault::TooMany(place) => write!(f, "17 too many at {place}"),
            TopologyFault::NoMemory => f.write_str("out of memory"),
        }
    }
}

impl Error for TopologyFault {}
