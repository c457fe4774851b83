//! The keys of a topology's tables, their kinds, and the places of faults.
ghost use Rattle.std.specs.Prelude.{◌≡◌, ◌<◌, Some};
ghost use Rattle.topology_text.specs.FaultTexts.{at_part, key_part, place_text, spot_text};
ghost use Rattle.topology_text.specs.Schema.{key_text, kind_of, is_required, keys_of};

use std::fmt;

/// A key of one of the tables.
#[derive(Clone, Copy, Debug, PartialEq, Eq)]
pub enum Key {
    Zone,
    Node,
    Group,
    Class,
    Apex,
    Mname,
    Rname,
    Serial,
    Refresh,
    Retry,
    Expire,
    Minimum,
    Ttl,
    Ns,
    Services,
    Name,
    Parent,
    Capacity,
    Pool,
    A,
    Aaaa,
    Demand,
    Pools,
    Scores,
    Limits,
    Prefixes,
    /// The group of a class, under the text `group`.
    Owner,
    Service,
}

/// What a key's value is.
#[derive(Clone, Copy, Debug, PartialEq, Eq)]
pub enum Kind {
    Text,
    Integer,
    Flag,
    Table,
    Texts,
    Integers,
    Tables,
}

/// One of the tables.
#[derive(Clone, Copy, Debug, PartialEq, Eq)]
pub enum Spot {
    Top,
    ZoneTable,
    NodeTable(usize),
    GroupTable(usize),
    ClassTable(usize),
    /// No table: the prefixes of an address family, 4 or 6.
    Family(u8),
}

/// A value as a whole, or one of its items.
#[derive(Clone, Copy, Debug, PartialEq, Eq)]
pub enum At {
    Whole,
    Item(usize),
}

/// Where a fault stands. At a table alone there is no key.
#[derive(Clone, Copy, Debug, PartialEq, Eq)]
pub struct Place {
    pub spot: Spot,
    pub key: Option<Key>,
    pub at: At,
}

impl Key {
    /// The key as it is written.
    pub fn text(self) -> &'static str
        ensures { result.now ≡ key_text self }
    {
        match self {
            Key::Zone => "zone",
            Key::Node => "node",
            Key::Group => "group",
            Key::Class => "class",
            Key::Apex => "apex",
            Key::Mname => "mname",
            Key::Rname => "rname",
            Key::Serial => "serial",
            Key::Refresh => "refresh",
            Key::Retry => "retry",
            Key::Expire => "expire",
            Key::Minimum => "minimum",
            Key::Ttl => "ttl",
            Key::Ns => "ns",
            Key::Services => "services",
            Key::Name => "name",
            Key::Parent => "parent",
            Key::Capacity => "capacity",
            Key::Pool => "pool",
            Key::A => "a",
            Key::Aaaa => "aaaa",
            Key::Demand => "demand",
            Key::Pools => "pools",
            Key::Scores => "scores",
            Key::Limits => "limits",
            Key::Prefixes => "prefixes",
            Key::Owner => "group",
            Key::Service => "service",
        }
    }

    /// What the key's value is.
    pub fn kind(self) -> Kind
        ensures { result ≡ kind_of self }
    {
        match self {
            Key::Zone => Kind::Table,
            Key::Node | Key::Group | Key::Class => Kind::Tables,
            Key::Apex | Key::Mname | Key::Rname | Key::Name | Key::Parent => Kind::Text,
            Key::Owner | Key::Service => Kind::Text,
            Key::Ns | Key::Services | Key::A | Key::Aaaa | Key::Pools | Key::Prefixes =>
                Kind::Texts,
            Key::Scores | Key::Limits => Kind::Integers,
            Key::Pool => Kind::Flag,
            Key::Serial | Key::Refresh | Key::Retry | Key::Expire | Key::Minimum | Key::Ttl => {
                Kind::Integer
            }
            Key::Capacity | Key::Demand => Kind::Integer,
        }
    }

    /// Where the key stands among those of its table. Were it wrong, the value would be looked up by the key's text.
    pub(crate) fn place(self, spot: Spot) -> usize
        ensures { result < 11 }
    {
        match spot {
            Spot::ClassTable(_) => self.place_in_class(),
            _ => self.place_beside(),
        }
    }

    /// Where it stands in a class.
    fn place_in_class(self) -> usize
        ensures { result < 11 }
    {
        match self {
            Key::Owner => 1,
            Key::Service => 2,
            Key::Demand => 3,
            Key::Pools => 4,
            Key::Scores => 5,
            Key::Limits => 6,
            _ => 0,
        }
    }

    /// Where it stands in each other table.
    fn place_beside(self) -> usize
        ensures { result < 11 }
    {
        match self {
            Key::Zone | Key::Apex | Key::Name | Key::Owner | Key::Service => 0,
            Key::Node | Key::Mname | Key::Parent | Key::Demand => 1,
            Key::Group | Key::Rname | Key::Capacity | Key::Pools => 2,
            Key::Class | Key::Serial | Key::Pool | Key::Scores => 3,
            Key::Refresh | Key::A | Key::Limits => 4,
            Key::Retry | Key::Aaaa | Key::Prefixes => 5,
            Key::Expire => 6,
            Key::Minimum => 7,
            Key::Ttl => 8,
            Key::Ns => 9,
            Key::Services => 10,
        }
    }

    /// Whether a table must have the key.
    pub fn is_required(self) -> bool
        ensures { result ≡ is_required self }
    {
        !matches!(
            self,
            Key::Class | Key::Parent | Key::Pool | Key::A | Key::Aaaa | Key::Limits
        )
    }
}

impl Spot {
    /// The keys of the table, in their order.
    pub fn keys(self) -> &'static [Key]
        ensures { result.now ≡ keys_of self }
    {
        match self {
            Spot::Top => &[Key::Zone, Key::Node, Key::Group, Key::Class],
            Spot::ZoneTable => &[
                Key::Apex,
                Key::Mname,
                Key::Rname,
                Key::Serial,
                Key::Refresh,
                Key::Retry,
                Key::Expire,
                Key::Minimum,
                Key::Ttl,
                Key::Ns,
                Key::Services,
            ],
            Spot::NodeTable(_) => &[
                Key::Name,
                Key::Parent,
                Key::Capacity,
                Key::Pool,
                Key::A,
                Key::Aaaa,
            ],
            Spot::GroupTable(_) => &[
                Key::Name,
                Key::Demand,
                Key::Pools,
                Key::Scores,
                Key::Limits,
                Key::Prefixes,
            ],
            Spot::ClassTable(_) => &[
                Key::Name,
                Key::Owner,
                Key::Service,
                Key::Demand,
                Key::Pools,
                Key::Scores,
                Key::Limits,
            ],
            Spot::Family(_) => &[],
        }
    }
}

impl fmt::Display for Spot {
    ghost output = { λ spot. Some (spot_text spot) };

    fn fmt<W: fmt::Write>(&self, f: &mut fmt::Formatter<W>) -> fmt::Result {
        match self {
            Spot::Top => f.write_str("top"),
            Spot::ZoneTable => f.write_str("zone"),
            Spot::NodeTable(n) => write!(f, "node {n}"),
            Spot::GroupTable(n) => write!(f, "group {n}"),
            Spot::ClassTable(n) => write!(f, "class {n}"),
            Spot::Family(n) => write!(f, "family {n}"),
        }
    }
}

impl fmt::Display for Place {
    ghost output = { λ place. Some (place_text place) };

    fn fmt<W: fmt::Write>(&self, f: &mut fmt::Formatter<W>) -> fmt::Result {
        let spot = self.spot;
        write!(f, "{spot}")?;
        if let Some(key) = self.key {
            let text = key.text();
            write!(f, " {text}")?;
        }
        match self.at {
            At::Whole => Ok(()),
            At::Item(n) => write!(f, " {n}"),
        }
    }
}
