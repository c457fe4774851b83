//! One line of a map file.
ghost use Rattle.std.specs.Prelude.{◌≡◌, ◌<◌, None, Some, IfSome, length, option_map};
ghost use Rattle.map_model.specs.Market.{Market};
ghost use Rattle.map_model.specs.Allocation.{IsOffer};
ghost use Rattle.map_text.specs.Lines.{IsInRange, entry_of, full_line, limit_line, line_of, place_line, three_entry};

use crate::number::read_amount;
use crate::offer::{find_node, find_offer};
use crate::words::{Three, Words, four_words, three_words};
use map_model::{By, MapLine, NameLine, NodeId, Offer};
use topology_text::Topology;

/// Which lines a text may have.
#[derive(Clone, Copy, Debug, PartialEq, Eq)]
pub enum Version {
    /// Nodes alone are said to refuse.
    First,
    /// Limits are, too.
    Second,
}

/// What one line of a map's text says.
#[derive(Clone, Copy, Debug, PartialEq, Eq)]
pub enum Line {
    /// `glb map 1` or `glb map 2`, the first line.
    Header(Version),
    /// So many units of a group at one place of its list.
    Place(MapLine),
    /// The node or the limit that refuses a group at one place of its list.
    Named(NameLine),
    /// `end`, the last line.
    End,
    /// It names something that is not there.
    Unknown,
    /// It says of a limit that it refuses, and names something that is not there.
    UnknownLimit,
    /// It is none of these.
    Bad,
}

fn place_line(offer: Option<Offer>, amount: Option<u32>) -> Line
    ensures value { result ≡ place_line offer amount }
    ensures range { (m : Market) → IfSome offer (λ o. IsOffer m o.group.0 o.place)
        → IfSome amount (λ a. 0 < a) → IsInRange m result }
{
    match (offer, amount) {
        (_, None) => Line::Bad,
        (None, Some(_)) => Line::Unknown,
        (Some(Offer { group, place }), Some(amount)) => Line::Place(MapLine {
            group,
            place,
            amount,
        }),
    }
}

fn full_line(offer: Option<Offer>, node: Option<NodeId>) -> Line
    ensures value { result ≡ full_line offer (option_map (λ n. n.0) node) }
    ensures range { (m : Market) → IfSome offer (λ o. IsOffer m o.group.0 o.place)
        → IfSome node (λ n. n.0 < length m.nodes) → IsInRange m result }
{
    match (offer, node) {
        (Some(Offer { group, place }), Some(node)) => Line::Named(NameLine {
            group,
            place,
            by: By::Node(node),
        }),
        _ => Line::Unknown,
    }
}

fn limit_line(offer: Option<Offer>) -> Line
    ensures value { result ≡ limit_line offer }
    ensures range { (m : Market) → IfSome offer (λ o. IsOffer m o.group.0 o.place)
        → IsInRange m result }
{
    match offer {
        Some(Offer { group, place }) => Line::Named(NameLine {
            group,
            place,
            by: By::Limit,
        }),
        None => Line::UnknownLimit,
    }
}

fn read_three(topology: &Topology, words: Three<'_>) -> Line
    ensures range { IsInRange topology.now.market result }
    ensures value { result ≡ three_entry topology.now
        (Some (record {
          keyword = words.entry.keyword.now;
          group = words.entry.group.now;
          pool =
              words.entry.pool.now;
        })) }
{
    if words.group.is_empty() || words.pool.is_empty() {
        return Line::Bad;
    }
    match words.keyword {
        b"limit" => limit_line(find_offer(topology, words.group, words.pool)),
        _ => Line::Bad,
    }
}

fn read_words(topology: &Topology, words: Words<'_>) -> Line
    ensures range { IsInRange topology.now.market result }
    ensures value { result ≡ entry_of topology.now None
        (Some (record {
          keyword = words.entry.keyword.now;
          group = words.entry.group.now;
          pool =
              words.entry.pool.now;
          last = words.entry.last.now;
        })) }
{
    if words.group.is_empty() || words.pool.is_empty() || words.last.is_empty() {
        return Line::Bad;
    }
    match words.keyword {
        b"place" => place_line(
            find_offer(topology, words.group, words.pool),
            read_amount(words.last),
        ),
        b"full" => full_line(
            find_offer(topology, words.group, words.pool),
            find_node(topology, words.last),
        ),
        _ => Line::Bad,
    }
}

/// What a line of a map's text says, over a topology.
pub fn read_line(topology: &Topology, line: &[u8]) -> Line
    ensures value { result ≡ line_of topology.now line.now }
    ensures range { IsInRange topology.now.market result }
{
    if line == b"glb map 1".as_slice() {
        return Line::Header(Version::First);
    }
    if line == b"glb map 2".as_slice() {
        return Line::Header(Version::Second);
    }
    if line == b"end".as_slice() {
        return Line::End;
    }
    if let Some(words) = four_words(line) {
        return read_words(topology, words);
    }
    match three_words(line) {
        Some(words) => read_three(topology, words),
        None => Line::Bad,
    }
}
