//! What a datagram is.
ghost use Rattle.std.specs.Prelude.{◌≡◌, ◌≤◌, length, IfSome};
ghost use Rattle.std.specs.Option.{option_map};
ghost use Rattle.name_text.specs.Wire.{IsName};
ghost use Rattle.dns_wire.specs.Message.{reading, head_of, is_silent, query_in};
ghost use Rattle.dns_wire.specs.View.{view, HasName, asked};

use crate::name::read_name;
use crate::numbers::{HEADER_SIZE, LARGEST_DATAGRAM};
use crate::octets::u16_in;
use crate::record::read_opt;
use crate::{Head, Message, Query};

/// What a reply repeats of the header.
fn read_head(octets: &[u8]) -> Head
    requires { 12 ≤ length octets.now }
    ensures { result ≡ head_of octets.now }
{
    Head {
        id: u16_in(octets, 0),
        opcode: (octets[2] >> 3) & 0xf,
        rd: octets[2] & 1 == 1,
    }
}

/// The query behind a header.
#[tactic(auto, unfolding(crate::specs::Message::query_in))]
fn read_body(head: Head, octets: &[u8]) -> Option<Query<'_>>
    requires whole { 12 ≤ length octets.now }
    requires head { head ≡ head_of octets.now }
    ensures exact { option_map asked result ≡ query_in octets.now }
    ensures name { IfSome result (λ q. IsName q.name.now) }
{
    let (name, rest) = read_name(&octets[HEADER_SIZE..], false)?;
    if rest.len() < 4 {
        return None;
    }
    let opt = read_opt(u16_in(octets, 10), &rest[4..])?;
    Some(Query {
        head,
        name,
        kind: u16_in(rest, 0),
        class: u16_in(rest, 2),
        opt,
    })
}

/// Whether a datagram is nothing that is replied to: its length and its third octet say so.
pub fn is_silent(octets: &[u8]) -> bool
    ensures { result ≡ is_silent octets.now }
{
    octets.len() < HEADER_SIZE || octets.len() > LARGEST_DATAGRAM || octets[2] >= 0x80
}

/// What a datagram is, by the first of these that holds:
///
/// - `Silent`: it has fewer than 12 octets or more than 4,096, or is a response.
/// - `NotImp`: its operation is not a standard query.
/// - `Form`: it has not exactly one question, or it has answers or authority records; or the question or one of the additional records is not whole; or a name is over 255 octets or has a reserved length octet, or the question's has a pointer; or there are two OPT records, or one whose name is not the root.
/// - `Query`: everything else. What stands behind the last record is ignored.
///
/// A query hands out parts of the datagram; its name is labels, ended by 0, of at most 255 octets.
#[tactic(auto, unfolding(crate::specs::Message::reading))]
pub fn read_query(octets: &[u8]) -> Message<'_>
    ensures exact { view result ≡ reading octets.now }
    ensures name { HasName result }
{
    if is_silent(octets) {
        return Message::Silent;
    }
    let head = read_head(octets);
    if head.opcode != 0 {
        return Message::NotImp(head);
    }
    if u16_in(octets, 4) != 1 || u16_in(octets, 6) != 0 || u16_in(octets, 8) != 0 {
        return Message::Form(head);
    }
    match read_body(head, octets) {
        Some(query) => Message::Query(query),
        None => Message::Form(head),
    }
}
