//! Reading records, and the OPT among them.
ghost use Rattle.std.specs.Prelude.{◌≡◌};
ghost use Rattle.std.specs.Option.{option_map};
ghost use Rattle.dns_wire.specs.Wire.{fields_in, record_in};
ghost use Rattle.dns_wire.specs.Message.{opt_in};
ghost use Rattle.dns_wire.specs.Steps.{with_record};
ghost use Rattle.dns_wire.specs.View.{extension, record_view};

use crate::Opt;
use crate::name::read_name;
use crate::numbers::{DNSSEC_OK, OPT};
use crate::octets::{u16_in, u32_in};

/// A record of a message.
#[derive(Clone, Copy)]
pub(crate) struct Record<'a> {
    owner: &'a [u8],
    kind: u16,
    class: u16,
    ttl: u32,
    content: &'a [u8],
}

/// What stands behind a record's name, and what follows the record.
#[tactic(auto, unfolding(crate::specs::Wire::fields_in))]
fn read_fields<'a>(owner: &'a [u8], octets: &'a [u8]) -> Option<(Record<'a>, &'a [u8])>
    ensures { option_map (λ x. (record_view x.0, x.1.now)) result ≡ fields_in owner.now octets.now }
{
    if octets.len() < 10 {
        return None;
    }
    let size = u16_in(octets, 8) as usize;
    if octets.len() < 10 + size {
        return None;
    }
    let (content, rest) = octets[10..].split_at(size);
    let record = Record {
        owner,
        kind: u16_in(octets, 0),
        class: u16_in(octets, 2),
        ttl: u32_in(octets, 4),
        content,
    };
    Some((record, rest))
}

/// A record, and what follows it.
#[tactic(auto, unfolding(crate::specs::Wire::record_in))]
fn read_record(octets: &[u8]) -> Option<(Record<'_>, &[u8])>
    ensures { option_map (λ x. (record_view x.0, x.1.now)) result ≡ record_in octets.now }
{
    let (owner, rest) = read_name(octets, true)?;
    read_fields(owner, rest)
}

/// The OPT record found so far, with one more record; None where that is a second one, or one whose name is not the root.
fn with_record<'a>(found: Option<Opt<'a>>, next: Record<'a>) -> Option<Option<Opt<'a>>>
    ensures { option_map (option_map extension) result
        ≡ with_record (option_map extension found.entry) (record_view next.entry) }
{
    if next.kind != OPT {
        return Some(found);
    }
    if found.is_some() || !matches!(next.owner, [0]) {
        return None;
    }
    Some(Some(Opt {
        payload: next.class,
        version: ((next.ttl >> 16) & 0xff) as u8,
        dnssec_ok: next.ttl & 0xffff >= u32::from(DNSSEC_OK),
        options: next.content,
    }))
}

/// The OPT record among so many records: none, or the only one.
///
/// A record takes at least eleven octets, so the loop ends long before a count that the octets cannot hold.
pub(crate) fn read_opt(count: u16, octets: &[u8]) -> Option<Option<Opt<'_>>>
    ensures { option_map (option_map extension) result ≡ opt_in count octets.now }
{
    let mut found = None;
    let mut rest = octets;
    for _ in 0..count {
        let (record, after) = read_record(rest)?;
        found = with_record(found, record)?;
        rest = after;
    }
    Some(found)
}
