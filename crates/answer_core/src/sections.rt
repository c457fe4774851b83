//! The records of a reply's sections.
ghost use Rattle.std.specs.Prelude.{◌≡◌, ◌++◌, ◌+◌, ◌≤◌, IfSome, length, map};
ghost use Rattle.std.specs.List.{flat_map};
ghost use Rattle.std.specs.Option.{option_map};
ghost use Rattle.arrayvec.specs.ArrayVec.{array_vec_len};
ghost use Rattle.client_subnet.specs.View.{IsSubnet};
ghost use Rattle.dns_wire.specs.Message as message;
ghost use Rattle.dns_wire.specs.Room.{HasRoom};
ghost use Rattle.dns_wire.specs.Spelling.{opt};
ghost use Rattle.dns_wire.specs.View.{extension};
ghost use Rattle.name_text.specs.declared.name.TheConstants.{LONGEST_NAME};
ghost use Rattle.topology_text.specs.Plan.{IsZone};
ghost use Rattle.answer_core.specs.Columns as columns;
ghost use Rattle.answer_core.specs.Sections as spec;
ghost use Rattle.answer_core.specs.View.{AreShort, IsShort, outcome_view, records_view};

use crate::columns::{extended, scope_told};
use crate::outcome::{Outcome, Records};
use crate::request::Request;
use addr_text::Addr;
use client_subnet::{SubnetOpt, option_size, write_subnet};
use dns_wire::numbers::{NS, QUESTION_NAME, SOA};
use dns_wire::octets::{u32_octets, u128_octets};
use dns_wire::{ReplyBuffer, write_opt, write_opt_head, write_record};
use name_text::Name;
use topology_text::Zone;

/// Writes the zone's SOA record.
fn write_soa(out: &mut ReplyBuffer, zone: &Zone, owner: u16, ttl: u32)
    requires zone { IsZone zone.now }
    requires room { HasRoom (array_vec_len out.old)
        (length (spec.resource (spec.soa zone.now owner ttl))) }
    ensures { out.new.items ≡ out.old.items ++ spec.resource (spec.soa zone.now owner ttl) }
{
    write_record(out, owner, SOA, ttl, zone.soa.as_slice());
}

/// Writes the records of name servers.
fn write_servers(out: &mut ReplyBuffer, ttl: u32, servers: &[Name])
    requires { HasRoom (array_vec_len out.old)
        (length (flat_map spec.resource (map (spec.server ttl) servers.now))) }
    ensures { out.new.items ≡ out.old.items
        ++ flat_map spec.resource (map (spec.server ttl) servers.now) }
{
    for server in servers {
        write_record(out, QUESTION_NAME, NS, ttl, server.wire());
    }
}

/// Writes the record of an address.
fn write_address(out: &mut ReplyBuffer, ttl: u32, kind: u16, address: Addr)
    requires { HasRoom (array_vec_len out.old)
        (length (spec.resource (spec.address ttl kind address))) }
    ensures { out.new.items ≡ out.old.items ++ spec.resource (spec.address ttl kind address) }
{
    match address {
        Addr::V4(number) => write_record(out, QUESTION_NAME, kind, ttl, &u32_octets(number)),
        Addr::V6(number) => write_record(out, QUESTION_NAME, kind, ttl, &u128_octets(number)),
    }
}

/// Writes the records of addresses.
fn write_addresses(out: &mut ReplyBuffer, ttl: u32, kind: u16, addresses: &[Addr])
    requires { HasRoom (array_vec_len out.old)
        (length (flat_map spec.resource (map (spec.address ttl kind) addresses.now))) }
    ensures { out.new.items ≡ out.old.items
        ++ flat_map spec.resource (map (spec.address ttl kind) addresses.now) }
{
    for address in addresses {
        write_address(out, ttl, kind, *address);
    }
}

/// Writes the records of a positive answer.
fn write_records(out: &mut ReplyBuffer, zone: &Zone, records: &Records<&[Addr]>)
    requires zone { IsZone zone.now }
    requires room { HasRoom (array_vec_len out.old)
        (length (flat_map spec.resource (spec.resources zone.now (records_view records.now)))) }
    ensures { out.new.items ≡ out.old.items
        ++ flat_map spec.resource (spec.resources zone.now (records_view records.now)) }
{
    match records {
        Records::Soa => write_soa(out, zone, QUESTION_NAME, zone.ttl),
        Records::NameServers => write_servers(out, zone.ttl, zone.ns.as_slice()),
        Records::Addresses { kind, addresses } => {
            write_addresses(out, zone.ttl, *kind, addresses);
        }
    }
}

/// Writes the answers of a reply.
pub(crate) fn write_answers(out: &mut ReplyBuffer, zone: &Zone, outcome: &Outcome<&[Addr]>)
    requires zone { IsZone zone.now }
    requires room { HasRoom (array_vec_len out.old)
        (length (flat_map spec.resource (spec.answers zone.now (outcome_view outcome.now)))) }
    ensures { out.new.items ≡ out.old.items
        ++ flat_map spec.resource (spec.answers zone.now (outcome_view outcome.now)) }
{
    match outcome {
        Outcome::BadVers | Outcome::Error(_) | Outcome::Negative(_) | Outcome::Truncated { .. } =>
            {}
        Outcome::Positive { records, .. } => write_records(out, zone, records),
    }
}

/// Writes the authority of a reply to a query for a name: the SOA record of a negative answer (RFC 2308 section 3).
pub(crate) fn write_authority(
    out: &mut ReplyBuffer,
    zone: &Zone,
    name: &[u8],
    outcome: &Outcome<&[Addr]>,
)
    requires zone { IsZone zone.now }
    requires name { length name.now ≤ LONGEST_NAME }
    requires room { HasRoom (array_vec_len out.old)
        (length (flat_map spec.resource (spec.authority zone.now name.now
        (outcome_view outcome.now)))) }
    ensures { out.new.items ≡ out.old.items
        ++ flat_map spec.resource (spec.authority zone.now name.now (outcome_view outcome.now)) }
{
    match outcome {
        Outcome::BadVers
        | Outcome::Error(_)
        | Outcome::Positive { .. }
        | Outcome::Truncated { .. } => {}
        Outcome::Negative(_) => {
            let apex = QUESTION_NAME + name.len() as u16 - zone.apex.wire().len() as u16;
            write_soa(out, zone, apex, zone.ttl.min(zone.minimum));
        }
    }
}

/// Writes an OPT record, with the client's subnet where one was given and a scope is told.
fn write_extension(
    out: &mut ReplyBuffer,
    extended: u8,
    dnssec_ok: bool,
    subnet: Option<SubnetOpt>,
    scope: Option<u8>,
)
    requires form { IfSome subnet IsSubnet }
    requires room { HasRoom (array_vec_len out.old)
        (length (opt extended dnssec_ok (spec.repeated subnet scope))) }
    ensures { out.new.items ≡ out.old.items ++ opt extended dnssec_ok (spec.repeated subnet scope) }
{
    if let Some(subnet) = subnet
        && let Some(scope) = scope
    {
        write_opt_head(out, extended, dnssec_ok, option_size(&subnet));
        write_subnet(out, &subnet, scope);
    } else {
        write_opt(out, extended, dnssec_ok, &[]);
    }
}

/// Writes the OPT record of a reply, where the query has one.
pub(crate) fn write_additional(out: &mut ReplyBuffer, request: &Request, outcome: &Outcome<&[Addr]>)
    requires form { IfSome request.now.subnet IsSubnet }
    requires room { HasRoom (array_vec_len out.old)
        (length (spec.additional (option_map extension request.now.query.now.opt) request.now.subnet
        (outcome_view outcome.now))) }
    ensures { out.new.items ≡ out.old.items
        ++ spec.additional (option_map extension request.now.query.now.opt) request.now.subnet
        (outcome_view outcome.now) }
{
    if let Some(opt) = request.query.opt {
        write_extension(
            out,
            extended(outcome),
            opt.dnssec_ok,
            request.subnet,
            scope_told(outcome),
        );
    }
}

/// How many records a positive answer has.
fn count_of_records(zone: &Zone, records: &Records<&[Addr]>) -> u16
    requires short { AreShort 0 (records_view records.now) }
    requires zone { IsZone zone.now }
    ensures { result ≡ length (spec.resources zone.now (records_view records.now)) }
{
    match records {
        Records::Soa => 1,
        Records::NameServers => zone.ns.as_slice().len() as u16,
        Records::Addresses { addresses, .. } => addresses.len() as u16,
    }
}

/// How many answers a reply has.
pub(crate) fn count_of_answers(zone: &Zone, outcome: &Outcome<&[Addr]>) -> u16
    requires short { IsShort 0 (outcome_view outcome.now) }
    requires zone { IsZone zone.now }
    ensures { result ≡ length (spec.answers zone.now (outcome_view outcome.now)) }
{
    match outcome {
        Outcome::BadVers | Outcome::Error(_) | Outcome::Negative(_) | Outcome::Truncated { .. } =>
            0,
        Outcome::Positive { records, .. } => count_of_records(zone, records),
    }
}

/// How many records the authority of a reply has.
pub(crate) fn count_of_authority(zone: &Zone, name: &[u8], outcome: &Outcome<&[Addr]>) -> u16
    ensures { result ≡ length (spec.authority zone.now name.now (outcome_view outcome.now)) }
{
    match outcome {
        Outcome::BadVers
        | Outcome::Error(_)
        | Outcome::Positive { .. }
        | Outcome::Truncated { .. } => 0,
        Outcome::Negative(_) => 1,
    }
}
