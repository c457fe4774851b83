//! What is replied to a query that can be read.
ghost use Rattle.std.specs.Prelude.{◌≡◌, ◌⊎◌, ◌<◌, ◌≤◌, ℕ, if◌then◌else◌, length, option_map, IfSome, Some, None};
ghost use Rattle.prefix_lookup.specs.Longest.{group_of};
ghost use Rattle.topology_text.specs.Plan.{addresses_of, unit_of};
ghost use Rattle.published_map.specs.Version.{IsVersion};
ghost use Rattle.answer_core.specs.Outcome.{answered_kind, at_apex, at_service, by_name, client_of, is_address_kind, of_addresses, outcome_of, pool_for_unit, told_scope};
ghost use Rattle.answer_core.specs.Reply.{cut_short};
ghost use Rattle.answer_core.specs.View.{IsShort, outcome_view, request_view};

use crate::names::under;
use crate::picking::pick;
use crate::request::{QueryFault, Request};
use crate::services::{is_apex, service_of};
use addr_text::Addr;
use client_subnet::SubnetOpt;
use dns_wire::numbers::{A, AAAA, ANY, FORMERR, IN, NOERROR, NS, NXDOMAIN, REFUSED, SERVFAIL, SOA};
use map_model::{GroupId, NodeId, Offer};
use published_map::MapVersion;

/// The records of a positive answer. The addresses are a slice in the code, a list in clauses.
#[derive(Clone, Copy)]
pub(crate) enum Records<T> {
    /// The zone's start of authority.
    Soa,
    /// The zone's name servers.
    NameServers,
    /// The addresses of the picked pool, as records of one type: A or AAAA.
    Addresses { kind: u16, addresses: T },
}

/// What is replied to a query that can be read.
#[derive(Clone, Copy)]
pub(crate) enum Outcome<T> {
    /// An EDNS version that is not spoken here (RFC 6891 section 6.1.3).
    BadVers,
    /// An error, by its RCODE: options that break their format, another class or zone, or nothing placed for the client's unit.
    Error(u8),
    /// No such name, or no record of the type, by its RCODE (RFC 2308 section 2).
    Negative(u8),
    /// Records, and the scope that is told where a subnet was given.
    Positive { records: Records<T>, scope: u8 },
    /// Records for which the reply has no room (RFC 2181 section 9): none of them, and the scope that is told.
    Truncated { scope: u8 },
}

/// What is replied where an outcome's reply has no room.
pub(crate) fn cut_short<'a>(outcome: Outcome<&'a [Addr]>) -> Outcome<&'a [Addr]>
    ensures { outcome_view result ≡ cut_short (outcome_view outcome.entry) }
{
    match outcome {
        Outcome::Positive { scope, .. } => Outcome::Truncated { scope },
        other => other,
    }
}

/// The client's address: that of the subnet, where some of its bits are given, else the sender's.
fn client_of(subnet: Option<SubnetOpt>, from: Addr) -> Addr
    ensures { result ≡ client_of subnet from }
{
    match subnet {
        Some(subnet) if subnet.source != 0 => subnet.addr,
        _ => from,
    }
}

/// The client's group, and the scope that a reply tells: how many bits of the client's address decide it, 0 where none of them was given.
fn look_up(version: &MapVersion, subnet: Option<SubnetOpt>, from: Addr) -> (GroupId, u8)
    ensures group { group_of version.now.plan.prefixes (client_of subnet from) ≡ Some result.0 }
    ensures there { result.0.0 < length version.now.market.groups }
    ensures scope { result.1 ≡ told_scope version.now subnet }
{
    let (group, scope) = version.find_addr(client_of(subnet, from));
    match subnet {
        Some(subnet) if subnet.source != 0 => (group, scope),
        _ => (group, 0),
    }
}

/// The pool on which a draw falls for a unit; None where nothing is placed for it.
fn pool_for_unit(version: &MapVersion, unit: GroupId, draw: u64) -> Option<NodeId>
    requires version { IsVersion version.now }
    requires unit { unit.0 < length version.now.market.groups }
    ensures exact { option_map (λ n. n.0) result ≡ pool_for_unit version.now draw unit.0 }
    ensures there { IfSome result (λ n. n.0 < length version.now.plan.market.nodes) }
{
    let place = pick(version, unit, draw)?;
    Some(version.pool_at(Offer { group: unit, place }))
}

/// The same for a group's unit for the service of that number.
fn pool_for_service(version: &MapVersion, group: GroupId, service: u8, draw: u64) -> Option<NodeId>
    requires version { IsVersion version.now }
    requires group { group.0 < length version.now.market.groups }
    ensures exact { option_map (λ n. n.0) result
        ≡ pool_for_unit version.now draw (unit_of version.now.plan group.0 service) }
    ensures there { IfSome result (λ n. n.0 < length version.now.plan.market.nodes) }
{
    pool_for_unit(version, version.unit_of(group, service), draw)
}

/// The type of the records that answer for a service; None where it has no such records.
fn answered_kind(kind: u16) -> Option<u16>
    ensures { result ≡ if is_address_kind kind then Some (answered_kind kind) else None }
{
    match kind {
        A | ANY => Some(A),
        AAAA => Some(AAAA),
        _ => None,
    }
}

/// The addresses of a pool, of one type.
fn at_pool<'v>(version: &'v MapVersion, pool: NodeId, kind: u16, scope: u8) -> Outcome<&'v [Addr]>
    requires pool { pool.0 < length version.now.plan.market.nodes }
    requires kind { (kind ≡ 1) ⊎ (kind ≡ 28) }
    ensures exact { outcome_view result
        ≡ of_addresses kind (addresses_of version.now.plan pool.0 kind) scope }
    ensures short { (size : ℕ) → size ≤ 128 → IsShort size (outcome_view result) }
{
    let addresses = version.addresses(pool, kind);
    if addresses.is_empty() {
        return Outcome::Negative(NOERROR);
    }
    let records = Records::Addresses { kind, addresses };
    Outcome::Positive { records, scope }
}

/// The name of the service of that number.
fn at_service<'v>(
    version: &'v MapVersion,
    request: &Request,
    from: Addr,
    draw: u64,
    service: u8,
) -> Outcome<&'v [Addr]>
    requires { IsVersion version.now }
    ensures exact { outcome_view result
        ≡ at_service version.now (request_view request.now) from draw service }
    ensures short { (size : ℕ) → size ≤ 128 → IsShort size (outcome_view result) }
{
    let Some(kind) = answered_kind(request.query.kind) else {
        return Outcome::Negative(NOERROR);
    };
    let (group, scope) = look_up(version, request.subnet, from);
    let Some(pool) = pool_for_service(version, group, service, draw) else {
        return Outcome::Error(SERVFAIL);
    };
    at_pool(version, pool, kind, scope)
}

fn at_apex<'v>(kind: u16) -> Outcome<&'v [Addr]>
    ensures exact { outcome_view result ≡ at_apex kind }
    ensures short { (size : ℕ) → size ≤ 64 → IsShort size (outcome_view result) }
{
    let records = match kind {
        SOA => Records::Soa,
        NS => Records::NameServers,
        _ => return Outcome::Negative(NOERROR),
    };
    Outcome::Positive { records, scope: 0 }
}

/// The class and the name.
fn by_name<'v>(
    version: &'v MapVersion,
    request: &Request,
    from: Addr,
    draw: u64,
) -> Outcome<&'v [Addr]>
    requires { IsVersion version.now }
    ensures exact { outcome_view result ≡ by_name version.now (request_view request.now) from draw }
    ensures short { IsShort (length request.now.query.now.name.now) (outcome_view result) }
{
    let zone = version.zone();
    let query = request.query;
    if query.class != IN || !under(query.name, zone.apex.wire()) {
        return Outcome::Error(REFUSED);
    }
    if is_apex(zone, query.name) {
        return at_apex(query.kind);
    }
    let Some(service) = service_of(zone, query.name) else {
        return Outcome::Negative(NXDOMAIN);
    };
    at_service(version, request, from, draw, service as u8)
}

/// What is replied to a query.
pub(crate) fn decide<'v>(
    version: &'v MapVersion,
    request: &Request,
    from: Addr,
    draw: u64,
) -> Outcome<&'v [Addr]>
    requires { IsVersion version.now }
    ensures exact { outcome_view result
        ≡ outcome_of version.now (request_view request.now) from draw }
    ensures short { IsShort (length request.now.query.now.name.now) (outcome_view result) }
{
    match request.fault {
        Some(QueryFault::Version) => Outcome::BadVers,
        Some(QueryFault::Options) => Outcome::Error(FORMERR),
        None => by_name(version, request, from, draw),
    }
}
