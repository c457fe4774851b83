//! A query with its client's subnet, and what is at fault in it.
ghost use Rattle.std.specs.Prelude.{◌≡◌, IfSome};
ghost use Rattle.std.specs.Option.{option_map};
ghost use Rattle.name_text.specs.Wire.{IsName};
ghost use Rattle.client_subnet.specs.View.{HasForm, IsSubnet};
ghost use Rattle.dns_wire.specs.View.{asked, extension};
ghost use Rattle.answer_core.specs.Grammar.{client_subnet_of, fault_of, given, is_other_version, options_fault, request_of};
ghost use Rattle.answer_core.specs.View.{request_view};

use client_subnet::{ClientSubnet, SubnetOpt, read_options};
use dns_wire::{Opt, Query};

/// What is at fault in a query that can be read.
#[derive(Clone, Copy, Debug, PartialEq, Eq)]
pub(crate) enum QueryFault {
    /// An EDNS version other than 0.
    Version,
    /// Options that break their format.
    Options,
}

/// A query, the client's subnet where it gives one, and what is at fault in it.
#[derive(Clone, Copy)]
pub(crate) struct Request<'a> {
    pub(crate) query: &'a Query<'a>,
    pub(crate) subnet: Option<SubnetOpt>,
    pub(crate) fault: Option<QueryFault>,
}

/// What an OPT record says of the client's subnet.
fn client_subnet_of(opt: Option<Opt>) -> ClientSubnet
    ensures exact { result ≡ client_subnet_of (option_map extension opt.entry) }
    ensures form { HasForm result }
{
    match opt {
        Some(opt) => read_options(opt.options),
        None => ClientSubnet::None,
    }
}

/// The subnet, where one is given.
fn given(subnet: ClientSubnet) -> Option<SubnetOpt>
    requires { HasForm subnet }
    ensures exact { result ≡ given subnet }
    ensures form { IfSome result IsSubnet }
{
    match subnet {
        ClientSubnet::Given(subnet) => Some(subnet),
        ClientSubnet::None | ClientSubnet::Ignored | ClientSubnet::Bad => None,
    }
}

/// Whether the OPT record is of a version other than 0.
fn is_other_version(opt: Option<Opt>) -> bool
    ensures { result ≡ is_other_version (option_map extension opt.entry) }
{
    match opt {
        Some(opt) => opt.version != 0,
        None => false,
    }
}

/// What is at fault; the version is looked at before the options.
fn fault_of(opt: Option<Opt>, subnet: ClientSubnet) -> Option<QueryFault>
    requires { subnet ≡ client_subnet_of (option_map extension opt) }
    ensures { result ≡ fault_of (option_map extension opt.entry) }
{
    if is_other_version(opt) {
        return Some(QueryFault::Version);
    }
    match subnet {
        ClientSubnet::Bad => Some(QueryFault::Options),
        ClientSubnet::None | ClientSubnet::Ignored | ClientSubnet::Given(_) => None,
    }
}

/// The query with what its options say.
pub(crate) fn read_request<'a>(query: &'a Query<'a>) -> Request<'a>
    requires { IsName query.now.name.now }
    ensures exact { request_view result ≡ request_of (asked query.now) }
    ensures name { IsName result.query.now.name.now }
    ensures form { IfSome result.subnet IsSubnet }
{
    let subnet = client_subnet_of(query.opt);
    let fault = fault_of(query.opt, subnet);
    Request {
        query,
        subnet: given(subnet),
        fault,
    }
}
