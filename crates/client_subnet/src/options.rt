//! The client subnet among the options of an OPT record.
ghost use Rattle.std.specs.Prelude.{◌≡◌};
ghost use Rattle.std.specs.Option.{option_map};
ghost use Rattle.client_subnet.specs.Options.{first_in, subnet_of};
ghost use Rattle.client_subnet.specs.Steps.{kept};
ghost use Rattle.client_subnet.specs.View.{HasForm};
ghost use Rattle.dns_wire.specs.View.{option_view};

use crate::ClientSubnet;
use crate::subnet::read_subnet;
use dns_wire::numbers::CLIENT_SUBNET;
use dns_wire::{EdnsOption, read_option};

/// The first client subnet, with one more option.
fn kept<'a>(first: Option<&'a [u8]>, next: EdnsOption<'a>) -> Option<&'a [u8]>
    ensures { option_map (λ x. x.now) result
        ≡ kept (option_map (λ x. x.now) first.entry) (option_view next.entry) }
{
    if first.is_none() && next.code == CLIENT_SUBNET {
        return Some(next.octets);
    }
    first
}

/// The octets of the first client subnet, where there is one; None where the options do not fill the octets exactly.
fn first_subnet(octets: &[u8]) -> Option<Option<&[u8]>>
    ensures { option_map (option_map (λ x. x.now)) result ≡ first_in octets.now }
{
    let mut first = None;
    let mut rest = octets;
    while !rest.is_empty() {
        let (next, after) = read_option(rest)?;
        first = kept(first, next);
        rest = after;
    }
    Some(first)
}

/// What the options of a query say of the client's subnet (RFC 7871 section 6): the first option of code 8 decides, and later ones are ignored.
///
/// `Bad` also comes where the options do not fill the octets exactly. A subnet that is given is a prefix: its length is within the family's, and no bit is set beyond it.
pub fn read_options(options: &[u8]) -> ClientSubnet
    ensures exact { result ≡ subnet_of options.now }
    ensures form { HasForm result }
{
    match first_subnet(options) {
        None => ClientSubnet::Bad,
        Some(None) => ClientSubnet::None,
        Some(Some(octets)) => read_subnet(octets),
    }
}
