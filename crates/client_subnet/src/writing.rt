//! A client's subnet in a reply.
ghost use Rattle.std.specs.Prelude.{◌≡◌, ◌≤◌, ℕ, ◌+◌, ◌++◌, length};
ghost use Rattle.arrayvec.specs.ArrayVec.{array_vec_len};
ghost use Rattle.client_subnet.specs.Spelling.{octets_for, option_of, subnet_option};
ghost use Rattle.client_subnet.specs.View.{IsSubnet};
ghost use Rattle.dns_wire.specs.Room.{HasRoom};

use crate::SubnetOpt;
use addr_text::Addr;
use dns_wire::numbers::CLIENT_SUBNET;
use dns_wire::octets::{ReplyBuffer, put, u16_octets, u32_octets, u128_octets};

/// The family of IPv4 (address family numbers of IANA, by RFC 7871 section 6).
pub(crate) const IPV4: u16 = 1;

/// The family of IPv6, there.
pub(crate) const IPV6: u16 = 2;

/// How many octets of an address are written of which so many bits are given.
fn octets_for(source: u8) -> usize
    ensures { result ≡ octets_for source }
{
    (source as usize).div_ceil(8)
}

/// Appends the option of a family.
fn write_option(out: &mut ReplyBuffer, family: u16, source: u8, scope: u8, address: &[u8])
    requires room { HasRoom (array_vec_len out.old) (8 + octets_for source) }
    requires enough { octets_for source ≤ length address.now }
    ensures { out.new.items ≡ out.old.items ++ option_of family source scope address.now }
{
    let size = octets_for(source);
    let code = u16_octets(CLIENT_SUBNET);
    let length = u16_octets(4 + size as u16);
    let family = u16_octets(family);
    put(
        out,
        &[
            code[0], code[1], length[0], length[1], family[0], family[1], source, scope,
        ],
    );
    put(out, &address[..size]);
}

/// How many octets a client's subnet has as an option, as `write_subnet` writes it: 8 to 24.
pub fn option_size(subnet: &SubnetOpt) -> u16
    requires { IsSubnet subnet.now }
    ensures { (scope : ℕ) → length (subnet_option subnet.now scope) ≡ result }
{
    8 + octets_for(subnet.source) as u16
}

/// Writes a client's subnet as an option (RFC 7871 section 6), with the scope of a reply. As many octets of the address are written as `source` needs.
pub fn write_subnet(out: &mut ReplyBuffer, subnet: &SubnetOpt, scope: u8)
    requires room { HasRoom (array_vec_len out.old) (8 + octets_for subnet.now.source) }
    requires form { IsSubnet subnet.now }
    ensures { out.new.items ≡ out.old.items ++ subnet_option subnet.now scope }
{
    match subnet.addr {
        Addr::V4(number) => {
            write_option(out, IPV4, subnet.source, scope, &u32_octets(number));
        }
        Addr::V6(number) => {
            write_option(out, IPV6, subnet.source, scope, &u128_octets(number));
        }
    }
}
