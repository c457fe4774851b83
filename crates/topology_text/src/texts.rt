//! The texts that a topology's values have.
ghost use Rattle.std.specs.Prelude.{◌≡◌};
ghost use Rattle.std.specs.List.{list_all};
ghost use Rattle.name_text.specs.Names.{is_label_byte};
ghost use Rattle.topology_text.specs.Hosts.{is_v4, is_v6};
ghost use Rattle.topology_text.specs.Texts.{is_name, is_name_byte, service_name, v4_address, v6_address, zone_name};

use crate::limits::{LONGEST_ENTRY_NAME, LONGEST_ZONE_NAME};
use addr_text::{Addr, read_addr};
use name_text::{Name, read_label, read_name};

fn is_name_byte(b: u8) -> bool
    ensures { result ≡ is_name_byte b }
{
    matches!(b, b'a'..=b'z' | b'A'..=b'Z' | b'0'..=b'9' | b'-' | b'_' | b'.')
}

fn are_name_bytes(text: &str) -> bool
    ensures { result ≡ list_all is_name_byte text.now }
{
    text.as_bytes().iter().all(|b| is_name_byte(*b))
}

/// The name of a node or a group.
pub fn is_name(text: &str) -> bool
    ensures { result ≡ is_name text.now }
{
    1 <= text.len() && text.len() <= LONGEST_ENTRY_NAME && are_name_bytes(text)
}

/// A name of the zone, of at most 64 octets on the wire.
pub fn zone_name(text: &str) -> Option<Name>
    ensures { result ≡ zone_name text.now }
{
    match read_name(text.as_bytes()) {
        Ok(name) => {
            if name.wire().len() <= LONGEST_ZONE_NAME {
                Some(name)
            } else {
                None
            }
        }
        Err(_) => None,
    }
}

/// A service: one label.
pub fn service_name(text: &str) -> Option<Name>
    ensures { result ≡ service_name text.now }
{
    match read_label(text.as_bytes()) {
        Ok(name) => Some(name),
        Err(_) => None,
    }
}

fn is_v4(addr: Addr) -> bool
    ensures { result ≡ is_v4 addr }
{
    matches!(addr, Addr::V4(_))
}

/// An IPv4 address.
pub fn v4_address(text: &str) -> Option<Addr>
    ensures { result ≡ v4_address text.now }
{
    match read_addr(text.as_bytes()) {
        Some(addr) if is_v4(addr) => Some(addr),
        _ => None,
    }
}

/// An IPv6 address.
pub fn v6_address(text: &str) -> Option<Addr>
    ensures { result ≡ v6_address text.now }
{
    match read_addr(text.as_bytes()) {
        Some(addr) if !is_v4(addr) => Some(addr),
        _ => None,
    }
}
