//! The longest prefix and the scope, by looking at all prefixes. It is slow, and says plainly what they are.
ghost use Rattle.std.specs.Prelude.{◌≡◌, ◌≤◌, All, IfSome, IsSome};
ghost use Rattle.addr_text.specs.Addresses.{IsPrefix, bits_of};
ghost use Rattle.prefix_lookup.specs.Longest.{IsLongest, longest};
ghost use Rattle.prefix_lookup.specs.Scope.{IsScope, is_undivided, scope_of};
ghost use Rattle.prefix_lookup.specs.Steps.{longer};
ghost use Rattle.prefix_lookup.specs.Table.{IsTable};

use crate::tests::agree::{agree, holds, width};
use addr_text::{Addr, Prefix};
use map_model::GroupId;

/// The longer of the best entry so far and one more, if that holds the address.
fn longer(
    addr: Addr,
    best: Option<(Prefix, GroupId)>,
    next: (Prefix, GroupId),
) -> Option<(Prefix, GroupId)>
    requires { IsPrefix next.0 }
    ensures { result ≡ longer addr best next }
{
    if holds(next.0, addr) && best.is_none_or(|best| best.0.len < next.0.len) {
        Some(next)
    } else {
        best
    }
}

/// The entry of the longest prefix that holds an address.
pub fn longest(table: &[(Prefix, GroupId)], addr: Addr) -> Option<(Prefix, GroupId)>
    requires { All (λ e. IsPrefix e.0) table.now }
    ensures exact { result ≡ longest table.now addr }
    ensures most { IfSome result (IsLongest table.now addr) }
    ensures some { IsTable table.now → IsSome result }
{
    let mut best = None;
    let _ = width(addr);
    for entry in table {
        best = longer(addr, best, *entry);
    }
    best
}

/// Whether no prefix longer than `len` bits begins among the addresses that agree with this one in `len` bits.
fn is_undivided(table: &[(Prefix, GroupId)], addr: Addr, len: u8) -> bool
    requires { len ≤ bits_of addr }
    ensures { result ≡ is_undivided table.now addr len }
{
    for (prefix, _) in table {
        if prefix.len > len && agree(len, addr, prefix.addr) {
            return false;
        }
    }
    true
}

/// The least number of bits such that all addresses that agree with this one in them have its longest prefix.
pub fn scope(table: &[(Prefix, GroupId)], addr: Addr) -> u8
    requires { All (λ e. IsPrefix e.0) table.now }
    ensures exact { result ≡ scope_of table.now addr }
    ensures least { IsScope table.now addr result }
{
    let bits = width(addr);
    for len in 0..bits {
        if is_undivided(table, addr, len) {
            return len;
        }
    }
    bits
}
