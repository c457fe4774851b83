//! Which group an address belongs to: the lookup that replies ask.
ghost use Rattle.std.specs.Prelude.{◌≡◌, ◌-◌, ◌≤◌, IfOk, Some};
ghost use Rattle.addr_text.specs.Addresses.{bits_of};
ghost use Rattle.prefix_lookup.specs.Family.{address_in, bits_in};
ghost use Rattle.prefix_lookup.specs.Longest.{HasLongest, group_of};
ghost use Rattle.prefix_lookup.specs.Scope.{IsScope, scope_of};
ghost use Rattle.prefix_lookup.specs.Search.{IsFew};
ghost use Rattle.prefix_lookup.specs.Table.{IsTable};

use crate::family::Family;
use crate::ranges::{RangesV4, RangesV6, Untold, ranges_v4, ranges_v6};
use crate::scope::scope_in;
use addr_text::{Addr, Prefix};
use map_model::{GroupId, Steps};
use no_memory::NoMemory;
use std::alloc::Global;
use std::marker::Model;

/// Prefixes of client addresses, each with its group: which group an address belongs to.
///
/// Each prefix stands once, and both that hold all addresses of a family are there, so that each address has
/// exactly one longest prefix. For each family the addresses are kept as sorted ranges with the same longest
/// prefix, at most twice as many as there are prefixes.
#[derive(Debug, Drop)]
pub struct Lookup {
    table: Vec<(Prefix, GroupId)>,
    v4: RangesV4,
    v6: RangesV6,
}

impl Model for Lookup {
    ghost use Rattle.std.specs.Prelude.{List};
    ghost use Rattle.addr_text.specs.declared.address.Prefix.{Prefix};
    ghost use Rattle.map_model.specs.declared.instance.GroupId.{GroupId};
    ghost use Rattle.prefix_lookup.specs.Held.{IsHeld};

    ghost Value = { List (Prefix × GroupId) };

    ghost view = { λ a. a.table.items };

    ghost invariant = { λ a. IsHeld a.table.items a.v4 a.v6 };
}

impl Lookup {
    /// The lookup of these prefixes.
    ///
    /// # Errors
    ///
    /// `NoMemory` where there was none.
    pub fn build(alloc: Global, prefixes: &[(Prefix, GroupId)]) -> Result<Lookup, NoMemory>
        requires { IsTable prefixes.now }
        ensures { IfOk result (λ lookup. lookup ≡ prefixes.now) }
    {
        let table = Vec::from_slice(alloc, prefixes)?;
        let v4 = ranges_v4(alloc, prefixes)?;
        let v6 = ranges_v6(alloc, prefixes)?;
        Ok(Lookup { table, v4, v6 })
    }

    /// The group of the longest prefix that holds the address.
    pub fn group(&self, addr: Addr) -> GroupId
        ensures exact { group_of self.now addr ≡ Some result }
        ensures longest { HasLongest self.now addr result }
        ensures table { IsTable self.now }
    {
        self.find(addr).0
    }

    /// The group of the longest prefix that holds the address, with a tick for each comparison of the search.
    pub fn probe<L>(&self, addr: Addr, steps: &mut Steps<L>) -> GroupId
        ensures exact { group_of self.now addr ≡ Some result }
        ensures longest { HasLongest self.now addr result }
        ensures table { IsTable self.now }
        ensures risen { steps.old ≤ steps.new }
        ensures few { IsFew self.now addr (steps.new - steps.old) }
    {
        match addr {
            Addr::V4(number) => self.v4.range_of(number, steps).group,
            Addr::V6(number) => self.v6.range_of(number, steps).group,
        }
    }

    /// The least number of bits such that all addresses of the family that agree with this one in its first so
    /// many bits have the same longest prefix: 0 to 32 for IPv4, 0 to 128 for IPv6. It is the scope that a reply
    /// tells (RFC 7871, section 7.2.1).
    pub fn scope(&self, addr: Addr) -> u8
        ensures exact { result ≡ scope_of self.now addr }
        ensures least { IsScope self.now addr result }
        ensures within { result ≤ bits_of addr }
        ensures table { IsTable self.now }
    {
        self.find(addr).1
    }

    /// The group and the scope, in one search.
    pub fn find(&self, addr: Addr) -> (GroupId, u8)
        ensures group { group_of self.now addr ≡ Some result.0 }
        ensures longest { HasLongest self.now addr result.0 }
        ensures scope { result.1 ≡ scope_of self.now addr }
        ensures least { IsScope self.now addr result.1 }
        ensures within { result.1 ≤ bits_of addr }
        ensures table { IsTable self.now }
    {
        match addr {
            Addr::V4(number) => {
                let range = self.v4.range_of(number, &mut Untold);
                (range.group, scope_in(Family::V4, u128::from(number), range))
            }
            Addr::V6(number) => {
                let range = self.v6.range_of(number, &mut Untold);
                (range.group, scope_in(Family::V6, number, range))
            }
        }
    }
}
