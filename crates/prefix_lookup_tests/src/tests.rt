//! The lookup against rows that were counted by hand, and against the plain search over all prefixes.
ghost use Rattle.std.specs.Prelude.{All};
ghost use Rattle.addr_text.specs.Addresses.{IsPrefix};

mod agree;
mod drawn;
mod plain;

use self::drawn::{Draws, drawn, drawn_of};
use self::plain::{longest, scope};
use addr_text::{Addr, Prefix};
use map_model::{GroupId, Steps};
use no_memory::NoMemory;
use prefix_lookup::Lookup;
use std::alloc::Global;

/// 198.51.100.0/24 belongs to group 2, but for its upper half.
const SMALL: [(Prefix, GroupId); 5] = [
    (
        Prefix {
            addr: Addr::V4(0xc633_6480),
            len: 25,
        },
        GroupId(1),
    ),
    (
        Prefix {
            addr: Addr::V4(0),
            len: 0,
        },
        GroupId(1),
    ),
    (
        Prefix {
            addr: Addr::V4(0xc633_6400),
            len: 24,
        },
        GroupId(2),
    ),
    (
        Prefix {
            addr: Addr::V6(0),
            len: 0,
        },
        GroupId(1),
    ),
    (
        Prefix {
            addr: Addr::V6(0x2001_0db8_0000_0000_0000_0000_0000_0000),
            len: 32,
        },
        GroupId(2),
    ),
];

/// An address of `SMALL`, its group, and its scope as it was counted by hand.
const ROWS: [(Addr, u32, u8); 9] = [
    // 198.51.100.7: the 25th bit decides.
    (Addr::V4(0xc633_6407), 2, 25),
    (Addr::V4(0xc633_6480), 1, 25),
    (Addr::V4(0xc633_64c8), 1, 25),
    (Addr::V4(0xc633_64ff), 1, 25),
    // 198.51.101.0 leaves the prefix at the 24th bit, 203.0.113.9 at the fifth, 64.0.0.0 at the first.
    (Addr::V4(0xc633_6500), 1, 24),
    (Addr::V4(0xcb00_7109), 1, 5),
    (Addr::V4(0x4000_0000), 1, 1),
    // 2001:db8::7 and ::.
    (Addr::V6(0x2001_0db8_0000_0000_0000_0000_0000_0007), 2, 32),
    (Addr::V6(0), 1, 3),
];

/// Prefixes of both families drawn by a generator, a long one in a short one among them.
const DRAWN: [(Prefix, GroupId); 5] = [
    (
        Prefix {
            addr: Addr::V4(0),
            len: 0,
        },
        GroupId(0),
    ),
    (
        Prefix {
            addr: Addr::V6(0),
            len: 0,
        },
        GroupId(2),
    ),
    (
        Prefix {
            addr: Addr::V4(0x9f31_f06c),
            len: 31,
        },
        GroupId(3),
    ),
    (
        Prefix {
            addr: Addr::V6(0xcb91_ce37_6fa4_9597_0000_0000_0000_0000),
            len: 64,
        },
        GroupId(1),
    ),
    (
        Prefix {
            addr: Addr::V4(0x8000_0000),
            len: 1,
        },
        GroupId(1),
    ),
];

/// The first and the last address of a prefix, and those right beside them.
fn edges(prefix: Prefix) -> [Addr; 4] {
    let len = u32::from(prefix.len);
    match prefix.addr {
        Addr::V4(first) => {
            let last = first | u32::MAX.checked_shr(len).unwrap_or(0);
            [first, last, first.wrapping_sub(1), last.wrapping_add(1)].map(Addr::V4)
        }
        Addr::V6(first) => {
            let last = first | u128::MAX.checked_shr(len).unwrap_or(0);
            [first, last, first.wrapping_sub(1), last.wrapping_add(1)].map(Addr::V6)
        }
    }
}

/// How many prefixes of the address's family there are.
fn prefixes_beside(table: &[(Prefix, GroupId)], addr: Addr) -> u64 {
    let mut count: u64 = 0;
    for (prefix, _) in table {
        if prefix.addr.bits() == addr.bits() {
            count = count.saturating_add(1);
        }
    }
    count
}

/// Whether `probe` finds the group, and two to its comparisons is at most four times the prefixes of the family.
fn is_probed(lookup: &Lookup, table: &[(Prefix, GroupId)], addr: Addr, group: GroupId) -> bool {
    let mut steps: Steps<Lookup> = Steps::new();
    let found = lookup.probe(addr, &mut steps);
    let most = prefixes_beside(table, addr).saturating_mul(4);
    found == group && steps.count() < 64 && most >> steps.count() > 0
}

/// Whether the lookup says what the search over all prefixes says.
fn is_plain(lookup: &Lookup, table: &[(Prefix, GroupId)], addr: Addr) -> bool
    requires { All (λ e. IsPrefix e.0) table.now }
{
    let group = lookup.group(addr);
    let scope = scope(table, addr);
    let found = longest(table, addr).is_some_and(|entry| entry.1 == group);
    found
        && lookup.find(addr) == (group, scope)
        && lookup.scope(addr) == scope
        && is_probed(lookup, table, addr, group)
}

/// Whether it does so at the edges of each prefix.
fn is_plain_at_edges(lookup: &Lookup, table: &[(Prefix, GroupId)]) -> bool
    requires { All (λ e. IsPrefix e.0) table.now }
{
    for (prefix, _) in table {
        for addr in edges(*prefix) {
            if !is_plain(lookup, table, addr) {
                return false;
            }
        }
    }
    true
}

/// Whether the rows hold.
fn holds_rows(lookup: &Lookup, rows: &[(Addr, u32, u8)]) -> bool {
    for (addr, group, scope) in rows {
        if lookup.group(*addr) != GroupId(*group) || lookup.scope(*addr) != *scope {
            return false;
        }
    }
    true
}

#[test]
fn each_address_has_its_group_and_scope(rt: HostRuntime) -> Result<(), NoMemory> {
    let small = Lookup::build(rt.alloc(), &SMALL)?;
    assert!(&rt; holds_rows(&small, &ROWS));
    assert!(&rt; is_plain_at_edges(&small, &SMALL));
    let mut steps: Steps<Lookup> = Steps::new();
    let group = small.probe(Addr::V4(0xc633_6480), &mut steps);
    assert!(&rt; group == GroupId(1) && steps.count() <= 3);
    Ok(())
}

#[test]
fn drawn_prefixes_are_found(rt: HostRuntime) -> Result<(), NoMemory> {
    let drawn = Lookup::build(rt.alloc(), &DRAWN)?;
    assert!(&rt; is_plain_at_edges(&drawn, &DRAWN));
    Ok(())
}

/// How many prefixes the next table has that is drawn, where its lookup says what the search over all says.
fn plain_prefixes(alloc: Global, draws: &mut Draws) -> Result<Option<usize>, NoMemory> {
    let table = drawn(alloc, draws)?;
    let lookup = Lookup::build(alloc, &table)?;
    if is_plain_at_edges(&lookup, &table) {
        Ok(Some(table.len()))
    } else {
        Ok(None)
    }
}

#[test]
fn drawn_tables_are_looked_up_as_plainly(rt: HostRuntime) -> Result<(), NoMemory> {
    let mut draws = Draws::from(1);
    let mut prefixes: usize = 0;
    for table in 0..3000usize {
        let more = plain_prefixes(rt.alloc(), &mut draws)?;
        assert!(rt; more.is_some(), "table {table}");
        prefixes = prefixes.saturating_add(more.unwrap_or(0));
    }
    assert!(rt; prefixes > 30000, "{prefixes}");
    Ok(())
}

/// Whether the lookup finds at the first address of each prefix what the search over all finds.
fn is_plain_at_first(lookup: &Lookup, table: &[(Prefix, GroupId)]) -> bool
    requires { All (λ e. IsPrefix e.0) table.now }
{
    for (prefix, _) in table {
        let group = lookup.group(prefix.addr);
        if !longest(table, prefix.addr).is_some_and(|entry| entry.1 == group) {
            return false;
        }
    }
    true
}

#[test]
fn two_thousand_prefixes_are_looked_up_as_plainly(rt: HostRuntime) -> Result<(), NoMemory> {
    let mut draws = Draws::from(3);
    let table = drawn_of(rt.alloc(), &mut draws, 3000)?;
    let lookup = Lookup::build(rt.alloc(), &table)?;
    assert!(rt; table.len() > 2000 && is_plain_at_first(&lookup, &table));
    Ok(())
}
