//! Tables that a small generator draws: both defaults, and prefixes within, beside and around each other.
ghost use Rattle.std.specs.Prelude.{◌≡◌, ◌<◌, true, false, All, IfOk};
ghost use Rattle.addr_text.specs.Addresses.{IsPrefix};
ghost use Rattle.prefix_lookup.specs.Table.{IsTable};

use addr_text::{Addr, Prefix};
use map_model::GroupId;
use no_memory::NoMemory;
use std::alloc::Global;

/// What each table begins with.
const DEFAULTS: [(Prefix, GroupId); 2] = [
    (
        Prefix {
            addr: Addr::V4(0),
            len: 0,
        },
        GroupId(0),
    ),
    (
        Prefix {
            addr: Addr::V6(0),
            len: 0,
        },
        GroupId(1),
    ),
];

/// A linear congruential generator of 64 bits.
#[derive(Drop)]
pub struct Draws {
    last: u64,
}

impl Draws {
    pub fn from(seed: u64) -> Draws {
        Draws { last: seed }
    }

    /// The next 32 bits.
    fn bits(&mut self) -> u64 {
        self.last = self
            .last
            .wrapping_mul(6364136223846793005)
            .wrapping_add(1442695040888963407);
        self.last >> 32
    }

    /// A number below `end`.
    pub fn below(&mut self, end: u64) -> u64
        requires { 0 < end }
        ensures { result < end }
    {
        self.bits() % end
    }

    /// A number of 128 bits.
    fn wide(&mut self) -> u128 {
        let mut number = 0;
        for _ in 0..4usize {
            number = number << 32 | u128::from(self.bits());
        }
        number
    }
}

/// The bits of an address from the highest of 128 on.
fn left(addr: Addr) -> u128 {
    match addr {
        Addr::V4(number) => u128::from(number) << 96,
        Addr::V6(number) => number,
    }
}

/// The bits behind the first `len` of 128.
fn behind(len: u8) -> u128 {
    u128::MAX.checked_shr(u32::from(len)).unwrap_or(0)
}

/// The prefix of the address's family, of `len` bits or all of them, that begins with these bits.
fn beginning(family: Addr, bits: u128, len: u8) -> Prefix {
    let len = len.min(family.bits());
    let clear = bits & !behind(len);
    let addr = match family {
        Addr::V4(_) => Addr::V4((clear >> 96) as u32),
        Addr::V6(_) => Addr::V6(clear),
    };
    Prefix { addr, len }
}

/// A prefix within, right behind, right before or around another one, or anywhere in its family.
fn related(draws: &mut Draws, base: Prefix) -> Prefix {
    let Prefix { addr, len } = base;
    let bits = left(addr);
    let more = draws.below(9) as u8;
    match draws.below(5) {
        0 => beginning(
            addr,
            bits | draws.wide() & behind(len),
            len.saturating_add(more),
        ),
        1 => beginning(addr, (bits | behind(len)).wrapping_add(1), len),
        2 => beginning(addr, bits.wrapping_sub(1), len),
        3 => beginning(addr, bits, len.saturating_sub(more)),
        _ => beginning(addr, draws.wide(), draws.below(129) as u8),
    }
}

/// Whether a prefix has a length of its family, and no bit beyond it.
fn is_prefix(prefix: Prefix) -> bool
    ensures { result ≡ true → IsPrefix prefix }
{
    let Prefix { addr, len } = prefix;
    match addr {
        Addr::V4(bits) => len <= 32 && u64::from(bits) % (1u64 << (32 - len)) == 0,
        Addr::V6(bits) => len >= 1 && len <= 128 && bits % (1u128 << (128 - len)) == 0,
    }
}

/// Whether a prefix stands in a table.
fn has(table: &[(Prefix, GroupId)], prefix: Prefix) -> bool
    ensures { result ≡ false → All (λ e. e.0 ≡ prefix → ⊥) table.now }
{
    for entry in table {
        if entry.0 == prefix {
            return true;
        }
    }
    false
}

/// Puts an entry into a table, where its prefix is one and does not stand there.
fn add(table: &mut Vec<(Prefix, GroupId)>, entry: (Prefix, GroupId)) -> Result<(), NoMemory>
    requires { IsTable table.old.items }
    ensures { IfOk result (λ done. IsTable table.new.items) }
{
    if is_prefix(entry.0) && !has(table, entry.0) {
        table.push(entry)?;
    }
    Ok(())
}

/// An entry that is related to one of a table, for one of four groups.
fn next(draws: &mut Draws, table: &[(Prefix, GroupId)]) -> (Prefix, GroupId) {
    let base = draws.below(table.len().max(1) as u64) as usize;
    let prefix = table.get(base).map_or(DEFAULTS[0].0, |entry| entry.0);
    (related(draws, prefix), GroupId(draws.below(4) as u32))
}

/// A table of both defaults and up to 39 more prefixes.
pub fn drawn(alloc: Global, draws: &mut Draws) -> Result<Vec<(Prefix, GroupId)>, NoMemory>
    ensures { IfOk result (λ table. IsTable table.items) }
{
    let most = draws.below(40);
    drawn_of(alloc, draws, most)
}

/// A table of both defaults and up to so many more prefixes.
pub fn drawn_of(
    alloc: Global,
    draws: &mut Draws,
    most: u64,
) -> Result<Vec<(Prefix, GroupId)>, NoMemory>
    ensures { IfOk result (λ table. IsTable table.items) }
{
    let mut table = Vec::from_slice(alloc, &DEFAULTS)?;
    for _ in 0..most {
        let entry = next(draws, &table);
        add(&mut table, entry)?;
    }
    Ok(table)
}
