//! The ranges of both families, and the search for the range of a number.
ghost use Rattle.std.specs.Prelude.{◌≡◌, ℕ, ◌+◌, ◌-◌, ◌*◌, ◌<◌, ◌≤◌, ◌^◌, List, length, All, IfOk};
ghost use Rattle.addr_text.specs.declared.address.Prefix.{Prefix};
ghost use Rattle.map_model.specs.declared.instance.GroupId.{GroupId};
ghost use Rattle.prefix_lookup.specs.declared.family.Family.{Family};
ghost use Rattle.prefix_lookup.specs.declared.family.Family.TheVariants as family;
ghost use Rattle.prefix_lookup.specs.Family.{bits_in};
ghost use Rattle.prefix_lookup.specs.Ranges.{AreRanges, IsLastUpTo, IsRangeAt, IsRangeOf, next_start, start_at};
ghost use Rattle.prefix_lookup.specs.Table.{IsTable};

use crate::family::Family;
use crate::sweep::ranges_of;
use addr_text::Prefix;
use map_model::{GroupId, Steps};
use no_memory::NoMemory;
use std::alloc::Global;

/// Numbers with the same longest prefix.
#[derive(Clone, Copy, Debug, PartialEq, Eq)]
pub struct Range {
    pub group: GroupId,
    /// The first number.
    pub start: u128,
    /// The number after the last, none where that is the last of the family.
    pub end: Option<u128>,
}

/// The sorted ranges of IPv4: where each begins, and beside it its group.
#[derive(Debug, Drop)]
pub struct RangesV4 {
    pub starts: Vec<u32>,
    pub groups: Vec<GroupId>,
}

/// The sorted ranges of IPv6.
#[derive(Debug, Drop)]
pub struct RangesV6 {
    pub starts: Vec<u128>,
    pub groups: Vec<GroupId>,
}

/// Numbers of 32 bits in half a machine word each.
fn narrow(alloc: Global, numbers: &[u128]) -> Result<Vec<u32>, NoMemory>
    requires { (i : ℕ) → i < length numbers.now → start_at numbers.now i < 2 ^ 32 }
    ensures { IfOk result (λ narrow. narrow.items ≡ numbers.now) }
{
    let mut narrow = Vec::with_capacity(alloc, numbers.len())?;
    for number in numbers {
        narrow.push(*number as u32)?;
    }
    Ok(narrow)
}

/// The ranges of the IPv4 prefixes.
pub fn ranges_v4(alloc: Global, table: &[(Prefix, GroupId)]) -> Result<RangesV4, NoMemory>
    requires { IsTable table.now }
    ensures { IfOk result (λ r. AreRanges family.V4 table.now r.starts.items r.groups.items) }
{
    let made = ranges_of(alloc, Family::V4, table)?;
    let starts = narrow(alloc, made.starts.as_slice())?;
    Ok(RangesV4 {
        starts,
        groups: made.groups,
    })
}

/// The ranges of the IPv6 prefixes.
pub fn ranges_v6(alloc: Global, table: &[(Prefix, GroupId)]) -> Result<RangesV6, NoMemory>
    requires { IsTable table.now }
    ensures { IfOk result (λ r. AreRanges family.V6 table.now r.starts.items r.groups.items) }
{
    let made = ranges_of(alloc, Family::V6, table)?;
    Ok(RangesV6 {
        starts: made.starts,
        groups: made.groups,
    })
}

/// Sorted starts of ranges, each in as many octets as a number of its family takes.
trait Starts {
    /// Where the ranges begin.
    ghost starts: { Self → List ℕ };

    fn count(&self) -> usize
        ensures { result ≡ length (starts self.now) };

    fn at(&self, place: usize) -> u128
        requires { place < length (starts self.now) }
        ensures { result ≡ start_at (starts self.now) place };
}

impl Starts for Vec<u32> {
    ghost starts = { λ v. v.items };

    fn count(&self) -> usize {
        self.len()
    }

    fn at(&self, place: usize) -> u128 {
        u128::from(self.as_slice()[place])
    }
}

impl Starts for Vec<u128> {
    ghost starts = { λ v. v.items };

    fn count(&self) -> usize {
        self.len()
    }

    fn at(&self, place: usize) -> u128 {
        self.as_slice()[place]
    }
}

/// What is told of each comparison of a search.
pub trait Tally {
    /// How many comparisons it holds.
    ghost told: { Self → ℕ };

    /// A comparison is made.
    fn compared(&mut self)
        ensures risen { told self.old ≤ told self.new }
        ensures once { told self.new ≤ told self.old + 1 };
}

/// Each comparison is a tick.
impl<L> Tally for Steps<L> {
    ghost told = { λ steps. steps };

    #[inline(always)]
    fn compared(&mut self) {
        self.tick();
    }
}

/// Nobody asks how many comparisons there are: the search that replies make.
#[derive(Clone, Copy, Debug, PartialEq, Eq)]
pub struct Untold;

impl Tally for Untold {
    ghost told = { λ _. 0 };

    #[inline(always)]
    fn compared(&mut self) {}
}

/// The last start up to a number; each comparison is told.
#[inline(always)]
fn last_up_to<S: Starts, T: Tally>(starts: &S, number: u128, tally: &mut T) -> usize
    requires some { 0 < length (S.starts starts.now) }
    requires first { start_at (S.starts starts.now) 0 ≡ 0 }
    ensures place { IsLastUpTo (S.starts starts.now) number result }
    ensures few { 2 ^ (T.told tally.new - T.told tally.old) ≤ 2 * length (S.starts starts.now) }
    ensures risen { T.told tally.old ≤ T.told tally.new }
{
    let mut low = 0;
    let mut size = starts.count();
    while size > 1 {
        let half = size / 2;
        tally.compared();
        if starts.at(low + half) <= number {
            low += half;
            size -= half;
        } else {
            size = half;
        }
    }
    low
}

/// The start after this place, if there is one.
#[inline(always)]
fn next_at<S: Starts>(starts: &S, place: usize) -> Option<u128>
    requires { place < length (S.starts starts.now) }
    ensures { result ≡ next_start (S.starts starts.now) place }
{
    let count = starts.count();
    if place + 1 < count {
        Some(starts.at(place + 1))
    } else {
        None
    }
}

#[inline(always)]
fn range_at<S: Starts>(starts: &S, groups: &[GroupId], place: usize) -> Range
    requires place { place < length (S.starts starts.now) }
    requires beside { length groups.now ≡ length (S.starts starts.now) }
    ensures { IsRangeAt (S.starts starts.now) groups.now place result }
{
    Range {
        group: groups[place],
        start: starts.at(place),
        end: next_at(starts, place),
    }
}

#[inline(always)]
fn range_in<S: Starts, T: Tally>(
    starts: &S,
    groups: &[GroupId],
    number: u128,
    tally: &mut T,
) -> Range
    requires some { 0 < length (S.starts starts.now) }
    requires first { start_at (S.starts starts.now) 0 ≡ 0 }
    requires beside { length groups.now ≡ length (S.starts starts.now) }
    ensures range { (family : Family) (table : List (Prefix × GroupId))
        → AreRanges family table (S.starts starts.now) groups.now → number < 2 ^ bits_in family
        → IsRangeOf family table number result }
    ensures few { 2 ^ (T.told tally.new - T.told tally.old) ≤ 2 * length (S.starts starts.now) }
    ensures risen { T.told tally.old ≤ T.told tally.new }
{
    let place = last_up_to(starts, number, tally);
    range_at(starts, groups, place)
}

impl RangesV4 {
    /// The range of an address.
    #[inline(always)]
    pub fn range_of<T: Tally>(&self, number: u32, tally: &mut T) -> Range
        requires some { 0 < length self.now.starts.items }
        requires first { start_at self.now.starts.items 0 ≡ 0 }
        requires beside { length self.now.groups.items ≡ length self.now.starts.items }
        ensures range { (table : List (Prefix × GroupId))
            → AreRanges family.V4 table self.now.starts.items self.now.groups.items
            → IsRangeOf family.V4 table number result }
        ensures fits { number < 2 ^ 32 }
        ensures few { 2 ^ (T.told tally.new - T.told tally.old) ≤ 2 * length self.now.starts.items }
        ensures risen { T.told tally.old ≤ T.told tally.new }
    {
        range_in(
            &self.starts,
            self.groups.as_slice(),
            u128::from(number),
            tally,
        )
    }
}

impl RangesV6 {
    /// The range of an address.
    #[inline(always)]
    pub fn range_of<T: Tally>(&self, number: u128, tally: &mut T) -> Range
        requires some { 0 < length self.now.starts.items }
        requires first { start_at self.now.starts.items 0 ≡ 0 }
        requires beside { length self.now.groups.items ≡ length self.now.starts.items }
        ensures range { (table : List (Prefix × GroupId))
            → AreRanges family.V6 table self.now.starts.items self.now.groups.items
            → IsRangeOf family.V6 table number result }
        ensures fits { number < 2 ^ 128 }
        ensures few { 2 ^ (T.told tally.new - T.told tally.old) ≤ 2 * length self.now.starts.items }
        ensures risen { T.told tally.old ≤ T.told tally.new }
    {
        range_in(&self.starts, self.groups.as_slice(), number, tally)
    }
}
