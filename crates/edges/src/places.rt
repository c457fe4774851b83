//! Which connection has a place, gives way, or is handed over next.
ghost use Rattle.std.specs.Prelude.{◌≡◌, ◌∷◌, [], ◌++◌, List, ℕ, ◌≤◌, MatchBool, slice_get, length, false, true, Some, IfNone, IfSome, All, count_by, position};
ghost use Rattle.edges.specs.Places.{GivesWay, HasPlace, IsFound, IsLeastSoFar, IsNextTalk, IsPlaceFor, IsVacant, is_free, is_of, is_same, key_of};
ghost use Rattle.edges.specs.declared.seat.Seat.{Seat};

use crate::seat::Seat;
use addr_text::{Addr, Peer};

/// For how long a connection is idle at least that gives way to one of another address, in microseconds. So none gives way
/// whose query is on its way behind it.
pub(crate) const LEAST_IDLE: u64 = 100_000;

/// How many addresses of IPv6 one network of one owner has.
const HOSTS: u128 = 1 << 64;

/// Which connection is looked for.
#[derive(Clone, Copy)]
pub(crate) enum Wanted {
    /// The one that is idle for the longest time.
    Oldest,
    /// The same, of those of an address.
    OldestOf(Addr),
    /// The one that has waited longest to be handed over.
    FirstInTurn,
}

/// The least number so far, and whose it is.
#[derive(Clone, Copy)]
pub(crate) struct Found {
    place: usize,
    key: u64,
}

/// Whether two addresses count as one: those of IPv6 of one network do, but in the first network, where addresses of
/// IPv4 stand too.
pub(crate) fn is_same(a: Addr, b: Addr) -> bool
    ensures { result ≡ is_same a b }
{
    match (a, b) {
        (Addr::V4(a), Addr::V4(b)) => a == b,
        (Addr::V6(a), Addr::V6(b)) => a == b || (a / HOSTS != 0 && a / HOSTS == b / HOSTS),
        (Addr::V4(_), Addr::V6(_)) => false,
        (Addr::V6(_), Addr::V4(_)) => false,
    }
}

/// Whether a place has a connection of an address.
fn is_of(seat: &Seat, addr: Addr) -> bool
    ensures { result ≡ is_of addr seat.now }
{
    seat.line.is_some() && is_same(seat.peer.addr, addr)
}

/// When an idle connection came or last took octets, or the number of one that waits; None where it is not looked for.
fn key_of(seat: &Seat, wanted: Wanted) -> Option<u64>
    ensures { result ≡ key_of wanted seat.now }
{
    let is_wanted = match wanted {
        Wanted::Oldest => seat.line.is_some() && seat.turn == 0,
        Wanted::OldestOf(addr) => is_of(seat, addr) && seat.turn == 0,
        Wanted::FirstInTurn => seat.turn > 0,
    };
    if !is_wanted {
        return None;
    }
    match wanted {
        Wanted::FirstInTurn => Some(seat.turn),
        Wanted::Oldest | Wanted::OldestOf(_) => Some(seat.since),
    }
}

/// The lesser of what was found so far and the next place.
fn lesser(seat: &Seat, place: usize, wanted: Wanted, found: Option<Found>) -> Option<Found>
    ensures { (before : List Seat) → length before ≡ place
        → IsLeastSoFar wanted before found → IsLeastSoFar wanted (before ++ seat.now ∷ []) result }
{
    match key_of(seat, wanted) {
        None => found,
        Some(key) => match found {
            Some(other) if other.key <= key => found,
            _ => Some(Found { place, key }),
        },
    }
}

/// Whether a place has no connection, and so none that waits.
fn is_vacant(seat: &Seat) -> bool
    ensures { MatchBool result (IsVacant seat.now) (IsVacant seat.now → ⊥) }
{
    seat.line.is_none() && seat.turn == 0
}

/// A number such that no place from there on has a connection. So a look at the places ends at the last one that has.
pub(crate) fn used(seats: &[Seat]) -> usize
    ensures vacant { (i : ℕ) (seat : Seat)
        → result ≤ i → slice_get seats.now i ≡ Some seat → IsVacant seat }
    ensures within { result ≤ length seats.now }
{
    let mut used = seats.len();
    for _ in 0..seats.len() {
        if used == 0 || !is_vacant(&seats[used - 1]) {
            return used;
        }
        used -= 1;
    }
    used
}

/// The place of the connection that is looked for, the first of those that are alike, in some places.
fn least_in(seats: &[Seat], wanted: Wanted) -> Option<usize>
    ensures { IsFound wanted seats.now result }
{
    let mut found = None;
    for (i, seat) in seats.iter().enumerate() {
        found = lesser(seat, i, wanted, found);
    }
    match found {
        Some(found) => Some(found.place),
        None => None,
    }
}

/// The place of the connection that is looked for, the first of those that are alike.
pub(crate) fn least(seats: &[Seat], wanted: Wanted) -> Option<usize>
    ensures { IsFound wanted seats.now result }
{
    let used = used(seats);
    least_in(&seats[..used], wanted)
}

/// How many connections of an address there are.
fn count_of(seats: &[Seat], addr: Addr) -> usize
    ensures { result ≡ count_by (is_of addr) seats.now }
{
    seats.iter().filter(|seat| is_of(seat, addr)).count()
}

fn first_free(seats: &[Seat]) -> Option<usize>
    ensures { result ≡ position is_free seats.now }
{
    seats.iter().position(|seat| seat.line.is_none())
}

/// The place for a connection of an address that comes: a free one, or that of the one that is idle for the longest time;
/// where there are as many of its address as there may be, of the one of these. None that waits to be handed over gives way.
pub(crate) fn place_for(seats: &[Seat], addr: Addr, most_of_one: usize) -> Option<usize>
    ensures { IsPlaceFor seats.now addr most_of_one result }
{
    if count_of(seats, addr) >= most_of_one {
        return least(seats, Wanted::OldestOf(addr));
    }
    match first_free(seats) {
        Some(i) => Some(i),
        None => least(seats, Wanted::Oldest),
    }
}

/// The place of the connection that is idle for the longest time, where that is long enough for it to give way.
pub(crate) fn oldest_idle(seats: &[Seat], now: u64) -> Option<usize>
    ensures some { IfSome result (λ i. GivesWay now seats.now i) }
    ensures none { IfNone result ((i : ℕ) → GivesWay now seats.now i → ⊥) }
{
    let i = least(seats, Wanted::Oldest)?;
    let seat = seats.get(i)?;
    if now.saturating_sub(seat.since) >= LEAST_IDLE {
        Some(i)
    } else {
        None
    }
}

/// Whether a connection that comes can have a place: one is free, or a connection gives way that was idle for long enough.
pub(crate) fn has_place(seats: &[Seat], now: u64) -> bool
    ensures some { result ≡ true → HasPlace now seats.now }
    ensures none { result ≡ false → HasPlace now seats.now → ⊥ }
{
    first_free(seats).is_some() || oldest_idle(seats, now).is_some()
}

/// The place whose connection is handed over next, the one that has waited longest, and its peer.
pub(crate) fn next_talk(seats: &[Seat]) -> Option<(usize, Peer)>
    ensures some { IfSome result (λ next. IsNextTalk seats.now next.0 next.1) }
    ensures none { IfNone result (All (λ s. key_of Wanted.FirstInTurn s ≡ None) seats.now) }
{
    let i = least(seats, Wanted::FirstInTurn)?;
    let seat = seats.get(i)?;
    Some((i, seat.peer))
}
