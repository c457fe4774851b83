//! A place for a connection: what is taken, and what goes on with it.
ghost use Rattle.std.specs.IoError.{error_kind};
ghost use Rattle.std.specs.Prelude.{◌≡◌, ◌≢◌, ◌<◌, ◌≤◌, ◌⊎◌, ◌&&◌, ℕ, length, nat_lt, not, true, false, IfNone, IfSome};
ghost use Rattle.outside.specs.Faults.{raised};
ghost use Rattle.addr_text.specs.declared.address.Peer.{Peer};
ghost use Rattle.tcp_frames.specs.declared.front.TheConstants.{LARGEST_FRAME};
ghost use Rattle.edges.specs.Halls.{GoesOn, IsEntered, IsLeft, IsLeftAtOnce, IsPlaceChangedAt, IsSettled, IsToLeaveAt, IsTurned};
ghost use Rattle.edges.specs.Places.{IsEndedByCalls, IsOverNow, IsReadNoted, IsSameSeat, IsTaken, IsToLeave, IsVacant, IsWoken, IsWriteNoted, WasRead, is_free, rested};
ghost use Rattle.edges.specs.Rooms.{IsChangedAt, IsEmpty, IsFilled, IsFlushed};

use crate::line::Line;
use crate::room::Room;
use addr_text::{Addr, Peer};
use mio::net::TcpStream;
use std::io::{Error, ErrorKind, Result};
use std::mem::replace;
use tcp_frames::LARGEST_FRAME;

/// For how long a connection may bring no whole query, or take no octet of a reply, in microseconds.
pub(crate) const LONGEST_IDLE: u64 = 10_000_000;

/// How many calls of the system in a row one connection gets.
const MOST_CALLS: usize = 8;

/// What happened at a connection.
#[derive(Clone, Copy)]
pub(crate) struct Stirring {
    /// There may be something to read.
    pub(crate) is_readable: bool,
    /// There may be room to write.
    pub(crate) is_writable: bool,
    /// Its peer sends no more.
    pub(crate) is_closing: bool,
}

/// A place for a connection.
#[derive(Drop)]
pub(crate) struct Seat {
    pub(crate) line: Option<Line>,
    pub(crate) peer: Peer,
    /// When it came, or last took octets of a reply.
    pub(crate) since: u64,
    /// Its number among those that wait to be handed over. 0 is none.
    pub(crate) turn: u64,
    /// Whether there may be something to read.
    pub(crate) is_readable: bool,
    /// Whether there may be room to write.
    pub(crate) is_writable: bool,
    /// Whether the system said that its peer sends no more. What it sent before may still be there.
    pub(crate) is_closing: bool,
    /// Whether its peer sends no more, and all that it sent was read.
    pub(crate) is_ended: bool,
    /// Whether it is of no use any more.
    pub(crate) is_over: bool,
}

impl Seat {
    /// A place that is free.
    pub(crate) fn free() -> Seat
        ensures { IsVacant result }
    {
        Seat {
            line: None,
            peer: Peer {
                addr: Addr::V4(0),
                port: 0,
            },
            since: 0,
            turn: 0,
            is_readable: false,
            is_writable: false,
            is_closing: false,
            is_ended: false,
            is_over: false,
        }
    }

    /// A place that a connection takes.
    pub(crate) fn taken(stream: TcpStream, peer: Peer, now: u64) -> Seat
        ensures { IsTaken peer now result }
    {
        Seat {
            line: Some(Line::new(stream)),
            peer,
            since: now,
            turn: 0,
            is_readable: true,
            is_writable: true,
            is_closing: false,
            is_ended: false,
            is_over: false,
        }
    }
}

/// What an error of a connection comes to: a wait, another try, or its end. Whoever connects can bring about each.
fn meet(error: &Error, may_go_on: &mut bool, is_over: &mut bool)
    ensures over { is_over.old ≡ true → is_over.new ≡ true }
    ensures waits { error_kind error.now ≡ ErrorKind.WouldBlock
        → (may_go_on.new ≡ false) × (is_over.new ≡ is_over.old) }
    ensures again { error_kind error.now ≡ ErrorKind.Interrupted
        → (may_go_on.new ≡ may_go_on.old) × (is_over.new ≡ is_over.old) }
    ensures ends { error_kind error.now ≢ ErrorKind.WouldBlock
        → error_kind error.now ≢ ErrorKind.Interrupted → is_over.new ≡ true }
{
    match error.kind() {
        ErrorKind::WouldBlock => *may_go_on = false,
        ErrorKind::Interrupted => {}
        _ => *is_over = true,
    }
}

/// Reads once. It answers what the system did, where there is a connection.
fn fill_once(seat: &mut Seat, room: &mut Room) -> Option<Result<usize>>
    ensures octets { IsFilled
        room.old.coming.items room.new.coming.items room.old.going.items room.new.going.items }
    ensures seat { IsSameSeat seat.old seat.new }
    ensures ended { IsEndedByCalls seat.old seat.new }
    ensures noted { IfSome result (λ answer.
        IsReadNoted answer seat.old room.old seat.new room.new) }
    ensures read { WasRead seat.new }
{
    let Some(line) = &mut seat.line else {
        return None;
    };
    let mut buffer = [0u8; LARGEST_FRAME];
    let space = LARGEST_FRAME.saturating_sub(room.coming.len());
    let answer = line.read(&mut buffer[..space]);
    match &answer {
        Ok(0) => {
            seat.is_ended = true;
            seat.is_readable = false;
        }
        Ok(len) => {
            room.take_in(&buffer[..*len]);
            if *len < space && !seat.is_closing {
                seat.is_readable = false;
            }
        }
        Err(error) => meet(error, &mut seat.is_readable, &mut seat.is_over),
    }
    Some(answer)
}

/// Whether something may be read of a connection, with room for it.
fn may_fill(seat: &Seat, room: &Room) -> bool
    ensures { result ≡ (seat.now.is_readable
        && not seat.now.is_over && nat_lt (length room.now.coming.items) LARGEST_FRAME) }
{
    seat.is_readable && !seat.is_over && room.coming.len() < LARGEST_FRAME
}

fn fill(seat: &mut Seat, room: &mut Room)
    ensures octets { IsFilled
        room.old.coming.items room.new.coming.items room.old.going.items room.new.going.items }
    ensures seat { IsSameSeat seat.old seat.new }
    ensures ended { IsEndedByCalls seat.old seat.new }
    ensures read { (seat.old.is_readable && not seat.old.is_over
        && nat_lt (length room.old.coming.items) LARGEST_FRAME) ≡ true → WasRead seat.new }
{
    if !may_fill(seat, room) {
        return;
    }
    let _ = fill_once(seat, room);
    for _ in 1..MOST_CALLS {
        if !may_fill(seat, room) {
            return;
        }
        let _ = fill_once(seat, room);
    }
}

/// Writes once. It answers what the system did, where there is a connection.
fn flush_once(seat: &mut Seat, room: &mut Room) -> Option<Result<usize>>
    ensures octets { IsFlushed
        room.old.coming.items room.new.coming.items room.old.going.items room.new.going.items }
    ensures seat { IsSameSeat seat.old seat.new }
    ensures ended { IsEndedByCalls seat.old seat.new }
    ensures noted { IfSome result (λ answer.
        IsWriteNoted answer seat.old room.old seat.new room.new) }
{
    let Some(line) = &mut seat.line else {
        return None;
    };
    let answer = line.write(room.going.as_slice());
    match &answer {
        Ok(len) => room.let_go(*len),
        Err(error) => meet(error, &mut seat.is_writable, &mut seat.is_over),
    }
    Some(answer)
}

/// Writes what goes.
fn flush(seat: &mut Seat, room: &mut Room)
    ensures octets { IsFlushed
        room.old.coming.items room.new.coming.items room.old.going.items room.new.going.items }
    ensures seat { IsSameSeat seat.old seat.new }
    ensures ended { IsEndedByCalls seat.old seat.new }
{
    for _ in 0..MOST_CALLS {
        if !seat.is_writable || seat.is_over || room.going.is_empty() {
            return;
        }
        let _ = flush_once(seat, room);
    }
}

/// Whether a connection is to be left: it is over; or it does not wait to be handed over, and either its peer sends no
/// more and takes all that goes, or it was idle for too long.
fn is_left(seat: &Seat, room: &Room, now: u64) -> bool
    ensures left { result ≡ true → IsToLeave LONGEST_IDLE now seat.now room.now.going.items }
    ensures stays { result ≡ false → IsToLeave LONGEST_IDLE now seat.now room.now.going.items → ⊥ }
{
    seat.is_over
        || (seat.turn == 0
            && ((seat.is_ended && room.going.is_empty())
                || now.saturating_sub(seat.since) >= LONGEST_IDLE))
}

/// Has a connection wait to be handed over where there is something to hand over and no reply of it is to go. `turns` is
/// the last number that one got which waits.
fn queue_up(seat: &mut Seat, room: &Room, turns: &mut u64)
    ensures seat { seat.new ≡ record seat.old { turn = seat.new.turn } }
    ensures turned { IsTurned turns.old turns.new seat.old.turn seat.new room.now }
    ensures turn { seat.old.turn ≡ 0
        → 0 < seat.new.turn → (turns.new ≡ raised turns.old 1) × (seat.new.turn ≡ turns.new) }
    ensures turns { (turns.old ≤ turns.new) × (turns.new ≤ raised turns.old 1) }
{
    if seat.turn == 0 && room.is_due() {
        *turns = turns.saturating_add(1);
        seat.turn = *turns;
    }
}

/// Writes and reads what can be at once, and has the connection wait to be handed over where there is something to hand
/// over and no reply of it is to go. It is not idle where it takes octets of a reply.
fn go_on(seat: &mut Seat, room: &mut Room, now: u64, turns: &mut u64)
    ensures went { GoesOn now turns.old turns.new seat.old room.old seat.new room.new }
    ensures ended { IsEndedByCalls seat.old seat.new }
    ensures turn { seat.old.turn ≡ 0
        → 0 < seat.new.turn → (turns.new ≡ raised turns.old 1) × (seat.new.turn ≡ turns.new) }
    ensures turns { (turns.old ≤ turns.new) × (turns.new ≤ raised turns.old 1) }
{
    let before = room.going.len();
    flush(seat, room);
    if room.going.len() < before {
        seat.since = now;
    }
    fill(seat, room);
    queue_up(seat, room, turns);
}

/// Leaves a connection where it is to be left. It hands back the place of one that is left, as it was.
fn leave_if_due(seat: &mut Seat, room: &mut Room, now: u64) -> Option<Seat>
    ensures left { IsToLeave LONGEST_IDLE now seat.old room.old.going.items
        → IsVacant seat.new × IsEmpty room.new }
    ensures stays { (IsToLeave LONGEST_IDLE now seat.old room.old.going.items → ⊥)
        → (seat.new ≡ seat.old) × (room.new ≡ room.old) }
    ensures gone { ((seat.new ≡ seat.old) × (room.new ≡ room.old) × (IsToLeave LONGEST_IDLE
        now seat.old room.old.going.items → ⊥)) ⊎ (IsVacant seat.new × IsEmpty room.new) }
    ensures was { IfSome result (λ was. (was ≡ seat.old) × IsToLeaveAt now seat.old room.old) }
    ensures none { IfNone result ((seat.new ≡ seat.old) × (room.new ≡ room.old)) }
{
    if !is_left(seat, room, now) {
        return None;
    }
    let was = replace(seat, Seat::free());
    room.clear();
    Some(was)
}

/// Has the connection of a place go on, and leaves it where it is to be left. One that is idle for too long is tried once
/// more before. It hands back the place of one that is left, as it was.
pub(crate) fn settle(seat: &mut Seat, room: &mut Room, now: u64, turns: &mut u64) -> Option<Seat>
    ensures settled { IsSettled now turns.old turns.new seat.old room.old seat.new room.new }
    ensures left { IfSome result (IsLeft now turns.old turns.new seat.old room.old) }
    ensures stays { IfNone result (is_free seat.new ≡ is_free seat.old) }
    ensures turn { seat.old.turn ≡ 0
        → 0 < seat.new.turn → (turns.new ≡ raised turns.old 1) × (seat.new.turn ≡ turns.new) }
    ensures turns { (turns.old ≤ turns.new) × (turns.new ≤ raised turns.old 1) }
{
    if seat.line.is_none() {
        return None;
    }
    if now.saturating_sub(seat.since) >= LONGEST_IDLE {
        seat.is_readable = true;
        seat.is_writable = true;
    }
    go_on(seat, room, now, turns);
    leave_if_due(seat, room, now)
}

/// Has a place hold a connection that came, reads it, and leaves it where it is to be left. It hands back the place of one
/// that is left, as it was.
fn enter(seat: &mut Seat, room: &mut Room, new: Seat, turns: &mut u64) -> Option<Seat>
    requires { (peer : Peer) × (now : ℕ) × IsTaken peer now new }
    ensures entered { IsEntered new.since turns.old turns.new seat.new room.new }
    ensures left { IfSome result (IsLeftAtOnce new.since new) }
    ensures stays { IfNone result (is_free seat.new ≡ false) }
    ensures turns { (turns.old ≤ turns.new) × (turns.new ≤ raised turns.old 1) }
{
    let now = new.since;
    *seat = new;
    room.clear();
    fill(seat, room);
    queue_up(seat, room, turns);
    leave_if_due(seat, room, now)
}

/// Has the place hold a connection that came, and reads it, if there is such a place with a room.
pub(crate) fn enter_at(seats: &mut [Seat], rooms: &mut [Room], i: usize, new: Seat, turns: &mut u64)
    requires { (peer : Peer) × (now : ℕ) × IsTaken peer now new }
    ensures at { i < length seats.old → i < length rooms.old
        → IsPlaceChangedAt (λ _ _ seat room. IsEntered new.since turns.old turns.new seat room)
        i seats.old rooms.old seats.new rooms.new }
    ensures none { (length seats.old ≤ i) ⊎ (length rooms.old ≤ i)
        → (seats.new ≡ seats.old) × (rooms.new ≡ rooms.old) }
    ensures turns { (turns.old ≤ turns.new) × (turns.new ≤ raised turns.old 1) }
{
    if i < seats.len() && i < rooms.len() {
        let _ = enter(&mut seats[i], &mut rooms[i], new, turns);
    }
}

/// Has the connection of a place wait no more to be handed over.
pub(crate) fn rest_at(seats: &mut [Seat], i: usize)
    ensures at { i < length seats.old
        → IsChangedAt (λ old new. new ≡ rested old) i seats.old seats.new }
    ensures none { length seats.old ≤ i → seats.new ≡ seats.old }
{
    if i < seats.len() {
        seats[i].turn = 0;
    }
}

/// Notes of a connection what happened: that there may be something to read or room to write, or that its peer sends no
/// more.
pub(crate) fn wake_at(seats: &mut [Seat], i: usize, stirring: Stirring)
    ensures woken { i < length seats.old → IsChangedAt (IsWoken stirring) i seats.old seats.new }
    ensures none { length seats.old ≤ i → seats.new ≡ seats.old }
{
    if i < seats.len() {
        let seat = &mut seats[i];
        seat.is_readable = seat.is_readable || stirring.is_readable;
        seat.is_writable = seat.is_writable || stirring.is_writable;
        seat.is_closing = seat.is_closing || stirring.is_closing;
    }
}

/// Whether a place has a connection that waits to be handed over.
fn is_waiting(seat: &Seat) -> bool
    ensures { result ≡ nat_lt 0 seat.now.turn }
{
    seat.turn > 0
}

/// The same, if there is such a place.
pub(crate) fn is_waiting_at(seats: &[Seat], i: usize) -> bool {
    match seats.get(i) {
        Some(seat) => is_waiting(seat),
        None => false,
    }
}

/// Whether any connection waits to be handed over.
pub(crate) fn is_any_waiting(seats: &[Seat]) -> bool {
    seats.iter().any(|seat| is_waiting(seat))
}

/// Has the connection of a place go on, where there is such a place with a room.
pub(crate) fn settle_at(seats: &mut [Seat], rooms: &mut [Room], i: usize, now: u64, turns: &mut u64)
    ensures at { i < length seats.old → i < length rooms.old → IsPlaceChangedAt
        (IsSettled now turns.old turns.new) i seats.old rooms.old seats.new rooms.new }
    ensures none { (length seats.old ≤ i) ⊎ (length rooms.old ≤ i)
        → (seats.new ≡ seats.old) × (rooms.new ≡ rooms.old) }
    ensures turns { (turns.old ≤ turns.new) × (turns.new ≤ raised turns.old 1) }
{
    if i < seats.len() && i < rooms.len() {
        let _ = settle(&mut seats[i], &mut rooms[i], now, turns);
    }
}

/// Has a place hold this, and no octets. Answers whether there is such a place.
pub(crate) fn put_at(seats: &mut [Seat], rooms: &mut [Room], i: usize, seat: Seat) -> bool
    ensures seat { result ≡ true → IsChangedAt (λ _ new. new ≡ seat) i seats.old seats.new }
    ensures room { result ≡ true → IsChangedAt (λ _ new. IsEmpty new) i rooms.old rooms.new }
    ensures none { result ≡ false → (seats.new ≡ seats.old) × (rooms.new ≡ rooms.old) }
{
    if i >= seats.len() || i >= rooms.len() {
        return false;
    }
    seats[i] = seat;
    rooms[i].clear();
    true
}

/// Notes that the connection of a place is of no use any more.
pub(crate) fn end_at(seats: &mut [Seat], i: usize)
    ensures over { i < length seats.old → IsChangedAt IsOverNow i seats.old seats.new }
    ensures none { length seats.old ≤ i → seats.new ≡ seats.old }
{
    if i < seats.len() {
        seats[i].is_over = true;
    }
}
