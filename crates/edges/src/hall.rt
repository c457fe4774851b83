//! The places of connections with their octets, and which of them is handed over.
ghost use Rattle.std.specs.Prelude.{◌≡◌, ◌≢◌, ◌<◌, ◌≤◌, ◌⊎◌, ℕ, true, false, Some, None, All, IfOk, IfSome, MatchBool, length, ◌+◌, slice_get};
ghost use Rattle.addr_text.specs.declared.address.Peer.{Peer};
ghost use Rattle.outside.specs.Faults.{raised};
ghost use Rattle.outside.specs.Streams.{IsWithin};
ghost use Rattle.edges.specs.Halls.{AreAllChanged, AreEmpty, AreFree, AreNumberedUpTo, AreRounded, EndsBehind, GoesOnBehind, IsAdvance, IsHeard, IsPlaceChangedAt, IsRound, IsSameOrEnded, IsSettled};
ghost use Rattle.edges.specs.Places.{rested};
ghost use Rattle.edges.specs.Rooms.{HasNothing, IsChangedAt, IsKeeping};
ghost use Rattle.edges.specs.Watches.{HasWaited, IsReadOnce, deaf_of, waits_of};
ghost use Rattle.edges.specs.declared.room.Room.{Room};
ghost use Rattle.edges.specs.declared.room.TheConstants.{LARGEST_GOING};
ghost use Rattle.tcp_frames.specs.declared.front.TheConstants.{LARGEST_FRAME};

use crate::ears::Ears;
use crate::places::{has_place, next_talk, used};
use crate::room::{Room, hand_over_at, keep_at};
use crate::seat::{Seat, end_at, is_any_waiting, rest_at, settle_at};
use crate::stop_flag::StopFlag;
use crate::watch::Watch;
use no_memory::NoMemory;
use outside::{Accepting, Reading};
use std::alloc::Global;
use std::time::Clock;

/// How long `advance` waits, in milliseconds. So long may a lane take to see that it is to stop.
const LONGEST_WAIT: u64 = 50;

/// The places, and which of them is handed over.
#[derive(Drop)]
pub(crate) struct Hall {
    pub(crate) seats: Vec<Seat>,
    pub(crate) rooms: Vec<Room>,
    /// The place that is handed over.
    pub(crate) current: Option<usize>,
    /// Whether it was read.
    pub(crate) is_read: bool,
    watch: Watch,
    /// The last number that was given to a connection which waits to be handed over.
    turns: u64,
}

fn free_seats(alloc: Global, places: usize) -> Result<Vec<Seat>, NoMemory>
    ensures { IfOk result (λ seats. AreFree places seats.items) }
{
    let mut seats = Vec::with_capacity(alloc, places)?;
    for _ in 0..places {
        seats.push(Seat::free())?;
    }
    Ok(seats)
}

/// Their octets.
fn free_rooms(alloc: Global, places: usize) -> Result<Vec<Room>, NoMemory>
    ensures { IfOk result (λ rooms. AreEmpty places rooms.items) }
{
    let mut rooms = Vec::with_capacity(alloc, places)?;
    for _ in 0..places {
        rooms.push(Room::new())?;
    }
    Ok(rooms)
}

/// Has all connections go on.
fn settle_all(seats: &mut [Seat], rooms: &mut [Room], now: u64, turns: &mut u64)
    ensures settled { AreAllChanged (λ _.
        IsSettled now turns.old turns.new) seats.old rooms.old seats.new rooms.new }
    ensures turns { (turns.old ≤ turns.new) × (turns.new ≤ raised turns.old (length seats.old)) }
{
    let used = used(seats);
    for i in 0..used {
        settle_at(seats, rooms, i, now, turns);
    }
}

/// Has all connections go on, and takes in those that come, of one address so many at most, or none where no number is
/// given.
fn go_round(
    ears: &mut Ears,
    seats: &mut [Seat],
    rooms: &mut [Room],
    most_of_one: Option<usize>,
    now: u64,
    turns: &mut u64,
)
    requires numbered { AreNumberedUpTo turns.old seats.old rooms.old }
    ensures went { AreRounded now turns.old turns.new seats.old rooms.old seats.new rooms.new }
    ensures turns { (turns.old ≤ turns.new)
        × (turns.new ≤ raised (raised turns.old (length seats.old)) (length seats.old)) }
    ensures numbered { AreNumberedUpTo turns.new seats.new rooms.new }
    ensures broken { ears.old.is_broken ≡ true → ears.new.is_broken ≡ true }
    ensures waits { ears.new.waits ≡ ears.old.waits }
{
    settle_all(seats, rooms, now, turns);
    if let Some(most_of_one) = most_of_one {
        ears.take_all(seats, rooms, most_of_one, now, turns);
    }
}

impl Hall {
    /// These places and their octets, with none handed over.
    pub(crate) fn new(seats: Vec<Seat>, rooms: Vec<Room>) -> Hall
        ensures { (result.current ≡ None)
            × (result.seats ≡ seats) × (result.rooms ≡ rooms) × (result.turns ≡ 0) }
    {
        Hall {
            seats,
            rooms,
            current: None,
            is_read: false,
            watch: Watch::new(),
            turns: 0,
        }
    }

    pub(crate) fn with_places(alloc: Global, places: usize) -> Result<Hall, NoMemory>
        ensures { IfOk result (λ hall. (hall.current ≡ None) × (hall.turns ≡ 0)
            × AreFree places hall.seats.items × AreEmpty places hall.rooms.items) }
    {
        let seats = free_seats(alloc, places)?;
        let rooms = free_rooms(alloc, places)?;
        Ok(Hall::new(seats, rooms))
    }

    /// Takes back the connection that was handed over: it waits no more, and goes on.
    pub(crate) fn take_back(&mut self)
        ensures current { self.new.current ≡ None }
        ensures back { (i : ℕ) → self.old.current ≡ Some i → i < length self.old.seats.items
            → i < length self.old.rooms.items → IsPlaceChangedAt (λ seat.
            IsSettled self.old.watch.now self.old.turns self.new.turns (rested seat))
            i self.old.seats.items self.old.rooms.items self.new.seats.items self.new.rooms.items }
        ensures turns { (self.old.turns ≤ self.new.turns)
            × (self.new.turns ≤ raised self.old.turns 1) }
        ensures numbered { AreNumberedUpTo self.old.turns self.old.seats.items self.old.rooms.items
            → AreNumberedUpTo self.new.turns self.new.seats.items self.new.rooms.items }
        ensures none { self.old.current ≡ None → self.new ≡ self.old }
        ensures same { self.new ≡ record self.old {
          current = None;
          seats = self.new.seats;
          rooms = self.new.rooms;
          turns = self.new.turns;
        } }
    {
        let Some(i) = self.current else {
            return;
        };
        self.current = None;
        rest_at(&mut self.seats, i);
        settle_at(
            &mut self.seats,
            &mut self.rooms,
            i,
            self.watch.now,
            &mut self.turns,
        );
    }

    /// Waits for something to happen, has all connections go on, and takes in those that come. Where the flag is set they
    /// are left to the next server, if the listener was handed in.
    fn gather<C: Clock>(&mut self, ears: &mut Ears, clock: &C, flag: &StopFlag, most_of_one: usize)
        requires numbered { AreNumberedUpTo
            self.old.turns self.old.seats.items self.old.rooms.items }
        ensures current { self.new.current ≡ self.old.current }
        ensures turns { (self.old.turns ≤ self.new.turns) × (self.new.turns ≤ raised
            (raised self.old.turns (length self.old.seats.items)) (length self.old.seats.items)) }
        ensures numbered { AreNumberedUpTo
            self.new.turns self.new.seats.items self.new.rooms.items }
        ensures broken { ears.old.is_broken ≡ true → ears.new.is_broken ≡ true }
        ensures waited { HasWaited ears.old ears.new }
        ensures read { ears.new.is_broken ≡ false → IsReadOnce self.old.watch self.new.watch }
        ensures went { ears.new.is_broken ≡ false
            → IsRound self.new.watch.now self.old.turns self.new.turns
            self.old.seats.items self.old.rooms.items self.new.seats.items self.new.rooms.items }
    {
        let may_take = !ears.is_left(flag.is_set())
            && ears.may_take()
            && has_place(&self.seats, self.watch.now);
        let wait = if may_take || is_any_waiting(&self.seats) {
            0
        } else {
            LONGEST_WAIT
        };
        let _ = ears.wait(wait, &mut self.seats);
        if ears.is_broken() {
            return;
        }
        let _ = self.watch.read(clock);
        let most = if ears.is_left(flag.is_set()) {
            None
        } else {
            Some(most_of_one)
        };
        go_round(
            ears,
            &mut self.seats,
            &mut self.rooms,
            most,
            self.watch.now,
            &mut self.turns,
        );
    }

    /// Waits for something to happen, has all connections go on, takes in those that come, and hands over the one that has
    /// waited longest. It fails exactly where there is no listener, or it or the wait for it is broken.
    pub(crate) fn advance<C: Clock>(
        &mut self,
        ears: &mut Option<Ears>,
        clock: &C,
        flag: &StopFlag,
        most_of_one: usize,
    ) -> Accepting
        requires current { self.old.current ≡ None }
        requires numbered { AreNumberedUpTo
            self.old.turns self.old.seats.items self.old.rooms.items }
        ensures advance { IsAdvance result self.new.current self.new.seats.items }
        ensures turns { (self.old.turns ≤ self.new.turns) × (self.new.turns ≤ raised
            (raised self.old.turns (length self.old.seats.items)) (length self.old.seats.items)) }
        ensures numbered { AreNumberedUpTo
            self.new.turns self.new.seats.items self.new.rooms.items }
        ensures went { result ≢ Accepting.Failed
            → IsRound self.new.watch.now self.old.turns self.new.turns
            self.old.seats.items self.old.rooms.items self.new.seats.items self.new.rooms.items }
        ensures deaf { MatchBool (deaf_of ears.new) (result
            ≡ Accepting.Failed) (result ≢ Accepting.Failed) }
        ensures stays { deaf_of ears.old ≡ true → deaf_of ears.new ≡ true }
        ensures waited { result ≢ Accepting.Failed → waits_of ears.new ≡ waits_of ears.old + 1 }
        ensures read { result ≢ Accepting.Failed → IsReadOnce self.old.watch self.new.watch }
        ensures unread { (peer : Peer) → result ≡ Accepting.Come peer → self.new.is_read ≡ false }
    {
        let Some(ears) = ears else {
            return Accepting::Failed;
        };
        self.gather(ears, clock, flag, most_of_one);
        if ears.is_broken() {
            return Accepting::Failed;
        }
        let Some((i, peer)) = next_talk(self.seats.as_slice()) else {
            return Accepting::Idle;
        };
        self.current = Some(i);
        self.is_read = false;
        Accepting::Come(peer)
    }

    /// Hands over, once, what the connection that was handed over has.
    pub(crate) fn hear(&mut self, buffer: &mut [u8]) -> Reading
        ensures within { IsWithin result (length buffer.old) }
        ensures buffer { length buffer.new ≡ length buffer.old }
        ensures fine { result ≢ Reading.Failed }
        ensures heard { IsHeard buffer.old
            buffer.new result self.old.current self.old.rooms.items self.new.rooms.items }
        ensures current { self.new.current ≡ self.old.current }
        ensures seats { IsSameOrEnded self.old.current self.old.seats.items self.new.seats.items }
        ensures turns { self.new.turns ≡ self.old.turns }
        ensures watch { self.new.watch ≡ self.old.watch }
        ensures once { self.old.is_read ≡ true → result ≡ Reading.Closed }
        ensures read { self.new.is_read ≡ true ⊎ (self.new ≡ self.old) × (self.old.current ≡ None) }
        ensures ended { EndsBehind
            buffer.new result self.old.current self.old.seats.items self.new.seats.items }
        ensures goes_on { GoesOnBehind buffer.new result self.old.seats.items self.new.seats.items }
        // Where something whole has come it is handed over.
        ensures due { result ≡ Reading.Closed → self.old.is_read ≡ false
            → LARGEST_FRAME ≤ length buffer.old → (i : ℕ) (room : Room) → self.old.current ≡ Some i
            → slice_get self.old.rooms.items i ≡ Some room → HasNothing room }
    {
        let Some(i) = self.current else {
            return Reading::Closed;
        };
        if self.is_read {
            return Reading::Closed;
        }
        self.is_read = true;
        let Some(batch) = hand_over_at(&mut self.rooms, i, buffer) else {
            return Reading::Closed;
        };
        if batch.is_faulty || batch.len == 0 {
            end_at(&mut self.seats, i);
        }
        if batch.len == 0 {
            return Reading::Closed;
        }
        Reading::Got(batch.len)
    }

    /// Keeps a reply for the connection that was handed over. Answers whether there is one, with room for it.
    pub(crate) fn keep(&mut self, octets: &[u8]) -> bool
        ensures kept { result ≡ true → (i : ℕ) × (self.old.current ≡ Some i)
            × IsChangedAt (IsKeeping octets.now true) i self.old.rooms.items self.new.rooms.items }
        ensures full { result ≡ false → (self.new.rooms.items ≡ self.old.rooms.items)
            ⊎ ((i : ℕ) × (self.old.current ≡ Some i) × IsChangedAt
            (IsKeeping octets.now false) i self.old.rooms.items self.new.rooms.items) }
        ensures fits { result ≡ false → (i : ℕ) (room : Room)
            → self.old.current ≡ Some i → slice_get self.old.rooms.items i ≡ Some room
            → LARGEST_GOING < length room.going.items + length octets.now }
        ensures same { self.new ≡ record self.old { rooms = self.new.rooms } }
    {
        match self.current {
            Some(i) => keep_at(&mut self.rooms, i, octets),
            None => false,
        }
    }
}
