//! A listener of TCP, and what waits for it and for its connections.
ghost use Rattle.std.specs.Prelude.{◌≡◌, ◌≢◌, ◌<◌, ◌≤◌, ◌+◌, ◌⊎◌, ℕ, true, false, All, IfSome, IsErrOf, MatchBool, length};
ghost use Rattle.std.specs.List.{AllZip};
ghost use Rattle.outside.specs.Faults.{raised};
ghost use Rattle.edges.specs.Halls.{AreAllChanged, AreNumberedUpTo, IsLetIn, IsTakenIn};
ghost use Rattle.edges.specs.Judged.{IsWaitBroken, next_of};
ghost use Rattle.edges.specs.Places.{GivesWay, HasPlace, IsVacant, MayBeWoken, WasRead};
ghost use Rattle.edges.specs.Rooms.{IsChangedAt, IsEmpty};
ghost use Rattle.edges.specs.Watches.{HasWaited, MayCome};

use crate::judged::{Knock, knock_of};
use crate::peers::{peer_of, socket_addr};
use crate::places::{has_place, oldest_idle, place_for};
use crate::room::Room;
use crate::seat::{Seat, Stirring, enter_at, is_any_waiting, put_at, wake_at};
use addr_text::{Listen, Peer};
use mio::event::Event;
use mio::net::{TcpListener, TcpStream};
use mio::{Events, Interest, Poll, Registry, Token};
use past_log::{CallEvent, CallsPast};
use socket_calls::{Unfit, handed_in, send_at_once, take_tcp};
use std::io::{self, ErrorKind};
use std::net::{Net, SocketAddr};
use std::os::fd::AsRawFd;
use std::time::Duration;

/// The first descriptor that is no standard stream's.
const FIRST_DESCRIPTOR: i32 = 3;

/// The token of the listener. That of a connection is one past its place.
const LISTENER: usize = 0;

/// Whether a connection may be had of a listener.
#[derive(Clone, Copy, PartialEq, Eq)]
enum Queue {
    /// None waits.
    Empty,
    /// One may wait, and may be had after a while.
    Later,
    /// One may wait.
    Now,
}

/// A connection that was had of the listener, with its peer, and the time of that.
#[derive(Drop)]
struct Come {
    stream: TcpStream,
    peer: Peer,
    time: u64,
}

/// A listener, and what waits for it and for its connections.
#[derive(Drop)]
pub(crate) struct Ears {
    listener: TcpListener,
    poll: Poll,
    events: Events,
    queue: Queue,
    /// Whether a connection may be given up for want of a descriptor: one at most in a turn, until a further one was taken.
    may_make_room: bool,
    /// Whether the listener, or a wait for it, is broken. It stays so.
    is_broken: bool,
    /// Whether the listener was handed in, so that another server may have what waits there.
    is_handed: bool,
    /// The waits, of which clauses alone speak.
    waits: CallsPast,
    /// The tries to take a connection, of which clauses alone speak.
    accepts: CallsPast,
}

/// What became of a connection that was taken off the queue of the system.
#[derive(Clone, Copy)]
pub(crate) enum Taken {
    /// It has this place.
    At(usize),
    /// It has none: as many of its address have one as may, and none of these gives way.
    Turned,
    /// It has none: the system waits for no more of them.
    Refused,
}

/// How a listener goes on after a try to take a connection.
#[derive(Clone, Copy)]
pub(crate) enum Next {
    /// It is given up.
    Broken,
    /// The next one is tried at once.
    Again,
    /// It waits.
    Wait,
}

/// How a listener goes on, where a place and a descriptor could be had for the next connection or not. It is given up
/// exactly where it is broken, whatever a peer does and however many connections there are.
fn next_of(knock: Knock, has_room: bool) -> Next
    ensures { result ≡ next_of knock has_room }
{
    match knock {
        Knock::Deaf => Next::Broken,
        Knock::Gone => Next::Again,
        Knock::Full => { if has_room { Next::Again } else { Next::Wait } }
        Knock::Quiet => Next::Wait,
    }
}

/// The listener there that was handed in, if there is one.
fn handed_at<N: Net>(net: &N, place: SocketAddr) -> Result<Option<TcpListener>, Unfit> {
    for number in 0..handed_in()? {
        if let Some(listener) = take_tcp(net, number, place)? {
            return Ok(Some(TcpListener::from_std(listener)));
        }
    }
    Ok(None)
}

/// How many descriptors have to be left: for a connection, and for further feeds.
const SPARE: usize = 4;

/// Whether so many descriptors are left.
fn has_spare(registry: &Registry) -> bool {
    let spare: [_; SPARE] = [
        registry.try_clone(),
        registry.try_clone(),
        registry.try_clone(),
        registry.try_clone(),
    ];
    spare.iter().all(|other| other.is_ok())
}

/// Listens there, at the listener that was handed in or else at one that is bound. Where a standard stream was closed at
/// the start, the system may give its descriptor away, and a connection would be read as a feed: such a listener is given
/// up, and so is one where no descriptor is left for a connection.
pub(crate) fn bind<N: Net>(net: &N, listen: Listen, events: Events) -> Option<Ears>
    ensures { IfSome result (λ ears. ears.is_broken ≡ false) }
{
    let place = socket_addr(listen.addr, listen.port);
    let handed = handed_at(net, place).ok()?;
    let is_handed = handed.is_some();
    let mut listener = match handed {
        Some(listener) => listener,
        None => TcpListener::bind(net, place).ok()?,
    };
    let poll = Poll::new(net).ok()?;
    if listener.as_raw_fd() < FIRST_DESCRIPTOR || poll.as_raw_fd() < FIRST_DESCRIPTOR {
        return None;
    }
    let _ = send_at_once(listener.as_raw_fd());
    poll.registry()
        .register(&mut listener, Token(LISTENER), Interest::READABLE)
        .ok()?;
    if !has_spare(poll.registry()) {
        return None;
    }
    Some(Ears {
        listener,
        poll,
        events,
        queue: Queue::Empty,
        may_make_room: true,
        is_broken: false,
        is_handed,
        waits: CallsPast::new(),
        accepts: CallsPast::new(),
    })
}

/// Whether a wait is broken. One that a signal breaks off is not.
fn is_wait_broken(waited: &io::Result<()>) -> bool
    ensures { IsWaitBroken waited.now result }
{
    match waited {
        Ok(()) => false,
        Err(error) => error.kind() != ErrorKind::Interrupted,
    }
}

impl Ears {
    /// The TCP port of the listener.
    pub(crate) fn port(&self) -> Option<u16> {
        Some(self.listener.local_addr().ok()?.port())
    }

    /// Whether the listener, or the wait for it, is broken.
    pub(crate) fn is_broken(&self) -> bool
        ensures { result ≡ self.now.is_broken }
    {
        self.is_broken
    }

    /// Whether a connection may be had at once.
    pub(crate) fn may_take(&self) -> bool {
        self.queue == Queue::Now
    }

    /// Whether the connections that wait are left to another server that has the listener.
    pub(crate) fn is_left(&self, is_last: bool) -> bool {
        is_last && self.is_handed
    }

    /// Waits for something to happen, so many milliseconds at most, and notes it. It answers what the system does.
    pub(crate) fn wait(&mut self, millis: u64, seats: &mut [Seat]) -> io::Result<()>
        ensures woken { AllZip MayBeWoken seats.old seats.new }
        ensures broken { IsWaitBroken result true → self.new.is_broken ≡ true }
        ensures fine { IsWaitBroken result false → self.new.is_broken ≡ self.old.is_broken }
        ensures stays { self.old.is_broken ≡ true → self.new.is_broken ≡ true }
        ensures waited { HasWaited self.old self.new }
        ensures accepts { self.new.accepts ≡ self.old.accepts }
    {
        let waited = self
            .poll
            .poll(&mut self.events, Some(Duration::from_millis(millis)));
        self.waits.note(&CallEvent::Made);
        note_all(&self.events, seats, &mut self.queue);
        self.is_broken = self.is_broken || is_wait_broken(&waited);
        waited
    }

    /// Whether a connection may wait at the listener that can have a place.
    fn may_ask(&self, seats: &[Seat], now: u64) -> bool
        ensures place { result ≡ true → HasPlace now seats.now }
        ensures none { result ≡ false → HasPlace now seats.now → self.now.queue ≡ Queue.Empty }
    {
        self.queue != Queue::Empty && has_place(seats, now)
    }

    /// Takes the next connection off the queue of the system, or says what came of the try. All that have a place were
    /// read before, and one more can have a place.
    fn accept_next(&mut self, seats: &[Seat], now: u64) -> Result<(TcpStream, Peer), Knock>
        requires read { All WasRead seats.now }
        requires place { HasPlace now seats.now }
        ensures deaf { IsErrOf result Knock.Deaf → self.new.is_broken ≡ true }
        ensures heard { (IsErrOf result Knock.Deaf → ⊥) → self.new.is_broken ≡ self.old.is_broken }
        ensures asked { self.new.accepts.told ≡ self.old.accepts.told + 1 }
        ensures waits { self.new.waits ≡ self.old.waits }
    {
        let answer = self.listener.accept();
        self.accepts.note(&CallEvent::Made);
        match answer {
            Ok((stream, at)) => {
                self.queue = Queue::Now;
                self.may_make_room = true;
                Ok((stream, peer_of(at)))
            }
            Err(error) => {
                self.queue = if error.kind() == ErrorKind::WouldBlock {
                    Queue::Empty
                } else {
                    Queue::Later
                };
                let knock = knock_of(&error);
                self.is_broken = self.is_broken || knock == Knock::Deaf;
                Err(knock)
            }
        }
    }

    /// Has what happens at a connection noted of a place.
    fn watched_at(&self, stream: TcpStream, i: usize) -> Option<TcpStream> {
        let mut stream = stream;
        let wanted = Interest::READABLE | Interest::WRITABLE;
        self.poll
            .registry()
            .register(&mut stream, Token(i.saturating_add(1)), wanted)
            .ok()?;
        Some(stream)
    }

    /// Takes a connection in, where there is a place for it, and reads it.
    fn take_in(
        &self,
        seats: &mut [Seat],
        rooms: &mut [Room],
        come: Come,
        most_of_one: usize,
        turns: &mut u64,
    ) -> Taken
        ensures taken { IsTakenIn come.peer.addr most_of_one come.time result
            turns.old turns.new seats.old rooms.old seats.new rooms.new }
        ensures turns { (turns.old ≤ turns.new) × (turns.new ≤ raised turns.old 1) }
    {
        let Come { stream, peer, time } = come;
        let Some(i) = place_for(seats, peer.addr, most_of_one) else {
            return Taken::Turned;
        };
        match self.watched_at(stream, i) {
            Some(stream) => {
                enter_at(seats, rooms, i, Seat::taken(stream, peer, time), turns);
                Taken::At(i)
            }
            None => Taken::Refused,
        }
    }

    /// Leaves a connection where there is no descriptor to be had, if one gives way: one at most in a turn, until a further
    /// one was taken. Answers whether one did.
    fn try_room(&mut self, knock: Knock, seats: &mut [Seat], rooms: &mut [Room], now: u64) -> bool
        ensures left { result ≡ true → (i : ℕ)
            × GivesWay now seats.old i × IsChangedAt (λ _ seat. IsVacant seat) i seats.old seats.new
            × IsChangedAt (λ _ room. IsEmpty room) i rooms.old rooms.new }
        ensures none { result ≡ false → (seats.new ≡ seats.old) × (rooms.new ≡ rooms.old) }
        ensures broken { self.new.is_broken ≡ self.old.is_broken }
        ensures asked { self.new.accepts ≡ self.old.accepts }
        ensures waits { self.new.waits ≡ self.old.waits }
    {
        if knock != Knock::Full || !self.may_make_room {
            return false;
        }
        let is_made = make_room(seats, rooms, now);
        self.may_make_room = !is_made;
        is_made
    }

    /// Tries to take the next connection in, and says how to go on.
    fn take_next(
        &mut self,
        seats: &mut [Seat],
        rooms: &mut [Room],
        most_of_one: usize,
        now: u64,
        turns: &mut u64,
    ) -> Next
        requires numbered { AreNumberedUpTo turns.old seats.old rooms.old }
        requires place { HasPlace now seats.old }
        ensures changed { AreAllChanged (λ _.
            IsLetIn now turns.old turns.new) seats.old rooms.old seats.new rooms.new }
        ensures turns { (turns.old ≤ turns.new) × (turns.new ≤ raised turns.old 1) }
        ensures broken { self.old.is_broken ≡ true → self.new.is_broken ≡ true }
        ensures ends { result ≡ Next.Broken → self.new.is_broken ≡ true }
        ensures goes { result ≢ Next.Broken → self.new.is_broken ≡ self.old.is_broken }
        ensures asked { self.new.accepts.told ≡ self.old.accepts.told + 1 }
        ensures waits { self.new.waits ≡ self.old.waits }
    {
        match self.accept_next(seats, now) {
            Ok((stream, peer)) => {
                let come = Come {
                    stream,
                    peer,
                    time: now,
                };
                let _ = self.take_in(seats, rooms, come, most_of_one, turns);
                next_behind(seats)
            }
            Err(knock) => {
                let has_room = self.try_room(knock, seats, rooms, now);
                next_of(knock, has_room)
            }
        }
    }

    /// Takes in the connections that wait at the listener, each of which is read before the next one is taken: until one
    /// waits to be handed over, and one at most where some do; as long as there is a place for one more.
    pub(crate) fn take_all(
        &mut self,
        seats: &mut [Seat],
        rooms: &mut [Room],
        most_of_one: usize,
        now: u64,
        turns: &mut u64,
    )
        requires numbered { AreNumberedUpTo turns.old seats.old rooms.old }
        ensures changed { AreAllChanged (λ _.
            IsLetIn now turns.old turns.new) seats.old rooms.old seats.new rooms.new }
        ensures turns { (turns.old ≤ turns.new)
            × (turns.new ≤ raised turns.old (length seats.old)) }
        ensures broken { self.old.is_broken ≡ true → self.new.is_broken ≡ true }
        // Where one may wait, and can have a place, the system is asked for it.
        ensures asked { MayCome now self.old seats.old
            → self.old.accepts.told < self.new.accepts.told }
        ensures waits { self.new.waits ≡ self.old.waits }
    {
        self.may_make_room = true;
        if !self.may_ask(seats, now) {
            return;
        }
        let mut next = self.take_next(seats, rooms, most_of_one, now, turns);
        for _ in 1..seats.len() {
            if !is_again(next) || !self.may_ask(seats, now) {
                return;
            }
            next = self.take_next(seats, rooms, most_of_one, now, turns);
        }
    }
}

/// Whether the next connection is tried at once.
fn is_again(next: Next) -> bool {
    match next {
        Next::Again => true,
        Next::Broken | Next::Wait => false,
    }
}

/// How a listener goes on behind a connection that it took in: it waits where one waits to be handed over.
fn next_behind(seats: &[Seat]) -> Next
    ensures { result ≢ Next.Broken }
{
    if is_any_waiting(seats) {
        Next::Wait
    } else {
        Next::Again
    }
}

/// What happened at a connection, by the system. An error is found by the next call.
fn stirring_of(event: &Event) -> Stirring {
    Stirring {
        is_readable: event.is_readable() || event.is_error() || event.is_read_closed(),
        is_writable: event.is_writable() || event.is_error() || event.is_write_closed(),
        is_closing: event.is_read_closed(),
    }
}

/// Notes what has happened.
fn note_all(events: &Events, seats: &mut [Seat], queue: &mut Queue)
    ensures { AllZip MayBeWoken seats.old seats.new }
{
    for event in events.iter() {
        let Token(number) = event.token();
        if number == LISTENER {
            *queue = Queue::Now;
        } else {
            wake_at(seats, number.saturating_sub(1), stirring_of(event));
        }
    }
}

/// Leaves the connection that is idle for the longest time, where that is long enough. Answers whether there was one.
fn make_room(seats: &mut [Seat], rooms: &mut [Room], now: u64) -> bool
    ensures left { result ≡ true → (i : ℕ)
        × GivesWay now seats.old i × IsChangedAt (λ _ seat. IsVacant seat) i seats.old seats.new
        × IsChangedAt (λ _ room. IsEmpty room) i rooms.old rooms.new }
    ensures none { result ≡ false → (seats.new ≡ seats.old) × (rooms.new ≡ rooms.old) }
{
    match oldest_idle(seats, now) {
        Some(i) => put_at(seats, rooms, i, Seat::free()),
        None => false,
    }
}
