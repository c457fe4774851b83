//! The octets of a connection: those that came and are to be handed over, and those of replies that are to go.
ghost use Rattle.std.specs.Prelude.{◌≡◌, ◌≤◌, ◌<◌, ◌+◌, ◌⊎◌, ◌++◌, drop, length, slice_get, true, false, Some, MatchBool, IfNone, IfSome};
ghost use Rattle.edges.specs.Rooms.{IsChangedAt, IsDue, IsEmpty, IsHandingOver, IsKeeping, IsNotDue};
ghost use Rattle.edges.specs.declared.room.Room.{Room};

use arrayvec::ArrayVec;
use tcp_frames::{Batch, LARGEST_FRAME, LARGEST_REPLY_FRAME, MOST_MESSAGES, batch_of};

/// How many octets of replies are held: those to the messages that are handed over at once.
pub(crate) const LARGEST_GOING: usize = MOST_MESSAGES * LARGEST_REPLY_FRAME;

/// The octets of a connection. Of those that came there is room for a message of the greatest length, behind that length.
#[derive(Drop)]
pub(crate) struct Room {
    pub(crate) coming: ArrayVec<u8, LARGEST_FRAME>,
    pub(crate) going: ArrayVec<u8, LARGEST_GOING>,
}

/// Drops the first octets, and moves those behind them to the front.
fn drop_front<const N: usize>(octets: &mut ArrayVec<u8, N>, len: usize)
    ensures { octets.new.items ≡ drop len octets.old.items }
{
    let count = octets.len();
    if len >= count {
        octets.clear();
        return;
    }
    octets.as_mut_slice().copy_within(len.., 0);
    octets.truncate(count - len);
}

impl Room {
    /// One without octets.
    pub(crate) fn new() -> Room
        ensures { IsEmpty result }
    {
        Room {
            coming: ArrayVec::new(),
            going: ArrayVec::new(),
        }
    }

    /// Forgets all octets.
    pub(crate) fn clear(&mut self)
        ensures { IsEmpty self.new }
    {
        self.coming.clear();
        self.going.clear();
    }

    /// Hands over what stands at the front of what has come: moves it to the front of a buffer, and answers how many
    /// octets these are. They are whole messages, or the length that is too great for one.
    pub(crate) fn hand_over(&mut self, buffer: &mut [u8]) -> Batch
        ensures { IsHandingOver buffer.old buffer.new result self.old self.new }
    {
        let most = buffer.len().min(self.coming.len());
        let batch = batch_of(&self.coming.as_slice()[..most]);
        buffer[..batch.len].copy_from_slice(&self.coming.as_slice()[..batch.len]);
        drop_front(&mut self.coming, batch.len);
        batch
    }

    /// Keeps a reply behind those that are to go, where there is room for it. It answers whether there was.
    pub(crate) fn keep(&mut self, reply: &[u8]) -> bool
        ensures keep { IsKeeping reply.now result self.old self.new }
        ensures fits { length self.old.going.items + length reply.now ≤ LARGEST_GOING
            → result ≡ true }
    {
        self.going.try_extend_from_slice(reply).is_ok()
    }

    /// Whether there is something to hand over, and no reply is to go.
    pub(crate) fn is_due(&self) -> bool
        ensures { MatchBool result (IsDue self.now) (IsNotDue self.now) }
    {
        self.going.is_empty() && batch_of(self.coming.as_slice()).len > 0
    }

    /// Takes octets that came, if there is room for them.
    pub(crate) fn take_in(&mut self, piece: &[u8])
        ensures came { (self.new.coming.items ≡ self.old.coming.items ++ piece.now)
            ⊎ (self.new.coming.items ≡ self.old.coming.items) }
        ensures room { length self.old.coming.items + length piece.now ≤ LARGEST_FRAME
            → self.new.coming.items ≡ self.old.coming.items ++ piece.now }
        ensures going { self.new.going.items ≡ self.old.going.items }
    {
        let _ = self.coming.try_extend_from_slice(piece);
    }

    /// Lets go the first octets of what goes.
    pub(crate) fn let_go(&mut self, len: usize)
        ensures going { self.new.going.items ≡ drop len self.old.going.items }
        ensures coming { self.new.coming.items ≡ self.old.coming.items }
    {
        drop_front(&mut self.going, len);
    }
}

/// Hands over what stands at the front of what has come to the room of a place, if there is such a place.
pub(crate) fn hand_over_at(rooms: &mut [Room], i: usize, buffer: &mut [u8]) -> Option<Batch>
    ensures some { IfSome result (λ batch.
        IsChangedAt (IsHandingOver buffer.old buffer.new batch) i rooms.old rooms.new) }
    ensures none { IfNone result ((rooms.new ≡ rooms.old) × (length rooms.old ≤ i)) }
{
    if i >= rooms.len() {
        return None;
    }
    Some(rooms[i].hand_over(buffer))
}

/// Keeps a reply in the room of a place, where there is room for it. It answers whether there was.
pub(crate) fn keep_at(rooms: &mut [Room], i: usize, reply: &[u8]) -> bool
    ensures kept { result ≡ true → IsChangedAt (IsKeeping reply.now true) i rooms.old rooms.new }
    ensures full { result ≡ false
        → (rooms.new ≡ rooms.old) ⊎ IsChangedAt (IsKeeping reply.now false) i rooms.old rooms.new }
    ensures fits { result ≡ false → (room : Room) → slice_get rooms.old i ≡ Some room
        → LARGEST_GOING < length room.going.items + length reply.now }
{
    i < rooms.len() && rooms[i].keep(reply)
}
