//! Where conversations come from, what is read of them, and where replies go.
ghost use Rattle.std.specs.Prelude.{◌≡◌, ◌≢◌, ◌≤◌, length};
ghost use Rattle.outside.specs.Faults.{BothTell, DeviceState, Rose};
ghost use Rattle.outside.specs.Streams.{IsAccept, IsOpening, IsRead, IsWithin, IsWrite, StreamsTold, closing};

use crate::Opening;
use addr_text::{Listen, Peer};

/// What came of a wait for a conversation.
#[derive(Clone, Copy, Debug, PartialEq, Eq)]
pub enum Accepting {
    /// One with this peer. It is the one that is open from now on.
    Come(Peer),
    /// None came. One may come later.
    Idle,
    /// None will come.
    End,
    /// They failed, which their count of faults shows.
    Failed,
}

/// What came of a read.
#[derive(Clone, Copy, Debug, PartialEq, Eq)]
pub enum Reading {
    /// So many octets, which stand at the front of the buffer.
    Got(usize),
    /// None came. Some may come later.
    Quiet,
    /// None will come.
    Closed,
    /// They failed, which their count of faults shows. Nothing was taken.
    Failed,
}

/// What came of a write.
#[derive(Clone, Copy, Debug, PartialEq, Eq)]
pub enum Writing {
    /// All was written.
    Done,
    /// They failed, which their count of faults shows. The first octets may have been written.
    Failed,
}

/// Conversations over connections, of which one is open at a time.
pub trait Streams {
    /// Where they were opened, and each conversation, where they tell that; and how often a call has failed.
    ghost told: { Self → DeviceState StreamsTold };

    /// Opens them there.
    fn open(&mut self, listen: &Listen) -> Opening
        ensures open { BothTell
            (told self.old).past (told self.new).past (IsOpening listen.now result) }
        ensures later { (told self.old).faults ≤ (told self.new).faults }
        ensures cause { result ≡ Opening.Failed
            → Rose (told self.old).faults (told self.new).faults }
        ensures stays { result ≢ Opening.Failed → (told self.new).faults ≡ (told self.old).faults };

    /// Waits for the next conversation. One that is open is closed where another comes. `known` is the greatest serial that the caller knows.
    fn accept(&mut self, known: u64) -> Accepting
        ensures accept { BothTell
            (told self.old).past (told self.new).past (IsAccept known result) }
        ensures later { (told self.old).faults ≤ (told self.new).faults }
        ensures cause { result ≡ Accepting.Failed
            → Rose (told self.old).faults (told self.new).faults }
        ensures stays { result ≢ Accepting.Failed
            → (told self.new).faults ≡ (told self.old).faults };

    /// Reads the next piece of the open conversation, to the front of the buffer. `known` is as for `accept`. With none open no conversation changes.
    fn read(&mut self, known: u64, buffer: &mut [u8]) -> Reading
        requires { 1 ≤ length buffer.old }
        ensures read { BothTell (told self.old).past
            (told self.new).past (IsRead known (length buffer.old) buffer.new result) }
        ensures within { IsWithin result (length buffer.old) }
        ensures buffer { length buffer.new ≡ length buffer.old }
        ensures later { (told self.old).faults ≤ (told self.new).faults }
        ensures cause { result ≡ Reading.Failed
            → Rose (told self.old).faults (told self.new).faults }
        ensures stays { result ≢ Reading.Failed → (told self.new).faults ≡ (told self.old).faults };

    /// Writes to the open conversation a reply of the map of that serial. With none open no conversation changes.
    fn write(&mut self, serial: u64, octets: &[u8]) -> Writing
        ensures write { BothTell
            (told self.old).past (told self.new).past (IsWrite serial octets.now result) }
        ensures later { (told self.old).faults ≤ (told self.new).faults }
        ensures cause { result ≡ Writing.Failed
            → Rose (told self.old).faults (told self.new).faults }
        ensures stays { result ≢ Writing.Failed → (told self.new).faults ≡ (told self.old).faults };

    /// Closes the open conversation.
    fn close(&mut self)
        ensures close { BothTell (told self.old).past (told self.new).past (λ before after.
            after ≡ closing before) }
        ensures stays { (told self.new).faults ≡ (told self.old).faults };
}
