//! Where datagrams come from, and where replies go.
ghost use Rattle.std.specs.Prelude.{◌≡◌, ◌≢◌, ◌≤◌, length, IfSome};
ghost use Rattle.outside.specs.Faults.{BothTell, DeviceState, Rose};
ghost use Rattle.outside.specs.Port.{PortTold, HasDue, IsOpen, IsRecv, IsSend, IsShort};
ghost use Rattle.outside.specs.declared.limits.TheConstants.{LARGEST_DATAGRAM, LARGEST_REPLY};

use addr_text::{Listen, Peer};

/// What came of an opening.
#[derive(Clone, Copy, Debug, PartialEq, Eq)]
pub enum Opening {
    /// It is open.
    Ready,
    /// It failed, which its count of faults shows.
    Failed,
}

/// What came of a wait for a datagram.
#[derive(Clone, Copy, Debug, PartialEq, Eq)]
pub enum Arrival {
    /// One of so many octets, which stand at the front of the buffer, from this sender.
    Arrived(usize, Peer),
    /// None came. One may come later.
    Idle,
    /// One came that has more octets than are answered. It was taken away.
    Oversize,
    /// None will come.
    End,
    /// The port failed, which its count of faults shows. Nothing was taken.
    Failed,
}

/// What came of a reply.
#[derive(Clone, Copy, Debug, PartialEq, Eq)]
pub enum Sending {
    /// It went.
    Sent,
    /// The port failed, which its count of faults shows.
    Failed,
}

/// Where datagrams come from and replies go.
pub trait Port {
    /// Where it was opened, what waits, and what was taken and tried, where it tells that; and how often a call has failed.
    ghost told: { Self → DeviceState PortTold };

    /// Opens the port there.
    fn open(&mut self, listen: &Listen) -> Opening
        ensures open { BothTell
            (told self.old).past (told self.new).past (IsOpen listen.now result) }
        ensures later { (told self.old).faults ≤ (told self.new).faults }
        ensures cause { result ≡ Opening.Failed
            → Rose (told self.old).faults (told self.new).faults }
        ensures stays { result ≢ Opening.Failed → (told self.new).faults ≡ (told self.old).faults };

    /// Takes the next datagram, to the front of the buffer. `known` is the greatest serial that the caller knows.
    fn recv(&mut self, known: u64, buffer: &mut [u8]) -> Arrival
        requires { LARGEST_DATAGRAM ≤ length buffer.old }
        ensures recv { BothTell
            (told self.old).past (told self.new).past (IsRecv known buffer.new result) }
        ensures short { IsShort result }
        ensures buffer { length buffer.new ≡ length buffer.old }
        ensures later { (told self.old).faults ≤ (told self.new).faults }
        ensures cause { result ≡ Arrival.Failed
            → Rose (told self.old).faults (told self.new).faults }
        ensures stays { result ≢ Arrival.Failed → (told self.new).faults ≡ (told self.old).faults };

    /// Tries to send a reply of the map of that serial.
    fn send(&mut self, octets: &[u8], peer: Peer, serial: u64) -> Sending
        requires due { IfSome (told self.old).past HasDue }
        requires short { length octets.now ≤ LARGEST_REPLY }
        ensures send { BothTell
            (told self.old).past (told self.new).past (IsSend octets.now peer serial result) }
        ensures later { (told self.old).faults ≤ (told self.new).faults }
        ensures cause { result ≡ Sending.Failed
            → Rose (told self.old).faults (told self.new).faults }
        ensures stays { result ≢ Sending.Failed → (told self.new).faults ≡ (told self.old).faults };
}
