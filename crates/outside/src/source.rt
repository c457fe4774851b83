//! Where bytes come from, piece by piece.
ghost use Rattle.std.specs.Prelude.{◌≡◌, ◌≢◌, ◌≤◌, length};
ghost use Rattle.outside.specs.Faults.{BothTell, DeviceState, Rose};
ghost use Rattle.outside.specs.Source.{Fed, IsRead, IsWithin};

/// What came of a read.
#[derive(Clone, Copy, Debug, PartialEq, Eq)]
pub enum Read {
    /// So many octets, which stand at the front of the buffer.
    Got(usize),
    /// Nothing is left.
    End,
    /// The source failed, which its count of faults shows. Nothing was taken.
    Failed,
}

/// Where bytes come from.
pub trait Source {
    /// What is left, and which pieces and buffers there were, where it tells that; and how often a read has failed.
    ghost told: { Self → DeviceState Fed };

    /// The next piece, at the front of the buffer.
    fn read(&mut self, buffer: &mut [u8]) -> Read
        requires { 1 ≤ length buffer.old }
        ensures within { IsWithin result (length buffer.old) }
        ensures read { BothTell (told self.old).past
            (told self.new).past (IsRead (length buffer.old) result buffer.new) }
        ensures later { (told self.old).faults ≤ (told self.new).faults }
        ensures cause { result ≡ Read.Failed → Rose (told self.old).faults (told self.new).faults }
        ensures stays { result ≢ Read.Failed → (told self.new).faults ≡ (told self.old).faults };
}
